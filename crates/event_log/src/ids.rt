//! The bytes that name an event, and the ranges of its fields.

// What an event begins with.
pub const INSTRUCTION: u8 = 0;

pub const INTERRUPT: u8 = 1;

pub const EXCEPTION: u8 = 2;

pub const ASYNC: u8 = 3;

pub const CLOCK: u8 = 4;

pub const CHECKPOINT: u8 = 5;

pub const END: u8 = 6;

// What an event from outside goes on with.
pub const CHAR_READ: u8 = 0;

pub const BLOCK: u8 = 1;

pub const NET: u8 = 2;

// The one console, network adapter and clock, and the flags of each packet.
pub const CONSOLE: u8 = 0;

pub const ADAPTER: u8 = 0;

pub const HOST_CLOCK: u8 = 0;

pub const FLAGS: u32 = 0;

// How a request to the disk went.
pub const DONE: u8 = 0;

pub const FAILED: u8 = 1;

// What a checkpoint was made for.
pub const SLICE: u8 = 0;

pub const IDLE: u8 = 1;

/// The reason of an end that has a code: the guest ended.
pub const GUEST_ENDED: u8 = 0;

/// The last reason: a fault of a device.
pub const DEVICE_FAULT: u8 = 3;

/// How many bytes the console gives at most; it gives at least one.
pub const MAX_CHAR_READ: u32 = 256;

// How many bytes a packet has: the header of an Ethernet frame, and at most 1,500 more.
pub const MIN_PACKET: u32 = 14;

pub const MAX_PACKET: u32 = 1514;
