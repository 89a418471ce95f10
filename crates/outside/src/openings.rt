//! What a world opened.

use crate::Role;
use crate::past::Past;

/// An opening of a device, with its role and with the name that was given for it.
#[derive(Drop)]
pub enum Opening {
    Source(Role, Option<Past<u8>>),
    Sink(Role, Option<Past<u8>>),
    Disk(Option<Past<u8>>),
    Clock,
}
