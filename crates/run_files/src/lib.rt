//! The files that a run reads: the firmware and the images that a log's header names, whole, and
//! the log as a stream.
//!
//! A file that is read whole is opened in a world by its role and name, read up to a limit, and
//! given back. The contracts tell which file was opened, how often it failed, and what its bytes
//! come to.
#![tactic(auto)]

mod difference;
mod files;
mod firmware;
mod images;
mod logs;
mod reading;

pub use difference::Difference;
pub use files::{FileFault, read_file};
pub use firmware::{FIRMWARE_LIMIT, Firmware, FirmwareFault, digest, read_firmware};
pub use images::{ImageFault, read_image};
pub use logs::open_log;
pub use reading::{ReadError, read_all};
