//! What a run is configured with.

ghost use Rattle.std.specs.Prelude.{◌≡◌};
ghost use Rattle.board.specs.Reset.{config_of};

use event_log::Header;

/// The settings of a run, in the ranges of a log's header.
#[derive(Clone, Copy, Debug, PartialEq, Eq)]
pub struct Config {
    /// The binary logarithm of a turn's nanoseconds, 0 to 10.
    pub shift: u8,
    /// The RAM in MiB, 1 to 64.
    pub ram_mib: u8,
    /// The turns from one checkpoint to the next, 1 to 65536.
    pub slice: u32,
    /// The turns of the whole run, at most 2^40.
    pub budget: u64,
    /// The bytes of the disk, 0 where there is none.
    pub disk_len: u64,
}

impl Config {
    /// What a log's header says of the machine.
    pub fn of(header: &Header) -> Config
        ensures { result ≡ config_of header.now }
    {
        Config {
            shift: header.shift,
            ram_mib: header.ram_mib,
            slice: header.slice,
            budget: header.budget,
            disk_len: header.disk_len,
        }
    }
}
