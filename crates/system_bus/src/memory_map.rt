//! The memory map: where the devices lie.

ghost use Rattle.std.specs.Prelude.{◌≡◌, true, IfSome};
ghost use Rattle.system_bus.specs.MemoryMap.{register_at as register_of, accessed as accessed_of, allows as allows_of};

/// A device's range of addresses.
#[derive(Clone, Copy, Debug, PartialEq, Eq)]
pub enum Region {
    Finisher,
    Rtc,
    Clint,
    Plic,
    Uart,
}

/// What an access reaches in a region.
#[derive(Clone, Copy, Debug, PartialEq, Eq)]
pub struct Register {
    pub region: Region,
    /// Bytes from the region's start.
    pub offset: u32,
    /// The bytes of the access.
    pub size: u32,
}

impl Region {
    /// Whether it allows an access of so many bytes at this offset: the UART's registers are bytes,
    /// and those of each other device are words, all over its region.
    fn allows(self, offset: u32, size: u32) -> bool
        ensures { result ≡ allows_of self offset size }
    {
        match self {
            Region::Finisher | Region::Rtc | Region::Clint | Region::Plic => size == 4,
            Region::Uart => size == 1,
        }
    }

    /// What an access of so many bytes at this offset reaches, where the region allows it.
    fn accessed(self, offset: u32, size: u32) -> Option<Register>
        ensures register { result ≡ accessed_of self offset size }
        ensures size { IfSome result (λ r. (r.size ≡ size) × (allows_of r.region r.offset r.size ≡ true)) }
    {
        if !self.allows(offset, size) {
            return None;
        }
        Some(Register {
            region: self,
            offset,
            size,
        })
    }
}

/// The register that an access of so many bytes at an address is to, where the map has one.
#[tactic(auto, unfolding(crate::specs::MemoryMap::register_at))]
pub fn register_at(at: u32, size: u32) -> Option<Register>
    ensures register { result ≡ register_of at size }
    ensures size { IfSome result (λ r. (r.size ≡ size) × (allows_of r.region r.offset r.size ≡ true)) }
{
    match at {
        0x0010_0000..=0x0010_0fff => Region::Finisher.accessed(at - 0x0010_0000, size),
        0x0010_1000..=0x0010_1fff => Region::Rtc.accessed(at - 0x0010_1000, size),
        0x0200_0000..=0x0200_ffff => Region::Clint.accessed(at - 0x0200_0000, size),
        0x0c00_0000..=0x0c3f_ffff => Region::Plic.accessed(at - 0x0c00_0000, size),
        0x1000_0000..=0x1000_00ff => Region::Uart.accessed(at - 0x1000_0000, size),
        _ => None,
    }
}
