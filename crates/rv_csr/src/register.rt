//! The numbers of the control registers (Privileged ISA, 2.2 CSR Listing).
ghost use Rattle.std.specs.Prelude.{◌≡◌};
ghost use Rattle.rv_csr.specs.Table.{table, at_number};

/// A register that has a number. The four that name vendor, architecture, implementation and hart
/// are one here.
#[derive(Clone, Copy, PartialEq, Eq, Debug)]
pub enum Register {
    Mstatus,
    Misa,
    Mie,
    Mtvec,
    Mcounteren,
    Mscratch,
    Mepc,
    Mcause,
    Mtval,
    Mip,
    Mcycle,
    Mcycleh,
    Minstret,
    Minstreth,
    Cycle,
    Cycleh,
    Time,
    Timeh,
    Instret,
    Instreth,
    Identity,
}

impl Register {
    /// The register with this number.
    pub fn numbered(number: u16) -> Option<Register>
        ensures { result ≡ at_number table number }
    {
        Some(match number {
            0x300 => Register::Mstatus,
            0x301 => Register::Misa,
            0x304 => Register::Mie,
            0x305 => Register::Mtvec,
            0x306 => Register::Mcounteren,
            0x340 => Register::Mscratch,
            0x341 => Register::Mepc,
            0x342 => Register::Mcause,
            0x343 => Register::Mtval,
            0x344 => Register::Mip,
            0xb00 => Register::Mcycle,
            0xb80 => Register::Mcycleh,
            0xb02 => Register::Minstret,
            0xb82 => Register::Minstreth,
            0xc00 => Register::Cycle,
            0xc80 => Register::Cycleh,
            0xc01 => Register::Time,
            0xc81 => Register::Timeh,
            0xc02 => Register::Instret,
            0xc82 => Register::Instreth,
            0xf11..=0xf14 => Register::Identity,
            _ => return None,
        })
    }
}
