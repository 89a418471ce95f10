//! What a hart reads and writes.
ghost use Rattle.std.specs.Prelude.{◌≡◌, ◌≢◌, ◌<◌, ◌*◌, ◌^◌, Err, IsTrue, IsOk, IfOk, is_ok, if◌then◌else◌};
ghost use Rattle.rv_exec.specs.Answers.{Answers, is_access, StoreGives};

use rv_csr::Inputs;

/// Why a bus doesn't answer.
#[derive(Clone, Copy, PartialEq, Eq, Debug)]
pub enum BusError {
    /// No such access is possible there.
    Fault,
    /// The access reads the clock, of which no value is in hand.
    NeedClock,
    NoMemory,
}

/// What a hart reads and writes: the memory and the devices.
pub trait Bus {
    ghost answers: { Answers Self };

    /// Reads 1, 2 or 4 bytes, little-endian.
    fn load(&mut self, at: u32, size: u32) -> Result<u32, BusError>
        requires { IsTrue (is_access at size) }
        ensures answer { result ≡ answers.load self.old at size }
        ensures after { self.new
            ≡ (if is_ok result then answers.loaded self.old at size else self.old) }
        ensures fits { IfOk result (λ value. value < 2 ^ (8 * size)) }

        // RAM always answers, and reading it changes nothing.
        ensures ram { IsTrue (answers.is_ram self.old at) → IsOk result }
        ensures ram_stays { IsTrue (answers.is_ram self.old at) → self.new ≡ self.old }
        ensures memory { result ≢ Err BusError.NoMemory };

    /// Writes 1, 2 or 4 bytes, little-endian.
    fn store(&mut self, at: u32, size: u32, value: u32) -> Result<(), BusError>
        requires access { IsTrue (is_access at size) }
        requires fits { value < 2 ^ (8 * size) }
        ensures answer { StoreGives answers self.old at size value result self.new }
        ensures memory { result ≡ Err BusError.NoMemory → IsTrue (answers.may_want self.old at size) }
        ensures ram { IsTrue (answers.is_ram self.old at)
            → IsTrue (answers.can_store self.old at size) };

    /// Whether the address lies in RAM.
    fn is_ram(&self, at: u32) -> bool
        ensures { result ≡ answers.is_ram self.now at };

    /// What comes to the hart from outside.
    fn inputs(&self) -> Inputs
        ensures { result ≡ answers.inputs self.now };
}
