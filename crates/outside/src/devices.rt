//! What a source, a sink, an image and a host's clock are: by what they hold or have taken, and by
//! how often they failed.
ghost use Rattle.std.specs.Prelude.{◌≡◌, ◌<◌, ◌≤◌, List, ℕ, length, [], ◌∷◌, ◌+◌, take, drop, IfOk, IfSome, OnOk};
ghost use Rattle.std.specs.declared.option.Option.{Option};
ghost use Rattle.std.specs.Io.{ReadsAtMost, WritesAtMost};
ghost use Rattle.std.specs.Io.KnownBytes.{ReadConsumes};
ghost use Rattle.outside.specs.Causes.{HasCause};
ghost use Rattle.outside.specs.Told.{StaysQuiet, Takes, WriteTakes};
ghost use Rattle.outside.specs.declared.roles.Role.{Role};

/// A device failed in this call, and its count of faults rose.
#[derive(Clone, Copy, Debug, PartialEq, Eq)]
pub struct Failed;

/// Bytes to read, in order.
pub trait Source {
    /// The bytes that are left, where it tells them. One that tells none never tells any again.
    ghost left: { Self → Option (List ℕ) };

    /// How often it failed. The count never falls, and stays at `u64::MAX` once it is there.
    ghost faults: { Self → ℕ };

    /// Fills a front of the buffer with the next bytes, at least one where some are left. So 0
    /// comes exactly at the end. A failure leaves the bytes that are left as they were.
    fn read(&mut self, buf: &mut [u8]) -> Result<usize, Failed>
        requires { 0 < length buf.old }
        ensures count { ReadsAtMost result buf.new }
        ensures bytes { ReadConsumes (left self.old) (left self.new) result buf.new }
        ensures quiet { StaysQuiet (left self.old) (left self.new) }
        ensures cause { HasCause (faults self.old) (faults self.new) result };
}

/// Takes bytes, in order.
pub trait Sink {
    /// The role that a world opened it for, where one did.
    ghost role: { Self → Option Role };

    /// The bytes taken, where it tells them. One that tells none never tells any again.
    ghost taken: { Self → Option (List ℕ) };

    /// How often it failed. The count never falls, and stays at `u64::MAX` once it is there.
    ghost faults: { Self → ℕ };

    /// Takes a front of the bytes, at least one. A failure leaves the bytes taken as they were.
    fn write(&mut self, bytes: &[u8]) -> Result<usize, Failed>
        requires { 0 < length bytes.now }
        ensures count { WritesAtMost result bytes.now }
        ensures some { IfOk result (λ n. 0 < n) }
        ensures bytes { WriteTakes (taken self.old) (taken self.new) result bytes.now }
        ensures role { role self.new ≡ role self.old }
        ensures cause { HasCause (faults self.old) (faults self.new) result };
}

impl<S: Source> Source for &mut S {
    ghost left = { λ s. S.left s.now };

    ghost faults = { λ s. S.faults s.now };

    fn read(&mut self, buf: &mut [u8]) -> Result<usize, Failed> {
        (**self).read(buf)
    }
}

impl<K: Sink> Sink for &mut K {
    ghost role = { λ k. K.role k.now };

    ghost taken = { λ k. K.taken k.now };

    ghost faults = { λ k. K.faults k.now };

    fn write(&mut self, bytes: &[u8]) -> Result<usize, Failed> {
        (**self).write(bytes)
    }
}

/// Bytes to read at any place. Neither its length nor what it tells of its bytes ever changes.
pub trait Image {
    /// The bytes, where it tells them.
    ghost content: { Self → Option (List ℕ) };

    /// How many bytes it has.
    ghost size: { Self → ℕ };

    /// How often it failed. The count never falls, and stays at `u64::MAX` once it is there.
    ghost faults: { Self → ℕ };

    /// How many bytes it has.
    fn len(&self) -> u64
        ensures size { result ≡ size self.now }
        ensures told { IfSome (content self.now) (λ xs. length xs ≡ result) };

    /// Fills the buffer with the bytes from `at` on. After a failure the buffer's content is open.
    fn read_at(&mut self, at: u64, buf: &mut [u8]) -> Result<(), Failed>
        requires { at + length buf.old ≤ size self.old }
        ensures bytes { OnOk result
            (IfSome (content self.old) (λ xs. buf.new ≡ take (length buf.old) (drop at xs))) }
        ensures same { content self.new ≡ content self.old }
        ensures size { size self.new ≡ size self.old }
        ensures cause { HasCause (faults self.old) (faults self.new) result };
}

/// The host's clock. It can't fail.
pub trait HostClock {
    /// The values that it gave, where it tells them. One that tells none never tells any again.
    ghost gave: { Self → Option (List ℕ) };

    /// The time in nanoseconds, from any start.
    fn now(&mut self) -> u64
        ensures { Takes (gave self.old) (gave self.new) (result ∷ []) };
}
