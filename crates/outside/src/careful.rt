//! A sink that takes all of what it is given, or says that it failed.
ghost use Rattle.std.specs.Prelude.{◌≡◌, OnOk};
ghost use Rattle.outside.specs.Causes.{HasCause};
ghost use Rattle.outside.specs.Told.{Takes, TakesFront};

use crate::{Failed, Sink};
use std::marker::Model;

/// Writes whole pieces to a sink. Contracts see it as that sink, with its count of faults.
#[derive(Drop)]
pub struct Careful<S> {
    sink: S,
}

impl<S> Model for Careful<S> {
    ghost Value = { S };

    ghost view = { λ c. c.sink };
}

impl<S: Sink> Sink for Careful<S> {
    ghost role = { S.role };

    ghost taken = { S.taken };

    ghost faults = { S.faults };

    fn write(&mut self, bytes: &[u8]) -> Result<usize, Failed> {
        self.sink.write(bytes)
    }
}

impl<S: Sink> Careful<S> {
    /// Wraps the sink.
    pub fn new(sink: S) -> Self
        ensures { result ≡ sink }
    {
        Careful { sink }
    }

    /// Writes all of the bytes, in as many writes as it takes. After a failure a front of them,
    /// maybe none, was taken.
    pub fn put_all(&mut self, bytes: &[u8]) -> Result<(), Failed>
        ensures all { OnOk result (Takes (S.taken self.old) (S.taken self.new) bytes.now) }
        ensures front { TakesFront (S.taken self.old) (S.taken self.new) bytes.now }
        ensures role { S.role self.new ≡ S.role self.old }
        ensures cause { HasCause (S.faults self.old) (S.faults self.new) result }
    {
        let mut done = 0;
        while done < bytes.len() {
            done += self.sink.write(&bytes[done..])?;
        }
        Ok(())
    }

    /// Gives the sink back.
    pub fn into_inner(self) -> S
        ensures { result ≡ self }
    {
        let Careful { sink } = self;
        sink
    }
}
