//! Writes that want of memory can still call off.

ghost use Rattle.std.specs.Prelude.{◌≡◌, ◌+◌, ◌≤◌, ◌<◌, ◌*◌, ◌^◌, ◌↔◌, length, MatchResult, IfOk, IfErr, OnOk, OnErr, IfSome, IfNone, IsTrue};
ghost use Rattle.byteorder.specs.Endian.{little_bytes};
ghost use Rattle.ram_pages.specs.Draft.{with_pages, AllFit};
ghost use Rattle.ram_pages.specs.Memory.{ram_start, LiesIn, IsSize, number_at, bytes_at, written};
ghost use Rattle.ram_pages.specs.Paging.{joined, ArePages};
ghost use Rattle.ram_pages.specs.Refusal.{IsRefusal};

use crate::fresh::{
    Fresh, copy_with, len_with, number_with, u16_with, u32_with, u64_with, write_with,
};
use crate::page::Page;
use crate::ram::{RamError, START};
use std::alloc::Global;
use std::marker::Model;
use std::rc::Rc;

/// A RAM as it will be. It holds copies of the pages that are written alone, and the RAM stays as
/// it is until the changes are put in.
#[derive(Drop)]
pub struct Draft<'a> {
    pages: &'a [Rc<Page>],
    fresh: Vec<Fresh>,
}

impl<'a> Model for Draft<'a> {
    ghost use Rattle.std.specs.Prelude.{length};
    ghost use Rattle.ram_pages.specs.Draft.{Drafted};
    ghost use Rattle.ram_pages.specs.Paging.{joined, ArePages};
    ghost use Rattle.ram_pages.specs.Standing.{laid, AreFresh};

    ghost Value = { Drafted };

    ghost view = { λ d. record { before = joined d.pages.now; bytes = joined (laid d.fresh.items d.pages.now) } };

    ghost invariant = { λ d. (ArePages d.pages.now) × AreFresh (length d.pages.now) d.fresh.items };
}

/// The pages that a draft wrote, in the order of the writes.
#[derive(Drop)]
pub struct Changes {
    pub(crate) fresh: Vec<Fresh>,
}

impl Model for Changes {
    ghost use Rattle.std.specs.Prelude.{ℕ, List, map};
    ghost use Rattle.ram_pages.specs.Standing.{change_of};

    ghost Value = { List (ℕ × List ℕ) };

    ghost view = { λ c. map change_of c.fresh.items };
}

impl<'a> Draft<'a> {
    /// A draft in which nothing is written yet.
    pub(crate) fn of(alloc: Global, pages: &'a [Rc<Page>]) -> Draft<'a>
        requires { ArePages pages.now }
        ensures before { result.before ≡ joined pages.now }
        ensures bytes { result.bytes ≡ joined pages.now }
    {
        Draft {
            pages,
            fresh: Vec::new(alloc),
        }
    }

    /// The place in the list of bytes of a range that lies wholly in RAM.
    fn place_of(&self, at: u64, len: u64) -> Option<usize>
        ensures found { IfSome result
            (λ place. LiesIn self.now.bytes at len × (ram_start + place ≡ at)) }
        ensures outside { IfNone result (¬ LiesIn self.now.bytes at len) }
    {
        let place = (at as usize).checked_sub(START)?;
        let all = len_with(self.pages, self.fresh.as_slice());
        let room = all.checked_sub(place)?;
        if len as usize <= room {
            Some(place)
        } else {
            None
        }
    }

    /// Whether a range lies wholly in RAM, as `Ram::holds`.
    pub fn holds(&self, at: u64, len: u64) -> bool
        ensures exact { IsTrue result ↔ LiesIn self.now.bytes at len }
        ensures small { length self.now.bytes ≤ 2 ^ 26 }
    {
        let all = len_with(self.pages, self.fresh.as_slice());
        let at = at as usize;
        at >= START && at - START <= all && len as usize <= all - (at - START)
    }

    /// The number of 1, 2 or 4 bytes in a range.
    pub fn load(&self, at: u32, size: u32) -> Result<u32, RamError>
        requires { IsSize size }
        ensures { MatchResult result
            (λ x. LiesIn self.now.bytes at size × (x ≡ number_at self.now.bytes at size))
            (λ e. (e ≡ RamError.Outside) × ¬ LiesIn self.now.bytes at size) }
    {
        match self.place_of(u64::from(at), u64::from(size)) {
            Some(place) => Ok(number_with(self.pages, self.fresh.as_slice(), place, size)),
            None => Err(RamError::Outside),
        }
    }

    /// The number of two bytes that lie in RAM.
    pub fn read_u16(&self, at: u64) -> u16
        requires { LiesIn self.now.bytes at 2 }
        ensures { result ≡ number_at self.now.bytes at 2 }
    {
        u16_with(self.pages, self.fresh.as_slice(), at as usize - START)
    }

    /// The number of four bytes that lie in RAM.
    pub fn read_u32(&self, at: u64) -> u32
        requires { LiesIn self.now.bytes at 4 }
        ensures { result ≡ number_at self.now.bytes at 4 }
    {
        u32_with(self.pages, self.fresh.as_slice(), at as usize - START)
    }

    /// The number of eight bytes that lie in RAM.
    pub fn read_u64(&self, at: u64) -> u64
        requires { LiesIn self.now.bytes at 8 }
        ensures { result ≡ number_at self.now.bytes at 8 }
    {
        u64_with(self.pages, self.fresh.as_slice(), at as usize - START)
    }

    /// A copy of the bytes in a range.
    pub fn copy_out(&self, alloc: Global, at: u64, len: u32) -> Result<Vec<u8>, RamError>
        ensures ok { IfOk result
            (λ bytes. LiesIn self.now.bytes at len × (bytes.items ≡ bytes_at self.now.bytes at len)) }
        ensures err { IfErr result (λ e. IsRefusal self.now.bytes at len e) }
    {
        let place = match self.place_of(at, u64::from(len)) {
            Some(place) => place,
            None => return Err(RamError::Outside),
        };
        let mut bytes = Vec::with_capacity(alloc, len as usize)?;
        copy_with(
            self.pages,
            self.fresh.as_slice(),
            place,
            len as usize,
            &mut bytes,
        )?;
        Ok(bytes)
    }

    /// Writes the low 1, 2 or 4 bytes of a number over a range.
    pub fn store(&mut self, at: u32, size: u32, value: u32) -> Result<(), RamError>
        requires { IsSize size }
        ensures before { self.new.before ≡ self.old.before }
        ensures ok { OnOk result (LiesIn self.old.bytes at size
            × (self.new.bytes ≡ written self.old.bytes at (little_bytes size value))) }
        ensures err { IfErr result (λ e. (self.new ≡ self.old) × IsRefusal self.old.bytes at size e) }
    {
        match size {
            1 => self.copy_in(u64::from(at), &[(value & 0xff) as u8]),
            2 => self.copy_in(u64::from(at), &((value & 0xffff) as u16).to_le_bytes()),
            _ => self.copy_in(u64::from(at), &value.to_le_bytes()),
        }
    }

    /// Writes bytes over a range.
    pub fn copy_in(&mut self, at: u64, bytes: &[u8]) -> Result<(), RamError>
        ensures before { self.new.before ≡ self.old.before }
        ensures ok { OnOk result (LiesIn self.old.bytes at (length bytes.now)
            × (self.new.bytes ≡ written self.old.bytes at bytes.now)) }
        ensures err { IfErr result
            (λ e. (self.new ≡ self.old) × IsRefusal self.old.bytes at (length bytes.now) e) }
    {
        let place = match self.place_of(at, bytes.len() as u64) {
            Some(place) => place,
            None => return Err(RamError::Outside),
        };
        match write_with(self.pages, &mut self.fresh, place, bytes) {
            Ok(()) => Ok(()),
            Err(_) => Err(RamError::NoMemory),
        }
    }

    /// The changes, to be put into the RAM that this is a draft of.
    pub fn finish(self) -> Changes
        ensures whole { with_pages result self.entry.before ≡ self.entry.bytes }
        ensures fits { AllFit result self.entry.before }
    {
        Changes { fresh: self.fresh }
    }
}
