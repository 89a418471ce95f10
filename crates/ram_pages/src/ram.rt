//! The RAM.

ghost use Rattle.std.specs.Prelude.{◌≡◌, ◌+◌, ◌%◌, ◌≤◌, ◌<◌, ◌*◌, ◌^◌, ◌↔◌, length, MatchResult, IfOk, IfErr, OnOk, OnErr, IfSome, IfNone, IsTrue};
ghost use Rattle.byteorder.specs.Endian.{little_bytes};
ghost use Rattle.ram_pages.specs.Draft.{with_pages, AllFit};
ghost use Rattle.ram_pages.specs.Memory.{ram_start, LiesIn, IsSize, number_at, bytes_at, overwritten, written, zeros};
ghost use Rattle.ram_pages.specs.Refusal.{IsRefusal};

use crate::NoMemory;
use crate::draft::{Changes, Draft};
use crate::fresh::{lay, settle, write_with};
use crate::page::{PAGE, Page};
use crate::pages::{blank, has_page, len_of, shared};
use crate::reading::{copy_from, number_in, number_in_page, u16_at, u32_at, u64_at};
use crate::writing::write_in_page;
use std::alloc::Global;
use std::marker::Model;
use std::rc::Rc;

/// The guest's address of the first byte.
pub(crate) const START: usize = 0x8000_0000;

const PAGES_OF_A_MIB: usize = (1 << 20) / PAGE;

/// Why an access was refused.
#[derive(Clone, Copy, Debug, PartialEq, Eq)]
pub enum RamError {
    /// The range isn't wholly in RAM.
    Outside,
    NoMemory,
}

impl From<NoMemory> for RamError {
    ghost use Rattle.std.specs.Prelude.{◌≡◌};
    ghost use Rattle.ram_pages.specs.declared.ram.RamError.TheVariants.{NoMemory as OutOfMemory};

    ghost from_gives = { λ _ e. e ≡ OutOfMemory };

    fn from(_refused: NoMemory) -> RamError {
        RamError::NoMemory
    }
}

/// The guest's RAM. Addresses are the guest's, and numbers little-endian.
#[derive(Drop)]
pub struct Ram {
    pages: Vec<Rc<Page>>,
}

impl Model for Ram {
    ghost use Rattle.std.specs.Prelude.{ℕ, List};
    ghost use Rattle.ram_pages.specs.Paging.{joined, ArePages};

    ghost Value = { List ℕ };

    ghost view = { λ r. joined r.pages.items };

    ghost invariant = { λ r. ArePages r.pages.items };
}

impl Ram {
    /// A RAM of so many MiB, all zero.
    pub fn new(alloc: Global, mib: u32) -> Result<Ram, NoMemory>
        requires some { 1 ≤ mib }
        requires few { mib ≤ 64 }
        ensures { IfOk result (λ ram. ram ≡ zeros mib) }
    {
        let pages = blank(alloc, mib as usize * PAGES_OF_A_MIB)?;
        Ok(Ram { pages })
    }

    /// The place in the list of bytes of a range that lies wholly in RAM.
    #[inline(always)]
    fn place_of(&self, at: u64, len: u64) -> Option<usize>
        ensures found { IfSome result (λ place. LiesIn self.now at len × (ram_start + place ≡ at)) }
        ensures outside { IfNone result (¬ LiesIn self.now at len) }
    {
        let place = (at as usize).checked_sub(START)?;
        let room = len_of(self.pages.as_slice()).checked_sub(place)?;
        if len as usize <= room {
            Some(place)
        } else {
            None
        }
    }

    /// The number of 1, 2 or 4 bytes in a range.
    #[inline(always)]
    pub fn load(&self, at: u32, size: u32) -> Result<u32, RamError>
        requires { IsSize size }
        ensures answer { MatchResult result
            (λ x. LiesIn self.now at size × (x ≡ number_at self.now at size))
            (λ e. (e ≡ RamError.Outside) × ¬ LiesIn self.now at size) }
        ensures fits { IfOk result (λ x. x < 2 ^ (8 * size)) }
    {
        match self.place_of(u64::from(at), u64::from(size)) {
            Some(place) => Ok(number_in(self.pages.as_slice(), place, size)),
            None => Err(RamError::Outside),
        }
    }

    /// The place in the list of bytes of a range that lies wholly in RAM, at a multiple of its size.
    #[inline(always)]
    #[tactic(auto, using(crate::proofs::Aligned::aligned))]
    fn place_aligned(&self, at: u32, size: u32) -> Option<usize>
        requires size { IsSize size }
        requires aligned { at % size ≡ 0 }
        ensures found { IfSome result (λ place. LiesIn self.now at size × (ram_start + place ≡ at)) }
        ensures one_page { IfSome result (λ place. place % 4096 + size ≤ 4096) }
        ensures outside { IfNone result (¬ LiesIn self.now at size) }
    {
        let place = at.wrapping_add(0x8000_0000) as usize;
        if has_page(self.pages.as_slice(), place) {
            Some(place)
        } else {
            None
        }
    }

    /// The number of 1, 2 or 4 bytes in a range at a multiple of its size.
    #[inline(always)]
    pub fn load_aligned(&self, at: u32, size: u32) -> Option<u32>
        requires size { IsSize size }
        requires aligned { at % size ≡ 0 }
        ensures found { IfSome result
            (λ x. LiesIn self.now at size × (x ≡ number_at self.now at size)) }
        ensures fits { IfSome result (λ x. x < 2 ^ (8 * size)) }
        ensures outside { IfNone result (¬ LiesIn self.now at size) }
    {
        match self.place_aligned(at, size) {
            Some(place) => Some(number_in_page(self.pages.as_slice(), place, size)),
            None => None,
        }
    }

    /// Writes the low 1, 2 or 4 bytes of a number over a range at a multiple of its size.
    #[inline(always)]
    pub fn store_aligned(&mut self, at: u32, size: u32, value: u32) -> Result<(), RamError>
        requires size { IsSize size }
        requires aligned { at % size ≡ 0 }
        ensures ok { OnOk result
            (LiesIn self.old at size × (self.new ≡ written self.old at (little_bytes size value))) }
        ensures err { IfErr result (λ e. (self.new ≡ self.old) × IsRefusal self.old at size e) }
    {
        let place = match self.place_aligned(at, size) {
            Some(place) => place,
            None => return Err(RamError::Outside),
        };
        let pages = self.pages.as_mut_slice();
        match size {
            1 => write_in_page(pages, place, &[(value & 0xff) as u8])?,
            2 => write_in_page(pages, place, &((value & 0xffff) as u16).to_le_bytes())?,
            _ => write_in_page(pages, place, &value.to_le_bytes())?,
        }
        Ok(())
    }

    /// Writes bytes at a place.
    #[inline(always)]
    fn write(&mut self, place: usize, fresh: &[u8]) -> Result<(), NoMemory>
        requires { place + length fresh.now ≤ length self.old }
        ensures ok { OnOk result (self.new ≡ overwritten self.old place fresh.now) }
        ensures err { OnErr result (self.new ≡ self.old) }
    {
        if fresh.is_empty() {
            return Ok(());
        }
        if place % PAGE + fresh.len() <= PAGE {
            write_in_page(self.pages.as_mut_slice(), place, fresh)?;
            Ok(())
        } else {
            self.write_across(place, fresh)
        }
    }

    /// Writes bytes that pass from one page to the next, on copies of these pages, so that want of
    /// memory leaves all as it was.
    #[inline(never)]
    fn write_across(&mut self, place: usize, fresh: &[u8]) -> Result<(), NoMemory>
        requires { place + length fresh.now ≤ length self.old }
        ensures ok { OnOk result (self.new ≡ overwritten self.old place fresh.now) }
        ensures err { OnErr result (self.new ≡ self.old) }
    {
        let mut copies = Vec::new(*self.pages.allocator());
        write_with(self.pages.as_slice(), &mut copies, place, fresh)?;
        settle(self.pages.as_mut_slice(), copies);
        Ok(())
    }

    /// Writes the low 1, 2 or 4 bytes of a number over a range.
    #[inline(always)]
    pub fn store(&mut self, at: u32, size: u32, value: u32) -> Result<(), RamError>
        requires { IsSize size }
        ensures ok { OnOk result
            (LiesIn self.old at size × (self.new ≡ written self.old at (little_bytes size value))) }
        ensures err { IfErr result (λ e. (self.new ≡ self.old) × IsRefusal self.old at size e) }
    {
        let place = match self.place_of(u64::from(at), u64::from(size)) {
            Some(place) => place,
            None => return Err(RamError::Outside),
        };
        match size {
            1 => self.write(place, &[(value & 0xff) as u8])?,
            2 => self.write(place, &((value & 0xffff) as u16).to_le_bytes())?,
            _ => self.write(place, &value.to_le_bytes())?,
        }
        Ok(())
    }

    /// A copy of the bytes in a range.
    pub fn copy_out(&self, alloc: Global, at: u64, len: u32) -> Result<Vec<u8>, RamError>
        ensures ok { IfOk result
            (λ bytes. LiesIn self.now at len × (bytes.items ≡ bytes_at self.now at len)) }
        ensures err { IfErr result (λ e. IsRefusal self.now at len e) }
    {
        let place = match self.place_of(at, u64::from(len)) {
            Some(place) => place,
            None => return Err(RamError::Outside),
        };
        let mut bytes = Vec::with_capacity(alloc, len as usize)?;
        copy_from(self.pages.as_slice(), place, len as usize, &mut bytes)?;
        Ok(bytes)
    }

    /// Writes bytes over a range.
    pub fn copy_in(&mut self, at: u64, fresh: &[u8]) -> Result<(), RamError>
        ensures ok { OnOk result
            (LiesIn self.old at (length fresh.now) × (self.new ≡ written self.old at fresh.now)) }
        ensures err { IfErr result
            (λ e. (self.new ≡ self.old) × IsRefusal self.old at (length fresh.now) e) }
    {
        let place = match self.place_of(at, fresh.len() as u64) {
            Some(place) => place,
            None => return Err(RamError::Outside),
        };
        self.write(place, fresh)?;
        Ok(())
    }

    /// A RAM of the same bytes. Pages are shared until they are written, so later changes of one
    /// don't show in the other.
    pub fn share(&self) -> Result<Ram, NoMemory>
        ensures { IfOk result (λ ram. ram ≡ self.now) }
    {
        let pages = shared(&self.pages)?;
        Ok(Ram { pages })
    }

    /// A draft of this RAM, in which nothing is written yet.
    pub fn draft(&self) -> Draft<'_>
        ensures before { result.before ≡ self.now }
        ensures bytes { result.bytes ≡ self.now }
    {
        Draft::of(*self.pages.allocator(), self.pages.as_slice())
    }

    /// Puts the changes of a draft in. It takes no memory.
    pub fn commit(&mut self, changes: Changes)
        requires { AllFit changes self.old }
        ensures { self.new ≡ with_pages changes self.old }
    {
        let Changes { fresh } = changes;
        lay(self.pages.as_mut_slice(), fresh);
    }

    /// Whether a range lies wholly in RAM. An empty one does up to RAM's end, the end included.
    pub fn holds(&self, at: u64, len: u64) -> bool
        ensures exact { IsTrue result ↔ LiesIn self.now at len }
        ensures small { length self.now ≤ 2 ^ 26 }
    {
        let all = len_of(self.pages.as_slice());
        let at = at as usize;
        at >= START && at - START <= all && len as usize <= all - (at - START)
    }

    /// The number of two bytes that lie in RAM.
    pub fn read_u16(&self, at: u64) -> u16
        requires { LiesIn self.now at 2 }
        ensures { result ≡ number_at self.now at 2 }
    {
        u16_at(self.pages.as_slice(), at as usize - START)
    }

    /// The number of four bytes that lie in RAM.
    pub fn read_u32(&self, at: u64) -> u32
        requires { LiesIn self.now at 4 }
        ensures { result ≡ number_at self.now at 4 }
    {
        u32_at(self.pages.as_slice(), at as usize - START)
    }

    /// The number of eight bytes that lie in RAM.
    pub fn read_u64(&self, at: u64) -> u64
        requires { LiesIn self.now at 8 }
        ensures { result ≡ number_at self.now at 8 }
    {
        u64_at(self.pages.as_slice(), at as usize - START)
    }
}
