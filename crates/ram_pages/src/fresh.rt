//! Pages that stand in for those of a memory.

ghost use Rattle.std.specs.Prelude.{◌≡◌, ◌<◌, ◌≤◌, ◌+◌, ◌%◌, ◌/◌, ◌^◌, ◌++◌, ◌≢◌, ℕ, length, take, drop, map, slice_index_or, IsTrue, OnOk, OnErr};
ghost use Rattle.byteorder.specs.Endian.{little_from};
ghost use Rattle.ram_pages.specs.Draft.{with_pages, AllFit};
ghost use Rattle.ram_pages.specs.Memory.{overwritten, IsSize};
ghost use Rattle.ram_pages.specs.Paging.{joined, ArePages};
ghost use Rattle.ram_pages.specs.Standing.{laid, AreFresh, LastIs, SamePage, change_of};

use crate::NoMemory;
use crate::page::{PAGE, Page, write};
use std::alloc::Global;
use std::rc::Rc;

/// A page that takes the place of the one of its number.
#[derive(Drop)]
pub(crate) struct Fresh {
    pub number: usize,
    pub page: Rc<Page>,
}

/// The page of a number: the last that took its place, if any.
pub(crate) fn page_at<'a>(pages: &'a [Rc<Page>], fresh: &'a [Fresh], number: usize) -> &'a Rc<Page>
    requires { number < length pages.now }
    ensures { result.now ≡ slice_index_or (laid fresh.now pages.now) number result.now }
{
    let mut left = fresh.len();
    while left > 0 {
        left -= 1;
        let last = &fresh[left];
        if last.number == number {
            return &last.page;
        }
    }
    &pages[number]
}

/// How many bytes there are.
pub(crate) fn len_with(pages: &[Rc<Page>], fresh: &[Fresh]) -> usize
    requires whole { ArePages pages.now }
    requires fresh { AreFresh (length pages.now) fresh.now }
    ensures len { result ≡ length (joined (laid fresh.now pages.now)) }
    ensures before { result ≡ length (joined pages.now) }
    ensures small { result ≤ 2 ^ 26 }
{
    let _ = fresh;
    pages.len() * PAGE
}

/// The byte at a place.
fn byte_at(pages: &[Rc<Page>], fresh: &[Fresh], place: usize) -> u8
    requires whole { ArePages pages.now }
    requires fresh { AreFresh (length pages.now) fresh.now }
    requires within { place + 1 ≤ length (joined (laid fresh.now pages.now)) }
    ensures { result ≡ little_from place 1 (joined (laid fresh.now pages.now)) }
{
    let page: &Page = page_at(pages, fresh, place / PAGE);
    page.bytes[place % PAGE]
}

/// The little-endian number of two bytes.
pub(crate) fn u16_with(pages: &[Rc<Page>], fresh: &[Fresh], place: usize) -> u16
    requires whole { ArePages pages.now }
    requires fresh { AreFresh (length pages.now) fresh.now }
    requires within { place + 2 ≤ length (joined (laid fresh.now pages.now)) }
    ensures { result ≡ little_from place 2 (joined (laid fresh.now pages.now)) }
{
    byte_at(pages, fresh, place) as u16 + byte_at(pages, fresh, place + 1) as u16 * 256
}

/// The little-endian number of four bytes.
pub(crate) fn u32_with(pages: &[Rc<Page>], fresh: &[Fresh], place: usize) -> u32
    requires whole { ArePages pages.now }
    requires fresh { AreFresh (length pages.now) fresh.now }
    requires within { place + 4 ≤ length (joined (laid fresh.now pages.now)) }
    ensures { result ≡ little_from place 4 (joined (laid fresh.now pages.now)) }
{
    u16_with(pages, fresh, place) as u32 + u16_with(pages, fresh, place + 2) as u32 * 65536
}

/// The little-endian number of eight bytes.
pub(crate) fn u64_with(pages: &[Rc<Page>], fresh: &[Fresh], place: usize) -> u64
    requires whole { ArePages pages.now }
    requires fresh { AreFresh (length pages.now) fresh.now }
    requires within { place + 8 ≤ length (joined (laid fresh.now pages.now)) }
    ensures { result ≡ little_from place 8 (joined (laid fresh.now pages.now)) }
{
    u32_with(pages, fresh, place) as u64 + u32_with(pages, fresh, place + 4) as u64 * 0x1_0000_0000
}

/// The little-endian number at a place.
pub(crate) fn number_with(pages: &[Rc<Page>], fresh: &[Fresh], place: usize, size: u32) -> u32
    requires whole { ArePages pages.now }
    requires fresh { AreFresh (length pages.now) fresh.now }
    requires within { place + size ≤ length (joined (laid fresh.now pages.now)) }
    requires size { IsSize size }
    ensures { result ≡ little_from place size (joined (laid fresh.now pages.now)) }
{
    match size {
        1 => byte_at(pages, fresh, place) as u32,
        2 => u16_with(pages, fresh, place) as u32,
        _ => u32_with(pages, fresh, place),
    }
}

/// Adds the bytes of a range to the end of a vector, page after page.
pub(crate) fn copy_with(
    pages: &[Rc<Page>],
    fresh: &[Fresh],
    place: usize,
    count: usize,
    out: &mut Vec<u8>,
) -> Result<(), NoMemory>
    requires whole { ArePages pages.now }
    requires fresh { AreFresh (length pages.now) fresh.now }
    requires within { place + count ≤ length (joined (laid fresh.now pages.now)) }
    ensures { OnOk result (out.new.items
        ≡ out.old.items ++ take count (drop place (joined (laid fresh.now pages.now)))) }
{
    let mut done = 0;
    while done < count {
        let room = PAGE - (place + done) % PAGE;
        let part = (count - done).min(room);
        copy_page_with(pages, fresh, place + done, part, out)?;
        done += part;
    }
    Ok(())
}

/// Adds the bytes of a range in one page to the end of a vector.
fn copy_page_with(
    pages: &[Rc<Page>],
    fresh: &[Fresh],
    place: usize,
    count: usize,
    out: &mut Vec<u8>,
) -> Result<(), NoMemory>
    requires whole { ArePages pages.now }
    requires fresh { AreFresh (length pages.now) fresh.now }
    requires one_page { place % PAGE + count ≤ PAGE }
    requires within { place < length (joined pages.now) }
    ensures { OnOk result (out.new.items
        ≡ out.old.items ++ take count (drop place (joined (laid fresh.now pages.now)))) }
{
    let page: &Page = page_at(pages, fresh, place / PAGE);
    let from = place % PAGE;
    let part = &page.bytes[from..from + count];
    out.extend_from_slice(part)?;
    Ok(())
}

/// Writes bytes that lie in one page, on a copy of that page, which is among the pages or the first
/// `older` of those that stand in.
pub(crate) fn write_page_with(
    pages: &[Rc<Page>],
    fresh: &mut Vec<Fresh>,
    older: usize,
    place: usize,
    bytes: &[u8],
) -> Result<(), NoMemory>
    requires whole { ArePages pages.now }
    requires fresh { AreFresh (length pages.now) fresh.old.items }
    requires older { older ≤ length fresh.old.items }
    requires same { SamePage (place / PAGE) (laid (take older fresh.old.items) pages.now)
        (laid fresh.old.items pages.now) }
    requires one_page { place % PAGE + length bytes.now ≤ PAGE }
    requires within { place < length (joined pages.now) }
    ensures fresh { AreFresh (length pages.now) fresh.new.items }
    ensures front { take (length fresh.old.items) fresh.new.items ≡ fresh.old.items }
    ensures ok { OnOk result (joined (laid fresh.new.items pages.now)
        ≡ overwritten (joined (laid fresh.old.items pages.now)) place bytes.now) }
    ensures others { OnOk result ((number : ℕ) → number ≢ place / PAGE → SamePage number
        (laid fresh.new.items pages.now) (laid fresh.old.items pages.now)) }
    ensures err { OnErr result (fresh.new.items ≡ fresh.old.items) }
{
    let mut page = page_at(pages, &fresh.as_slice()[..older], place / PAGE).clone()?;
    write(&mut page, place % PAGE, bytes)?;
    fresh.push(Fresh {
        number: place / PAGE,
        page,
    })?;
    Ok(())
}

/// Writes bytes: where they lie in the page that was written last, on its copy. An `Err` leaves all
/// as it was.
pub(crate) fn write_with(
    pages: &[Rc<Page>],
    fresh: &mut Vec<Fresh>,
    place: usize,
    bytes: &[u8],
) -> Result<(), NoMemory>
    requires whole { ArePages pages.now }
    requires fresh { AreFresh (length pages.now) fresh.old.items }
    requires within { place + length bytes.now ≤ length (joined (laid fresh.old.items pages.now)) }
    ensures fresh { AreFresh (length pages.now) fresh.new.items }
    ensures ok { OnOk result (joined (laid fresh.new.items pages.now)
        ≡ overwritten (joined (laid fresh.old.items pages.now)) place bytes.now) }
    ensures err { OnErr result (joined (laid fresh.new.items pages.now)
        ≡ joined (laid fresh.old.items pages.now)) }
{
    if is_again(fresh.as_slice(), place, bytes.len()) {
        write_again(pages, fresh.as_mut_slice(), place, bytes)
    } else {
        write_afresh(pages, fresh, place, bytes)
    }
}

/// Whether a range isn't empty and lies in the page that was written last.
fn is_again(fresh: &[Fresh], place: usize, count: usize) -> bool
    ensures { IsTrue result → (0 < count) × (place % PAGE + count ≤ PAGE) × (0 < length fresh.now)
        × LastIs (place / PAGE) fresh.now }
{
    let pages = fresh.len();
    if count == 0 {
        return false;
    }
    if pages == 0 {
        return false;
    }
    if count > PAGE - place % PAGE {
        return false;
    }
    fresh[pages - 1].number == place / PAGE
}

/// Writes bytes that lie in the page that was written last, on its copy.
fn write_again(
    pages: &[Rc<Page>],
    fresh: &mut [Fresh],
    place: usize,
    bytes: &[u8],
) -> Result<(), NoMemory>
    requires whole { ArePages pages.now }
    requires fresh { AreFresh (length pages.now) fresh.old }
    requires some { 0 < length fresh.old }
    requires last { LastIs (place / PAGE) fresh.old }
    requires one_page { place % PAGE + length bytes.now ≤ PAGE }
    requires within { place < length (joined pages.now) }
    ensures fresh { AreFresh (length pages.now) fresh.new }
    ensures ok { OnOk result (joined (laid fresh.new pages.now)
        ≡ overwritten (joined (laid fresh.old pages.now)) place bytes.now) }
    ensures err { OnErr result (joined (laid fresh.new pages.now) ≡ joined (laid fresh.old pages.now)) }
{
    let last = fresh.len() - 1;
    write(&mut fresh[last].page, place % PAGE, bytes)
}

/// Writes bytes, page after page, on new copies. An `Err` leaves all as it was.
fn write_afresh(
    pages: &[Rc<Page>],
    fresh: &mut Vec<Fresh>,
    place: usize,
    bytes: &[u8],
) -> Result<(), NoMemory>
    requires whole { ArePages pages.now }
    requires fresh { AreFresh (length pages.now) fresh.old.items }
    requires within { place + length bytes.now ≤ length (joined (laid fresh.old.items pages.now)) }
    ensures fresh { AreFresh (length pages.now) fresh.new.items }
    ensures ok { OnOk result (joined (laid fresh.new.items pages.now)
        ≡ overwritten (joined (laid fresh.old.items pages.now)) place bytes.now) }
    ensures err { OnErr result (fresh.new.items ≡ fresh.old.items) }
{
    let before = fresh.as_slice().len();
    match write_pages_with(pages, fresh, place, bytes) {
        Ok(()) => Ok(()),
        Err(refused) => {
            fresh.truncate(before);
            Err(refused)
        }
    }
}

/// Writes bytes, page after page. An `Err` may leave pages of a part behind those before. Each page
/// is met once, so those made here aren't searched for it.
fn write_pages_with(
    pages: &[Rc<Page>],
    fresh: &mut Vec<Fresh>,
    place: usize,
    bytes: &[u8],
) -> Result<(), NoMemory>
    requires whole { ArePages pages.now }
    requires fresh { AreFresh (length pages.now) fresh.old.items }
    requires within { place + length bytes.now ≤ length (joined pages.now) }
    ensures fresh { AreFresh (length pages.now) fresh.new.items }
    ensures front { take (length fresh.old.items) fresh.new.items ≡ fresh.old.items }
    ensures ok { OnOk result (joined (laid fresh.new.items pages.now)
        ≡ overwritten (joined (laid fresh.old.items pages.now)) place bytes.now) }
{
    let older = fresh.as_slice().len();
    let mut done = 0;
    while done < bytes.len() {
        let left = bytes.len() - done;
        let room = PAGE - (place + done) % PAGE;
        let count = left.min(room);
        write_page_with(
            pages,
            fresh,
            older,
            place + done,
            &bytes[done..done + count],
        )?;
        done += count;
    }
    Ok(())
}

/// Puts pages in their places, in turn. It takes no memory.
pub(crate) fn lay(pages: &mut [Rc<Page>], fresh: Vec<Fresh>)
    requires whole { ArePages pages.old }
    requires fits { AllFit (map change_of fresh.items) (joined pages.old) }
    ensures whole { ArePages pages.new }
    ensures bytes { joined pages.new ≡ with_pages (map change_of fresh.items) (joined pages.old) }
{
    lay_each(pages, fresh);
}

/// Puts pages in their places, in turn. It takes no memory.
pub(crate) fn settle(pages: &mut [Rc<Page>], fresh: Vec<Fresh>)
    requires whole { ArePages pages.old }
    requires fresh { AreFresh (length pages.old) fresh.items }
    ensures whole { ArePages pages.new }
    ensures bytes { joined pages.new ≡ joined (laid fresh.items pages.old) }
{
    lay_each(pages, fresh);
}

/// Puts pages in their places, in turn.
fn lay_each(pages: &mut [Rc<Page>], fresh: Vec<Fresh>)
    requires { AreFresh (length pages.old) fresh.items }
    ensures { pages.new ≡ laid fresh.items pages.old }
{
    for f in fresh {
        let Fresh { number, page } = f;
        pages[number] = page;
    }
}
