//! The memory of a guest: a byte at each address, and the rights of each page of 4,096 bytes.
//!
//! Contracts see a memory as two finite maps, the bytes that aren't zero by their addresses
//! and the rights by the numbers of their pages. The code keeps lists of all pages and bytes of the
//! load areas and the three regions; bytes that were never written take no work.
#![tactic(auto)]

mod copies;
mod find;
mod lay;
mod pages;

ghost use Rattle.std.specs.Prelude.{ℕ, ◌≡◌, ◌%◌, if◌then◌else◌, length, false, ◌≤◌, ◌+◌, ◌-◌, ◌<◌, ◌^◌, IfOk, IfSome, MatchOption, MatchResult, IsTrue};
ghost use Rattle.std.specs.Result.{result_ok};
ghost use Rattle.coz_types.specs.Maps.{value_or};
ghost use Rattle.guest_memory.specs.Memory.{empty_memory, first_memory, with_area, with_rights_from, with_zeros, IsSize, load, store, fetch, is_allowed, is_readable, is_writable, byte_at, number_at, with_rights, with_byte, with_bytes, bytes_at, rights_at, no_rights, IsHeld, IsFirstFrom};
ghost use Rattle.guest_memory.specs.Right.{has_right};
ghost use Rattle.guest_memory.specs.Regions.{IsLayout, IsKnown, usual, page_of};
ghost use Rattle.std.specs.List.{Contains};
ghost use Rattle.coz_types.specs.Image.{IsAreaOf};

use crate::find::{find, find_for, pick};
use crate::lay::spans;
use crate::pages::Pages;
use coz_types::{Address, Area, Image, LOAD_END, PAGE, Rights};
use std::alloc::{AllocError, Global};
use std::marker::Model;
use zero_bytes::{Bytes, number_of};

const _: () = prove!(zero_bytes::PAGE as u64 == PAGE);

/// The first address of the region below the break: the end of the load areas.
pub const BRK_BASE: Address = LOAD_END;

/// The first address of the region of the mappings.
pub const MAP_BASE: Address = 0x21_0000_0000;

/// The end of the region of the stack.
pub const STACK_TOP: Address = 0x40_0000_0000;

/// The most bytes of the region below the break.
pub const BRK_SIZE: u64 = 0x100_0000;

/// The most bytes of the region of the mappings.
pub const MAP_SIZE: u64 = 0x300_0000;

/// The most bytes of the region of the stack.
pub const STACK_SIZE: u64 = 0x10_0000;

/// The sizes in bytes of the regions that are no load areas, in whole pages.
#[derive(Clone, Copy, Debug, PartialEq, Eq)]
pub struct Layout {
    /// From `BRK_BASE` on, at most 16 MiB.
    pub brk: u64,
    /// From `MAP_BASE` on, at most 48 MiB.
    pub map: u64,
    /// Up to `STACK_TOP`, at least a page and at most 1 MiB.
    pub stack: u64,
}

impl Layout {
    /// The greatest sizes, with which programs run.
    pub fn usual() -> Layout
        ensures sizes { result ≡ usual }
        ensures valid { IsLayout result }
    {
        Layout {
            brk: BRK_SIZE,
            map: MAP_SIZE,
            stack: STACK_SIZE,
        }
    }
}

/// Pages of code in a row.
#[derive(Clone, Copy)]
pub struct CodePages {
    /// The first address.
    pub start: Address,
    /// The number of bytes.
    pub size: u64,
}

/// A byte of a range lacks the right that was asked for.
#[derive(Clone, Copy, Debug, PartialEq, Eq)]
pub struct Access;

/// Pages in a row, and where they begin among the pages of a memory.
#[derive(Clone, Copy)]
struct Span {
    first: u64,
    count: u64,
    at: u64,
}

/// The rights of a page, and whether it was written or given rights since the memory was made.
#[derive(Clone, Copy)]
struct Page {
    rights: Rights,
    touched: bool,
}

/// The rights of a page that has none.
const NO_RIGHTS: Rights = Rights {
    read: false,
    write: false,
    execute: false,
};

/// A right to a byte.
#[derive(Clone, Copy)]
enum Right {
    Read,
    Write,
    Execute,
}

/// The memory of a guest. All its room is taken when it is made.
#[derive(Drop)]
pub struct Memory<'a> {
    image: &'a Image<'a>,
    layout: Layout,
    spans: Vec<Span>,
    /// The index of the span that the entry is in, where a fetch looks first.
    code: usize,
    pages: Pages,
    bytes: Bytes,
}

impl<'a> Model for Memory<'a> {
    ghost use Rattle.std.specs.Prelude.{◌<◌, length};
    ghost use Rattle.guest_memory.specs.Memory.{MemoryMap};
    ghost use Rattle.guest_memory.specs.Shown.{map_of, IsMemory};

    ghost Value = { MemoryMap };

    ghost view = { λ m.
        map_of m.image.now m.layout m.spans.items m.pages.each.items m.bytes };

    ghost invariant = { λ m.
        IsMemory m.image.now m.layout m.spans.items m.pages.each.items m.bytes
        × (m.code < length m.spans.items) };
}

fn has(rights: Rights, right: Right) -> bool
    ensures { result ≡ has_right right rights }
{
    match right {
        Right::Read => rights.read,
        Right::Write => rights.write,
        Right::Execute => rights.execute,
    }
}

/// The bytes from an address on to the end of its page.
fn room_in_page(address: Address) -> usize
    ensures { result ≡ PAGE - address % PAGE }
{
    (PAGE - address % PAGE) as usize
}

impl<'a> Memory<'a> {
    /// The memory that a program begins with: the load areas with their rights and the file's
    /// bytes in them, and a stack of zeros that may be read and written. Everything else has no
    /// rights.
    pub fn new(
        alloc: Global,
        image: &'a Image<'a>,
        layout: Layout,
    ) -> Result<Memory<'a>, AllocError>
        requires { IsLayout layout }
        ensures { IfOk result (λ memory. memory ≡ first_memory image.now layout) }
    {
        let mut memory = Memory::empty(alloc, image, layout)?;
        for area in image.areas() {
            memory.put_area(image, *area);
        }
        let rights = Rights {
            read: true,
            write: true,
            execute: false,
        };
        memory.give_run(
            (STACK_TOP - layout.stack) / PAGE,
            layout.stack / PAGE,
            rights,
        );
        memory.forget_touched();
        Ok(memory)
    }

    /// From now on no page was written or given rights.
    fn forget_touched(&mut self)
        requires { self.old ≡ first_memory self.old.image self.old.layout }
        ensures { self.new ≡ self.old }
    {
        self.pages.forget_touched();
    }

    /// Gives a load area its rights, and its bytes of the file.
    fn put_area(&mut self, image: &Image, area: Area)
        requires area { IsAreaOf image.now.file area }
        requires known { Contains self.old.image.areas area }
        ensures { self.new ≡ with_area image.now self.old area }
    {
        self.give_run(area.start / PAGE, area.size / PAGE, area.rights);
        let file = image.file();
        let bytes = &file[area.offset as usize..(area.offset + area.filled) as usize];
        self.put_run(area.vaddr, bytes);
    }

    /// Gives pages in a row their rights.
    fn give_run(&mut self, first: u64, count: u64, rights: Rights)
        requires { (q : ℕ) → first ≤ q → q < first + count
            → IsKnown self.old.image.areas self.old.layout q }
        ensures { self.new ≡ with_rights_from first count rights self.old }
    {
        for i in 0..count {
            // The invariant of `self` is known to a proof once a field is used, here in each turn.
            let _ = &self.spans;
            self.give_page(first + i, rights);
        }
    }

    /// Gives `pages` pages from `page` on these rights, and clears them if `zero` is true.
    /// `page` is the address of the first one.
    pub fn give(&mut self, page: Address, pages: u64, rights: Rights, zero: bool)
        requires known { (q : ℕ) → page_of page ≤ q → q < page_of page + pages
            → IsKnown self.old.image.areas self.old.layout q }
        requires no_execute { rights.execute ≡ false }
        ensures { self.new ≡ (if zero
            then with_zeros (page_of page) pages
            (with_rights_from (page_of page) pages rights self.old)
            else with_rights_from (page_of page) pages rights self.old) }
    {
        self.give_run(page / PAGE, pages, rights);
        if zero {
            self.zero_run(page / PAGE, pages);
        }
    }

    fn zero_run(&mut self, first: u64, count: u64)
        requires { (q : ℕ) → first ≤ q → q < first + count
            → IsKnown self.old.image.areas self.old.layout q }
        ensures { self.new ≡ with_zeros first count self.old }
    {
        for i in 0..count {
            // The invariant of `self` is known to a proof once a field is used, here in each turn.
            let _ = &self.spans;
            self.zero_page(first + i);
        }
    }

    /// Makes a page one of zeros.
    fn zero_page(&mut self, page: u64)
        requires { IsKnown self.old.image.areas self.old.layout page }
        ensures { self.new ≡ with_zeros page 1 self.old }
    {
        match find(&self.spans, page) {
            None => unreachable!(),
            Some(index) => {
                self.pages.touch(index);
                self.bytes.zero(index * PAGE as usize);
            }
        }
    }

    /// Writes bytes whatever the rights, page by page.
    fn put_run(&mut self, address: Address, bytes: &[u8])
        requires held { (j : ℕ) → j < length bytes.now → IsHeld self.old (address + j) }
        requires low { address + length bytes.now ≤ 2 ^ 64 }
        ensures { self.new ≡ with_bytes address bytes.now self.old }
    {
        let mut done = 0;
        while done < bytes.len() {
            let here = address + done as u64;
            let count = (bytes.len() - done).min(room_in_page(here));
            self.put_piece(here, &bytes[done..done + count]);
            done += count;
        }
    }

    /// Writes bytes that lie in one page.
    fn put_piece(&mut self, address: Address, bytes: &[u8])
        requires held { IsHeld self.old address }
        requires fits { address % PAGE + length bytes.now ≤ PAGE }
        ensures { self.new ≡ with_bytes address bytes.now self.old }
    {
        match find(&self.spans, address / PAGE) {
            None => unreachable!(),
            Some(index) => {
                self.pages.touch(index);
                let offset = index * PAGE as usize + (address % PAGE) as usize;
                self.bytes.put(offset, bytes);
            }
        }
    }

    /// Makes this memory equal to another one of the same image and layout.
    /// A page that neither has touched is as it was at first in both.
    pub fn copy_from(&mut self, other: &Memory<'a>)
        requires image { self.old.image ≡ other.now.image }
        requires layout { self.old.layout ≡ other.now.layout }
        ensures { self.new ≡ other.now }
    {
        self.pages
            .copy_from(&mut self.bytes, &other.pages, &other.bytes);
    }

    /// The pages of an image and a layout, zeros with no rights, all of them touched:
    /// none is as in a first memory yet.
    fn empty(alloc: Global, image: &'a Image<'a>, layout: Layout) -> Result<Memory<'a>, AllocError>
        requires { IsLayout layout }
        ensures { IfOk result (λ memory. memory ≡ empty_memory image.now layout) }
    {
        let (spans, total) = spans(alloc, image, layout)?;
        let code = pick(&spans, image.entry() / PAGE).unwrap_or(0);
        let first = spans[code];
        let end = first.at + first.count;
        let pages = Pages::new(alloc, total, first.at as usize, end as usize)?;
        let bytes = Bytes::new(alloc, total * PAGE as usize)?;
        Ok(Memory {
            image,
            layout,
            spans,
            code,
            pages,
            bytes,
        })
    }

    /// The pages that the entry is among, if they are as they were at first: none since one of
    /// them was written or given rights.
    #[inline(always)]
    pub fn first_code(&self) -> Option<CodePages>
        ensures { IfSome result (λ code. IsFirstFrom code.start code.size self.now) }
    {
        let span = &self.spans[self.code];
        if span.count > 0 && self.pages.is_clean(span.at, span.count) {
            Some(CodePages {
                start: span.first * PAGE,
                size: span.count * PAGE,
            })
        } else {
            None
        }
    }

    /// The layout that the memory was made with.
    pub fn layout(&self) -> Layout
        ensures layout { result ≡ self.now.layout }
        ensures valid { IsLayout result }
    {
        self.layout
    }

    /// The number that stands at an address, for a size of 1, 2, 4 or 8 bytes.
    /// Err if some byte may not be read.
    #[inline(always)]
    pub fn load(&self, address: Address, size: u8) -> Result<u64, Access>
        requires { IsSize size }
        ensures { result_ok result ≡ load self.now address size }
    {
        self.read_number(address, size, Right::Read)
    }

    /// The word that stands at an address, to be executed. Err if some byte may not be executed.
    #[inline(always)]
    pub fn fetch(&self, address: Address) -> Result<u32, Access>
        ensures { result_ok result ≡ fetch self.now address }
    {
        Ok(self.read_number(address, 4, Right::Execute)? as u32)
    }

    /// The number that stands at an address, each byte of which has the right.
    #[inline(always)]
    fn read_number(&self, address: Address, size: u8, right: Right) -> Result<u64, Access>
        requires { IsSize size }
        ensures number { result_ok result ≡ (if is_allowed (has_right right) self.now address size
            then Some (number_at self.now address size) else None) }
        ensures below { IfOk result (λ number. number < 256 ^ size) }
    {
        match find_for(right, &self.spans, self.code, address / PAGE) {
            None => Err(Access),
            Some(index) => {
                if !has(self.pages.each[index].rights, right) {
                    return Err(Access);
                }
                let within = (address % PAGE) as usize;
                if within + size as usize <= PAGE as usize {
                    Ok(self.bytes.number(index * PAGE as usize + within, size))
                } else {
                    self.read_across(address, size, right)
                }
            }
        }
    }

    /// A load that is made byte by byte, since it may cross pages.
    #[inline(never)]
    fn read_across(&self, address: Address, size: u8, right: Right) -> Result<u64, Access>
        requires { IsSize size }
        ensures number { result_ok result ≡ (if is_allowed (has_right right) self.now address size
            then Some (number_at self.now address size) else None) }
        ensures below { IfOk result (λ number. number < 256 ^ size) }
    {
        if !self.all_have(address, size as u64, right) {
            return Err(Access);
        }
        let mut bytes = [0; 8];
        self.read_run(address, &mut bytes[..size as usize]);
        Ok(number_of(&bytes, 0, size))
    }

    /// Whether `count` bytes from an address on may be read.
    pub fn readable(&self, address: Address, count: u64) -> bool
        ensures answer { result ≡ is_readable self.now address count }
        ensures low { IsTrue result → address + count ≤ 2 ^ 64 }
    {
        self.all_have(address, count, Right::Read)
    }

    /// Whether `count` bytes from an address on may be written.
    pub fn writable(&self, address: Address, count: u64) -> bool
        ensures answer { result ≡ is_writable self.now address count }
        ensures low { IsTrue result → address + count ≤ 2 ^ 64 }
    {
        self.all_have(address, count, Right::Write)
    }

    fn all_have(&self, address: Address, count: u64, right: Right) -> bool
        ensures answer { result ≡ is_allowed (has_right right) self.now address count }
        ensures low { IsTrue result → address + count ≤ 2 ^ 64 }
    {
        if count == 0 {
            return true;
        }
        let Some(last) = self.last_of(address, count) else {
            return false;
        };
        for page in address / PAGE..last / PAGE + 1 {
            if !has(self.rights_of(page), right) {
                return false;
            }
        }
        true
    }

    /// The last of some bytes, or none if it would be past all addresses.
    fn last_of(&self, address: Address, count: u64) -> Option<Address>
        requires { 0 < count }
        ensures { MatchOption result (rights_at self.now (address + (count - 1)) ≡ no_rights)
            (λ last. last + 1 ≡ address + count) }
    {
        // The invariant of `self` is known to a proof once a field is used.
        let _ = &self.spans;
        address.checked_add(count - 1)
    }

    fn rights_of(&self, page: u64) -> Rights
        ensures { result ≡ value_or no_rights self.now.rights page }
    {
        match find(&self.spans, page) {
            None => NO_RIGHTS,
            Some(index) => self.pages.each[index].rights,
        }
    }

    /// Writes a number at an address, in 1, 2, 4 or 8 bytes.
    /// Err if some byte may not be written; then nothing is.
    #[inline(always)]
    pub fn store(&mut self, address: Address, size: u8, value: u64) -> Result<(), Access>
        requires { IsSize size }
        ensures { MatchResult result (λ _. Some self.new ≡ store address size value self.old)
            (λ _. (None ≡ store address size value self.old) × (self.new ≡ self.old)) }
    {
        match find(&self.spans, address / PAGE) {
            None => Err(Access),
            Some(index) => {
                // One test for what most stores find: a page that may be written and was before.
                let page = self.pages.each[index];
                if !(page.rights.write & page.touched) {
                    return self.store_by_bytes(address, size, value);
                }
                let within = (address % PAGE) as usize;
                if within + size as usize <= PAGE as usize {
                    self.bytes
                        .write(index * PAGE as usize + within, size, value);
                    Ok(())
                } else {
                    self.store_by_bytes(address, size, value)
                }
            }
        }
    }

    /// A store that is made byte by byte, since it may cross pages or be the first to its page.
    #[inline(never)]
    fn store_by_bytes(&mut self, address: Address, size: u8, value: u64) -> Result<(), Access>
        requires { IsSize size }
        ensures { MatchResult result (λ _. Some self.new ≡ store address size value self.old)
            (λ _. (None ≡ store address size value self.old) × (self.new ≡ self.old)) }
    {
        self.copy_in(address, &value.to_le_bytes()[..size as usize])
    }

    /// Reads bytes from an address on. Err if some byte may not be read; then nothing is.
    pub fn read_at(&self, address: Address, into: &mut [u8]) -> Result<(), Access>
        ensures { MatchResult result
            (λ _. IsTrue (is_readable self.now address (length into.old))
            × (into.new ≡ bytes_at self.now address (length into.old)))
            (λ _. (is_readable self.now address (length into.old) ≡ false)
            × (into.new ≡ into.old)) }
    {
        if !self.readable(address, into.len() as u64) {
            return Err(Access);
        }
        self.read_run(address, into);
        Ok(())
    }

    /// Reads bytes whatever the rights, page by page.
    fn read_run(&self, address: Address, into: &mut [u8])
        requires { address + length into.old ≤ 2 ^ 64 }
        ensures { into.new ≡ bytes_at self.now address (length into.old) }
    {
        let mut done = 0;
        while done < into.len() {
            let here = address + done as u64;
            let count = (into.len() - done).min(room_in_page(here));
            self.read_piece(here, &mut into[done..done + count]);
            done += count;
        }
    }

    /// Reads bytes that lie in one page, and zeros if there is no such page.
    fn read_piece(&self, address: Address, into: &mut [u8])
        requires { address % PAGE + length into.old ≤ PAGE }
        ensures { into.new ≡ bytes_at self.now address (length into.old) }
    {
        match find(&self.spans, address / PAGE) {
            None => into.fill(0),
            Some(index) => {
                let offset = index * PAGE as usize + (address % PAGE) as usize;
                self.bytes.read(offset, into);
            }
        }
    }

    /// Writes bytes from an address on. Err if some byte may not be written; then nothing is.
    pub fn copy_in(&mut self, address: Address, bytes: &[u8]) -> Result<(), Access>
        ensures { MatchResult result
            (λ _. IsTrue (is_writable self.old address (length bytes.now))
            × (self.new ≡ with_bytes address bytes.now self.old))
            (λ _. (is_writable self.old address (length bytes.now) ≡ false)
            × (self.new ≡ self.old)) }
    {
        if !self.writable(address, bytes.len() as u64) {
            return Err(Access);
        }
        self.put_run(address, bytes);
        Ok(())
    }

    fn give_page(&mut self, page: u64, rights: Rights)
        requires { IsKnown self.old.image.areas self.old.layout page }
        ensures { self.new ≡ with_rights page rights self.old }
    {
        match find(&self.spans, page) {
            None => unreachable!(),
            Some(index) => self.pages.give(index, rights),
        }
    }
}
