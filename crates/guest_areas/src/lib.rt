//! The regions of a guest: what its entry finds on the stack, and the calls
//! that give and take pages.
//!
//! The break moves in a region of its own, and mappings are runs of whole pages of the map region.
//! A memory keeps the bytes and the rights; these areas keep which pages the program has.
#![tactic(auto)]

mod entry;
mod pages;

ghost use Rattle.std.specs.Prelude.{ℕ, ◌≡◌, ◌≤◌, ◌<◌, ◌+◌, ◌-◌, ◌*◌, ◌/◌, ◌%◌, ◌^◌, ◌==◌, IfOk, IfSome, OnErr, IsTrue, length, pos};
ghost use Rattle.guest_memory.specs.Regions.{page_of, map_base};
ghost use Rattle.std.specs.Option.{option_map};
ghost use Rattle.std.specs.List.{list_any};
ghost use Rattle.guest_memory.specs.Memory.{first_memory};
ghost use Rattle.guest_areas.specs.Space.{space, SharesRegions, with_break, map, unmap, protect, is_in_area, is_known, is_each, free_run};
ghost use Rattle.guest_areas.specs.Entry.{stack_pointer, first_space};

use crate::entry::write_entry;
use crate::pages::{asks_execute, is_in_run, pages_for, rights_of};
use coz_types::{Address, Area, Image, PAGE, Rights};
use guest_memory::{BRK_BASE, Layout, MAP_BASE, Memory, STACK_TOP};
use std::alloc::{AllocError, Global};
use std::marker::Model;

/// The stack pointer at a program's entry: below the entry stack's 176 bytes.
const STACK_POINTER: Address = STACK_TOP - 176;

// The errors of Linux's calls.

/// -ENOMEM: no room for it.
const NO_MEMORY: i64 = -12;
/// -EACCES: such rights are not given.
const NO_ACCESS: i64 = -13;
/// -EINVAL: no such range or protection.
const INVALID: i64 = -22;
/// The rights of pages that are free.
const NO_RIGHTS: Rights = Rights {
    read: false,
    write: false,
    execute: false,
};

/// The rights of the pages below the break.
const READ_AND_WRITE: Rights = Rights {
    read: true,
    write: true,
    execute: false,
};

/// Which pages a program has: its load areas, the pages below the break, the mapped pages
/// and the stack. All room is taken when it is made.
#[derive(Drop)]
pub struct Areas {
    /// The load areas, in the image's order.
    areas: Vec<Area>,
    /// The load areas, sorted by address.
    sorted: Vec<Area>,
    layout: Layout,
    /// The break.
    end: Address,
    /// Whether each page of the map region is mapped.
    mapped: Vec<bool>,
}

impl Model for Areas {
    ghost use Rattle.guest_areas.specs.Space.{RegionMap};

    ghost Value = { RegionMap };

    ghost use Rattle.guest_areas.specs.Kept.{regions_of, AreKept};

    ghost view = { λ a. regions_of a.areas.items a.layout a.end a.mapped.items };

    ghost invariant = { λ a. AreKept a.areas.items a.sorted.items a.layout a.end a.mapped.items };
}

impl Areas {
    /// The regions at a program's entry, whose stack is written. The memory is the first one
    /// of the image. If memory runs out, it stays as it is.
    pub fn new(alloc: Global, memory: &mut Memory, image: &Image) -> Result<Areas, AllocError>
        requires { memory.old ≡ first_memory image.now memory.old.layout }
        ensures ok { IfOk result (λ areas.
            space areas memory.new ≡ first_space image.now memory.old.layout) }
        ensures shared { IfOk result (λ areas. SharesRegions areas memory.new) }
        ensures err { OnErr result (memory.new ≡ memory.old) }
    {
        let layout = memory.layout();
        let areas = Vec::from_slice(alloc, image.areas())?;
        let mut sorted = Vec::from_slice(alloc, image.areas())?;
        sorted.sort_by_key(|area| area.start)?;
        let mapped = vec![in alloc; false; (layout.map / PAGE) as usize]?;
        write_entry(memory, image);
        Ok(Areas {
            areas,
            sorted,
            layout,
            end: BRK_BASE,
            mapped,
        })
    }

    /// The stack pointer at the entry.
    pub fn stack_pointer(&self) -> Address
        ensures { result ≡ stack_pointer }
    {
        STACK_POINTER
    }

    /// Moves the break, if it may stand there, and returns the break after that. New pages below it
    /// are zeros that may be read and written; pages that are no longer below it lose their rights
    /// (Linux: brk(2)).
    pub fn brk(&mut self, memory: &mut Memory, to: Address) -> Address
        requires { SharesRegions self.old memory.old }
        ensures answer { result ≡ (with_break to (space self.old memory.old)).regions.break }
        ensures space { space self.new memory.new ≡ with_break to (space self.old memory.old) }
        ensures shared { SharesRegions self.new memory.new }
    {
        if to < BRK_BASE || to > BRK_BASE + self.layout.brk {
            return self.end;
        }
        let old = pages_for(self.end);
        let new = pages_for(to);
        if old < new {
            memory.give(old * PAGE, new - old, READ_AND_WRITE, true);
        } else {
            memory.give(new * PAGE, old - new, NO_RIGHTS, false);
        }
        self.end = to;
        to
    }

    /// Maps `length` bytes of zeros, at the lowest free run of pages that is long enough, and
    /// returns its address. Rejects a length of 0 (-EINVAL), execution (-EACCES), and more than is
    /// free (-ENOMEM) (Linux: mmap(2)).
    pub fn map(&mut self, memory: &mut Memory, length: u64, protection: u64) -> i64
        requires { SharesRegions self.old memory.old }
        ensures answer { result ≡ (map length protection (space self.old memory.old)).answer }
        ensures space { space self.new memory.new
            ≡ (map length protection (space self.old memory.old)).space }
        ensures shared { SharesRegions self.new memory.new }
    {
        if length == 0 {
            return INVALID;
        }
        if asks_execute(protection) {
            return NO_ACCESS;
        }
        let count = pages_for(length);
        match self.free_run(count) {
            None => NO_MEMORY,
            Some(index) => {
                self.mapped[index..index + count as usize].fill(true);
                let address = MAP_BASE + index as u64 * PAGE;
                memory.give(address, count, rights_of(protection), true);
                address as i64
            }
        }
    }

    /// Unmaps `length` bytes from an address on, in whole pages: they lose their rights, mapped or
    /// not. Rejects an address that starts no page, a length of 0, and pages outside of the map
    /// region (-EINVAL) (Linux: munmap(2)).
    pub fn unmap(&mut self, memory: &mut Memory, address: Address, length: u64) -> i64
        requires { SharesRegions self.old memory.old }
        ensures answer { result ≡ (unmap address length (space self.old memory.old)).answer }
        ensures space { space self.new memory.new
            ≡ (unmap address length (space self.old memory.old)).space }
        ensures shared { SharesRegions self.new memory.new }
    {
        let first = address / PAGE;
        let count = pages_for(length);
        if address % PAGE != 0
            || length == 0
            || address < MAP_BASE
            || first + count > (MAP_BASE + self.layout.map) / PAGE
        {
            return INVALID;
        }
        let index = (first - MAP_BASE / PAGE) as usize;
        self.mapped[index..index + count as usize].fill(false);
        memory.give(address, count, NO_RIGHTS, false);
        0
    }

    /// Gives `length` bytes from an address on, in whole pages, the rights of a protection, and
    /// never execution. Rejects an address that starts no page, execution, and a page that the
    /// program doesn't have (Linux: mprotect(2)).
    pub fn protect(
        &mut self,
        memory: &mut Memory,
        address: Address,
        length: u64,
        protection: u64,
    ) -> i64
        requires { SharesRegions self.old memory.old }
        ensures answer { result
            ≡ (protect address length protection (space self.old memory.old)).answer }
        ensures space { space self.new memory.new
            ≡ (protect address length protection (space self.old memory.old)).space }
        ensures shared { SharesRegions self.new memory.new }
    {
        // The invariant of `self` is known to a proof once a field is used.
        let _ = &self.layout;
        if address % PAGE != 0 {
            return INVALID;
        }
        if length == 0 {
            return 0;
        }
        if asks_execute(protection) {
            return NO_ACCESS;
        }
        let count = pages_for(length);
        if !self.has_each(address / PAGE, count) {
            return NO_MEMORY;
        }
        memory.give(address, count, rights_of(protection), false);
        0
    }

    /// Makes these regions equal to others of the same areas and layout.
    pub fn copy_from(&mut self, other: &Areas)
        requires areas { self.old.areas ≡ other.now.areas }
        requires layout { self.old.layout ≡ other.now.layout }
        ensures { self.new ≡ other.now }
    {
        self.end = other.end;
        self.mapped.copy_from_slice(&other.mapped);
    }

    /// The index in the map region of the lowest run of `count` free pages.
    fn free_run(&self, count: u64) -> Option<usize>
        requires { 0 < count }
        ensures page { option_map (λ index. page_of map_base + index) result
            ≡ free_run self.now count }
        ensures within { IfSome result (λ index. index + count ≤ page_of self.now.layout.map) }
    {
        let mut free = 0;
        for (index, is_mapped) in self.mapped.iter().enumerate() {
            free = if *is_mapped { 0 } else { free + 1 };
            if free == count {
                return Some(index + 1 - count as usize);
            }
        }
        None
    }

    /// Whether the program has each of `count` pages from `first` on.
    fn has_each(&self, first: u64, count: u64) -> bool
        requires { first + count < 2 ^ 64 }
        ensures { result ≡ is_each (is_known self.now) first count }
    {
        for page in first..first + count {
            if !self.has(page) {
                return false;
            }
        }
        true
    }

    fn is_mapped(&self, page: u64) -> bool
        ensures { result ≡ list_any (λ p. p == page) self.now.mapped }
    {
        page >= MAP_BASE / PAGE
            && page - MAP_BASE / PAGE < self.mapped.len() as u64
            && self.mapped[(page - MAP_BASE / PAGE) as usize]
    }

    /// Whether the program has a page.
    fn has(&self, page: u64) -> bool
        ensures { result ≡ is_known self.now page }
    {
        self.is_mapped(page)
            || is_in_run(BRK_BASE / PAGE, pages_for(self.end) - BRK_BASE / PAGE, page)
            || is_in_run(
                (STACK_TOP - self.layout.stack) / PAGE,
                self.layout.stack / PAGE,
                page,
            )
            || self.is_of_area(page)
    }

    fn is_of_area(&self, page: u64) -> bool
        ensures { result ≡ list_any (is_in_area page) self.now.areas }
    {
        let after = self
            .sorted
            .partition_point(|area| area.start / PAGE <= page);
        if after == 0 {
            return false;
        }
        let area = self.sorted[after - 1];
        is_in_run(area.start / PAGE, area.size / PAGE, page)
    }
}
