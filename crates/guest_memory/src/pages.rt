//! The pages of a memory, and which of them were touched.
ghost use Rattle.std.specs.Prelude.{◌≡◌, ◌+◌, ◌*◌, ◌≤◌, ◌<◌, length, get_or, set, replicate, true, IfOk, IsTrue};
ghost use Rattle.coz_types.specs.declared.TheConstants.{PAGE};
ghost use Rattle.guest_memory.specs.Copies.{AreCopied};
ghost use Rattle.guest_memory.specs.Marks.{AreMarked, AreClean, touched_with, rights_of};
ghost use Rattle.guest_memory.specs.Memory.{no_rights};
ghost use Rattle.guest_memory.specs.declared.Page.{Page};

use crate::copies::copy_touched;
use crate::{NO_RIGHTS, Page};
use coz_types::Rights;
use std::alloc::{AllocError, Global};
use zero_bytes::Bytes;

/// The pages that share a mark.
pub const CHUNK: usize = 64;

/// The pages of a memory, with a mark for each chunk of them that has a touched page:
/// a copy looks at no others.
#[derive(Drop)]
pub struct Pages {
    /// The pages in their order.
    pub each: Vec<Page>,
    /// By chunk, whether it has a touched page.
    pub marks: Vec<bool>,
    /// The first page of the code.
    code: usize,
    /// The page after the last of the code.
    code_end: usize,
    /// Whether no page of the code was touched.
    whole: bool,
    ghost marked: { AreMarked each.items marks.items },
    ghost clean: { AreClean code code_end whole each.items },
}

impl Pages {
    /// `total` pages with no rights, all of them touched. Those from `code` up to `code_end` are
    /// the code.
    pub fn new(
        alloc: Global,
        total: usize,
        code: usize,
        code_end: usize,
    ) -> Result<Pages, AllocError>
        ensures { IfOk result (λ pages.
            pages.each.items ≡ replicate total (touched_with no_rights)) }
    {
        let page = Page {
            rights: NO_RIGHTS,
            touched: true,
        };
        let each = vec![in alloc; page; total]?;
        let marks = vec![in alloc; true; total / CHUNK + 1]?;
        Ok(Pages {
            each,
            marks,
            code,
            code_end,
            whole: false,
        })
    }

    /// Whether these pages are of the code, and none of it was touched.
    #[inline(always)]
    pub fn is_clean(&self, first: u64, count: u64) -> bool
        requires { first + count ≤ length self.now.each.items }
        ensures { IsTrue result → AreClean first (first + count) true self.now.each.items }
    {
        self.whole && self.code as u64 <= first && first + count <= self.code_end as u64
    }

    /// Makes a page a touched one.
    pub fn touch(&mut self, index: usize)
        requires { index < length self.old.each.items }
        ensures { (d : Page) → self.new.each.items ≡ set self.old.each.items index
            (touched_with (get_or self.old.each.items index d).rights) }
    {
        if !self.each[index].touched {
            let rights = self.each[index].rights;
            self.give(index, rights);
        }
    }

    /// Gives a page its rights.
    pub fn give(&mut self, index: usize, rights: Rights)
        requires { index < length self.old.each.items }
        ensures { self.new.each.items ≡ set self.old.each.items index (touched_with rights) }
    {
        self.each[index] = Page {
            rights,
            touched: true,
        };
        self.marks[index / CHUNK] = true;
        if self.code <= index && index < self.code_end {
            self.whole = false;
        }
    }

    /// From now on no page is a touched one.
    pub fn forget_touched(&mut self)
        ensures { rights_of self.new.each.items ≡ rights_of self.old.each.items }
    {
        for page in self.each.iter_mut() {
            page.touched = false;
        }
        self.marks.fill(false);
        self.whole = true;
    }

    /// Copies each page that either has touched, with its bytes.
    pub fn copy_from(&mut self, bytes: &mut Bytes, other: &Pages, from: &Bytes)
        requires same_pages { length other.now.each.items ≡ length self.old.each.items }
        requires same_bytes { length from.now ≡ length bytes.old }
        requires each_byte { length bytes.old ≡ PAGE * length self.old.each.items }
        requires few { length self.old.each.items ≤ 0x4000000 }
        ensures { AreCopied (length self.old.each.items) self.old.each.items other.now.each.items
            self.new.each.items bytes.old from.now bytes.new }
    {
        copy_touched(&mut self.each, bytes, &self.marks, other, from);
        self.marks.copy_from_slice(&other.marks);
        self.code = other.code;
        self.code_end = other.code_end;
        self.whole = other.whole;
    }
}
