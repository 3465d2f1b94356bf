//! What stands at the words of code besides their instructions: lines and progress points.
ghost use Rattle.std.specs.Prelude.{◌≡◌, ◌<◌, length, get_or, true, IfOk};
ghost use Rattle.code_words.specs.Marks.{no_mark, unmarked, mark_at, is_quiet_at, with_mark};

use coz_types::Address;
use std::alloc::{AllocError, Global};
use std::marker::Model;

/// The line of a word of code.
#[derive(Clone, Copy, PartialEq, Eq)]
pub enum MarkedLine {
    /// The line that is selected.
    Selected,
    /// Another line.
    Other,
    /// The word has no line.
    None,
}

/// What stands at a word of code.
#[derive(Clone, Copy)]
pub struct Mark {
    /// Its line.
    pub line: MarkedLine,
    /// Whether a progress point is there.
    pub point: bool,
}

/// The mark of a word that has neither a line nor a point.
const NO_MARK: Mark = Mark {
    line: MarkedLine::None,
    point: false,
};

/// The marks of the words of code in a row.
#[derive(Drop)]
pub struct Marks {
    start: Address,
    each: Vec<Mark>,
}

impl Model for Marks {
    ghost use Rattle.code_words.specs.Marks.{MarkMap};

    ghost Value = { MarkMap };

    ghost view = { λ m. record { start = m.start; marks = m.each.items } };

    ghost invariant = { λ _. Unit {0} };
}

impl Marks {
    /// The marks of `count` words from an address on: no word has a line or a point.
    pub fn new(alloc: Global, start: Address, count: usize) -> Result<Marks, AllocError>
        ensures { IfOk result (λ marks. marks ≡ unmarked start count) }
    {
        let each = vec![in alloc; NO_MARK; count]?;
        Ok(Marks { start, each })
    }

    /// The address of the first word.
    #[inline]
    pub fn start(&self) -> Address
        ensures { result ≡ self.now.start }
    {
        self.start
    }

    /// The number of words.
    #[inline]
    pub fn count(&self) -> usize
        ensures { result ≡ length self.now.marks }
    {
        self.each.len()
    }

    /// From now on no word has a line or a point.
    pub fn clear(&mut self)
        ensures { self.new ≡ unmarked self.old.start (length self.old.marks) }
    {
        self.each.fill(NO_MARK);
    }

    /// Makes the marks equal to others of the same words.
    pub fn copy_from(&mut self, other: &Marks)
        requires start { self.old.start ≡ other.now.start }
        requires count { length self.old.marks ≡ length other.now.marks }
        ensures { self.new ≡ other.now }
    {
        self.each.copy_from_slice(&other.each);
    }

    /// Marks the word at a place, counted from 0.
    #[inline]
    pub fn set(&mut self, place: usize, mark: Mark)
        requires { place < length self.old.marks }
        ensures { self.new ≡ with_mark place mark self.old }
    {
        self.each[place] = mark;
    }

    /// Gives the word at a place a line.
    #[inline]
    pub fn set_line(&mut self, place: usize, line: MarkedLine)
        requires { place < length self.old.marks }
        ensures { self.new ≡ with_mark place
            (record (get_or self.old.marks place no_mark) { line = line }) self.old }
    {
        self.each[place].line = line;
    }

    /// Puts a progress point at the word at a place.
    #[inline]
    pub fn set_point(&mut self, place: usize)
        requires { place < length self.old.marks }
        ensures { self.new ≡ with_mark place
            (record (get_or self.old.marks place no_mark) { point = true }) self.old }
    {
        self.each[place].point = true;
    }

    /// The mark of the word at an address. None if no word of these begins there.
    #[inline]
    pub fn at(&self, address: Address) -> Option<Mark>
        ensures { result ≡ mark_at self.now address }
    {
        if address < self.start {
            return None;
        }
        let apart = address - self.start;
        let place = apart / 4;
        if apart % 4 == 0 && place < self.each.len() as u64 {
            Some(self.each[place as usize])
        } else {
            None
        }
    }

    /// Whether the word at an address has neither the selected line nor a point. False if no word
    /// of these begins there.
    #[inline(always)]
    pub fn is_quiet_at(&self, address: Address) -> bool
        ensures { result ≡ is_quiet_at self.now address }
    {
        match self.at(address) {
            Some(mark) => !(mark.point | matches!(mark.line, MarkedLine::Selected)),
            None => false,
        }
    }
}
