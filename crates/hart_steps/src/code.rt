//! Words of code, and the instructions that they are.
ghost use Rattle.std.specs.Prelude.{◌≡◌, ◌+◌, ◌*◌, ◌≤◌, true, length, IfOk, IfSome, IsTrue};
ghost use Rattle.coz_types.specs.declared.TheConstants.{LOAD_END};
ghost use Rattle.code_words.specs.declared.span.TheConstants.{MAX_WORDS};
ghost use Rattle.guest_memory.specs.Memory.{first_memory};
ghost use Rattle.rv_decode.specs.declared.Instr.{Instr};
ghost use Rattle.hart_steps.specs.Words.{IsWord, IsWordAt, may_store};
ghost use Rattle.hart_steps.specs.Code.{IsCodeOf, IsIntact, AreWordsFrom};

use code_words::code_span;
use cost_table::cycles;
use coz_types::{Address, Image};
use guest_memory::{CodePages, Layout, Memory};
use rv_decode::{Instr, decode};
use std::alloc::{AllocError, Global};
use std::marker::Model;

/// A word, and what it is decoded to.
#[derive(Clone, Copy)]
pub struct Word {
    raw: u32,
    /// Its instruction, if it is one.
    pub instr: Option<Instr>,
    /// The ticks that it takes.
    pub ticks: u16,
    /// Whether its instruction may change the memory.
    pub stores: bool,
}

/// What stands at the place of a word that is not decoded yet.
const NO_WORD: Word = Word {
    raw: 0,
    instr: None,
    ticks: 100,
    stores: false,
};

/// The words of a program's code, decoded ahead. They are those of the first memory: what they are
/// worth later depends on whether the code is still as it was at first.
#[derive(Drop)]
pub struct Code<'a> {
    image: &'a Image<'a>,
    layout: Layout,
    start: Address,
    /// The number of words that are decoded.
    count: usize,
    words: Vec<Word>,
}

impl<'a> Model for Code<'a> {
    ghost use Rattle.hart_steps.specs.Code.{CodeMap, AreDecoded};

    ghost Value = { CodeMap };

    ghost view = { λ c. record {
      image = c.image.now;
      layout = c.layout;
      start = c.start;
      count = c.count;
    } };

    ghost invariant = { λ c. AreDecoded (record {
      image = c.image.now;
      layout = c.layout;
      start = c.start;
      count = c.count;
    }) c.words.items };
}

/// Whether an instruction may change the memory.
fn may_store(instr: Option<Instr>) -> bool
    ensures { result ≡ may_store instr }
{
    match instr {
        Some(Instr::Store { .. }) => true,
        Some(Instr::Atomic { .. }) => true,
        _ => false,
    }
}

fn decoded(raw: u32) -> Word
    ensures word { IsWord result }
    ensures raw { result.raw ≡ raw }
{
    let instr = decode(raw);
    Word {
        raw,
        instr,
        ticks: (100 * cycles(instr)) as u16,
        stores: may_store(instr),
    }
}

/// Decodes the words of a memory from an address on, up to the first that can't be fetched.
/// Returns how many they are.
fn decode_from(words: &mut Vec<Word>, memory: &Memory, start: Address) -> usize
    requires low { start ≤ LOAD_END }
    requires few { length words.old.items ≤ MAX_WORDS }
    ensures count { result ≤ length words.new.items }
    ensures same { length words.new.items ≡ length words.old.items }
    ensures each { AreWordsFrom memory.now start result words.new.items }
{
    for k in 0..words.len() {
        match memory.fetch(start + 4 * k as u64) {
            Ok(raw) => words[k] = decoded(raw),
            Err(_) => return k,
        }
    }
    words.len()
}

impl<'a> Code<'a> {
    /// Room for the code of an image, with no word yet.
    pub fn new(alloc: Global, image: &'a Image<'a>, layout: Layout) -> Result<Code<'a>, AllocError>
        ensures image { IfOk result (λ code. code.image ≡ image.now) }
        ensures layout { IfOk result (λ code. code.layout ≡ layout) }
    {
        let span = code_span(image);
        let words = vec![in alloc; NO_WORD; span.count]?;
        Ok(Code {
            image,
            layout,
            start: span.start,
            count: 0,
            words,
        })
    }

    /// Decodes the words of the memory that a program begins with.
    pub fn decode(&mut self, memory: &Memory)
        requires { memory.now ≡ first_memory self.old.image self.old.layout }
        ensures image { self.new.image ≡ self.old.image }
        ensures layout { self.new.layout ≡ self.old.layout }
    {
        self.count = decode_from(&mut self.words, memory, self.start);
    }

    /// Whether all words lie in these pages.
    #[inline(always)]
    fn is_within(&self, pages: CodePages) -> bool
        ensures { IsTrue result → (pages.start ≤ self.now.start)
            × (self.now.start + 4 * self.now.count ≤ pages.start + pages.size) }
    {
        if self.start < pages.start {
            return false;
        }
        let before = self.start - pages.start;
        let size = 4 * self.count as u64;
        size <= pages.size && before <= pages.size - size
    }

    /// Whether the bytes of the code, and the rights to them, are as they were at first. True only
    /// if they are.
    #[inline(always)]
    pub(crate) fn is_intact(&self, memory: &Memory) -> bool
        ensures { IsTrue result → IsIntact self.now memory.now }
    {
        match memory.first_code() {
            Some(pages) => self.is_within(pages),
            None => false,
        }
    }

    /// Whether code that was intact before a word was executed still is. True only if it is.
    #[inline(always)]
    pub(crate) fn is_intact_after(&self, word: &Word, memory: &Memory) -> bool
        ensures { IsTrue result → word.now.stores ≡ true → IsIntact self.now memory.now }
    {
        !word.stores || self.is_intact(memory)
    }

    /// The word at an address of a memory whose code is intact. None if no word that was decoded
    /// is there.
    #[inline(always)]
    pub(crate) fn word(&self, memory: &Memory, address: Address) -> Option<&Word>
        requires of { IsCodeOf self.now memory.now }
        requires intact { IsIntact self.now memory.now }
        ensures { IfSome result (λ word. IsWordAt memory.now address word.now) }
    {
        // A memory tells a proof alone which word stands there.
        let _ = memory;
        if address < self.start {
            return None;
        }
        let apart = address - self.start;
        let place = (apart / 4) as usize;
        if apart % 4 == 0 && place < self.count {
            Some(&self.words[place])
        } else {
            None
        }
    }
}
