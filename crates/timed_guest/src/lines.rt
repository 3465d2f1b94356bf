//! The lines of a program's addresses.
ghost use Rattle.std.specs.Prelude.{◌≡◌, ◌≤◌, length, option_map, IfOk};
ghost use Rattle.coz_types.specs.declared.TheConstants.{LOAD_END};
ghost use Rattle.code_words.specs.declared.span.TheConstants.{MAX_WORDS};
ghost use Rattle.line_index.specs.Index.{has_line, position_at};
ghost use Rattle.timed_guest.specs.Lines.{AreLinesFrom};
ghost use Rattle.timed_guest.specs.Retire.{line_id};

use code_words::code_span;
use coz_types::{Address, Image, LineId};
use line_index::LineIndex;
use std::alloc::{AllocError, Global};
use std::marker::Model;

/// The lines of a program's addresses. Those of the words of its code may stand in a table, so that
/// they are found without a search. Contracts see the index. `new` alone can be out of memory.
#[derive(Drop)]
pub struct Lines<'a> {
    index: &'a LineIndex,
    start: Address,
    words: Vec<Option<LineId>>,
}

impl<'a> Model for Lines<'a> {
    ghost use Rattle.std.specs.Prelude.{length};
    ghost use Rattle.line_index.specs.Index.{Index};
    ghost use Rattle.timed_guest.specs.Lines.{AreLinesFrom};

    ghost Value = { Index };

    ghost view = { λ l. l.index.now };

    ghost invariant = { λ l.
        AreLinesFrom l.index.now l.start (length l.words.items) l.words.items };
}

/// Puts the line of each word into a table.
#[tactic(auto, using(crate::proofs::WordLines::all_lines))]
fn fill(words: &mut Vec<Option<LineId>>, index: &LineIndex, start: Address)
    requires low { start ≤ LOAD_END }
    requires few { length words.old.items ≤ MAX_WORDS }
    ensures lines { AreLinesFrom index.now start (length words.new.items) words.new.items }
{
    for place in 0..words.len() {
        words[place] = index.line_of(start + 4 * place as u64);
    }
}

impl<'a> Lines<'a> {
    /// The lines of an index, with a table of the words of an image's code if one is wanted.
    pub fn new(
        alloc: Global,
        image: &Image,
        index: &'a LineIndex,
        has_table: bool,
    ) -> Result<Lines<'a>, AllocError>
        ensures { IfOk result (λ lines. lines ≡ index.now) }
    {
        let code = code_span(image);
        let count = if has_table { code.count } else { 0 };
        let mut words = vec![in alloc; None; count]?;
        fill(&mut words, index, code.start);
        Ok(Lines {
            index,
            start: code.start,
            words,
        })
    }

    /// The line of an address, unless it has none.
    #[inline(always)]
    pub fn line_of(&self, address: Address) -> Option<LineId>
        ensures { result ≡ option_map line_id (position_at self.now address) }
    {
        if address < self.start {
            return self.index.line_of(address);
        }
        let apart = address - self.start;
        let place = (apart / 4) as usize;
        if apart % 4 == 0 && place < self.words.len() {
            self.words[place]
        } else {
            self.index.line_of(address)
        }
    }

    /// Whether an address has this line. The table is not asked.
    #[inline]
    pub fn has_line(&self, line: LineId, address: Address) -> bool
        ensures { result ≡ has_line self.now line.0 address }
    {
        self.index.has_line(line, address)
    }

    /// Makes these lines those of another table of the same program.
    pub fn copy_from(&mut self, other: &Lines<'a>)
        requires { self.old ≡ other.now }
        ensures { self.new ≡ other.now }
    {
        self.index = other.index;
    }
}
