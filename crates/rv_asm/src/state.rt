//! What the lines so far have made: labels with their places, and pieces in their places.

ghost use Rattle.std.specs.Prelude.{◌≡◌, [], map};
ghost use Rattle.rv_asm.specs.Assembled.{section_length, next_location, start, with_label, with_piece, with_pieces, with_effect};
ghost use Rattle.rv_asm.specs.Statements.{size};
ghost use Rattle.rv_asm.specs.Views.{Steps, state_of, piece_of, statement_of, AlignsWithin};

use crate::AsmKind;
use crate::pieces::{Piece, Statement};
use asm_tokens::{Section, TokenError};
use asm_values::up_to_multiple;
use std::alloc::Global;
use std::collections::BTreeMap;

/// The most bytes of a section.
pub const MAX_SECTION: u32 = 1_048_576;

/// A location in a section.
#[derive(Clone, Copy)]
pub struct Location {
    /// The section.
    pub section: Section,
    /// The offset in the section.
    pub offset: u32,
}

/// A piece, its location, and the line of its statement.
#[derive(Drop)]
pub struct Put<'s> {
    /// The line, counted from 1.
    pub line: u32,
    /// The location of the piece.
    pub location: Location,
    /// The piece.
    pub piece: Piece<'s>,
}

/// The labels, the section and how long each one is, and the pieces in the order of the source.
#[derive(Drop)]
pub struct State<'s> {
    /// The location of each label.
    pub labels: BTreeMap<&'s [u8], Location>,
    /// The section that the next piece goes into.
    pub section: Section,
    /// The number of bytes of `.text` so far.
    pub text: u32,
    /// The number of bytes of `.data` so far.
    pub content: u32,
    /// The pieces so far.
    pub puts: Vec<Put<'s>>,
}

/// The number of bytes of a piece.
pub fn size(piece: &Piece) -> usize
    ensures { result ≡ size (piece_of piece.now) }
{
    match piece {
        Piece::Encoded(_) | Piece::Branch { .. } | Piece::Jump { .. } => 4,
        Piece::LoadAddress { .. } | Piece::Address(_) => 8,
        Piece::Bytes(bytes) => bytes.len(),
        Piece::Zeros(count) => *count as usize,
    }
}

impl<'s> State<'s> {
    /// Nothing is put yet.
    pub fn new(alloc: Global) -> State<'s>
        ensures { state_of result ≡ start }
    {
        State {
            labels: BTreeMap::new(alloc),
            section: Section::Text,
            text: 0,
            content: 0,
            puts: Vec::new(alloc),
        }
    }

    fn section_length(&self) -> u32
        ensures { result ≡ section_length (state_of self.now) }
    {
        match self.section {
            Section::Text => self.text,
            Section::Data => self.content,
        }
    }

    fn next_location(&self) -> Location
        ensures { result ≡ next_location (state_of self.now) }
    {
        Location {
            section: self.section,
            offset: self.section_length(),
        }
    }

    /// A label where the next piece goes.
    /// Err if there is one of that name, or if it is out of memory.
    pub fn add_label(&mut self, name: &'s [u8], column: u32) -> Result<(), TokenError>
        ensures { Steps result (state_of self.new)
            (with_label name.now column (state_of self.old)) }
    {
        let location = self.next_location();
        match self.labels.insert(name, location)? {
            None => Ok(()),
            Some(_) => Err(TokenError::Fault {
                kind: AsmKind::Twice,
                column,
            }),
        }
    }

    /// One piece of a statement.
    fn put(&mut self, line: u32, column: u32, piece: Piece<'s>) -> Result<(), TokenError>
        ensures { Steps result (state_of self.new)
            (with_piece line column (piece_of piece.entry) (state_of self.old)) }
    {
        let end = (self.section_length() as usize).saturating_add(size(&piece));
        if end > MAX_SECTION as usize {
            return Err(TokenError::Fault {
                kind: AsmKind::Much,
                column,
            });
        }
        let location = self.next_location();
        self.puts.push(Put {
            line,
            location,
            piece,
        })?;
        match self.section {
            Section::Text => self.text = end as u32,
            Section::Data => self.content = end as u32,
        }
        Ok(())
    }

    /// The pieces of a statement.
    #[tactic(auto, unfolding(crate::specs::Assembled::with_pieces))]
    fn put_all(&mut self, line: u32, column: u32, pieces: Vec<Piece<'s>>) -> Result<(), TokenError>
        ensures { Steps result (state_of self.new)
            (with_pieces line column (map piece_of pieces.entry.items) (state_of self.old)) }
    {
        for piece in pieces {
            self.put(line, column, piece)?;
        }
        Ok(())
    }

    /// Performs a statement.
    /// Err if its section may not have it or would be too long, or if it is out of memory.
    pub fn perform(&mut self, line: u32, column: u32, what: Statement<'s>) -> Result<(), TokenError>
        requires { AlignsWithin what }
        ensures { Steps result (state_of self.new)
            (with_effect line column (statement_of what.entry) (state_of self.old)) }
    {
        match what {
            Statement::Puts(pieces) => self.put_all(line, column, pieces),
            Statement::Aligns(bits) => {
                let length = u64::from(self.section_length());
                let zeros = up_to_multiple(1 << bits, length) - length;
                self.put(line, column, Piece::Zeros(zeros as u32))
            }
            Statement::Enters(section) => {
                self.section = section;
                Ok(())
            }
        }
    }
}
