//! A text that is kept of the words.
ghost use Rattle.std.specs.Prelude.{◌≡◌, List, ℕ, IfOk, string_bytes};
ghost use Rattle.std.specs.Option.{option_copied};

use std::alloc::{AllocError, Global};
use std::marker::Model;

/// A text that the words gave. Contracts see the list of its bytes.
#[derive(Drop)]
pub struct Word {
    held: String,
}

impl Model for Word {
    ghost Value = { List ℕ };

    ghost view = { λ word. string_bytes word.held };
}

impl Word {
    /// A word of this text, which is copied.
    pub(crate) fn copy(alloc: Global, text: &str) -> Result<Word, AllocError>
        ensures { IfOk result (λ word. word ≡ text.now) }
    {
        Ok(Word {
            held: String::from_str(alloc, text)?,
        })
    }

    /// The text.
    pub fn text(&self) -> &str
        ensures { result.now ≡ self.now }
    {
        self.held.as_str()
    }
}

/// A word of the text, if there is one.
fn copied(alloc: Global, text: Option<&str>) -> Result<Option<Word>, AllocError>
    ensures { IfOk result (λ word. word ≡ option_copied text.entry) }
{
    match text {
        Some(text) => Ok(Some(Word::copy(alloc, text)?)),
        None => Ok(None),
    }
}

/// Owned copies of two texts, if there are such.
pub(crate) fn copied_pair(
    alloc: Global,
    first: Option<&str>,
    second: Option<&str>,
) -> Result<(Option<Word>, Option<Word>), AllocError>
    ensures first { IfOk result (λ words. words.0 ≡ option_copied first.entry) }
    ensures second { IfOk result (λ words. words.1 ≡ option_copied second.entry) }
{
    let word = copied(alloc, first)?;
    Ok((word, copied(alloc, second)?))
}
