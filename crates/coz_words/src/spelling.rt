//! Which texts may be words, and the command that the first names.
ghost use Rattle.std.specs.Prelude.{◌≡◌};
ghost use Rattle.std.specs.List.{list_all};
ghost use Rattle.coz_words.specs.Answers.{bytes_of};
ghost use Rattle.coz_words.specs.Request.{has_no_zero, is_word};
ghost use Rattle.coz_words.specs.Slow.{command_in};

use crate::command::{Command, command_of};
use coz_types::MAX_WORD;

fn has_no_zero(word: &[u8]) -> bool
    ensures { result ≡ has_no_zero word.now }
{
    word.iter().all(|byte| *byte != 0)
}

fn is_word(word: &[u8]) -> bool
    ensures { result ≡ is_word word.now }
{
    has_no_zero(word) && word.len() <= MAX_WORD
}

/// Whether no word has a zero byte or is too long.
fn are_words(words: &[String]) -> bool
    ensures { result ≡ list_all is_word (bytes_of words.now) }
{
    words.iter().all(|word| is_word(word.as_bytes()))
}

/// The command of the words, if each may be a word.
/// None if the first names no command, or some text is no word.
pub fn command_in(words: &[String]) -> Option<Command>
    ensures { result ≡ command_in (bytes_of words.now) }
{
    let (first, _) = words.split_first()?;
    if !are_words(words) {
        return None;
    }
    command_of(first.as_str())
}
