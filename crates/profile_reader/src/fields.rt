//! One item of a profile's text, and its value.
ghost use Rattle.std.specs.Prelude.{◌≡◌, option_copied, codes, bytes_eq};
ghost use Rattle.profile_book.specs.Profile.{number_field};
ghost use Rattle.profile_reader.specs.Grammar.{comes_after, not_before};
ghost use Rattle.profile_reader.specs.declared.fault.BookField.TheVariants.{Index, Name, Selected};
ghost use Rattle.profile_reader.specs.Reading.{word_at, number_at, label_at, speedup_at, ending_at, digest_at, selected_of, speedup_of};
ghost use Rattle.failures.specs.Answers.{Gives};
ghost use Rattle.profile_reader.specs.Standing.{ahead};

use crate::cursor::Cursor;
use crate::digests::digest_of;
use crate::endings::ending_of;
use crate::fault::{BookError, BookField};
use crate::field_values::{number_of, value};
use crate::order::{comes_after, goes_on, not_before};
use crate::scan::{fault, next_item};
use coz_types::{Digest, Ending, Label, MAX_SPEEDUP, Summary};
use profile_labels::is_label;

/// The item that is these bytes. Err if another item stands there, or none.
#[tactic(auto, unfolding(crate::specs::Reading::word_at))]
pub fn expect_word<'a>(
    at: Cursor<'a>,
    kind: BookField,
    text: &[u8],
) -> Result<Cursor<'a>, BookError>
    ensures { Gives (λ c. (tt, ahead c)) result (word_at kind text.now (ahead at.entry)) }
{
    let (word, next) = next_item(at);
    if word == text {
        Ok(next)
    } else {
        Err(fault(at, kind))
    }
}

/// The field with a number of at most this bound. Err if another item stands there, or none.
#[tactic(auto, unfolding(crate::specs::Reading::number_at))]
pub fn parse_number<'a>(
    at: Cursor<'a>,
    kind: BookField,
    most: u64,
) -> Result<(u64, Cursor<'a>), BookError>
    ensures { Gives (λ x. (x.0, ahead x.1)) result (number_at kind most (ahead at.entry)) }
{
    let (word, next) = next_item(at);
    match number_of(word, kind, most) {
        Some(number) => Ok((number, next)),
        None => Err(fault(at, kind)),
    }
}

/// The name of a point, after the last one. Err if another item stands there, or none.
#[tactic(auto, unfolding(crate::specs::Reading::label_at))]
pub fn parse_name<'a>(
    at: Cursor<'a>,
    last: Option<&Label>,
) -> Result<(&'a [u8], Cursor<'a>), BookError>
    ensures { Gives (λ x. (x.0.now, ahead x.1)) result
        (label_at Name (comes_after (option_copied last.entry)) (ahead at.entry)) }
{
    let (word, next) = next_item(at);
    let Some(label) = value(word, BookField::Name) else {
        return Err(fault(at, BookField::Name));
    };
    if is_label(label) && comes_after(last, label) {
        Ok((label, next))
    } else {
        Err(fault(at, BookField::Name))
    }
}

/// The label of a block, after the last one. Err if another item stands there, or none.
#[tactic(auto, unfolding(crate::specs::Reading::label_at))]
pub fn parse_label<'a>(
    at: Cursor<'a>,
    last: Option<&Summary>,
) -> Result<(&'a [u8], Cursor<'a>), BookError>
    ensures { Gives (λ x. (x.0.now, ahead x.1)) result
        (label_at Selected (not_before (selected_of (option_copied last.entry))) (ahead at.entry)) }
{
    let (word, next) = next_item(at);
    let Some(label) = value(word, BookField::Selected) else {
        return Err(fault(at, BookField::Selected));
    };
    if is_label(label) && not_before(last, label) {
        Ok((label, next))
    } else {
        Err(fault(at, BookField::Selected))
    }
}

/// The speedup of a block with this label, after the last block.
/// Err if another item stands there, or none.
#[tactic(auto, unfolding(crate::specs::Reading::speedup_at))]
pub fn parse_speedup<'a>(
    at: Cursor<'a>,
    last: Option<&Summary>,
    label: &[u8],
) -> Result<(u8, Cursor<'a>), BookError>
    ensures { Gives (λ x. (x.0, ahead x.1)) result
        (speedup_at (selected_of (option_copied last.entry))
        (speedup_of (option_copied last.entry)) label.now
        (ahead at.entry)) }
{
    let (word, next) = next_item(at);
    match number_of(word, BookField::Speedup, MAX_SPEEDUP) {
        Some(speedup) if goes_on(last, label, speedup) => Ok((speedup as u8, next)),
        _ => Err(fault(at, BookField::Speedup)),
    }
}

/// The ending of a run. Err if another item stands there, or none.
#[tactic(auto, unfolding(crate::specs::Reading::ending_at))]
pub fn parse_ending<'a>(at: Cursor<'a>) -> Result<(Ending, Cursor<'a>), BookError>
    ensures { Gives (λ x. (x.0, ahead x.1)) result (ending_at (ahead at.entry)) }
{
    let (word, next) = next_item(at);
    let Some(text) = value(word, BookField::End) else {
        return Err(fault(at, BookField::End));
    };
    match ending_of(text) {
        Some(ending) => Ok((ending, next)),
        None => Err(fault(at, BookField::End)),
    }
}

/// A digest. Err if another item stands there, or none.
#[tactic(auto, unfolding(crate::specs::Reading::digest_at))]
pub fn parse_digest<'a>(at: Cursor<'a>) -> Result<(Digest, Cursor<'a>), BookError>
    ensures { Gives (λ x. (x.0.bytes, ahead x.1)) result (digest_at (ahead at.entry)) }
{
    let (word, next) = next_item(at);
    let Some(text) = value(word, BookField::Digest) else {
        return Err(fault(at, BookField::Digest));
    };
    match digest_of(text) {
        Some(bytes) => Ok((Digest { bytes }, next)),
        None => Err(fault(at, BookField::Digest)),
    }
}

/// The field with this index. Err if another item stands there, or none.
#[tactic(auto, unfolding(crate::specs::Reading::word_at))]
pub fn expect_index<'a>(at: Cursor<'a>, index: u64) -> Result<Cursor<'a>, BookError>
    ensures { Gives (λ c. (tt, ahead c)) result
        (word_at Index (number_field (codes "index") index) (ahead at.entry)) }
{
    let (word, next) = next_item(at);
    if is_index(word, index) {
        Ok(next)
    } else {
        Err(fault(at, BookField::Index))
    }
}

fn is_index(item: &[u8], index: u64) -> bool
    ensures { result ≡ bytes_eq item.now (number_field (codes "index") index) }
{
    let mut buffer = itoa::Buffer::new();
    let digits = buffer.format(index).as_bytes();
    match value(item, BookField::Index) {
        Some(text) => text == digits,
        None => false,
    }
}
