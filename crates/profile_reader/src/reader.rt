//! The reader of a profile's text.
ghost use Rattle.std.specs.Prelude.{◌≡◌, ◌↔◌, ℕ, List, length, not, true, IfOk, None, Some};
ghost use Rattle.coz_types.specs.Labels.{is_label, label_before};
ghost use Rattle.profile_book.specs.Profile.{IsTextOf};
ghost use Rattle.profile_reader.specs.Items.{items_of};
ghost use Rattle.profile_reader.specs.Grammar.{book_fault, not_before};
ghost use Rattle.profile_reader.specs.Reading.{profile_at};
ghost use Rattle.failures.specs.Answers.{Gives};
ghost use Rattle.profile_reader.specs.Parsed.{parsed_profile};
ghost use Rattle.profile_reader.specs.Judging.{IsJudged, IsParsedAs};
ghost use Rattle.profile_book.specs.declared.profile.Profile.{Profile};

use crate::block_lines::parse_head;
use crate::blocks::{parse_blocks, parse_points};
use crate::fault::BookError;
use crate::scan::start;
use coz_types::Items;
use profile_book::Profile;
use std::alloc::Global;

#[tactic(auto, unfolding(crate::specs::Reading::profile_at, crate::specs::Reading::bind))]
fn parse_profile(alloc: Global, bytes: &[u8]) -> Result<Profile, BookError>
    ensures { Gives (λ p. p) result (profile_at (length bytes.now) (items_of bytes.now)) }
{
    let ((budget, points), at) = parse_head(start(bytes))?;
    let (names, at) = parse_points(alloc, points, at)?;
    let summaries = parse_blocks(alloc, bytes.len(), points, at)?;
    let points = Items::new(names);
    let summaries = Items::new(summaries);
    Ok(Profile {
        budget,
        points,
        summaries,
    })
}

/// The profile of which the bytes are the text.
/// Err is the first wrong item if they are not a profile's, or out of memory.
pub fn read_profile(alloc: Global, bytes: &[u8]) -> Result<Profile, BookError>
    // A fault is reported exactly if there is one, and it is the definition's.
    ensures exact { IsJudged result (book_fault bytes.now) }
    // What is read is within the ranges and orders, and the bytes are its text.
    ensures found { IfOk result (λ p. IsTextOf p bytes.now) }
    // A profile's text is read as this profile, unless memory runs out.
    ensures only { (p : Profile) → IsTextOf p bytes.now → IsParsedAs result p }
{
    parse_profile(alloc, bytes)
}

/// There is no fault exactly if the bytes are the text of a profile.
pub fn texts_have_no_fault()
    ensures { (bytes : List ℕ) → (book_fault bytes ≡ None) ↔ ((p : Profile) × IsTextOf p bytes) }
{}

/// A profile's text tells this profile.
pub fn texts_tell_their_profile()
    ensures { (bytes : List ℕ) (p : Profile) → IsTextOf p bytes → parsed_profile bytes ≡ p }
{}

/// A label that may not follow the one before it is less than that one.
pub fn labels_rise_or_fall()
    ensures { (last label : List ℕ) → is_label last ≡ true → is_label label ≡ true →
        not_before (Some last) label ≡ not (label_before label last) }
{}
