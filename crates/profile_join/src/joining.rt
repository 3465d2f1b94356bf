//! The join of profiles.
ghost use Rattle.std.specs.Prelude.{◌≡◌, ◌<◌, ◌++◌, List, map, flat_map, length, option_copied, All, IfOk, OnOk, Some, None, Err};
ghost use Rattle.std.specs.List.Sorted.{IsPermutation, IsSortedBy};
ghost use Rattle.coz_types.specs.declared.record.Summary.{Summary};
ghost use Rattle.profile_book.specs.declared.profile.Profile.{Profile};
ghost use Rattle.profile_book.specs.Profile.{IsProfile};
ghost use Rattle.profile_join.specs.Parts.{tag, tags_of, numbered, in_order, first_alike, IsJoin, IsJoined};
ghost use Rattle.profile_join.specs.Order.{comes_before};
ghost use Rattle.profile_join.specs.declared.fault.PartFault.{PartFault};
ghost use Rattle.profile_join.specs.declared.fault.JoinError.TheVariants.{Unlike};
ghost use Rattle.profile_join.specs.declared.tagged.Tagged.{Tagged};

use crate::fault::{JoinError, PartFault, PartKind};
use crate::likeness::unlike;
use crate::order::{block_order, first_block_order, tag_order};
use crate::tagged::{NumberedPart, Tagged};
use coz_types::{Items, Label, Summary};
use profile_book::Profile;
use std::alloc::{AllocError, Global};
use std::cmp::Ordering;

/// Returns the blocks without the numbers of their parts.
fn untagged(alloc: Global, tags: Vec<Tagged>) -> Result<Vec<Summary>, AllocError>
    ensures { IfOk result (λ summaries. summaries.items ≡ map (λ (t : Tagged). t.summary) tags.items) }
{
    let mut summaries = Vec::new(alloc);
    for tag in tags {
        let Tagged { part: _, summary } = tag;
        summaries.push(summary)?;
    }
    Ok(summaries)
}

/// Returns the blocks sorted by label and speedup, those of one label and speedup by part.
fn sorted(mut tags: Vec<Tagged>) -> Result<Vec<Tagged>, AllocError>
    ensures sorted { IfOk result (λ sorted. IsSortedBy comes_before sorted.items) }
    ensures moved { IfOk result (λ sorted. IsPermutation tags.items sorted.items) }
{
    tags.sort_by(|a, b| tag_order(a, b))?;
    Ok(tags)
}

/// Appends the blocks of a part.
fn push_tags(part: usize, summaries: Vec<Summary>, tags: &mut Vec<Tagged>) -> Result<(), AllocError>
    ensures { OnOk result (tags.new.items ≡ tags.old.items ++ map (tag part) summaries.items) }
{
    for summary in summaries {
        tags.push(Tagged { part, summary })?;
    }
    Ok(())
}

/// Returns the first block that has the label and the speedup of the one before it.
fn first_alike(tags: &[Tagged]) -> Option<&Tagged>
    ensures { option_copied result ≡ first_alike tags.now }
{
    for i in 1..tags.len() {
        if block_order(&tags[i - 1].summary, &tags[i].summary).is_eq() {
            return Some(&tags[i]);
        }
    }
    None
}

/// Returns all blocks, part by part, each with the number of its part.
fn all_tags(alloc: Global, parts: Vec<NumberedPart>) -> Result<Vec<Tagged>, AllocError>
    ensures { IfOk result (λ tags. tags.items ≡ flat_map tags_of parts.items) }
{
    let mut tags = Vec::new(alloc);
    for part in parts {
        let NumberedPart { number, summaries } = part;
        push_tags(number, summaries.into_vec(), &mut tags)?;
    }
    Ok(tags)
}

/// Returns the blocks of each part with its number.
fn numbered(alloc: Global, parts: Vec<Profile>) -> Result<Vec<NumberedPart>, AllocError>
    ensures { IfOk result (λ made. made.items ≡ numbered 0 parts.items) }
{
    let mut numbered = Vec::new(alloc);
    let mut number = 0;
    for part in parts {
        let Profile {
            budget: _,
            points,
            summaries,
        } = part;
        drop(points);
        numbered.push(NumberedPart { number, summaries })?;
        number += 1;
    }
    Ok(numbered)
}

/// Returns the parts by their first blocks: blocks of parts that don't overlap are then in order.
fn by_first_block(mut parts: Vec<NumberedPart>) -> Result<Vec<NumberedPart>, AllocError>
    ensures moved { IfOk result (λ moved. IsPermutation parts.items moved.items) }
{
    parts.sort_by(|a, b| first_block_order(a, b))?;
    Ok(parts)
}

/// Returns all blocks by label and speedup, those of one label and speedup by part.
fn ordered(alloc: Global, parts: Vec<Profile>) -> Result<Vec<Tagged>, AllocError>
    requires right { All IsProfile parts.items }
    ensures ordered { IfOk result (λ tags. tags.items ≡ in_order parts.items) }
{
    let parts = by_first_block(numbered(alloc, parts)?)?;
    let tags = sorted(all_tags(alloc, parts)?)?;
    Ok(tags)
}

/// Returns a copy of the labels.
fn copied(alloc: Global, labels: &[Label]) -> Result<Items<Label>, AllocError>
    ensures { IfOk result (λ copy. copy ≡ labels.now) }
{
    let mut copy = Vec::new(alloc);
    for label in labels {
        copy.push(Label::copy(alloc, label.bytes())?)?;
    }
    Ok(Items::new(copy))
}

/// Returns the profile that these are parts of: the budget and the points of each part, and the
/// blocks of all parts by label and speedup. Returns `Unlike` exactly if the parts have a fault:
/// the first part, in the order given, that is unlike the parts before it in its budget, its
/// points, its speedups or a baseline; if there is none, the first label, in the order of
/// profiles, that is in two parts. Returns `Memory` if out of memory. The blocks are moved.
pub fn join(alloc: Global, parts: Vec<Profile>) -> Result<Profile, JoinError>
    requires some { 0 < length parts.items }
    requires right { All IsProfile parts.items }
    // The fault is the defined one, and what is joined is the profile of the parts.
    ensures join { IsJoin parts.items result }
    // The part that the fault names is one of these.
    ensures within { (fault : PartFault) → result ≡ Err (Unlike fault) → fault.part < length parts.items }
    // The parts in any order have this profile, and no other.
    ensures one { IfOk result (λ joined. (others : List Profile) (other : Profile)
        → IsPermutation parts.items others → IsJoined others other → other ≡ joined) }
{
    if let Some(fault) = unlike(&parts) {
        return Err(JoinError::Unlike(fault));
    }
    let budget = parts[0].budget;
    let points = copied(alloc, parts[0].points.as_slice())?;
    let tags = ordered(alloc, parts)?;
    if let Some(tag) = first_alike(&tags) {
        let label = Label::copy(alloc, tag.summary.selected.bytes())?;
        return Err(JoinError::Unlike(PartFault {
            kind: PartKind::Twice(label),
            part: tag.part,
        }));
    }
    let summaries = untagged(alloc, tags)?;
    Ok(Profile {
        budget,
        points,
        summaries: Items::new(summaries),
    })
}
