//! Where the elements of each line stand in a list of blocks or of curves.
ghost use Rattle.std.specs.Prelude.{◌≡◌, IfOk};
ghost use Rattle.page_values.specs.Lines.{ArePlaces, after_of, block_labels, curve_labels, first_of, texts};

use causal_curves::Curve;
use coz_types::Summary;
use std::alloc::{AllocError, Global};
use std::collections::BTreeMap;

/// Where the elements of each line stand in a list, each of which has the label of one line.
#[derive(Drop)]
pub struct LinePlaces<'a> {
    /// The first place of each label.
    first: BTreeMap<&'a [u8], usize>,
    /// For each place, the next one with the same label.
    after: Vec<Option<usize>>,
}

impl<'a> LinePlaces<'a> {
    /// The places of the labels of a list's elements. Fails only if it is out of memory.
    pub fn of(alloc: Global, labels: &[&'a [u8]]) -> Result<LinePlaces<'a>, AllocError>
        ensures { IfOk result (ArePlaces (texts labels.now)) }
    {
        let mut first = BTreeMap::new(alloc);
        let mut after = vec![in alloc; None; labels.len()]?;
        for place in (0..labels.len()).rev() {
            let next = first.insert(labels[place], place)?;
            after[place] = next;
        }
        Ok(LinePlaces { first, after })
    }

    /// The place of the first element with this label. None if no element has it.
    pub fn first(&self, label: &[u8]) -> Option<usize>
        ensures { result ≡ first_of self.now label.now }
    {
        self.first.get(label).copied()
    }

    /// The place of the next element with the label of the one at this place.
    /// None if that is the last one.
    pub fn after(&self, place: usize) -> Option<usize>
        ensures { result ≡ after_of self.now place }
    {
        match self.after.get(place) {
            Some(next) => *next,
            None => None,
        }
    }
}

/// Where the blocks of each line stand among these. Fails only if it is out of memory.
pub fn places_of_blocks<'a>(
    alloc: Global,
    summaries: &'a [Summary],
) -> Result<LinePlaces<'a>, AllocError>
    ensures { IfOk result (ArePlaces (block_labels summaries.now)) }
{
    let mut labels = Vec::with_capacity(alloc, summaries.len())?;
    for summary in summaries {
        labels.push(summary.selected.bytes())?;
    }
    LinePlaces::of(alloc, &labels)
}

/// Where the curves of each line stand among these. Fails only if it is out of memory.
pub fn places_of_curves<'a>(
    alloc: Global,
    curves: &'a [Curve],
) -> Result<LinePlaces<'a>, AllocError>
    ensures { IfOk result (ArePlaces (curve_labels curves.now)) }
{
    let mut labels = Vec::with_capacity(alloc, curves.len())?;
    for curve in curves {
        labels.push(curve.selected.bytes())?;
    }
    LinePlaces::of(alloc, &labels)
}
