//! What a line's own starts cost.
ghost use Rattle.std.specs.Prelude.{◌≡◌, option_copied};
ghost use Rattle.causal_curves.specs.Curves.{net};
ghost use Rattle.page_values.specs.Lines.{ArePlaces, block_labels};
ghost use Rattle.page_values.specs.Cost.{is_base, is_sped, base_in, sped_in, cost_over, cost_between, cost_of};

use crate::lines::LinePlaces;
use coz_types::Summary;

fn net(summary: &Summary) -> u64
    ensures { result ≡ net summary.now }
{
    summary.outcome.time.saturating_sub(summary.outcome.delay)
}

fn is_base(label: &[u8], summary: &Summary) -> bool
    ensures { result ≡ is_base label.now summary.now }
{
    summary.selected.bytes() == label && summary.speedup == 0
}

fn is_sped(label: &[u8], summary: &Summary) -> bool
    ensures { result ≡ is_sped label.now summary.now }
{
    summary.selected.bytes() == label && summary.speedup > 0
}

fn cost_over(base: &Summary, summary: &Summary) -> Option<u128>
    ensures { result ≡ cost_over base.now summary.now }
{
    let net = net(base);
    if net == 0 || summary.speedup == 0 {
        return None;
    }
    Some(summary.outcome.delay as u128 * 1_000_000 / (net as u128 * summary.speedup as u128))
}

/// The run of the line at speedup 0.
fn base_in<'a>(places: &LinePlaces, label: &[u8], summaries: &'a [Summary]) -> Option<&'a Summary>
    requires { ArePlaces (block_labels summaries.now) places.now }
    ensures { option_copied result ≡ base_in label.now summaries.now }
{
    let mut at = places.first(label);
    while let Some(place) = at {
        let summary = &summaries[place];
        if is_base(label, summary) {
            return Some(summary);
        }
        at = places.after(place);
    }
    None
}

/// The first run of the line at a speedup over 0.
fn sped_in<'a>(places: &LinePlaces, label: &[u8], summaries: &'a [Summary]) -> Option<&'a Summary>
    requires { ArePlaces (block_labels summaries.now) places.now }
    ensures { option_copied result ≡ sped_in label.now summaries.now }
{
    let mut at = places.first(label);
    while let Some(place) = at {
        let summary = &summaries[place];
        if is_sped(label, summary) {
            return Some(summary);
        }
        at = places.after(place);
    }
    None
}

fn cost_between(base: Option<&Summary>, sped: Option<&Summary>) -> Option<u128>
    ensures { result ≡ cost_between (option_copied base.entry) (option_copied sped.entry) }
{
    match (base, sped) {
        (Some(base), Some(sped)) => cost_over(base, sped),
        _ => None,
    }
}

/// The cost of the starts of the line of this label, over its net time at speedup 0,
/// in hundredths of a per cent, rounded down. None if no run of the line is at 0 or none
/// at a speedup over 0, or that net time is 0. Only the blocks of the line are looked at: the
/// places are those of the blocks.
pub fn cost_of(summaries: &[Summary], places: &LinePlaces, label: &[u8]) -> Option<u128>
    requires { ArePlaces (block_labels summaries.now) places.now }
    ensures { result ≡ cost_of summaries.now label.now }
{
    let base = base_in(places, label, summaries);
    cost_between(base, sped_in(places, label, summaries))
}
