//! How many runs ended in which way.
ghost use Rattle.std.specs.Prelude.{◌≡◌, ◌+◌, ◌<◌, ◌≤◌, cond, length};
ghost use Rattle.page_values.specs.Endings.{kind_of, ended_so, count_of, others_of};

use coz_types::{Ending, Summary};

/// The kind of an ending, as its text begins.
fn kind_of(ending: Ending) -> &'static [u8]
    ensures { result.now ≡ kind_of ending }
{
    match ending {
        Ending::Exited(_) => b"exited",
        Ending::Trapped(_) => b"trapped",
        Ending::Unsupported(_) => b"unsupported",
        Ending::Clock => b"clock",
        Ending::OutputFull => b"output-full",
        Ending::VisitsFull => b"visits-full",
        Ending::Stalled => b"stalled",
        Ending::Spent => b"spent",
    }
}

fn ended_so(kind: &[u8], summary: &Summary) -> bool
    ensures { result ≡ ended_so kind.now summary.now }
{
    kind_of(summary.outcome.ending) == kind
}

/// The count, with one more if the run ended so.
fn counted(count: u64, kind: &[u8], summary: &Summary) -> u64
    requires { count < 18446744073709551615 }
    ensures { result ≡ count + cond (ended_so kind.now summary.now) 1 0 }
{
    if ended_so(kind, summary) {
        count + 1
    } else {
        count
    }
}

/// The number of runs with this kind of ending.
pub fn count_of(kind: &[u8], summaries: &[Summary]) -> u64
    ensures count { result ≡ count_of kind.now summaries.now }
    ensures within { result ≤ length summaries.now }
{
    let mut count = 0;
    for summary in summaries {
        count = counted(count, kind, summary);
    }
    count
}

/// The number of runs that did not exit.
pub fn others_of(summaries: &[Summary]) -> u64
    ensures { result ≡ others_of summaries.now }
{
    let exited = count_of(b"exited", summaries);
    summaries.len() as u64 - exited
}
