//! What is printed of a joined profile.
ghost use Rattle.std.specs.Prelude.{◌≡◌, ◌≤◌};
ghost use Rattle.std.specs.List.{list_all};
ghost use Rattle.coz_types.specs.declared.record.Summary.{Summary};
ghost use Rattle.join_parts.specs.Verdict.{has_exited, profile_status};

use coz_files::{PutAnswer, Sink};
use coz_serve::Printed;
use coz_types::{Ending, Summary};
use profile_book::Profile;
use timing_line::write_timed;
use timing_model::Timing;

/// A joined profile, and what is printed of it.
#[derive(Drop)]
pub struct Joined {
    /// The machine of the parts.
    pub timing: Timing,
    /// The profile.
    pub profile: Profile,
}

fn has_exited(ending: Ending) -> bool
    ensures { result ≡ has_exited ending }
{
    matches!(ending, Ending::Exited(_))
}

fn all_exited(summaries: &[Summary]) -> bool
    ensures { result ≡ list_all (λ (s : Summary). has_exited s.outcome.ending) summaries.now }
{
    summaries
        .iter()
        .all(|summary| has_exited(summary.outcome.ending))
}

/// Returns 0 if each run exited, else 1.
fn profile_status(profile: &Profile) -> u8
    ensures status { result ≡ profile_status profile.now }
{
    if all_exited(profile.summaries.as_slice()) {
        0
    } else {
        1
    }
}

impl Printed for Joined {
    ghost use Rattle.join_parts.specs.Program.{joined_status, joined_text};

    ghost status_of = { joined_status };

    ghost text_of = { joined_text };

    fn status(&self) -> u8 {
        profile_status(&self.profile)
    }

    fn put<O: Sink>(&self, out: &mut O) -> PutAnswer {
        write_timed(&self.timing, &self.profile, out)
    }
}
