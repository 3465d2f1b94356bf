//! Reads the line of a profile's text that names the machine of the timing model.
//!
//! ```text
//! coz-timing version=1 cores=4 slice=100000 costs=1,2,3,3,8,20,1000 charge=last seed=7
//! ```
//!
//! A tab stands where this shows a space. The line is the first of the text. A text without it is
//! of the usual machine.
#![tactic(auto)]

ghost use Rattle.std.specs.Prelude.{◌≡◌, ◌↔◌, List, Some};
ghost use Rattle.coz_types.specs.Labels.{Text};
ghost use Rattle.timing_model.specs.declared.timing.Timing.{Timing};
ghost use Rattle.timing_reader.specs.Reading.{read_timing, IsRead};

mod digits;
mod line;

pub use line::{read_timing, timed_text};

/// The reader is the inverse of the writer. By the definition `read_timing`, a text is read as a
/// machine and the text after its line exactly if it is what is written of that machine, and then
/// that text. A line that names the usual machine is never written.
pub fn the_line_is_read_back()
    ensures { (text : Text) (t : Timing) (rest : Text)
        → (read_timing text ≡ Some (t, rest)) ↔ IsRead text t rest }
{}
