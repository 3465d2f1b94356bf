//! The lines of a program as their labels spell them, the marks that give their addresses to lines,
//! and the sequences of such addresses.
#![tactic(auto)]

ghost use Rattle.std.specs.Prelude.{◌≡◌};
ghost use Rattle.line_remap.specs.declared.runs.TheConstants.{MAX_PATHS};

mod location;
mod marks;
mod raw_paths;
mod runs;

pub use location::Location;
pub use marks::{Mark, has_zero, kept_marks, location_at, location_of};
pub use raw_paths::unwritten;
pub use runs::{Sequences, push_kept};

/// The sizes of this crate, as numbers.
pub fn sizes()
    ensures paths { MAX_PATHS ≡ 134217728 }
{}
