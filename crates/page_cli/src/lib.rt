//! The page of a profile: its curves as tables and pictures, in one HTML text
//! that needs nothing else. The text of the lines is read from source files, if they are there.
#![tactic(auto)]

ghost use Rattle.std.specs.Prelude.{◌≡◌};
ghost use Rattle.page_cli.specs.declared.source_lines.TheConstants.{MAX_SHOWN_LINE};

mod fault;
mod fault_line;
mod frame;
mod groups;
mod harm;
mod help;
mod judge;
mod label;
mod label_parts;
mod page;
mod runs;
mod sides;
mod source_lines;
mod sources;
mod tables;
mod top;
mod view;

pub use top::serve;

/// The sizes of this crate, as numbers: the most bytes of a line's text that a page shows.
pub fn sizes()
    ensures shown_line { MAX_SHOWN_LINE ≡ 120 }
{}
