//! The run that counts what each line of a program costs, the lines that cost most in it, and the
//! text of both.
//!
//! The definitions are in `specs/HotRun.antt`; the order and the texts of lines in
//! `specs/Lines.antt`.
#![tactic(auto)]

mod left;
mod line_texts;
mod lines;
mod run;
mod text;

pub use left::HotRun;
pub use lines::HotLine;
pub use run::hot_run;
pub use text::write_hot;
