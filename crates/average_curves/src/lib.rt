//! Averages of profiles of one program's lines: the curves of each line over several seeds, by
//! rank, and their text.
#![tactic(auto)]

mod averaged;
mod averages;
mod cost;
mod curve;
mod exactness;
mod line;
mod ranked;
mod writer;

pub use averaged::Averaged;
pub use averages::{Averages, average};
pub use curve::{AverageCurve, Exactness};
pub use writer::write_averages;
