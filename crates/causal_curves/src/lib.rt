//! Curves: how much sooner a progress point is reached for each speedup of a line,
//! and which line gains most.
#![tactic(auto)]

mod curve;
mod measures;
mod ranked;
mod steps;
mod writer;

pub use curve::{Curve, CurveStep};
pub use ranked::curves;
pub use writer::write_curves;
