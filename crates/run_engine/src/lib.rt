//! The engine of both machines: the run of a program in net time, without delays.
//!
//! An [`Engine`] holds a guest, the harts that are due, the visits and the counts of a run.
//! `virtual_run::Machine` adds delays to it; `shortened_run::Short` uses it alone.
#![tactic(auto)]

mod choice;
mod engine;
mod marked;
mod start;
mod visits;

pub use choice::{Choice, MAX_RUN_OUTPUT, Setting};
pub use engine::{Engine, Event, FIRST, Retired, Turn, has_any, is_wake};
pub use marked::MarkedSetting;
pub use visits::Visits;
