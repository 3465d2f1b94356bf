//! The cause of each hart's next event in a run: the event that started the hart for it, or began
//! its sleep, and the ticks of work and of sleep since.
#![tactic(auto)]

mod cause;

pub use cause::{Cause, go_on, histories, leave, start, wake_up};
