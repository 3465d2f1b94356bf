//! What a machine of the timing model is: its costs, its cores, its jitter, and who pays for code
//! without a line.
//!
//! ```text
//! let costs = Costs::usual();
//! costs.cycles(Some(Instr::Ecall)); // 40
//! splitmix(0, 0);                   // 0xE220A8397B1DCDAF
//! ```
#![tactic(auto)]

mod costs;
mod jitter;
mod timing;

pub use costs::{Class, Costs, MAX_COST, class_of};
pub use jitter::{is_doubled, is_doubled_by, splitmix};
pub use timing::{Charge, MAX_CORES, MAX_SLICE, Timing};
