//! The description of a machine.
ghost use Rattle.std.specs.Prelude.{◌≡◌};
ghost use Rattle.timing_model.specs.Timing.{usual, IsTiming, IsUsual};

use crate::Costs;

/// The most cores of a machine: as many as harts are ever made.
pub const MAX_CORES: u16 = 256;

/// The most cycles of a slice.
pub const MAX_SLICE: u64 = 1_000_000_000;

/// The cycles of a slice where nothing else is said.
const USUAL_SLICE: u64 = 100_000;

/// To whom an instruction without a line is charged.
#[derive(Clone, Copy, PartialEq, Eq)]
pub enum Charge {
    /// To nobody: no line is selected with it.
    Nobody,
    /// To the line that its hart executed last.
    Last,
}

/// The description of a machine.
#[derive(Clone, Copy, PartialEq, Eq)]
pub struct Timing {
    /// How many harts can run at a time, from 1 to 256.
    pub cores: u16,
    /// The cycles after which a hart gives its core up if others wait for one, from 1 to 10^9.
    pub slice: u64,
    /// The cycles of each class of instruction.
    pub costs: Costs,
    /// To whom an instruction without a line is charged.
    pub charge: Charge,
    /// The seed of the jitter; 0 for none.
    pub seed: u64,
}

impl Timing {
    /// The machine of `coz profile`: a core for each hart, the costs of `cost_table`, nothing
    /// charged to another line, and no jitter.
    pub fn usual() -> Timing
        ensures machine { result ≡ usual }
        ensures usual { IsUsual result }
        ensures within { IsTiming result }
    {
        Timing {
            cores: MAX_CORES,
            slice: USUAL_SLICE,
            costs: Costs::usual(),
            charge: Charge::Nobody,
            seed: 0,
        }
    }
}
