//! The program that profiles on a machine of the timing model: its answer and its top call.
//!
//! Its arguments are those of the command `profile`, beside five options that describe the machine.
#![tactic(auto)]

ghost use Rattle.gain_cli.specs.Verdict.{UsualIsCoz};

mod gain;
mod help;
mod judge;
mod top;

pub use top::serve_gain;

/// On the usual machine the program prints what `coz profile` prints: of words that describe it, or
/// no machine, the verdict is that of the request of `profile` which the other words make.
pub fn usual_is_coz()
    ensures { UsualIsCoz }
{}
