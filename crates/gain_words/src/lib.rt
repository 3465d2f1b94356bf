//! The words of the program that profiles on a machine of the timing model.
//!
//! Its words are those of the command `profile`, beside five options that describe the machine.
#![tactic(auto)]

ghost use Rattle.std.specs.Prelude.{◌≡◌, ◌↔◌, List, Some};
ghost use Rattle.coz_words.specs.Said.{Text};
ghost use Rattle.gain_words.specs.declared.asked.GainRequest.{GainRequest};
ghost use Rattle.gain_words.specs.Grammar.{AsksGain};
ghost use Rattle.gain_words.specs.Words.{gain_request};

mod asked;
mod costs;
mod cut;
mod scan;
mod setting;
mod slot;

pub use asked::{GainRequest, read_gain};

/// The arguments as a grammar. Words make a request, by the definition `gain_request` that
/// `read_gain` cites, if and only if they are items that ask for it. The items are the options
/// `--cores`, `--slice`, `--costs`, `--charge` and `--seed`, each with its value, in one word
/// `--name=value` or in the two words `--name` and `value`, and other words. Each of these options
/// is given at most once, and they come in any order among the other words. These keep their
/// order, and are arguments of `coz profile` with a budget of at most 10^10 instructions, by the
/// grammar of its arguments. What no option gives is as on the usual machine. A word that is a
/// value is no item of its own.
pub fn words_are_the_grammar()
    ensures { (words : List Text) (request : GainRequest)
        → (gain_request words ≡ Some request) ↔ AsksGain words request }
{}
