//! The words of a command line, read into a request.
#![tactic(auto)]

ghost use Rattle.std.specs.Prelude.{◌≡◌};
ghost use Rattle.coz_types.specs.declared.TheConstants.{MAX_SIZE, MAX_SPEEDUP, MAX_VERSION, MAX_WORD, MAX_WORKERS, MIN_VERSION};
ghost use Rattle.coz_words.specs.declared.request.TheConstants.{USUAL_SIZE, USUAL_WORKERS};

mod command;
mod parse;
mod request;
mod spelling;
mod value;
mod word;

pub use command::Command;
pub use request::{Request, WordsError, read_words};
pub use word::Word;

/// The numbers that the definitions of the words cite by name.
pub fn sizes()
    ensures usual_workers { USUAL_WORKERS ≡ 4 }
    ensures greatest_workers { MAX_WORKERS ≡ 16 }
    ensures usual_size { USUAL_SIZE ≡ 100 }
    ensures greatest_size { MAX_SIZE ≡ 2000 }
    ensures greatest_speedup { MAX_SPEEDUP ≡ 95 }
    ensures least_version { MIN_VERSION ≡ 4 }
    ensures greatest_version { MAX_VERSION ≡ 5 }
    ensures longest_word { MAX_WORD ≡ 131072 }
{}
