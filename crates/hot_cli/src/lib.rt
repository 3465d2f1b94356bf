//! The program that lists the lines which cost most: its arguments, its answer and its top call.
//!
//! Its arguments are those of the command `run` with no line, beside two options of its own.
#![tactic(auto)]

ghost use Rattle.std.specs.Prelude.{◌≡◌, ◌↔◌, List, Some};
ghost use Rattle.coz_words.specs.Said.{Text};
ghost use Rattle.hot_cli.specs.declared.asked.HotRequest.{HotRequest};
ghost use Rattle.hot_cli.specs.Grammar.{AsksHot};
ghost use Rattle.hot_cli.specs.Words.{hot_request};

mod asked;
mod help;
mod hot;
mod judge;
mod scan;
mod top;

pub use top::serve_hot;

/// The arguments as a grammar. Words make a request, by the definition `hot_request` that
/// `serve_hot` cites, if and only if they are items that ask for it. The items are `--names`,
/// `--top` with its value, in one word `--top=value` or in the two words `--top` and `value`, and
/// other words. Each option is given at most once, and the options come in any order among the
/// other words. These keep their order, and are arguments of `coz run` with no line, by the
/// grammar of its arguments. The value is a number of 1 to 2^64 - 1, in 1 to 20 digits. A word
/// that is the value is no item of its own.
pub fn words_are_the_grammar()
    ensures { (words : List Text) (request : HotRequest)
        → (hot_request words ≡ Some request) ↔ AsksHot words request }
{}
