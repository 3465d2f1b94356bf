//! The words of the program that makes the page of a profile: the path of the profile, and
//! options for the lines that the page shows.
#![tactic(auto)]

ghost use Rattle.std.specs.Prelude.{◌≡◌, ◌↔◌, List, Some};
ghost use Rattle.coz_types.specs.Labels.{Text};
ghost use Rattle.page_words.specs.declared.asked.TheConstants.{MAX_TOP, USUAL_TOP};
ghost use Rattle.page_words.specs.Grammar.{Asks};
ghost use Rattle.page_words.specs.Words.{Request, request_in};

mod asked;
mod scan;

pub use asked::{Asked, read_page};

/// The sizes of this crate, as numbers.
pub fn sizes()
    ensures usual_top { USUAL_TOP ≡ 20 }
    ensures greatest_top { MAX_TOP ≡ 1000 }
{}

/// The arguments as a grammar. Words make a request, by the definition `request_in` that
/// `read_page` cites, if and only if they are items that ask for it. The items are one path, a
/// word that has a byte and no hyphen first, and options with their values, each in one word
/// `--name=value` or in the two words `--name` and `value`. The items come in any order. Each
/// option is given at most once, with a value that is not empty, and the value of `--top` is a
/// number of 1 to 1,000 in its one decimal spelling. A word that is a value is no item of its own.
pub fn words_are_the_grammar()
    ensures { (words : List Text) (request : Request)
        → (request_in words ≡ Some request) ↔ Asks words request }
{}
