//! What the words ask for.
ghost use Rattle.std.specs.Prelude.{◌≡◌, true, option_and_then, option_map, IfOk, IfSome};
ghost use Rattle.std.specs.Option.{option_copied};
ghost use Rattle.clap.specs.Words.{first_value, found_of};
ghost use Rattle.coz_files.specs.Verdict.{bytes_of};
ghost use Rattle.experiment_plan.specs.Lists.{is_list};
ghost use Rattle.coz_words.specs.Parse.{target_id};
ghost use Rattle.coz_words.specs.Request.{none_or};
ghost use Rattle.functions_cli.specs.Words.{has_hyphen, has_no_zero, is_target, keep_name, regions_name, request_in, request_of, request_with};
ghost use Rattle.functions_cli.specs.Regions.{are_regions};

use crate::parse::parsed;
use crate::regions::are_regions;
use clap::ArgMatches;
use coz_types::MAX_WORD;
use experiment_plan::is_list;
use std::alloc::{AllocError, Global};

/// What the words ask for.
#[derive(Clone, Copy)]
pub struct Asked<'w> {
    /// The path of the program.
    pub target: &'w str,
    /// The list that names the lines that keep their addresses.
    pub keep: Option<&'w [u8]>,
    /// The list that names the regions.
    pub regions: Option<&'w [u8]>,
}

fn has_no_zero(word: &[u8]) -> bool
    ensures { result ≡ has_no_zero word.now }
{
    word.iter().all(|byte| *byte != 0)
}

fn has_hyphen(word: &[u8]) -> bool
    ensures { result ≡ has_hyphen word.now }
{
    !word.is_empty() && word[0] == b'-'
}

/// Whether the word is a path: it has a byte, no hyphen first, and not more bytes than a word
/// may have.
fn is_target(word: &[u8]) -> bool
    ensures { result ≡ is_target word.now }
{
    !word.is_empty() && (!has_hyphen(word) && (has_no_zero(word) && word.len() <= MAX_WORD))
}

fn is_keep(list: Option<&[u8]>) -> bool
    ensures { result ≡ none_or is_list (option_copied list.entry) }
{
    match list {
        Some(list) => is_list(list),
        None => true,
    }
}

fn is_regions(list: Option<&[u8]>) -> bool
    ensures { result ≡ none_or are_regions (option_copied list.entry) }
{
    match list {
        Some(list) => are_regions(list),
        None => true,
    }
}

/// The value of the option of that name, if it is given.
fn value_of<'w>(matches: &ArgMatches<'w>, name: &str) -> Option<&'w [u8]>
    ensures { option_copied result ≡ first_value (found_of matches.now) name.now }
{
    match matches.get_str(name) {
        Some(text) => Some(text.as_bytes()),
        None => None,
    }
}

/// The request of these texts.
fn request_with<'w>(
    target: &'w str,
    keep: Option<&'w [u8]>,
    regions: Option<&'w [u8]>,
) -> Option<Asked<'w>>
    ensures asked { option_map request_of result
        ≡ request_with (option_copied keep.entry) (option_copied regions.entry) target.now }
    ensures list { IfSome result (λ asked.
        IfSome asked.keep (λ text. is_list text.now ≡ true)) }
{
    if is_target(target.as_bytes()) && (is_keep(keep) && is_regions(regions)) {
        return Some(Asked {
            target,
            keep,
            regions,
        });
    }
    None
}

/// The request of what the words say.
fn request_said<'w>(matches: &ArgMatches<'w>) -> Option<Asked<'w>>
    ensures asked { option_map request_of result
        ≡ option_and_then (request_with (first_value (found_of matches.now) keep_name)
        (first_value (found_of matches.now) regions_name))
        (first_value (found_of matches.now) target_id) }
    ensures list { IfSome result (λ asked.
        IfSome asked.keep (λ text. is_list text.now ≡ true)) }
{
    match matches.get_str("target") {
        Some(target) => {
            request_with(
                target,
                value_of(matches, "keep"),
                value_of(matches, "regions"),
            )
        }
        None => None,
    }
}

/// The request of the words after the program's name: the path of a program, and in any order with
/// it `--keep LIST` or `--keep=LIST`, and `--regions LIST` or `--regions=LIST`, each at most once.
/// An argument `--` ends the options. A list that is an argument of its own begins with no hyphen.
/// None if the words are others. Err if it is out of memory, which any words may be answered by.
pub fn asked_of<'w>(alloc: Global, words: &'w [String]) -> Result<Option<Asked<'w>>, AllocError>
    ensures asked { IfOk result (λ asked.
        option_map request_of asked ≡ request_in (bytes_of words.now)) }
    ensures list { IfOk result (λ asked. IfSome asked (λ asked.
        IfSome asked.keep (λ text. is_list text.now ≡ true))) }
{
    match parsed(alloc, words)? {
        Some(matches) => Ok(request_said(&matches)),
        None => Ok(None),
    }
}
