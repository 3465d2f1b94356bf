//! The words, read by one simple command.
ghost use Rattle.std.specs.Prelude.{◌≡◌, ◌∷◌, [], IfOk, option_map, string_bytes, map, true};
ghost use Rattle.clap.specs.Words.{app_of, first_value, found_of, kind_of, with_rule};
ghost use Rattle.coz_words.specs.Parse.{Finds, asked_option};
ghost use Rattle.functions_cli.specs.Words.{option_names};
ghost use Rattle.functions_cli.specs.Parse.{words_app};

use clap::error::ErrorKind;
use clap::{Arg, ArgMatches, Command, Error};
use std::alloc::{AllocError, Global};

/// The command with one more option, which has a value.
fn with_option<'a>(
    alloc: Global,
    command: Command<'a>,
    name: &'a str,
) -> Result<Command<'a>, AllocError>
    ensures { IfOk result (λ c.
        app_of c ≡ with_rule (app_of command.entry) (asked_option name.now)) }
{
    command.arg(Arg::new(alloc, name).long(name))
}

/// A simple command with the options `--keep` and `--regions` and one positional argument,
/// `target`, and no help or version flags.
fn words_command<'a>(alloc: Global) -> Result<Command<'a>, AllocError>
    ensures { IfOk result (λ c. app_of c ≡ words_app) }
{
    let command = Command::new(alloc, "coz")
        .disable_help_flag(true)
        .disable_version_flag(true)
        .no_binary_name(true);
    let command = with_option(alloc, command, "keep")?;
    let command = with_option(alloc, command, "regions")?;
    command.arg(Arg::new(alloc, "target"))
}

// A fault of another kind says no more than that the words are refused.
fn is_out_of_memory(error: &Error) -> bool
    ensures { kind_of error.now ≡ ErrorKind.OutOfMemory → result ≡ true }
{
    error.kind() == ErrorKind::OutOfMemory
}

/// What the words say, or `None` if they say nothing.
pub fn parsed<'a>(alloc: Global, words: &'a [String]) -> Result<Option<ArgMatches<'a>>, AllocError>
    ensures { IfOk result (λ found. Finds option_names ([] ∷ map string_bytes words.entry.now)
        (option_map (λ m. first_value (found_of m)) found)) }
{
    match words_command(alloc)?.try_get_matches_from(words) {
        Ok(matches) => Ok(Some(matches)),
        Err(error) => {
            if is_out_of_memory(&error) {
                Err(AllocError)
            } else {
                Ok(None)
            }
        }
    }
}
