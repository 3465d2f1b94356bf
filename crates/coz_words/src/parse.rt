//! The words, read by one simple command.
ghost use Rattle.std.specs.Prelude.{◌≡◌, ◌++◌, ◌∷◌, [], IfOk, List, map, option_map, string_bytes, true};
ghost use Rattle.clap.specs.Words.{app_of, first_value, found_of, kind_of};
ghost use Rattle.coz_words.specs.Parse.{AreNames, Finds, app_with, asked_option, words_app};

use clap::error::ErrorKind;
use clap::{Arg, ArgMatches, Command, Error};
use std::alloc::{AllocError, Global};

/// A command of these options, each with a value, and no help or version flags.
fn with_options<'a>(alloc: Global, names: &[&'a str]) -> Result<Command<'a>, AllocError>
    ensures { IfOk result (λ c.
        app_of c ≡ app_with (map asked_option (map (λ s. s.now) names.now))) }
{
    let mut command = Command::new(alloc, "coz")
        .disable_help_flag(true)
        .disable_version_flag(true);
    for name in names {
        command = command.arg(Arg::new(alloc, *name).long(*name))?;
    }
    Ok(command)
}

/// A simple command with one positional argument, `target`.
fn command_with<'a>(alloc: Global, names: &[&'a str]) -> Result<Command<'a>, AllocError>
    ensures { IfOk result (λ c. app_of c ≡ words_app (map (λ s. s.now) names.now)) }
{
    with_options(alloc, names)?.arg(Arg::new(alloc, "target"))
}

// A fault of another kind says no more than that the words are refused.
fn is_want_of_memory(error: &Error) -> bool
    ensures { kind_of error.now ≡ ErrorKind.OutOfMemory → result ≡ true }
{
    error.kind() == ErrorKind::OutOfMemory
}

/// The values of the arguments after the first, or `None` if they are malformed.
pub fn parsed<'a>(
    alloc: Global,
    names: &[&'a str],
    words: &'a [String],
) -> Result<Option<ArgMatches<'a>>, AllocError>
    requires { AreNames (map (λ s. s.now) names.now) }
    ensures { IfOk result (λ found. Finds (map (λ s. s.now) names.now)
        (map string_bytes words.entry.now) (option_map (λ m. first_value (found_of m)) found)) }
{
    match command_with(alloc, names)?.try_get_matches_from(words) {
        Ok(matches) => Ok(Some(matches)),
        Err(error) => {
            if is_want_of_memory(&error) {
                Err(AllocError)
            } else {
                Ok(None)
            }
        }
    }
}
