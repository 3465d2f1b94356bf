//! The paths that a command line names.
ghost use Rattle.std.specs.Prelude.{◌≡◌, None, Some, MatchOption};
ghost use Rattle.std.specs.List.{list_all};
ghost use Rattle.coz_files.specs.Verdict.{bytes_of};
ghost use Rattle.average_parts.specs.Words.{is_plain, has_no_zero, is_path, are_paths, as_paths, paths_in};

use coz_types::MAX_WORD;

/// The most profiles that are averaged.
const MAX_PROFILES: usize = 1000;

fn is_plain(word: &[u8]) -> bool
    ensures { result ≡ is_plain word.now }
{
    word.len() < 2 || word[0] != b'-'
}

fn has_no_zero(word: &[u8]) -> bool
    ensures { result ≡ has_no_zero word.now }
{
    word.iter().all(|byte| *byte != 0)
}

fn is_path(word: &[u8]) -> bool
    ensures { result ≡ is_path word.now }
{
    !word.is_empty() && (has_no_zero(word) && word.len() <= MAX_WORD)
}

fn all_paths(words: &[String]) -> bool
    ensures { result ≡ list_all is_path (bytes_of words.now) }
{
    words.iter().all(|word| is_path(word.as_bytes()))
}

fn are_paths(words: &[String]) -> bool
    ensures { result ≡ are_paths (bytes_of words.now) }
{
    !words.is_empty() && (words.len() <= MAX_PROFILES && all_paths(words))
}

fn as_paths(words: &[String]) -> Option<&[String]>
    ensures { MatchOption result
        (as_paths (bytes_of words.now) ≡ None)
        (λ paths. as_paths (bytes_of words.now) ≡ Some (bytes_of paths.now)) }
{
    if are_paths(words) { Some(words) } else { None }
}

fn all_plain(words: &[String]) -> bool
    ensures { result ≡ list_all is_plain (bytes_of words.now) }
{
    words.iter().all(|word| is_plain(word.as_bytes()))
}

/// Returns the paths that the words name: those after a first word `--`, or all words if none that is
/// longer than a hyphen begins with one. Returns None if the words are not 1 to 1,000 paths.
pub fn paths_in(words: &[String]) -> Option<&[String]>
    ensures { MatchOption result
        (paths_in (bytes_of words.now) ≡ None)
        (λ paths. paths_in (bytes_of words.now) ≡ Some (bytes_of paths.now)) }
{
    let (first, rest) = words.split_first()?;
    if first.as_str() == "--" {
        return as_paths(rest);
    }
    if !all_plain(words) {
        return None;
    }
    as_paths(words)
}
