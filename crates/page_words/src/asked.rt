//! What the words ask for.
ghost use Rattle.std.specs.Prelude.{◌≡◌, option_map};
ghost use Rattle.std.specs.Option.{option_copied};
ghost use Rattle.coz_files.specs.Verdict.{bytes_of};
ghost use Rattle.page_words.specs.Words.{asked_of, request_in, request_of, request_by, scanned, has_hyphen, is_path, is_free, is_right, have_bytes, none_or_some, number_in, top_in};

use crate::scan::{Next, Scan, scan_of};
use profile_labels::decimal;

/// The number of lines of a table, if the arguments do not give one.
const USUAL_TOP: u64 = 20;

/// Upper bound of the number of lines that a table shows.
const MAX_TOP: u64 = 1000;

/// The request that the arguments make.
#[derive(Clone, Copy)]
pub struct Asked<'w> {
    /// The path of the profile.
    pub profile: &'w str,
    /// The number of lines that each table shows at most, 1 to 1,000.
    pub top: u64,
    /// The beginning or the end of the paths of shown lines; all lines are shown if there is none.
    pub file: Option<&'w [u8]>,
    /// The folder of the source files, if the text of the lines is to be shown.
    pub source: Option<&'w [u8]>,
    /// The title of the page, such as the program and its input.
    pub title: Option<&'w [u8]>,
    /// The path of another page of the same program, to which this page has a link.
    pub link: Option<&'w [u8]>,
}

fn has_hyphen(word: &[u8]) -> bool
    ensures { result ≡ has_hyphen word.now }
{
    !word.is_empty() && word[0] == b'-'
}

/// Whether the word is a path: it is not empty, and its first byte is no hyphen.
fn is_path(word: &[u8]) -> bool
    ensures { result ≡ is_path word.now }
{
    !word.is_empty() && !has_hyphen(word)
}

fn is_free(next: Next) -> bool
    ensures { result ≡ is_free next }
{
    match next {
        Next::Free => true,
        _ => false,
    }
}

/// Whether the value, if there is one, is not empty.
fn none_or_some(value: Option<&[u8]>) -> bool
    ensures { result ≡ none_or_some (option_copied value.entry) }
{
    match value {
        Some(value) => !value.is_empty(),
        None => true,
    }
}

/// A number of 1 to 1,000 in its one decimal spelling.
fn number_in(text: &[u8]) -> Option<u64>
    ensures { result ≡ number_in text.now }
{
    match decimal(text, MAX_TOP) {
        Some(number) if number > 0 => Some(number),
        _ => None,
    }
}

/// The number of lines that a table shows at most: 20, or the value of `--top`.
fn top_in(value: Option<&[u8]>) -> Option<u64>
    ensures { result ≡ top_in (option_copied value.entry) }
{
    match value {
        Some(value) => number_in(value),
        None => Some(USUAL_TOP),
    }
}

/// Whether no value is empty.
fn have_bytes(scan: &Scan) -> bool
    ensures { result ≡ have_bytes (scanned scan.now) }
{
    none_or_some(scan.file)
        && none_or_some(scan.source)
        && none_or_some(scan.title)
        && none_or_some(scan.link)
}

/// Whether each option came once, with a value that is not empty.
fn is_right(scan: &Scan) -> bool
    ensures { result ≡ is_right (scanned scan.now) }
{
    !scan.twice && is_free(scan.next) && have_bytes(scan)
}

/// The request of what the words give, with this path and this number of lines.
fn request<'w>(scan: &Scan<'w>, profile: &'w str, top: u64) -> Option<Asked<'w>>
    ensures { option_map asked_of result ≡ request_by (scanned scan.now) profile.now top }
{
    if !is_right(scan) || !is_path(profile.as_bytes()) {
        return None;
    }
    Some(Asked {
        profile,
        top,
        file: scan.file,
        source: scan.source,
        title: scan.title,
        link: scan.link,
    })
}

fn request_of<'w>(scan: &Scan<'w>) -> Option<Asked<'w>>
    ensures { option_map asked_of result ≡ request_of (scanned scan.now) }
{
    match scan.profile {
        Some(profile) => match top_in(scan.top) {
            Some(top) => request(scan, profile, top),
            None => None,
        },
        None => None,
    }
}

/// Returns the request of the words after the program's name: the path of a profile, and in any
/// order around it `--top N`, `--file PATTERN`, `--source FOLDER`, `--title TEXT` and
/// `--link PATH`, each at most once, also as `--top=N` and so on. N is 1 to 1,000; without `--top`
/// it is 20. The path of the profile begins with no hyphen, and no value is empty. Returns None if
/// the words are others.
pub fn read_page<'w>(words: &'w [String]) -> Option<Asked<'w>>
    ensures { option_map asked_of result ≡ request_in (bytes_of words.now) }
{
    request_of(&scan_of(words))
}
