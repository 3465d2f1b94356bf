//! The options of the program among its words.
ghost use Rattle.std.specs.Prelude.{◌≡◌, fold, IfOk, OnOk, string_bytes};
ghost use Rattle.coz_words.specs.Answers.{bytes_of};
ghost use Rattle.hot_cli.specs.Words.{scanned, scan_word, free_word, no_words, with_names, with_top};

use experiment_plan::number_in;
use std::alloc::{AllocError, Global};

/// The result of scanning some arguments.
#[derive(Drop)]
pub struct Scan {
    /// Whether `--names` is among them.
    pub names: bool,
    /// Whether `--top` is among them with its value.
    pub topped: bool,
    /// The number that is its value, if it is one of 1 and up.
    pub top: Option<u64>,
    /// Whether the next word is its value.
    pub wanting: bool,
    /// Whether one of the two options was given twice.
    pub twice: bool,
    /// The other words.
    pub rest: Vec<String>,
}

/// Takes the value of `--top`.
fn take_top(scan: &mut Scan, value: &[u8])
    ensures { scanned scan.new ≡ with_top value.now (scanned scan.old) }
{
    if scan.topped {
        scan.twice = true;
    }
    scan.topped = true;
    scan.wanting = false;
    scan.top = number_in(value, 1, u64::MAX);
}

/// Takes the word `--names`.
fn take_names(scan: &mut Scan)
    ensures { scanned scan.new ≡ with_names (scanned scan.old) }
{
    if scan.names {
        scan.twice = true;
    }
    scan.names = true;
}

/// Takes a word that is no value.
fn take_free(scan: &mut Scan, word: &String) -> Result<(), AllocError>
    ensures { OnOk result
        (scanned scan.new ≡ free_word (scanned scan.old) (string_bytes word.now)) }
{
    let bytes = word.as_bytes();
    if bytes == b"--names".as_slice() {
        take_names(scan);
        return Ok(());
    }
    if bytes == b"--top".as_slice() {
        scan.wanting = true;
        return Ok(());
    }
    match bytes.strip_prefix(b"--top=") {
        Some(value) => {
            take_top(scan, value);
            Ok(())
        }
        None => {
            let word = word.clone()?;
            scan.rest.push(word)?;
            Ok(())
        }
    }
}

/// Takes a word.
fn take(scan: &mut Scan, word: &String) -> Result<(), AllocError>
    ensures { OnOk result
        (scanned scan.new ≡ scan_word (scanned scan.old) (string_bytes word.now)) }
{
    if scan.wanting {
        take_top(scan, word.as_bytes());
        return Ok(());
    }
    take_free(scan, word)
}

/// Scans all arguments. Fails only if out of memory.
pub fn scan_of(alloc: Global, words: &[String]) -> Result<Scan, AllocError>
    ensures { IfOk result (λ scan. scanned scan ≡ fold scan_word no_words (bytes_of words.now)) }
{
    let mut rest = Vec::new(alloc);
    rest.push(String::from_str(alloc, "run")?)?;
    let mut scan = Scan {
        names: false,
        topped: false,
        top: None,
        wanting: false,
        twice: false,
        rest,
    };
    for word in words {
        take(&mut scan, word)?;
    }
    Ok(scan)
}
