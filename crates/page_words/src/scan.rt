//! The options of the program among its words.
ghost use Rattle.std.specs.Prelude.{◌≡◌, fold, string_bytes};
ghost use Rattle.coz_files.specs.Verdict.{bytes_of};
ghost use Rattle.page_words.specs.Words.{scanned, take_word, free_word, word_with_value, no_words, with_profile, with_top, with_file, with_source, with_title, with_link, with_next};

/// What the next word is.
#[derive(Clone, Copy)]
pub enum Next {
    /// An option, or the path of the profile.
    Free,
    /// The value of `--top`.
    Top,
    /// The value of `--file`.
    File,
    /// The value of `--source`.
    Source,
    /// The value of `--title`.
    Title,
    /// The value of `--link`.
    Link,
}

/// The result of scanning some arguments.
#[derive(Clone, Copy)]
pub struct Scan<'w> {
    /// The path of the profile.
    pub profile: Option<&'w str>,
    /// The value of `--top`.
    pub top: Option<&'w [u8]>,
    /// The value of `--file`.
    pub file: Option<&'w [u8]>,
    /// The value of `--source`.
    pub source: Option<&'w [u8]>,
    /// The value of `--title`.
    pub title: Option<&'w [u8]>,
    /// The value of `--link`.
    pub link: Option<&'w [u8]>,
    /// What the next word is.
    pub next: Next,
    /// Whether the path or an option came twice.
    pub twice: bool,
}

fn with_next<'w>(scan: Scan<'w>, next: Next) -> Scan<'w>
    ensures { scanned result ≡ with_next next (scanned scan.entry) }
{
    Scan { next, ..scan }
}

fn with_profile<'w>(scan: Scan<'w>, path: &'w str) -> Scan<'w>
    ensures { scanned result ≡ with_profile path.now (scanned scan.entry) }
{
    Scan {
        profile: Some(path),
        twice: scan.twice || scan.profile.is_some(),
        ..scan
    }
}

fn with_top<'w>(scan: Scan<'w>, value: &'w [u8]) -> Scan<'w>
    ensures { scanned result ≡ with_top value.now (scanned scan.entry) }
{
    Scan {
        top: Some(value),
        next: Next::Free,
        twice: scan.twice || scan.top.is_some(),
        ..scan
    }
}

fn with_file<'w>(scan: Scan<'w>, value: &'w [u8]) -> Scan<'w>
    ensures { scanned result ≡ with_file value.now (scanned scan.entry) }
{
    Scan {
        file: Some(value),
        next: Next::Free,
        twice: scan.twice || scan.file.is_some(),
        ..scan
    }
}

fn with_source<'w>(scan: Scan<'w>, value: &'w [u8]) -> Scan<'w>
    ensures { scanned result ≡ with_source value.now (scanned scan.entry) }
{
    Scan {
        source: Some(value),
        next: Next::Free,
        twice: scan.twice || scan.source.is_some(),
        ..scan
    }
}

fn with_title<'w>(scan: Scan<'w>, value: &'w [u8]) -> Scan<'w>
    ensures { scanned result ≡ with_title value.now (scanned scan.entry) }
{
    Scan {
        title: Some(value),
        next: Next::Free,
        twice: scan.twice || scan.title.is_some(),
        ..scan
    }
}

fn with_link<'w>(scan: Scan<'w>, value: &'w [u8]) -> Scan<'w>
    ensures { scanned result ≡ with_link value.now (scanned scan.entry) }
{
    Scan {
        link: Some(value),
        next: Next::Free,
        twice: scan.twice || scan.link.is_some(),
        ..scan
    }
}

/// The words before, and an option with its value in one word, or the path of the profile.
fn word_with_value<'w>(scan: Scan<'w>, word: &'w String) -> Scan<'w>
    ensures { scanned result ≡ word_with_value (scanned scan.entry) (string_bytes word.now) }
{
    if let Some(value) = word.as_bytes().strip_prefix(b"--top=") {
        return with_top(scan, value);
    }
    if let Some(value) = word.as_bytes().strip_prefix(b"--file=") {
        return with_file(scan, value);
    }
    if let Some(value) = word.as_bytes().strip_prefix(b"--source=") {
        return with_source(scan, value);
    }
    if let Some(value) = word.as_bytes().strip_prefix(b"--title=") {
        return with_title(scan, value);
    }
    match word.as_bytes().strip_prefix(b"--link=") {
        Some(value) => with_link(scan, value),
        None => with_profile(scan, word.as_str()),
    }
}

/// The words before, and a word that is no value of its own.
fn free_word<'w>(scan: Scan<'w>, word: &'w String) -> Scan<'w>
    ensures { scanned result ≡ free_word (scanned scan.entry) (string_bytes word.now) }
{
    let bytes = word.as_bytes();
    if bytes == b"--top".as_slice() {
        return with_next(scan, Next::Top);
    }
    if bytes == b"--file".as_slice() {
        return with_next(scan, Next::File);
    }
    if bytes == b"--source".as_slice() {
        return with_next(scan, Next::Source);
    }
    if bytes == b"--title".as_slice() {
        return with_next(scan, Next::Title);
    }
    if bytes == b"--link".as_slice() {
        return with_next(scan, Next::Link);
    }
    word_with_value(scan, word)
}

/// The words before, and a word.
fn take_word<'w>(scan: Scan<'w>, word: &'w String) -> Scan<'w>
    ensures { scanned result ≡ take_word (scanned scan.entry) (string_bytes word.now) }
{
    match scan.next {
        Next::Free => free_word(scan, word),
        Next::Top => with_top(scan, word.as_bytes()),
        Next::File => with_file(scan, word.as_bytes()),
        Next::Source => with_source(scan, word.as_bytes()),
        Next::Title => with_title(scan, word.as_bytes()),
        Next::Link => with_link(scan, word.as_bytes()),
    }
}

/// Scans all arguments.
pub fn scan_of<'w>(words: &'w [String]) -> Scan<'w>
    ensures { scanned result ≡ fold take_word no_words (bytes_of words.now) }
{
    let mut scan = Scan {
        profile: None,
        top: None,
        file: None,
        source: None,
        title: None,
        link: None,
        next: Next::Free,
        twice: false,
    };
    for word in words {
        scan = take_word(scan, word);
    }
    scan
}
