//! The sections that texts of version 5 may stand in (DWARF 5, 7.5.5).

ghost use Rattle.std.specs.Prelude.{◌≡◌, ◌≤◌, ◌-◌, ℕ, length, take, drop, List, option_map, IfOk};
ghost use Rattle.std.specs.Borrow.{Bor};
ghost use Rattle.std.specs.List.Sorted.{IsNonDecreasingBy};
ghost use Rattle.dwarf_lines.specs.Zeros.{zeros_from, first_from, text_from};
ghost use Rattle.dwarf_lines.specs.Names.{strings};

use std::alloc::{AllocError, Global};

/// A section of texts and the places of its zero bytes.
#[derive(Drop)]
pub struct Texts<'a> {
    bytes: &'a [u8],
    zeros: Vec<u64>,
    ghost whole: { zeros.items ≡ zeros_from 0 bytes.now },
}

impl<'a> Texts<'a> {
    /// A section with the places of its zero bytes.
    fn gather(alloc: Global, bytes: &'a [u8]) -> Result<Texts<'a>, AllocError>
        ensures { IfOk result (λ t. t.bytes.now ≡ bytes.now) }
    {
        let mut zeros = Vec::new(alloc);
        for i in 0..bytes.len() {
            if bytes[i] == 0 {
                zeros.push(i as u64)?;
            }
        }
        Ok(Texts { bytes, zeros })
    }

    /// The text from this place up to the next zero byte, in logarithmic time.
    /// None if the place isn't in the section, or no zero byte follows.
    pub fn text(&self, place: u64) -> Option<&'a [u8]>
        ensures { option_map (λ (t : Bor (List ℕ)). t.now) result
            ≡ text_from place self.now.bytes.now }
    {
        match first_from(self.zeros.as_slice(), place) {
            Some(end) => Some(between(self.bytes, place, end)),
            None => None,
        }
    }
}

/// The first of the places from this one on.
fn first_from(zeros: &[u64], place: u64) -> Option<u64>
    requires { IsNonDecreasingBy (λ (z : ℕ). z) zeros.now }
    ensures { result ≡ first_from place zeros.now }
{
    let before = zeros.partition_point(|zero| *zero < place);
    if before < zeros.len() {
        Some(zeros[before])
    } else {
        None
    }
}

/// The bytes from one place up to another.
fn between<'a>(bytes: &'a [u8], start: u64, end: u64) -> &'a [u8]
    requires order { start ≤ end }
    requires inside { end ≤ length bytes.now }
    ensures { result.now ≡ take (end - start) (drop start bytes.now) }
{
    &bytes[start as usize..end as usize]
}

/// The general section of texts and that of lines.
#[derive(Drop)]
pub struct Strings<'a> {
    /// `.debug_str`.
    pub general: Texts<'a>,
    /// `.debug_line_str`.
    pub line: Texts<'a>,
}

/// Both sections of texts, gathered when a unit of version 5 is first met.
#[derive(Drop)]
pub struct Sections<'a> {
    general: &'a [u8],
    line: &'a [u8],
    gathered: Option<Strings<'a>>,
    ghost same: { option_map (λ s. strings s.general.bytes.now s.line.bytes.now) gathered
        ≡ option_map (λ _. strings general.now line.now) gathered },
}

impl<'a> Sections<'a> {
    ghost use Rattle.dwarf_lines.specs.Views.{strings_view, sections_view};

    /// Sections of which nothing was gathered yet.
    pub fn new(general: &'a [u8], line: &'a [u8]) -> Sections<'a>
        ensures { sections_view result ≡ strings general.now line.now }
    {
        Sections {
            general,
            line,
            gathered: None,
        }
    }

    /// Lends the gathered sections.
    pub fn lend(&mut self, alloc: Global) -> Result<Strings<'a>, AllocError>
        ensures lent { IfOk result (λ s. strings_view s ≡ sections_view self.old) }
        ensures kept { sections_view self.new ≡ sections_view self.old }
    {
        match self.gathered.take() {
            Some(strings) => Ok(strings),
            None => {
                let general = Texts::gather(alloc, self.general)?;
                let line = Texts::gather(alloc, self.line)?;
                Ok(Strings { general, line })
            }
        }
    }

    /// Takes back what it lent.
    pub fn take_back(&mut self, strings: Strings<'a>)
        requires { strings_view strings ≡ sections_view self.old }
        ensures { sections_view self.new ≡ sections_view self.old }
    {
        self.gathered = Some(strings);
    }
}
