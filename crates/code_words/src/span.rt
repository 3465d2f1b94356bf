//! Which words are a program's code.
ghost use Rattle.std.specs.Prelude.{◌≤◌};
ghost use Rattle.coz_types.specs.declared.TheConstants.{LOAD_END};
ghost use Rattle.code_words.specs.declared.span.TheConstants.{MAX_WORDS};

use coz_types::{Address, Area, Image, LOAD_END};

/// The most words of code that are decoded ahead and marked.
pub const MAX_WORDS: usize = 0x10_0000;

/// Words of code in a row.
#[derive(Clone, Copy)]
pub struct CodeSpan {
    /// The address of the first word.
    pub start: Address,
    /// The number of words.
    pub count: usize,
}

/// Whether an area holds the code that a program begins with.
fn is_entered(area: &Area, entry: Address) -> bool {
    area.rights.execute && area.start <= entry && entry - area.start < area.size
}

/// The words of the load area that a program's entry is in, at most `MAX_WORDS`. None of them if
/// there is no such area that may be executed.
pub fn code_span(image: &Image) -> CodeSpan
    ensures low { result.start ≤ LOAD_END }
    ensures few { result.count ≤ MAX_WORDS }
{
    let entry = image.entry();
    match image.areas().iter().find(|area| is_entered(area, entry)) {
        Some(area) if area.start <= LOAD_END => CodeSpan {
            start: area.start,
            count: (area.size / 4).min(MAX_WORDS as u64) as usize,
        },
        _ => CodeSpan { start: 0, count: 0 },
    }
}
