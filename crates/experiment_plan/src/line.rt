//! Lines of a source, and lists of lines, as words name them.
ghost use Rattle.std.specs.Prelude.{◌≡◌, ◌∷◌, ◌<◌, ◌≤◌, ◌-◌, true, false, not, IfSome, length};
ghost use Rattle.std.specs.List.{AllWithin, list_all, suffix_len, position_or_len, before_last, after_last};
ghost use Rattle.std.specs.Option.{option_copied};
ghost use Rattle.experiment_plan.specs.Lists.{is_comma, is_colon, is_path, is_line, line_parts, pieces, pieces_left, is_list, IsCut};

use crate::number::{number_in, value_of};
use coz_types::MAX_LINE;

/// The index after the last `:`, or 0 if there is none.
fn behind_last_colon(text: &[u8]) -> usize
    ensures within { result ≤ length text.now }
    ensures offset { suffix_len (λ b. not (is_colon b)) text.now ≡ length text.now - result }
{
    let mut offset = text.len();
    while offset > 0 && text[offset - 1] != b':' {
        offset -= 1;
    }
    offset
}

/// The bytes before the last `:`, and the bytes after it.
fn cut_at_last_colon<'a>(text: &'a [u8]) -> (&'a [u8], &'a [u8])
    ensures before { result.0.now ≡ before_last is_colon text.now }
    ensures after { result.1.now ≡ after_last is_colon text.now }
{
    let offset = behind_last_colon(text);
    (&text[..offset.saturating_sub(1)], &text[offset..])
}

fn has_no_comma(path: &[u8]) -> bool
    ensures { result ≡ list_all (λ b. not (is_comma b)) path.now }
{
    path.iter().all(|byte| *byte != b',')
}

fn is_path(path: &[u8]) -> bool
    ensures { result ≡ is_path path.now }
{
    !path.is_empty() && has_no_comma(path)
}

/// Whether a text is a line: a path that isn't empty and has no comma, `:`, and a number
/// from 1 to 2^32 - 1. The last `:` divides them.
#[tactic(auto, unfolding(crate::specs::Lists::is_line))]
pub fn is_line(text: &[u8]) -> bool
    ensures { result ≡ is_line text.now }
{
    let (path, number) = cut_at_last_colon(text);
    is_path(path) && number_in(number, 1, MAX_LINE).is_some()
}

/// The path of a line, and its number.
#[tactic(auto, unfolding(crate::specs::Lists::line_parts))]
pub fn line_parts<'a>(text: &'a [u8]) -> (&'a [u8], u32)
    requires { is_line text.now ≡ true }
    ensures { (result.0.now, result.1) ≡ line_parts text.now }
{
    let (path, number) = cut_at_last_colon(text);
    (path, value_of(number) as u32)
}

/// The offset of the first `,`, or the length if there is none.
fn first_comma(text: &[u8]) -> usize
    ensures offset { result ≡ position_or_len is_comma text.now }
    ensures before { AllWithin (λ b. is_comma b ≡ false) text.now 0 result }
{
    let mut offset = 0;
    while offset < text.len() && text[offset] != b',' {
        offset += 1;
    }
    offset
}

/// The first piece of a list, and the bytes after its comma, if there is one.
pub fn first_piece<'a>(text: &'a [u8]) -> (&'a [u8], Option<&'a [u8]>)
    ensures pieces { pieces text.now ≡ result.0.now ∷ pieces_left (option_copied result.1) }
    ensures cut { IsCut text.now result.0.now (option_copied result.1) }
    ensures shorter { IfSome result.1 (λ rest. length rest.now < length text.now) }
{
    let offset = first_comma(text);
    if offset < text.len() {
        (&text[..offset], Some(&text[offset + 1..]))
    } else {
        (text, None)
    }
}

/// Whether a text is a list: one line or more, with a comma between.
pub fn is_list(text: &[u8]) -> bool
    ensures { result ≡ is_list text.now }
{
    let mut left = Some(text);
    while let Some(list) = left {
        let (piece, rest) = first_piece(list);
        if !is_line(piece) {
            return false;
        }
        left = rest;
    }
    true
}
