//! The tokens of a line.

ghost use Rattle.std.specs.Prelude.{◌≡◌, ◌≤◌, ◌<◌, ◌+◌, ◌-◌, length, drop, map, false, IfSome, IfOk, neg_ℤ, pos, if◌then◌else◌};
ghost use Rattle.asm_tokens.specs.declared.TheConstants.{MAX_SOURCE};
ghost use Rattle.asm_tokens.specs.Tokens.{text, front, tokens, spelled_number, number_front, is_blank, is_mark};
ghost use Rattle.asm_tokens.specs.Views.{GivesText, front_of, token_of, placed_of, IsWithin, GivesLine};
ghost use Rattle.asm_tokens.specs.declared.line.TokenError.TheVariants.{Memory};

use crate::AsmKind;
use crate::words::{escaped, is_digit, is_of_name, spelled, word_length};
use std::alloc::{AllocError, AllocFailed, Global};

/// Why a line is rejected, with the column; or out of memory.
#[derive(Drop)]
pub enum TokenError {
    /// Out of memory.
    Memory,
    /// The kind of the fault, and its column, counted from 1.
    Fault { kind: AsmKind, column: u32 },
}

impl From<AllocError> for TokenError {
    ghost from_gives = { λ _ e. e ≡ Memory };

    fn from(_e: AllocError) -> TokenError {
        TokenError::Memory
    }
}

impl<T: Drop> From<AllocFailed<T>> for TokenError {
    ghost from_gives = { λ _ e. e ≡ Memory };

    fn from(_e: AllocFailed<T>) -> TokenError {
        TokenError::Memory
    }
}

/// A token of a line.
#[derive(Drop)]
pub enum Token<'a> {
    /// A name, or the first word of a statement.
    Name(&'a [u8]),
    /// A number.
    Number(i128),
    /// The bytes that stand in quotes, with their escapes resolved.
    Text(Vec<u8>),
    /// One of the marks, such as a comma.
    Mark(u8),
}

/// A token, and the column of its first byte.
#[derive(Drop)]
pub struct Placed<'a> {
    /// Counted from 1.
    pub column: u32,
    /// The token.
    pub token: Token<'a>,
}

/// The bytes of a text after its opening quote, and how many bytes spell them
/// with the closing one.
/// None if no closing quote follows or an escape is invalid. Fails only if it is out of memory.
pub fn text(alloc: Global, bytes: &[u8]) -> Result<Option<(Vec<u8>, usize)>, AllocError>
    ensures within { IfOk result (λ found. IfSome found (λ t. t.1 ≤ length bytes.now)) }
    ensures value { GivesText (λ v. v.items) result (text false bytes.now) }
{
    let mut out = Vec::new(alloc);
    let mut i = 0;
    while i < bytes.len() {
        match bytes[i] {
            b'"' => return Ok(Some((out, i + 1))),
            b'\\' => {
                i += 1;
                if i >= bytes.len() {
                    return Ok(None);
                }
                match escaped(bytes[i]) {
                    None => return Ok(None),
                    Some(byte) => out.push(byte)?,
                }
            }
            byte => out.push(byte)?,
        }
        i += 1;
    }
    Ok(None)
}

/// The token at the front of a line's rest.
#[derive(Drop)]
pub enum Found<'a> {
    /// A blank.
    Blank,
    /// A comment, up to the line's end.
    Comment,
    /// A token, and how many bytes spell it.
    Begins { token: Token<'a>, bytes: usize },
    /// Bytes that form no token.
    Wrong,
}

/// The number that a word of `bytes` bytes, its sign among them, spells.
fn number<'a>(word: &[u8], is_negative: bool, bytes: usize) -> Found<'a>
    ensures { front_of token_of result ≡ number_front (spelled_number word.now)
        (if is_negative then (λ n. neg_ℤ (pos n)) else (λ n. pos n)) bytes }
{
    match spelled(word) {
        None => Found::Wrong,
        Some(value) => {
            let value = value as i128;
            let value = if is_negative { -value } else { value };
            Found::Begins {
                token: Token::Number(value),
                bytes,
            }
        }
    }
}

/// Returns the token, blank or comment that begins these bytes, or that none does.
pub fn begins<'a>(alloc: Global, bytes: &'a [u8]) -> Result<Found<'a>, AllocError>
    ensures within { IfOk result (λ found. IsWithin found (length bytes.now)) }
    ensures value { IfOk result (λ found. front_of token_of found ≡ front bytes.now) }
{
    if bytes.is_empty() {
        return Ok(Found::Wrong);
    }
    let first = bytes[0];
    let rest = &bytes[1..];
    if is_blank(first) {
        return Ok(Found::Blank);
    }
    if first == b'#' {
        return Ok(Found::Comment);
    }
    if is_mark(first) {
        return Ok(Found::Begins {
            token: Token::Mark(first),
            bytes: 1,
        });
    }
    if first == b'"' {
        return match text(alloc, rest)? {
            None => Ok(Found::Wrong),
            Some((text, count)) => Ok(Found::Begins {
                token: Token::Text(text),
                bytes: count + 1,
            }),
        };
    }
    if first == b'-' {
        let length = word_length(rest);
        return Ok(number(&rest[..length], true, 1 + length));
    }
    let length = word_length(bytes);
    if is_digit(first) {
        return Ok(number(&bytes[..length], false, length));
    }
    if is_of_name(first) {
        return Ok(Found::Begins {
            token: Token::Name(&bytes[..length]),
            bytes: length,
        });
    }
    Ok(Found::Wrong)
}

/// Whether it is a space, a tab or a carriage return.
pub fn is_blank(byte: u8) -> bool
    ensures { result ≡ is_blank byte }
{
    byte == b' ' || byte == b'\t' || byte == b'\r'
}

fn is_mark(byte: u8) -> bool
    ensures { result ≡ is_mark byte }
{
    byte == b':' || byte == b',' || byte == b'(' || byte == b')'
}

/// Returns the token, blank or comment that begins at this index of a line, or that none does.
fn begins_at<'a>(alloc: Global, line: &'a [u8], place: usize) -> Result<Found<'a>, AllocError>
    requires { place ≤ length line.now }
    ensures within { IfOk result (λ found. IsWithin found (length line.now - place)) }
    ensures value { IfOk result (λ found. front_of token_of found ≡ front (drop place line.now)) }
{
    begins(alloc, &line[place..])
}

/// The tokens of a line, or the first bytes that form none.
#[tactic(auto, unfolding(crate::specs::Tokens::tokens))]
pub fn tokens<'a>(alloc: Global, line: &'a [u8]) -> Result<Vec<Placed<'a>>, TokenError>
    requires { length line.now ≤ MAX_SOURCE }
    ensures { GivesLine (λ v. map placed_of v.items) result (tokens line.now) }
{
    let mut out = Vec::new(alloc);
    let mut i = 0;
    while i < line.len() {
        let column = i as u32 + 1;
        match begins_at(alloc, line, i)? {
            Found::Blank => i += 1,
            Found::Comment => return Ok(out),
            Found::Wrong => {
                return Err(TokenError::Fault {
                    kind: AsmKind::Token,
                    column,
                });
            }
            Found::Begins { token, bytes } => {
                out.push(Placed { column, token })?;
                i += bytes;
            }
        }
    }
    Ok(out)
}
