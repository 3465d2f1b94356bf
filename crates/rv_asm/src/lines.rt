//! The lines of a source, one after the other.

ghost use Rattle.std.specs.Prelude.{◌≡◌, ◌≤◌, ◌<◌, ◌+◌, ◌-◌, ◌^◌, ◌==◌, length, drop, option_map, position, not, ◌∷◌, Option, IfSome};
ghost use Rattle.std.specs.List.{prefix_len};
ghost use Rattle.std.specs.Str.{byte};
ghost use Rattle.asm_tokens.specs.declared.TheConstants.{MAX_SOURCE};
ghost use Rattle.asm_tokens.specs.Tokens.{is_allowed, lines};
ghost use Rattle.rv_asm.specs.Statements.{section_of};
ghost use Rattle.rv_asm.specs.Assembled.{start, is_in_place, form_named, name_in, with_statement, take_tokens, take_line, take_lines};
ghost use Rattle.failures.specs.Answers.{Gives};
ghost use Rattle.asm_tokens.specs.Views.{placed_of, all_placed, token_of};
ghost use Rattle.rv_asm.specs.Views.{Steps, state_of, use_of, label_front, error_at};

use crate::forms::statement;
use crate::operands::NameUse;
use crate::state::State;
use crate::{AsmError, AsmFault, AsmKind};
use asm_tokens::{Form, Placed, Section, Token, TokenError, form_of, is_blank, tokens};
use std::alloc::Global;

/// The most lines of a source.
const MAX_LINES: u32 = 65_536;

/// Whether a byte may stand in a line.
fn is_allowed(byte: u8) -> bool
    ensures { result ≡ is_allowed byte }
{
    is_blank(byte) || 0x20 <= byte && byte <= 0x7E
}

/// The section that a statement has to stand in, if it has one.
fn section_of(form: Form) -> Option<Section>
    ensures { result ≡ section_of form }
{
    match form {
        Form::Enter(_) | Form::Global => None,
        Form::Numbers(_) | Form::Ascii | Form::Zeros | Form::Align => Some(Section::Data),
        _ => Some(Section::Text),
    }
}

/// Whether a statement may stand in this section.
fn is_in_place(form: Form, now: Section) -> bool
    ensures { result ≡ is_in_place (section_of form) now }
{
    match section_of(form) {
        None => true,
        Some(Section::Text) => matches!(now, Section::Text),
        Some(Section::Data) => matches!(now, Section::Data),
    }
}

/// The form of the statement that begins with this token.
fn form_in(first: &Token) -> Option<Form>
    ensures { result ≡ form_named (name_in (token_of first.now)) }
{
    match first {
        Token::Name(name) => form_of(*name),
        _ => None,
    }
}

/// The tokens from an index on.
fn from_index<'t, 's>(tokens: &'t [Placed<'s>], index: usize) -> &'t [Placed<'s>]
    requires { index ≤ length tokens.now }
    ensures { result.now ≡ drop index tokens.now }
{
    &tokens[index..]
}

/// The label that begins at this index, if a colon follows the name there.
fn label_at<'s>(tokens: &[Placed<'s>], index: usize) -> Option<NameUse<'s>>
    requires { index ≤ length tokens.now }
    ensures { option_map use_of result ≡ label_front (all_placed (drop index tokens.now)) }
{
    label_first(from_index(tokens, index))
}

/// The label that begins these tokens, if a colon follows the name there.
fn label_first<'s>(tokens: &[Placed<'s>]) -> Option<NameUse<'s>>
    ensures { option_map use_of result ≡ label_front (all_placed tokens.now) }
{
    match tokens {
        [first, second, ..] => match (&first.token, &second.token) {
            (Token::Name(name), Token::Mark(b':')) => Some(NameUse {
                name: *name,
                column: first.column,
            }),
            _ => None,
        },
        _ => None,
    }
}

/// The statement that begins with this token.
fn take_statement<'s>(
    alloc: Global,
    line: u32,
    end: u32,
    first: &Placed<'s>,
    operands: &[Placed<'s>],
    state: &mut State<'s>,
) -> Result<(), TokenError>
    ensures { Steps result (state_of state.new) (with_statement line end (placed_of first.now)
        (all_placed operands.now) (state_of state.old)) }
{
    let column = first.column;
    let Some(form) = form_in(&first.token) else {
        return Err(TokenError::Fault {
            kind: AsmKind::Name,
            column,
        });
    };
    if !is_in_place(form, state.section) {
        return Err(TokenError::Fault {
            kind: AsmKind::Section,
            column,
        });
    }
    let what = statement(alloc, end, form, operands)?;
    state.perform(line, column, what)
}

/// The statement that may follow the labels of a line.
fn take_last<'s>(
    alloc: Global,
    line: u32,
    end: u32,
    tokens: &[Placed<'s>],
    state: &mut State<'s>,
) -> Result<(), TokenError>
    requires { label_front (all_placed tokens.now) ≡ None }
    ensures { Steps result (state_of state.new)
        (take_tokens line end (all_placed tokens.now) (state_of state.old)) }
{
    match tokens.split_first() {
        None => Ok(()),
        Some((first, operands)) => take_statement(alloc, line, end, first, operands, state),
    }
}

/// Labels, and then at most one statement.
fn take_tokens<'s>(
    alloc: Global,
    line: u32,
    end: u32,
    tokens: &[Placed<'s>],
    state: &mut State<'s>,
) -> Result<(), TokenError>
    ensures { Steps result (state_of state.new)
        (take_tokens line end (all_placed tokens.now) (state_of state.old)) }
{
    let mut index = 0;
    while let Some(label) = label_at(tokens, index) {
        state.add_label(label.name, label.column)?;
        index += 2;
    }
    take_last(alloc, line, end, from_index(tokens, index), state)
}

/// The index of the first byte that may not stand in a line.
fn first_wrong_byte(line: &[u8]) -> Option<usize>
    ensures index { result ≡ position (λ b. not (is_allowed b)) line.now }
    ensures within { IfSome result (λ index. index < length line.now) }
{
    line.iter().position(|byte| !is_allowed(*byte))
}

/// A line without its end.
#[tactic(auto, unfolding(asm_tokens::specs::Tokens::tokens))]
fn take_line<'s>(
    alloc: Global,
    number: u32,
    line: &'s [u8],
    state: &mut State<'s>,
) -> Result<(), TokenError>
    requires { length line.now ≤ MAX_SOURCE }
    ensures value { Steps result (state_of state.new)
        (take_line number line.now (state_of state.old)) }
{
    if number > MAX_LINES {
        return Err(TokenError::Fault {
            kind: AsmKind::Lines,
            column: 1,
        });
    }
    if let Some(index) = first_wrong_byte(line) {
        return Err(TokenError::Fault {
            kind: AsmKind::Byte,
            column: index as u32 + 1,
        });
    }
    let found = tokens(alloc, line)?;
    take_tokens(alloc, number, line.len() as u32 + 1, &found, state)
}

/// The number of bytes of the first line.
fn line_length(bytes: &[u8]) -> usize
    ensures length { result ≡ prefix_len (λ b. not (b == byte "\n")) bytes.now }
    ensures within { result ≤ length bytes.now }
{
    let mut i = 0;
    while i < bytes.len() && bytes[i] != b'\n' {
        i += 1;
    }
    i
}

/// The line that begins these bytes.
fn first_line(bytes: &[u8]) -> &[u8]
    requires { 1 ≤ length bytes.now }
    ensures lines { lines bytes.now ≡ result.now ∷ lines (drop (length result.now + 1) bytes.now) }
    ensures within { length result.now ≤ length bytes.now }
{
    &bytes[..line_length(bytes)]
}

/// The line that begins at this index of the source.
fn line_at(source: &[u8], index: usize) -> &[u8]
    requires { index < length source.now }
    ensures lines { lines (drop index source.now)
        ≡ result.now ∷ lines (drop (index + (length result.now + 1)) source.now) }
    ensures within { index + length result.now ≤ length source.now }
{
    first_line(&source[index..])
}

/// The fault of a line, with the line's number.
pub fn error_at(line: u32, error: TokenError) -> AsmError
    ensures { result ≡ error_at line error }
{
    match error {
        TokenError::Memory => AsmError::Memory,
        TokenError::Fault { kind, column } => AsmError::Fault(AsmFault { kind, line, column }),
    }
}

/// The lines of a source. Err is the first fault of a line, or out of memory.
pub fn take_lines<'s>(alloc: Global, source: &'s [u8]) -> Result<State<'s>, AsmError>
    requires { length source.now ≤ MAX_SOURCE }
    ensures { Gives state_of result (take_lines 1 (lines source.now) start) }
{
    let mut state = State::new(alloc);
    let mut number = 0;
    let mut index = 0;
    while index < source.len() {
        let line = line_at(source, index);
        number += 1;
        if let Err(error) = take_line(alloc, number, line, &mut state) {
            return Err(error_at(number, error));
        }
        index += line.len() + 1;
    }
    Ok(state)
}
