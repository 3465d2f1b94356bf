//! Endings in a profile's text.
ghost use Rattle.std.specs.Prelude.{◌≡◌, ◌∷◌, [], codes, option_copied};
ghost use Rattle.profile_reader.specs.EndingSpellings.{is_one_of, causes, ending_parts, is_ending_text};
ghost use Rattle.profile_reader.specs.Parts.{parts, parts_behind};
ghost use Rattle.profile_reader.specs.Reading.{Tells, cause_in, ending_in_parts, ending_in};

use crate::numbers::parse_address;
use coz_types::{Ending, HARTS, HartId, Trap, TrapCause};
use profile_labels::decimal;

/// The greatest code of an exit.
const MAX_CODE: u64 = 255;
/// The greatest number of a hart.
const MAX_HART: u64 = HARTS as u64 - 1;

/// The bytes before the first colon, and those after it, if there is one.
fn cut(text: &[u8]) -> (&[u8], Option<&[u8]>)
    ensures { parts text.now ≡ result.0.now ∷ parts_behind (option_copied result.1) }
{
    for i in 0..text.len() {
        if text[i] == b':' {
            return (&text[..i], Some(&text[i + 1..]));
        }
    }
    (text, None)
}

fn plain(word: &[u8]) -> Option<Ending>
    ensures { Tells (λ e. e) (ending_parts (word.now ∷ []))
        (ending_in_parts (word.now ∷ [])) result }
{
    if word == b"stalled".as_slice() {
        Some(Ending::Stalled)
    } else if word == b"spent".as_slice() {
        Some(Ending::Spent)
    } else if word == b"output-full".as_slice() {
        Some(Ending::OutputFull)
    } else if word == b"visits-full".as_slice() {
        Some(Ending::VisitsFull)
    } else if word == b"clock".as_slice() {
        Some(Ending::Clock)
    } else {
        None
    }
}

fn numbered(word: &[u8], number: &[u8]) -> Option<Ending>
    ensures { Tells (λ e. e) (ending_parts (word.now ∷ number.now ∷ []))
        (ending_in_parts (word.now ∷ number.now ∷ [])) result }
{
    if word == b"exited".as_slice() {
        let code = decimal(number, MAX_CODE)?;
        return Some(Ending::Exited(code as u8));
    }
    if word == b"unsupported".as_slice() {
        let call = decimal(number, u64::MAX)?;
        return Some(Ending::Unsupported(call));
    }
    None
}

fn cause(text: &[u8]) -> Option<TrapCause>
    ensures { Tells (λ c. c) (is_one_of causes text.now) (cause_in text.now) result }
{
    if text == b"fetch".as_slice() {
        Some(TrapCause::Fetch)
    } else if text == b"illegal".as_slice() {
        Some(TrapCause::Illegal)
    } else if text == b"misaligned".as_slice() {
        Some(TrapCause::Misaligned)
    } else if text == b"access".as_slice() {
        Some(TrapCause::Access)
    } else if text == b"break".as_slice() {
        Some(TrapCause::Break)
    } else {
        None
    }
}

fn trapped(word: &[u8], name: &[u8], hart: &[u8], pc: &[u8]) -> Option<Ending>
    ensures { Tells (λ e. e) (ending_parts (word.now ∷ name.now ∷ hart.now ∷ pc.now ∷ []))
        (ending_in_parts (word.now ∷ name.now ∷ hart.now ∷ pc.now ∷ [])) result }
{
    if word != b"trapped".as_slice() {
        return None;
    }
    let cause = cause(name)?;
    let hart = decimal(hart, MAX_HART)?;
    let pc = parse_address(pc)?;
    let hart = HartId(hart as u16);
    Some(Ending::Trapped(Trap { cause, hart, pc }))
}

/// The ending of which the text is the spelling. None if it spells none.
#[tactic(auto, using(crate::proofs::Colons::five))]
pub fn ending_of(text: &[u8]) -> Option<Ending>
    ensures { Tells (λ e. e) (is_ending_text text.now) (ending_in text.now) result }
{
    let (word, rest) = cut(text);
    let Some(rest) = rest else {
        return plain(word);
    };
    let (second, rest) = cut(rest);
    let Some(rest) = rest else {
        return numbered(word, second);
    };
    let (hart, rest) = cut(rest);
    let (pc, rest) = cut(rest?);
    if let Some(_) = rest {
        return None;
    }
    trapped(word, second, hart, pc)
}
