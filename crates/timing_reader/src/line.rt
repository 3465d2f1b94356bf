//! The line.
ghost use Rattle.std.specs.Prelude.{◌≡◌, IfSome, option_map};
ghost use Rattle.timing_model.specs.Timing.{IsTiming};
ghost use Rattle.timing_reader.specs.Reading.{cost_after, costs_after, charge_after, timing_after, read_timing, timed_text};

use crate::digits::named_number;
use timing_line::is_usual;
use timing_model::{Charge, Costs, MAX_CORES, MAX_COST, MAX_SLICE, Timing};

/// The cycles of a class after a name, and the text after them.
fn cost_after<'a>(text: &'a [u8], name: &[u8]) -> Option<(u16, &'a [u8])>
    ensures { option_map (λ x. (x.0, x.1.now)) result ≡ cost_after name.now text.now }
{
    match named_number(text, name, 1, u64::from(MAX_COST)) {
        Some((cost, rest)) => Some((cost as u16, rest)),
        None => None,
    }
}

/// The costs, and the text after them.
fn costs_after<'a>(text: &'a [u8]) -> Option<(Costs, &'a [u8])>
    ensures { option_map (λ x. (x.0, x.1.now)) result ≡ costs_after text.now }
{
    let (integer, text) = cost_after(text, b"\tcosts=")?;
    let (jump, text) = cost_after(text, b",")?;
    let (load, text) = cost_after(text, b",")?;
    let (multiply, text) = cost_after(text, b",")?;
    let (atomic, text) = cost_after(text, b",")?;
    let (divide, text) = cost_after(text, b",")?;
    let (ecall, text) = cost_after(text, b",")?;
    let costs = Costs {
        integer,
        jump,
        load,
        multiply,
        atomic,
        divide,
        ecall,
    };
    Some((costs, text))
}

/// The charge, and the text after it.
fn charge_after<'a>(text: &'a [u8]) -> Option<(Charge, &'a [u8])>
    ensures { option_map (λ x. (x.0, x.1.now)) result ≡ charge_after text.now }
{
    if let Some(rest) = text.strip_prefix(b"\tcharge=none") {
        return Some((Charge::Nobody, rest));
    }
    let rest = text.strip_prefix(b"\tcharge=last")?;
    Some((Charge::Last, rest))
}

/// The machine that the line names, and the text after the line.
fn timing_after<'a>(text: &'a [u8]) -> Option<(Timing, &'a [u8])>
    ensures { option_map (λ x. (x.0, x.1.now)) result ≡ timing_after text.now }
{
    let most = u64::from(MAX_CORES);
    let (cores, text) = named_number(text, b"coz-timing\tversion=1\tcores=", 1, most)?;
    let (slice, text) = named_number(text, b"\tslice=", 1, MAX_SLICE)?;
    let (costs, text) = costs_after(text)?;
    let (charge, text) = charge_after(text)?;
    let (seed, text) = named_number(text, b"\tseed=", 0, u64::MAX)?;
    let text = text.strip_prefix(b"\n")?;
    let timing = Timing {
        cores: cores as u16,
        slice,
        costs,
        charge,
        seed,
    };
    Some((timing, text))
}

/// Returns the machine that the first line of a text names, and the text after that line. If the
/// text does not begin with `coz-timing`, it is of the usual machine, and all of it is returned.
/// Returns None if it begins so, and its first line is not one that is written for a machine other
/// than the usual one.
pub fn read_timing<'a>(text: &'a [u8]) -> Option<(Timing, &'a [u8])>
    ensures read { option_map (λ x. (x.0, x.1.now)) result ≡ read_timing text.now }
    ensures within { IfSome result (λ x. IsTiming x.0) }
{
    if !text.starts_with(b"coz-timing") {
        return Some((Timing::usual(), text));
    }
    let (timing, rest) = timing_after(text)?;
    if is_usual(&timing) {
        None
    } else {
        Some((timing, rest))
    }
}

/// Returns the machine that the first line of a text names, and the text after that line. A text
/// whose first line begins with `coz-timing` and is wrong is returned whole, with the usual
/// machine: it is no profile's text.
pub fn timed_text<'a>(text: &'a [u8]) -> (Timing, &'a [u8])
    ensures { (result.0, result.1.now) ≡ timed_text text.now }
{
    match read_timing(text) {
        Some(read) => read,
        None => (Timing::usual(), text),
    }
}
