//! Values in per cent.
ghost use Rattle.std.specs.Prelude.{◌≡◌, ◌++◌, decimal};
ghost use Rattle.coz_files.specs.Gathered.{Gathers};
ghost use Rattle.page_charts.specs.Values.{sign, size_text, percent, value_text, is_gain, worst_text, threads_text, cost_text};

use coz_files::{PutBuffer, Sink};
use page_values::MAX_SIZE;
use profile_book::put_named;

fn put_big<O: Sink>(to: &mut PutBuffer, out: &mut O, n: u128)
    ensures { Gathers O.holds O.faults out.old out.new to.old to.new (decimal n) }
{
    let mut buffer = itoa::Buffer::new();
    to.push(out, buffer.format(n).as_bytes());
}

/// Puts a number of hundredths of a per cent, as a percentage with two decimals.
pub fn put_size<O: Sink>(to: &mut PutBuffer, out: &mut O, n: u128)
    ensures { Gathers O.holds O.faults out.old out.new to.old to.new (size_text n) }
{
    put_big(to, out, n / 100);
    put_named(to, out, b".", (n / 10 % 10) as u64);
    put_named(to, out, b"", (n % 10) as u64);
    to.push(out, b"%");
}

fn sign(value: i128) -> &'static [u8]
    ensures { result.now ≡ sign value }
{
    if value < 0 { b"-" } else { b"" }
}

/// A value in per cent.
pub fn put_percent<O: Sink>(to: &mut PutBuffer, out: &mut O, value: i128)
    ensures { Gathers O.holds O.faults out.old out.new to.old to.new (percent value) }
{
    to.push(out, sign(value));
    put_size(to, out, value.unsigned_abs());
}

/// A piece of text, and after it a value in per cent, or that it is absent.
pub fn put_value<O: Sink>(to: &mut PutBuffer, out: &mut O, before: &[u8], value: Option<i128>)
    ensures { Gathers O.holds O.faults out.old out.new to.old to.new
        (before.now ++ value_text value) }
{
    to.push(out, before);
    match value {
        Some(value) => put_percent(to, out, value),
        None => to.push(out, b"absent"),
    }
}

fn is_gain(value: Option<i128>) -> bool
    ensures { result ≡ is_gain value }
{
    match value {
        Some(value) => value >= 0,
        None => false,
    }
}

/// Prints a piece of text, then the worst value in per cent: `none` if it is 0 or more, and `absent`
/// if there is no value.
pub fn put_worst<O: Sink>(to: &mut PutBuffer, out: &mut O, before: &[u8], worst: Option<i128>)
    ensures { Gathers O.holds O.faults out.old out.new to.old to.new
        (before.now ++ worst_text worst) }
{
    if is_gain(worst) {
        to.push(out, before);
        to.push(out, b"none");
    } else {
        put_value(to, out, before, worst);
    }
}

fn put_threads<O: Sink>(to: &mut PutBuffer, out: &mut O, cost: u128)
    ensures { Gathers O.holds O.faults out.old out.new to.old to.new (threads_text cost) }
{
    if cost > MAX_SIZE {
        to.push(out, b"<br><small>several threads at once</small>");
    }
}

/// Prints a piece of text, then the cost in per cent, or `absent` if there is no cost. If the cost
/// is over 100 per cent, prints that several threads run at once.
pub fn put_cost<O: Sink>(to: &mut PutBuffer, out: &mut O, before: &[u8], cost: Option<u128>)
    ensures { Gathers O.holds O.faults out.old out.new to.old to.new
        (before.now ++ cost_text cost) }
{
    to.push(out, before);
    match cost {
        Some(cost) => {
            put_size(to, out, cost);
            put_threads(to, out, cost);
        }
        None => to.push(out, b"absent"),
    }
}
