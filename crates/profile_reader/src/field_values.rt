//! The value of a field, by the field's kind.
ghost use Rattle.std.specs.Prelude.{◌≡◌, ◌≤◌, IfSome};
ghost use Rattle.profile_reader.specs.Grammar.{prefix, is_field, value_in, has_number, number_in};
ghost use Rattle.profile_reader.specs.Reading.{Tells};

use crate::fault::BookField;
use profile_labels::decimal;

fn prefix(kind: BookField) -> &'static [u8]
    ensures { result.now ≡ prefix kind }
{
    match kind {
        BookField::Version => b"\tversion=",
        BookField::Budget => b"\tbudget=",
        BookField::Points => b"\tpoints=",
        BookField::Index => b"\tindex=",
        BookField::Name => b"\tname=",
        BookField::Selected => b"\tselected=",
        BookField::Speedup => b"\tspeedup=",
        BookField::End => b"\tend=",
        BookField::Time => b"\ttime=",
        BookField::Delay => b"\tdelay=",
        BookField::Retired => b"\tretired=",
        BookField::Starts => b"\tstarts=",
        BookField::Length => b"\tlength=",
        BookField::Digest => b"\tsha256=",
        BookField::Delta => b"\tdelta=",
        BookField::Head
        | BookField::Point
        | BookField::Experiment
        | BookField::Output
        | BookField::Throughput
        | BookField::Visits
        | BookField::Newline => b"\t=",
    }
}

/// The bytes after the field's name, or None if the item is not such a field.
pub fn value(item: &[u8], kind: BookField) -> Option<&[u8]>
    ensures { Tells (λ text. text.now) (is_field kind item.now) (value_in kind item.now) result }
{
    item.strip_prefix(prefix(kind))
}

/// The number of the field.
/// None if the item is no such field, or its value no number up to the bound.
pub fn number_of(item: &[u8], kind: BookField, most: u64) -> Option<u64>
    ensures value { Tells (λ n. n) (has_number kind most item.now)
        (number_in kind item.now) result }
    ensures within { IfSome result (λ n. n ≤ most) }
{
    let text = value(item, kind)?;
    decimal(text, most)
}
