//! The text of a program's lines.
ghost use Rattle.std.specs.Prelude.{◌≡◌, ◌<◌, flat_map, length, IfOk};
ghost use Rattle.coz_files.specs.Gathered.{Gathers};
ghost use Rattle.command_texts.specs.Text.{addresses_text, more_address, labelled_text};
ghost use Rattle.command_texts.specs.LinesText.{each_text, index_text, HasLine};

use coz_files::{PutBuffer, Sink};
use coz_types::{Address, LineId};
use line_index::LineIndex;
use profile_book::{TextWriter, put_address, put_line};
use std::alloc::{AllocError, Global};

/// Puts an address after a comma.
fn put_more<O: Sink>(to: &mut PutBuffer, out: &mut O, address: Address)
    ensures { Gathers O.holds O.faults out.old out.new to.old to.new (more_address address) }
{
    to.push(out, b",");
    put_address(to, out, address);
}

/// Puts each address after a comma.
fn put_each<O: Sink>(to: &mut PutBuffer, out: &mut O, addresses: &[Address])
    ensures { Gathers O.holds O.faults out.old out.new to.old to.new
        (flat_map more_address addresses.now) }
{
    for address in addresses {
        put_more(to, out, *address);
    }
}

#[tactic(auto, unfolding(crate::specs::Text::addresses_text))]
fn put_addresses<O: Sink>(to: &mut PutBuffer, out: &mut O, addresses: &[Address])
    ensures { Gathers O.holds O.faults out.old out.new to.old to.new
        (addresses_text addresses.now) }
{
    if let Some((first, more)) = addresses.split_first() {
        put_address(to, out, *first);
        put_each(to, out, more);
    }
}

fn put_labelled<O: Sink>(to: &mut PutBuffer, out: &mut O, label: &[u8], addresses: &[Address])
    ensures { Gathers O.holds O.faults out.old out.new to.old to.new
        (labelled_text label.now addresses.now) }
{
    to.push(out, label);
    to.push(out, b"\t");
    put_addresses(to, out, addresses);
    to.push(out, b"\n");
}

fn put_index_line<O: Sink>(to: &mut PutBuffer, out: &mut O, index: &LineIndex, line: LineId)
    requires { line.0 < length index.now.lines }
    ensures { HasLine index.now line.0
        (Gathers O.holds O.faults out.old out.new to.old to.new) }
{
    let label = index.label(line);
    put_labelled(to, out, label.bytes(), index.entries(line));
}

/// Puts the line of each line of an index, with its entry addresses.
fn put_index_lines<O: Sink>(to: &mut PutBuffer, out: &mut O, index: &LineIndex)
    ensures { Gathers O.holds O.faults out.old out.new to.old to.new
        (each_text index.now.lines index.now.entries) }
{
    for line in 0..index.count() {
        put_index_line(to, out, index, LineId(line));
    }
}

fn put_lines<O: Sink>(to: &mut PutBuffer, out: &mut O, skipped: u32, index: &LineIndex)
    ensures { Gathers O.holds O.faults out.old out.new to.old to.new
        (index_text skipped index.now) }
{
    put_line(to, out, b"skipped ", skipped as u64);
    put_index_lines(to, out, index);
}

/// The text that `lines` prints of an index whose table had `skipped` units of another version.
pub fn lines_text(alloc: Global, skipped: u32, index: &LineIndex) -> Result<Vec<u8>, AllocError>
    ensures { IfOk result (λ text. text.items ≡ index_text skipped index.now) }
{
    let mut text = TextWriter::new(alloc);
    put_lines(&mut text.to, &mut text.out, skipped, index);
    text.finish()
}
