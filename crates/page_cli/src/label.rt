//! Labels and other texts in a page.
ghost use Rattle.std.specs.Prelude.{◌≡◌, ◌++◌};
ghost use Rattle.page_cli.specs.Lines.{label_text, numbered_text};
ghost use Rattle.coz_files.specs.Gathered.{Gathers};
ghost use Rattle.page_values.specs.Labels.{html, html_byte};

use crate::label_parts::{number_of, path_of};
use coz_files::{PutBuffer, Sink};
use page_values::reference_of;
use profile_book::put_named;

fn put_byte<O: Sink>(to: &mut PutBuffer, out: &mut O, byte: u8)
    ensures { Gathers O.holds O.faults out.old out.new to.old to.new (html_byte byte) }
{
    match reference_of(byte) {
        Some(reference) => to.push(out, reference),
        None => to.push(out, &[byte]),
    }
}

fn put_bytes<O: Sink>(to: &mut PutBuffer, out: &mut O, bytes: &[u8])
    ensures { Gathers O.holds O.faults out.old out.new to.old to.new (html bytes.now) }
{
    for byte in bytes {
        put_byte(to, out, *byte);
    }
}

/// A piece of text, and after it a text that is no markup.
pub fn put_html<O: Sink>(to: &mut PutBuffer, out: &mut O, before: &[u8], text: &[u8])
    ensures { Gathers O.holds O.faults out.old out.new to.old to.new
        (before.now ++ html text.now) }
{
    to.push(out, before);
    put_bytes(to, out, text);
}

fn put_numbered<O: Sink>(to: &mut PutBuffer, out: &mut O, path: &[u8], number: u64)
    ensures { Gathers O.holds O.faults out.old out.new to.old to.new
        (numbered_text path.now number) }
{
    put_bytes(to, out, path);
    put_named(to, out, b"<span>:", number);
    to.push(out, b"</span>");
}

fn put_parts<O: Sink>(to: &mut PutBuffer, out: &mut O, label: &[u8])
    ensures { Gathers O.holds O.faults out.old out.new to.old to.new (label_text label.now) }
{
    let number = number_of(label);
    if number == 0 {
        put_bytes(to, out, label);
    } else {
        put_numbered(to, out, path_of(label), number);
    }
}

/// A piece of text, and a label after it, whose number is not broken over two lines.
pub fn put_label<O: Sink>(to: &mut PutBuffer, out: &mut O, before: &[u8], label: &[u8])
    ensures { Gathers O.holds O.faults out.old out.new to.old to.new
        (before.now ++ label_text label.now) }
{
    to.push(out, before);
    put_parts(to, out, label);
}
