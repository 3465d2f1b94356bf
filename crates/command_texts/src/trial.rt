//! The five lines of a trial.
ghost use Rattle.std.specs.Prelude.{◌≡◌, ◌≤◌, ◌++◌, codes, length, Some, IfOk};
ghost use Rattle.std.specs.List.{AllByRecursion};
ghost use Rattle.coz_files.specs.Gathered.{Gathers};
ghost use Rattle.coz_types.specs.declared.TheConstants.{MAX_POINTS};
ghost use Rattle.coz_types.specs.Ranges.{IsSummary};
ghost use Rattle.work_gen.specs.Text.{view};
ghost use Rattle.profile_book.specs.Pieces.{number_line};
ghost use Rattle.command_texts.specs.TrialText.{best_line, digest_line, gain_line, trial_lines};

use causal_curves::{Curve, curves};
use coz_files::{PutBuffer, Sink};
use line_index::LineIndex;
use profile_book::{
    Profile, TextWriter, profile_text, put_digest, put_field, put_line, put_named, put_signed,
};
use sha2::{Digest, Sha256};
use std::alloc::{AllocError, Global};
use work_gen::Generated;

/// Puts the length of some bytes and their digest.
fn put_digested<O: Sink>(to: &mut PutBuffer, out: &mut O, name: &[u8], bytes: &[u8])
    ensures { Gathers O.holds O.faults out.old out.new to.old to.new
        (digest_line name.now bytes.now) }
{
    put_named(to, out, name, bytes.len() as u64);
    put_digest(to, out, b" ", &Sha256::digest(bytes));
    to.push(out, b"\n");
}

/// Puts the line of a label and its gain, in hundredths of a per cent.
fn put_known_gain<O: Sink>(to: &mut PutBuffer, out: &mut O, label: &[u8], gain: i128)
    ensures { Gathers O.holds O.faults out.old out.new to.old to.new
        (gain_line label.now (Some gain)) }
{
    put_field(to, out, b"best ", label);
    put_signed(to, out, b" ", gain);
    to.push(out, b"\n");
}

fn put_gain<O: Sink>(to: &mut PutBuffer, out: &mut O, label: &[u8], gain: Option<i128>)
    ensures { Gathers O.holds O.faults out.old out.new to.old to.new (gain_line label.now gain) }
{
    let Some(gain) = gain else {
        to.push(out, b"best none\n");
        return;
    };
    put_known_gain(to, out, label, gain);
}

/// Puts the first of ranked curves, if it has a gain.
fn put_best<O: Sink>(to: &mut PutBuffer, out: &mut O, curves: &[Curve])
    ensures { Gathers O.holds O.faults out.old out.new to.old to.new (best_line curves.now) }
{
    match curves.first() {
        Some(curve) => put_gain(to, out, curve.selected.bytes(), curve.gain),
        None => to.push(out, b"best none\n"),
    }
}

/// Puts the lines of the source and the counts.
fn put_counts<O: Sink>(
    to: &mut PutBuffer,
    out: &mut O,
    source: &Generated,
    index: &LineIndex,
    profile: &Profile,
)
    ensures { Gathers O.holds O.faults out.old out.new to.old to.new
        (digest_line (codes "source ") source.now.text
        ++ number_line (codes "lines ") (length index.now.lines)
        ++ number_line (codes "experiments ") (length profile.now.summaries)) }
{
    put_digested(to, out, b"source ", source.text.as_slice());
    put_line(to, out, b"lines ", index.count() as u64);
    put_line(to, out, b"experiments ", profile.summaries.len() as u64);
}

/// The text that `trial` prints.
pub fn trial_text(
    alloc: Global,
    source: &Generated,
    index: &LineIndex,
    profile: &Profile,
) -> Result<Vec<u8>, AllocError>
    requires points { length profile.now.points ≤ MAX_POINTS }
    requires ranges { AllByRecursion (IsSummary (length profile.now.points)) profile.now.summaries }
    ensures { IfOk result (λ text.
        text.items ≡ trial_lines (view source.now) index.now.lines
        (length profile.now.summaries) profile.now) }
{
    let book = profile_text(alloc, profile)?;
    let curves = curves(alloc, profile)?;
    let mut text = TextWriter::new(alloc);
    put_counts(&mut text.to, &mut text.out, source, index, profile);
    put_digested(&mut text.to, &mut text.out, b"profile ", &book);
    put_best(&mut text.to, &mut text.out, curves.as_slice());
    text.finish()
}
