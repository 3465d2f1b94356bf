//! The labels of lines.

ghost use Rattle.std.specs.Prelude.{◌≡◌, IfOk, map};
ghost use Rattle.coz_types.specs.Labels.{label_of};
ghost use Rattle.line_index.specs.Lines.{label};
ghost use Rattle.line_index.specs.Keys.{texts};
ghost use Rattle.line_index.specs.Index.{line_at};
ghost use Rattle.line_index.specs.declared.lines.Key.{Key};

use crate::backwards::path_at;
use crate::capacity::label_buffer;
use crate::lines::Key;
use coz_types::Label;
use itoa::Buffer;
use std::alloc::{AllocError, Global};

/// A written path, a colon and a number. The text is a buffer, whose bytes are replaced.
fn label(alloc: Global, text: &mut Vec<u8>, path: &[u8], number: u32) -> Result<Label, AllocError>
    ensures { IfOk result (λ label. label ≡ label_of path.now number) }
{
    text.clear();
    text.extend_from_slice(path)?;
    text.push(b':')?;
    let mut digits = Buffer::new();
    text.extend_from_slice(digits.format(number).as_bytes())?;
    Label::copy(alloc, text)
}

/// The label of each line. Room for all of them is asked for before the first is made.
/// Fails only if it is out of memory.
pub fn labels(alloc: Global, paths: &[Vec<u8>], keys: &[Key]) -> Result<Vec<Label>, AllocError>
    ensures { IfOk result (λ labels.
        labels.items ≡ map (λ (key : Key). label (line_at (texts paths.now) key)) keys.now) }
{
    label_buffer(alloc, paths, keys)?;
    let mut labels = Vec::with_capacity(alloc, keys.len())?;
    let mut text = Vec::new(alloc);
    for key in keys {
        labels.push(label(alloc, &mut text, path_at(paths, key.path), key.number)?)?;
    }
    Ok(labels)
}
