//! Which files of a table need a path.

ghost use Rattle.std.specs.Prelude.{◌≡◌, ◌⊎◌, ℕ, length, slice_get, option_and_then, IfOk, All};
ghost use Rattle.line_index.specs.declared.changes.Change.{Change};
ghost use Rattle.line_index.specs.Keys.{named_file};

use crate::changes::Change;
use dwarf_lines::{FileName, Row};
use std::alloc::{AllocError, Global};

/// The file that the row at a position names, unless it has line 0.
fn named_file(rows: &[Row], number: Option<u32>) -> Option<u32>
    ensures { result ≡ named_file rows.now number }
{
    let number = number?;
    let row = rows.get(number as usize)?;
    if row.line == 0 { None } else { row.file }
}

/// `count` files without a name.
fn nameless<'a>(alloc: Global, count: usize) -> Result<Vec<FileName<'a>>, AllocError>
    ensures { IfOk result (λ files. length files.items ≡ count) }
{
    let mut files = Vec::with_capacity(alloc, count)?;
    while files.len() < count {
        files.push(FileName {
            directory: b"",
            name: b"",
        })?;
    }
    Ok(files)
}

/// Gives a file its name.
fn give_name<'a>(named: &mut Vec<FileName<'a>>, files: &[FileName<'a>], file: Option<u32>)
    requires { length named.old.items ≡ length files.now }
    ensures as_many { length named.new.items ≡ length files.now }
    ensures given { option_and_then (slice_get named.new.items) file
        ≡ option_and_then (slice_get files.now) file }
    ensures others { (k : ℕ) → (slice_get named.new.items k ≡ slice_get files.now k)
        ⊎ (slice_get named.new.items k ≡ slice_get named.old.items k) }
{
    if let Some(file) = file {
        let at = file as usize;
        if at < files.len() {
            named[at] = files[at];
        }
    }
}

/// The files in their places. A file has its name if some row names it that is the first to cover
/// an address; all others have none. So no path is made of these: a table may hold a long directory
/// and millions of files in it.
pub fn named_files<'a>(
    alloc: Global,
    rows: &[Row],
    files: &[FileName<'a>],
    covering: &[Change],
) -> Result<Vec<FileName<'a>>, AllocError>
    ensures as_many { IfOk result (λ named. length named.items ≡ length files.now) }
    ensures named { IfOk result (λ named. All (λ (change : Change).
        option_and_then (slice_get named.items) (named_file rows.now change.position)
        ≡ option_and_then (slice_get files.now) (named_file rows.now change.position))
        covering.now) }
{
    let mut named = nameless(alloc, files.len())?;
    for change in covering {
        give_name(&mut named, files, named_file(rows, change.position));
    }
    Ok(named)
}
