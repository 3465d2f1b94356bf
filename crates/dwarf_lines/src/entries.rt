//! The directories and files of a header (DWARF 4, 6.2.4).

ghost use Rattle.std.specs.Prelude.{◌≡◌, suc, length};
ghost use Rattle.dwarf_lines.specs.Reading.{Walks, WalksOver, texts, files, file_named, file};
ghost use Rattle.dwarf_lines.specs.Registers.{directory, file_view, files_view, texts_view};

use crate::fields::{text, unsigned};
use crate::{FileName, LineError, LineFault};
use leb_cursor::Cursor;
use std::alloc::Global;

/// Texts up to an empty one.
/// Err is the first field that runs past the header, or out of memory.
pub fn read_directories<'a>(
    alloc: Global,
    cursor: &mut Cursor<'a>,
) -> Result<Vec<&'a [u8]>, LineError>
    ensures { WalksOver (λ v. texts_view v.items) result cursor.new
        (texts (suc (length cursor.old.bytes)) cursor.old) }
{
    let mut directories = Vec::new(alloc);
    loop {
        let directory = text(cursor)?;
        if directory.is_empty() {
            return Ok(directories);
        }
        directories.push(directory)?;
    }
}

/// Files up to an empty name. Err is the first wrong field, or out of memory.
pub fn read_files<'a>(
    alloc: Global,
    directories: &[&'a [u8]],
    cursor: &mut Cursor<'a>,
) -> Result<Vec<FileName<'a>>, LineError>
    ensures { WalksOver (λ v. files_view v.items) result cursor.new
        (files (suc (length cursor.old.bytes)) (texts_view directories.now) cursor.old) }
{
    let mut files = Vec::new(alloc);
    loop {
        let name = text(cursor)?;
        if name.is_empty() {
            return Ok(files);
        }
        let file = named(directories, name, cursor)?;
        files.push(file)?;
    }
}

/// A whole file entry. Err is its first wrong field.
pub fn read_file<'a>(
    directories: &[&'a [u8]],
    cursor: &mut Cursor<'a>,
) -> Result<FileName<'a>, LineFault>
    ensures { Walks file_view result cursor.new (file (texts_view directories.now) cursor.old) }
{
    let name = text(cursor)?;
    named(directories, name, cursor)
}

/// The fields after the name of a file: the number of its directory, its time and its length.
fn named<'a>(
    directories: &[&'a [u8]],
    name: &'a [u8],
    cursor: &mut Cursor<'a>,
) -> Result<FileName<'a>, LineFault>
    ensures { Walks file_view result cursor.new
        (file_named (texts_view directories.now) name.now cursor.old) }
{
    let number = unsigned(cursor)?;
    let _time = unsigned(cursor)?;
    let _length = unsigned(cursor)?;
    Ok(FileName {
        directory: directory(directories, number),
        name,
    })
}

/// The directory of that number, counted from 1; none is empty.
fn directory<'a>(directories: &[&'a [u8]], number: u64) -> &'a [u8]
    ensures { result.now ≡ directory (texts_view directories.now) number }
{
    if 0 < number && number <= directories.len() as u64 {
        directories[(number - 1) as usize]
    } else {
        b"".as_slice()
    }
}
