//! The directories and files of a header of version 5 (DWARF 5, 6.2.4 and 6.2.4.1).

ghost use Rattle.std.specs.Prelude.{◌≡◌, IfOk};
ghost use Rattle.leb_cursor.specs.Ahead.{bytes_at};
ghost use Rattle.dwarf_lines.specs.Names.{with_value, paths, files_of, directory_of};
ghost use Rattle.dwarf_lines.specs.Reading.{Walks, WalksOver, field, text_in, other_value, value, entry, entries, entry_list};
ghost use Rattle.dwarf_lines.specs.Registers.{files_view, texts_view};
ghost use Rattle.dwarf_lines.specs.Views.{value_view, entry_view, entries_view, strings_view};

use crate::fields::{byte, text, unsigned};
use crate::forms::{DW_LNCT_DIRECTORY_INDEX, DW_LNCT_PATH, Form, Format, read_formats};
use crate::strings::{Strings, Texts};
use crate::{FileName, LineError, LineFault, LineKind};
use leb_cursor::Cursor;
use std::alloc::{AllocError, Global};

/// The value of a field.
#[derive(Clone, Copy, Drop)]
pub enum Value<'a> {
    /// A text.
    Text(&'a [u8]),
    /// A number.
    Number(u64),
    /// Bytes that are skipped.
    Other,
}

/// A directory or a file.
#[derive(Clone, Copy, Drop)]
pub struct Entry<'a> {
    /// The path of the entry (`DW_LNCT_path`).
    pub path: &'a [u8],
    /// The number of its directory.
    pub directory: Option<u64>,
}

/// Skips `count` bytes.
fn other<'a>(count: u64, cursor: &mut Cursor<'a>) -> Result<Value<'a>, LineFault>
    ensures { Walks value_view result cursor.new (other_value (field (bytes_at count cursor.old))) }
{
    cursor.take(count)?;
    Ok(Value::Other)
}

/// The text at the offset in the next four bytes.
fn text_in<'a>(texts: &Texts<'a>, cursor: &mut Cursor<'a>) -> Result<Value<'a>, LineFault>
    ensures { Walks value_view result cursor.new (text_in texts.now.bytes.now cursor.old) }
{
    let place = cursor.place();
    let at = cursor.word()?;
    match texts.text(at as u64) {
        Some(text) => Ok(Value::Text(text)),
        None => Err(LineFault {
            kind: LineKind::TextOut,
            place,
        }),
    }
}

/// A value of this form.
fn read_value<'a>(
    strings: &Strings<'a>,
    form: Form,
    cursor: &mut Cursor<'a>,
) -> Result<Value<'a>, LineFault>
    ensures { Walks value_view result cursor.new
        (value (strings_view strings.now) form cursor.old) }
{
    match form {
        Form::String => Ok(Value::Text(text(cursor)?)),
        Form::Strp => text_in(&strings.general, cursor),
        Form::LineStrp => text_in(&strings.line, cursor),
        Form::Data1 => Ok(Value::Number(cursor.byte()? as u64)),
        Form::Data2 => Ok(Value::Number(cursor.half()? as u64)),
        Form::Udata => Ok(Value::Number(unsigned(cursor)?)),
        Form::Data4 => other(4, cursor),
        Form::Data8 => other(8, cursor),
        Form::Data16 => other(16, cursor),
        Form::Block => {
            let size = unsigned(cursor)?;
            other(size, cursor)
        }
    }
}

/// The entry with one more value. Of several values with one content the last counts.
fn with_value<'a>(content: u64, value: Value<'a>, entry: Entry<'a>) -> Entry<'a>
    ensures { entry_view result
        ≡ with_value content (value_view value.entry) (entry_view entry.entry) }
{
    match value {
        Value::Text(path) if content == DW_LNCT_PATH => Entry { path, ..entry },
        Value::Number(number) if content == DW_LNCT_DIRECTORY_INDEX => Entry {
            directory: Some(number),
            ..entry
        },
        _ => entry,
    }
}

/// Reads an entry: a value for each format.
fn read_entry<'a>(
    strings: &Strings<'a>,
    formats: &[Format],
    cursor: &mut Cursor<'a>,
) -> Result<Entry<'a>, LineFault>
    ensures { Walks entry_view result cursor.new
        (entry (strings_view strings.now) formats.now cursor.old) }
{
    let mut entry = Entry {
        path: b"".as_slice(),
        directory: None,
    };
    for i in 0..formats.len() {
        let format = formats[i];
        let value = read_value(strings, format.form, cursor)?;
        entry = with_value(format.content, value, entry);
    }
    Ok(entry)
}

/// The next `count` entries.
fn read_entries<'a>(
    alloc: Global,
    count: u64,
    strings: &Strings<'a>,
    formats: &[Format],
    cursor: &mut Cursor<'a>,
) -> Result<Vec<Entry<'a>>, LineError>
    ensures { WalksOver (λ v. entries_view v.items) result cursor.new
        (entries count (strings_view strings.now) formats.now cursor.old) }
{
    let mut entries = Vec::new(alloc);
    for _ in 0..count {
        let next = read_entry(strings, formats, cursor)?;
        entries.push(next)?;
    }
    Ok(entries)
}

/// Formats with their count, and entries with theirs.
/// Err is the first wrong field, or out of memory.
#[tactic(auto, unfolding(crate::specs::Reading::entry_list))]
pub fn read_listed<'a>(
    alloc: Global,
    strings: &Strings<'a>,
    cursor: &mut Cursor<'a>,
) -> Result<Vec<Entry<'a>>, LineError>
    ensures { WalksOver (λ v. entries_view v.items) result cursor.new
        (entry_list (strings_view strings.now) cursor.old) }
{
    let format_count = byte(cursor)?;
    let formats = read_formats(alloc, format_count, cursor)?;
    let place = cursor.place();
    let count = unsigned(cursor)?;
    if format_count == 0 && count > 0 {
        return Err(LineError::Fault(LineFault {
            kind: LineKind::EmptyEntries,
            place,
        }));
    }
    read_entries(alloc, count, strings, formats.as_slice(), cursor)
}

/// The paths of the directories.
pub fn paths<'a>(alloc: Global, entries: &[Entry<'a>]) -> Result<Vec<&'a [u8]>, AllocError>
    ensures { IfOk result (λ v. texts_view v.items ≡ paths (entries_view entries.now)) }
{
    let mut paths = Vec::with_capacity(alloc, entries.len())?;
    for entry in entries {
        paths.push(entry.path)?;
    }
    Ok(paths)
}

/// The files with the paths of their directories.
pub fn files_of<'a>(
    alloc: Global,
    directories: &[&'a [u8]],
    entries: &[Entry<'a>],
) -> Result<Vec<FileName<'a>>, AllocError>
    ensures { IfOk result (λ v.
        files_view v.items ≡ files_of (texts_view directories.now) (entries_view entries.now)) }
{
    let mut files = Vec::with_capacity(alloc, entries.len())?;
    for entry in entries {
        files.push(FileName {
            directory: directory_of(directories, entry.directory),
            name: entry.path,
        })?;
    }
    Ok(files)
}

/// The directory of that number, counted from 0; the number 0 is that of no directory.
fn directory_of<'a>(directories: &[&'a [u8]], number: Option<u64>) -> &'a [u8]
    ensures { result.now ≡ directory_of (texts_view directories.now) number }
{
    match number {
        Some(number) if 0 < number && number < directories.len() as u64 => {
            directories[number as usize]
        }
        _ => b"".as_slice(),
    }
}
