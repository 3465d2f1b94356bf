//! The fields of each directory and file in version 5 (DWARF 5, 6.2.4.1).

ghost use Rattle.std.specs.Prelude.{◌≡◌};
ghost use Rattle.dwarf_lines.specs.Names.{form_for};
ghost use Rattle.dwarf_lines.specs.Reading.{Walks, WalksOver, format, formats};

use crate::fields::unsigned;
use crate::{LineError, LineFault, LineKind};
use leb_cursor::Cursor;
use std::alloc::Global;

/// The content that is the path of a directory or a file (DWARF 5, 7.22).
pub const DW_LNCT_PATH: u64 = 1;
/// The content that is the number of a file's directory.
pub const DW_LNCT_DIRECTORY_INDEX: u64 = 2;

// The forms (DWARF 5, 7.5.6).

/// A number of two bytes.
const DW_FORM_DATA2: u64 = 0x05;
/// A number of four bytes.
const DW_FORM_DATA4: u64 = 0x06;
/// A number of eight bytes.
const DW_FORM_DATA8: u64 = 0x07;
/// A text that ends with a zero.
const DW_FORM_STRING: u64 = 0x08;
/// A length in LEB128, and as many bytes.
const DW_FORM_BLOCK: u64 = 0x09;
/// A number of one byte.
const DW_FORM_DATA1: u64 = 0x0B;
/// The offset of a text in `.debug_str`.
const DW_FORM_STRP: u64 = 0x0E;
/// A number in unsigned LEB128.
const DW_FORM_UDATA: u64 = 0x0F;
/// Sixteen bytes.
const DW_FORM_DATA16: u64 = 0x1E;
/// The offset of a text in `.debug_line_str`.
const DW_FORM_LINE_STRP: u64 = 0x1F;

/// The form of a value (DWARF 5, section 7.5.6).
#[derive(Clone, Copy)]
pub enum Form {
    /// A text in the entry itself, ended by a zero.
    String,
    /// The offset of a text in `.debug_str`, 4 bytes.
    Strp,
    /// The offset of a text in `.debug_line_str`, 4 bytes.
    LineStrp,
    /// A number of one byte.
    Data1,
    /// A number of two bytes.
    Data2,
    /// A number in unsigned LEB128.
    Udata,
    /// 4 bytes, skipped.
    Data4,
    /// 8 bytes, skipped.
    Data8,
    /// 16 bytes, skipped.
    Data16,
    /// A length in unsigned LEB128 and that many bytes, skipped.
    Block,
}

/// A field of each entry.
#[derive(Clone, Copy)]
pub struct Format {
    /// DW_LNCT_path (1), DW_LNCT_directory_index (2), or another content, which is skipped.
    pub content: u64,
    /// The form of the value.
    pub form: Form,
}

/// The form of that number, if the content may have it.
#[tactic(auto, unfolding(crate::specs::Names::form_for))]
fn form_for(content: u64, code: u64) -> Option<Form>
    ensures { result ≡ form_for content code }
{
    let (form, is_path, is_directory) = match code {
        DW_FORM_STRING => (Form::String, true, false),
        DW_FORM_STRP => (Form::Strp, true, false),
        DW_FORM_LINE_STRP => (Form::LineStrp, true, false),
        DW_FORM_DATA1 => (Form::Data1, false, true),
        DW_FORM_DATA2 => (Form::Data2, false, true),
        DW_FORM_DATA4 => (Form::Data4, false, false),
        DW_FORM_DATA8 => (Form::Data8, false, false),
        DW_FORM_DATA16 => (Form::Data16, false, false),
        DW_FORM_UDATA => (Form::Udata, false, true),
        DW_FORM_BLOCK => (Form::Block, false, false),
        _ => return None,
    };
    let is_allowed = match content {
        DW_LNCT_PATH => is_path,
        DW_LNCT_DIRECTORY_INDEX => is_directory,
        _ => true,
    };
    if is_allowed { Some(form) } else { None }
}

/// A content and its form.
fn read_format(cursor: &mut Cursor) -> Result<Format, LineFault>
    ensures { Walks (λ x. x) result cursor.new (format cursor.old) }
{
    let content = unsigned(cursor)?;
    let place = cursor.place();
    let code = unsigned(cursor)?;
    match form_for(content, code) {
        Some(form) => Ok(Format { content, form }),
        None => Err(LineFault {
            kind: LineKind::FormOut,
            place,
        }),
    }
}

/// The next `count` formats. Err is the first wrong field, or out of memory.
pub fn read_formats(alloc: Global, count: u8, cursor: &mut Cursor) -> Result<Vec<Format>, LineError>
    ensures { WalksOver (λ v. v.items) result cursor.new (formats count cursor.old) }
{
    let mut formats = Vec::new(alloc);
    for _ in 0..count {
        let next = read_format(cursor)?;
        formats.push(next)?;
    }
    Ok(formats)
}
