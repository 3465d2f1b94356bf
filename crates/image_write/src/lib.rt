//! Writes what was assembled as an ELF file with a line unit.
#![tactic(auto)]

mod headers;
mod unit;

ghost use Rattle.std.specs.Prelude.{◌≡◌, ◌<◌, ◌≤◌, ◌-◌, ◌^◌, ◌++◌, length, replicate, nat_lt, IfOk, Ok, Some, codes};
ghost use Rattle.elf_load.specs.Loaded.{load_answer, section};
ghost use Rattle.rv_asm.specs.Assembled.{IsProgram, view};
ghost use Rattle.image_write.specs.File.{IsWritable, IsName, IsVersion, filled_up, file_header, segments, headers_place, segment_count, front, file_with, written_file};
ghost use Rattle.image_write.specs.Image.{image_of};
ghost use Rattle.image_write.specs.Unit.{unit};
ghost use Rattle.image_write.specs.Lines.{HasLines, read_table, table_of};

use coz_types::PAGE;
use headers::{
    NAMES, file_header, headers_place, names_end, push_sections, push_segments, segment_count,
    text_room,
};
use rv_asm::Assembled;
use std::alloc::{AllocError, Global};
use unit::unit;

/// Appends `count` zeros.
fn push_zeros(out: &mut Vec<u8>, count: u32) -> Result<(), AllocError>
    ensures { IfOk result (λ _. out.new.items ≡ out.old.items ++ replicate count 0) }
{
    let length = out.len();
    out.resize(length + count as usize, 0)
}

/// The bytes, followed by zeros up to this length.
fn push_filled_up(out: &mut Vec<u8>, room: u32, bytes: &[u8]) -> Result<(), AllocError>
    requires { length bytes.now ≤ room }
    ensures { IfOk result (λ _. out.new.items ≡ out.old.items ++ filled_up room bytes.now) }
{
    out.extend_from_slice(bytes)?;
    push_zeros(out, (room as usize - bytes.len()) as u32)?;
    Ok(())
}

/// The header of the file and those of its segments.
fn both_headers(alloc: Global, assembled: &Assembled, unit: &[u8]) -> Result<Vec<u8>, AllocError>
    requires writable { IsWritable (view assembled.now) }
    requires unit { length unit.now < 2 ^ 33 }
    ensures { IfOk result (λ v.
        v.items ≡ file_header assembled.now.entry (headers_place unit.now (view assembled.now))
        (segment_count (view assembled.now)) ++ segments (view assembled.now)) }
{
    let offset = headers_place(assembled, unit);
    let mut out = file_header(alloc, assembled.entry, offset, segment_count(assembled))?;
    push_segments(&mut out, assembled)?;
    Ok(out)
}

/// The bytes of the file before the text.
#[tactic(auto, unfolding(crate::specs::File::front))]
fn front(alloc: Global, assembled: &Assembled, unit: &[u8]) -> Result<Vec<u8>, AllocError>
    requires writable { IsWritable (view assembled.now) }
    requires unit { length unit.now < 2 ^ 33 }
    ensures { IfOk result (λ v. v.items ≡ front unit.now (view assembled.now)) }
{
    let headers = both_headers(alloc, assembled, unit)?;
    let mut out = Vec::new(alloc);
    push_filled_up(&mut out, PAGE as u32, headers.as_slice())?;
    Ok(out)
}

/// The file with this line unit.
#[tactic(auto, unfolding(crate::specs::File::file_with))]
fn file_with(alloc: Global, assembled: &Assembled, unit: &[u8]) -> Result<Vec<u8>, AllocError>
    requires writable { IsWritable (view assembled.now) }
    requires unit { length unit.now < 2 ^ 33 }
    ensures { IfOk result (λ v. v.items ≡ file_with unit.now (view assembled.now)) }
{
    let room = text_room(assembled) as u32;
    let gap = headers_place(assembled, unit) - names_end(assembled, unit);
    let mut out = front(alloc, assembled, unit)?;
    push_filled_up(&mut out, room, assembled.text.as_slice())?;
    out.extend_from_slice(assembled.content.as_slice())?;
    out.extend_from_slice(unit)?;
    out.extend_from_slice(&NAMES)?;
    push_zeros(&mut out, gap as u32)?;
    push_sections(&mut out, assembled, unit)?;
    Ok(out)
}

/// Returns the ELF file that loads as what was assembled, with a line table of DWARF version 4
/// or 5 (`version`) in its section `.debug_line`. By this table each word of the text has the
/// line of its statement, in the source called `name`. Fails only if memory runs out.
#[tactic(auto, unfolding(crate::specs::File::written_file))]
pub fn write_elf(
    alloc: Global,
    assembled: &Assembled,
    name: &[u8],
    version: u8,
) -> Result<Vec<u8>, AllocError>
    requires writable { IsWritable (view assembled.now) }
    requires named { IsName name.now }
    requires version { IsVersion version }
    ensures bytes { IfOk result (λ v.
        v.items ≡ written_file (view assembled.now) name.now version) }
    ensures loads { IsProgram (view assembled.now)
        → IfOk result (λ v. load_answer v.items ≡ Ok (image_of (view assembled.now) v.items)) }
    ensures line_unit { IsProgram (view assembled.now)
        → IfOk result (λ v. section v.items (codes ".debug_line")
        ≡ Some (unit (view assembled.now).lines name.now version)) }
    ensures table { IsProgram (view assembled.now) → IfOk result (λ v.
        read_table v.items ≡ Some (Ok (table_of (view assembled.now).lines name.now version))) }
    ensures lines { IsProgram (view assembled.now)
        → IfOk result (λ v. HasLines (view assembled.now) name.now v.items) }
{
    let unit = unit(alloc, assembled.lines.as_slice(), name, version)?;
    file_with(alloc, assembled, unit.as_slice())
}
