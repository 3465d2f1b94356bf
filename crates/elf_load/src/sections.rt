//! Sections by their names.

ghost use Rattle.std.specs.Prelude.{◌≡◌, ◌≤◌, ◌+◌, ◌&&◌, length, find, IfSome};
ghost use Rattle.std.specs.Option.{option_copied};
ghost use Rattle.elf_load.specs.Faults.{HasHeaders};
ghost use Rattle.elf_load.specs.Loaded.{section};
ghost use Rattle.elf_load.specs.Tables.{has_bytes, is_named, sections};

use crate::codes::E_SHNUM;
use crate::faults::has_name;
use crate::fields::half_at;
use crate::tables::{Section, bytes_of, names, nth_section};

/// The header of the first section of that name. None if there is none.
#[tactic(auto, using(crate::proofs::Rows::room, crate::proofs::Rows::section_fits))]
pub fn named_section(file: &[u8], name: &[u8]) -> Option<Section>
    requires { HasHeaders file.now }
    ensures found { result
        ≡ find (λ s. has_bytes s && is_named file.now name.now s) (sections file.now) }
    ensures within { IfSome result (λ s. s.place + 64 ≤ length file.now) }
{
    let names = names(file);
    for index in 0..half_at(file, E_SHNUM) {
        let section = nth_section(file, index);
        if section.has_bytes() && has_name(names, name, &section) {
            return Some(section);
        }
    }
    None
}

/// The bytes of the first section of that name. None if there is none.
#[tactic(auto, unfolding(crate::specs::Loaded::section))]
pub fn section_of<'a>(file: &'a [u8], name: &[u8]) -> Option<&'a [u8]>
    requires { HasHeaders file.now }
    ensures { option_copied result ≡ section file.now name.now }
{
    match named_section(file, name) {
        Some(section) => Some(bytes_of(file, &section)),
        None => None,
    }
}
