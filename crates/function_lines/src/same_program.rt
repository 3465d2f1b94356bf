//! Whether two files load as the same program.

ghost use Rattle.std.specs.Prelude.{◌≡◌, ◌≤◌, ◌+◌, length, All};
ghost use Rattle.coz_types.specs.Image.{IsAreaOf};
ghost use Rattle.function_lines.specs.SameProgram.{are_same_rights, are_same_areas, bytes_in, is_same_area, is_same_image, is_same_program};

use coz_types::{Area, Image, Rights};

fn same_rights(rights: Rights, other: Rights) -> bool
    ensures { result ≡ are_same_rights rights other }
{
    rights.read == other.read && rights.write == other.write && rights.execute == other.execute
}

/// The bytes of the file that fill an area.
fn bytes_in<'a>(file: &'a [u8], area: &Area) -> &'a [u8]
    requires { IsAreaOf file.now area.now }
    ensures { result.now ≡ bytes_in file.now area.now }
{
    let rest = &file[area.offset as usize..];
    &rest[..area.filled as usize]
}

fn same_area(file: &[u8], other: &[u8], area: &Area, copy: &Area) -> bool
    requires area { IsAreaOf file.now area.now }
    requires copy { IsAreaOf other.now copy.now }
    ensures { result ≡ is_same_area file.now other.now area.now copy.now }
{
    area.start == copy.start
        && area.size == copy.size
        && same_rights(area.rights, copy.rights)
        && area.vaddr == copy.vaddr
        && area.filled == copy.filled
        && bytes_in(file, area) == bytes_in(other, copy)
}

fn same_areas(file: &[u8], other: &[u8], areas: &[Area], copies: &[Area]) -> bool
    requires areas { All (IsAreaOf file.now) areas.now }
    requires copies { All (IsAreaOf other.now) copies.now }
    ensures { result ≡ are_same_areas file.now other.now areas.now copies.now }
{
    if areas.len() != copies.len() {
        return false;
    }
    for index in 0..areas.len() {
        if !same_area(file, other, &areas[index], &copies[index]) {
            return false;
        }
    }
    true
}

/// Whether two images are of the same program: each area has the same pages, rights and bytes.
pub fn same_image(image: &Image, other: &Image) -> bool
    ensures { result ≡ is_same_image image.now other.now }
{
    image.entry() == other.entry()
        && image.headers() == other.headers()
        && image.header_count() == other.header_count()
        && same_areas(image.file(), other.file(), image.areas(), other.areas())
}
