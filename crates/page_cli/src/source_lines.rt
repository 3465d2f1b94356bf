//! The text of a line: a line of its source file.
ghost use Rattle.std.specs.Prelude.{◌≡◌, ◌∷◌, [], ◌<◌, ◌≤◌, false, length, get_or, IfSome};
ghost use Rattle.std.specs.List.{AllWithin, position_or_len};
ghost use Rattle.std.specs.Option.{option_copied};
ghost use Rattle.coz_files.specs.InMemory.{entries};
ghost use Rattle.page_values.specs.Sources.{look_up};
ghost use Rattle.page_cli.specs.Lines.{is_newline, lines_in, lines_left, line_beside, line_in};

use crate::label_parts::{number_of, path_of};
use coz_files::HeldFile;
use page_values::look_up;

/// The most bytes of a line that are shown.
const MAX_SHOWN_LINE: usize = 120;

/// The index of the first newline, or the length if there is none.
fn first_newline(text: &[u8]) -> usize
    ensures place { result ≡ position_or_len is_newline text.now }
    ensures before { AllWithin (λ b. is_newline b ≡ false) text.now 0 result }
{
    let mut place = 0;
    while place < text.len() && text[place] != b'\n' {
        place += 1;
    }
    place
}

/// The first line of a text, and the bytes after its newline, if there is one.
fn first_line(text: &[u8]) -> (&[u8], Option<&[u8]>)
    ensures lines { lines_in text.now ≡ result.0.now ∷ lines_left (option_copied result.1) }
    ensures shorter { IfSome result.1 (λ rest. length rest.now < length text.now) }
{
    let place = first_newline(text);
    if place < text.len() {
        (&text[..place], Some(&text[place + 1..]))
    } else {
        (text, None)
    }
}

/// The line at an index of a text, or no bytes if there are fewer lines.
fn line_at(text: &[u8], index: u64) -> &[u8]
    ensures { result.now ≡ get_or (lines_in text.now) index [] }
{
    let mut left = Some(text);
    let mut ahead = index;
    while let Some(rest) = left {
        let (line, more) = first_line(rest);
        if ahead == 0 {
            return line;
        }
        ahead -= 1;
        left = more;
    }
    b""
}

fn line_in(text: &[u8], number: u64) -> &[u8]
    ensures { result.now ≡ line_in number text.now }
{
    if number == 0 {
        return b"";
    }
    line_at(text, number - 1)
}

/// Returns the line of a label in the file of its path, if that is among the files: at most its
/// first 120 bytes, and no bytes if there is no such file or line.
pub fn line_of<'a>(files: &'a [HeldFile], label: &[u8]) -> &'a [u8]
    ensures { result.now ≡ line_beside (look_up (entries files.now)) label.now }
{
    let line = line_in(look_up(files, path_of(label)), number_of(label));
    &line[..MAX_SHOWN_LINE.min(line.len())]
}
