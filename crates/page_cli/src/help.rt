//! The help of the program.
ghost use Rattle.std.specs.Prelude.{◌≡◌};
ghost use Rattle.page_cli.specs.Serve.{help_text};

/// The text that `coz-page --help` prints.
pub fn help_text() -> &'static [u8]
    ensures { result.now ≡ help_text }
{
    b"usage: coz-page PROFILE [OPTION]...

Writes an HTML page with the curves of a profile.

  PROFILE           a profile that coz prints
  --top N           the greatest number of lines in each table, 1 to 1000
  --file PATTERN    the lines whose path begins or ends with PATTERN
  --source DIR      show the text of the lines from the files below DIR
  --title TEXT      the title of the page, such as the program and its input
  --link PATH       a link to another page of the same program
  -h, --help        print this help
  -V, --version     print the version
"
}
