//! The help of the program.
ghost use Rattle.std.specs.Prelude.{◌≡◌};
ghost use Rattle.hot_cli.specs.Program.{help_text};

/// The text that `coz-hot --help` prints.
pub fn help_text() -> &'static [u8]
    ensures { result.now ≡ help_text }
{
    b"usage: coz-hot PROG [OPTION]...

Runs a program once, and prints its lines by falling cost.

  PROG               a static RV64IMA Linux program
  --input FILE       the standard input of the program
  --budget N         the greatest number of instructions to retire
  --progress LIST    the progress points, with commas between them
  --top N            the greatest number of lines to print
  --names            print the labels alone
  -h, --help         print this help
  -V, --version      print the version
"
}
