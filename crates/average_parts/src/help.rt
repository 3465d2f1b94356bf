//! The help of the program.
ghost use Rattle.std.specs.Prelude.{◌≡◌};
ghost use Rattle.average_parts.specs.Program.{help_text};

/// The text that `coz-average --help` prints.
pub fn help_text() -> &'static [u8]
    ensures { result.now ≡ help_text }
{
    b"usage: coz-average [--] PROFILE...

Averages profiles of one program's lines on machines that differ in their seeds.

  PROFILE...       1 to 1,000 profiles that coz prints
  --               all words after it are profiles
  -h, --help       print this help
  -V, --version    print the version
"
}
