//! The help of the program.
ghost use Rattle.std.specs.Prelude.{◌≡◌};
ghost use Rattle.join_parts.specs.Program.{help_text};

/// The text that `coz-join --help` prints.
pub fn help_text() -> &'static [u8]
    ensures { result.now ≡ help_text }
{
    b"usage: coz-join [--] PROFILE...

Joins profiles of disjoint parts of a program's lines, and prints the profile of all.

  PROFILE...       profiles that coz prints
  --               all words after it are profiles
  -h, --help       print this help
  -V, --version    print the version
"
}
