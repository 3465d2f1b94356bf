//! The help of the program.
ghost use Rattle.std.specs.Prelude.{◌≡◌};
ghost use Rattle.functions_cli.specs.Program.{help_text};

/// The text that `coz-functions --help` prints.
pub fn help_text() -> &'static [u8]
    ensures { result.now ≡ help_text }
{
    b"usage: coz-functions PROG [OPTION]...

Writes a program with a line table in which each function is one line.

  PROG              a static RV64IMA Linux program
  --keep LIST       lines that keep their addresses, with commas between them
  --regions LIST    regions PATH:FROM-TO that are one line each, with commas
  -h, --help        print this help
  -V, --version     print the version
"
}
