//! The help of the program.
ghost use Rattle.std.specs.Prelude.{◌≡◌};
ghost use Rattle.gain_cli.specs.Program.{help_text};

/// The text that `coz-gain --help` prints.
pub fn help_text() -> &'static [u8]
    ensures { result.now ≡ help_text }
{
    b"usage: coz-gain PROG [OPTION]...

Prints the profile of a program on a machine of other costs, cores or jitter.

  PROG               a static RV64IMA Linux program
  --input FILE       the standard input of the program
  --lines LIST       the lines to select, with commas between them
  --speedups LIST    the speedups in percent, with commas between them
  --progress LIST    the progress points, with commas between them
  --budget N         the greatest number of instructions to retire in a run
  --workers W        the number of threads
  --cores C          the number of cores, 1 to 256
  --slice Q          the cycles of a slice, 1 to 1000000000
  --costs LIST       the cycles of classes, such as load=9,ecall=1000
  --charge WHOM      instructions without a line count for nobody (none), or
                     for the last line before them (last)
  --seed S           the seed of the jitter, 0 for none
  -h, --help         print this help
  -V, --version      print the version
"
}
