//! The help and the version of the programs.
use crate::programs::{Fault, Program, Row, check_faults, check_rows};
use crate::sinks::{SHUT, TEN, WIDE};
use std::test::Fail;

const FUNCTIONS: &[u8] = b"usage: coz-functions PROG [OPTION]...

Writes a program with a line table in which each function is one line.

  PROG              a static RV64IMA Linux program
  --keep LIST       lines that keep their addresses, with commas between them
  --regions LIST    regions PATH:FROM-TO that are one line each, with commas
  -h, --help        print this help
  -V, --version     print the version
";

const GAIN: &[u8] = b"usage: coz-gain PROG [OPTION]...

Prints the profile of a program on a machine of other costs, cores or jitter.

  PROG               a static RV64IMA Linux program
  --input FILE       the standard input of the program
  --lines LIST       the lines to select, with commas between them
  --speedups LIST    the speedups in percent, with commas between them
  --progress LIST    the progress points, with commas between them
  --budget N         the greatest number of instructions to retire in a run
  --workers W        the number of threads
  --cores C          the number of cores, 1 to 256
  --slice Q          the cycles of a slice, 1 to 1000000000
  --costs LIST       the cycles of classes, such as load=9,ecall=1000
  --charge WHOM      instructions without a line count for nobody (none), or
                     for the last line before them (last)
  --seed S           the seed of the jitter, 0 for none
  -h, --help         print this help
  -V, --version      print the version
";

const HOT: &[u8] = b"usage: coz-hot PROG [OPTION]...

Runs a program once, and prints its lines by falling cost.

  PROG               a static RV64IMA Linux program
  --input FILE       the standard input of the program
  --budget N         the greatest number of instructions to retire
  --progress LIST    the progress points, with commas between them
  --top N            the greatest number of lines to print
  --names            print the labels alone
  -h, --help         print this help
  -V, --version      print the version
";

const JOIN: &[u8] = b"usage: coz-join [--] PROFILE...

Joins profiles of disjoint parts of a program's lines, and prints the profile of all.

  PROFILE...       profiles that coz prints
  --               all words after it are profiles
  -h, --help       print this help
  -V, --version    print the version
";

const PAGE: &[u8] = b"usage: coz-page PROFILE [OPTION]...

Writes an HTML page with the curves of a profile.

  PROFILE           a profile that coz prints
  --top N           the greatest number of lines in each table, 1 to 1000
  --file PATTERN    the lines whose path begins or ends with PATTERN
  --source DIR      show the text of the lines from the files below DIR
  --title TEXT      the title of the page, such as the program and its input
  --link PATH       a link to another page of the same program
  -h, --help        print this help
  -V, --version     print the version
";

/// The words of `coz-functions`.
static FUNCTIONS_ROWS: [Row; 9] = [
    (&["--help"], 0, FUNCTIONS, b""),
    (&["-h"], 0, FUNCTIONS, b""),
    (&["--help", "--version", "--"], 0, FUNCTIONS, b""),
    (&["--version"], 0, b"coz-functions 0.4.0\n", b""),
    (&["-V"], 0, b"coz-functions 0.4.0\n", b""),
    (&["-V", "absent"], 0, b"coz-functions 0.4.0\n", b""),
    (&["-v"], 2, b"", b"coz-functions: usage\n"),
    (&["--hel"], 2, b"", b"coz-functions: usage\n"),
    (&["--help="], 2, b"", b"coz-functions: usage\n"),
];

/// The words of `coz-gain`.
static GAIN_ROWS: [Row; 9] = [
    (&["--help"], 0, GAIN, b""),
    (&["-h"], 0, GAIN, b""),
    (&["--help", "--version", "--"], 0, GAIN, b""),
    (&["--version"], 0, b"coz-gain 0.4.0\n", b""),
    (&["-V"], 0, b"coz-gain 0.4.0\n", b""),
    (&["-V", "absent"], 0, b"coz-gain 0.4.0\n", b""),
    (&["-v"], 2, b"", b"coz: usage\n"),
    (&["--hel"], 2, b"", b"coz: usage\n"),
    (&["--help="], 2, b"", b"coz: usage\n"),
];

/// The words of `coz-hot`.
static HOT_ROWS: [Row; 9] = [
    (&["--help"], 0, HOT, b""),
    (&["-h"], 0, HOT, b""),
    (&["--help", "--version", "--"], 0, HOT, b""),
    (&["--version"], 0, b"coz-hot 0.4.0\n", b""),
    (&["-V"], 0, b"coz-hot 0.4.0\n", b""),
    (&["-V", "absent"], 0, b"coz-hot 0.4.0\n", b""),
    (&["-v"], 2, b"", b"coz-hot: usage\n"),
    (&["--hel"], 2, b"", b"coz-hot: usage\n"),
    (&["--help="], 2, b"", b"coz-hot: usage\n"),
];

/// The words of `coz-join`.
static JOIN_ROWS: [Row; 9] = [
    (&["--help"], 0, JOIN, b""),
    (&["-h"], 0, JOIN, b""),
    (&["--help", "--version", "--"], 0, JOIN, b""),
    (&["--version"], 0, b"coz-join 0.4.0\n", b""),
    (&["-V"], 0, b"coz-join 0.4.0\n", b""),
    (&["-V", "absent"], 0, b"coz-join 0.4.0\n", b""),
    (&["-v"], 2, b"", b"coz-join: usage\n"),
    (&["--hel"], 2, b"", b"coz-join: usage\n"),
    (&["--help="], 2, b"", b"coz-join: usage\n"),
];

/// The words of `coz-page`.
static PAGE_ROWS: [Row; 9] = [
    (&["--help"], 0, PAGE, b""),
    (&["-h"], 0, PAGE, b""),
    (&["--help", "--version", "--"], 0, PAGE, b""),
    (&["--version"], 0, b"coz-page 0.4.0\n", b""),
    (&["-V"], 0, b"coz-page 0.4.0\n", b""),
    (&["-V", "absent"], 0, b"coz-page 0.4.0\n", b""),
    (&["-v"], 2, b"", b"coz-page: usage\n"),
    (&["--hel"], 2, b"", b"coz-page: usage\n"),
    (&["--help="], 2, b"", b"coz-page: usage\n"),
];

#[test]
fn the_first_argument_asks_for_help_or_version(rt: HostRuntime) -> Result<(), Fail> {
    check_rows(&rt, Program::Functions, &[], &FUNCTIONS_ROWS)?;
    check_rows(&rt, Program::Gain, &[], &GAIN_ROWS)?;
    check_rows(&rt, Program::Hot, &[], &HOT_ROWS)?;
    check_rows(&rt, Program::Join, &[], &JOIN_ROWS)?;
    check_rows(&rt, Program::Page, &[], &PAGE_ROWS)
}

/// An output that fails.
static FAULTS: [Fault; 3] = [
    (&["--help"], &[], (SHUT, WIDE), 6, b"", b"coz-hot: write\n"),
    (
        &["--version"],
        &[],
        (TEN, WIDE),
        6,
        b"coz-hot 0.",
        b"coz-hot: write\n",
    ),
    (&["--help"], &[], (SHUT, SHUT), 6, b"", b""),
];

#[test]
fn a_help_that_is_not_written_is_a_fault(rt: HostRuntime) -> Result<(), Fail> {
    check_faults(&rt, Program::Hot, &[], &FAULTS)
}
