//! Files that have as many bytes as they may have, and one more.
use crate::calls::{ONE_SOURCE, assembled, check_call};
use crate::large::Large;
use crate::programs::Limit;
use std::test::Fail;

/// What `run` prints of the program of three instructions.
const ONE: &[u8] =
    b"end exited:0\ntime 4200\ndelay 0\nnet 4200\nretired 3\nstarts 0\nhart 0 own 0 paused 0 credited 0\noutput 0\n\n";

const LONG: &[u8] = b"coz: long: big\n";

/// Zeros are no program, no source and no profile.
/// By hand, from docs/FORMATS.md, Commands and Exit statuses.
static LIMITS: [Limit; 8] = [
    (&["run", "one", "--input=big"], 16_777_216, 0, ONE, b""),
    (&["run", "one", "--input=big"], 16_777_217, 8, b"", LONG),
    (
        &["run", "big"],
        33_554_432,
        3,
        b"",
        b"coz: program: NotElf at 0\n",
    ),
    (&["run", "big"], 33_554_433, 8, b"", LONG),
    (
        &["asm", "big"],
        4_194_304,
        11,
        b"",
        b"coz: source: Byte at line 1 column 1\n",
    ),
    (&["asm", "big"], 4_194_305, 8, b"", LONG),
    (
        &["plot", "big"],
        268_435_456,
        12,
        b"",
        b"coz: profile: Head at 0\n",
    ),
    (&["plot", "big"], 268_435_457, 8, b"", LONG),
];

#[test]
fn one_byte_over_the_limit_is_too_long(rt: HostRuntime) -> Result<(), Fail> {
    let one = assembled(&rt, "one.s", ONE_SOURCE)?;
    for (words, size, status, out, err) in &LIMITS {
        let mut files = Large {
            size: *size,
            bytes: one.as_slice(),
        };
        check_call(&rt, *words, &mut files, (*status, *out, *err))?;
    }
    Ok(())
}
