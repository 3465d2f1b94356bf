//! Profiles of a small program: what is printed of them, read and plotted.
use crate::calls::{Room, Setup, WIDE, check_call, one_file, over, printed, programs_of};
use crate::checks::Output;
use crate::sources::{ONE, Source};
use std::alloc::{AllocError, Global};
use std::process::Abort;
use std::test::Fail;
use std::thread::Threads;

static SOURCES: [Source; 1] = [("one.s", ONE)];

/// The profile of the first line with two speedups.
/// An independent implementation prints it.
const PROFILE: &[u8] =
    b"coz-ticks\tversion=1\tbudget=100000000\tpoints=0\nexperiment\tselected=one.s:1\tspeedup=0\tend=exited:0\ttime=4200\tdelay=0\tretired=3\tstarts=1\noutput\tlength=0\tsha256=e3b0c44298fc1c149afbf4c8996fb92427ae41e4649b934ca495991b7852b855\nvisits\tsha256=e3b0c44298fc1c149afbf4c8996fb92427ae41e4649b934ca495991b7852b855\nexperiment\tselected=one.s:1\tspeedup=50\tend=exited:0\ttime=4200\tdelay=50\tretired=3\tstarts=1\noutput\tlength=0\tsha256=e3b0c44298fc1c149afbf4c8996fb92427ae41e4649b934ca495991b7852b855\nvisits\tsha256=e3b0c44298fc1c149afbf4c8996fb92427ae41e4649b934ca495991b7852b855\n";

static WORDS: [&str; 5] = [
    "profile",
    "one",
    "--lines=one.s:1",
    "--speedups=50",
    "--workers=1",
];

/// Sinks with room for part of the profile.
static ROOMS: [Room; 4] = [
    Room {
        bytes: 0,
        fails: &[],
    },
    Room {
        bytes: 1,
        fails: &[],
    },
    Room {
        bytes: 100,
        fails: &[],
    },
    Room {
        bytes: 557,
        fails: &[],
    },
];

#[test]
fn a_full_output_holds_the_first_bytes_of_the_profile(rt: HostRuntime) -> Result<(), Fail> {
    let programs = programs_of(&rt, &SOURCES)?;
    let whole = (0, Output::Whole(PROFILE), b"".as_slice());
    check_call(&rt, &WORDS, &over(&programs), whole)?;
    for room in &ROOMS {
        let setup = Setup {
            rooms: (*room, WIDE),
            ..over(&programs)
        };
        let first = PROFILE.get(..room.bytes as usize).unwrap_or(PROFILE);
        let expected = (6, Output::Whole(first), b"coz: write\n".as_slice());
        check_call(&rt, &WORDS, &setup, expected)?;
    }
    Ok(())
}

/// An offset, the number of bytes there that are replaced, the bytes that replace them, and the exit
/// status and the error line of `plot` then.
type Damage = (usize, usize, &'static [u8], u8, &'static [u8]);

/// By hand, from docs/FORMATS.md, Profile text.
static DAMAGES: [Damage; 20] = [
    (0, 558, b"", 12, b"coz: profile: Head at 0\n"),
    (9, 549, b"", 12, b"coz: profile: Version at 9\n"),
    (10, 548, b"", 12, b"coz: profile: Version at 9\n"),
    (45, 513, b"", 12, b"coz: profile: Newline at 45\n"),
    (46, 512, b"", 0, b""),
    (60, 498, b"", 12, b"coz: profile: Selected at 56\n"),
    (27, 0, b"0", 12, b"coz: profile: Budget at 19\n"),
    (44, 1, b"65", 12, b"coz: profile: Points at 36\n"),
    (44, 1, b"1", 12, b"coz: profile: Point at 46\n"),
    (83, 0, b"0", 12, b"coz: profile: Speedup at 73\n"),
    (95, 1, b"256", 12, b"coz: profile: End at 83\n"),
    (102, 0, b"0", 12, b"coz: profile: Time at 96\n"),
    (113, 1, b"4201", 12, b"coz: profile: Delay at 106\n"),
    (157, 1, b"E", 12, b"coz: profile: Digest at 149\n"),
    (228, 0, b" ", 12, b"coz: profile: Visits at 222\n"),
    (82, 0, b"6", 12, b"coz: profile: Speedup at 329\n"),
    (72, 1, b"2", 12, b"coz: profile: Selected at 311\n"),
    (558, 0, b"x", 12, b"coz: profile: Experiment at 558\n"),
    (69, 1, b"%2e", 12, b"coz: profile: Selected at 56\n"),
    (72, 1, b"0", 12, b"coz: profile: Selected at 56\n"),
];

/// The profile with a change.
fn damaged(alloc: Global, damage: &Damage) -> Result<Vec<u8>, AllocError> {
    let (offset, count, bytes, _, _) = *damage;
    let mut changed = Vec::new(alloc);
    changed.extend_from_slice(PROFILE.get(..offset).unwrap_or(&[]))?;
    changed.extend_from_slice(bytes)?;
    changed.extend_from_slice(PROFILE.get(offset.saturating_add(count)..).unwrap_or(&[]))?;
    Ok(changed)
}

fn check_damage<R: Threads + Sync + AllocGlobal + Abort>(
    rt: &R,
    damage: &Damage,
) -> Result<(), Fail> {
    let changed = damaged(rt.alloc(), damage)?;
    let files = one_file(rt.alloc(), "p", &changed)?;
    let expected = (damage.3, Output::Whole(b""), damage.4);
    check_call(rt, &["plot", "p"], &over(&files), expected)
}

#[test]
fn damaged_profiles_are_rejected(rt: HostRuntime) -> Result<(), Fail> {
    for damage in &DAMAGES {
        check_damage(&rt, damage)?;
    }
    Ok(())
}

/// An independent implementation prints it.
const CURVES: &[u8] =
    b"curve\tpoint=0\tselected=one.s:3\tgain=9047\nstep\tspeedup=0\tvalue=0\tbar=\nstep\tspeedup=95\tvalue=9047\tbar=####################################\ncurve\tpoint=0\tselected=one.s:1\tgain=226\nstep\tspeedup=0\tvalue=0\tbar=\nstep\tspeedup=95\tvalue=226\tbar=\n";

static TWO_LINES: [&str; 5] = [
    "profile",
    "one",
    "--lines=one.s:1,one.s:3",
    "--speedups=95",
    "--progress=one.s:3",
];

/// A second read of the profile would fail.
#[test]
fn profiles_are_plotted(rt: HostRuntime) -> Result<(), Fail> {
    let programs = programs_of(&rt, &SOURCES)?;
    let profile = printed(&rt, &TWO_LINES, &programs)?;
    let files = one_file(rt.alloc(), "p", &profile)?;
    let setup = Setup {
        fails: &[1],
        ..over(&files)
    };
    let expected = (0, Output::Whole(CURVES), b"".as_slice());
    check_call(&rt, &["plot", "p"], &setup, expected)
}
