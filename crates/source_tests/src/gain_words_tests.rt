//! Tests of `gain_words`.
use coz_words::WordsError;
use gain_words::{GainRequest, read_gain};
use std::alloc::{AllocError, Global};
use std::test::Fail;
use timing_model::{Charge, Costs, Timing};

fn words_of(alloc: Global, texts: &[&str]) -> Result<Vec<String>, AllocError> {
    let mut words = Vec::new(alloc);
    for text in texts {
        words.push(String::from_str(alloc, *text)?)?;
    }
    Ok(words)
}

const COSTS: Costs = Costs {
    integer: 1,
    jump: 2,
    load: 3,
    multiply: 3,
    atomic: 8,
    divide: 20,
    ecall: 40,
};

const USUAL: Timing = Timing {
    cores: 256,
    slice: 100000,
    costs: COSTS,
    charge: Charge::Nobody,
    seed: 0,
};

/// The words, the budget and the machine. By hand, from docs/FORMATS.md.
static TAKEN: [(&[&str], u64, Timing); 9] = [
    (&["one"], 100000000, USUAL),
    (&["--", "one"], 100000000, USUAL),
    (
        &["one", "--cores", "1", "--slice", "1"],
        100000000,
        Timing {
            cores: 1,
            slice: 1,
            ..USUAL
        },
    ),
    (
        &[
            "--cores=256",
            "--slice=1000000000",
            "--budget=10000000000",
            "one",
        ],
        10000000000,
        Timing {
            slice: 1000000000,
            ..USUAL
        },
    ),
    (
        &["--costs=ecall=9", "one"],
        100000000,
        Timing {
            costs: Costs { ecall: 9, ..COSTS },
            ..USUAL
        },
    ),
    (
        &[
            "one",
            "--costs",
            "integer=2,jump=3,load=11,multiply=5,atomic=90,divide=41,ecall=10000",
        ],
        100000000,
        Timing {
            costs: Costs {
                integer: 2,
                jump: 3,
                load: 11,
                multiply: 5,
                atomic: 90,
                divide: 41,
                ecall: 10000,
            },
            ..USUAL
        },
    ),
    (
        &["one", "--charge", "last", "--seed=18446744073709551615"],
        100000000,
        Timing {
            charge: Charge::Last,
            seed: 18446744073709551615,
            ..USUAL
        },
    ),
    (
        &["--charge=none", "--seed", "0", "one", "--workers=2"],
        100000000,
        USUAL,
    ),
    (
        &["--lines", "a:1", "--seed=7", "--input", "in", "one"],
        100000000,
        Timing { seed: 7, ..USUAL },
    ),
];

fn is_wanted(request: &GainRequest, budget: u64, timing: Timing) -> bool {
    request.profile.budget == budget && request.timing == timing
}

#[test]
fn valid_arguments_are_taken(rt: HostRuntime) -> Result<(), Fail> {
    let alloc = rt.alloc();
    for (texts, budget, timing) in TAKEN {
        let words = words_of(alloc, texts)?;
        let is_taken = match read_gain(alloc, words.as_slice()) {
            Ok(request) => is_wanted(&request, budget, timing),
            Err(_) => false,
        };
        assert!(rt; is_taken, "{texts:?}");
    }
    Ok(())
}

/// By hand, from docs/FORMATS.md.
static REFUSED: [&[&str]; 24] = [
    &[],
    &["--cores", "1"],
    &["one", "--cores"],
    &["one", "--cores", "0"],
    &["one", "--cores", "257"],
    &["one", "--cores", "+1"],
    &["one", "--cores=1", "--cores=1"],
    &["one", "--slice", "0"],
    &["one", "--slice", "1000000001"],
    &["one", "--costs", ""],
    &["one", "--costs", "ecall"],
    &["one", "--costs", "ecall=0"],
    &["one", "--costs", "ecall=10001"],
    &["one", "--costs", "branch=2"],
    &["one", "--costs", "load=2,load=2"],
    &["one", "--costs", "load=2,"],
    &["one", "--costs=load=2", "--costs=jump=2"],
    &["one", "--charge", "first"],
    &["one", "--seed", "18446744073709551616"],
    &["one", "--seed", "--charge=last"],
    &["one", "--budget", "10000000001"],
    &["one", "--speedups", "96"],
    &["one", "--line", "one.s:12"],
    &["one", "--core", "1"],
];

#[test]
fn invalid_arguments_are_rejected(rt: HostRuntime) -> Result<(), Fail> {
    let alloc = rt.alloc();
    for texts in REFUSED {
        let words = words_of(alloc, texts)?;
        let is_refused = match read_gain(alloc, words.as_slice()) {
            Ok(_) => false,
            Err(error) => error == WordsError::Usage,
        };
        assert!(rt; is_refused, "{texts:?}");
    }
    Ok(())
}
