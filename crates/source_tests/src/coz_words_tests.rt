//! Tests of `coz_words`.
use coz_words::{Command, Request, Word, WordsError, read_words};
use std::alloc::{AllocError, Global};
use std::test::Fail;

fn words_of(alloc: Global, texts: &[&str]) -> Result<Vec<String>, AllocError> {
    let mut words = Vec::new(alloc);
    for text in texts {
        words.push(String::from_str(alloc, *text)?)?;
    }
    Ok(words)
}

/// What a request's fields are to be; the others are to be `None`, 0 or empty.
#[derive(Clone, Copy)]
struct Wanted {
    command: Command,
    target: &'static str,
    input: Option<&'static str>,
    line: Option<&'static str>,
    speedup: u8,
    lines: Option<&'static str>,
    progress: Option<&'static str>,
    speedups: &'static [u8],
    budget: u64,
    workers: u32,
    seed: u64,
    size: u32,
    dwarf: u8,
    arrive: Option<&'static str>,
    depart: Option<&'static str>,
}

const RUN: Wanted = Wanted {
    command: Command::Run,
    target: "one",
    input: None,
    line: None,
    speedup: 0,
    lines: None,
    progress: None,
    speedups: &[],
    budget: 100000000,
    workers: 0,
    seed: 0,
    size: 0,
    dwarf: 0,
    arrive: None,
    depart: None,
};

const PROFILE: Wanted = Wanted {
    command: Command::Profile,
    speedups: &[
        0, 5, 10, 15, 20, 25, 30, 35, 40, 45, 50, 55, 60, 65, 70, 75, 80, 85, 90, 95,
    ],
    workers: 4,
    ..RUN
};

const PLAIN: Wanted = Wanted { budget: 0, ..RUN };

const ASM: Wanted = Wanted {
    command: Command::Asm,
    dwarf: 4,
    ..PLAIN
};

const TRIAL: Wanted = Wanted {
    command: Command::Trial,
    target: "1",
    workers: 4,
    seed: 1,
    size: 100,
    ..PLAIN
};

const LATENCY: Wanted = Wanted {
    command: Command::Latency,
    line: Some("one.s:1"),
    workers: 0,
    arrive: Some("one.s:1,one.s:2"),
    depart: Some("one.s:3"),
    ..PROFILE
};

/// By hand, from docs/FORMATS.md: Commands, Syntax of arguments, and Values.
static TAKEN: [(&[&str], Wanted); 32] = [
    (&["run", "one"], RUN),
    (&["run", "--", "one"], RUN),
    (&["run", "one", "--"], RUN),
    (&["run", "--budget=3", "one"], Wanted { budget: 3, ..RUN }),
    (
        &["run", "--", "--"],
        Wanted {
            target: "--",
            ..RUN
        },
    ),
    (
        &["run", "one", "--input=-x"],
        Wanted {
            input: Some("-x"),
            ..RUN
        },
    ),
    (&["run", "-"], Wanted { target: "-", ..RUN }),
    (
        &["run", "one", "--input", "-"],
        Wanted {
            input: Some("-"),
            ..RUN
        },
    ),
    (
        &["run", "one", "--input=="],
        Wanted {
            input: Some("="),
            ..RUN
        },
    ),
    (
        &["run", "one", "--input=a=b"],
        Wanted {
            input: Some("a=b"),
            ..RUN
        },
    ),
    (
        &["run", "one", "--budget=00000000000000000003"],
        Wanted { budget: 3, ..RUN },
    ),
    (
        &["run", "one", "--budget", "1000000000000"],
        Wanted {
            budget: 1000000000000,
            ..RUN
        },
    ),
    (
        &["run", "one", "--line", "a b:c:007"],
        Wanted {
            line: Some("a b:c:007"),
            ..RUN
        },
    ),
    (
        &["run", "--speedup", "95", "one", "--line=a:4294967295"],
        Wanted {
            line: Some("a:4294967295"),
            speedup: 95,
            ..RUN
        },
    ),
    (
        &["run", "one", "--progress", "a:1,b:2,a:1"],
        Wanted {
            progress: Some("a:1,b:2,a:1"),
            ..RUN
        },
    ),
    (
        &[
            "really",
            "--progress=b:2",
            "--line",
            "a:1",
            "one",
            "--speedup=5",
            "--budget",
            "9",
            "--input=data",
        ],
        Wanted {
            command: Command::Really,
            input: Some("data"),
            line: Some("a:1"),
            speedup: 5,
            progress: Some("b:2"),
            budget: 9,
            ..RUN
        },
    ),
    (&["profile", "one"], PROFILE),
    (
        &[
            "profile",
            "--speedups=50,5,50",
            "one",
            "--lines",
            "a:1,b:2",
            "--progress",
            "c:3",
            "--budget=1000",
            "--input",
            "data",
            "--workers=16",
        ],
        Wanted {
            input: Some("data"),
            lines: Some("a:1,b:2"),
            progress: Some("c:3"),
            speedups: &[50, 5, 50],
            budget: 1000,
            workers: 16,
            ..PROFILE
        },
    ),
    (
        &["lines", "one"],
        Wanted {
            command: Command::Lines,
            ..PLAIN
        },
    ),
    (
        &["lines", "one", "--"],
        Wanted {
            command: Command::Lines,
            ..PLAIN
        },
    ),
    (
        &["lines", "--", "-one"],
        Wanted {
            command: Command::Lines,
            target: "-one",
            ..PLAIN
        },
    ),
    (
        &["plot", "--", "-one"],
        Wanted {
            command: Command::Plot,
            target: "-one",
            ..PLAIN
        },
    ),
    (&["asm", "one"], ASM),
    (&["asm", "--", "one"], ASM),
    (&["asm", "-"], Wanted { target: "-", ..ASM }),
    (&["asm", "one", "--dwarf", "5"], Wanted { dwarf: 5, ..ASM }),
    (&["asm", "--dwarf=05", "one"], Wanted { dwarf: 5, ..ASM }),
    (&["trial", "1"], TRIAL),
    (
        &["trial", "00000000000000000001", "--size", "2000"],
        Wanted {
            target: "00000000000000000001",
            size: 2000,
            ..TRIAL
        },
    ),
    (
        &["trial", "--workers=16", "18446744073709551615", "--size=1"],
        Wanted {
            target: "18446744073709551615",
            workers: 16,
            seed: 18446744073709551615,
            size: 1,
            ..TRIAL
        },
    ),
    (
        &[
            "latency",
            "one",
            "--line=one.s:1",
            "--arrive=one.s:1,one.s:2",
            "--depart=one.s:3",
        ],
        LATENCY,
    ),
    (
        &[
            "latency",
            "--depart",
            "one.s:3",
            "--speedups=50,5",
            "--arrive",
            "one.s:1,one.s:2",
            "--input=data",
            "--budget=9",
            "--line",
            "one.s:1",
            "one",
        ],
        Wanted {
            input: Some("data"),
            speedups: &[50, 5],
            budget: 9,
            ..LATENCY
        },
    ),
];

fn is_text(word: &Option<Word>, text: Option<&str>) -> bool {
    match (word, text) {
        (Some(word), Some(text)) => word.text() == text,
        (None, None) => true,
        _ => false,
    }
}

fn is_wanted(request: &Request, wanted: &Wanted) -> bool {
    request.command == wanted.command
        && request.target.text() == wanted.target
        && is_text(&request.input, wanted.input)
        && is_text(&request.line, wanted.line)
        && request.speedup == wanted.speedup
        && is_text(&request.progress, wanted.progress)
        && request.budget == wanted.budget
        && is_text(&request.lines, wanted.lines)
        && request.speedups.as_slice() == wanted.speedups
        && request.workers == wanted.workers
        && request.seed == wanted.seed
        && request.size == wanted.size
        && request.dwarf == wanted.dwarf
        && is_text(&request.arrive, wanted.arrive)
        && is_text(&request.depart, wanted.depart)
}

/// Whether the words make the request that is wanted.
fn are_taken(alloc: Global, texts: &[&str], wanted: &Wanted) -> Result<bool, AllocError> {
    let words = words_of(alloc, texts)?;
    match read_words(alloc, words.as_slice()) {
        Ok(request) => Ok(is_wanted(&request, wanted)),
        Err(_) => Ok(false),
    }
}

#[test]
fn valid_arguments_are_parsed(rt: HostRuntime) -> Result<(), Fail> {
    let alloc = rt.alloc();
    for (texts, wanted) in &TAKEN {
        let are_taken = are_taken(alloc, *texts, wanted)?;
        assert!(rt; are_taken, "{texts:?}");
    }
    Ok(())
}

/// By hand, from the same sections.
static REFUSED: [&[&str]; 81] = [
    &[],
    &[""],
    &["walk", "one"],
    &["run"],
    &["run", "--"],
    &["run", ""],
    &["run", "-one"],
    &["run", "---"],
    &["run", "o\0e"],
    &["run", "one", "two"],
    &["run", "one", "--", "two"],
    &["run", "one", "--", "--budget"],
    &["run", "--budget", "--", "one"],
    &["run", "one", "-h"],
    &["run", "--help"],
    &["--version"],
    &["run", "--version"],
    &["run", "one", "--in=x"],
    &["run", "--input"],
    &["run", "one", "--input="],
    &["run", "one", "--input", ""],
    &["run", "one", "--input", "-x"],
    &["run", "one", "--budget", "2", "--budget", "2"],
    &["run", "one", "--budget", "0"],
    &["run", "one", "--budget", "1000000000001"],
    &["run", "one", "--budget", "x"],
    &["run", "one", "--budget=000000000000000000003"],
    &["run", "one", "--line", ":3"],
    &["run", "one", "--line", "a:0"],
    &["run", "one", "--line", "a:1:"],
    &["run", "one", "--line", "a,b:3"],
    &["run", "one", "--line", "a:4294967296"],
    &["run", "one", "--line=a:1", "--line=a:1"],
    &["run", "one", "--line=a:1", "--speedup=96"],
    &["run", "one", "--line=a:1", "--speedup=-1"],
    &["run", "one", "--line", "a:1", "--speedup", "-1"],
    &["run", "one", "--speedup", "0"],
    &["run", "one", "--progress", "a:1,"],
    &["run", "one", "--progress", ",a:1"],
    &["run", "one", "--progress", "a:1,,b:2"],
    &["run", "one", "--lines", "a:1"],
    &["run", "one", "--workers", "1"],
    &["lines"],
    &["lines", "one", "two"],
    &["lines", "one", "--budget", "3"],
    &["asm", "one", "--input=data"],
    &["asm", "one", "--dwarf", "3"],
    &["asm", "one", "--dwarf", "6"],
    &["asm", "one", "--dwarf", ""],
    &["asm", "one", "--dwarf=5", "--dwarf=5"],
    &["run", "one", "--dwarf", "4"],
    &["profile", "one", "--speedups", "96"],
    &["profile", "one", "--speedups", "5,"],
    &["profile", "one", "--speedups", ""],
    &["profile", "one", "--lines", ""],
    &["profile", "one", "--line", "one.s:1"],
    &["profile", "one", "--workers", "0"],
    &["profile", "one", "--workers", "17"],
    &["profile", "one", "--budget", "0"],
    &["plot"],
    &["plot", "one", "--budget", "3"],
    &["trial"],
    &["trial", "x"],
    &["trial", "-1"],
    &["trial", "18446744073709551616"],
    &["latency", "one", "--arrive=a:1", "--depart=a:1"],
    &["latency", "one", "--line=a:1", "--depart=a:1"],
    &["latency", "one", "--line=a:1", "--arrive=a:1"],
    &[
        "latency",
        "one",
        "--line=a:1,a:2",
        "--arrive=a:1",
        "--depart=a:1",
    ],
    &[
        "latency",
        "one",
        "--line=a:0",
        "--arrive=a:1",
        "--depart=a:1",
    ],
    &[
        "latency",
        "one",
        "--line=a:1",
        "--arrive",
        "",
        "--depart=a:1",
    ],
    &[
        "latency",
        "one",
        "--line=a:1",
        "--arrive=a:1",
        "--depart=a:1",
        "--speedups=96",
    ],
    &[
        "latency",
        "one",
        "--line=a:1",
        "--arrive=a:1",
        "--depart=a:1",
        "--speedup=50",
    ],
    &[
        "latency",
        "one",
        "--line=a:1",
        "--arrive=a:1",
        "--depart=a:1",
        "--workers=2",
    ],
    &[
        "latency",
        "one",
        "--line=a:1",
        "--arrive=a:1",
        "--depart=a:1",
        "--progress=a:1",
    ],
    &["run", "one", "--arrive", "a:1"],
    &["profile", "one", "--depart", "a:1"],
    &["trial", "1", "--size", "0"],
    &["trial", "1", "--size", "2001"],
    &["trial", "1", "--workers", "17"],
    &["trial", "1", "--input", "a"],
];

#[test]
fn invalid_arguments_are_rejected(rt: HostRuntime) -> Result<(), Fail> {
    let alloc = rt.alloc();
    for texts in REFUSED {
        let words = words_of(alloc, texts)?;
        let is_refused = match read_words(alloc, words.as_slice()) {
            Ok(_) => false,
            Err(error) => error == WordsError::Usage,
        };
        assert!(rt; is_refused, "{texts:?}");
    }
    Ok(())
}

#[test]
fn an_argument_has_at_most_131072_bytes(rt: HostRuntime) -> Result<(), Fail> {
    let alloc = rt.alloc();
    let mut path = String::new(alloc);
    for _ in 0..131072 {
        path.push('a')?;
    }
    let longest = words_of(alloc, &["lines", path.as_str()])?;
    assert!(rt; read_words(alloc, &longest).is_ok());
    path.push('a')?;
    let longer = words_of(alloc, &["lines", path.as_str()])?;
    assert!(rt; matches!(&read_words(alloc, &longer), Err(WordsError::Usage)));
    Ok(())
}
