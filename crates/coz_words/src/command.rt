//! The commands.
ghost use Rattle.std.specs.Prelude.{◌≡◌, map};
ghost use Rattle.coz_words.specs.Request.{option_names, has_option};
ghost use Rattle.coz_words.specs.Slow.{command_of};

/// A command, by its name.
#[derive(Clone, Copy, PartialEq, Eq)]
pub enum Command {
    /// To run a program, with a selected line sped up virtually.
    Run,
    /// To run it with the selected line made cheaper in fact.
    Really,
    /// To run it with each of several lines sped up in turn, by each of several speedups.
    Profile,
    /// To list a program's lines.
    Lines,
    /// To rank the lines of a profile by what a speedup of each gains.
    Plot,
    /// To assemble a source.
    Asm,
    /// To make a program from a number, and to profile it.
    Trial,
    /// To say how long requests are under way, with a line sped up by each of several speedups.
    Latency,
    /// To find the chain of instructions that made a run as long as it was.
    Path,
}

/// The command of that name. None if there is none.
pub(crate) fn command_of(word: &str) -> Option<Command>
    ensures { result ≡ command_of word.now }
{
    match word {
        "run" => Some(Command::Run),
        "really" => Some(Command::Really),
        "profile" => Some(Command::Profile),
        "lines" => Some(Command::Lines),
        "plot" => Some(Command::Plot),
        "asm" => Some(Command::Asm),
        "trial" => Some(Command::Trial),
        "latency" => Some(Command::Latency),
        "path" => Some(Command::Path),
        _ => None,
    }
}

static RUN_OPTIONS: [&str; 5] = ["input", "line", "speedup", "progress", "budget"];

static PROFILE_OPTIONS: [&str; 6] = [
    "input", "lines", "progress", "speedups", "budget", "workers",
];

static ASM_OPTIONS: [&str; 1] = ["dwarf"];

static TRIAL_OPTIONS: [&str; 2] = ["size", "workers"];

static LATENCY_OPTIONS: [&str; 6] = ["input", "line", "arrive", "depart", "speedups", "budget"];

static PATH_OPTIONS: [&str; 2] = ["input", "budget"];

static NO_OPTIONS: [&str; 0] = [];

/// The names of a command's options.
pub(crate) fn option_names(command: Command) -> &'static [&'static str]
    ensures { map (λ s. s.now) result.now ≡ option_names command }
{
    match command {
        Command::Run | Command::Really => RUN_OPTIONS.as_slice(),
        Command::Profile => PROFILE_OPTIONS.as_slice(),
        Command::Asm => ASM_OPTIONS.as_slice(),
        Command::Trial => TRIAL_OPTIONS.as_slice(),
        Command::Latency => LATENCY_OPTIONS.as_slice(),
        Command::Path => PATH_OPTIONS.as_slice(),
        Command::Lines | Command::Plot => NO_OPTIONS.as_slice(),
    }
}

pub(crate) fn has_option(command: Command, name: &str) -> bool
    ensures { result ≡ has_option command name.now }
{
    option_names(command).iter().any(|other| *other == name)
}
