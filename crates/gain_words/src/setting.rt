//! The options that describe a machine.
ghost use Rattle.std.specs.Prelude.{◌≡◌};
ghost use Rattle.gain_words.specs.Words.{charge_in, setting_of};

use timing_model::Charge;

/// An option that describes a machine.
#[derive(Clone, Copy, PartialEq, Eq)]
pub enum Setting {
    /// `--cores`: the number of cores.
    Cores,
    /// `--slice`: the cycles of a slice.
    Slice,
    /// `--costs`: the cycles of some classes of instructions.
    Costs,
    /// `--charge`: to whom an instruction without a line is charged.
    Charge,
    /// `--seed`: the seed of the jitter.
    Seed,
}

/// The option that this word names. None if the word names none.
pub fn setting_of(word: &[u8]) -> Option<Setting>
    ensures { result ≡ setting_of word.now }
{
    if word == b"--cores".as_slice() {
        Some(Setting::Cores)
    } else if word == b"--slice".as_slice() {
        Some(Setting::Slice)
    } else if word == b"--costs".as_slice() {
        Some(Setting::Costs)
    } else if word == b"--charge".as_slice() {
        Some(Setting::Charge)
    } else if word == b"--seed".as_slice() {
        Some(Setting::Seed)
    } else {
        None
    }
}

/// The charge of that name. None if there is none.
pub fn charge_in(value: &[u8]) -> Option<Charge>
    ensures { result ≡ charge_in value.now }
{
    if value == b"none".as_slice() {
        Some(Charge::Nobody)
    } else if value == b"last".as_slice() {
        Some(Charge::Last)
    } else {
        None
    }
}
