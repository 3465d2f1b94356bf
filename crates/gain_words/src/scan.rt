//! The options of the machine among the words.
ghost use Rattle.std.specs.Prelude.{◌≡◌, fold, IfOk, OnOk, string_bytes};
ghost use Rattle.coz_words.specs.Answers.{bytes_of};
ghost use Rattle.gain_words.specs.Words.{cores_in, scanned, scan_word, free_word, no_words, with_other, with_value};

use crate::costs::costs_in;
use crate::cut::cut;
use crate::setting::{Setting, charge_in, setting_of};
use crate::slot::{Slot, fill};
use experiment_plan::number_in;
use std::alloc::{AllocError, Global};
use timing_model::{Charge, Costs, MAX_CORES, MAX_SLICE};

/// The result of scanning some arguments.
#[derive(Drop)]
pub struct Scan {
    /// What `--cores` gives.
    pub cores: Slot<u16>,
    /// What `--slice` gives.
    pub slice: Slot<u64>,
    /// What `--costs` gives.
    pub costs: Slot<Costs>,
    /// What `--charge` gives.
    pub charge: Slot<Charge>,
    /// What `--seed` gives.
    pub seed: Slot<u64>,
    /// The option whose value is the next word, if it is one's.
    pub wanting: Option<Setting>,
    /// The word `profile`, and the other words.
    pub rest: Vec<String>,
}

/// The number of cores that a value gives, from 1 to 256.
fn cores_in(value: &[u8]) -> Option<u16>
    ensures { result ≡ cores_in value.now }
{
    match number_in(value, 1, u64::from(MAX_CORES)) {
        Some(number) => Some(number as u16),
        None => None,
    }
}

/// Takes the value of an option.
fn take_value(scan: &mut Scan, setting: Setting, value: &[u8])
    ensures { scanned scan.new ≡ with_value setting value.now (scanned scan.old) }
{
    scan.wanting = None;
    match setting {
        Setting::Cores => scan.cores = fill(scan.cores, cores_in(value)),
        Setting::Slice => scan.slice = fill(scan.slice, number_in(value, 1, MAX_SLICE)),
        Setting::Costs => scan.costs = fill(scan.costs, costs_in(value)),
        Setting::Charge => scan.charge = fill(scan.charge, charge_in(value)),
        Setting::Seed => scan.seed = fill(scan.seed, number_in(value, 0, u64::MAX)),
    }
}

/// Takes a word that is no option of the machine.
fn take_other(scan: &mut Scan, word: &String) -> Result<(), AllocError>
    ensures { OnOk result
        (scanned scan.new ≡ with_other (string_bytes word.now) (scanned scan.old)) }
{
    let word = word.clone()?;
    scan.rest.push(word)?;
    Ok(())
}

/// Takes a word that is no value.
fn take_free(scan: &mut Scan, word: &String) -> Result<(), AllocError>
    ensures { OnOk result
        (scanned scan.new ≡ free_word (scanned scan.old) (string_bytes word.now)) }
{
    let (name, value) = cut(word.as_bytes());
    let Some(setting) = setting_of(name) else {
        return take_other(scan, word);
    };
    match value {
        Some(value) => take_value(scan, setting, value),
        None => scan.wanting = Some(setting),
    }
    Ok(())
}

/// Takes a word.
fn take(scan: &mut Scan, word: &String) -> Result<(), AllocError>
    ensures { OnOk result
        (scanned scan.new ≡ scan_word (scanned scan.old) (string_bytes word.now)) }
{
    match scan.wanting {
        Some(setting) => {
            take_value(scan, setting, word.as_bytes());
            Ok(())
        }
        None => take_free(scan, word),
    }
}

/// Scans all arguments. Fails only if out of memory.
pub fn scan_of(alloc: Global, words: &[String]) -> Result<Scan, AllocError>
    ensures { IfOk result (λ scan. scanned scan ≡ fold scan_word no_words (bytes_of words.now)) }
{
    let mut rest = Vec::new(alloc);
    rest.push(String::from_str(alloc, "profile")?)?;
    let mut scan = Scan {
        cores: Slot::Absent,
        slice: Slot::Absent,
        costs: Slot::Absent,
        charge: Slot::Absent,
        seed: Slot::Absent,
        wanting: None,
        rest,
    };
    for word in words {
        take(&mut scan, word)?;
    }
    Ok(scan)
}
