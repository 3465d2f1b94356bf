//! The source files of the lines of a page.
ghost use Rattle.std.specs.Prelude.{◌≡◌, ◌≤◌, None, IfOk, IfSome};
ghost use Rattle.std.specs.Option.{option_copied};
ghost use Rattle.coz_files.specs.InMemory.{entries};
ghost use Rattle.page_values.specs.Sources.{look_up};
ghost use Rattle.page_cli.specs.Page.{used};
ghost use Rattle.page_cli.specs.Verdict.{AreNamed, AreSources};

use crate::label_parts::path_of;
use causal_curves::Curve;
use coz_files::{Files, HeldFile};
use page_values::read_source;
use std::alloc::{AllocError, Global};

/// The source files of the lines of these curves, below a folder. A path whose file is already there
/// is not read again, by the clause `once` of `read_source`.
fn sources_below<F: Files>(
    alloc: Global,
    files: &mut F,
    folder: &[u8],
    curves: &[Curve],
) -> Result<Vec<HeldFile>, AllocError>
    ensures same { F.held files.new ≡ F.held files.old }
    ensures later { F.faults files.old ≤ F.faults files.new }
    ensures read { IfSome (F.held files.old) (λ held. IfOk result (λ sources.
        AreSources held folder.now (F.faults files.old) (F.faults files.new) curves.now
        (look_up (entries sources.items)))) }
{
    let mut sources = Vec::new(alloc);
    for curve in curves {
        let path = path_of(curve.selected.bytes());
        read_source(alloc, files, folder, path, &mut sources)?;
    }
    Ok(sources)
}

/// The source files of the lines of these curves, if a folder is named. Fails only when out of
/// memory.
pub fn read_sources<F: Files>(
    alloc: Global,
    files: &mut F,
    folder: Option<&[u8]>,
    curves: &[Curve],
) -> Result<Vec<HeldFile>, AllocError>
    ensures same { F.held files.new ≡ F.held files.old }
    ensures unread { option_copied folder.entry ≡ None
        → F.faults files.new ≡ F.faults files.old }
    ensures used { IfOk result (λ sources. used (option_copied folder.entry)
        (look_up (entries sources.items)) ≡ look_up (entries sources.items)) }
    ensures read { IfSome (F.held files.old) (λ held. IfOk result (λ sources.
        AreNamed (option_copied folder.entry) held (F.faults files.old) (F.faults files.new)
        curves.now (look_up (entries sources.items)))) }
{
    match folder {
        Some(folder) => sources_below(alloc, files, folder, curves),
        None => Ok(Vec::new(alloc)),
    }
}
