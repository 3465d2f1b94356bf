//! The files that tests read.
ghost use Rattle.std.specs.Prelude.{None};

use crate::large::push_bytes;
use coz_files::{FileAnswer, Files, HeldFile};
use std::alloc::{AllocError, Global};

/// Files of a list, of which the reads with these numbers fail, from 0.
#[derive(Drop)]
pub(crate) struct Listed<'a> {
    files: &'a [HeldFile],
    fails: &'a [u64],
    reads: u64,
    faults: u64,
}

impl<'a> Listed<'a> {
    pub(crate) fn new(files: &'a [HeldFile], fails: &'a [u64]) -> Listed<'a> {
        Listed {
            files,
            fails,
            reads: 0,
            faults: 0,
        }
    }
}

/// The file of a path, if it is in the list.
pub(crate) fn file_at<'a>(files: &'a [HeldFile], path: &str) -> Option<&'a HeldFile> {
    files
        .iter()
        .find(|file| file.path.as_slice() == path.as_bytes())
}

impl<'a> Files for Listed<'a> {
    ghost held = { λ _. None };

    ghost faults = { λ files. files.faults };

    fn read_whole(&mut self, path: &str, max: u64, into: &mut Vec<u8>) -> FileAnswer {
        let fails = self.fails.contains(&self.reads);
        self.reads = self.reads.saturating_add(1);
        match file_at(self.files, path) {
            Some(file) if !fails => push_bytes(&file.bytes, max, into),
            _ => {
                self.faults = self.faults.saturating_add(1);
                FileAnswer::Failed
            }
        }
    }
}

/// Adds a file of these bytes, which are copied.
pub(crate) fn add(
    alloc: Global,
    files: &mut Vec<HeldFile>,
    path: &str,
    bytes: &[u8],
) -> Result<(), AllocError> {
    let path = path.as_bytes().to_vec(alloc)?;
    let bytes = bytes.to_vec(alloc)?;
    files.push(HeldFile { path, bytes })?;
    Ok(())
}

/// Files with these paths and bytes.
pub(crate) fn files_of(alloc: Global, list: &[(&str, &[u8])]) -> Result<Vec<HeldFile>, AllocError> {
    let mut files = Vec::new(alloc);
    for (path, bytes) in list {
        add(alloc, &mut files, *path, *bytes)?;
    }
    Ok(files)
}

/// A path, and bytes to change with their offsets.
pub(crate) type Change = (&'static str, &'static [(usize, u8)]);

fn set_bytes(file: &mut [u8], bytes: &[(usize, u8)]) {
    for (at, byte) in bytes {
        if *at < file.len() {
            file[*at] = *byte;
        }
    }
}

fn add_changed(
    alloc: Global,
    files: &mut Vec<HeldFile>,
    file: &[u8],
    change: &Change,
) -> Result<(), AllocError> {
    let path = change.0.as_bytes().to_vec(alloc)?;
    let mut bytes = file.to_vec(alloc)?;
    set_bytes(&mut bytes, change.1);
    files.push(HeldFile { path, bytes })?;
    Ok(())
}

/// Adds files that differ from one in a few bytes.
pub(crate) fn add_all_changed(
    alloc: Global,
    files: &mut Vec<HeldFile>,
    file: &[u8],
    changes: &[Change],
) -> Result<(), AllocError> {
    for change in changes {
        add_changed(alloc, files, file, change)?;
    }
    Ok(())
}
