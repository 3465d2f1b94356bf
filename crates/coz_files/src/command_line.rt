//! The arguments of the command line.
ghost use Rattle.std.specs.Prelude.{◌≡◌, ◌⊎◌, IfErr};

use crate::{MEMORY_STATUS, NO_WORDS_STATUS};
use std::env::{self, Env};
use std::io::{self, ErrorKind};

/// The arguments after the program's name, or the exit status of a program that can't have them:
/// `MEMORY_STATUS` if memory for them runs out, else `NO_WORDS_STATUS`, as for an argument that
/// isn't UTF-8. Contracts say nothing of the arguments.
pub fn words<R: Env + Alloc>(rt: &R) -> Result<Vec<String<R::A>, R::A>, u8>
    ensures status { IfErr result (λ status. status ≡ MEMORY_STATUS ⊎ status ≡ NO_WORDS_STATUS) }
{
    after_name(rt).map_err(|fault| match fault.kind() {
        ErrorKind::OutOfMemory => MEMORY_STATUS,
        _ => NO_WORDS_STATUS,
    })
}

/// The arguments after the program's name.
fn after_name<R: Env + Alloc>(rt: &R) -> io::Result<Vec<String<R::A>, R::A>> {
    let mut words = Vec::new(rt.alloc());
    for word in env::args(rt)?.skip(1) {
        words.push(word)?;
    }
    Ok(words)
}
