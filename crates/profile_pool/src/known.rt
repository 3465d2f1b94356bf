//! The digest of what runs wrote, which is made once for successive runs that wrote the same.
ghost use Rattle.std.specs.Prelude.{◌≡◌, IfOk};
ghost use Rattle.sha2.specs.Sha256.{sha256};

use coz_types::Digest;
use run_summary::digest_of_bytes;
use std::alloc::{AllocError, Global};

/// The output of a run, and its digest.
#[derive(Drop)]
pub struct KnownOutput {
    /// The output of the run.
    bytes: Vec<u8>,
    /// The digest of that.
    digest: Digest,
    ghost right: { digest.bytes ≡ sha256 bytes.items },
}

/// Nothing, and its digest.
pub fn no_output(alloc: Global) -> KnownOutput {
    KnownOutput {
        bytes: Vec::new(alloc),
        digest: digest_of_bytes(b""),
    }
}

/// The digest of what a run wrote, which becomes what is known. It is made only if that differs from
/// what was known.
pub fn digest_of_output(
    alloc: Global,
    known: &mut KnownOutput,
    output: &[u8],
) -> Result<Digest, AllocError>
    ensures { IfOk result (λ digest. digest.bytes ≡ sha256 output.now) }
{
    if known.bytes.as_slice() != output {
        known.bytes = Vec::from_slice(alloc, output)?;
        known.digest = digest_of_bytes(output);
    }
    Ok(known.digest)
}
