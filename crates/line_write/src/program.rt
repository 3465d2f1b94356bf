//! The program of the unit (DWARF 4, section 6.2.5).

ghost use Rattle.std.specs.Prelude.{◌≡◌, ◌<◌, ◌^◌, length, All, IfOk};
ghost use Rattle.line_write.specs.declared.Sequence.{Sequence};
ghost use Rattle.line_write.specs.Unit.{IsWritable, views, program};

use crate::Sequence;
use byte_write::push_sequence;
use std::alloc::{AllocError, Global};

/// The program that makes the rows.
pub fn program(alloc: Global, sequences: &[Sequence]) -> Result<Vec<u8>, AllocError>
    requires few { length sequences.now < 2 ^ 32 }
    requires writable { All IsWritable (views sequences.now) }
    ensures { IfOk result (λ v. v.items ≡ program 1 (views sequences.now)) }
{
    let mut out = Vec::new(alloc);
    let mut file = 1;
    for sequence in sequences {
        push_sequence(
            &mut out,
            file,
            sequence.number,
            sequence.address,
            sequence.size,
        )?;
        file += 1;
    }
    Ok(out)
}
