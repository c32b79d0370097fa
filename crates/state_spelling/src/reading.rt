//! From bytes to where a command stands.
ghost use Rattle.byte_spelling.specs.Gives.{Gives};
ghost use Rattle.state_spelling.specs.Kept as whole;

use crate::kept::{Kept, KeptFrame};
use crate::pending::OperandBytes;
use crate::waiting::waits_at;
use byte_spelling::{ReadError, list_at, u16_at, u32_at};
use std::alloc::Global;

/// What is kept, and what follows.
pub fn kept_at(alloc: Global, from: &[u8]) -> Result<(Kept, &[u8]), ReadError>
    ensures { Gives (λ x. (x.0, x.1.now)) result (whole.kept.read from.now) }
{
    let (waits, rest) = waits_at(alloc, from)?;
    let (pc, rest) = u32_at(rest)?;
    let (used, rest) = u16_at(rest)?;
    let (frames, rest) = list_at::<KeptFrame>(alloc, rest)?;
    let (operands, rest) = list_at::<OperandBytes>(alloc, rest)?;
    Ok((
        Kept {
            waits,
            pc,
            used,
            frames,
            operands,
        },
        rest,
    ))
}
