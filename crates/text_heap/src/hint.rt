//! Where a search for free blocks begins. Any block would be right; this one has no free block before it, as far as is known.
ghost use Rattle.std.specs.Prelude.{◌≡◌, ◌≢◌, ◌<◌, IfOk, OnOk, Err};
ghost use Rattle.eu_base.specs.declared.cells.MemFault.TheVariants.{NoMemory};
ghost use Rattle.eu_base.specs.Cells.{HasFaultCause};
ghost use Rattle.text_heap.specs.Blocks.{hint_at, KeptBut};

use crate::block::{BLOCKS, joined};
use eu_base::{MemFault, Space};

// It stands in two bytes of block 0 that no text uses.
const HINT_AT: u32 = 131_074;

/// The hint of a space.
pub fn read_hint<S: Space>(space: &mut S) -> Result<u16, MemFault>
    ensures low { IfOk result (λ hint. hint < BLOCKS) }
    ensures kept { OnOk result (S.content space.new ≡ S.content space.old) }
    ensures memory { result ≢ Err NoMemory }
    ensures cause { HasFaultCause (S.faults space.old) (S.faults space.new) result }
    ensures follows { S.follows space.old space.new }
{
    let mut bytes = [0u8; 2];
    space.read(HINT_AT, &mut bytes)?;
    Ok(joined(bytes[0], bytes[1]) % BLOCKS)
}

/// Changes the hint, where it is another than it was.
pub fn move_hint<S: Space>(space: &mut S, was: u16, hint: u16) -> Result<(), MemFault>
    ensures kept { OnOk result (S.known space.old → KeptBut (S.content space.old) (S.content space.new) hint_at 2) }
    ensures cause { HasFaultCause (S.faults space.old) (S.faults space.new) result }
    ensures follows { S.follows space.old space.new }
{
    if hint == was {
        return Ok(());
    }
    space.write(HINT_AT, &[(hint % 256) as u8, (hint / 256) as u8])?;
    Ok(())
}

/// The hint after some blocks were freed, the lowest of them or the hint before being `from`, and others were filled from
/// there on, the last of them `last`.
pub fn hint_after(hint: u16, from: u16, last: u16, freed: usize, filled: usize) -> u16
    requires hint { hint < BLOCKS }
    requires from { from < BLOCKS }
    requires last { last < BLOCKS }
    ensures { result < BLOCKS }
{
    if filled == 0 {
        return from;
    }
    if filled < freed || last < from {
        return last;
    }
    hint.max(last)
}
