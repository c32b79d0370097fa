//! Room for a text.
ghost use Rattle.std.specs.Prelude.{◌≡◌, ◌≢◌, ◌<◌, ◌≤◌, Err, IfOk, OnOk, MatchOption, IfSome};
ghost use Rattle.eu_base.specs.declared.cells.MemFault.TheVariants.{NoMemory};
ghost use Rattle.eu_base.specs.Cells.{HasFaultCause};
ghost use Rattle.text_heap.specs.Blocks.{free_in};

use crate::{BLOCKS, first_free, has_free, read_hint};
use eu_base::{MemFault, Space};

/// Where a text may go.
#[derive(Clone, Copy)]
pub(crate) struct Room {
    /// The hint of its space.
    pub hint: u16,
    /// The block from which on free ones are looked for.
    pub start: u16,
}

/// Where so many blocks are free; `None` where fewer are.
pub(crate) fn find_room<S: Space>(space: &mut S, wanted: usize) -> Result<Option<Room>, MemFault>
    ensures room { IfOk result (λ room. S.known space.old → MatchOption room (free_in (S.content space.old) 4096 < wanted)
        (λ room. wanted ≤ free_in (S.content space.old) 4096)) }
    ensures low { IfOk result (λ room. IfSome room (λ room. (room.hint < BLOCKS) × (room.start < BLOCKS))) }
    ensures kept { OnOk result (S.content space.new ≡ S.content space.old) }
    ensures memory { result ≢ Err NoMemory }
    ensures cause { HasFaultCause (S.faults space.old) (S.faults space.new) result }
    ensures follows { S.follows space.old space.new }
{
    let hint = read_hint(space)?;
    let start = first_free(space, hint, wanted)?;
    let has_room = has_free(space, start, wanted)?;
    if !has_room {
        return Ok(None);
    }
    Ok(Some(Room { hint, start }))
}
