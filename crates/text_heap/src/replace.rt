//! A text in the place of another.
ghost use Rattle.std.specs.Prelude.{◌≡◌, ◌<◌, ◌≤◌, IfOk, OnOk, IsSome};
ghost use Rattle.eu_base.specs.Cells.{HasFaultCause};
ghost use Rattle.text_heap.specs.Blocks.{length_in, first_in};
ghost use Rattle.text_heap.specs.Texts.{Texts, Holds, Sets, KeepsCells, blocks_in, stored};

use crate::room::Room;
use crate::{BLOCKS, Entry, blocks, hint_after, move_hint, release, spread};
use cell_layout::put;
use eu_base::{CELLS, MemFault, Set, Space};

/// Frees the blocks of the text that stands in a cell, and puts another there, where all texts have room then.
pub(crate) fn replace<S: Space>(
    space: &mut S,
    cell: u16,
    old: Entry,
    room: Room,
    t: &[u8],
) -> Result<Set, MemFault>
    requires cell { cell < CELLS }
    requires first { old.first < BLOCKS }
    requires hint { room.hint < BLOCKS }
    requires start { room.start < BLOCKS }
    ensures sets { IfOk result (λ set. S.known space.old → old.length ≡ length_in (S.content space.old) cell → old.first ≡ first_in (S.content space.old) cell →
        (texts : Texts) → Holds (S.content space.old) texts → IsSome (texts cell) →
        blocks_in (stored texts cell t.now) ≤ 4096 → Sets (S.content space.old) (S.content space.new) texts cell t.now set) }
    ensures cells { OnOk result (S.known space.old → old.length ≡ length_in (S.content space.old) cell → old.first ≡ first_in (S.content space.old) cell →
        KeepsCells (S.content space.old) (S.content space.new) cell) }
    ensures cause { HasFaultCause (S.faults space.old) (S.faults space.new) result }
    ensures follows { S.follows space.old space.new }
{
    let had = blocks(old.length);
    let from = release(space, old.first, had, room.start)?;
    let Some(first) = spread(space, from, t)? else {
        return Ok(Set::HeapFull);
    };
    let hint = hint_after(room.start, from, first, had, blocks(t.len()));
    move_hint(space, room.hint, hint)?;
    let number = t.len() as u64 + 4_294_967_296 * u64::from(first);
    put(space, cell, number)?;
    Ok(Set::Done)
}
