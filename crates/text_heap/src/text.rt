//! The texts of cells.
ghost use Rattle.std.specs.Prelude.{◌≡◌, ◌≢◌, ◌+◌, ◌<◌, Err, IfOk, OnOk, IsSome, Some, []};
ghost use Rattle.eu_base.specs.declared.cells.MemFault.TheVariants.{NoMemory};
ghost use Rattle.eu_base.specs.Cells.{HasFaultCause};
ghost use Rattle.eu_base.specs.Spaces.{IsKept};
ghost use Rattle.text_heap.specs.Blocks.{text_in, free_in};
ghost use Rattle.text_heap.specs.Texts.{Texts, Holds, Sets, KeepsCells, blocks_in, stored};

use crate::replace::replace;
use crate::room::{Room, find_room};
use crate::{BLOCKS, blocks, collect, count_free, read_entry, read_hint};
use eu_base::{Bytes, CELLS, MemFault, Set, Space};
use std::alloc::Global;

/// The text of a cell. On bytes that hold no text it still answers some text.
pub fn get<S: Space>(alloc: Global, space: &mut S, cell: u16) -> Result<Bytes, MemFault>
    requires { cell < CELLS }
    ensures text { IfOk result (λ text. S.known space.old → (texts : Texts) → Holds (S.content space.old) texts → IsSome (texts cell) → texts cell ≡ Some text) }
    ensures bytes { IfOk result (λ text. S.known space.old → text ≡ text_in (S.content space.old) cell) }
    ensures kept { OnOk result (IsKept (S.content space.old) (S.content space.new)) }
    ensures cause { HasFaultCause (S.faults space.old) (S.faults space.new) result }
    ensures follows { S.follows space.old space.new }
{
    let entry = read_entry(space, cell)?;
    let text = collect(alloc, space, entry.first, entry.length)?;
    Ok(text)
}

/// How many blocks are free, from 0 to 4,096. In a space that holds texts it is those that no text has.
pub fn rooms<S: Space>(space: &mut S) -> Result<u16, MemFault>
    ensures free { IfOk result (λ count. S.known space.old → count ≡ free_in (S.content space.old) 4096) }
    ensures texts { IfOk result (λ count. S.known space.old → (texts : Texts) → Holds (S.content space.old) texts → count + blocks_in texts ≡ 4096) }
    ensures kept { OnOk result (IsKept (S.content space.old) (S.content space.new)) }
    ensures memory { result ≢ Err NoMemory }
    ensures cause { HasFaultCause (S.faults space.old) (S.faults space.new) result }
    ensures follows { S.follows space.old space.new }
{
    let count = count_free(space)?;
    Ok(count)
}

/// Puts a text in the place of the one that stands in a cell. Where all texts together would then have more than 4,096
/// blocks it answers HeapFull and changes nothing. After an error the space can only be dropped.
pub fn set<S: Space>(space: &mut S, cell: u16, t: &[u8]) -> Result<Set, MemFault>
    requires { cell < CELLS }
    ensures sets { IfOk result (λ set. S.known space.old → (texts : Texts) → Holds (S.content space.old) texts → IsSome (texts cell) →
        Sets (S.content space.old) (S.content space.new) texts cell t.now set) }
    ensures cells { OnOk result (S.known space.old → KeepsCells (S.content space.old) (S.content space.new) cell) }
    ensures cause { HasFaultCause (S.faults space.old) (S.faults space.new) result }
    ensures follows { S.follows space.old space.new }
{
    let old = read_entry(space, cell)?;
    let had = blocks(old.length);
    let needed = blocks(t.len());
    let wanted = needed.saturating_sub(had);
    let Some(room) = find_room(space, wanted)? else {
        return Ok(Set::HeapFull);
    };
    let set = replace(space, cell, old, room, t)?;
    Ok(set)
}

/// Puts the text "" in the place of the one that stands in a cell. After an error the space can only be dropped.
pub fn clear<S: Space>(space: &mut S, cell: u16) -> Result<(), MemFault>
    requires { cell < CELLS }
    ensures clears { OnOk result (S.known space.old → (texts : Texts) → Holds (S.content space.old) texts → IsSome (texts cell) →
        Holds (S.content space.new) (stored texts cell [])) }
    ensures cells { OnOk result (S.known space.old → KeepsCells (S.content space.old) (S.content space.new) cell) }
    ensures cause { HasFaultCause (S.faults space.old) (S.faults space.new) result }
    ensures follows { S.follows space.old space.new }
{
    let old = read_entry(space, cell)?;
    let hint = read_hint(space)?;
    let room = Room { hint, start: hint };
    replace(space, cell, old, room, &[])?;
    Ok(())
}
