//! Whether something denotes a data space.
ghost use Rattle.std.specs.Prelude.{◌≡◌, ◌==◌, ◌+◌, ◌≤◌, length, IfOk, OnOk};
ghost use Rattle.std.specs.List.{list_any};
ghost use Rattle.eu_base.specs.declared.address.TheConstants.{CELLS};
ghost use Rattle.eu_base.specs.DataSpaces.{last_number};
ghost use Rattle.eu_base.specs.Cells.{Cells};
ghost use Rattle.cell_kinds.specs.Kinds.{packet_kinds};
ghost use Rattle.zero_machine.specs.Freed.{HoldEach};
ghost use Rattle.zero_machine.specs.Denoted.{denote};
ghost use Rattle.task_tidy.specs.Below.space_memory.specs.Memories.{roots, memory_heads, StandsWhole};
ghost use Rattle.task_tidy.specs.Below.task_job.specs.Here.{HoldsAll, MemoryFrames};
ghost use Rattle.task_tidy.specs.Below.system_meaning.specs.Stores as spec;
ghost use Rattle.task_tidy.specs.Below.system_meaning.specs.Stores.{Store};
ghost use Rattle.task_tidy.specs.Below.task_job.specs.Standing.{Keeps};
ghost use Rattle.task_tidy.specs.Tidied.{kinds_with};

use crate::below::of_space_memory::SpaceMemory;
use cell_kinds::{CellKinds, Packet};
use eu_base::{MemFault, NoMemory, Nowhere};
use page_pool::Pool;
use std::alloc::Global;
use task_numbers::SpaceNo;
use zero_machine::variables_denote;

/// Whether a variable of the packets, one of those behind them, or a name denotes a data space.
pub(crate) fn is_used(
    alloc: Global,
    memory: &mut SpaceMemory,
    pool: &mut Pool,
    packets: &[Packet],
    behind: &CellKinds,
    space: SpaceNo,
) -> Result<bool, NoMemory>
    requires cells { length (packet_kinds packets.now) + length behind.now ≤ CELLS }
    requires agree { StandsWhole pool.old (roots memory.old) }
    ensures used { IfOk result (λ used. (store : Store) → Keeps (kinds_with packets.now behind.now) pool.old memory.old store → space.0 ≤ last_number →
        used ≡ spec.is_used space.0 store) }
    ensures keeps { OnOk result ((store : Store) → Keeps (kinds_with packets.now behind.now) pool.old memory.old store →
        Keeps (kinds_with packets.now behind.now) pool.new memory.new store) }
    ensures stands { StandsWhole pool.new (roots memory.new) }
    ensures frames { MemoryFrames pool.old pool.new (roots memory.old) (roots memory.new) }
{
    if is_named(memory, space)? {
        return Ok(true);
    }
    let denoted = is_denoted(alloc, memory, pool, packets, behind, space)?;
    Ok(denoted)
}

// Whether a variable does.
fn is_denoted(
    alloc: Global,
    memory: &mut SpaceMemory,
    pool: &mut Pool,
    packets: &[Packet],
    behind: &CellKinds,
    space: SpaceNo,
) -> Result<bool, NoMemory>
    requires cells { length (packet_kinds packets.now) + length behind.now ≤ CELLS }
    requires agree { StandsWhole pool.old (roots memory.old) }
    ensures denoted { IfOk result (λ found. (cells : Cells) → HoldsAll pool.old memory.old cells → HoldEach 0 (kinds_with packets.now behind.now) cells →
        found ≡ denote space.0 0 (kinds_with packets.now behind.now) cells) }
    ensures kept { OnOk result ((cells : Cells) → HoldsAll pool.old memory.old cells → HoldsAll pool.new memory.new cells) }
    ensures heads { memory_heads memory.new ≡ memory_heads memory.old }
    ensures stands { StandsWhole pool.new (roots memory.new) }
    ensures frames { MemoryFrames pool.old pool.new (roots memory.old) (roots memory.new) }
{
    let mut nowhere = Nowhere;
    let mut lent = memory.over(pool, &mut nowhere);
    match variables_denote(alloc, &mut lent, packets, behind.shapes(), space) {
        Ok(found) => Ok(found),
        Err(MemFault::NoMemory) => Err(NoMemory),
        // What reads as zeros has no faults.
        Err(MemFault::Failed) => unreachable!(),
    }
}

// Whether a name does. More names than can be counted are more than memory has room for.
fn is_named(memory: &SpaceMemory, space: SpaceNo) -> Result<bool, NoMemory>
    ensures { IfOk result (λ named. named ≡ list_any (λ entry. entry.1.0 == space.0) memory.now.names) }
{
    for k in 0..u32::MAX {
        let Some((_, s)) = memory.entry(k) else {
            return Ok(false);
        };
        if s == space {
            return Ok(true);
        }
    }
    Err(NoMemory)
}
