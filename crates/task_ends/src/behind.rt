//! The cells behind those of a task's packets.
ghost use Rattle.std.specs.Prelude.{◌≡◌, ◌+◌, ◌≤◌, length, OnOk};
ghost use Rattle.eu_base.specs.declared.address.TheConstants.{CELLS};
ghost use Rattle.eu_base.specs.Cells.{Cells};
ghost use Rattle.task_ends.specs.Below.cell_kinds.specs.Kinds.{all_kinds, packet_kinds};
ghost use Rattle.task_ends.specs.Below.space_memory.specs.Memories.{roots, memory_heads, StandsWhole};
ghost use Rattle.task_ends.specs.Below.task_job.specs.Here.{HoldsAll, MemoryFrames};
ghost use Rattle.zero_machine.specs.Freed.{HoldEach, freed};
ghost use Rattle.task_ends.specs.Below.system_meaning.specs.Stores.{Store};
ghost use Rattle.task_ends.specs.Below.system_meaning.specs.Tasks.{settled};
ghost use Rattle.task_ends.specs.Below.task_job.specs.Standing.{Keeps, Leaves};

use crate::below::of_space_memory::SpaceMemory;
use eu_base::{CELLS, MemFault, NoMemory, Nowhere, Shape};
use live_task::Compiled;
use page_pool::Pool;
use std::alloc::Global;
use zero_machine::{count_cells, free_shapes};

/// Frees the variables of a packet that is inserted, which stand behind those of the task's packets. Where all together have no room,
/// there are none.
pub(crate) fn free_behind(
    alloc: Global,
    memory: &mut SpaceMemory,
    pool: &mut Pool,
    unit: &Compiled,
) -> Result<(), NoMemory>
    requires agree { StandsWhole pool.old (roots memory.old) }
    ensures freed { OnOk result ((store : Store) → Leaves (packet_kinds unit.now.core.packets) unit.now.core.inserted pool.old memory.old store →
        Keeps (packet_kinds unit.now.core.packets) pool.new memory.new (settled (length (packet_kinds unit.now.core.packets)) store)) }
    ensures heads { memory_heads memory.new ≡ memory_heads memory.old }
    ensures stands { StandsWhole pool.new (roots memory.new) }
    ensures frames { MemoryFrames pool.old pool.new (roots memory.old) (roots memory.new) }
{
    let before = count_cells(unit.core.packets.as_slice());
    let inserted = &unit.core.inserted;
    if before.saturating_add(inserted.len()) > usize::from(CELLS) {
        return Ok(());
    }
    free_over(alloc, memory, pool, before, inserted.shapes())
}

// Frees the cells of variables of these shapes, from one on.
fn free_over(
    alloc: Global,
    memory: &mut SpaceMemory,
    pool: &mut Pool,
    at: usize,
    shapes: &[Shape],
) -> Result<(), NoMemory>
    requires cells { at + length (all_kinds shapes.now) ≤ CELLS }
    requires agree { StandsWhole pool.old (roots memory.old) }
    ensures freed { OnOk result ((cells : Cells) → HoldsAll pool.old memory.old cells → HoldEach at (all_kinds shapes.now) cells →
        HoldsAll pool.new memory.new (freed at (at + length (all_kinds shapes.now)) cells)) }
    ensures heads { memory_heads memory.new ≡ memory_heads memory.old }
    ensures frames { MemoryFrames pool.old pool.new (roots memory.old) (roots memory.new) }
{
    let mut nowhere = Nowhere;
    let mut lent = memory.over(pool, &mut nowhere);
    match free_shapes(alloc, &mut lent, at, shapes) {
        Ok(()) => Ok(()),
        Err(MemFault::NoMemory) => Err(NoMemory),
        // What reads as zeros has no faults.
        Err(MemFault::Failed) => unreachable!(),
    }
}
