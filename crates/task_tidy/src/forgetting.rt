//! Data spaces are forgotten.
ghost use Rattle.std.specs.Prelude.{◌≡◌, ◌+◌, ◌≤◌, length, OnOk, option_map, slice_get};
ghost use Rattle.eu_base.specs.declared.address.TheConstants.{CELLS};
ghost use Rattle.cell_kinds.specs.Kinds.{packet_kinds};
ghost use Rattle.task_tidy.specs.Below.space_memory.specs.Memories.{roots, forgotten, StandsWhole};
ghost use Rattle.task_tidy.specs.Below.task_job.specs.Here.{KeepsBytes, MemoryFrames};
ghost use Rattle.task_tidy.specs.Below.system_meaning.specs.Stores.{Store, only_used};
ghost use Rattle.task_tidy.specs.Below.task_job.specs.Standing.{Keeps};
ghost use Rattle.task_tidy.specs.Tidied.{kinds_with, tidied_at};

use crate::below::of_space_memory::SpaceMemory;
use crate::used::is_used;
use cell_kinds::{CellKinds, Packet};
use eu_base::NoMemory;
use page_pool::Pool;
use std::alloc::Global;
use task_numbers::SpaceNo;

/// Forgets the data spaces that nothing denotes, the last of those that live first.
pub(crate) fn forget_unused(
    alloc: Global,
    memory: &mut SpaceMemory,
    pool: &mut Pool,
    packets: &[Packet],
    behind: &CellKinds,
) -> Result<(), NoMemory>
    requires cells { length (packet_kinds packets.now) + length behind.now ≤ CELLS }
    requires agree { StandsWhole pool.old (roots memory.old) }
    ensures tidied { OnOk result ((store : Store) → Keeps (kinds_with packets.now behind.now) pool.old memory.old store →
        Keeps (kinds_with packets.now behind.now) pool.new memory.new (record store { spaces = only_used store })) }
    ensures stands { StandsWhole pool.new (roots memory.new) }
    ensures frames { MemoryFrames pool.old pool.new (roots memory.old) (roots memory.new) }
{
    let count = memory.count();
    for done in 0..count {
        tidy_at(alloc, memory, pool, packets, behind, count - 1 - done)?;
    }
    Ok(())
}

// Forgets the data space at a place among those that live, where nothing denotes it.
fn tidy_at(
    alloc: Global,
    memory: &mut SpaceMemory,
    pool: &mut Pool,
    packets: &[Packet],
    behind: &CellKinds,
    k: u32,
) -> Result<(), NoMemory>
    requires cells { length (packet_kinds packets.now) + length behind.now ≤ CELLS }
    requires agree { StandsWhole pool.old (roots memory.old) }
    ensures tidied { OnOk result ((store : Store) → Keeps (kinds_with packets.now behind.now) pool.old memory.old store →
        Keeps (kinds_with packets.now behind.now) pool.new memory.new (tidied_at k store)) }
    ensures stands { StandsWhole pool.new (roots memory.new) }
    ensures frames { MemoryFrames pool.old pool.new (roots memory.old) (roots memory.new) }
{
    let Some(space) = number_at(memory, k) else {
        return Ok(());
    };
    if is_used(alloc, memory, pool, packets, behind, space)? {
        return Ok(());
    }
    forget(memory, pool, space);
    Ok(())
}

// The number of the data space at a place among those that live.
fn number_at(memory: &SpaceMemory, k: u32) -> Option<SpaceNo>
    ensures { option_map (λ s. s.0) result ≡ option_map (λ e. e.0) (slice_get memory.now.spaces k) }
{
    match memory.space(k) {
        Some((number, _)) => Some(number),
        None => None,
    }
}

fn forget(memory: &mut SpaceMemory, pool: &mut Pool, space: SpaceNo)
    requires agree { StandsWhole pool.old (roots memory.old) }
    ensures forgotten { memory.new ≡ forgotten space.0 memory.old }
    ensures keeps { KeepsBytes pool.old pool.new (roots memory.new) }
    ensures stands { StandsWhole pool.new (roots memory.new) }
    ensures frames { MemoryFrames pool.old pool.new (roots memory.old) (roots memory.new) }
{
    memory.forget(pool, space);
}
