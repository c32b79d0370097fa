//! A task whose command is over and was no insertion that is kept.
ghost use Rattle.std.specs.Prelude.{◌≡◌, ◌≤◌, List, length, OnOk};
ghost use Rattle.eu_base.specs.declared.value.Kind.{Kind};
ghost use Rattle.task_ends.specs.Below.space_memory.specs.Memories.{roots, most_roots, StandsWhole};
ghost use Rattle.task_ends.specs.Below.task_job.specs.Here.{MemoryFrames};
ghost use Rattle.elan_types.specs.Eval.{World};
ghost use Rattle.task_ends.specs.Below.system_meaning.specs.Tasks.{Command, Own, Idle, own_variables, settled, store_in, with_doing};
ghost use Rattle.live_task.specs.Stands.{StandsFor, StandsOver, IsSound};

use crate::behind::free_behind;
use eu_base::NoMemory;
use live_task::{Compiled, Task};
use page_pool::Pool;
use std::alloc::Global;

/// The command was no insertion that is kept: what it left behind the variables of the task's packets goes.
pub fn settle(
    task: &mut Task,
    alloc: Global,
    pool: &mut Pool,
    unit: &Compiled,
) -> Result<(), NoMemory>
    requires agree { StandsWhole pool.old (roots task.old.memory) }
    ensures settled { OnOk result ((kinds : List Kind) (own : Own) (c : Command) (w : World) → StandsOver kinds pool.old task.old own c w →
        c.unit ≡ unit.now → StandsFor kinds pool.new task.new (with_doing (Idle (settled (own_variables c) (store_in w))) own)) }
    ensures same { task.new ≡ record task.old { memory = task.new.memory } }
    ensures sound { IsSound task.old → IsSound task.new }
    ensures few { length (roots task.new.memory) ≤ most_roots }
    ensures frames { MemoryFrames pool.old pool.new (roots task.old.memory) (roots task.new.memory) }
{
    free_behind(alloc, &mut task.memory, pool, unit)
}
