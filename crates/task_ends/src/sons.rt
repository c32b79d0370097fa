//! Sons.
ghost use Rattle.std.specs.Prelude.{◌≡◌, ◌++◌, List as Lists, length, IfOk, OnErr};
ghost use Rattle.eu_base.specs.declared.value.Kind.{Kind};
ghost use Rattle.task_ends.specs.Below.page_table.specs.Frames.{Stands};
ghost use Rattle.task_ends.specs.Below.task_job.specs.Here.{KeepsBytes};
ghost use Rattle.task_ends.specs.Below.space_memory.specs.Memories.{roots, most_roots};
ghost use Rattle.task_ends.specs.Below.system_meaning.specs.Stores.{heir};
ghost use Rattle.task_ends.specs.Below.system_meaning.specs.Tasks.{Own, Idle, now};
ghost use Rattle.task_ends.specs.Below.task_job.specs.Standing.{Keeps};
ghost use Rattle.live_task.specs.Stands.{StandsFor, IsSound};
ghost use Rattle.task_ends.specs.Refused.{RoomFrames, Refused};

use crate::behind::free_behind;
use crate::below::of_space_memory::SpaceMemory;
use eu_base::{List, NoMemory};
use live_task::{Doing, Task};
use page_pool::Pool;
use std::alloc::Global;

/// A son, which has the variables of the packets and nothing else, under the same packets. Meanwhile there is room for all data spaces that
/// a task can have. Where there is no memory, all spaces keep their bytes.
pub fn son(task: &Task, alloc: Global, pool: &mut Pool) -> Result<Task, NoMemory>
    requires agree { Stands pool.old (roots task.now.memory) most_roots }
    ensures son { IfOk result (λ son. (kinds : Lists Kind) (own : Own) → StandsFor kinds pool.old task.now own →
        StandsFor kinds pool.new son (record { packets = own.packets; doing = Idle (heir (now own.doing)) })) }
    ensures father { (kinds : Lists Kind) (own : Own) → StandsFor kinds pool.old task.now own → StandsFor kinds pool.new task.now own }
    ensures sound { IfOk result IsSound }
    ensures spaces { IfOk result (λ son. length (roots son.memory) ≡ 2) }
    ensures frames { IfOk result (λ son. RoomFrames pool.old pool.new (roots task.now.memory) (roots task.now.memory ++ roots son.memory) most_roots) }
    ensures err { OnErr result (Refused pool.old pool.new (roots task.now.memory) most_roots) }
{
    let packets = List::from_slice(alloc, task.packets.as_slice())?;
    let memory = son_memory(task, alloc, pool)?;
    Ok(Task {
        packets,
        memory,
        doing: Doing::Idle,
    })
}

// The memory of a son. Of a father that runs a command, the variables of a packet that is inserted do not come along.
fn son_memory(task: &Task, alloc: Global, pool: &mut Pool) -> Result<SpaceMemory, NoMemory>
    requires agree { Stands pool.old (roots task.now.memory) most_roots }
    ensures keeps { IfOk result (λ memory. (kinds : Lists Kind) (own : Own) → StandsFor kinds pool.old task.now own →
        Keeps kinds pool.new memory (heir (now own.doing))) }
    ensures kept { KeepsBytes pool.old pool.new (roots task.now.memory) }
    ensures spaces { IfOk result (λ memory. length (roots memory) ≡ 2) }
    ensures frames { IfOk result (λ memory. RoomFrames pool.old pool.new (roots task.now.memory) (roots task.now.memory ++ roots memory) most_roots) }
    ensures err { OnErr result (Refused pool.old pool.new (roots task.now.memory) most_roots) }
{
    let mut memory = task.memory.inherit(pool)?;
    let Doing::Running(job) = &task.doing else {
        return Ok(memory);
    };
    match free_behind(alloc, &mut memory, pool, &job.unit) {
        Ok(()) => Ok(memory),
        Err(NoMemory) => {
            memory.end(pool);
            Err(NoMemory)
        }
    }
}
