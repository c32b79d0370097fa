//! Runs over the memory of a task, which is lent with its pool.
ghost use Rattle.std.specs.Prelude.{◌≡◌, ◌≤◌, IfOk, OnOk, IsSome};
ghost use Rattle.eu_base.specs.declared.request.Request.{Request};
ghost use Rattle.eu_base.specs.Cells.{Cells};
ghost use Rattle.code_form.specs.declared.waits.Waits.TheVariants as waits;
ghost use Rattle.code_form.specs.Machine.{Rest, start, answered, made, CanBeMade};
ghost use Rattle.code_form.specs.Valid.{Fits};
ghost use Rattle.code_form.specs.Runs.{Rests, asked};
ghost use Rattle.task_job.specs.Below.zero_state.specs.Stepping.{mem_of, scene_of};
ghost use Rattle.task_job.specs.Below.zero_machine.specs.Running.{RestsSo};
ghost use Rattle.space_memory.specs.Memories.{roots, memory_heads, StandsWhole};
ghost use Rattle.task_job.specs.Here.{HoldsAll, MemoryFrames};

use code_form::{Code, Halt};
use eu_base::{MemFault, NoMemory, Nowhere, Reply};
use page_pool::Pool;
use space_memory::SpaceMemory;
use std::alloc::Global;
use task_run::TaskRun;

/// Starts a command.
pub(crate) fn start_over(
    alloc: Global,
    code: &Code,
    memory: &mut SpaceMemory,
    pool: &mut Pool,
) -> Result<TaskRun, NoMemory>
    requires agree { StandsWhole pool.old (roots memory.old) }
    ensures run { IfOk result (λ run. run ≡ start code.now) }
    ensures fits { IfOk result (λ run. Fits code.now run) }
    ensures made { OnOk result ((cells : Cells) → HoldsAll pool.old memory.old cells → CanBeMade code.now cells →
        HoldsAll pool.new memory.new (made code.now cells)) }
    ensures heads { OnOk result (memory_heads memory.new ≡ memory_heads memory.old) }
    ensures stands { StandsWhole pool.new (roots memory.new) }
    ensures frames { MemoryFrames pool.old pool.new (roots memory.old) (roots memory.new) }
{
    let mut nowhere = Nowhere;
    let mut lent = memory.over(pool, &mut nowhere);
    match TaskRun::start(alloc, code, &mut lent) {
        Ok(run) => Ok(run),
        Err(MemFault::NoMemory) => Err(NoMemory),
        // What reads as zeros has no faults.
        Err(MemFault::Failed) => unreachable!(),
    }
}

/// Goes on until a mark is due and none is left, something is asked, or the command ends or stops.
pub(crate) fn go_over(
    code: &Code,
    run: &mut TaskRun,
    memory: &mut SpaceMemory,
    pool: &mut Pool,
    marks: &mut u32,
) -> Result<Halt, NoMemory>
    requires fits { Fits code.now run.old }
    requires agree { StandsWhole pool.old (roots memory.old) }
    ensures rests { IfOk result (λ halt. (cells : Cells) (r : Rest) → HoldsAll pool.old memory.old cells →
        Rests code.now run.old (scene_of (mem_of (memory_heads memory.old) cells) marks.old) r →
        RestsSo (HoldsAll pool.new memory.new) (memory_heads memory.new) halt run.new marks.new r) }
    ensures marks { OnOk result (marks.new ≤ marks.old) }
    ensures fits { OnOk result (Fits code.now run.new) }
    ensures stands { StandsWhole pool.new (roots memory.new) }
    ensures frames { MemoryFrames pool.old pool.new (roots memory.old) (roots memory.new) }
{
    let mut nowhere = Nowhere;
    let mut lent = memory.over(pool, &mut nowhere);
    match run.go(code, &mut lent, marks) {
        Ok(halt) => Ok(halt),
        Err(MemFault::NoMemory) => Err(NoMemory),
        // What reads as zeros has no faults.
        Err(MemFault::Failed) => unreachable!(),
    }
}

/// Gives a reply to the request that is waited for.
pub(crate) fn answer_over(
    code: &Code,
    run: &mut TaskRun,
    memory: &mut SpaceMemory,
    pool: &mut Pool,
    reply: Reply,
) -> Result<(), NoMemory>
    requires fits { Fits code.now run.old }
    requires asks { IsSome (asked run.old.waits) }
    requires agree { StandsWhole pool.old (roots memory.old) }
    ensures answered { OnOk result ((request : Request) → run.old.waits ≡ waits.Asked request →
        run.new ≡ answered request reply run.old.position) }
    ensures fits { OnOk result (Fits code.now run.new) }
    ensures kept { (cells : Cells) → HoldsAll pool.old memory.old cells → HoldsAll pool.new memory.new cells }
    ensures heads { memory_heads memory.new ≡ memory_heads memory.old }
    ensures stands { StandsWhole pool.new (roots memory.new) }
    ensures frames { MemoryFrames pool.old pool.new (roots memory.old) (roots memory.new) }
{
    let mut nowhere = Nowhere;
    let mut lent = memory.over(pool, &mut nowhere);
    match run.answer(code, &mut lent, reply) {
        Ok(()) => Ok(()),
        Err(MemFault::NoMemory) => Err(NoMemory),
        // What reads as zeros has no faults.
        Err(MemFault::Failed) => unreachable!(),
    }
}
