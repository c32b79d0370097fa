//! A command that runs over the memory of its task.
ghost use Rattle.std.specs.Prelude.{◌≡◌, ◌≤◌, List, IfOk, OnOk, IsSome};
ghost use Rattle.eu_base.specs.declared.value.Kind.{Kind};
ghost use Rattle.eu_base.specs.declared.request.Request.{Request};
ghost use Rattle.eu_base.specs.Requests.{Answer};
ghost use Rattle.task_job.specs.Below.cell_kinds.specs.Kinds.{packet_kinds};
ghost use Rattle.code_form.specs.declared.waits.Waits.TheVariants as waits;
ghost use Rattle.code_form.specs.Runs.{asked};
ghost use Rattle.task_job.specs.Below.code_gen.specs.Codes.{IsCodeOf};
ghost use Rattle.packet_store.specs.Units.{IsUnit};
ghost use Rattle.page_pool.specs.Pool.{Pages};
ghost use Rattle.space_memory.specs.Memories.{MemoryData, roots, StandsWhole};
ghost use Rattle.task_job.specs.Here.{MemoryFrames};
ghost use Rattle.system_meaning.specs.Stores.{Store};
ghost use Rattle.system_meaning.specs.Tasks.{Command, ending, starting, with_reply};
ghost use Rattle.task_job.specs.Standing.{Keeps, ReachesFor, RunsFor, RestsFor, Receives, IsSoundJob};

use crate::lent::{answer_over, go_over, start_over};
use crate::{Compiled, let_run_go, let_unit_go};
use code_form::{Code, Halt};
use eu_base::{NoMemory, Reply};
use page_pool::Pool;
use space_memory::SpaceMemory;
use std::alloc::Global;
use task_run::TaskRun;

/// A command that runs: what it is compiled from and to, its code, and where it stands.
#[derive(Drop)]
pub struct Job {
    pub unit: Compiled,
    pub code: Code,
    pub run: TaskRun,
}

impl Job {
    /// What runs a unit from its start on: it stands right before its first mark.
    pub fn of(
        alloc: Global,
        unit: Compiled,
        code: Code,
        memory: &mut SpaceMemory,
        pool: &mut Pool,
    ) -> Result<Job, NoMemory>
        requires unit { IsUnit unit }
        requires agree { StandsWhole pool.old (roots memory.old) }
        ensures starts { IfOk result (λ job. (store : Store) → IsCodeOf unit.core code → Keeps (packet_kinds unit.core.packets) pool.old memory.old store →
            RunsFor (packet_kinds unit.core.packets) pool.new memory.new job (starting unit store)) }
        ensures sound { IfOk result (λ job. IsSoundJob job) }
        ensures stands { StandsWhole pool.new (roots memory.new) }
        ensures frames { MemoryFrames pool.old pool.new (roots memory.old) (roots memory.new) }
    {
        match start_over(alloc, &code, memory, pool) {
            Ok(run) => Job { unit, code, run }.settle(memory, pool),
            Err(NoMemory) => {
                let_unit_go(unit);
                code.let_go();
                Err(NoMemory)
            }
        }
    }

    // Goes on to right before its first mark.
    fn settle(mut self, memory: &mut SpaceMemory, pool: &mut Pool) -> Result<Job, NoMemory>
        requires sound { IsSoundJob self }
        requires agree { StandsWhole pool.old (roots memory.old) }
        ensures settled { IfOk result (λ job. (kinds : List Kind) (c : Command) → ReachesFor kinds pool.old memory.old self c →
            RunsFor kinds pool.new memory.new job c) }
        ensures sound { IfOk result (λ job. IsSoundJob job) }
        ensures stands { StandsWhole pool.new (roots memory.new) }
        ensures frames { MemoryFrames pool.old pool.new (roots memory.old) (roots memory.new) }
    {
        let mut none = 0;
        match go_over(&self.code, &mut self.run, memory, pool, &mut none) {
            Ok(_halt) => Ok(self),
            Err(NoMemory) => {
                self.let_go();
                Err(NoMemory)
            }
        }
    }

    /// Lets it go.
    pub fn let_go(self) {
        let Job { unit, code, run } = self;
        let_unit_go(unit);
        code.let_go();
        let_run_go(run);
    }

    /// Goes on until it comes to rest, with at most so many marks.
    pub fn go_on(
        &mut self,
        memory: &mut SpaceMemory,
        pool: &mut Pool,
        marks: &mut u32,
    ) -> Result<Halt, NoMemory>
        requires sound { IsSoundJob self.old }
        requires agree { StandsWhole pool.old (roots memory.old) }
        ensures rests { IfOk result (λ halt. (kinds : List Kind) (c : Command) → RunsFor kinds pool.old memory.old self.old c →
            RestsFor kinds pool.new memory.new self.new marks.old marks.new halt c (ending c marks.old)) }
        ensures marks { OnOk result (marks.new ≤ marks.old) }
        ensures same { self.new ≡ record self.old { run = self.new.run } }
        ensures sound { OnOk result (IsSoundJob self.new) }
        ensures stands { StandsWhole pool.new (roots memory.new) }
        ensures frames { MemoryFrames pool.old pool.new (roots memory.old) (roots memory.new) }
    {
        let halt = go_over(&self.code, &mut self.run, memory, pool, marks)?;
        Ok(halt)
    }

    /// Gets the reply of an answer to what it asks, and goes on to right before its next mark. What the answer does to the data spaces of the memory
    /// is done already.
    pub fn answer(
        &mut self,
        memory: &mut SpaceMemory,
        pool: &mut Pool,
        reply: Reply,
    ) -> Result<(), NoMemory>
        requires sound { IsSoundJob self.old }
        requires asks { IsSome (asked self.old.run.waits) }
        requires agree { StandsWhole pool.old (roots memory.old) }
        ensures answered { OnOk result ((kinds : List Kind) (c : Command) (request : Request) (a : Answer) (pages : Pages) (before : MemoryData) →
            self.old.run.waits ≡ waits.Asked request → a.reply ≡ reply → Receives request a pages pool.old before memory.old →
            RunsFor kinds pages before self.old c → RunsFor kinds pool.new memory.new self.new (with_reply a c)) }
        ensures sound { OnOk result (IsSoundJob self.new) }
        ensures stands { StandsWhole pool.new (roots memory.new) }
        ensures frames { MemoryFrames pool.old pool.new (roots memory.old) (roots memory.new) }
    {
        answer_over(&self.code, &mut self.run, memory, pool, reply)?;
        let mut none = 0;
        go_over(&self.code, &mut self.run, memory, pool, &mut none)?;
        Ok(())
    }
}
