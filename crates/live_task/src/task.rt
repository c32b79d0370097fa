//! A task.
ghost use Rattle.std.specs.Prelude.{◌≡◌, ◌≤◌, true, [], ◌∷◌, ◌++◌, List, length, IfOk, OnOk, OnErr, option_copied};
ghost use Rattle.eu_base.specs.declared.value.Kind.{Kind};
ghost use Rattle.eu_base.specs.Requests.{Answer};
ghost use Rattle.eu_base.specs.Room.{cells_fit};
ghost use Rattle.live_task.specs.Below.cell_kinds.specs.Kinds.{packet_kinds};
ghost use Rattle.page_pool.specs.Pool.{Pages};
ghost use Rattle.live_task.specs.Below.page_table.specs.Frames.{Stands};
ghost use Rattle.code_form.specs.Runs.{asked};
ghost use Rattle.live_task.specs.Below.code_gen.specs.Codes.{IsCodeOf};
ghost use Rattle.live_task.specs.Below.packet_store.specs.Units.{IsUnit};
ghost use Rattle.live_task.specs.Below.space_memory.specs.Memories.{roots, most_roots, StandsWhole};
ghost use Rattle.task_job.specs.Here.{Knows, Frames, MemoryFrames};
ghost use Rattle.live_task.specs.Below.system_meaning.specs.Stores.{Store, new_store};
ghost use Rattle.live_task.specs.Below.system_meaning.specs.Tasks.{Command, Own, Idle as Idles, Running as Runs, starting, request_of, replied, store_in, with_doing};
ghost use Rattle.live_task.specs.Below.system_meaning.specs.Monitor.{with_packet};
ghost use Rattle.elan_types.specs.Eval.{World};
ghost use Rattle.live_task.specs.declared.task.Doing.TheVariants.{Idle, Running};
ghost use Rattle.task_job.specs.declared.job.Job.{Job};
ghost use Rattle.live_task.specs.Stands.{StandsFor, StandsOver, Due, IsSound, IsWhole, EndsAs, WentOn, HaltedAs};

use crate::below::of_space_memory::SpaceMemory;
use code_form::{Code, Halt};
use eu_base::{Bytes, List, NoMemory, Reply, Request, Stop};
use page_pool::Pool;
use std::alloc::Global;
use std::mem;
use task_job::{Compiled, Job, let_run_go};

/// What a task does.
#[derive(Drop)]
pub enum Doing {
    /// Nothing: it takes the next line.
    Idle,
    /// A text is entered line by line under a name.
    Entering { name: Bytes, lines: List<Bytes> },
    /// It runs a command.
    Running(Job),
}

/// How a task went on.
#[derive(Drop)]
pub enum Went {
    /// It runs no command.
    NotRunning,
    /// A mark is due and none is left.
    Marked,
    /// It asks this, and waits for a reply.
    Asks(Request),
    /// Its command has ended or stopped, and the task is idle.
    Over {
        unit: Compiled,
        code: Code,
        stop: Option<Stop>,
    },
}

/// Its packets, by their numbers in order, its memory, and what it does.
#[derive(Drop)]
pub struct Task {
    pub packets: List<u32>,
    pub memory: SpaceMemory,
    pub doing: Doing,
}

impl Doing {
    /// Lets it go.
    pub fn let_go(self) {
        match self {
            Doing::Idle => {}
            Doing::Entering { name, lines } => {
                mem::drop(name);
                mem::drop(lines);
            }
            Doing::Running(job) => job.let_go(),
        }
    }
}

impl Task {
    /// A task that is idle and has nothing.
    pub fn new(alloc: Global) -> Task
        ensures new { (pages : Pages) → Knows pages → StandsFor [] pages result (record { packets = []; doing = Idles new_store }) }
        ensures sound { IsSound result }
        ensures frames { (pages : Pages) → Frames pages pages [] (roots result.memory) }
    {
        Task {
            packets: List::new(alloc),
            memory: SpaceMemory::new(alloc),
            doing: Doing::Idle,
        }
    }

    /// Lets all go that it has.
    pub fn end(self, pool: &mut Pool)
        requires agree { Stands pool.old (roots self.memory) 0 }
        ensures frames { Frames pool.old pool.new (roots self.memory) [] }
    {
        let Task {
            packets,
            memory,
            doing,
        } = self;
        mem::drop(packets);
        doing.let_go();
        memory.end(pool);
    }

    /// What it asks and waits for.
    pub fn asked(&self) -> Option<&Request>
        ensures request { (kinds : List Kind) (pages : Pages) (own : Own) → StandsFor kinds pages self.now own →
            option_copied result ≡ request_of own.doing }
        ensures waits { (job : Job) → self.now.doing ≡ Running job → option_copied result ≡ asked job.run.waits }
    {
        match &self.doing {
            Doing::Running(job) => job.run.asked(),
            Doing::Idle | Doing::Entering { .. } => None,
        }
    }

    /// An idle task starts a command, which then stands right before its first mark.
    pub fn start(
        &mut self,
        alloc: Global,
        pool: &mut Pool,
        unit: Compiled,
        code: Code,
    ) -> Result<(), NoMemory>
        requires unit { IsUnit unit }
        requires sound { IsSound self.old }
        requires agree { StandsWhole pool.old (roots self.old.memory) }
        ensures starts { OnOk result ((own : Own) (store : Store) → IsCodeOf unit.core code → own.doing ≡ Idles store →
            StandsFor (packet_kinds unit.core.packets) pool.old self.old own →
            StandsFor (packet_kinds unit.core.packets) pool.new self.new (with_doing (Runs (starting unit store)) own)) }
        ensures sound { IsSound self.new }
        ensures few { length (roots self.new.memory) ≤ most_roots }
        ensures frames { MemoryFrames pool.old pool.new (roots self.old.memory) (roots self.new.memory) }
    {
        match Job::of(alloc, unit, code, &mut self.memory, pool) {
            Ok(job) => {
                mem::replace(&mut self.doing, Doing::Running(job)).let_go();
                Ok(())
            }
            Err(NoMemory) => {
                self.drop_job();
                Err(NoMemory)
            }
        }
    }

    /// Goes on with so many marks, where it runs a command: until a mark is due and none is left, it asks something, or its command is over.
    pub fn go_on(&mut self, pool: &mut Pool, marks: &mut u32) -> Result<Went, NoMemory>
        requires sound { IsSound self.old }
        requires agree { StandsWhole pool.old (roots self.old.memory) }
        ensures went { IfOk result (λ went. (kinds : List Kind) (own : Own) → StandsFor kinds pool.old self.old own →
            WentOn kinds pool.new self.new marks.old marks.new went own own.doing) }
        ensures marks { OnOk result (marks.new ≤ marks.old) }
        ensures whole { IfOk result IsWhole }
        ensures sound { IsSound self.new }
        ensures few { length (roots self.new.memory) ≤ most_roots }
        ensures frames { MemoryFrames pool.old pool.new (roots self.old.memory) (roots self.new.memory) }
    {
        let Doing::Running(job) = &mut self.doing else {
            return Ok(Went::NotRunning);
        };
        match job.go_on(&mut self.memory, pool, marks) {
            Ok(Halt::Marked) => Ok(Went::Marked),
            Ok(Halt::Asks(request)) => Ok(Went::Asks(request)),
            Ok(Halt::Ended) => Ok(self.over(pool, None)),
            Ok(Halt::Stopped(stop)) => Ok(self.over(pool, Some(stop))),
            Err(NoMemory) => {
                self.drop_job();
                Err(NoMemory)
            }
        }
    }

    /// Gets the reply of an answer that is due, where it asks something, and goes on to right before its next mark. Where it asks nothing, nothing
    /// changes.
    pub fn answer(&mut self, pool: &mut Pool, reply: Reply) -> Result<(), NoMemory>
        requires sound { IsSound self.old }
        requires agree { StandsWhole pool.old (roots self.old.memory) }
        ensures answered { OnOk result ((kinds : List Kind) (own : Own) (a : Answer) → a.reply ≡ reply → Due kinds pool.old self.old own a →
            StandsFor kinds pool.new self.new (with_doing (replied a own.doing) own)) }
        ensures sound { IsSound self.new }
        ensures few { length (roots self.new.memory) ≤ most_roots }
        ensures frames { MemoryFrames pool.old pool.new (roots self.old.memory) (roots self.new.memory) }
    {
        if self.asked().is_none() {
            return Ok(());
        }
        let Doing::Running(job) = &mut self.doing else {
            return Ok(());
        };
        match job.answer(&mut self.memory, pool, reply) {
            Ok(()) => Ok(()),
            Err(NoMemory) => {
                self.drop_job();
                Err(NoMemory)
            }
        }
    }

    /// The command that it runs is over where it stands.
    pub fn halt(&mut self, pool: &mut Pool) -> Went
        requires sound { IsSound self.old }
        requires agree { Stands pool.old (roots self.old.memory) 0 }
        ensures halted { (kinds : List Kind) (own : Own) → StandsFor kinds pool.old self.old own → HaltedAs kinds pool.new self.new result own own.doing }
        ensures whole { IsWhole result }
        ensures sound { IsSound self.new }
        ensures as_many { length (roots self.new.memory) ≡ length (roots self.old.memory) }
        ensures frames { Frames pool.old pool.new (roots self.old.memory) (roots self.new.memory) }
    {
        self.over(pool, Some(Stop::Halted))
    }

    /// The packet that its command inserted becomes one of its packets, under a number, where there is room for the variables of all. A refusal changes nothing.
    pub fn install(&mut self, number: u32) -> Result<(), NoMemory>
        ensures installed { OnOk result ((kinds : List Kind) (pages : Pages) (own : Own) (c : Command) (w : World) →
            StandsOver kinds pages self.old own c w → cells_fit (length (kinds ++ c.unit.core.inserted)) ≡ true →
            StandsFor (kinds ++ c.unit.core.inserted) pages self.new (with_packet number (with_doing (Idles (store_in w)) own))) }
        ensures ok { OnOk result (self.new ≡ record self.old { packets = self.old.packets ++ number ∷ [] }) }
        ensures sound { IsSound self.old → IsSound self.new }
        ensures err { OnErr result (self.new ≡ self.old) }
    {
        self.packets.push(number)
    }

    // Nothing is known of a command that memory was wanting for: the task is idle.
    fn drop_job(&mut self)
        ensures idle { self.new ≡ record self.old { doing = Idle } }
    {
        mem::replace(&mut self.doing, Doing::Idle).let_go();
    }

    // The command that it runs is over: the task is idle, and the cells of the command are cleared.
    fn over(&mut self, pool: &mut Pool, stop: Option<Stop>) -> Went
        requires agree { Stands pool.old (roots self.old.memory) 0 }
        ensures ends { EndsAs pool.old pool.new self.old self.new stop result self.old.doing }
        ensures sound { IsSound self.old → IsSound self.new }
        ensures as_many { length (roots self.new.memory) ≡ length (roots self.old.memory) }
        ensures frames { Frames pool.old pool.new (roots self.old.memory) (roots self.new.memory) }
    {
        match mem::replace(&mut self.doing, Doing::Idle) {
            Doing::Running(job) => {
                self.memory.clear_run(pool);
                let Job { unit, code, run } = job;
                let_run_go(run);
                Went::Over { unit, code, stop }
            }
            doing => {
                mem::replace(&mut self.doing, doing).let_go();
                Went::NotRunning
            }
        }
    }
}
