//! The tasks and their pool.
ghost use Rattle.std.specs.Prelude.{◌≡◌, ◌==◌, ◌<◌, ◌≤◌, ℕ, List, [], ◌∷◌, ◌++◌, length, remove, true, Some, None, IfOk, OnOk, option_copied, slice_get};
ghost use Rattle.std.specs.List.{list_any};
ghost use Rattle.eu_base.specs.declared.value.Kind.{Kind};
ghost use Rattle.eu_base.specs.Requests.{plain, is_plain};
ghost use Rattle.eu_base.specs.Room.{cells_fit};
ghost use Rattle.cell_kinds.specs.Kinds.{packet_kinds};
ghost use Rattle.live_tasks.specs.Below.code_gen.specs.Codes.{IsCodeOf};
ghost use Rattle.elan_types.specs.Eval.{World};
ghost use Rattle.live_tasks.specs.Below.packet_store.specs.Units.{IsUnit};
ghost use Rattle.live_tasks.specs.Below.units.specs.Sound.{IsSoundUnit};
ghost use Rattle.live_tasks.specs.Below.system_meaning.specs.Stores.{Store, heir, tidied};
ghost use Rattle.live_tasks.specs.Below.system_meaning.specs.Tasks.{Command, Own, Idle as Idles, Running as Runs, now, starting, request_of, replied, own_variables, settled, store_in, with_doing};
ghost use Rattle.live_tasks.specs.Below.system_meaning.specs.Systems.{with_own, new_own};
ghost use Rattle.live_tasks.specs.Below.system_meaning.specs.Ends.{has_packet};
ghost use Rattle.live_tasks.specs.Below.system_meaning.specs.Monitor.{with_packet};
ghost use Rattle.live_tasks.specs.Below.live_task.specs.Stands.{IsWhole};
ghost use Rattle.task_tidy.specs.Tidied.{kinds_with};
ghost use Rattle.live_tasks.specs.Tasks.{Stand, StandOver, AgreeBut, WentOn, HaltedAs, most_tasks};

use cell_kinds::{CellKinds, Packet};
use code_form::Code;
use eu_base::{NoMemory, Reply, Request};
use page_pool::Pool;
use std::alloc::Global;
use std::marker::Model;
use task_tidy::{Compiled, Task, Went};

/// All tasks, in the order of the tree, over the pool of their pages.
#[derive(Drop)]
pub struct Tasks {
    pub(crate) pool: Pool,
    pub(crate) tasks: Vec<Task>,
}

impl Model for Tasks {
    ghost use Rattle.std.specs.Coded.{codes};
    ghost use Rattle.page_pool.specs.contracts.pool.Pool as pools;
    ghost use Rattle.live_tasks.specs.Below.live_task.specs.contracts.task.Task as one_task;
    ghost use Rattle.live_tasks.specs.Tasks.{Live, IsFit};

    ghost Value = { Live };

    ghost coded = { Prim.hlevel (codes, pools.the_row.coded, one_task.the_row.coded) };

    ghost view = { λ all. record { pages = all.pool; tasks = all.tasks.items } };

    ghost invariant = { λ all. IsFit all.pool all.tasks.items };
}

impl Tasks {
    /// `UR` and `PUBLIC`, which are idle and have nothing.
    pub fn opening(alloc: Global) -> Result<Tasks, NoMemory>
        ensures { IfOk result (λ tasks. (kinds_of : List ℕ → List Kind) → kinds_of [] ≡ [] → Stand kinds_of tasks (new_own ∷ (new_own ∷ []))) }
    {
        let pool = Pool::new(alloc)?;
        let mut tasks = Vec::with_capacity(alloc, 2)?;
        tasks.push_reserved(Task::new(alloc));
        tasks.push_reserved(Task::new(alloc));
        Ok(Tasks { pool, tasks })
    }

    /// Lets all tasks go, with their pages.
    pub fn let_go(self) {
        let Tasks { pool, tasks } = self;
        task_ends::all_let_go(tasks, pool);
    }

    /// How many there are.
    pub fn count(&self) -> usize
        ensures count { result ≡ length self.now.tasks }
        ensures few { result ≤ most_tasks }
        ensures owns { (kinds_of : List ℕ → List Kind) (owns : List Own) → Stand kinds_of self.now owns → result ≡ length owns }
    {
        self.tasks.len()
    }

    /// What a task asks and waits for.
    pub fn asked(&self, k: usize) -> Option<&Request>
        requires task { k < length self.now.tasks }
        ensures { (kinds_of : List ℕ → List Kind) (owns : List Own) (own : Own) → Stand kinds_of self.now owns → slice_get owns k ≡ Some own →
            option_copied result ≡ request_of own.doing }
    {
        self.tasks[k].asked()
    }

    /// The packets of a task, by their numbers in order.
    pub fn packets(&self, k: usize) -> &[u32]
        requires task { k < length self.now.tasks }
        ensures { (kinds_of : List ℕ → List Kind) (owns : List Own) (own : Own) → Stand kinds_of self.now owns → slice_get owns k ≡ Some own →
            result.now ≡ own.packets }
    {
        self.tasks[k].packets.as_slice()
    }

    /// Whether some task has a packet.
    pub fn has_packet(&self, number: u32) -> bool
        ensures { (kinds_of : List ℕ → List Kind) (owns : List Own) → Stand kinds_of self.now owns → result ≡ list_any (has_packet number) owns }
    {
        one_has(self.tasks.as_slice(), number)
    }

    /// An idle task starts a command, which then stands right before its first mark.
    pub fn start(
        &mut self,
        alloc: Global,
        k: usize,
        unit: Compiled,
        code: Code,
    ) -> Result<(), NoMemory>
        requires task { k < length self.old.tasks }
        requires unit { IsUnit unit }
        ensures { OnOk result ((kinds_of : List ℕ → List Kind) (owns : List Own) (own : Own) (store : Store) → IsCodeOf unit.core code → Stand kinds_of self.old owns →
            slice_get owns k ≡ Some own → own.doing ≡ Idles store → packet_kinds unit.core.packets ≡ kinds_of own.packets →
            Stand kinds_of self.new (with_own k (with_doing (Runs (starting unit store))) owns)) }
    {
        let task = &mut self.tasks[k];
        task.start(alloc, &mut self.pool, unit, code)
    }

    /// A task goes on with so many marks, where it runs a command: until a mark is due and none is left, it asks something, or its command is over.
    pub fn go_on(&mut self, k: usize, marks: &mut u32) -> Result<Went, NoMemory>
        requires task { k < length self.old.tasks }
        ensures went { IfOk result (λ went. (kinds_of : List ℕ → List Kind) (owns : List Own) (own : Own) → Stand kinds_of self.old owns →
            slice_get owns k ≡ Some own → WentOn kinds_of self.new owns k marks.old marks.new went own.doing) }
        ensures marks { OnOk result (marks.new ≤ marks.old) }
        ensures whole { IfOk result IsWhole }
    {
        let task = &mut self.tasks[k];
        task.go_on(&mut self.pool, marks)
    }

    /// A task gets a reply that is no message, where it asks something, and goes on to right before its next mark. Where it asks nothing, nothing
    /// changes.
    pub fn answer(&mut self, k: usize, reply: Reply) -> Result<(), NoMemory>
        requires task { k < length self.old.tasks }
        requires plain { is_plain reply ≡ true }
        ensures { OnOk result ((kinds_of : List ℕ → List Kind) (owns : List Own) → Stand kinds_of self.old owns →
            Stand kinds_of self.new (with_own k (λ o. with_doing (replied (plain reply) o.doing) o) owns)) }
    {
        let task = &mut self.tasks[k];
        task.answer(&mut self.pool, reply)
    }

    /// The command that a task runs is over where it stands.
    pub fn halt(&mut self, k: usize) -> Went
        requires task { k < length self.old.tasks }
        ensures halted { (kinds_of : List ℕ → List Kind) (owns : List Own) (own : Own) → Stand kinds_of self.old owns → slice_get owns k ≡ Some own →
            HaltedAs kinds_of self.new owns k result own.doing }
        ensures whole { IsWhole result }
    {
        let task = &mut self.tasks[k];
        task.halt(&mut self.pool)
    }

    /// A program of a task is over: the task is idle, and keeps what the program left.
    pub fn finish(&self, k: usize, unit: &Compiled)
        requires unit { IsSoundUnit unit.now }
        requires program { unit.now.shown ≡ None }
        ensures { (kinds_of : List ℕ → List Kind) (owns : List Own) (own : Own) (c : Command) (w : World) →
            StandOver kinds_of self.now owns k c w → slice_get owns k ≡ Some own → c.unit ≡ unit.now →
            Stand kinds_of self.now (with_own k (with_doing (Idles (store_in w))) owns) }
    {}

    /// The command of a task is over and was no insertion that is kept: what it left behind the variables of the task's packets goes.
    pub fn settle(&mut self, alloc: Global, k: usize, unit: &Compiled) -> Result<(), NoMemory>
        requires task { k < length self.old.tasks }
        ensures settled { OnOk result ((kinds_of : List ℕ → List Kind) (owns : List Own) (own : Own) (c : Command) (w : World) →
            StandOver kinds_of self.old owns k c w → slice_get owns k ≡ Some own → c.unit ≡ unit.now →
            Stand kinds_of self.new (with_own k (with_doing (Idles (settled (own_variables c) (store_in w)))) owns)) }
        ensures many { length self.new.tasks ≡ length self.old.tasks }
    {
        let task = &mut self.tasks[k];
        task_ends::settle(task, alloc, &mut self.pool, unit)
    }

    /// A task is idle behind a command: its data spaces go that nothing denotes. The kinds of the variables of its packets are those of these
    /// packets, and those that stand behind them.
    pub fn tidy(
        &mut self,
        alloc: Global,
        k: usize,
        packets: &[Packet],
        behind: &CellKinds,
    ) -> Result<(), NoMemory>
        requires task { k < length self.old.tasks }
        ensures { OnOk result ((kinds_of : List ℕ → List Kind) (owns : List Own) (own : Own) (store : Store) → Stand kinds_of self.old owns →
            slice_get owns k ≡ Some own → own.doing ≡ Idles store → kinds_with packets.now behind.now ≡ kinds_of own.packets →
            Stand kinds_of self.new (with_own k (with_doing (Idles (tidied store))) owns)) }
    {
        let task = &mut self.tasks[k];
        task_tidy::tidy(task, alloc, &mut self.pool, packets, behind)
    }

    /// The packet that the command of a task inserted becomes one of its packets, under a number, where there is room for the variables of all.
    pub fn install(&mut self, k: usize, number: u32) -> Result<(), NoMemory>
        requires task { k < length self.old.tasks }
        ensures installed { OnOk result ((kinds_of later : List ℕ → List Kind) (owns : List Own) (own : Own) (c : Command) (w : World) →
            StandOver kinds_of self.old owns k c w → slice_get owns k ≡ Some own → AgreeBut kinds_of later owns k →
            cells_fit (length (kinds_of own.packets ++ c.unit.core.inserted)) ≡ true →
            later (own.packets ++ number ∷ []) ≡ kinds_of own.packets ++ c.unit.core.inserted →
            Stand later self.new (with_own k (λ o. with_packet number (with_doing (Idles (store_in w)) o)) owns)) }
        ensures many { length self.new.tasks ≡ length self.old.tasks }
    {
        let task = &mut self.tasks[k];
        task.install(number)
    }

    /// A son of a task begins, and comes last: it has the variables of its father's packets, and nothing else.
    pub fn begin(&mut self, alloc: Global, father: usize) -> Result<(), NoMemory>
        requires father { father < length self.old.tasks }
        requires few { length self.old.tasks < most_tasks }
        ensures { OnOk result ((kinds_of : List ℕ → List Kind) (owns : List Own) (own : Own) → Stand kinds_of self.old owns →
            slice_get owns father ≡ Some own →
            Stand kinds_of self.new (owns ++ record { packets = own.packets; doing = Idles (heir (now own.doing)) } ∷ [])) }
    {
        self.tasks.reserve(1)?;
        let son = task_ends::son(&self.tasks[father], alloc, &mut self.pool)?;
        self.tasks.push_reserved(son);
        Ok(())
    }

    /// A task ends, and all that it has is let go.
    pub fn end(&mut self, k: usize)
        requires task { k < length self.old.tasks }
        ensures { (kinds_of : List ℕ → List Kind) (owns : List Own) → Stand kinds_of self.old owns → Stand kinds_of self.new (remove owns k) }
    {
        let task = self.tasks.remove(k);
        task.end(&mut self.pool);
    }
}

// Whether some task has a packet.
fn one_has(tasks: &[Task], number: u32) -> bool
    ensures { result ≡ list_any (λ task. list_any (λ p. p == number) task.packets) tasks.now }
{
    tasks.iter().any(|task| has(task, number))
}

// Whether a task has a packet.
fn has(task: &Task, number: u32) -> bool
    ensures { result ≡ list_any (λ p. p == number) task.now.packets }
{
    task.packets.as_slice().contains(&number)
}
