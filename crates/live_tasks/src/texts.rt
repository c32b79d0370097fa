//! Texts of one of the tasks.
ghost use Rattle.std.specs.Prelude.{◌≡◌, ◌<◌, ◌≤◌, ◌++◌, ℕ, List as Lists, [], ◌∷◌, length, nat_le, false, Some, None, OnOk, slice_get};
ghost use Rattle.eu_base.specs.declared.value.Kind.{Kind};
ghost use Rattle.live_tasks.specs.Below.space_memory.specs.Memories.{roots, most_roots};
ghost use Rattle.live_tasks.specs.Below.source_texts.specs.declared.shape.TheConstants.{LONGEST_LINE};
ghost use Rattle.live_tasks.specs.Below.source_texts.specs.Sources.{most_lines, source_space};
ghost use Rattle.live_tasks.specs.Below.system_meaning.specs.Stores.{Store, entering_refusal, with_named};
ghost use Rattle.live_tasks.specs.Below.system_meaning.specs.Tasks.{Own, Idle as Idles, Entering as Enters, with_doing};
ghost use Rattle.live_tasks.specs.Below.system_meaning.specs.Systems.{with_own};
ghost use Rattle.live_tasks.specs.Below.task_texts.specs.Doings.{is_entering};
ghost use Rattle.live_tasks.specs.Tasks.{Stand};

use crate::below::of_space_memory::SpaceMemory;
use crate::tasks::Tasks;
use eu_base::{Bytes, NoMemory};
use std::alloc::Global;

impl Tasks {
    /// An idle task begins to enter a text under a name, where nothing speaks against it; else nothing happens.
    pub fn enter(&mut self, alloc: Global, k: usize, name: &[u8]) -> Result<(), NoMemory>
        requires task { k < length self.old.tasks }
        ensures { OnOk result ((kinds_of : Lists ℕ → Lists Kind) (owns : Lists Own) (own : Own) (store : Store) → Stand kinds_of self.old owns →
            slice_get owns k ≡ Some own → own.doing ≡ Idles store → entering_refusal name.now store ≡ None →
            Stand kinds_of self.new (with_own k (with_doing (Enters name.now [] store)) owns)) }
    {
        let task = &mut self.tasks[k];
        task_tidy::enter(alloc, task, name)
    }

    /// A line comes last in the text that is entered, where it has room; else nothing happens.
    pub fn add_line(&mut self, k: usize, line: Bytes) -> Result<(), NoMemory>
        requires task { k < length self.old.tasks }
        requires short { length line ≤ LONGEST_LINE }
        ensures { OnOk result ((kinds_of : Lists ℕ → Lists Kind) (owns : Lists Own) (own : Own) (name : Lists ℕ) (lines : Lists (Lists ℕ)) (store : Store) →
            Stand kinds_of self.old owns → slice_get owns k ≡ Some own → own.doing ≡ Enters name lines store →
            nat_le most_lines (length lines) ≡ false →
            Stand kinds_of self.new (with_own k (with_doing (Enters name (lines ++ line ∷ []) store)) owns)) }
    {
        let task = &mut self.tasks[k];
        task_tidy::add_line(task, line)
    }

    /// The text that is entered is dropped, and the task is idle; where none is entered, nothing happens.
    pub fn drop_text(&mut self, k: usize)
        requires task { k < length self.old.tasks }
        ensures dropped { (kinds_of : Lists ℕ → Lists Kind) (owns : Lists Own) (own : Own) (name : Lists ℕ) (lines : Lists (Lists ℕ)) (store : Store) →
            Stand kinds_of self.old owns → slice_get owns k ≡ Some own → own.doing ≡ Enters name lines store →
            Stand kinds_of self.new (with_own k (with_doing (Idles store)) owns) }
        ensures none { (kinds_of : Lists ℕ → Lists Kind) (owns : Lists Own) (own : Own) → Stand kinds_of self.old owns → slice_get owns k ≡ Some own →
            is_entering own.doing ≡ false → Stand kinds_of self.new owns }
    {
        let task = &mut self.tasks[k];
        task_tidy::drop_text(task);
    }

    /// The text that is entered ends: it is kept as a space under its name, and the task is idle.
    pub fn close_text(&mut self, alloc: Global, k: usize) -> Result<(), NoMemory>
        requires task { k < length self.old.tasks }
        ensures { OnOk result ((kinds_of : Lists ℕ → Lists Kind) (owns : Lists Own) (own : Own) (name : Lists ℕ) (lines : Lists (Lists ℕ)) (store : Store) →
            Stand kinds_of self.old owns → slice_get owns k ≡ Some own → own.doing ≡ Enters name lines store →
            Stand kinds_of self.new (with_own k (with_doing (Idles (with_named name (source_space lines) store))) owns)) }
    {
        let task = &mut self.tasks[k];
        let closed = task_tidy::close_text(alloc, task, &mut self.pool);
        has_few(&task.memory);
        closed
    }
}

// The space of a command, that of the packets, and at most 16 data spaces.
fn has_few(memory: &SpaceMemory)
    ensures { length (roots memory.now) ≤ most_roots }
{
    let _few = memory.count();
}
