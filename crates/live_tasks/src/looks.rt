//! What is told of the tasks and of their texts.
ghost use Rattle.std.specs.Prelude.{◌≡◌, ◌<◌, ◌≤◌, ◌*◌, ℕ, List as Lists, length, map, sum, nat_le, not, Some, IfOk, slice_get};
ghost use Rattle.eu_base.specs.declared.value.Kind.{Kind};
ghost use Rattle.page_pool.specs.Pool.{Pages};
ghost use Rattle.live_tasks.specs.Below.source_texts.specs.Sources.{most_lines};
ghost use Rattle.live_tasks.specs.Below.named_texts.specs.Sources.{source_in, IsShort};
ghost use Rattle.live_tasks.specs.Below.system_meaning.specs.Stores.{Store, entering_refusal, space_under};
ghost use Rattle.live_tasks.specs.Below.system_meaning.specs.Tasks.{Own, Entering as Enters, now, is_running};
ghost use Rattle.live_tasks.specs.Below.system_meaning.specs.Monitor.{directory_of};
ghost use Rattle.live_tasks.specs.Below.system_meaning.specs.Supervisor.{spaces_of, state_of};
ghost use Rattle.live_tasks.specs.Below.task_texts.specs.Doings.{is_idle, is_entering};
ghost use Rattle.live_tasks.specs.Tasks.{Stand, StandIn, most_tasks};

use crate::tasks::Tasks;
use eu_base::{Bytes, List, NoMemory, Stop};
use std::alloc::Global;
use task_tidy::{Source, Task};

impl Tasks {
    /// Whether a task runs no command, and no text is entered.
    pub fn is_idle(&self, k: usize) -> bool
        requires task { k < length self.now.tasks }
        ensures { (kinds_of : Lists ℕ → Lists Kind) (owns : Lists Own) (own : Own) → Stand kinds_of self.now owns → slice_get owns k ≡ Some own →
            result ≡ is_idle own.doing }
    {
        task_tidy::is_idle(&self.tasks[k])
    }

    /// Whether a text is entered.
    pub fn is_entering(&self, k: usize) -> bool
        requires task { k < length self.now.tasks }
        ensures { (kinds_of : Lists ℕ → Lists Kind) (owns : Lists Own) (own : Own) → Stand kinds_of self.now owns → slice_get owns k ≡ Some own →
            result ≡ is_entering own.doing }
    {
        task_tidy::is_entering(&self.tasks[k])
    }

    /// Whether a task runs a command.
    pub fn is_running(&self, k: usize) -> bool
        requires task { k < length self.now.tasks }
        ensures { (kinds_of : Lists ℕ → Lists Kind) (owns : Lists Own) (own : Own) → Stand kinds_of self.now owns → slice_get owns k ≡ Some own →
            result ≡ is_running own.doing }
    {
        let task = &self.tasks[k];
        !task_tidy::is_idle(task) && !task_tidy::is_entering(task)
    }

    /// Whether a text is entered that has fewer lines than the most.
    pub fn has_room(&self, k: usize) -> bool
        requires task { k < length self.now.tasks }
        ensures { (kinds_of : Lists ℕ → Lists Kind) (owns : Lists Own) (own : Own) (name : Lists ℕ) (lines : Lists (Lists ℕ)) (store : Store) →
            Stand kinds_of self.now owns → slice_get owns k ≡ Some own → own.doing ≡ Enters name lines store →
            result ≡ not (nat_le most_lines (length lines)) }
    {
        task_tidy::has_room(&self.tasks[k])
    }

    /// Why no text can be entered under a name.
    pub fn entering_refusal(&self, k: usize, name: &[u8]) -> Option<Stop>
        requires task { k < length self.now.tasks }
        ensures { (kinds_of : Lists ℕ → Lists Kind) (owns : Lists Own) (own : Own) → Stand kinds_of self.now owns → slice_get owns k ≡ Some own →
            result ≡ entering_refusal name.now (now own.doing) }
    {
        task_tidy::entering_refusal(&self.tasks[k], name)
    }

    /// The names of the task's directory, in order of entry.
    pub fn names(&self, alloc: Global, k: usize) -> Result<List<Bytes>, NoMemory>
        requires task { k < length self.now.tasks }
        ensures { IfOk result (λ names. (kinds_of : Lists ℕ → Lists Kind) (owns : Lists Own) (own : Own) → Stand kinds_of self.now owns →
            slice_get owns k ≡ Some own → names ≡ directory_of (now own.doing)) }
    {
        task_tidy::names(alloc, &self.tasks[k])
    }

    /// Whether the task is idle, entering, running or waiting, in a word.
    pub fn state(&self, k: usize) -> &'static [u8]
        requires task { k < length self.now.tasks }
        ensures { (kinds_of : Lists ℕ → Lists Kind) (owns : Lists Own) (own : Own) → Stand kinds_of self.now owns → slice_get owns k ≡ Some own →
            result.now ≡ state_of (Some own.doing) }
    {
        task_tidy::state(&self.tasks[k])
    }

    /// The text of the space under a name; one that is too long is one that memory is wanting for.
    pub fn source_under(&mut self, alloc: Global, k: usize, name: &[u8]) -> Result<Source, NoMemory>
        requires task { k < length self.old.tasks }
        ensures source { IfOk result (λ source. (kinds_of : Lists ℕ → Lists Kind) (owns : Lists Own) (own : Own) → Stand kinds_of self.old owns →
            slice_get owns k ≡ Some own → source ≡ source_in (space_under name.now (now own.doing))) }
        ensures short { IfOk result IsShort }
        ensures as_many { length self.new.tasks ≡ length self.old.tasks }
        ensures kept { (kinds_of : Lists ℕ → Lists Kind) (owns : Lists Own) → Stand kinds_of self.old owns → Stand kinds_of self.new owns }
    {
        task_tidy::source_under(alloc, &self.tasks[k], &mut self.pool, name)
    }

    /// How many data spaces the tasks have, one with another: at most 256.
    pub fn spaces(&self) -> usize
        ensures count { (kinds_of : Lists ℕ → Lists Kind) (owns : Lists Own) → Stand kinds_of self.now owns → result ≡ sum (map spaces_of owns) }
        ensures few { result ≤ 16 * most_tasks }
    {
        all_spaces(self.tasks.as_slice())
    }
}

// How many data spaces tasks have, one with another.
fn all_spaces(tasks: &[Task]) -> usize
    requires { length tasks.now ≤ most_tasks }
    ensures count { (kinds_of : Lists ℕ → Lists Kind) (pages : Pages) (owns : Lists Own) → StandIn kinds_of pages tasks.now owns →
        result ≡ sum (map spaces_of owns) }
    ensures few { result ≤ 16 * length tasks.now }
{
    let mut count = 0;
    for task in tasks {
        count += task_tidy::spaces(task);
    }
    count
}
