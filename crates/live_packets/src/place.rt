//! Where a task stands among all.
ghost use Rattle.std.specs.Prelude.{◌≡◌, ◌<◌, ◌++◌, ◌∷◌, [], ℕ, List, length, Some, IfSome};
ghost use Rattle.eu_base.specs.declared.value.Kind.{Kind};
ghost use Rattle.live_packets.specs.Below.units.specs.Library.{Library};
ghost use Rattle.task_desk.specs.Desks.{system};
ghost use Rattle.live_packets.specs.Below.system_meaning.specs.Tasks.{Own};
ghost use Rattle.live_packets.specs.Below.system_meaning.specs.Systems.{place};
ghost use Rattle.live_tasks.specs.Tasks.{Stand};

use live_tasks::Tasks;
use task_desk::TaskDesk;
use task_numbers::TaskNo;

/// The place of a task, where it lives: there are as many tasks as in the tree.
pub fn place_of(desk: &TaskDesk, tasks: &Tasks, task: TaskNo) -> Option<usize>
    ensures place { length tasks.now.tasks ≡ length desk.now.tree.tasks → (library : Library) (owns : List Own)
        → result ≡ place task (system desk.now library owns) }
    ensures within { IfSome result (λ k. k < length tasks.now.tasks) }
{
    match desk.place(task) {
        None => None,
        Some(place) => {
            if place < tasks.count() {
                Some(place)
            } else {
                None
            }
        }
    }
}

/// The place of the last of the tasks.
pub fn last_of(tasks: &Tasks) -> Option<usize>
    ensures last { (kinds_of : List ℕ → List Kind) (owns : List Own) (own : Own) → Stand kinds_of tasks.now (owns ++ own ∷ []) → result ≡ Some (length owns) }
    ensures within { IfSome result (λ k. k < length tasks.now.tasks) }
{
    tasks.count().checked_sub(1)
}
