//! Why no text can be entered under a name.
ghost use Rattle.std.specs.Prelude.{◌≡◌, ◌<◌, ◌&&◌, nat_le, is_none, List, length, None};
ghost use Rattle.eu_base.specs.declared.value.Kind.{Kind};
ghost use Rattle.page_pool.specs.Pool.{Pages};
ghost use Rattle.task_texts.specs.Below.space_names.specs.Directory as directory;
ghost use Rattle.task_texts.specs.Below.system_meaning.specs.Stores.{most_live, last_number, entering_refusal};
ghost use Rattle.task_texts.specs.Below.system_meaning.specs.Tasks.{Own, now};
ghost use Rattle.live_task.specs.Stands.{StandsFor};

use crate::below::of_space_memory::{MOST_LIVE, SpaceMemory};
use eu_base::{Stop, is_name};
use live_task::Task;

/// Why no text can be entered under a name, the first reason that holds: it is no name, there is no room for a space more, or no number
/// is left for it. A task that is not idle is asked the same of what it keeps.
pub fn entering_refusal(task: &Task, name: &[u8]) -> Option<Stop>
    ensures refusal { (kinds : List Kind) (pages : Pages) (own : Own) → StandsFor kinds pages task.now own →
        result ≡ entering_refusal name.now (now own.doing) }
    ensures room { result ≡ None → directory.get name.now task.now.memory.names ≡ None → length task.now.memory.spaces < most_live }
    ensures number { result ≡ None → task.now.memory.last < last_number }
{
    if !is_name(name) {
        return Some(Stop::BadName);
    }
    if is_space_wanting(&task.memory, name) {
        return Some(Stop::ManySpaces);
    }
    if is_number_wanting(&task.memory) {
        return Some(Stop::SpaceNumbers);
    }
    None
}

// Whether there is neither room for one more space nor a space under a name, which would go.
fn is_space_wanting(memory: &SpaceMemory, name: &[u8]) -> bool
    ensures { result ≡ (nat_le most_live (length memory.now.spaces) && is_none (directory.get name.now memory.now.names)) }
{
    memory.count() >= MOST_LIVE && memory.named(name).is_none()
}

// Whether the last number was given.
fn is_number_wanting(memory: &SpaceMemory) -> bool
    ensures { result ≡ nat_le last_number memory.now.last }
{
    memory.last_number() == u32::MAX
}
