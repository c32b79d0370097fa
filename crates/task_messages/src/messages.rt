//! A data space goes out with the message of a task, and comes in with one for a task.
ghost use Rattle.std.specs.Prelude.{◌≡◌, ◌+◌, ◌<◌, ◌∷◌, [], ℕ, ℤ, List, length, true, Some, None, IfOk, OnOk, IfErr, OnErr};
ghost use Rattle.eu_base.specs.declared.value.Kind.{Kind};
ghost use Rattle.eu_base.specs.declared.request.Request.{Request};
ghost use Rattle.eu_base.specs.declared.request.Reply.TheVariants.{Taken, Message};
ghost use Rattle.eu_base.specs.Requests.{plain, sent_by};
ghost use Rattle.eu_base.specs.DataSpaces.{Space, Forgets, heads_of, is_live, the_space};
ghost use Rattle.eu_base.specs.SpaceOperations.{room_refusal};
ghost use Rattle.task_messages.specs.Below.page_pool.specs.Pool.{Pages};
ghost use Rattle.task_messages.specs.Below.task_job.specs.Here.{Frames};
ghost use Rattle.task_messages.specs.Below.space_memory.specs.Live.{IsLive};
ghost use Rattle.task_messages.specs.Below.space_memory.specs.Memories.{roots, with_new, forgotten};
ghost use Rattle.task_messages.specs.Below.system_meaning.specs.Tasks.{Own, now, request_of};
ghost use Rattle.task_messages.specs.Below.live_task.specs.Stands.{StandsFor, Due};
ghost use Rattle.task_messages.specs.Passing.{Carries, does_run};

use crate::below::of_data_space::DataSpace;
use task_numbers::SpaceNo;
use task_texts::{Task, is_entering, is_idle};

/// Whether a task runs a command, and has a data space under a number.
pub fn can_send(task: &Task, s: SpaceNo) -> bool
    ensures runs { result ≡ true → does_run task.now.doing ≡ true }
    ensures live { result ≡ true → IsLive s.0 task.now.memory.spaces }
    ensures can { (kinds : List Kind) (pages : Pages) (own : Own) (request : Request) → StandsFor kinds pages task.now own →
        request_of own.doing ≡ Some request → is_live s (now own.doing).spaces ≡ true → result ≡ true }
{
    runs(task) && task.memory.live(s)
}

/// Whether a task runs a command, and has room for a data space and a number for it.
pub fn can_take(task: &Task) -> bool
    ensures runs { result ≡ true → does_run task.now.doing ≡ true }
    ensures few { result ≡ true → length task.now.memory.spaces < 16 }
    ensures left { result ≡ true → task.now.memory.last < 4294967295 }
    ensures can { (kinds : List Kind) (pages : Pages) (own : Own) (request : Request) → StandsFor kinds pages task.now own →
        request_of own.doing ≡ Some request → room_refusal (heads_of (now own.doing).spaces) ≡ None → result ≡ true }
{
    runs(task) && has_room(task)
}

// Whether a task runs a command.
#[tactic(auto, using(crate::proofs::Passed::run_is))]
fn runs(task: &Task) -> bool
    ensures { result ≡ does_run task.now.doing }
{
    !is_idle(task) && !is_entering(task)
}

// Whether it has room for a data space more, and a number for it.
fn has_room(task: &Task) -> bool
    ensures few { result ≡ true → length task.now.memory.spaces < 16 }
    ensures left { result ≡ true → task.now.memory.last < 4294967295 }
    ensures room { length task.now.memory.spaces < 16 → task.now.memory.last < 4294967295 → result ≡ true }
{
    task.memory.count() < 16 && task.memory.last_number() < 4_294_967_295
}

/// The data space of a task goes out with the message of its request, and the task is due to be told that the message was taken.
pub fn send_out(task: &mut Task, s: SpaceNo) -> DataSpace
    requires live { IsLive s.0 task.old.memory.spaces }
    ensures due { (kinds : List Kind) (pages : Pages) (own : Own) (request : Request) → StandsFor kinds pages task.old own →
        request_of own.doing ≡ Some request → sent_by request ≡ Forgets s ∷ [] → Due kinds pages task.new own (plain Taken) }
    ensures carries { (kinds : List Kind) (pages : Pages) (own : Own) → StandsFor kinds pages task.old own →
        Carries pages result (the_space s (now own.doing).spaces) }
    ensures same { task.new ≡ record task.old { memory = forgotten s.0 task.old.memory } }
    ensures frames { (pages : Pages) → Frames pages pages (roots task.old.memory) (result.root ∷ roots task.new.memory) }
{
    task.memory.take(s)
}

/// The data space of a message comes in, under the next number, and the task is due to get the message. Where there is no memory, nothing changes
/// and the space comes back.
pub fn take_in(task: &mut Task, space: DataSpace) -> Result<SpaceNo, DataSpace>
    requires few { length task.old.memory.spaces < 16 }
    requires left { task.old.memory.last < 4294967295 }
    ensures number { IfOk result (λ s. s.0 ≡ task.old.memory.last + 1) }
    ensures due { OnOk result ((kinds : List Kind) (pages : Pages) (own : Own) (request : Request) (content : Space) (code : ℤ) (from number : ℕ) →
        StandsFor kinds pages task.old own → request_of own.doing ≡ Some request → Carries pages space content →
        Due kinds pages task.new own (record { reply = Message code from number; content = content })) }
    ensures same { OnOk result (task.new ≡ record task.old { memory = with_new space task.old.memory }) }
    ensures frames { OnOk result ((pages : Pages) → Frames pages pages (space.root ∷ roots task.old.memory) (roots task.new.memory)) }
    ensures back { IfErr result (λ back. back ≡ space) }
    ensures err { OnErr result (task.new ≡ task.old) }
{
    task.memory.give(space)
}
