//! What changes of the tasks, and of the packets with them.
ghost use Rattle.std.specs.Prelude.{◌≡◌, ◌+◌, ◌<◌, ◌^◌, ◌++◌, ◌∷◌, [], ℕ, List as Lists, length, remove, slice_get, true, None, Some, is_some, IfOk, OnOk};
ghost use Rattle.task_numbers.specs.Numbers.{niltask};
ghost use Rattle.eu_base.specs.declared.value.Kind.{Kind};
ghost use Rattle.cell_kinds.specs.Kinds.{packet_kinds};
ghost use Rattle.live_packets.specs.Below.task_tree.specs.Tree as tree;
ghost use Rattle.live_packets.specs.Below.elan_names.specs.declared.interface.Interface.{Interface};
ghost use Rattle.eu_base.specs.Room.{cells_fit};
ghost use Rattle.eu_base.specs.SpaceOperations.{is_name};
ghost use Rattle.elan_types.specs.Eval.{World};
ghost use Rattle.elan_types.specs.Typing.{all_packet_kinds};
ghost use Rattle.task_desk.specs.Desks as desks;
ghost use Rattle.live_packets.specs.Below.system_meaning.specs.Stores.{Store, heir, tidied};
ghost use Rattle.live_packets.specs.Below.system_meaning.specs.Tasks.{Command, Own, Idle, Running, now, starting, store_in, with_doing};
ghost use Rattle.live_packets.specs.Below.system_meaning.specs.Systems.{with_own};
ghost use Rattle.live_packets.specs.Below.system_meaning.specs.Ends.{number_refusal, without_packets};
ghost use Rattle.live_packets.specs.Below.system_meaning.specs.Monitor.{installed, with_packet};
ghost use Rattle.live_packets.specs.Packets.{IsSaidOf};
ghost use Rattle.live_packets.specs.Below.system_meaning.specs.Whole.{AreAllGiven, AreNumbered};
ghost use Rattle.live_packets.specs.Packets.{kinds_in};
ghost use Rattle.live_tasks.specs.Tasks.{Stand, StandOver, most_tasks};

use crate::below::of_packet_store::{CompileError, Loaded, Unit, refusal_text};
use crate::endings::keep_inserted;
use crate::packets::{Packets, release_unused};
use eu_base::{Bytes, List, NoMemory, is_name};
use live_tasks::Tasks;
use std::alloc::Global;
use task_desk::TaskDesk;
use task_numbers::{TASKS, TaskNo};

/// What is said of a text that has no unit.
pub fn said_of(alloc: Global, cause: CompileError, text: &[u8]) -> Result<Bytes, NoMemory>
    requires { length text.now < 2 ^ 32 }
    ensures { IfOk result (IsSaidOf cause text.now) }
{
    match cause {
        CompileError::NoMemory => Err(NoMemory),
        CompileError::Refused(refusal) => refusal_text(alloc, refusal, text),
    }
}

/// An idle task runs a unit from its start on.
pub fn start_unit(
    alloc: Global,
    tasks: &mut Tasks,
    place: usize,
    unit: Unit,
) -> Result<(), NoMemory>
    requires task { place < length tasks.old.tasks }
    ensures { OnOk result ((kinds_of : Lists ℕ → Lists Kind) (owns : Lists Own) (own : Own) (store : Store) → Stand kinds_of tasks.old owns
        → slice_get owns place ≡ Some own → own.doing ≡ Idle store → packet_kinds unit.core.packets ≡ kinds_of own.packets
        → Stand kinds_of tasks.new (with_own place (with_doing (Running (starting unit store))) owns)) }
{
    let (unit, code) = unit.parts();
    tasks.start(alloc, place, unit, code)
}

/// The packet that the command of a task inserted lives under the next number, and is one of the task's, where there is room for the variables of
/// all. The data spaces of the task go that nothing denotes.
pub fn install(
    alloc: Global,
    packets: &mut Packets,
    tasks: &mut Tasks,
    place: usize,
    unit: Loaded,
) -> Result<(), NoMemory>
    requires task { place < length tasks.old.tasks }
    requires shows { is_some unit.shown ≡ true }
    ensures { OnOk result ((i : Interface) (owns : Lists Own) (own : Own) (c : Command) (w : World) → unit.shown ≡ Some i → c.unit ≡ unit
        → AreNumbered packets.old → AreAllGiven packets.old.last owns → StandOver (kinds_in packets.old) tasks.old owns place c w → slice_get owns place ≡ Some own
        → cells_fit (length (all_packet_kinds c.unit.core)) ≡ true
        → (packets.new ≡ installed unit i packets.old)
        × Stand (kinds_in packets.new) tasks.new (with_own place (λ o. with_packet (packets.old.last + 1) (with_doing (Idle (tidied (store_in w))) o)) owns)) }
{
    let (unit, code) = unit.parts();
    let unit = Loaded::of(unit, code);
    let Some(number) = packets.next() else {
        unit.let_go();
        return Err(NoMemory);
    };
    match keep_inserted(alloc, tasks, place, number, &unit) {
        Ok(()) => {
            packets.install(alloc, unit)?;
            Ok(())
        }
        Err(NoMemory) => {
            unit.let_go();
            Err(NoMemory)
        }
    }
}

/// Whether a son of this name can begin under a task.
pub fn can_begin(desk: &TaskDesk, tasks: &Tasks, name: &[u8], father: TaskNo) -> bool
    ensures live { result ≡ true → tree.lives father desk.now.tree ≡ true }
    ensures named { result ≡ true → is_name name.now ≡ true }
    ensures free { result ≡ true → number_refusal (tree.refusal name.now desk.now.tree) ≡ None }
    ensures room { result ≡ true → length tasks.now.tasks < most_tasks }
    ensures can { tree.lives father desk.now.tree ≡ true → is_name name.now ≡ true → number_refusal (tree.refusal name.now desk.now.tree) ≡ None
        → length tasks.now.tasks < most_tasks → result ≡ true }
{
    tasks.count() < TASKS && is_name(name) && desk.lives(father) && desk.begin_stop(name).is_none()
}

/// A son of the task at a place begins, and comes last: it is idle, and has the variables of its father's packets.
pub fn begin_task(
    alloc: Global,
    desk: &mut TaskDesk,
    tasks: &mut Tasks,
    name: &[u8],
    father: TaskNo,
    place: usize,
) -> Result<TaskNo, NoMemory>
    requires task { place < length tasks.old.tasks }
    requires room { length tasks.old.tasks < most_tasks }
    requires live { tree.lives father desk.old.tree ≡ true }
    requires named { is_name name.now ≡ true }
    requires free { number_refusal (tree.refusal name.now desk.old.tree) ≡ None }
    ensures number { IfOk result (λ son. son ≡ tree.next desk.old.tree) }
    ensures desk { OnOk result (desk.new ≡ desks.begun name.now father desk.old) }
    ensures tasks { OnOk result ((kinds_of : Lists ℕ → Lists Kind) (owns : Lists Own) (own : Own) → Stand kinds_of tasks.old owns → slice_get owns place ≡ Some own
        → Stand kinds_of tasks.new (owns ++ record { packets = own.packets; doing = Idle (heir (now own.doing)) } ∷ [])) }
{
    tasks.begin(alloc, place)?;
    desk.begin(alloc, name, father)
}

/// Whether a task lives, has no sons, and is neither UR nor PUBLIC.
pub fn can_end(desk: &TaskDesk, task: TaskNo) -> bool
    ensures live { result ≡ true → tree.lives task desk.now.tree ≡ true }
    ensures childless { result ≡ true → tree.son task desk.now.tree ≡ niltask }
    ensures later { result ≡ true → 2 < task.0 }
    ensures can { tree.lives task desk.now.tree ≡ true → tree.son task desk.now.tree ≡ niltask → 2 < task.0 → result ≡ true }
{
    task.0 > 2 && desk.lives(task) && desk.son(task).is_nil()
}

/// The task at a place goes with all that it has, and so do the packets that it alone had.
pub fn remove(
    alloc: Global,
    packets: &mut Packets,
    tasks: &mut Tasks,
    place: usize,
) -> Result<(), NoMemory>
    requires task { place < length tasks.old.tasks }
    ensures { OnOk result ((owns : Lists Own) (own : Own) → Stand (kinds_in packets.old) tasks.old owns → slice_get owns place ≡ Some own
        → (packets.new ≡ without_packets own.packets (remove owns place) packets.old) × Stand (kinds_in packets.new) tasks.new (remove owns place)) }
{
    let numbers = List::from_slice(alloc, tasks.packets(place))?;
    tasks.end(place);
    release_unused(packets, tasks, numbers.as_slice());
    Ok(())
}
