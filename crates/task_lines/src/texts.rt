//! Texts that an idle task runs.
ghost use Rattle.std.specs.Prelude.{◌≡◌, ◌<◌, ◌^◌, ℕ, Bool, List, length, Some, OnOk};
ghost use Rattle.task_lines.specs.Below.elan_scope.specs.declared.env.Env.{Env};
ghost use Rattle.task_lines.specs.Below.system_meaning.specs.Stores.{Store};
ghost use Rattle.task_lines.specs.Below.system_meaning.specs.Tasks.{Idle};
ghost use Rattle.task_lines.specs.Below.system_meaning.specs.Systems.{Moment, doing};
ghost use Rattle.task_lines.specs.Below.system_meaning.specs.Monitor as spec;
ghost use Rattle.task_lines.specs.Below.packet_store.specs.Readings.{IsReading};
ghost use Rattle.live_system.specs.Machines.{StandsAt};

use crate::answers::{answer, answer_stop};
use eu_base::{NoMemory, Stop};
use live_system::{SourceText, System};
use std::alloc::Global;
use task_numbers::TaskNo;

/// A text runs behind the packets of the task; what is said of a text that is refused is answered.
pub(crate) fn run_text(
    alloc: Global,
    system: &mut System,
    task: TaskNo,
    packet: bool,
    text: &[u8],
) -> Result<(), NoMemory>
    ensures { OnOk result ((read : Env → Bool → List ℕ → spec.Reading) → IsReading read → (m : Moment) (store : Store) → doing task m.system ≡ Some (Idle store)
        → length text.now < 2 ^ 32 → StandsAt system.old m
        → StandsAt system.new (spec.run_text read task packet text.now m)) }
{
    match system.run_text(alloc, task, packet, text)? {
        None => Ok(()),
        Some(said) => answer(system, task, said.as_slice()),
    }
}

/// The text of the space under a name runs, where there is one.
pub(crate) fn run_named(
    alloc: Global,
    system: &mut System,
    task: TaskNo,
    packet: bool,
    name: &[u8],
) -> Result<(), NoMemory>
    ensures { OnOk result ((read : Env → Bool → List ℕ → spec.Reading) → IsReading read → (m : Moment) (store : Store) → doing task m.system ≡ Some (Idle store)
        → StandsAt system.old m
        → StandsAt system.new (spec.run_named read task packet name.now m)) }
{
    match system.source_under(alloc, task, name)? {
        SourceText::NoSpace => answer_stop(alloc, system, task, &Stop::NoName),
        SourceText::NoText => answer(system, task, b"kein Quelltext"),
        SourceText::Text(text) => run_text(alloc, system, task, packet, text.as_slice()),
    }
}
