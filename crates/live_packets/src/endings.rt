//! The tasks when a command is over. What nothing denotes of the task's data spaces goes.
ghost use Rattle.std.specs.Prelude.{◌≡◌, ◌<◌, ◌++◌, ◌∷◌, [], ℕ, List, length, slice_get, true, None, Some, OnOk};
ghost use Rattle.eu_base.specs.declared.value.Kind.{Kind};
ghost use Rattle.eu_base.specs.Room.{cells_fit};
ghost use Rattle.cell_kinds.specs.Kinds.{packet_kinds};
ghost use Rattle.elan_types.specs.Eval.{World};
ghost use Rattle.live_packets.specs.Below.system_meaning.specs.Stores.{Store, tidied};
ghost use Rattle.live_packets.specs.Below.system_meaning.specs.Tasks.{Command, Own, Idle, own_variables, settled, store_in, with_doing};
ghost use Rattle.live_packets.specs.Below.system_meaning.specs.Systems.{with_own};
ghost use Rattle.live_packets.specs.Below.system_meaning.specs.Monitor.{with_packet};
ghost use Rattle.live_tasks.specs.Tasks.{Stand, StandOver, AgreeBut};

use crate::below::of_packet_store::Loaded;
use cell_kinds::{CellKinds, Packet};
use eu_base::NoMemory;
use live_tasks::Tasks;
use std::alloc::Global;

/// A program of a task is over: the task is idle, and keeps what the program left.
pub fn finish(alloc: Global, tasks: &mut Tasks, place: usize, unit: &Loaded) -> Result<(), NoMemory>
    requires task { place < length tasks.old.tasks }
    requires program { unit.now.shown ≡ None }
    ensures { OnOk result ((kinds_of : List ℕ → List Kind) (owns : List Own) (own : Own) (c : Command) (w : World) →
        StandOver kinds_of tasks.old owns place c w → slice_get owns place ≡ Some own → c.unit ≡ unit.now →
        Stand kinds_of tasks.new (with_own place (with_doing (Idle (tidied (store_in w)))) owns)) }
{
    let compiled = unit.compiled();
    tasks.finish(place, compiled);
    tidy_alone(alloc, tasks, place, compiled.core.packets.as_slice())?;
    Ok(())
}

/// The command of a task is over and was no insertion that is kept: what it left behind the variables of the task's packets goes.
pub fn settle(alloc: Global, tasks: &mut Tasks, place: usize, unit: &Loaded) -> Result<(), NoMemory>
    requires task { place < length tasks.old.tasks }
    ensures { OnOk result ((kinds_of : List ℕ → List Kind) (owns : List Own) (own : Own) (c : Command) (w : World) →
        StandOver kinds_of tasks.old owns place c w → slice_get owns place ≡ Some own → c.unit ≡ unit.now →
        Stand kinds_of tasks.new (with_own place (with_doing (Idle (tidied (settled (own_variables c) (store_in w))))) owns)) }
{
    let compiled = unit.compiled();
    tasks.settle(alloc, place, compiled)?;
    tidy_alone(alloc, tasks, place, compiled.core.packets.as_slice())?;
    Ok(())
}

/// The packet that the command of a task inserted becomes one of its packets, under a number, where there is room for the variables of all.
pub(crate) fn keep_inserted(
    alloc: Global,
    tasks: &mut Tasks,
    place: usize,
    number: u32,
    unit: &Loaded,
) -> Result<(), NoMemory>
    requires task { place < length tasks.old.tasks }
    ensures { OnOk result ((kinds_of later : List ℕ → List Kind) (owns : List Own) (own : Own) (c : Command) (w : World) →
        StandOver kinds_of tasks.old owns place c w → slice_get owns place ≡ Some own → c.unit ≡ unit.now → AgreeBut kinds_of later owns place →
        cells_fit (length (kinds_of own.packets ++ c.unit.core.inserted)) ≡ true →
        later (own.packets ++ number ∷ []) ≡ kinds_of own.packets ++ c.unit.core.inserted →
        Stand later tasks.new (with_own place (λ o. with_packet number (with_doing (Idle (tidied (store_in w))) o)) owns)) }
{
    tasks.install(place, number)?;
    let compiled = unit.compiled();
    tasks.tidy(
        alloc,
        place,
        compiled.core.packets.as_slice(),
        &compiled.core.inserted,
    )?;
    Ok(())
}

// Behind the variables of these packets stand no others.
fn tidy_alone(
    alloc: Global,
    tasks: &mut Tasks,
    place: usize,
    packets: &[Packet],
) -> Result<(), NoMemory>
    requires task { place < length tasks.old.tasks }
    ensures { OnOk result ((kinds_of : List ℕ → List Kind) (owns : List Own) (own : Own) (store : Store) → Stand kinds_of tasks.old owns →
        slice_get owns place ≡ Some own → own.doing ≡ Idle store → packet_kinds packets.now ≡ kinds_of own.packets →
        Stand kinds_of tasks.new (with_own place (with_doing (Idle (tidied store))) owns)) }
{
    let none = CellKinds::new(alloc);
    tasks.tidy(alloc, place, packets, &none)?;
    Ok(())
}
