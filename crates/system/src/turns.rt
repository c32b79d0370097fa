//! Turns.
ghost use Rattle.std.specs.Prelude.{◌≡◌, ℕ, Bool, List, OnOk};
ghost use Rattle.system.specs.Below.elan_scope.specs.declared.env.Env.{Env};
ghost use Rattle.system.specs.Below.system_meaning.specs.Systems.{Moment};
ghost use Rattle.system.specs.Below.system_meaning.specs.Monitor.{Reading};
ghost use Rattle.system.specs.Below.packet_store.specs.Readings.{IsReading};
ghost use Rattle.system.specs.Below.system_meaning.specs.Turns as spec;
ghost use Rattle.system.specs.Below.live_system.specs.Machines.{StandsAt};
ghost use Rattle.turn_laws.specs.Waits.{HasTurn};
ghost use Rattle.system.specs.Systems.{Stands};

use crate::enough;
use crate::evaluations::evaluation;
use crate::isolated::{others, two_worlds};
use crate::waiting::turn_begins;
use eu_base::NoMemory;
use std::alloc::Global;
use task_numbers::TaskNo;
use task_requests::System;
use turn_laws::waits;

/// So many turns.
pub(crate) fn turns(alloc: Global, system: &mut System, number: u16) -> Result<(), NoMemory>
    ensures { OnOk result ((read : Env → Bool → List ℕ → Reading) → IsReading read → (m : Moment) → Stands system.old m
        → Stands system.new (spec.turns read number m)) }
{
    for k in 0..number {
        turn(alloc, system)?;
    }
    Ok(())
}

/// A turn, behind which all open lines end. It leaves what is the own of each other task (`others`), and depends on what is the task's own alone, its
/// channel, and what it is told (`two_worlds`).
fn turn(alloc: Global, system: &mut System) -> Result<(), NoMemory>
    ensures { OnOk result ((read : Env → Bool → List ℕ → Reading) → IsReading read → (m : Moment) → Stands system.old m
        → Stands system.new (spec.turn read m)) }
{
    others(system);
    two_worlds(system);
    system.law();
    waits();
    first_turn(alloc, system)?;
    system.close_all()?;
    Ok(())
}

/// The first ready task has its turn, and stands no longer in the ready list.
fn first_turn(alloc: Global, system: &mut System) -> Result<(), NoMemory>
    ensures { OnOk result ((read : Env → Bool → List ℕ → Reading) → IsReading read → (m : Moment) → Stands system.old m
        → StandsAt system.new (spec.turn_of read m.system.shared.ready m)) }
{
    turn_begins(system);
    match system.next_ready() {
        Some(task) => {
            enough(system);
            slice(alloc, system, task, most_evaluations(), turn_marks())
        }
        None => Ok(()),
    }
}

/// A task that has its turn goes on with so many marks. There are at most so many evaluations.
fn slice(
    alloc: Global,
    system: &mut System,
    task: TaskNo,
    most: usize,
    marks: u32,
) -> Result<(), NoMemory>
    ensures { OnOk result ((read : Env → Bool → List ℕ → Reading) → IsReading read → (m : Moment) → HasTurn task m.system → StandsAt system.old m
        → StandsAt system.new (spec.slice read most task marks m)) }
{
    let mut left = marks;
    for k in 0..most {
        let goes = evaluation(alloc, system, task, &mut left)?;
        if !goes {
            return Ok(());
        }
    }
    Ok(())
}

/// The marks that a task can spend in a turn.
fn turn_marks() -> u32
    ensures { result ≡ spec.turn_marks }
{
    100
}

/// A request costs a mark, so there is one evaluation more than marks; one more for a request that was paid before and is waited for; and one more yet
/// for a call that was taken, whose task asks for the answer.
fn most_evaluations() -> usize
    ensures { result ≡ spec.most_evaluations }
{
    103
}
