//! Commands that run, and tasks that begin and end.
ghost use Rattle.std.specs.Prelude.{◌≡◌, ◌≤◌, ◌<◌, ◌^◌, ℕ, List, Bool, length, is_none, true, None, Some, OnOk, IfOk};
ghost use Rattle.task_numbers.specs.Numbers.{niltask};
ghost use Rattle.task_tree.specs.Tree as tree;
ghost use Rattle.live_system.specs.Below.terminals.specs.Channels.{channel_of};
ghost use Rattle.live_system.specs.Below.elan_scope.specs.declared.env.Env.{Env};
ghost use Rattle.elan_types.specs.Eval.{World};
ghost use Rattle.live_system.specs.Below.units.specs.Library.{env_of, started_at};
ghost use Rattle.live_system.specs.Below.system_meaning.specs.Stores.{Store, heir};
ghost use Rattle.live_system.specs.Below.system_meaning.specs.Tasks.{Command, Idle};
ghost use Rattle.live_system.specs.Below.system_meaning.specs.Systems.{Moment, on_system, doing, kept, packets, command, uncouple_at};
ghost use Rattle.live_system.specs.Below.system_meaning.specs.Monitor.{Reading};
ghost use Rattle.live_system.specs.Below.packet_store.specs.Readings.{IsReading};
ghost use Rattle.live_system.specs.Below.system_meaning.specs.Ends.{next, begun, ended, removed};
ghost use Rattle.live_system.specs.Below.live_task.specs.Stands.{IsWhole};
ghost use Rattle.live_system.specs.Finishing as spec;
ghost use Rattle.live_system.specs.Texts.{RunsText};
ghost use Rattle.live_system.specs.Steps.{WentOn, HaltedAs, BeginsRunning, WentSo, FinishedSo};
ghost use Rattle.live_system.specs.Machines.{StandsAt, StandsOverAt};

use crate::runs::{Finished, Went};
use crate::system::System;
use eu_base::{Bytes, NoMemory, Stop};
use live_packets::{
    Loaded, begin_task, can_begin, can_end, finish, install, last_of, one_reading, place_of,
    remove, said_of, settle, start_unit, told,
};
use std::alloc::Global;
use task_numbers::TaskNo;

impl System {
    /// An idle task runs a text behind its packets, read as a packet or as a program. Where the text is refused, this is what is said of it.
    pub fn run_text(
        &mut self,
        alloc: Global,
        task: TaskNo,
        packet: bool,
        text: &[u8],
    ) -> Result<Option<Bytes>, NoMemory>
        ensures { IfOk result (λ said. (read : Env → Bool → List ℕ → Reading) → IsReading read → (m : Moment) (store : Store) → doing task m.system ≡ Some (Idle store)
            → length text.now < 2 ^ 32 → StandsAt self.old m
            → RunsText (read (env_of m.system.shared.library (packets task m.system)) packet text.now) self.new task text.now m said) }
    {
        let Some(place) = place_of(&self.desk, &self.tasks, task) else {
            return Ok(None);
        };
        // A text that is longer is none of a session.
        if text.len() > u32::MAX as usize {
            return Ok(None);
        }
        one_reading();
        let packets = self.tasks.packets(place);
        match self.packets.compile(alloc, packets, text, packet) {
            Ok(unit) => {
                start_unit(alloc, &mut self.tasks, place, unit)?;
                self.desk.back(task);
                Ok(None)
            }
            Err(cause) => Ok(Some(said_of(alloc, cause, text)?)),
        }
    }

    /// A task goes on with so many marks, until a mark is due and none is left, it asks something, or its command is over.
    pub fn go_on(&mut self, task: TaskNo, marks: &mut u32) -> Result<Went, NoMemory>
        ensures went { IfOk result (λ went. (m : Moment) → StandsAt self.old m → WentOn (command task m.system) self.new task marks.old marks.new went m) }
        ensures fewer { OnOk result (marks.new ≤ marks.old) }
    {
        match place_of(&self.desk, &self.tasks, task) {
            None => Ok(Went::NotRunning),
            Some(place) => Ok(as_went(self.tasks.go_on(place, marks)?)),
        }
    }

    /// The command that a task runs is over where it stands.
    pub fn halt(&mut self, task: TaskNo) -> Option<Finished>
        ensures { (m : Moment) → StandsAt self.old m → HaltedAs (command task m.system) self.new result task m }
    {
        match place_of(&self.desk, &self.tasks, task) {
            None => None,
            Some(place) => as_finished(self.tasks.halt(place)),
        }
    }

    /// What a command that is over leads to: the task is idle, a packet that was inserted is installed, or its variables go. The stop is told of it.
    pub fn finish(
        &mut self,
        alloc: Global,
        task: TaskNo,
        finished: Finished,
    ) -> Result<Option<Stop>, NoMemory>
        ensures { IfOk result (λ stop. (m : Moment) (c : Command) (w : World) → finished.unit ≡ c.unit → StandsOverAt self.old task c w m
            → spec.HasRoom finished.stop c → (stop ≡ spec.told_by c.unit.shown finished.stop m) × StandsAt self.new (spec.finished finished.stop task c w m)) }
    {
        let Finished { unit, stop } = finished;
        let Some(place) = place_of(&self.desk, &self.tasks, task) else {
            unit.let_go();
            return Ok(stop);
        };
        if is_program(&unit) {
            let kept = finish(alloc, &mut self.tasks, place, &unit);
            unit.let_go();
            kept?;
            return Ok(stop);
        }
        match told(&self.packets, stop) {
            None => {
                install(alloc, &mut self.packets, &mut self.tasks, place, unit)?;
                Ok(None)
            }
            Some(stop) => {
                let settled = settle(alloc, &mut self.tasks, place, &unit);
                unit.let_go();
                settled?;
                Ok(Some(stop))
            }
        }
    }

    /// A son of a task begins, idle, with its father's packets and their variables.
    pub fn begin(&mut self, alloc: Global, name: &[u8], father: TaskNo) -> Result<TaskNo, NoMemory>
        ensures { IfOk result (λ son. (m : Moment) → tree.lives father m.system.shared.tree ≡ true → tree.refusal name.now m.system.shared.tree ≡ None → StandsAt self.old m
            → (son ≡ next m.system) × StandsAt self.new (on_system (begun name.now father (Idle (heir (kept father m.system)))) m)) }
    {
        let Some(place) = place_of(&self.desk, &self.tasks, father) else {
            return Err(NoMemory);
        };
        if !can_begin(&self.desk, &self.tasks, name, father) {
            return Err(NoMemory);
        }
        let son = begin_task(alloc, &mut self.desk, &mut self.tasks, name, father, place)?;
        Ok(son)
    }

    /// A son of a task begins, and runs the start procedure with this number among the bodies of the task's packets; `None` where it is none.
    pub fn begin_running(
        &mut self,
        alloc: Global,
        name: &[u8],
        task: TaskNo,
        start: usize,
    ) -> Result<Option<TaskNo>, NoMemory>
        ensures { IfOk result (λ began. (m : Moment) → tree.lives task m.system.shared.tree ≡ true → tree.refusal name.now m.system.shared.tree ≡ None → StandsAt self.old m
            → BeginsRunning (started_at m.system.shared.library (packets task m.system) start) self.new name.now task m began) }
    {
        let Some(place) = place_of(&self.desk, &self.tasks, task) else {
            return Ok(None);
        };
        if !can_begin(&self.desk, &self.tasks, name, task) {
            return Err(NoMemory);
        }
        let packets = self.tasks.packets(place);
        match self.packets.starting_at(alloc, packets, start)? {
            None => Ok(None),
            Some(unit) => {
                let began = begin_task(alloc, &mut self.desk, &mut self.tasks, name, task, place);
                let Ok(son) = began else {
                    unit.let_go();
                    return Err(NoMemory);
                };
                let Some(last) = last_of(&self.tasks) else {
                    unit.let_go();
                    return Err(NoMemory);
                };
                start_unit(alloc, &mut self.tasks, last, unit)?;
                self.desk.back(son);
                Ok(Some(son))
            }
        }
    }

    /// A task that has no sons, and is not one of the first two, ends. Those that wait for it are told so, and are ready.
    pub fn end(&mut self, task: TaskNo) -> Result<(), NoMemory>
        ensures { OnOk result ((m : Moment) → tree.lives task m.system.shared.tree ≡ true → tree.son task m.system.shared.tree ≡ niltask → 2 < task.0 → StandsAt self.old m
            → StandsAt self.new (ended m task)) }
    {
        self.take_out(task)?;
        self.free(task)?;
        Ok(())
    }

    // Its channel is free, and all that it had is gone.
    fn take_out(&mut self, task: TaskNo) -> Result<(), NoMemory>
        ensures { OnOk result ((m : Moment) → tree.lives task m.system.shared.tree ≡ true → tree.son task m.system.shared.tree ≡ niltask → 2 < task.0 → StandsAt self.old m
            → StandsAt self.new (on_system (removed task) (uncouple_at (channel_of task m.system.shared.channels) m))) }
    {
        if !can_end(&self.desk, task) {
            return Ok(());
        }
        self.desk.uncouple_task(task)?;
        self.desk.law();
        let Some(place) = place_of(&self.desk, &self.tasks, task) else {
            return Ok(());
        };
        remove(self.alloc, &mut self.packets, &mut self.tasks, place)?;
        self.desk.end(task);
        Ok(())
    }
}

// How a task went on, with a command that is over told as one.
fn as_went(went: live_packets::Went) -> Went
    requires { IsWhole went }
    ensures { WentSo went result }
{
    match went {
        live_packets::Went::NotRunning => Went::NotRunning,
        live_packets::Went::Marked => Went::Marked,
        live_packets::Went::Asks(request) => Went::Asks(request),
        live_packets::Went::Over { unit, code, stop } => Went::Over(Finished {
            unit: Loaded::of(unit, code),
            stop,
        }),
    }
}

// The command that is over, if one is.
fn as_finished(went: live_packets::Went) -> Option<Finished>
    requires { IsWhole went }
    ensures { FinishedSo went result }
{
    match went {
        live_packets::Went::NotRunning | live_packets::Went::Marked | live_packets::Went::Asks(_) =>
            None,
        live_packets::Went::Over { unit, code, stop } => Some(Finished {
            unit: Loaded::of(unit, code),
            stop,
        }),
    }
}

// Whether later texts see nothing of it.
fn is_program(unit: &Loaded) -> bool
    ensures { result ≡ is_none unit.now.shown }
{
    unit.compiled().shown.is_none()
}
