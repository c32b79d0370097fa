//! `begin`: a task begins and is coupled.
ghost use Rattle.std.specs.Prelude.{◌≡◌, ◌≤◌, true, None, OnOk, IfOk};
ghost use Rattle.task_numbers.specs.Numbers.{is_nil};
ghost use Rattle.task_tree.specs.Tree as tree;
ghost use Rattle.supervisor.specs.Below.system_meaning.specs.Systems.{Moment};
ghost use Rattle.supervisor.specs.Below.system_meaning.specs.Supervisor as spec;
ghost use Rattle.supervisor.specs.Below.live_system.specs.Machines.{StandsAt};

use crate::answers::{refused, say_prompt};
use eu_base::{Bytes, NoMemory, Stop, is_name};
use std::alloc::Global;
use task_lines::System;
use task_numbers::TaskNo;

/// A task of a name begins as a son of the task of another, and is coupled; or why it does not is said.
pub(crate) fn begin_under(
    alloc: Global,
    system: &mut System,
    channel: u8,
    name: &[u8],
    father: &[u8],
) -> Result<(), NoMemory>
    requires low { 1 ≤ channel }
    requires high { channel ≤ 4 }
    ensures { OnOk result ((m : Moment) → StandsAt system.old m
        → StandsAt system.new (spec.begin_under channel name.now (tree.named father.now m.system.shared.tree) m)) }
{
    let under = system.named(father);
    match begin_refusal(alloc, system, name, under)? {
        Some(answer) => refused(system, channel, answer.as_slice()),
        None => begun(alloc, system, channel, name, under),
    }
}

/// A task begins, where nothing speaks against it.
fn begun(
    alloc: Global,
    system: &mut System,
    channel: u8,
    name: &[u8],
    father: TaskNo,
) -> Result<(), NoMemory>
    requires low { 1 ≤ channel }
    requires high { channel ≤ 4 }
    ensures { OnOk result ((m : Moment) → tree.lives father m.system.shared.tree ≡ true → tree.refusal name.now m.system.shared.tree ≡ None
        → StandsAt system.old m → StandsAt system.new (spec.begin_unless None channel name.now father m)) }
{
    let son = system.begin(alloc, name, father)?;
    system.couple(channel, son);
    say_prompt(system, channel)?;
    Ok(())
}

/// Why no task begins.
fn begin_refusal(
    alloc: Global,
    system: &System,
    name: &[u8],
    father: TaskNo,
) -> Result<Option<Bytes>, NoMemory>
    ensures { IfOk result (λ answer. (m : Moment) → StandsAt system.now m → answer ≡ spec.begin_refusal name.now father m.system) }
{
    if is_name(name) {
        father_refusal(alloc, system, name, father)
    } else {
        Ok(Some(Stop::BadName.text(alloc)?))
    }
}

/// Why no task of a good name begins.
fn father_refusal(
    alloc: Global,
    system: &System,
    name: &[u8],
    father: TaskNo,
) -> Result<Option<Bytes>, NoMemory>
    ensures { IfOk result (λ answer. (m : Moment) → StandsAt system.now m
        → answer ≡ spec.father_refusal (is_nil father) name.now m.system) }
{
    if father.is_nil() {
        return Ok(Some(Bytes::from(alloc, b"Vatertask gibt es nicht")?));
    }
    match system.tree_refusal(name) {
        None => Ok(None),
        Some(stop) => Ok(Some(stop.text(alloc)?)),
    }
}
