//! `continue`: a task is coupled, and goes on.
ghost use Rattle.std.specs.Prelude.{◌≡◌, ◌≤◌, option_map, OnOk};
ghost use Rattle.task_tree.specs.Tree as tree;
ghost use Rattle.supervisor.specs.Below.system_meaning.specs.Systems.{Moment, doing, requested};
ghost use Rattle.supervisor.specs.Below.system_meaning.specs.Supervisor as spec;
ghost use Rattle.supervisor.specs.Below.live_system.specs.Machines.{StandsAt};
ghost use Rattle.supervisor.specs.Waiting as waiting;

use crate::answers::{refused, say_prompt};
use eu_base::{NoMemory, Reply, Request};
use std::alloc::Global;
use task_lines::{System, What};
use task_numbers::TaskNo;

/// The task of a name is coupled and goes on; or why it cannot be coupled is said.
pub(crate) fn continue_named(
    alloc: Global,
    system: &mut System,
    channel: u8,
    name: &[u8],
) -> Result<(), NoMemory>
    requires low { 1 ≤ channel }
    requires high { channel ≤ 4 }
    ensures { OnOk result ((m : Moment) → StandsAt system.old m → let task = tree.named name.now m.system.shared.tree in
        StandsAt system.new (spec.unless (spec.coupling_refusal task m.system) channel (spec.continued channel task) m)) }
{
    let task = system.named(name);
    match system.coupling_refusal(task) {
        Some(answer) => refused(system, channel, answer),
        None => continued(alloc, system, channel, task),
    }
}

/// A task is coupled and goes on.
fn continued(alloc: Global, system: &mut System, channel: u8, task: TaskNo) -> Result<(), NoMemory>
    requires low { 1 ≤ channel }
    requires high { channel ≤ 4 }
    ensures { OnOk result ((m : Moment) → StandsAt system.old m → StandsAt system.new (spec.continued channel task m)) }
{
    system.couple(channel, task);
    resumed(alloc, system, channel, task)?;
    Ok(())
}

/// What waited to be written is written, and an idle task prompts.
fn resumed(alloc: Global, system: &mut System, channel: u8, task: TaskNo) -> Result<(), NoMemory>
    requires low { 1 ≤ channel }
    requires high { channel ≤ 4 }
    ensures { OnOk result ((m : Moment) → StandsAt system.old m
        → StandsAt system.new (spec.resumed (doing task m.system) (requested task m.system) channel task m)) }
{
    match system.what(task) {
        What::Idle => say_prompt(system, channel),
        What::Gone => written(alloc, system, channel, task),
        What::Entering => written(alloc, system, channel, task),
        What::Running => written(alloc, system, channel, task),
    }
}

/// What a task waits to write is written.
fn written(alloc: Global, system: &mut System, channel: u8, task: TaskNo) -> Result<(), NoMemory>
    requires low { 1 ≤ channel }
    requires high { channel ≤ 4 }
    ensures { OnOk result ((m : Moment) → StandsAt system.old m
        → StandsAt system.new (waiting.written (waiting.output_of (requested task m.system)) channel task m)) }
{
    let request = system.requested(alloc, task)?;
    match output_of(&request) {
        Some((bytes, ends)) => put(system, channel, task, bytes, ends),
        None => Ok(()),
    }
}

/// Bytes are written for a task, and it goes on.
fn put(
    system: &mut System,
    channel: u8,
    task: TaskNo,
    bytes: &[u8],
    ends: bool,
) -> Result<(), NoMemory>
    requires low { 1 ≤ channel }
    requires high { channel ≤ 4 }
    ensures { OnOk result ((m : Moment) → StandsAt system.old m → StandsAt system.new (waiting.put bytes.now ends channel task m)) }
{
    system.write(channel, bytes, ends)?;
    system.reply(task, Reply::Done)?;
    system.back(task);
    Ok(())
}

/// The bytes that are to be written, and whether they end the line.
fn output_of(request: &Option<Request>) -> Option<(&[u8], bool)>
    ensures { option_map (λ output. (output.0.now, output.1)) result ≡ waiting.output_of request.now }
{
    match request {
        Some(Request::Out { bytes, ends }) => Some((bytes.as_slice(), *ends)),
        _ => None,
    }
}
