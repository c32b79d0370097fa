//! Sons that begin.
ghost use Rattle.std.specs.Prelude.{◌≡◌, true, None, IfOk, IfSome};
ghost use Rattle.eu_base.specs.Requests.{is_plain};
ghost use Rattle.task_requests.specs.Below.task_tree.specs.Tree as tree;
ghost use Rattle.task_requests.specs.Below.units.specs.Library.{started_at};
ghost use Rattle.task_requests.specs.Below.system_meaning.specs.Systems.{Moment, packets};
ghost use Rattle.task_requests.specs.Below.system_meaning.specs.Serving as spec;
ghost use Rattle.live_system.specs.Machines.{StandsAt};
ghost use Rattle.task_requests.specs.Served.{ServedAs};

use eu_base::{NoMemory, Reply, Stop, is_name};
use live_system::System;
use std::alloc::Global;
use task_numbers::TaskNo;

/// A son of a task begins, and runs a start procedure. Where it cannot, the task stops.
pub(crate) fn begin(
    alloc: Global,
    system: &mut System,
    task: TaskNo,
    name: &[u8],
    start: usize,
) -> Result<Option<Reply>, NoMemory>
    ensures served { IfOk result (λ reply. (m : Moment) → tree.lives task m.system.shared.tree ≡ true → StandsAt system.old m →
        ServedAs (spec.begin_with (spec.begin_refusal name.now m.system) (started_at m.system.shared.library (packets task m.system) start) name.now task m) system.new reply) }
    ensures plain { IfOk result (λ reply. IfSome reply (λ r. is_plain r ≡ true)) }
{
    match refusal(system, name) {
        Some(stop) => Ok(Some(Reply::Stopped(stop))),
        None => begin_running(alloc, system, task, name, start),
    }
}

/// The same, where nothing is against the name.
fn begin_running(
    alloc: Global,
    system: &mut System,
    task: TaskNo,
    name: &[u8],
    start: usize,
) -> Result<Option<Reply>, NoMemory>
    ensures served { IfOk result (λ reply. (m : Moment) → tree.lives task m.system.shared.tree ≡ true → spec.begin_refusal name.now m.system ≡ None → StandsAt system.old m →
        ServedAs (spec.begin_with None (started_at m.system.shared.library (packets task m.system) start) name.now task m) system.new reply) }
    ensures plain { IfOk result (λ reply. IfSome reply (λ r. is_plain r ≡ true)) }
{
    match system.begin_running(alloc, name, task, start)? {
        Some(son) => Ok(Some(Reply::Task(son.0))),
        None => Ok(Some(Reply::Stopped(Stop::NotInserted))),
    }
}

/// Why no task of this name can begin.
fn refusal(system: &System, name: &[u8]) -> Option<Stop>
    ensures { (m : Moment) → StandsAt system.now m → result ≡ spec.begin_refusal name.now m.system }
{
    if is_name(name) {
        system.tree_refusal(name)
    } else {
        Some(Stop::BadName)
    }
}
