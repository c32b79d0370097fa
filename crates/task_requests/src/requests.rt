//! The requests of a task.
ghost use Rattle.std.specs.Prelude.{◌≡◌, true, false, IfOk, IfSome};
ghost use Rattle.eu_base.specs.Requests.{is_plain};
ghost use Rattle.eu_base.specs.declared.request.Reply.TheVariants as replies;
ghost use Rattle.task_requests.specs.Below.task_tree.specs.Tree as tree;
ghost use Rattle.task_requests.specs.Below.system_meaning.specs.Systems.{Moment};
ghost use Rattle.task_requests.specs.Below.system_meaning.specs.Serving as spec;
ghost use Rattle.live_system.specs.Machines.{StandsAt};
ghost use Rattle.task_requests.specs.Served.{IsAsking, ServedAs, GoesAs, is_about_message};

use crate::begins::begin;
use crate::channel::{leave, line_for, put};
use crate::ends::end;
use crate::messages::message;
use eu_base::{Bytes, NoMemory, Reply, Request};
use live_system::System;
use std::alloc::Global;
use task_numbers::TaskNo;

/// Serves a request of a task. Whether the task goes on, which has its reply then; else it rests, since it waits or is gone.
pub fn serve(
    alloc: Global,
    system: &mut System,
    task: TaskNo,
    request: Request,
) -> Result<bool, NoMemory>
    ensures { IfOk result (λ goes. (m : Moment) → IsAsking task request m.system → StandsAt system.old m →
        GoesAs task (spec.serve task request m) system.new goes) }
{
    served(alloc, system, task, &request)
}

/// The same of a request that is lent.
fn served(
    alloc: Global,
    system: &mut System,
    task: TaskNo,
    request: &Request,
) -> Result<bool, NoMemory>
    ensures { IfOk result (λ goes. (m : Moment) → IsAsking task request.now m.system → StandsAt system.old m →
        GoesAs task (spec.serve task request.now m) system.new goes) }
{
    if is_about_message(request) {
        message(system, task, request)
    } else {
        replied(alloc, system, task, request)
    }
}

/// Whether a request is about messages.
fn is_about_message(request: &Request) -> bool
    ensures { result ≡ is_about_message request.now }
{
    matches!(
        request,
        Request::Send { .. } | Request::Wait | Request::Call { .. } | Request::Answer { .. }
    )
}

/// A task gets the reply to its request, which is about no message.
fn replied(
    alloc: Global,
    system: &mut System,
    task: TaskNo,
    request: &Request,
) -> Result<bool, NoMemory>
    ensures { IfOk result (λ goes. (m : Moment) → is_about_message request.now ≡ false → tree.lives task m.system.shared.tree ≡ true → StandsAt system.old m →
        GoesAs task (spec.serve task request.now m) system.new goes) }
{
    match reply_to(alloc, system, task, request)? {
        Some(reply) => {
            system.reply(task, reply)?;
            Ok(true)
        }
        None => Ok(false),
    }
}

/// The reply to a request that is about no message. `None`: the task rests, since it waits or is gone.
fn reply_to(
    alloc: Global,
    system: &mut System,
    task: TaskNo,
    request: &Request,
) -> Result<Option<Reply>, NoMemory>
    ensures served { IfOk result (λ reply. (m : Moment) → is_about_message request.now ≡ false → tree.lives task m.system.shared.tree ≡ true → StandsAt system.old m →
        ServedAs (spec.serve task request.now m) system.new reply) }
    ensures plain { IfOk result (λ reply. IfSome reply (λ r. is_plain r ≡ true)) }
{
    match request {
        Request::Out { bytes, ends } => put(system, task, bytes.as_slice(), *ends),
        Request::Input => Ok(line_for(system, task)),
        Request::Begin { name, start } => begin(alloc, system, task, name.as_slice(), *start),
        Request::End(of) => end(alloc, system, task, named_or(*of, task)),
        Request::Myself => Ok(Some(of_task(task))),
        Request::Father(of) => Ok(Some(of_task(system.father(named_or(*of, task))))),
        Request::Son(of) => Ok(Some(of_task(system.son(TaskNo(*of))))),
        Request::Brother(of) => Ok(Some(of_task(system.brother(TaskNo(*of))))),
        Request::Named(name) => Ok(Some(of_task(system.named(name.as_slice())))),
        Request::Name(of) => name_of(alloc, system, TaskNo(*of)),
        Request::Exists(of) => Ok(Some(Reply::Truth(system.lives(TaskNo(*of))))),
        Request::Break => leave(system, task),
        Request::Send { .. } => Ok(None),
        Request::Wait => Ok(None),
        Request::Call { .. } => Ok(None),
        Request::Answer { .. } => Ok(None),
    }
}

/// The name of a task.
fn name_of(alloc: Global, system: &System, task: TaskNo) -> Result<Option<Reply>, NoMemory>
    ensures served { IfOk result (λ reply. (m : Moment) → StandsAt system.now m →
        ServedAs (spec.replies_with (replies.Text (tree.name task m.system.shared.tree)) m) system.now reply) }
    ensures plain { IfOk result (λ reply. IfSome reply (λ r. is_plain r ≡ true)) }
{
    let name = Bytes::from(alloc, system.name(task))?;
    Ok(Some(Reply::Text(name)))
}

/// The number of a task.
fn of_task(task: TaskNo) -> Reply
    ensures { result ≡ spec.of_task task }
{
    Reply::Task(task.0)
}

/// The task that is told, and else the task itself.
fn named_or(named: Option<u32>, task: TaskNo) -> TaskNo
    ensures { result ≡ spec.named_or named task }
{
    match named {
        Some(number) => TaskNo(number),
        None => task,
    }
}
