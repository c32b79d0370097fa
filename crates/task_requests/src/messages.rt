//! What becomes of messages. A task that is answered here has got its reply already.
ghost use Rattle.std.specs.Prelude.{◌≡◌, ◌≢◌, ◌∷◌, [], Some, None, true, false, IfOk};
ghost use Rattle.eu_base.specs.declared.request.Request.{Request as Requests};
ghost use Rattle.eu_base.specs.declared.request.Request.TheVariants as requests;
ghost use Rattle.eu_base.specs.declared.request.Reply.TheVariants as replies;
ghost use Rattle.eu_base.specs.Requests.{plain, is_plain, sent_by};
ghost use Rattle.eu_base.specs.DataSpaces.{Forgets, heads_of, is_live};
ghost use Rattle.eu_base.specs.SpaceOperations.{room_refusal};
ghost use Rattle.std.specs.Option.{option_copied};
ghost use Rattle.task_requests.specs.Below.message_wait.specs.Rendezvous as rendezvous;
ghost use Rattle.task_requests.specs.Below.task_tree.specs.Tree as tree;
ghost use Rattle.task_requests.specs.Below.system_meaning.specs.Systems.{Moment, given, kept, on_system, requested, woken};
ghost use Rattle.task_requests.specs.Below.system_meaning.specs.Serving as spec;
ghost use Rattle.live_system.specs.Machines.{StandsAt};
ghost use Rattle.task_requests.specs.Served.{IsAsking, GoesAs, is_about_message};

use eu_base::{NoMemory, Reply, Request, Stop};
use live_system::{Offer, System};
use task_numbers::TaskNo;

/// A request about messages is served. Whether the task goes on.
pub(crate) fn message(
    system: &mut System,
    task: TaskNo,
    request: &Request,
) -> Result<bool, NoMemory>
    ensures { IfOk result (λ goes. (m : Moment) → is_about_message request.now ≡ true → IsAsking task request.now m.system → StandsAt system.old m →
        GoesAs task (spec.serve task request.now m) system.new goes) }
{
    match request {
        Request::Send { to, code, space } => send(system, task, TaskNo(*to), *code, *space),
        Request::Wait => wait(system, task),
        Request::Call { to, code, space } => call(system, task, TaskNo(*to), *code, *space),
        Request::Answer { of } => {
            system.wait_from(task, TaskNo(*of));
            Ok(false)
        }
        _ => Ok(false),
    }
}

/// A task sends a message to another. Whether it goes on, as it does here always.
fn send(
    system: &mut System,
    task: TaskNo,
    to: TaskNo,
    code: i16,
    space: u32,
) -> Result<bool, NoMemory>
    ensures { IfOk result (λ goes. (m : Moment) → IsAsking task (requests.Send to.0 code space) m.system → StandsAt system.old m →
        GoesAs task (spec.serve task (requests.Send to.0 code space) m) system.new goes) }
{
    if !system.has_space(task, space) {
        return answered(system, task, Reply::Stopped(Stop::NoSpace));
    }
    if !system.lives(to) {
        return answered(system, task, Reply::Receipt(-1));
    }
    match system.offer(task, to, code, false) {
        Offer::Taken => handed(system, task, to, code, space),
        Offer::NotReady => answered(system, task, Reply::Receipt(-2)),
        Offer::Queued => Ok(false),
    }
}

/// A task calls another. Whether it goes on: not where its message waits.
fn call(
    system: &mut System,
    task: TaskNo,
    to: TaskNo,
    code: i16,
    space: u32,
) -> Result<bool, NoMemory>
    ensures { IfOk result (λ goes. (m : Moment) → IsAsking task (requests.Call to.0 code space) m.system → StandsAt system.old m →
        GoesAs task (spec.serve task (requests.Call to.0 code space) m) system.new goes) }
{
    if !system.has_space(task, space) {
        return answered(system, task, Reply::Stopped(Stop::NoSpace));
    }
    match system.refusal_without(task, space) {
        Some(stop) => answered(system, task, Reply::Stopped(stop)),
        None => call_one(system, task, to, code, space),
    }
}

// Its message can be sent, and there is room for the answer. A call of the task itself is not taken.
fn call_one(
    system: &mut System,
    task: TaskNo,
    to: TaskNo,
    code: i16,
    space: u32,
) -> Result<bool, NoMemory>
    ensures { IfOk result (λ goes. (m : Moment) → IsAsking task (requests.Call to.0 code space) m.system →
        is_live (spec.space_number space) (kept task m.system).spaces ≡ true → StandsAt system.old m →
        GoesAs task (spec.call_living (tree.lives to m.system.shared.tree) (spec.caller task to.0 code) space m) system.new goes) }
{
    if !system.lives(to) {
        return answered(system, task, Reply::Receipt(-1));
    }
    if to.is(task) {
        return answered(system, task, Reply::Receipt(-2));
    }
    match system.offer(task, to, code, true) {
        Offer::Taken => handed(system, task, to, code, space),
        Offer::NotReady => answered(system, task, Reply::Receipt(-2)),
        Offer::Queued => Ok(false),
    }
}

/// A task waits for a message. Whether it goes on: where one has called it.
fn wait(system: &mut System, task: TaskNo) -> Result<bool, NoMemory>
    ensures { IfOk result (λ goes. (m : Moment) → IsAsking task requests.Wait m.system → StandsAt system.old m →
        GoesAs task (spec.serve task requests.Wait m) system.new goes) }
{
    match system.room_refusal(task) {
        Some(stop) => answered(system, task, Reply::Stopped(stop)),
        None => message_for(system, task),
    }
}

// A task has room for a data space: it takes the message of the one that has called it longest, which waits for its answer then, or waits for anybody's.
fn message_for(system: &mut System, task: TaskNo) -> Result<bool, NoMemory>
    ensures { IfOk result (λ goes. (m : Moment) → IsAsking task requests.Wait m.system → room_refusal (heads_of (kept task m.system).spaces) ≡ None →
        StandsAt system.old m → GoesAs task (spec.call_taken (rendezvous.first_caller task m.system.shared.waits) task m) system.new goes) }
{
    match system.wait_any(task) {
        None => Ok(false),
        Some((caller, code)) => {
            let space = space_of(system, caller);
            system.hand(caller, task, space, code)?;
            system.wait_from(caller, task);
            Ok(true)
        }
    }
}

// Another task took the message, and waits no more: both are answered, and the other is ready to go on.
fn handed(
    system: &mut System,
    task: TaskNo,
    to: TaskNo,
    code: i16,
    space: u32,
) -> Result<bool, NoMemory>
    ensures { IfOk result (λ goes. (m : Moment) (request asked : Requests) → task.0 ≢ to.0 → requested task m.system ≡ Some request →
        sent_by request ≡ Forgets (spec.space_number space) ∷ [] → is_live (spec.space_number space) (kept task m.system).spaces ≡ true →
        requested to m.system ≡ Some asked → room_refusal (heads_of (kept to m.system).spaces) ≡ None → StandsAt system.old m →
        (goes ≡ true) × StandsAt system.new (on_system (given task (plain replies.Taken))
        (on_system (woken to (spec.message code task (spec.content task space m.system) to m.system)) m))) }
{
    system.hand(task, to, space, code)?;
    system.back(to);
    Ok(true)
}

// A task gets a reply that is no message.
fn answered(system: &mut System, task: TaskNo, reply: Reply) -> Result<bool, NoMemory>
    requires plain { is_plain reply ≡ true }
    ensures { IfOk result (λ goes. (m : Moment) → StandsAt system.old m → GoesAs task (spec.replies_with reply m) system.new goes) }
{
    system.reply(task, reply)?;
    Ok(true)
}

// The number of the data space that a caller sends.
fn space_of(system: &System, caller: TaskNo) -> u32
    ensures { (m : Moment) → StandsAt system.now m → result ≡ spec.called_with (requested caller m.system) }
{
    called_with(system.asked(caller))
}

// The number in the request of a call.
fn called_with(request: Option<&Request>) -> u32
    ensures { result ≡ spec.called_with (option_copied request.entry) }
{
    match request {
        Some(
            Request::Call {
                to: _,
                code: _,
                space,
            },
        ) => *space,
        _ => 0,
    }
}
