//! What messages bring.
ghost use Rattle.std.specs.Prelude.{◌≡◌, IfOk};
ghost use Rattle.eu_base.specs.Requests.{send_values, call_values, wait_values, message_values};

use eu_base::{List, NoMemory, Reply, RequestName, SpaceNo, Value};
use std::alloc::Global;

/// What a request about a message gives its variables of a reply, each by its number among them; the last data space that the task got
/// has this number.
pub fn message_values(
    alloc: Global,
    name: RequestName,
    reply: &Reply,
    made: SpaceNo,
) -> Result<List<(usize, Value)>, NoMemory>
    ensures { IfOk result (λ values. values ≡ message_values name reply.now made) }
{
    match name {
        RequestName::Send => send_values(alloc, reply),
        RequestName::Wait => wait_values(alloc, reply, made),
        RequestName::Call => call_values(alloc, reply, made),
        _ => Ok(List::new(alloc)),
    }
}

// `send`
#[tactic(auto, using(crate::proofs::Messages::ranged_same))]
fn send_values(alloc: Global, reply: &Reply) -> Result<List<(usize, Value)>, NoMemory>
    ensures { IfOk result (λ values. values ≡ send_values reply.now) }
{
    let mut values = List::new(alloc);
    match reply {
        Reply::Taken => values.push((1, Value::Int(0)))?,
        Reply::Receipt(number) => values.push((1, Value::Int(*number)))?,
        _ => {}
    }
    Ok(values)
}

// `wait`
#[tactic(auto, using(crate::proofs::Messages::ranged_same, crate::proofs::Messages::task_same))]
fn wait_values(
    alloc: Global,
    reply: &Reply,
    made: SpaceNo,
) -> Result<List<(usize, Value)>, NoMemory>
    ensures { IfOk result (λ values. values ≡ wait_values reply.now made) }
{
    let mut values = List::new(alloc);
    if let Reply::Message {
        code,
        from,
        space: _,
    } = reply
    {
        values.push((1, Value::Int(*code)))?;
        values.push((2, Value::Task(*from)))?;
        values.push((0, Value::Space(Some(made))))?;
    }
    Ok(values)
}

// `call`
#[tactic(auto, using(crate::proofs::Messages::ranged_same))]
fn call_values(
    alloc: Global,
    reply: &Reply,
    made: SpaceNo,
) -> Result<List<(usize, Value)>, NoMemory>
    ensures { IfOk result (λ values. values ≡ call_values reply.now made) }
{
    let mut values = List::new(alloc);
    match reply {
        Reply::Receipt(number) => values.push((1, Value::Int(*number)))?,
        Reply::Message {
            code,
            from: _,
            space: _,
        } => {
            values.push((1, Value::Int(*code)))?;
            values.push((0, Value::Space(Some(made))))?;
        }
        _ => {}
    }
    Ok(values)
}
