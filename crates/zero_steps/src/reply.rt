//! Replies.
ghost use Rattle.std.specs.Prelude.{◌≡◌, ◌+◌, ◌^◌, ◌<◌, ◌≤◌, ◌∷◌, [], true, false, length, drop, IfOk, IsSome, None, MatchOption};
ghost use Rattle.std.specs.List.{AllByRecursion};
ghost use Rattle.eu_base.specs.declared.request.Reply.{Reply};
ghost use Rattle.eu_base.specs.Cells.{IsCell, held_of, HasFaultCause};
ghost use Rattle.eu_base.specs.Values.{kind_of};
ghost use Rattle.eu_base.specs.SpaceCells.{IsThere};
ghost use Rattle.eu_base.specs.SpacePlaces.{lies_in};
ghost use Rattle.eu_base.specs.Requests.{request_places, request_size, request_result, is_message, read_as, answer_of, message_values, Suits};
ghost use Rattle.zero_ops.specs.Given.{Gives};
ghost use Rattle.code_form.specs.declared.waits.Waits.TheVariants as waits;
ghost use Rattle.zero_state.specs.Finds.{FindsReply, IsVariable};
ghost use Rattle.zero_state.specs.Stepping.{position_of, control_of, has_room};
ghost use Rattle.zero_steps.specs.Replying.{Replies, Answers, IsAt, PutsIn, left_waiting};

use crate::push::stopped;
use crate::reading::put;
use crate::receive_all;
use code_form::{Operand, Waits};
use eu_base::{Addr, List, MemFault, Memory, NoMemory, RequestName, Set, SpaceNo, Stop, Value};
use space_calls::{are_there, kind_of};
use std::alloc::Global;
use zero_ops::{OpError, answer_of, message_values, read_as};
use zero_state::{Next, State};

/// Goes on from a request with the reply that is there: it takes its operands, and what it delivers is pushed, or its variables get what it
/// brings. A stop leaves all as it was, but for the variables of a message before one that is not there.
pub fn take_reply<M: Memory>(s: &mut State, m: &mut M, name: RequestName) -> Result<Next, MemFault>
    requires next { s.old.pc + 1 < 2 ^ 64 }
    requires room { has_room s.old ≡ true }
    requires finds { FindsReply name s.old.stack.ops }
    ensures goes { IfOk result (λ next. (r : Reply) → s.old.waits ≡ waits.Given r →
        Replies (M.holds m.old) (M.holds m.new) (M.heads m.old) (M.heads m.new) name r (position_of s.old) (control_of s.new) next) }
    ensures cause { HasFaultCause (M.faults m.old) (M.faults m.new) result }
    ensures follows { M.follows m.old m.new }
{
    match name.result_kind() {
        Some(_) => Ok(push_answer(s, name)?),
        None => {
            if name.is_message() {
                receive(s, m, name)
            } else {
                keep_line(s, m, name)
            }
        }
    }
}

// The variables of a request about a message get what the reply brings.
fn receive<M: Memory>(s: &mut State, m: &mut M, name: RequestName) -> Result<Next, MemFault>
    requires next { s.old.pc + 1 < 2 ^ 64 }
    requires none { request_result name ≡ None }
    requires message { is_message name ≡ true }
    requires finds { FindsReply name s.old.stack.ops }
    ensures goes { IfOk result (λ next. (r : Reply) → s.old.waits ≡ waits.Given r →
        Replies (M.holds m.old) (M.holds m.new) (M.heads m.old) (M.heads m.new) name r (position_of s.old) (control_of s.new) next) }
    ensures cause { HasFaultCause (M.faults m.old) (M.faults m.new) result }
    ensures follows { M.follows m.old m.new }
{
    let made = SpaceNo(m.last_number());
    let values = brought(s.alloc, name, &s.waits, made)?;
    let count = name.size();
    let variables = behind(s.stack.top(count), name.operand_kinds().len());
    let all = receive_all(m, variables, values.as_slice())?;
    s.stack.drop_top(count);
    s.waits = goes_on_if(all);
    s.pc += 1;
    Ok(Next::On)
}

// What a request about a message takes for its variables out of the reply that is there.
fn brought(
    alloc: Global,
    name: RequestName,
    waiting: &Waits,
    made: SpaceNo,
) -> Result<List<(usize, Value)>, NoMemory>
    ensures { IfOk result (λ values. ((r : Reply) → waiting.now ≡ waits.Given r → values ≡ message_values name r made)
        × AllByRecursion (Suits (request_places name)) values) }
{
    match waiting {
        Waits::Given(reply) => message_values(alloc, name, reply, made),
        Waits::Nothing | Waits::Asked(_) | Waits::Refused(_) => Ok(List::new(alloc)),
    }
}

// The operands behind so many.
fn behind(operands: &[Operand], count: usize) -> &[Operand]
    requires { count ≤ length operands.now }
    ensures { result.now ≡ drop count operands.now }
{
    &operands[count..]
}

// It goes on, or stops where a variable is not there.
fn goes_on_if(all: bool) -> Waits
    ensures { result ≡ left_waiting all }
{
    if all {
        Waits::Nothing
    } else {
        Waits::Refused(Stop::NoSpace)
    }
}

// What a request delivers is pushed in place of its operands, where it has room.
fn push_answer(s: &mut State, name: RequestName) -> Result<Next, NoMemory>
    requires next { s.old.pc + 1 < 2 ^ 64 }
    requires room { has_room s.old ≡ true }
    requires taken { request_size name ≤ length s.old.stack.ops }
    requires delivers { IsSome (request_result name) }
    ensures { IfOk result (λ next. (r : Reply) → s.old.waits ≡ waits.Given r →
        Answers name r (position_of s.old) (control_of s.new) next) }
{
    let value = match answered(s.alloc, name, &s.waits) {
        Ok(value) => value,
        Err(OpError::Stop(fault)) => return Ok(stopped(fault)),
        Err(OpError::NoMemory) => return Err(NoMemory),
    };
    let operand = Operand::Value(value);
    let count = name.size();
    if !s.stack.has_room_behind(count, &operand) {
        return Ok(Next::OperandRoom);
    }
    s.stack.drop_top(count);
    s.stack.push(operand)?;
    s.waits = Waits::Nothing;
    s.pc += 1;
    Ok(Next::On)
}

// What a request delivers of the reply that is there.
fn answered(alloc: Global, name: RequestName, waiting: &Waits) -> Result<Value, OpError>
    ensures { (r : Reply) → waiting.now ≡ waits.Given r → Gives result (answer_of name r) }
{
    match waiting {
        Waits::Given(reply) => answer_of(alloc, name, reply),
        Waits::Nothing | Waits::Asked(_) | Waits::Refused(_) => Ok(Value::Int(0)),
    }
}

// The variable of a request gets what it reads, where it has one.
fn keep_line<M: Memory>(s: &mut State, m: &mut M, name: RequestName) -> Result<Next, MemFault>
    requires next { s.old.pc + 1 < 2 ^ 64 }
    requires none { request_result name ≡ None }
    requires other { is_message name ≡ false }
    requires finds { FindsReply name s.old.stack.ops }
    ensures goes { IfOk result (λ next. (r : Reply) → s.old.waits ≡ waits.Given r →
        Replies (M.holds m.old) (M.holds m.new) (M.heads m.old) (M.heads m.old) name r (position_of s.old) (control_of s.new) next) }
    ensures heads { M.heads m.new ≡ M.heads m.old }
    ensures cause { HasFaultCause (M.faults m.old) (M.faults m.new) result }
    ensures follows { M.follows m.old m.new }
{
    let value = match read(s.alloc, name, &s.waits) {
        Ok(value) => value,
        Err(OpError::Stop(fault)) => return Ok(stopped(fault)),
        Err(OpError::NoMemory) => return Err(MemFault::NoMemory),
    };
    let count = name.size();
    let at = variable(s.stack.top(count), name.operand_kinds().len());
    if !is_kept_there(m, at, &value) {
        return Ok(Next::NoSpace);
    }
    match keep(m, at, &value)? {
        Set::Done => {
            s.stack.drop_top(count);
            s.waits = Waits::Nothing;
            s.pc += 1;
            Ok(Next::On)
        }
        Set::HeapFull => Ok(Next::TextRoom),
    }
}

// What a request takes for its variable out of the reply that is there.
fn read(alloc: Global, name: RequestName, waiting: &Waits) -> Result<Value, OpError>
    ensures { (r : Reply) → waiting.now ≡ waits.Given r → Gives result (read_as name r) }
{
    match waiting {
        Waits::Given(reply) => read_as(alloc, name, reply),
        Waits::Nothing | Waits::Asked(_) | Waits::Refused(_) => Ok(Value::Int(0)),
    }
}

// The variable behind so many values.
fn variable(operands: &[Operand], values: usize) -> Option<Addr>
    requires { IsVariable (drop values operands.now) }
    ensures { IsAt (drop values operands.now) result }
{
    match operands.get(values) {
        None => None,
        Some(Operand::Place(at)) => Some(*at),
        Some(_) => unreachable!(),
    }
}

// Whether the variable is there, where there is one.
fn is_kept_there<M: Memory>(m: &M, at: Option<Addr>, value: &Value) -> bool
    ensures { MatchOption at (result ≡ true) (λ a. result ≡ lies_in (kind_of value.now ∷ []) a.area a.cell (M.heads m.now)) }
{
    match at {
        None => true,
        Some(at) => are_there(m, at, &[kind_of(value)]),
    }
}

// Puts a value into a variable, where there is one.
fn keep<M: Memory>(m: &mut M, at: Option<Addr>, value: &Value) -> Result<Set, MemFault>
    requires cell { MatchOption at (Unit {0}) IsCell }
    requires there { MatchOption at (Unit {0}) (λ a. IsThere (M.heads m.old) a.area) }
    ensures puts { IfOk result (PutsIn (M.holds m.old) (M.holds m.new) at (held_of value.now)) }
    ensures heads { M.heads m.new ≡ M.heads m.old }
    ensures cause { HasFaultCause (M.faults m.old) (M.faults m.new) result }
    ensures follows { M.follows m.old m.new }
{
    match at {
        None => Ok(Set::Done),
        Some(at) => put(m, at, value),
    }
}
