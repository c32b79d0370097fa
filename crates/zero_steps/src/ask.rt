//! Requests.
ghost use Rattle.std.specs.Prelude.{◌≡◌, ◌≤◌, ◌∷◌, true, false, List, drop, IfOk, Option, Some, length, map};
ghost use Rattle.eu_base.specs.declared.value.Value.TheVariants as values;
ghost use Rattle.eu_base.specs.Cells.{IsCell, HasFaultCause};
ghost use Rattle.eu_base.specs.Values.{SpaceNo as SpaceNos};
ghost use Rattle.eu_base.specs.Operations.{number_at, text_at, task_at};
ghost use Rattle.eu_base.specs.Requests.{request_size, sends, sent_number, request_of};
ghost use Rattle.code_form.specs.declared.operand.Operand.{Operand as Operands};
ghost use Rattle.code_form.specs.declared.operand.Operand.TheVariants as operand;
ghost use Rattle.code_form.specs.Program.{Program};
ghost use Rattle.code_form.specs.declared.instr.Instr.TheVariants as instrs;
ghost use Rattle.code_form.specs.Machine.{Mem, instruction, stage, value_in};
ghost use Rattle.zero_state.specs.Finds.{FindsReply};
ghost use Rattle.zero_state.specs.Stepping.{position_of, control_of, scene_of, stage_of, stage_by, halt_of, IsReady, Steps};
ghost use Rattle.zero_steps.specs.Asking.{IsFirst};

use code_form::{Operand, Waits};
use eu_base::{
    Addr, Bytes, Kind, MemFault, Memory, NoMemory, Request, RequestName, SpaceNo, decimal, space_in,
};
use space_calls::are_there;
use std::alloc::Global;
use zero_state::{Next, State};

/// Spends a mark, and makes a request that sends no data space, with the operands on top. It stands outside the loop of a run, which is
/// quicker so.
#[inline(never)]
pub fn ask(s: &mut State, name: RequestName, marks: &mut u32) -> Result<Next, NoMemory>
    requires ready { IsReady s.old }
    requires plain { sends name ≡ false }
    requires finds { request_size name ≤ length s.old.stack.ops }
    ensures { IfOk result (λ next. (p : Program) (mem : Mem) → stage_of (halt_of next) (control_of s.new) (scene_of mem marks.new) ≡ stage
        (instruction p (Some (instrs.Ask name)) (position_of s.old) mem) (position_of s.old) (scene_of mem marks.old)) }
{
    if *marks == 0 {
        return Ok(Next::Marked);
    }
    let request = request(s.alloc, name, s.stack.top(name.size()))?;
    *marks -= 1;
    s.waits = Waits::Asked(request);
    Ok(Next::On)
}

/// Spends a mark, and makes a request that sends the data space in its first variable, with the operands on top. Where that variable is not
/// there, it stops once the mark is spent.
#[inline(never)]
pub fn ask_sending<M: Memory>(
    s: &mut State,
    m: &mut M,
    name: RequestName,
    marks: &mut u32,
) -> Result<Next, MemFault>
    requires ready { IsReady s.old }
    requires sends { sends name ≡ true }
    requires finds { FindsReply name s.old.stack.ops }
    ensures goes { IfOk result (λ next. (p : Program) → Steps (M.holds m.old) (M.holds m.new) (M.heads m.old) (M.heads m.old)
        (stage_by p (instrs.Ask name) marks.old) (position_of s.old) (control_of s.new) marks.new next) }
    ensures heads { M.heads m.new ≡ M.heads m.old }
    ensures cause { HasFaultCause (M.faults m.old) (M.faults m.new) result }
    ensures follows { M.follows m.old m.new }
{
    if *marks == 0 {
        return Ok(Next::Marked);
    }
    let operands = s.stack.top(name.size());
    let at = first_behind(operands, name.operand_kinds().len());
    if !are_there(m, at, &[Kind::Space]) {
        *marks -= 1;
        return Ok(Next::NoSpace);
    }
    let space = sent_number(space_in(m.cell(at)?));
    let request = sending(name, operands, space);
    *marks -= 1;
    s.waits = Waits::Asked(request);
    Ok(Next::On)
}

// The variable behind so many values.
fn first_behind(operands: &[Operand], values: usize) -> Addr
    requires { IsFirst (drop values operands.now) }
    ensures first { (rest : List Operands) × (drop values operands.now ≡ operand.Place result ∷ rest) }
    ensures cell { IsCell result }
{
    match operands.get(values) {
        Some(Operand::Place(at)) => *at,
        _ => unreachable!(),
    }
}

// The number of a data space in a request; 0 of the nil space.
fn sent_number(space: Option<SpaceNo>) -> u32
    ensures { result ≡ sent_number space }
{
    match space {
        Some(s) => s.0,
        None => 0,
    }
}

// What a request that sends a data space of a number asks for with these operands.
fn sending(name: RequestName, operands: &[Operand], space: u32) -> Request
    requires { sends name ≡ true }
    ensures { (s : Option SpaceNos) → space ≡ sent_number s → result ≡ request_of name (values.Space s ∷ map value_in operands.now) }
{
    let to = task_at(operands, 0);
    let code = number_at(operands, 1);
    match name {
        RequestName::Send => Request::Send { to, code, space },
        RequestName::Call => Request::Call { to, code, space },
        _ => unreachable!(),
    }
}

// What a request asks for with these operands.
fn request(alloc: Global, name: RequestName, operands: &[Operand]) -> Result<Request, NoMemory>
    requires { sends name ≡ false }
    ensures { IfOk result (λ request. request ≡ request_of name (map value_in operands.now)) }
{
    match name {
        RequestName::PutNumber => {
            let mut bytes = decimal(alloc, i64::from(number_at(operands, 0)))?;
            bytes.append(b" ")?;
            Ok(Request::Out { bytes, ends: false })
        }
        RequestName::PutText => {
            let mut bytes = Bytes::from(alloc, text_at(operands, 0))?;
            bytes.append(b" ")?;
            Ok(Request::Out { bytes, ends: false })
        }
        RequestName::Write => Ok(Request::Out {
            bytes: Bytes::from(alloc, text_at(operands, 0))?,
            ends: false,
        }),
        RequestName::PutLine => Ok(Request::Out {
            bytes: Bytes::from(alloc, text_at(operands, 0))?,
            ends: true,
        }),
        RequestName::Line => Ok(Request::Out {
            bytes: Bytes::new(alloc),
            ends: true,
        }),
        RequestName::GetNumber | RequestName::GetText | RequestName::GetLine => Ok(Request::Input),
        RequestName::Named => Ok(Request::Named(Bytes::from(alloc, text_at(operands, 0))?)),
        RequestName::Begin(start) => Ok(Request::Begin {
            name: Bytes::from(alloc, text_at(operands, 0))?,
            start,
        }),
        RequestName::Myself => Ok(Request::Myself),
        RequestName::Father => Ok(Request::Father(None)),
        RequestName::FatherOf => Ok(Request::Father(Some(task_at(operands, 0)))),
        RequestName::Son => Ok(Request::Son(task_at(operands, 0))),
        RequestName::Brother => Ok(Request::Brother(task_at(operands, 0))),
        RequestName::NameOf => Ok(Request::Name(task_at(operands, 0))),
        RequestName::Exists => Ok(Request::Exists(task_at(operands, 0))),
        RequestName::EndOf => Ok(Request::End(Some(task_at(operands, 0)))),
        RequestName::End => Ok(Request::End(None)),
        RequestName::Break => Ok(Request::Break),
        RequestName::Wait => Ok(Request::Wait),
        RequestName::Send | RequestName::Call => unreachable!(),
    }
}

// The number at a place; 0 where none is there.
fn number_at(operands: &[Operand], place: usize) -> i16
    ensures { result ≡ number_at (map value_in operands.now) place }
{
    match operands.get(place) {
        Some(Operand::Value(value)) => value.number(),
        _ => 0,
    }
}

// The text at a place; "" where none is there.
fn text_at(operands: &[Operand], place: usize) -> &[u8]
    ensures { result.now ≡ text_at (map value_in operands.now) place }
{
    match operands.get(place) {
        Some(Operand::Value(value)) => value.text(),
        _ => &[],
    }
}

// The number of a task at a place; that of niltask where none is there.
fn task_at(operands: &[Operand], place: usize) -> u32
    ensures { result ≡ task_at (map value_in operands.now) place }
{
    match operands.get(place) {
        Some(Operand::Value(value)) => value.task(),
        _ => 0,
    }
}
