//! What single instructions do with data spaces. They stand outside the loop of a run, which is quicker so.
ghost use Rattle.std.specs.Prelude.{◌≡◌, ◌∷◌, length, true, IfOk, OnOk, MatchOption};
ghost use Rattle.eu_base.specs.Cells.{HasFaultCause};
ghost use Rattle.eu_base.specs.Room.{bytes_fit};
ghost use Rattle.eu_base.specs.SpaceOperations.{space_operand_kinds};
ghost use Rattle.code_form.specs.declared.operand.Operand.TheVariants as operand;
ghost use Rattle.code_form.specs.declared.instr.Instr.TheVariants as instrs;
ghost use Rattle.code_form.specs.Machine.{bytes_on, bytes_of, content_at};
ghost use Rattle.zero_state.specs.Finds.{TopPlace, TopBoth, TopValues};
ghost use Rattle.zero_state.specs.Stepping.{position_of, control_of, IsReady, Accesses, Acts};
ghost use Rattle.zero_steps.specs.Giving.{answer_on};

use crate::there::is_top_there;
use crate::values::{pop_values, push_values};
use code_form::Operand;
use eu_base::{
    Addr, Area, Kind, MemFault, Memory, NoMemory, Shape, SpaceNo, SpaceOperation, Value, space_in,
};
use space_calls::{assign_bound, assign_copy, perform};
use zero_state::{Next, Stack, State};

/// CONTENT
#[inline(never)]
pub fn content<M: Memory>(s: &mut State, m: &mut M) -> Result<Next, MemFault>
    requires ready { IsReady s.old }
    requires finds { TopPlace s.old.stack.ops }
    ensures goes { IfOk result (Accesses (M.holds m.old) (M.holds m.new) (M.heads m.old) instrs.Content (position_of s.old) (control_of s.new)) }
    ensures heads { M.heads m.new ≡ M.heads m.old }
    ensures cause { HasFaultCause (M.faults m.old) (M.faults m.new) result }
    ensures follows { M.follows m.old m.new }
{
    if !is_top_there(&s.stack, m, Kind::Space) {
        return Ok(Next::NoSpace);
    }
    let at = s.stack.pop_place();
    let place = content_at(space_in(m.cell(at)?));
    s.stack.push(Operand::Place(place))?;
    s.pc += 1;
    Ok(Next::On)
}

// The place where the content of a data space begins. The nil space has none.
fn content_at(space: Option<SpaceNo>) -> Addr
    ensures { result ≡ content_at space }
{
    let s = match space {
        Some(s) => s,
        None => SpaceNo(0),
    };
    Addr {
        area: Area::Space(s),
        cell: 0,
    }
}

/// DO of a procedure on data spaces. A stop leaves the operands pending.
#[inline(never)]
pub fn on_spaces<M: Memory>(
    s: &mut State,
    m: &mut M,
    operation: SpaceOperation,
) -> Result<Next, MemFault>
    requires ready { IsReady s.old }
    requires finds { TopValues (length (space_operand_kinds operation)) s.old.stack.ops }
    ensures goes { IfOk result (Acts (M.holds m.old) (M.holds m.new) (M.heads m.old) (M.heads m.new) (instrs.OnSpaces operation)
        (position_of s.old) (control_of s.new)) }
    ensures cause { HasFaultCause (M.faults m.old) (M.faults m.new) result }
    ensures follows { M.follows m.old m.new }
{
    let operands = pop_values(&mut s.stack, s.alloc, operation.operand_kinds().len())?;
    match perform(m, operation, operands.as_slice())? {
        Ok(answer) => {
            push_answer(&mut s.stack, answer)?;
            s.pc += 1;
            Ok(Next::On)
        }
        Err(stop) => {
            push_values(&mut s.stack, operands)?;
            Ok(stop)
        }
    }
}

// Pushes what a procedure gives, if it gives something, which has room.
fn push_answer(stack: &mut Stack, answer: Option<Value>) -> Result<(), NoMemory>
    requires { MatchOption answer (Unit {0}) (λ v. bytes_fit (bytes_on (operand.Value v ∷ stack.old.ops) (bytes_of stack.old.frames)) ≡ true) }
    ensures { OnOk result (stack.new ≡ record stack.old { ops = answer_on answer stack.old.ops }) }
{
    if let Some(value) = answer {
        stack.push(Operand::Value(value))?;
    }
    Ok(())
}

/// COPY. A stop leaves the operands pending.
#[inline(never)]
pub fn copy<M: Memory>(s: &mut State, m: &mut M) -> Result<Next, MemFault>
    requires ready { IsReady s.old }
    requires finds { TopBoth s.old.stack.ops }
    ensures goes { IfOk result (Acts (M.holds m.old) (M.holds m.new) (M.heads m.old) (M.heads m.new) instrs.Copy (position_of s.old) (control_of s.new)) }
    ensures cause { HasFaultCause (M.faults m.old) (M.faults m.new) result }
    ensures follows { M.follows m.old m.new }
{
    let [Operand::Place(at), Operand::Value(value)] = s.stack.top(2) else {
        unreachable!()
    };
    match assign_copy(m, *at, value.space())? {
        None => {
            s.stack.drop_top(2);
            s.pc += 1;
            Ok(Next::On)
        }
        Some(stop) => Ok(stop),
    }
}

/// BIND. A stop leaves the operands pending.
#[inline(never)]
pub fn bind<M: Memory>(s: &mut State, m: &mut M, shape: &Shape) -> Result<Next, MemFault>
    requires ready { IsReady s.old }
    requires finds { TopBoth s.old.stack.ops }
    ensures goes { IfOk result (Acts (M.holds m.old) (M.holds m.new) (M.heads m.old) (M.heads m.new) (instrs.Bind shape.now) (position_of s.old) (control_of s.new)) }
    ensures cause { HasFaultCause (M.faults m.old) (M.faults m.new) result }
    ensures follows { M.follows m.old m.new }
{
    let [Operand::Place(at), Operand::Value(value)] = s.stack.top(2) else {
        unreachable!()
    };
    match assign_bound(m, s.alloc, *at, shape, value.space())? {
        None => {
            s.stack.drop_top(2);
            s.pc += 1;
            Ok(Next::On)
        }
        Some(stop) => Ok(stop),
    }
}
