//! How a variable is changed by a value.
ghost use Rattle.std.specs.Prelude.{◌≡◌, IfOk};
ghost use Rattle.eu_base.specs.declared.value.Kind.TheVariants as kinds;
ghost use Rattle.eu_base.specs.declared.operation.Change.TheVariants as changes;
ghost use Rattle.eu_base.specs.Cells.{IsCell, HasFaultCause};
ghost use Rattle.eu_base.specs.SpaceCells.{IsThere};
ghost use Rattle.eu_base.specs.Operations.{change_kind};
ghost use Rattle.code_form.specs.declared.instr.Instr.TheVariants as instrs;
ghost use Rattle.zero_state.specs.Finds.{TopBoth};
ghost use Rattle.zero_state.specs.Stepping.{position_of, control_of, IsReady, Accesses};
ghost use Rattle.zero_steps.specs.Reading.{Changes};

use crate::push::stopped;
use crate::there::is_there;
use code_form::Operand;
use eu_base::{Addr, Change, MemFault, Memory, Set, Value, number_in};
use zero_ops::{Fault, OpError, append, change_number};
use zero_state::{Next, State};

/// DO of INCR, DECR and CAT. A stop leaves the operands pending.
pub fn modify<M: Memory>(s: &mut State, m: &mut M, by: Change) -> Result<Next, MemFault>
    requires ready { IsReady s.old }
    requires finds { TopBoth s.old.stack.ops }
    ensures goes { IfOk result (Accesses (M.holds m.old) (M.holds m.new) (M.heads m.old) (instrs.Modify by) (position_of s.old) (control_of s.new)) }
    ensures heads { M.heads m.new ≡ M.heads m.old }
    ensures cause { HasFaultCause (M.faults m.old) (M.faults m.new) result }
    ensures follows { M.follows m.old m.new }
{
    let [Operand::Place(at), Operand::Value(operand)] = s.stack.top(2) else {
        unreachable!()
    };
    if !is_there(m, *at, by.kind()) {
        return Ok(Next::NoSpace);
    }
    match change_at(m, *at, by, operand)? {
        Ok(Set::Done) => {
            let _operand = s.stack.pop_value();
            let _at = s.stack.pop_place();
            s.pc += 1;
            Ok(Next::On)
        }
        Ok(Set::HeapFull) => Ok(Next::TextRoom),
        Err(fault) => Ok(stopped(fault)),
    }
}

// Changes the value in a cell; `Err` where that stops the program, and nothing is changed.
fn change_at<M: Memory>(
    m: &mut M,
    at: Addr,
    by: Change,
    operand: &Value,
) -> Result<Result<Set, Fault>, MemFault>
    requires cell { IsCell at }
    requires there { IsThere (M.heads m.old) at.area }
    ensures changes { IfOk result (Changes (M.holds m.old) (M.holds m.new) at by operand.now) }
    ensures heads { M.heads m.new ≡ M.heads m.old }
    ensures cause { HasFaultCause (M.faults m.old) (M.faults m.new) result }
    ensures follows { M.follows m.old m.new }
{
    match by {
        Change::Increase | Change::Decrease => change_number_at(m, at, by, operand),
        Change::Append => append_at(m, at, operand),
    }
}

// INCR and DECR.
fn change_number_at<M: Memory>(
    m: &mut M,
    at: Addr,
    by: Change,
    operand: &Value,
) -> Result<Result<Set, Fault>, MemFault>
    requires cell { IsCell at }
    requires there { IsThere (M.heads m.old) at.area }
    requires number { change_kind by ≡ kinds.Int }
    ensures changes { IfOk result (Changes (M.holds m.old) (M.holds m.new) at by operand.now) }
    ensures heads { M.heads m.new ≡ M.heads m.old }
    ensures cause { HasFaultCause (M.faults m.old) (M.faults m.new) result }
    ensures follows { M.follows m.old m.new }
{
    let number = number_in(m.cell(at)?);
    match change_number(by, number, operand) {
        Ok(new) => {
            m.set_cell(at, Value::Int(new).cell())?;
            Ok(Ok(Set::Done))
        }
        Err(fault) => Ok(Err(fault)),
    }
}

// CAT. It stands outside the loop of a run, which is quicker so.
#[inline(never)]
fn append_at<M: Memory>(
    m: &mut M,
    at: Addr,
    operand: &Value,
) -> Result<Result<Set, Fault>, MemFault>
    requires cell { IsCell at }
    requires there { IsThere (M.heads m.old) at.area }
    ensures changes { IfOk result (Changes (M.holds m.old) (M.holds m.new) at changes.Append operand.now) }
    ensures heads { M.heads m.new ≡ M.heads m.old }
    ensures cause { HasFaultCause (M.faults m.old) (M.faults m.new) result }
    ensures follows { M.follows m.old m.new }
{
    let mut text = m.text(at)?;
    match append(&mut text, operand.text()) {
        Ok(()) => Ok(Ok(m.set_text(at, text.as_slice())?)),
        Err(OpError::Stop(fault)) => Ok(Err(fault)),
        Err(OpError::NoMemory) => Err(MemFault::NoMemory),
    }
}
