//! Values in cells.
ghost use Rattle.std.specs.Prelude.{◌≡◌, IfOk, OnOk};
ghost use Rattle.eu_base.specs.Cells.{Cells, IsCell, held_of, HasFaultCause};
ghost use Rattle.eu_base.specs.SpaceCells.{IsThere};
ghost use Rattle.zero_steps.specs.Reading.{Reads, PutsTaken};

use eu_base::{Addr, Kind, MemFault, Memory, Set, Value, number_in, space_in, task_in, truth_in};

/// The value of a kind that stands in a cell.
#[inline(always)]
pub fn value_at<M: Memory>(m: &mut M, at: Addr, kind: Kind) -> Result<Value, MemFault>
    requires cell { IsCell at }
    requires there { IsThere (M.heads m.old) at.area }
    ensures reads { IfOk result (Reads (M.holds m.old) at kind) }
    ensures kept { OnOk result ((cells : Cells) → M.holds m.old cells → M.holds m.new cells) }
    ensures heads { M.heads m.new ≡ M.heads m.old }
    ensures cause { HasFaultCause (M.faults m.old) (M.faults m.new) result }
    ensures follows { M.follows m.old m.new }
{
    match kind {
        Kind::Int => Ok(Value::Int(number_in(m.cell(at)?))),
        Kind::Truth => Ok(Value::Truth(truth_in(m.cell(at)?))),
        Kind::Text => Ok(Value::Text(m.text(at)?)),
        Kind::Task => Ok(Value::Task(task_in(m.cell(at)?))),
        Kind::Space => Ok(Value::Space(space_in(m.cell(at)?))),
    }
}

/// Puts a value into a cell, where all texts then have room. Else nothing changes.
#[inline(always)]
pub fn put<M: Memory>(m: &mut M, at: Addr, value: &Value) -> Result<Set, MemFault>
    requires cell { IsCell at }
    requires there { IsThere (M.heads m.old) at.area }
    ensures puts { IfOk result (PutsTaken (M.holds m.old) (M.holds m.new) at (held_of value.now)) }
    ensures heads { M.heads m.new ≡ M.heads m.old }
    ensures cause { HasFaultCause (M.faults m.old) (M.faults m.new) result }
    ensures follows { M.follows m.old m.new }
{
    match value {
        Value::Int(_) | Value::Truth(_) | Value::Task(_) | Value::Space(_) => {
            m.set_cell(at, value.cell())?;
            Ok(Set::Done)
        }
        Value::Text(text) => m.set_text(at, text.as_slice()),
    }
}
