//! Variables that get what a message brings.
ghost use Rattle.std.specs.Prelude.{◌≡◌, ◌∷◌, [], List, true, slice_get, Some, IfOk, OnOk};
ghost use Rattle.std.specs.List.{AllByRecursion};
ghost use Rattle.eu_base.specs.declared.value.Kind.{Kind as Kinds};
ghost use Rattle.eu_base.specs.Values.{cell_of};
ghost use Rattle.eu_base.specs.Requests.{Suits};
ghost use Rattle.eu_base.specs.Cells.{Cells, Word, IsCell, held_of, HasFaultCause};
ghost use Rattle.eu_base.specs.SpaceCells.{IsThere};
ghost use Rattle.code_form.specs.declared.operand.Operand.TheVariants as operand;
ghost use Rattle.zero_state.specs.Finds.{AreVariables};
ghost use Rattle.zero_steps.specs.Received.{HeldSo, IsPlaceOf, ReceivesIn, ReceivesAll};

use code_form::Operand;
use eu_base::{Addr, Kind, MemFault, Memory, SpaceNo, Value, space_in};
use space_calls::{are_there, forget_held, kind_of};

/// Variables get what a message brings, each by its number among them, one after another. Whether all of them are there: the first one that
/// is not, and those behind it, get nothing.
pub fn receive_all<M: Memory>(
    m: &mut M,
    variables: &[Operand],
    values: &[(usize, Value)],
) -> Result<bool, MemFault>
    requires { (ks : List Kinds) × AreVariables ks variables.now × AllByRecursion (Suits ks) values.now }
    ensures goes { IfOk result (ReceivesAll (M.holds m.old) (M.holds m.new) (M.heads m.old) (M.heads m.new) variables.now values.now) }
    ensures cause { HasFaultCause (M.faults m.old) (M.faults m.new) result }
    ensures follows { M.follows m.old m.new }
{
    for value in values {
        let at = variable(variables, value.0);
        if !receive_in(m, at, &value.1)? {
            return Ok(false);
        }
    }
    Ok(true)
}

// The variable of a number.
fn variable(variables: &[Operand], number: usize) -> Addr
    requires { IsPlaceOf (slice_get variables.now number) }
    ensures there { slice_get variables.now number ≡ Some (operand.Place result) }
    ensures cell { IsCell result }
{
    match variables.get(number) {
        Some(Operand::Place(at)) => *at,
        _ => unreachable!(),
    }
}

// A variable gets a value, which is no text; a data space that it held is forgotten then. Where the variable is not there, nothing changes.
fn receive_in<M: Memory>(m: &mut M, at: Addr, value: &Value) -> Result<bool, MemFault>
    requires cell { IsCell at }
    requires number { held_of value.now ≡ Word (cell_of value.now) }
    ensures goes { IfOk result (ReceivesIn (M.holds m.old) (M.holds m.new) (M.heads m.old) (M.heads m.new) at value.now) }
    ensures cause { HasFaultCause (M.faults m.old) (M.faults m.new) result }
    ensures follows { M.follows m.old m.new }
{
    let kind = kind_of(value);
    if !are_there(m, at, &[kind]) {
        return Ok(false);
    }
    let held = held_space(m, at, kind)?;
    m.set_cell(at, value.cell())?;
    forget_held(m, held);
    Ok(true)
}

// The data space that a variable of a kind holds, where it is one that holds data spaces.
fn held_space<M: Memory>(m: &mut M, at: Addr, kind: Kind) -> Result<Option<SpaceNo>, MemFault>
    requires cell { IsCell at }
    requires there { IsThere (M.heads m.old) at.area }
    ensures held { IfOk result (HeldSo (M.holds m.old) at kind) }
    ensures kept { OnOk result ((cells : Cells) → M.holds m.old cells → M.holds m.new cells) }
    ensures heads { M.heads m.new ≡ M.heads m.old }
    ensures cause { HasFaultCause (M.faults m.old) (M.faults m.new) result }
    ensures follows { M.follows m.old m.new }
{
    match kind {
        Kind::Space => Ok(space_in(m.cell(at)?)),
        _ => Ok(None),
    }
}
