//! DATASPACE variables.
ghost use Rattle.std.specs.Prelude.{◌≡◌, IfOk};
ghost use Rattle.eu_base.specs.Cells.{Cells, IsCell, HasFaultCause};
ghost use Rattle.eu_base.specs.DataSpaces.{heads_after};
ghost use Rattle.eu_base.specs.SpaceOperations.{forgetting};
ghost use Rattle.space_calls.specs.Below.code_form.specs.Machine.{copies};
ghost use Rattle.space_calls.specs.Planned.{cells_after};
ghost use Rattle.space_calls.specs.Assigned.{Assigns};

use crate::{are_there, copy_refusal, room_refusal};
use eu_base::{Addr, Kind, MemFault, Memory, SpaceNo, Value, space_in};
use zero_state::Next;

/// Gives a DATASPACE variable a copy of a data space; then what it held is forgotten. Why it stops, or `None` where it goes on.
pub fn assign_copy<M: Memory>(
    m: &mut M,
    at: Addr,
    from: Option<SpaceNo>,
) -> Result<Option<Next>, MemFault>
    requires { IsCell at }
    ensures goes { IfOk result (Assigns (M.holds m.old) (M.holds m.new) (M.heads m.old) (M.heads m.new) (λ c ops mem. copies c from at ops mem)) }
    ensures cause { HasFaultCause (M.faults m.old) (M.faults m.new) result }
    ensures follows { M.follows m.old m.new }
{
    if !are_there(m, at, &[Kind::Space]) {
        return Ok(Some(Next::NoSpace));
    }
    let held = space_in(m.cell(at)?);
    if let Some(next) = copy_refusal(m, from) {
        return Ok(Some(next));
    }
    if let Some(next) = room_refusal(m) {
        return Ok(Some(next));
    }
    let s = m.make(from)?;
    m.set_cell(at, Value::Space(Some(s)).cell())?;
    forget_held(m, held);
    Ok(None)
}

/// The data space that a variable held is forgotten, where it lives.
pub fn forget_held<M: Memory>(m: &mut M, held: Option<SpaceNo>)
    ensures heads { M.heads m.new ≡ heads_after (forgetting held (M.heads m.old)) (M.heads m.old) }
    ensures kept { (cells : Cells) → M.holds m.old cells → M.holds m.new (cells_after (forgetting held (M.heads m.old)) (M.heads m.old) cells) }
    ensures faults { M.faults m.new ≡ M.faults m.old }
    ensures follows { M.follows m.old m.new }
{
    if let Some(s) = held {
        if m.live(s) {
            m.forget(s);
        }
    }
}
