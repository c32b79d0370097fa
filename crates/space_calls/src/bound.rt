//! BOUND variables.
ghost use Rattle.std.specs.Prelude.{◌≡◌, ◌∷◌, [], length, true, Some, None, IfOk, OnOk};
ghost use Rattle.eu_base.specs.declared.value.Kind.TheVariants as kinds;
ghost use Rattle.eu_base.specs.Room.{cells_fit};
ghost use Rattle.eu_base.specs.Shapes.{cell_kinds, same_shape};
ghost use Rattle.eu_base.specs.Cells.{IsCell, HasFaultCause};
ghost use Rattle.eu_base.specs.DataSpaces.{IsLive, the_head};
ghost use Rattle.eu_base.specs.SpacePlaces.{lies_in};
ghost use Rattle.space_calls.specs.Below.code_form.specs.Machine.{binds};
ghost use Rattle.space_calls.specs.Assigned.{Assigned, Assigns, Shaped};

use crate::are_there;
use crate::shapes::is_same;
use eu_base::{Addr, CELLS, Kind, MemFault, Memory, NoMemory, Shape, SpaceNo, Value};
use std::alloc::Global;
use zero_state::Next;

/// Binds a BOUND variable to a data space, in which something of this shape stands then. Why it stops, or `None` where it goes on.
pub fn assign_bound<M: Memory>(
    m: &mut M,
    alloc: Global,
    at: Addr,
    shape: &Shape,
    space: Option<SpaceNo>,
) -> Result<Option<Next>, MemFault>
    requires { IsCell at }
    ensures goes { IfOk result (Assigns (M.holds m.old) (M.holds m.new) (M.heads m.old) (M.heads m.new) (λ c ops mem. binds c shape.now space at ops mem)) }
    ensures cause { HasFaultCause (M.faults m.old) (M.faults m.new) result }
    ensures follows { M.follows m.old m.new }
{
    if !are_there(m, at, &[Kind::Space]) {
        return Ok(Some(Next::NoSpace));
    }
    if !has_room(alloc, shape)? {
        return Ok(Some(Next::CellRoom));
    }
    let Some(s) = space else {
        return Ok(Some(Next::NoSpace));
    };
    if !m.live(s) {
        return Ok(Some(Next::NoSpace));
    }
    match has_shape(m, s, shape) {
        None => {
            bind_new(m, at, shape, s)?;
            Ok(None)
        }
        Some(true) => {
            bind_same(m, at, shape, s)?;
            Ok(None)
        }
        Some(false) => Ok(Some(Next::WrongShape)),
    }
}

// Whether the cells of a shape have room.
fn has_room(alloc: Global, shape: &Shape) -> Result<bool, NoMemory>
    ensures { IfOk result (λ fits. fits ≡ cells_fit (length (cell_kinds shape.now))) }
{
    let most = usize::from(CELLS);
    let kinds = shape.kinds(alloc, most + 1)?;
    Ok(kinds.len() <= most)
}

// Whether something of this shape stands in a data space; `None` where nothing does.
fn has_shape<M: Memory>(m: &M, s: SpaceNo, shape: &Shape) -> Option<bool>
    requires { IsLive s (M.heads m.now) }
    ensures { Shaped shape.now (the_head s (M.heads m.now)).shape result }
{
    match m.has_shape(s) {
        Some(other) => Some(is_same(shape, other)),
        None => None,
    }
}

// Binds it to a data space in which nothing stands.
fn bind_new<M: Memory>(m: &mut M, at: Addr, shape: &Shape, s: SpaceNo) -> Result<(), MemFault>
    requires cell { IsCell at }
    requires there { lies_in (kinds.Space ∷ []) at.area at.cell (M.heads m.old) ≡ true }
    requires room { cells_fit (length (cell_kinds shape.now)) ≡ true }
    requires live { IsLive s (M.heads m.old) }
    requires empty { (the_head s (M.heads m.old)).shape ≡ None }
    ensures goes { OnOk result (Assigned (M.holds m.old) (M.holds m.new) (M.heads m.old) (M.heads m.new) (λ c ops mem. binds c shape.now (Some s) at ops mem)) }
    ensures cause { HasFaultCause (M.faults m.old) (M.faults m.new) result }
    ensures follows { M.follows m.old m.new }
{
    m.fill(s, shape)?;
    m.set_cell(at, Value::Space(Some(s)).cell())?;
    Ok(())
}

// Binds it to a data space in which something of this shape stands.
fn bind_same<M: Memory>(m: &mut M, at: Addr, _shape: &Shape, s: SpaceNo) -> Result<(), MemFault>
    requires cell { IsCell at }
    requires there { lies_in (kinds.Space ∷ []) at.area at.cell (M.heads m.old) ≡ true }
    requires room { cells_fit (length (cell_kinds _shape.now)) ≡ true }
    requires live { IsLive s (M.heads m.old) }
    requires same { Shaped _shape.now (the_head s (M.heads m.old)).shape (Some true) }
    ensures goes { OnOk result (Assigned (M.holds m.old) (M.holds m.new) (M.heads m.old) (M.heads m.new) (λ c ops mem. binds c _shape.now (Some s) at ops mem)) }
    ensures cause { HasFaultCause (M.faults m.old) (M.faults m.new) result }
    ensures follows { M.follows m.old m.new }
{
    m.set_cell(at, Value::Space(Some(s)).cell())?;
    Ok(())
}
