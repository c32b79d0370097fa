//! Texts in the cells of frames.
ghost use Rattle.std.specs.Prelude.{◌≡◌, ℕ, ◌+◌, ◌≤◌, ◌<◌, [], ◌∷◌, map, flat_map, length, OnOk, IfOk};
ghost use Rattle.eu_base.specs.declared.address.TheConstants.{CELLS};
ghost use Rattle.eu_base.specs.Cells.{Free, Letters, Cells, HasText, held_of, run_cell, written, freed, HasFaultCause};
ghost use Rattle.code_form.specs.Machine.{held_cells, is_text};
ghost use Rattle.zero_machine.specs.Frames.{Stand, PutsFrom, HoldsText};

use crate::frames::cells_of;
use code_form::Operand;
use eu_base::{MemFault, Memory, Set, Value};
use zero_state::run_cell;

/// Puts a text into a cell of which nothing is known. Where it has no room, nothing is known of the cell, as before.
pub fn put_new<M: Memory>(m: &mut M, cell: usize, text: &[u8]) -> Result<Set, MemFault>
    requires { cell < CELLS }
    ensures puts { IfOk result (λ set. (cells : Cells) → M.holds m.old cells → cells (run_cell cell) ≡ Free →
        PutsFrom (M.holds m.new) cell (Letters text.now ∷ []) cells set) }
    ensures heads { M.heads m.new ≡ M.heads m.old }
    ensures cause { HasFaultCause (M.faults m.old) (M.faults m.new) result }
    ensures follows { M.follows m.old m.new }
{
    let at = run_cell(cell);
    m.set_cell(at, 0)?;
    let set = m.set_text(at, text)?;
    Ok(set)
}

/// Clears the texts of operands that stand in cells, one after another. Nothing is known of these cells then.
pub fn clear_operands<M: Memory>(m: &mut M, at: usize, operands: &[Operand]) -> Result<(), MemFault>
    requires { at + length (flat_map held_cells operands.now) ≤ CELLS }
    ensures cleared { OnOk result ((cells : Cells) → M.holds m.old cells → Stand at (flat_map held_cells operands.now) cells →
        M.holds m.new (freed at (at + length (flat_map held_cells operands.now)) cells)) }
    ensures heads { M.heads m.new ≡ M.heads m.old }
    ensures cause { HasFaultCause (M.faults m.old) (M.faults m.new) result }
    ensures follows { M.follows m.old m.new }
{
    let mut cell = at;
    for operand in operands {
        clear_operand(m, cell, operand)?;
        cell += cells_of(operand);
    }
    Ok(())
}

// Clears the texts of an operand. Nothing is known of its cells then, as of those from another up to it.
fn clear_operand<M: Memory>(m: &mut M, cell: usize, operand: &Operand) -> Result<(), MemFault>
    requires { cell + length (held_cells operand.now) ≤ CELLS }
    ensures cleared { OnOk result ((from : ℕ) (cells : Cells) → from ≤ cell → M.holds m.old (freed from cell cells) →
        Stand cell (held_cells operand.now) cells → M.holds m.new (freed from (cell + length (held_cells operand.now)) cells)) }
    ensures heads { M.heads m.new ≡ M.heads m.old }
    ensures cause { HasFaultCause (M.faults m.old) (M.faults m.new) result }
    ensures follows { M.follows m.old m.new }
{
    match operand {
        Operand::Value(value) => free_cell(m, cell, is_text(value)),
        Operand::Place(_) => free_cell(m, cell, false),
        Operand::Aggregate(values) => clear_values(m, cell, values.as_slice()),
    }
}

/// Clears the texts of values that stand in cells, one after another. Nothing is known of these cells then, as of those from another up
/// to them.
pub fn clear_values<M: Memory>(m: &mut M, at: usize, values: &[Value]) -> Result<(), MemFault>
    requires { at + length values.now ≤ CELLS }
    ensures cleared { OnOk result ((from : ℕ) (cells : Cells) → from ≤ at → M.holds m.old (freed from at cells) →
        Stand at (map held_of values.now) cells → M.holds m.new (freed from (at + length values.now) cells)) }
    ensures heads { M.heads m.new ≡ M.heads m.old }
    ensures cause { HasFaultCause (M.faults m.old) (M.faults m.new) result }
    ensures follows { M.follows m.old m.new }
{
    for (index, value) in values.iter().enumerate() {
        free_cell(m, at + index, is_text(value))?;
    }
    Ok(())
}

/// Clears the text of a cell, where it holds one. Nothing is known of the cell then, as of those from another up to it.
pub fn free_cell<M: Memory>(m: &mut M, cell: usize, holds_text: bool) -> Result<(), MemFault>
    requires { cell < CELLS }
    ensures freed { OnOk result ((from : ℕ) (cells : Cells) → from ≤ cell → M.holds m.old (freed from cell cells) →
        HoldsText holds_text (cells (run_cell cell)) → M.holds m.new (freed from (cell + 1) cells)) }
    ensures heads { M.heads m.new ≡ M.heads m.old }
    ensures cause { HasFaultCause (M.faults m.old) (M.faults m.new) result }
    ensures follows { M.follows m.old m.new }
{
    if holds_text { clear(m, cell) } else { Ok(()) }
}

// Lets a text be "". That always has room.
fn clear<M: Memory>(m: &mut M, cell: usize) -> Result<(), MemFault>
    requires { cell < CELLS }
    ensures cleared { OnOk result ((cells : Cells) → M.holds m.old cells → HasText (cells (run_cell cell)) →
        M.holds m.new (written cells (run_cell cell) (Letters []))) }
    ensures heads { M.heads m.new ≡ M.heads m.old }
    ensures cause { HasFaultCause (M.faults m.old) (M.faults m.new) result }
    ensures follows { M.follows m.old m.new }
{
    let _set = m.set_text(run_cell(cell), &[])?;
    Ok(())
}

fn is_text(value: &Value) -> bool
    ensures { result ≡ is_text (held_of value.now) }
{
    match value {
        Value::Int(_) | Value::Truth(_) | Value::Task(_) | Value::Space(_) => false,
        Value::Text(_) => true,
    }
}
