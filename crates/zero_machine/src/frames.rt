//! The cells of new frames.
ghost use Rattle.std.specs.Prelude.{◌≡◌, ◌+◌, ◌-◌, ◌^◌, ◌≤◌, ◌<◌, [], ◌∷◌, map, flat_map, min, length, OnOk, IfOk};
ghost use Rattle.eu_base.specs.declared.address.TheConstants.{CELLS};
ghost use Rattle.eu_base.specs.Values.{blank_of};
ghost use Rattle.eu_base.specs.SpaceCells.{IsThere};
ghost use Rattle.eu_base.specs.Cells.{Free, Word, Cells, held_of, area_cell, run_cell, written, cell_blocks, AreBare, HasFaultCause};
ghost use Rattle.eu_base.specs.declared.address.Area.TheVariants as areas;
ghost use Rattle.eu_base.specs.Shapes.{cell_kinds};
ghost use Rattle.cell_kinds.specs.Kinds.{all_kinds};
ghost use Rattle.code_form.specs.Machine.{held_cells, link_contents, frame_contents, written_in, written_from};
ghost use Rattle.zero_machine.specs.Frames.{AreFree, PutsFrom};

use crate::texts::{clear_operands, clear_values, put_new};
use code_form::Operand;
use eu_base::{Area, CELLS, Kind, MemFault, Memory, Set, Shape, Value};
use std::alloc::Global;
use zero_state::{area_cell, run_cell};

/// Writes the cells of a new frame: two for the call, what its parameters hold, and its variables. Where its texts have no room,
/// nothing is known of these cells, as before.
pub fn write_frame<M: Memory>(
    alloc: Global,
    m: &mut M,
    at: usize,
    operands: &[Operand],
    variables: &[Shape],
) -> Result<Set, MemFault>
    requires { at + (2 + length (flat_map held_cells operands.now) + length (all_kinds variables.now)) ≤ CELLS }
    ensures puts { IfOk result (λ set. (cells : Cells) → M.holds m.old cells →
        AreFree at (2 + length (flat_map held_cells operands.now) + length (all_kinds variables.now)) cells →
        PutsFrom (M.holds m.new) at (frame_contents operands.now (all_kinds variables.now)) cells set) }
    ensures heads { M.heads m.new ≡ M.heads m.old }
    ensures cause { HasFaultCause (M.faults m.old) (M.faults m.new) result }
    ensures follows { M.follows m.old m.new }
{
    write_link(m, at)?;
    match write_operands(m, at + 2, operands)? {
        Set::Done => {
            write_variables(
                alloc,
                m,
                Area::Run,
                at + 2 + cells_of_all(operands),
                variables,
            )?;
            Ok(Set::Done)
        }
        Set::HeapFull => Ok(Set::HeapFull),
    }
}

/// The cells in which operands stand, one after another. More than can be counted have no room anyway.
pub fn cells_of_all(operands: &[Operand]) -> usize
    ensures { result ≡ min (length (flat_map held_cells operands.now)) (2 ^ 64 - 1) }
{
    let mut cells = 0usize;
    for operand in operands {
        cells = cells.saturating_add(cells_of(operand));
    }
    cells
}

/// The cells in which an operand stands.
pub fn cells_of(operand: &Operand) -> usize
    ensures { result ≡ length (held_cells operand.now) }
{
    match operand {
        Operand::Value(_) | Operand::Place(_) => 1,
        Operand::Aggregate(values) => values.len(),
    }
}

// The cells of the call.
fn write_link<M: Memory>(m: &mut M, at: usize) -> Result<(), MemFault>
    requires { at + 2 ≤ CELLS }
    ensures written { OnOk result ((cells : Cells) → M.holds m.old cells → AreBare areas.Run at 2 cells → M.holds m.new (written_from at link_contents cells)) }
    ensures heads { M.heads m.new ≡ M.heads m.old }
    ensures cause { HasFaultCause (M.faults m.old) (M.faults m.new) result }
    ensures follows { M.follows m.old m.new }
{
    write_number(m, at, 0)?;
    write_number(m, at + 1, 0)
}

// Writes what parameters hold. Where their texts have no room, those that were written are cleared.
fn write_operands<M: Memory>(m: &mut M, at: usize, operands: &[Operand]) -> Result<Set, MemFault>
    requires { at + length (flat_map held_cells operands.now) ≤ CELLS }
    ensures puts { IfOk result (λ set. (cells : Cells) → M.holds m.old cells → AreFree at (length (flat_map held_cells operands.now)) cells →
        PutsFrom (M.holds m.new) at (flat_map held_cells operands.now) cells set) }
    ensures heads { M.heads m.new ≡ M.heads m.old }
    ensures cause { HasFaultCause (M.faults m.old) (M.faults m.new) result }
    ensures follows { M.follows m.old m.new }
{
    let mut cell = at;
    for (index, operand) in operands.iter().enumerate() {
        if let Set::HeapFull = write_operand(m, cell, operand)? {
            clear_operands(m, at, &operands[..index])?;
            return Ok(Set::HeapFull);
        }
        cell += cells_of(operand);
    }
    Ok(Set::Done)
}

fn write_operand<M: Memory>(m: &mut M, cell: usize, operand: &Operand) -> Result<Set, MemFault>
    requires { cell + length (held_cells operand.now) ≤ CELLS }
    ensures puts { IfOk result (λ set. (cells : Cells) → M.holds m.old cells → AreFree cell (length (held_cells operand.now)) cells →
        PutsFrom (M.holds m.new) cell (held_cells operand.now) cells set) }
    ensures heads { M.heads m.new ≡ M.heads m.old }
    ensures cause { HasFaultCause (M.faults m.old) (M.faults m.new) result }
    ensures follows { M.follows m.old m.new }
{
    match operand {
        Operand::Value(value) => write_value(m, cell, value),
        Operand::Place(place) => {
            write_number(m, cell, place.number())?;
            Ok(Set::Done)
        }
        Operand::Aggregate(values) => write_values(m, cell, values.as_slice()),
    }
}

// Writes the values of a row or structure, as `write_operands` does. It stands outside the loop of a run, which is quicker so.
#[inline(never)]
fn write_values<M: Memory>(m: &mut M, at: usize, values: &[Value]) -> Result<Set, MemFault>
    requires { at + length values.now ≤ CELLS }
    ensures puts { IfOk result (λ set. (cells : Cells) → M.holds m.old cells → AreFree at (length values.now) cells →
        PutsFrom (M.holds m.new) at (map held_of values.now) cells set) }
    ensures heads { M.heads m.new ≡ M.heads m.old }
    ensures cause { HasFaultCause (M.faults m.old) (M.faults m.new) result }
    ensures follows { M.follows m.old m.new }
{
    for (index, value) in values.iter().enumerate() {
        if let Set::HeapFull = write_value(m, at + index, value)? {
            clear_values(m, at, &values[..index])?;
            return Ok(Set::HeapFull);
        }
    }
    Ok(Set::Done)
}

fn write_value<M: Memory>(m: &mut M, cell: usize, value: &Value) -> Result<Set, MemFault>
    requires { cell < CELLS }
    ensures puts { IfOk result (λ set. (cells : Cells) → M.holds m.old cells → cells (run_cell cell) ≡ Free →
        PutsFrom (M.holds m.new) cell (held_of value.now ∷ []) cells set) }
    ensures heads { M.heads m.new ≡ M.heads m.old }
    ensures cause { HasFaultCause (M.faults m.old) (M.faults m.new) result }
    ensures follows { M.follows m.old m.new }
{
    match value {
        Value::Int(_) | Value::Truth(_) | Value::Task(_) | Value::Space(_) => {
            write_number(m, cell, value.cell())?;
            Ok(Set::Done)
        }
        Value::Text(text) => put_new(m, cell, text.as_slice()),
    }
}

/// Writes what variables hold before anything was stored, in cells of an area.
pub fn write_variables<M: Memory>(
    alloc: Global,
    m: &mut M,
    area: Area,
    at: usize,
    shapes: &[Shape],
) -> Result<(), MemFault>
    requires cells { at + length (all_kinds shapes.now) ≤ CELLS }
    requires there { IsThere (M.heads m.old) area }
    ensures written { OnOk result ((cells : Cells) → M.holds m.old cells → AreBare area at (length (all_kinds shapes.now)) cells →
        M.holds m.new (written_in area at (map (λ k. held_of (blank_of k)) (all_kinds shapes.now)) cells)) }
    ensures heads { M.heads m.new ≡ M.heads m.old }
    ensures cause { HasFaultCause (M.faults m.old) (M.faults m.new) result }
    ensures follows { M.follows m.old m.new }
{
    let mut cell = at;
    for shape in shapes {
        cell = write_variable(alloc, m, area, cell, shape)?;
    }
    Ok(())
}

// Answers the cell behind it.
fn write_variable<M: Memory>(
    alloc: Global,
    m: &mut M,
    area: Area,
    at: usize,
    shape: &Shape,
) -> Result<usize, MemFault>
    requires cells { at + length (cell_kinds shape.now) ≤ CELLS }
    requires there { IsThere (M.heads m.old) area }
    ensures end { IfOk result (λ end. end ≡ at + length (cell_kinds shape.now)) }
    ensures written { OnOk result ((cells : Cells) → M.holds m.old cells → AreBare area at (length (cell_kinds shape.now)) cells →
        M.holds m.new (written_in area at (map (λ k. held_of (blank_of k)) (cell_kinds shape.now)) cells)) }
    ensures heads { M.heads m.new ≡ M.heads m.old }
    ensures cause { HasFaultCause (M.faults m.old) (M.faults m.new) result }
    ensures follows { M.follows m.old m.new }
{
    match shape {
        Shape::Cell(kind) => {
            write_blank(m, area, at, *kind)?;
            Ok(at + 1)
        }
        Shape::Row(_, _) | Shape::Struct(_) => write_cells(alloc, m, area, at, shape),
    }
}

// Writes a row or structure. It stands outside the loop of a run, which is quicker so.
#[inline(never)]
fn write_cells<M: Memory>(
    alloc: Global,
    m: &mut M,
    area: Area,
    at: usize,
    shape: &Shape,
) -> Result<usize, MemFault>
    requires cells { at + length (cell_kinds shape.now) ≤ CELLS }
    requires there { IsThere (M.heads m.old) area }
    ensures end { IfOk result (λ end. end ≡ at + length (cell_kinds shape.now)) }
    ensures written { OnOk result ((cells : Cells) → M.holds m.old cells → AreBare area at (length (cell_kinds shape.now)) cells →
        M.holds m.new (written_in area at (map (λ k. held_of (blank_of k)) (cell_kinds shape.now)) cells)) }
    ensures heads { M.heads m.new ≡ M.heads m.old }
    ensures cause { HasFaultCause (M.faults m.old) (M.faults m.new) result }
    ensures follows { M.follows m.old m.new }
{
    let kinds = shape.kinds(alloc, usize::from(CELLS) - at)?;
    write_blanks(m, area, at, kinds.as_slice())?;
    Ok(at + kinds.as_slice().len())
}

fn write_blanks<M: Memory>(
    m: &mut M,
    area: Area,
    at: usize,
    variables: &[Kind],
) -> Result<(), MemFault>
    requires cells { at + length variables.now ≤ CELLS }
    requires there { IsThere (M.heads m.old) area }
    ensures written { OnOk result ((cells : Cells) → M.holds m.old cells → AreBare area at (length variables.now) cells →
        M.holds m.new (written_in area at (map (λ k. held_of (blank_of k)) variables.now) cells)) }
    ensures heads { M.heads m.new ≡ M.heads m.old }
    ensures cause { HasFaultCause (M.faults m.old) (M.faults m.new) result }
    ensures follows { M.follows m.old m.new }
{
    for (index, kind) in variables.iter().enumerate() {
        write_blank(m, area, at + index, *kind)?;
    }
    Ok(())
}

fn write_blank<M: Memory>(m: &mut M, area: Area, cell: usize, kind: Kind) -> Result<(), MemFault>
    requires cells { cell < CELLS }
    requires there { IsThere (M.heads m.old) area }
    ensures written { OnOk result ((cells : Cells) → M.holds m.old cells → cell_blocks (cells (area_cell area cell)) ≡ 0 →
        M.holds m.new (written cells (area_cell area cell) (held_of (blank_of kind)))) }
    ensures heads { M.heads m.new ≡ M.heads m.old }
    ensures cause { HasFaultCause (M.faults m.old) (M.faults m.new) result }
    ensures follows { M.follows m.old m.new }
{
    m.set_cell(area_cell(area, cell), kind.blank_cell())?;
    Ok(())
}

fn write_number<M: Memory>(m: &mut M, cell: usize, number: u64) -> Result<(), MemFault>
    requires { cell < CELLS }
    ensures written { OnOk result ((cells : Cells) → M.holds m.old cells → cell_blocks (cells (run_cell cell)) ≡ 0 →
        M.holds m.new (written cells (run_cell cell) (Word number))) }
    ensures heads { M.heads m.new ≡ M.heads m.old }
    ensures cause { HasFaultCause (M.faults m.old) (M.faults m.new) result }
    ensures follows { M.follows m.old m.new }
{
    m.set_cell(run_cell(cell), number)
}
