//! The cells of frames that are left.
ghost use Rattle.std.specs.Prelude.{◌≡◌, ◌+◌, ◌≤◌, ◌++◌, [], ◌∷◌, List, map, flat_map, min, length, true, slice_get, OnOk, IfOk, ℕ};
ghost use Rattle.eu_base.specs.declared.address.TheConstants.{CELLS};
ghost use Rattle.eu_base.specs.Cells.{Cells, freed, HasFaultCause};
ghost use Rattle.code_form.specs.Machine.{is_framed};
ghost use Rattle.eu_base.specs.Shapes.{cell_kinds};
ghost use Rattle.cell_kinds.specs.Kinds.{all_kinds};
ghost use Rattle.code_form.specs.Program.{HoldsValue, cell_uses, cells_of};
ghost use Rattle.zero_machine.specs.Frames.{is_text_kind, FreesTo};

use crate::texts::free_cell;
use code_form::{Code, Layout, OperandKind};
use eu_base::{Kind, MemFault, Memory, Shape};
use std::alloc::Global;

/// Clears the texts of a body's frame that is left, whose cells go from one up to another. Nothing is known of these cells then.
pub fn free_frame<M: Memory>(
    alloc: Global,
    code: &Code,
    body: usize,
    m: &mut M,
    from: usize,
    until: usize,
) -> Result<(), MemFault>
    requires { until ≤ CELLS }
    ensures freed { OnOk result ((cells : Cells) → M.holds m.old cells → is_framed (slice_get code.now.bodies body) from until cells ≡ true →
        M.holds m.new (freed from until cells)) }
    ensures heads { M.heads m.new ≡ M.heads m.old }
    ensures cause { HasFaultCause (M.faults m.old) (M.faults m.new) result }
    ensures follows { M.follows m.old m.new }
{
    if until <= from {
        return Ok(());
    }
    match code.bodies().get(body) {
        Some(entry) => free_layout(alloc, &entry.layout, m, until.min(from + 2), until),
        None => Ok(()),
    }
}

// Clears the texts of parameters and variables that stand from a cell on up to another.
fn free_layout<M: Memory>(
    alloc: Global,
    layout: &Layout,
    m: &mut M,
    at: usize,
    until: usize,
) -> Result<(), MemFault>
    requires within { at ≤ until }
    requires cells { until ≤ CELLS }
    ensures freed { OnOk result (FreesTo (M.holds m.old) (M.holds m.new) (cells_of layout.now) at (min until (at + length (cells_of layout.now))) until) }
    ensures heads { M.heads m.new ≡ M.heads m.old }
    ensures cause { HasFaultCause (M.faults m.old) (M.faults m.new) result }
    ensures follows { M.follows m.old m.new }
{
    match layout {
        Layout::Own {
            parameters,
            variables,
        } => {
            let cell = free_parameters(alloc, parameters.as_slice(), m, at, until)?;
            free_variables(alloc, variables.shapes(), m, cell, until)?;
            Ok(())
        }
        Layout::Of(_) | Layout::Level => Ok(()),
    }
}

// Answers the cell behind them, at most the last one.
fn free_parameters<M: Memory>(
    alloc: Global,
    parameters: &[OperandKind],
    m: &mut M,
    at: usize,
    until: usize,
) -> Result<usize, MemFault>
    requires within { at ≤ until }
    requires cells { until ≤ CELLS }
    ensures end { IfOk result (λ end. end ≡ min until (at + length (flat_map cell_uses parameters.now))) }
    ensures freed { IfOk result (λ end. FreesTo (M.holds m.old) (M.holds m.new) (flat_map cell_uses parameters.now) at end until) }
    ensures heads { M.heads m.new ≡ M.heads m.old }
    ensures cause { HasFaultCause (M.faults m.old) (M.faults m.new) result }
    ensures follows { M.follows m.old m.new }
{
    let mut cell = at;
    for parameter in parameters {
        cell = free_parameter(alloc, parameter, m, cell, until)?;
    }
    Ok(cell)
}

fn free_variables<M: Memory>(
    alloc: Global,
    shapes: &[Shape],
    m: &mut M,
    at: usize,
    until: usize,
) -> Result<usize, MemFault>
    requires within { at ≤ until }
    requires cells { until ≤ CELLS }
    ensures end { IfOk result (λ end. end ≡ min until (at + length (all_kinds shapes.now))) }
    ensures freed { IfOk result (λ end. FreesTo (M.holds m.old) (M.holds m.new) (map HoldsValue (all_kinds shapes.now)) at end until) }
    ensures heads { M.heads m.new ≡ M.heads m.old }
    ensures cause { HasFaultCause (M.faults m.old) (M.faults m.new) result }
    ensures follows { M.follows m.old m.new }
{
    let mut cell = at;
    for shape in shapes {
        cell = free_variable(alloc, shape, m, cell, until)?;
    }
    Ok(cell)
}

fn free_parameter<M: Memory>(
    alloc: Global,
    parameter: &OperandKind,
    m: &mut M,
    at: usize,
    until: usize,
) -> Result<usize, MemFault>
    requires within { at ≤ until }
    requires cells { until ≤ CELLS }
    ensures end { IfOk result (λ end. end ≡ min until (at + length (cell_uses parameter.now))) }
    ensures freed { IfOk result (λ end. FreesTo (M.holds m.old) (M.holds m.new) (cell_uses parameter.now) at end until) }
    ensures heads { M.heads m.new ≡ M.heads m.old }
    ensures cause { HasFaultCause (M.faults m.old) (M.faults m.new) result }
    ensures follows { M.follows m.old m.new }
{
    match parameter {
        OperandKind::Value(shape) => free_variable(alloc, shape, m, at, until),
        OperandKind::Place(_) => Ok(until.min(at + 1)),
    }
}

fn free_variable<M: Memory>(
    alloc: Global,
    shape: &Shape,
    m: &mut M,
    at: usize,
    until: usize,
) -> Result<usize, MemFault>
    requires within { at ≤ until }
    requires cells { until ≤ CELLS }
    ensures end { IfOk result (λ end. end ≡ min until (at + length (cell_kinds shape.now))) }
    ensures freed { IfOk result (λ end. FreesTo (M.holds m.old) (M.holds m.new) (map HoldsValue (cell_kinds shape.now)) at end until) }
    ensures heads { M.heads m.new ≡ M.heads m.old }
    ensures cause { HasFaultCause (M.faults m.old) (M.faults m.new) result }
    ensures follows { M.follows m.old m.new }
{
    match shape {
        Shape::Cell(kind) => free_kind(*kind, m, at, until),
        Shape::Row(_, _) | Shape::Struct(_) => free_shape(alloc, shape, m, at, until),
    }
}

// It stands outside the loop of a run, which is quicker so.
#[inline(never)]
fn free_shape<M: Memory>(
    alloc: Global,
    shape: &Shape,
    m: &mut M,
    at: usize,
    until: usize,
) -> Result<usize, MemFault>
    requires within { at ≤ until }
    requires cells { until ≤ CELLS }
    ensures end { IfOk result (λ end. end ≡ min until (at + length (cell_kinds shape.now))) }
    ensures freed { IfOk result (λ end. FreesTo (M.holds m.old) (M.holds m.new) (map HoldsValue (cell_kinds shape.now)) at end until) }
    ensures heads { M.heads m.new ≡ M.heads m.old }
    ensures cause { HasFaultCause (M.faults m.old) (M.faults m.new) result }
    ensures follows { M.follows m.old m.new }
{
    let kinds = shape.kinds(alloc, until - at)?;
    let end = free_kinds(kinds.as_slice(), m, at, until)?;
    Ok(end)
}

fn free_kinds<M: Memory>(
    kinds: &[Kind],
    m: &mut M,
    at: usize,
    until: usize,
) -> Result<usize, MemFault>
    requires within { at ≤ until }
    requires cells { until ≤ CELLS }
    ensures end { IfOk result (λ end. end ≡ min until (at + length kinds.now)) }
    ensures freed { IfOk result (λ end. FreesTo (M.holds m.old) (M.holds m.new) (map HoldsValue kinds.now) at end until) }
    ensures heads { M.heads m.new ≡ M.heads m.old }
    ensures cause { HasFaultCause (M.faults m.old) (M.faults m.new) result }
    ensures follows { M.follows m.old m.new }
{
    let mut cell = at;
    for kind in kinds {
        cell = free_kind(*kind, m, cell, until)?;
    }
    Ok(cell)
}

fn free_kind<M: Memory>(kind: Kind, m: &mut M, at: usize, until: usize) -> Result<usize, MemFault>
    requires within { at ≤ until }
    requires cells { until ≤ CELLS }
    ensures end { IfOk result (λ end. end ≡ min until (at + 1)) }
    ensures freed { IfOk result (λ end. FreesTo (M.holds m.old) (M.holds m.new) (HoldsValue kind ∷ []) at end until) }
    ensures heads { M.heads m.new ≡ M.heads m.old }
    ensures cause { HasFaultCause (M.faults m.old) (M.faults m.new) result }
    ensures follows { M.follows m.old m.new }
{
    if at == until {
        return Ok(at);
    }
    free_cell(m, at, is_text(kind))?;
    Ok(at + 1)
}

fn is_text(kind: Kind) -> bool
    ensures { result ≡ is_text_kind kind }
{
    match kind {
        Kind::Int | Kind::Truth | Kind::Task | Kind::Space => false,
        Kind::Text => true,
    }
}
