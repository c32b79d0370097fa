//! Cells of the packets, by the shapes of the variables.
ghost use Rattle.std.specs.Prelude.{◌≡◌, ◌+◌, ◌-◌, ◌^◌, ◌≤◌, ℕ, length, min, IfOk, OnOk};
ghost use Rattle.eu_base.specs.declared.address.TheConstants.{CELLS};
ghost use Rattle.eu_base.specs.Shapes.{cell_kinds};
ghost use Rattle.eu_base.specs.Cells.{Cells, HasFaultCause};
ghost use Rattle.cell_kinds.specs.Kinds.{all_kinds, packet_kinds};
ghost use Rattle.zero_machine.specs.Freed.{HoldEach, freed};

use crate::cells::free_cells;
use cell_kinds::Packet;
use eu_base::{CELLS, MemFault, Memory, Shape};
use std::alloc::Global;

/// Frees the cells of variables of these shapes, from one on: their texts are cleared, and nothing is known of them any more.
pub fn free_shapes<M: Memory>(
    alloc: Global,
    m: &mut M,
    at: usize,
    shapes: &[Shape],
) -> Result<(), MemFault>
    requires { at + length (all_kinds shapes.now) ≤ CELLS }
    ensures freed { OnOk result ((cells : Cells) → M.holds m.old cells → HoldEach at (all_kinds shapes.now) cells →
        M.holds m.new (freed at (at + length (all_kinds shapes.now)) cells)) }
    ensures heads { M.heads m.new ≡ M.heads m.old }
    ensures cause { HasFaultCause (M.faults m.old) (M.faults m.new) result }
    ensures follows { M.follows m.old m.new }
{
    let mut cell = at;
    for shape in shapes {
        cell = free_shape(alloc, m, cell, shape)?;
    }
    Ok(())
}

// Answers the cell behind it.
fn free_shape<M: Memory>(
    alloc: Global,
    m: &mut M,
    at: usize,
    shape: &Shape,
) -> Result<usize, MemFault>
    requires { at + length (cell_kinds shape.now) ≤ CELLS }
    ensures end { IfOk result (λ end. end ≡ at + length (cell_kinds shape.now)) }
    ensures freed { OnOk result ((from : ℕ) (cells : Cells) → from ≤ at → M.holds m.old (freed from at cells) → HoldEach at (cell_kinds shape.now) cells →
        M.holds m.new (freed from (at + length (cell_kinds shape.now)) cells)) }
    ensures heads { M.heads m.new ≡ M.heads m.old }
    ensures cause { HasFaultCause (M.faults m.old) (M.faults m.new) result }
    ensures follows { M.follows m.old m.new }
{
    let kinds = shape.kinds(alloc, usize::from(CELLS) - at)?;
    free_cells(m, at, kinds.as_slice())?;
    Ok(at + kinds.as_slice().len())
}

/// How many cells the variables of packets have. More than can be counted have no room anyway.
pub fn count_cells(packets: &[Packet]) -> usize
    ensures { result ≡ min (length (packet_kinds packets.now)) (2 ^ 64 - 1) }
{
    let mut cells = 0usize;
    for packet in packets {
        cells = cells.saturating_add(packet.variables.len());
    }
    cells
}
