//! Whether variables denote a data space.
ghost use Rattle.std.specs.Prelude.{◌≡◌, ◌++◌, ◌+◌, ◌<◌, ◌≤◌, ℕ, length, IfOk, OnOk};
ghost use Rattle.eu_base.specs.declared.address.TheConstants.{CELLS};
ghost use Rattle.eu_base.specs.Shapes.{cell_kinds};
ghost use Rattle.eu_base.specs.Cells.{Cells, packet_cell, HasFaultCause};
ghost use Rattle.cell_kinds.specs.Kinds.{all_kinds, packet_kinds};
ghost use Rattle.zero_machine.specs.Freed.{HoldsOf, HoldEach};
ghost use Rattle.zero_machine.specs.Denoted.{holds_space, is_space, denote};

use crate::shapes::count_cells;
use cell_kinds::Packet;
use eu_base::{Area, CELLS, Kind, MemFault, Memory, Shape, SpaceNo};
use std::alloc::Global;
use zero_state::area_cell;

/// Whether a variable of the packets denotes a data space, or one of the shapes behind them.
pub fn variables_denote<M: Memory>(
    alloc: Global,
    m: &mut M,
    packets: &[Packet],
    behind: &[Shape],
    space: SpaceNo,
) -> Result<bool, MemFault>
    requires { length (packet_kinds packets.now) + length (all_kinds behind.now) ≤ CELLS }
    ensures denote { IfOk result (λ found. (cells : Cells) → M.holds m.old cells → HoldEach 0 (packet_kinds packets.now ++ all_kinds behind.now) cells →
        found ≡ denote space.0 0 (packet_kinds packets.now ++ all_kinds behind.now) cells) }
    ensures kept { OnOk result ((cells : Cells) → M.holds m.old cells → M.holds m.new cells) }
    ensures heads { M.heads m.new ≡ M.heads m.old }
    ensures cause { HasFaultCause (M.faults m.old) (M.faults m.new) result }
    ensures follows { M.follows m.old m.new }
{
    if packets_denote(alloc, m, packets, space)? {
        return Ok(true);
    }
    let found = shapes_denote(alloc, m, count_cells(packets), behind, space)?;
    Ok(found)
}

// Whether a variable of the packets does, whose cells follow one another from the first on.
fn packets_denote<M: Memory>(
    alloc: Global,
    m: &mut M,
    packets: &[Packet],
    space: SpaceNo,
) -> Result<bool, MemFault>
    requires { length (packet_kinds packets.now) ≤ CELLS }
    ensures denote { IfOk result (λ found. (cells : Cells) → M.holds m.old cells → HoldEach 0 (packet_kinds packets.now) cells →
        found ≡ denote space.0 0 (packet_kinds packets.now) cells) }
    ensures kept { OnOk result ((cells : Cells) → M.holds m.old cells → M.holds m.new cells) }
    ensures heads { M.heads m.new ≡ M.heads m.old }
    ensures cause { HasFaultCause (M.faults m.old) (M.faults m.new) result }
    ensures follows { M.follows m.old m.new }
{
    let mut cell = 0;
    for packet in packets {
        let variables = &packet.variables;
        if shapes_denote(alloc, m, cell, variables.shapes(), space)? {
            return Ok(true);
        }
        cell += variables.len();
    }
    Ok(false)
}

// Whether a variable of these shapes does, whose cells follow one another from one on.
fn shapes_denote<M: Memory>(
    alloc: Global,
    m: &mut M,
    at: usize,
    shapes: &[Shape],
    space: SpaceNo,
) -> Result<bool, MemFault>
    requires { at + length (all_kinds shapes.now) ≤ CELLS }
    ensures denote { IfOk result (λ found. (cells : Cells) → M.holds m.old cells → HoldEach at (all_kinds shapes.now) cells →
        found ≡ denote space.0 at (all_kinds shapes.now) cells) }
    ensures kept { OnOk result ((cells : Cells) → M.holds m.old cells → M.holds m.new cells) }
    ensures heads { M.heads m.new ≡ M.heads m.old }
    ensures cause { HasFaultCause (M.faults m.old) (M.faults m.new) result }
    ensures follows { M.follows m.old m.new }
{
    let mut cell = at;
    for shape in shapes {
        let kinds = shape.kinds(alloc, usize::from(CELLS) - cell)?;
        if cells_denote(m, cell, kinds.as_slice(), space)? {
            return Ok(true);
        }
        cell += kinds.as_slice().len();
    }
    Ok(false)
}

fn cells_denote<M: Memory>(
    m: &mut M,
    at: usize,
    kinds: &[Kind],
    space: SpaceNo,
) -> Result<bool, MemFault>
    requires { at + length kinds.now ≤ CELLS }
    ensures denote { IfOk result (λ found. (cells : Cells) → M.holds m.old cells → HoldEach at kinds.now cells →
        found ≡ denote space.0 at kinds.now cells) }
    ensures kept { OnOk result ((cells : Cells) → M.holds m.old cells → M.holds m.new cells) }
    ensures heads { M.heads m.new ≡ M.heads m.old }
    ensures cause { HasFaultCause (M.faults m.old) (M.faults m.new) result }
    ensures follows { M.follows m.old m.new }
{
    for (index, kind) in kinds.iter().enumerate() {
        if cell_denotes(m, at + index, *kind, space)? {
            return Ok(true);
        }
    }
    Ok(false)
}

fn cell_denotes<M: Memory>(
    m: &mut M,
    cell: usize,
    kind: Kind,
    space: SpaceNo,
) -> Result<bool, MemFault>
    requires { cell < CELLS }
    ensures denotes { IfOk result (λ found. (cells : Cells) → M.holds m.old cells → HoldsOf kind (cells (packet_cell cell)) →
        found ≡ holds_space space.0 kind (cells (packet_cell cell))) }
    ensures kept { OnOk result ((cells : Cells) → M.holds m.old cells → M.holds m.new cells) }
    ensures heads { M.heads m.new ≡ M.heads m.old }
    ensures cause { HasFaultCause (M.faults m.old) (M.faults m.new) result }
    ensures follows { M.follows m.old m.new }
{
    if !is_space(kind) {
        return Ok(false);
    }
    let held = m.cell(area_cell(Area::Packets, cell))?;
    Ok(held == u64::from(space.0))
}

// Whether a cell of a kind holds the number of a data space.
fn is_space(kind: Kind) -> bool
    ensures { result ≡ is_space kind }
{
    match kind {
        Kind::Int | Kind::Truth | Kind::Task | Kind::Text => false,
        Kind::Space => true,
    }
}
