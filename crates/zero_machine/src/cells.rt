//! Single cells of the packets.
ghost use Rattle.std.specs.Prelude.{◌≡◌, ◌+◌, ◌<◌, ◌≤◌, ℕ, length, OnOk};
ghost use Rattle.eu_base.specs.declared.address.TheConstants.{CELLS};
ghost use Rattle.eu_base.specs.Cells.{Cells, packet_cell, HasText, HasFaultCause};
ghost use Rattle.zero_machine.specs.Freed.{is_text, HoldsOf, HoldEach, freed};

use eu_base::{Area, Kind, MemFault, Memory};
use zero_state::area_cell;

/// Frees cells that hold values of these kinds, one after another: nothing is known of them any more, as of those from another up to them.
pub(crate) fn free_cells<M: Memory>(m: &mut M, at: usize, kinds: &[Kind]) -> Result<(), MemFault>
    requires { at + length kinds.now ≤ CELLS }
    ensures freed { OnOk result ((from : ℕ) (cells : Cells) → from ≤ at → M.holds m.old (freed from at cells) → HoldEach at kinds.now cells →
        M.holds m.new (freed from (at + length kinds.now) cells)) }
    ensures heads { M.heads m.new ≡ M.heads m.old }
    ensures cause { HasFaultCause (M.faults m.old) (M.faults m.new) result }
    ensures follows { M.follows m.old m.new }
{
    for (index, kind) in kinds.iter().enumerate() {
        free_cell(m, at + index, *kind)?;
    }
    Ok(())
}

fn free_cell<M: Memory>(m: &mut M, cell: usize, kind: Kind) -> Result<(), MemFault>
    requires { cell < CELLS }
    ensures freed { OnOk result ((from : ℕ) (cells : Cells) → from ≤ cell → M.holds m.old (freed from cell cells) → HoldsOf kind (cells (packet_cell cell)) →
        M.holds m.new (freed from (cell + 1) cells)) }
    ensures heads { M.heads m.new ≡ M.heads m.old }
    ensures cause { HasFaultCause (M.faults m.old) (M.faults m.new) result }
    ensures follows { M.follows m.old m.new }
{
    if is_text(kind) {
        free_text(m, cell)
    } else {
        Ok(())
    }
}

// A text that is "" has no blocks, and can be forgotten. That always has room.
fn free_text<M: Memory>(m: &mut M, cell: usize) -> Result<(), MemFault>
    requires { cell < CELLS }
    ensures freed { OnOk result ((from : ℕ) (cells : Cells) → from ≤ cell → M.holds m.old (freed from cell cells) → HasText (cells (packet_cell cell)) →
        M.holds m.new (freed from (cell + 1) cells)) }
    ensures heads { M.heads m.new ≡ M.heads m.old }
    ensures cause { HasFaultCause (M.faults m.old) (M.faults m.new) result }
    ensures follows { M.follows m.old m.new }
{
    let _set = m.set_text(area_cell(Area::Packets, cell), &[])?;
    Ok(())
}

fn is_text(kind: Kind) -> bool
    ensures { result ≡ is_text kind }
{
    match kind {
        Kind::Int | Kind::Truth | Kind::Task | Kind::Space => false,
        Kind::Text => true,
    }
}
