//! Places of items and fields.
ghost use Rattle.std.specs.Prelude.{◌≡◌, ◌+◌, ◌*◌, ℕ, cond, nat_lt, Some, None};
ghost use Rattle.code_form.specs.declared.instr.Instr.TheVariants as instrs;
ghost use Rattle.eu_base.specs.Operations.{in_row};
ghost use Rattle.code_form.specs.Machine.{Mem, further};
ghost use Rattle.zero_state.specs.Finds.{TopPlace, TopBoth};
ghost use Rattle.zero_state.specs.Stepping.{position_of, control_of, IsReady, StepsSo};

use code_form::Operand;
use eu_base::{Addr, CELLS};
use zero_state::{Next, State};

/// INDEX. A stop leaves the operands pending.
pub fn index(s: &mut State, count: u16, cells: u16) -> Next
    requires ready { IsReady s.old }
    requires finds { TopBoth s.old.stack.ops }
    ensures { (mem : Mem) → StepsSo (instrs.Index count cells) (position_of s.old) mem (control_of s.new) mem result }
{
    let [Operand::Place(row), Operand::Value(number)] = s.stack.top(2) else {
        unreachable!()
    };
    match in_row(count, number.number()) {
        Some(before) => {
            let Some(item) = further(*row, u32::from(before) * u32::from(cells)) else {
                return Next::NoSpace;
            };
            let _number = s.stack.pop_value();
            s.stack.replace_place(item);
            s.pc += 1;
            Next::On
        }
        None => Next::Index,
    }
}

/// FIELD. A stop leaves the operand pending.
pub fn field(s: &mut State, cells: u16) -> Next
    requires ready { IsReady s.old }
    requires finds { TopPlace s.old.stack.ops }
    ensures { (mem : Mem) → StepsSo (instrs.Field cells) (position_of s.old) mem (control_of s.new) mem result }
{
    let [Operand::Place(at)] = s.stack.top(1) else {
        unreachable!()
    };
    let Some(to) = further(*at, u32::from(cells)) else {
        return Next::NoSpace;
    };
    s.stack.replace_place(to);
    s.pc += 1;
    Next::On
}

// The place so many cells further on, where its area has such a cell.
fn further(at: Addr, cells: u32) -> Option<Addr>
    ensures { result ≡ cond (nat_lt (at.cell + cells) CELLS) (Some (further at cells)) None }
{
    let cell = u64::from(at.cell) + u64::from(cells);
    if cell < u64::from(CELLS) {
        Some(Addr {
            area: at.area,
            cell: cell as u16,
        })
    } else {
        None
    }
}

/// How many items of a row stand before the one of a number.
pub(crate) fn in_row(count: u16, number: i16) -> Option<u16>
    ensures { result ≡ in_row count number }
{
    match u16::try_from(number) {
        Ok(place) => {
            if 1 <= place && place <= count {
                Some(place - 1)
            } else {
                None
            }
        }
        Err(_) => None,
    }
}
