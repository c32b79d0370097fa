//! Whether cells of what is pending are there.
ghost use Rattle.std.specs.Prelude.{◌≡◌, ◌∷◌, [], List, map, true, IfOk};
ghost use Rattle.eu_base.specs.declared.address.Addr.{Addr as Addrs};
ghost use Rattle.eu_base.specs.declared.value.Value.{Value};
ghost use Rattle.eu_base.specs.Values.{kind_of};
ghost use Rattle.eu_base.specs.SpacePlaces.{lies_in};
ghost use Rattle.code_form.specs.declared.operand.Operand.{Operand as Operands};
ghost use Rattle.code_form.specs.declared.operand.Operand.TheVariants as operand;
ghost use Rattle.zero_state.specs.Finds.{TopPlace, TopBoth, is_value, all_of};

use code_form::Operand;
use eu_base::{Addr, Area, CELLS, Kind, Memory, NoMemory};
use space_calls::{are_there, kind_of, values_are_there};
use std::alloc::Global;
use zero_state::Stack;

/// Whether a cell of a kind stands at a place.
// Inlined, as far as a cell of the command's own is asked for; the rest stands outside the loop of a run, which is quicker so.
#[inline(always)]
pub fn is_there<M: Memory>(m: &M, at: Addr, kind: Kind) -> bool
    ensures { result ≡ lies_in (kind ∷ []) at.area at.cell (M.heads m.now) }
{
    match at.area {
        Area::Run | Area::Packets => at.cell < CELLS,
        Area::Space(_) => stands_in_space(m, at, kind),
    }
}

#[inline(never)]
fn stands_in_space<M: Memory>(m: &M, at: Addr, kind: Kind) -> bool
    ensures { result ≡ lies_in (kind ∷ []) at.area at.cell (M.heads m.now) }
{
    are_there(m, at, &[kind])
}

/// Whether a cell of a kind stands at the place on top.
pub fn is_top_there<M: Memory>(stack: &Stack, m: &M, kind: Kind) -> bool
    requires { TopPlace stack.now.ops }
    ensures { (at : Addrs) (rest : List Operands) → stack.now.ops ≡ operand.Place at ∷ rest →
        result ≡ lies_in (kind ∷ []) at.area at.cell (M.heads m.now) }
{
    let [Operand::Place(at)] = stack.top(1) else {
        unreachable!()
    };
    is_there(m, *at, kind)
}

/// Whether one stands at the place below the value on top.
pub fn is_below_there<M: Memory>(stack: &Stack, m: &M, kind: Kind) -> bool
    requires { TopBoth stack.now.ops }
    ensures { (value : Value) (at : Addrs) (rest : List Operands) → stack.now.ops ≡ operand.Value value ∷ operand.Place at ∷ rest →
        result ≡ lies_in (kind ∷ []) at.area at.cell (M.heads m.now) }
{
    let [Operand::Place(at), Operand::Value(_)] = stack.top(2) else {
        unreachable!()
    };
    is_there(m, *at, kind)
}

/// Whether cells for a pushed value stand at a place.
pub fn is_operand_there<M: Memory>(
    m: &M,
    alloc: Global,
    at: Addr,
    operand: &Operand,
) -> Result<bool, NoMemory>
    requires { is_value operand.now ≡ true }
    ensures { IfOk result (λ there. there ≡ lies_in (map kind_of (all_of operand.now)) at.area at.cell (M.heads m.now)) }
{
    match operand {
        Operand::Value(value) => Ok(is_there(m, at, kind_of(value))),
        Operand::Place(_) => unreachable!(),
        Operand::Aggregate(values) => values_are_there(m, alloc, at, values.as_slice()),
    }
}
