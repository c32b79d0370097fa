//! What single instructions do with values of several cells. They stand outside the loop of a run, which is quicker so.
ghost use Rattle.std.specs.Prelude.{◌≡◌, ◌+◌, ◌^◌, ◌<◌, ◌∷◌, ℕ, List, true, take, drop, OnOk, IfOk};
ghost use Rattle.eu_base.specs.Cells.{HasFaultCause};
ghost use Rattle.eu_base.specs.declared.shape.Shape.{Shape};
ghost use Rattle.code_form.specs.declared.operand.Operand.{Operand};
ghost use Rattle.code_form.specs.declared.instr.Instr.TheVariants as instrs;
ghost use Rattle.code_form.specs.Machine.{Mem, operand_of};
ghost use Rattle.zero_state.specs.Finds.{all_of, TopPlace, TopAny, TopPicked, TopStored};
ghost use Rattle.zero_state.specs.Stepping.{position_of, control_of, has_room, IsReady, GoesOn, StepsSo, Accesses};

use crate::cells::{put_operand, values_at};
use crate::parts::{operand_of, part_of};
use crate::place::in_row;
use crate::there::is_operand_there;
use code_form::Operand;
use eu_base::{CELL_BYTES, MemFault, Memory, NoMemory, Set, Shape};
use space_calls::shape_is_there;
use zero_state::{Next, State};

/// PICK. A stop leaves the operands pending.
#[inline(never)]
pub fn pick(s: &mut State, count: u16, cells: u16) -> Result<Next, NoMemory>
    requires ready { IsReady s.old }
    requires finds { TopPicked s.old.stack.ops }
    ensures { IfOk result (λ next. (mem : Mem) → StepsSo (instrs.Pick count cells) (position_of s.old) mem (control_of s.new) mem next) }
{
    let [Operand::Value(number)] = s.stack.top(1) else {
        unreachable!()
    };
    let Some(before) = in_row(count, number.number()) else {
        return Ok(Next::Index);
    };
    let _number = s.stack.pop_value();
    keep_part(
        s,
        usize::from(before) * usize::from(cells),
        usize::from(cells),
    )?;
    Ok(Next::On)
}

/// TAKE
#[inline(never)]
pub fn take(s: &mut State, of: u16, from: u16, cells: u16) -> Result<(), NoMemory>
    requires ready { IsReady s.old }
    requires finds { TopAny s.old.stack.ops }
    ensures { OnOk result ((mem : Mem) → GoesOn (instrs.Take of from cells) (position_of s.old) mem (control_of s.new) mem) }
{
    keep_part(s, usize::from(from), usize::from(cells))
}

// Pushes so many cells of the value on top, from one on, in its stead.
fn keep_part(s: &mut State, from: usize, size: usize) -> Result<(), NoMemory>
    requires room { has_room s.old ≡ true }
    requires next { s.old.pc + 1 < 2 ^ 64 }
    requires top { TopAny s.old.stack.ops }
    ensures { OnOk result ((operand : Operand) (rest : List Operand) → s.old.stack.ops ≡ operand ∷ rest → control_of s.new ≡
        record { position = record (position_of s.old) { pc = s.old.pc + 1; ops = operand_of (take size (drop from (all_of operand))) ∷ rest }; waits = s.old.waits }) }
{
    let operand = s.stack.pop();
    let part = part_of(s.alloc, operand, from, size)?;
    s.stack.push(part)?;
    s.pc += 1;
    Ok(())
}

/// LOAD. Where its cells alone have no room, none is read.
#[inline(never)]
pub fn load_all<M: Memory>(s: &mut State, m: &mut M, shape: &Shape) -> Result<Next, MemFault>
    requires ready { IsReady s.old }
    requires finds { TopPlace s.old.stack.ops }
    ensures goes { IfOk result (Accesses (M.holds m.old) (M.holds m.new) (M.heads m.old) (instrs.Load shape.now) (position_of s.old) (control_of s.new)) }
    ensures heads { M.heads m.new ≡ M.heads m.old }
    ensures cause { HasFaultCause (M.faults m.old) (M.faults m.new) result }
    ensures follows { M.follows m.old m.new }
{
    let [Operand::Place(at)] = s.stack.top(1) else {
        unreachable!()
    };
    if !shape_is_there(m, s.alloc, *at, shape)? {
        return Ok(Next::NoSpace);
    }
    let room = s.stack.room_in_place();
    let most = room / CELL_BYTES;
    let kinds = shape.kinds(s.alloc, most + 1)?;
    if kinds.len() > most {
        return Ok(Next::OperandRoom);
    }
    let operand = operand_of(values_at(m, s.alloc, *at, kinds.as_slice())?);
    if operand.bytes() > room {
        return Ok(Next::OperandRoom);
    }
    s.stack.replace_top(operand);
    s.pc += 1;
    Ok(Next::On)
}

/// STORE. Where the texts have no room, nothing is stored.
#[inline(never)]
pub fn store_all<M: Memory>(s: &mut State, m: &mut M) -> Result<Next, MemFault>
    requires ready { IsReady s.old }
    requires finds { TopStored s.old.stack.ops }
    ensures goes { IfOk result (λ next. (shape : Shape) → Accesses (M.holds m.old) (M.holds m.new) (M.heads m.old) (instrs.Store shape)
        (position_of s.old) (control_of s.new) next) }
    ensures heads { M.heads m.new ≡ M.heads m.old }
    ensures cause { HasFaultCause (M.faults m.old) (M.faults m.new) result }
    ensures follows { M.follows m.old m.new }
{
    let [Operand::Place(at), operand] = s.stack.top(2) else {
        unreachable!()
    };
    if !is_operand_there(m, s.alloc, *at, operand)? {
        return Ok(Next::NoSpace);
    }
    match put_operand(m, *at, operand)? {
        Set::Done => {
            s.stack.drop_top(2);
            s.pc += 1;
            Ok(Next::On)
        }
        Set::HeapFull => Ok(Next::TextRoom),
    }
}
