//! What single instructions do with variables, limits and jumps.
ghost use Rattle.std.specs.Prelude.{◌≡◌, ◌+◌, ◌≤◌, OnOk, IfOk, false};
ghost use Rattle.eu_base.specs.Cells.{IsCell, run_cell, without, HasFaultCause};
ghost use Rattle.eu_base.specs.Operations.{has_reached, next_number};
ghost use Rattle.eu_base.specs.declared.shape.Shape.{Shape};
ghost use Rattle.eu_base.specs.declared.shape.Shape.TheVariants as shapes;
ghost use Rattle.code_form.specs.declared.instr.Instr.TheVariants as instrs;
ghost use Rattle.code_form.specs.Machine.{Mem, with_cells, base_of};
ghost use Rattle.zero_state.specs.Finds.{TopValue, TopPlace, TopBoth, TopStored};
ghost use Rattle.zero_state.specs.Stepping.{position_of, control_of, IsReady, GoesOn, StepsSo, Accesses};

use crate::aggregate::{load_all, store_all};
use crate::counter::{has_reached, is_past};
use crate::push::push_on;
use crate::reading::{put, value_at};
use crate::there::{is_below_there, is_there, is_top_there};
use code_form::Operand;
use eu_base::{
    Area, Bytes, CELLS, Kind, MemFault, Memory, NoMemory, Set, Shape, Value, Way, number_in,
};
use space_calls::kind_of;
use zero_state::{Next, State, area_cell, have_room, place_in, run_cell};

/// TEXT. The text is copied. It stands outside the loop of a run, which is quicker so.
#[inline(never)]
pub fn push_text(s: &mut State, text: &[u8]) -> Result<Next, NoMemory>
    requires { IsReady s.old }
    ensures { IfOk result (λ next. (mem : Mem) → StepsSo (instrs.Text text.now) (position_of s.old) mem (control_of s.new) mem next) }
{
    let copy = Bytes::from(s.alloc, text)?;
    push_on(s, Operand::Value(Value::Text(copy)))
}

/// OUTER
pub fn outer(s: &mut State, cell: usize) -> Result<Next, NoMemory>
    requires ready { IsReady s.old }
    requires finds { IsCell (run_cell cell) }
    ensures { IfOk result (λ next. (mem : Mem) → StepsSo (instrs.Outer cell) (position_of s.old) mem (control_of s.new) mem next) }
{
    push_on(s, Operand::Place(run_cell(cell)))
}

/// PACK
pub fn packet(s: &mut State, cell: usize) -> Result<Next, NoMemory>
    requires ready { IsReady s.old }
    ensures { IfOk result (λ next. (mem : Mem) → StepsSo (instrs.Packet cell) (position_of s.old) mem (control_of s.new) mem next) }
{
    // A command whose packets have no room does not come here.
    let place = area_cell(Area::Packets, cell % usize::from(CELLS));
    push_on(s, Operand::Place(place))
}

/// LOCAL
pub fn local(s: &mut State, cell: usize) -> Result<Next, NoMemory>
    requires ready { IsReady s.old }
    requires finds { IsCell (run_cell (base_of s.old.stack.frames + cell)) }
    ensures { IfOk result (λ next. (mem : Mem) → StepsSo (instrs.Local cell) (position_of s.old) mem (control_of s.new) mem next) }
{
    let at = run_cell(s.stack.base() + cell);
    push_on(s, Operand::Place(at))
}

/// PARAM
pub fn param<M: Memory>(s: &mut State, m: &mut M, cell: usize) -> Result<Next, MemFault>
    requires ready { IsReady s.old }
    requires finds { IsCell (run_cell (base_of s.old.stack.frames + cell)) }
    ensures goes { IfOk result (Accesses (M.holds m.old) (M.holds m.new) (M.heads m.old) (instrs.Param cell) (position_of s.old) (control_of s.new)) }
    ensures heads { M.heads m.new ≡ M.heads m.old }
    ensures cause { HasFaultCause (M.faults m.old) (M.faults m.new) result }
    ensures follows { M.follows m.old m.new }
{
    let at = run_cell(s.stack.base() + cell);
    let place = place_in(m.cell(at)?);
    let next = push_on(s, Operand::Place(place))?;
    Ok(next)
}

/// LOAD
pub fn load<M: Memory>(s: &mut State, m: &mut M, shape: &Shape) -> Result<Next, MemFault>
    requires ready { IsReady s.old }
    requires finds { TopPlace s.old.stack.ops }
    ensures goes { IfOk result (Accesses (M.holds m.old) (M.holds m.new) (M.heads m.old) (instrs.Load shape.now) (position_of s.old) (control_of s.new)) }
    ensures heads { M.heads m.new ≡ M.heads m.old }
    ensures cause { HasFaultCause (M.faults m.old) (M.faults m.new) result }
    ensures follows { M.follows m.old m.new }
{
    match shape {
        Shape::Cell(kind) => load_one(s, m, *kind),
        _ => load_all(s, m, shape),
    }
}

fn load_one<M: Memory>(s: &mut State, m: &mut M, kind: Kind) -> Result<Next, MemFault>
    requires ready { IsReady s.old }
    requires finds { TopPlace s.old.stack.ops }
    ensures goes { IfOk result (Accesses (M.holds m.old) (M.holds m.new) (M.heads m.old) (instrs.Load (shapes.Cell kind)) (position_of s.old) (control_of s.new)) }
    ensures heads { M.heads m.new ≡ M.heads m.old }
    ensures cause { HasFaultCause (M.faults m.old) (M.faults m.new) result }
    ensures follows { M.follows m.old m.new }
{
    let [Operand::Place(at)] = s.stack.top(1) else {
        unreachable!()
    };
    if !is_there(m, *at, kind) {
        return Ok(Next::NoSpace);
    }
    let value = value_at(m, *at, kind)?;
    if !s.stack.has_room_in_place(&value) {
        return Ok(Next::OperandRoom);
    }
    s.stack.replace_top(Operand::Value(value));
    s.pc += 1;
    Ok(Next::On)
}

/// STORE. What is pending has the shape already.
pub fn store<M: Memory>(s: &mut State, m: &mut M) -> Result<Next, MemFault>
    requires ready { IsReady s.old }
    requires finds { TopStored s.old.stack.ops }
    ensures goes { IfOk result (λ next. (shape : Shape) → Accesses (M.holds m.old) (M.holds m.new) (M.heads m.old) (instrs.Store shape)
        (position_of s.old) (control_of s.new) next) }
    ensures heads { M.heads m.new ≡ M.heads m.old }
    ensures cause { HasFaultCause (M.faults m.old) (M.faults m.new) result }
    ensures follows { M.follows m.old m.new }
{
    match s.stack.top(1) {
        [Operand::Value(_)] => store_one(s, m),
        [Operand::Aggregate(_)] => store_all(s, m),
        _ => unreachable!(),
    }
}

fn store_one<M: Memory>(s: &mut State, m: &mut M) -> Result<Next, MemFault>
    requires ready { IsReady s.old }
    requires finds { TopBoth s.old.stack.ops }
    ensures goes { IfOk result (λ next. (shape : Shape) → Accesses (M.holds m.old) (M.holds m.new) (M.heads m.old) (instrs.Store shape)
        (position_of s.old) (control_of s.new) next) }
    ensures heads { M.heads m.new ≡ M.heads m.old }
    ensures cause { HasFaultCause (M.faults m.old) (M.faults m.new) result }
    ensures follows { M.follows m.old m.new }
{
    let [Operand::Place(at), Operand::Value(value)] = s.stack.top(2) else {
        unreachable!()
    };
    if !is_there(m, *at, kind_of(value)) {
        return Ok(Next::NoSpace);
    }
    match put(m, *at, value)? {
        Set::Done => {
            let _value = s.stack.pop_value();
            let _at = s.stack.pop_place();
            s.pc += 1;
            Ok(Next::On)
        }
        Set::HeapFull => Ok(Next::TextRoom),
    }
}

/// Jumps where FALSE is on top.
pub fn jump_false(s: &mut State, to: usize)
    requires ready { IsReady s.old }
    requires finds { TopValue s.old.stack.ops }
    ensures { (mem : Mem) → GoesOn (instrs.False to) (position_of s.old) mem (control_of s.new) mem }
{
    if s.stack.pop_value().truth() {
        s.pc += 1;
    } else {
        s.pc = to;
    }
}

/// WHEN
pub fn when(s: &mut State, label: i16, to: usize) -> Result<(), NoMemory>
    requires ready { IsReady s.old }
    requires finds { TopValue s.old.stack.ops }
    ensures { OnOk result ((mem : Mem) → GoesOn (instrs.When label to) (position_of s.old) mem (control_of s.new) mem) }
{
    let value = s.stack.pop_value();
    if value.number() == label {
        s.pc = to;
    } else {
        s.stack.push(Operand::Value(value))?;
        s.pc += 1;
    }
    Ok(())
}

/// DROP
pub fn drop_value(s: &mut State)
    requires ready { IsReady s.old }
    requires finds { TopValue s.old.stack.ops }
    ensures { (mem : Mem) → GoesOn instrs.Drop (position_of s.old) mem (control_of s.new) mem }
{
    let _value = s.stack.pop_value();
    s.pc += 1;
}

/// LIMIT. The limit is kept in the next cell.
pub fn limit<M: Memory>(s: &mut State, m: &mut M, way: Way, to: usize) -> Result<Next, MemFault>
    requires ready { IsReady s.old }
    requires finds { TopBoth s.old.stack.ops }
    ensures goes { IfOk result (Accesses (M.holds m.old) (M.holds m.new) (M.heads m.old) (instrs.Limit way to) (position_of s.old) (control_of s.new)) }
    ensures heads { M.heads m.new ≡ M.heads m.old }
    ensures cause { HasFaultCause (M.faults m.old) (M.faults m.new) result }
    ensures follows { M.follows m.old m.new }
{
    if !have_room(s.used, 1) {
        return Ok(Next::CellRoom);
    }
    if !is_below_there(&s.stack, m, Kind::Int) {
        return Ok(Next::NoSpace);
    }
    let limit = s.stack.pop_value().number();
    let at = s.stack.pop_place();
    let number = number_in(m.cell(at)?);
    m.set_cell(run_cell(s.used), Value::Int(limit).cell())?;
    s.used += 1;
    if is_past(way, limit, number) {
        s.pc = to;
    } else {
        s.pc += 1;
    }
    Ok(Next::On)
}

/// UNLIMIT
pub fn unlimit(s: &mut State)
    requires ready { IsReady s.old }
    requires finds { 1 ≤ s.old.used }
    ensures { (mem : Mem) → GoesOn instrs.Unlimit (position_of s.old) mem (control_of s.new)
        (with_cells (without s.new.used s.old.used mem.cells) mem) }
{
    s.used -= 1;
    s.pc += 1;
}

/// UP and DOWN
pub fn step<M: Memory>(s: &mut State, m: &mut M, way: Way, to: usize) -> Result<Next, MemFault>
    requires ready { IsReady s.old }
    requires finds { TopPlace s.old.stack.ops }
    requires limit { 1 ≤ s.old.used }
    ensures goes { IfOk result (Accesses (M.holds m.old) (M.holds m.new) (M.heads m.old) (instrs.Step way to) (position_of s.old) (control_of s.new)) }
    ensures heads { M.heads m.new ≡ M.heads m.old }
    ensures cause { HasFaultCause (M.faults m.old) (M.faults m.new) result }
    ensures follows { M.follows m.old m.new }
{
    if !is_top_there(&s.stack, m, Kind::Int) {
        return Ok(Next::NoSpace);
    }
    let at = s.stack.pop_place();
    let number = number_in(m.cell(at)?);
    let limit = number_in(m.cell(run_cell(s.used - 1))?);
    if has_reached(way, limit, number) {
        s.pc = to;
        return Ok(Next::On);
    }
    m.set_cell(at, Value::Int(next(way, limit, number)).cell())?;
    s.pc += 1;
    Ok(Next::On)
}

fn next(way: Way, limit: i16, number: i16) -> i16
    requires { has_reached way limit number ≡ false }
    ensures { result ≡ next_number way number }
{
    match way {
        Way::Up => number + 1,
        Way::Down => number - 1,
    }
}
