//! Calls, refinements, and how they are left.
ghost use Rattle.std.specs.Prelude.{◌≡◌, ℕ, ◌+◌, ◌-◌, ◌^◌, min, ◌≤◌, ◌∷◌, ◌++◌, List, flat_map, length, true, Some, slice_get, OnOk, IfOk};
ghost use Rattle.eu_base.specs.Room.{bytes_fit, cells_fit};
ghost use Rattle.eu_base.specs.Cells.{Cells, freed, HasFaultCause};
ghost use Rattle.cell_kinds.specs.Kinds.{all_kinds};
ghost use Rattle.code_form.specs.declared.instr.Instr.TheVariants as instrs;
ghost use Rattle.code_form.specs.declared.operand.Operand.{Operand};
ghost use Rattle.code_form.specs.Program.{Program};
ghost use Rattle.code_form.specs.Machine.{Mem, Move, held_cells, bytes_on, bytes_of, call_move, refer_move, on_result, is_framed, back_into, out_to, stage};
ghost use Rattle.zero_state.specs.Finds.{TopResult, IsCallable, IsInside, is_in_proc};
ghost use Rattle.zero_state.specs.Stacked.{linked};
ghost use Rattle.zero_state.specs.Stepping.{position_of, control_of, scene_of, stage_by, IsReady, Steps};
ghost use Rattle.zero_state.specs.declared.next.Next.TheVariants as nexts;
ghost use Rattle.zero_machine.specs.Frames.{EntersSo, result_ops};

use crate::frames::{cells_of_all, write_frame};
use crate::release::free_frame;
use code_form::{Code, Entry, Layout, Operand};
use eu_base::{MemFault, Memory, NoMemory, Set, Shape};
use zero_state::{Link, Next, Stack, State, have_room};

/// CALL
pub fn call<M: Memory>(
    body: usize,
    entry: &Entry,
    s: &mut State,
    m: &mut M,
    marks: &mut u32,
) -> Result<Next, MemFault>
    requires ready { IsReady s.old }
    requires finds { IsCallable entry.now.layout s.old.stack.ops }
    ensures goes { IfOk result (Steps (M.holds m.old) (M.holds m.new) (M.heads m.old) (M.heads m.old)
        (λ d mem. stage (call_move d body (Some entry.now) mem) d (scene_of mem marks.old))
        (position_of s.old) (control_of s.new) marks.new) }
    ensures heads { M.heads m.new ≡ M.heads m.old }
    ensures cause { HasFaultCause (M.faults m.old) (M.faults m.new) result }
    ensures follows { M.follows m.old m.new }
{
    if *marks == 0 {
        return Ok(Next::Marked);
    }
    *marks -= 1;
    match &entry.layout {
        Layout::Own {
            parameters,
            variables,
        } => {
            let base = s.used + 2;
            enter(
                s,
                m,
                entry.first,
                base,
                false,
                body,
                parameters.len(),
                variables.len(),
                variables.shapes(),
            )
        }
        _ => unreachable!(),
    }
}

/// REFER
pub fn refer<M: Memory>(
    body: usize,
    entry: &Entry,
    s: &mut State,
    m: &mut M,
    marks: &mut u32,
) -> Result<Next, MemFault>
    requires ready { IsReady s.old }
    ensures goes { IfOk result (Steps (M.holds m.old) (M.holds m.new) (M.heads m.old) (M.heads m.old)
        (λ d mem. stage (refer_move d body (Some entry.now) mem) d (scene_of mem marks.old))
        (position_of s.old) (control_of s.new) marks.new) }
    ensures heads { M.heads m.new ≡ M.heads m.old }
    ensures cause { HasFaultCause (M.faults m.old) (M.faults m.new) result }
    ensures follows { M.follows m.old m.new }
{
    if *marks == 0 {
        return Ok(Next::Marked);
    }
    *marks -= 1;
    let base = s.stack.base();
    enter(s, m, entry.first, base, true, body, 0, 0, &[])
}

// Goes to a body with a new frame, which takes the newest operands, where its cells have room.
fn enter<M: Memory>(
    s: &mut State,
    m: &mut M,
    first: usize,
    base: usize,
    refines: bool,
    body: usize,
    count: usize,
    cells: usize,
    variables: &[Shape],
) -> Result<Next, MemFault>
    requires ready { IsReady s.old }
    requires many { count ≤ length s.old.stack.ops }
    requires counted { cells ≡ length (all_kinds variables.now) }
    ensures goes { IfOk result
        (EntersSo (M.holds m.old) (M.holds m.new) (M.heads m.old) first base refines body count (all_kinds variables.now) (position_of s.old) (control_of s.new)) }
    ensures heads { M.heads m.new ≡ M.heads m.old }
    ensures cause { HasFaultCause (M.faults m.old) (M.faults m.new) result }
    ensures follows { M.follows m.old m.new }
{
    let operands = s.stack.top(count);
    let more = frame_size(operands, cells);
    if !have_room(s.used, more) {
        return Ok(Next::CellRoom);
    }
    if let Set::HeapFull = write_frame(s.alloc, m, s.used, operands, variables)? {
        return Ok(Next::TextRoom);
    }
    let link = Link {
        back: s.pc + 1,
        base,
        used: s.used,
        refines,
        body,
    };
    s.stack.enter(s.alloc, link, count)?;
    s.used += more;
    s.pc = first;
    Ok(Next::On)
}

// The cells of a frame. More than can be counted have no room anyway.
fn frame_size(operands: &[Operand], variables: usize) -> usize
    ensures { result ≡ min (2 + length (flat_map held_cells operands.now) + variables) (2 ^ 64 - 1) }
{
    cells_of_all(operands)
        .saturating_add(variables)
        .saturating_add(2)
}

/// BACK
pub fn back<M: Memory>(
    code: &Code,
    s: &mut State,
    m: &mut M,
    delivers: &Option<Shape>,
) -> Result<(), MemFault>
    requires ready { IsReady s.old }
    requires result { TopResult delivers.now s.old.stack.ops }
    requires inside { IsInside s.old.stack.frames }
    ensures goes { OnOk result ((marks : ℕ) → Steps (M.holds m.old) (M.holds m.new) (M.heads m.old) (M.heads m.old) (stage_by code.now (instrs.Back delivers.now) marks)
        (position_of s.old) (control_of s.new) marks nexts.On) }
    ensures heads { M.heads m.new ≡ M.heads m.old }
    ensures cause { HasFaultCause (M.faults m.old) (M.faults m.new) result }
    ensures follows { M.follows m.old m.new }
{
    let result = take_result(&mut s.stack, delivers);
    let link = leave(&mut s.stack);
    return_from(code, s, m, link, result)
}

/// OUT
pub fn back_around<M: Memory>(
    code: &Code,
    s: &mut State,
    m: &mut M,
    delivers: &Option<Shape>,
) -> Result<(), MemFault>
    requires ready { IsReady s.old }
    requires result { TopResult delivers.now s.old.stack.ops }
    requires inside { is_in_proc s.old.stack.frames ≡ true }
    ensures goes { OnOk result ((marks : ℕ) → Steps (M.holds m.old) (M.holds m.new) (M.heads m.old) (M.heads m.old) (stage_by code.now (instrs.Out delivers.now) marks)
        (position_of s.old) (control_of s.new) marks nexts.On) }
    ensures heads { M.heads m.new ≡ M.heads m.old }
    ensures cause { HasFaultCause (M.faults m.old) (M.faults m.new) result }
    ensures follows { M.follows m.old m.new }
{
    let result = take_result(&mut s.stack, delivers);
    let link = leave_proc(&mut s.stack);
    return_from(code, s, m, link, result)
}

// Takes the result, where there is one.
fn take_result(stack: &mut Stack, delivers: &Option<Shape>) -> Option<Operand>
    requires { TopResult delivers.now stack.old.ops }
    ensures taken { (go : List Operand → Move) → on_result delivers.now stack.old.ops go ≡ go (result_ops result) }
    ensures rest { stack.old.ops ≡ result_ops result ++ stack.new.ops }
    ensures frames { stack.new.frames ≡ stack.old.frames }
{
    match delivers {
        Some(_) => Some(stack.pop()),
        None => None,
    }
}

// Leaves the innermost frame.
fn leave(stack: &mut Stack) -> Link
    requires { IsInside stack.old.frames }
    ensures { stack.old.frames ≡ linked result stack.new.ops ∷ stack.new.frames }
{
    match stack.leave() {
        Some(link) => link,
        None => unreachable!(),
    }
}

// Leaves the frames of refinements and that of their PROC.
fn leave_proc(stack: &mut Stack) -> Link
    requires { is_in_proc stack.old.frames ≡ true }
    ensures fewer { bytes_on stack.new.ops (bytes_of stack.new.frames) ≤ bytes_of stack.old.frames }
    ensures leads { (p : Program) (ops : List Operand) (used : ℕ) (mem : Mem) → out_to p ops used stack.old.frames mem ≡ back_into p ops used
        (linked result stack.new.ops) stack.new.frames mem }
{
    loop {
        let link = leave(stack);
        if !link.refines {
            return link;
        }
    }
}

// Goes on where a frame was made, with the result, and frees the cells of the frame.
fn return_from<M: Memory>(
    code: &Code,
    s: &mut State,
    m: &mut M,
    link: Link,
    value: Option<Operand>,
) -> Result<(), MemFault>
    requires room { bytes_fit (bytes_on (result_ops value ++ s.old.stack.ops) (bytes_of s.old.stack.frames)) ≡ true }
    requires cells { cells_fit s.old.used ≡ true }
    ensures goes { OnOk result (control_of s.new ≡
        record { position = record (position_of s.old) { pc = link.back; ops = result_ops value ++ s.old.stack.ops; used = link.used }; waits = s.old.waits }) }
    ensures freed { OnOk result ((cells : Cells) → M.holds m.old cells → is_framed (slice_get code.now.bodies link.body) link.used s.old.used cells ≡ true →
        M.holds m.new (freed link.used s.old.used cells)) }
    ensures heads { M.heads m.new ≡ M.heads m.old }
    ensures cause { HasFaultCause (M.faults m.old) (M.faults m.new) result }
    ensures follows { M.follows m.old m.new }
{
    let until = s.used;
    return_with(s, link, value)?;
    free_frame(s.alloc, code, link.body, m, link.used, until)
}

// Goes on where a frame was made, with the result.
fn return_with(s: &mut State, link: Link, value: Option<Operand>) -> Result<(), NoMemory>
    requires { bytes_fit (bytes_on (result_ops value ++ s.old.stack.ops) (bytes_of s.old.stack.frames)) ≡ true }
    ensures { OnOk result (control_of s.new ≡
        record { position = record (position_of s.old) { pc = link.back; ops = result_ops value ++ s.old.stack.ops; used = link.used }; waits = s.old.waits }) }
{
    s.pc = link.back;
    s.used = link.used;
    if let Some(value) = value {
        s.stack.push(value)?;
    }
    Ok(())
}
