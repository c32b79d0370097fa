//! Where a command stands.
ghost use Rattle.std.specs.Prelude.{◌≡◌, ◌+◌, ◌&&◌, nat_eq, true, drop, reverse, Some, slice_get, OnOk, IfOk};
ghost use Rattle.code_form.specs.Valid.{is_ask};
ghost use Rattle.state_spelling.specs.declared.kept.Kept.{Kept as Keeping};
ghost use Rattle.state_spelling.specs.Revived as spec;
ghost use Rattle.state_spelling.specs.Standing.{held_used};
ghost use Rattle.state_spelling.specs.Coming.{CameTo, StateIs, IsBetween, walk_of};

use crate::cells::cells_of_all;
use crate::operands::take_all;
use crate::walking::Walking;
use crate::{Kept, KeptFrame};
use byte_spelling::ReadError;
use code_form::{Code, Instr, Layout, Line, Operand, OperandKind, Waits};
use eu_base::{CELLS, List, NoMemory};
use std::alloc::Global;
use zero_state::{Link, Stack, State};

fn is_same_body(body: Option<usize>, other: Option<usize>) -> bool
    ensures { result ≡ spec.same_body body other }
{
    match (body, other) {
        (None, None) => true,
        (Some(body), Some(other)) => body == other,
        _ => false,
    }
}

// Takes what is pending below a frame, and makes the frame.
fn enter(
    alloc: Global,
    link: Link,
    floor: usize,
    kinds: &[OperandKind],
    walking: &mut Walking,
    frame: KeptFrame,
) -> Result<(), ReadError>
    requires between { IsBetween walking.old }
    requires back { link.back ≡ frame.back }
    requires base { link.base ≡ frame.base }
    requires used { link.used ≡ frame.used }
    ensures comes { CameTo result (spec.enters_if true link.refines link.body floor frame kinds.now (walk_of walking.old)) (walk_of walking.new) }
    ensures between { OnOk result (IsBetween walking.new) }
{
    take_all(alloc, kinds, &mut walking.stack, &mut walking.left)?;
    walking.stack.enter(alloc, link, 0)?;
    walking.body = Some(link.body);
    walking.floor = floor;
    Ok(())
}

// The frame that a CALL makes.
fn enter_call(
    alloc: Global,
    code: &Code,
    body: usize,
    kinds: &[OperandKind],
    walking: &mut Walking,
    frame: KeptFrame,
) -> Result<(), ReadError>
    requires between { IsBetween walking.old }
    ensures comes { CameTo result (spec.called_by (slice_get code.now.bodies body) body kinds.now frame (walk_of walking.old)) (walk_of walking.new) }
    ensures between { OnOk result (IsBetween walking.new) }
{
    let Some(entry) = code.bodies().get(body) else {
        return Err(ReadError::NotSpelled);
    };
    let Layout::Own {
        parameters,
        variables,
    } = &entry.layout
    else {
        return Err(ReadError::NotSpelled);
    };
    let parameters = parameters.as_slice();
    let base = usize::from(frame.base);
    let used = usize::from(frame.used);
    if base != used + 2 {
        return Err(ReadError::NotSpelled);
    }
    let floor = floor_of(base, cells_of_all(parameters)?, variables.len())?;
    let link = Link {
        back: frame.back as usize,
        base,
        used,
        refines: false,
        body,
    };
    enter(
        alloc,
        link,
        floor,
        without(kinds, parameters.len()),
        walking,
        frame,
    )
}

fn floor_of(base: usize, parameters: usize, variables: usize) -> Result<usize, NoMemory>
    ensures { IfOk result (λ floor. floor ≡ base + parameters + variables) }
{
    let below = base.checked_add(parameters).ok_or(NoMemory)?;
    below.checked_add(variables).ok_or(NoMemory)
}

fn without(kinds: &[OperandKind], count: usize) -> &[OperandKind]
    ensures { result.now ≡ drop count kinds.now }
{
    if count >= kinds.len() {
        return &[];
    }
    &kinds[count..]
}

// The frame that a REFER makes.
fn enter_refinement(
    alloc: Global,
    code: &Code,
    body: usize,
    kinds: &[OperandKind],
    walking: &mut Walking,
    frame: KeptFrame,
) -> Result<(), ReadError>
    requires between { IsBetween walking.old }
    ensures comes { CameTo result (spec.referred_by (slice_get code.now.bodies body) body kinds.now frame (walk_of walking.old)) (walk_of walking.new) }
    ensures between { OnOk result (IsBetween walking.new) }
{
    let Some(entry) = code.bodies().get(body) else {
        return Err(ReadError::NotSpelled);
    };
    if is_own(&entry.layout) {
        return Err(ReadError::NotSpelled);
    }
    let base = usize::from(frame.base);
    let used = usize::from(frame.used);
    if base != walking.stack.base() {
        return Err(ReadError::NotSpelled);
    }
    let link = Link {
        back: frame.back as usize,
        base,
        used,
        refines: true,
        body,
    };
    enter(alloc, link, used + 2, kinds, walking, frame)
}

fn is_own(layout: &Layout) -> bool
    ensures { result ≡ spec.is_own layout.now }
{
    match layout {
        Layout::Own {
            parameters: _,
            variables: _,
        } => true,
        Layout::Of(_) | Layout::Level => false,
    }
}

// The frame that an instruction makes.
fn enter_by(
    alloc: Global,
    code: &Code,
    line: &Line,
    walking: &mut Walking,
    frame: KeptFrame,
) -> Result<(), ReadError>
    requires between { IsBetween walking.old }
    ensures comes { CameTo result (spec.made_by code.now line.now.instr line.now.operands frame (walk_of walking.old)) (walk_of walking.new) }
    ensures between { OnOk result (IsBetween walking.new) }
{
    match &line.instr {
        Instr::Call(body) => {
            enter_call(alloc, code, *body, line.operands.as_slice(), walking, frame)?;
            Ok(())
        }
        Instr::Refer(body) => {
            enter_refinement(alloc, code, *body, line.operands.as_slice(), walking, frame)?;
            Ok(())
        }
        _ => Err(ReadError::NotSpelled),
    }
}

// Whether so many cells are in use where a frame has a body, and limits of loops behind so many cells.
fn is_at(line: &Line, body: Option<usize>, floor: usize, used: usize) -> Result<bool, NoMemory>
    ensures { IfOk result (λ is. is ≡ (spec.same_body line.now.spot.body body && nat_eq used (floor + line.now.spot.limits))) }
{
    let cells = floor.checked_add(line.spot.limits).ok_or(NoMemory)?;
    Ok(is_same_body(line.spot.body, body) && used == cells)
}

// A frame more.
#[tactic(auto, using(crate::proofs::Loop::maker_is))]
fn enter_next(
    alloc: Global,
    code: &Code,
    walking: &mut Walking,
    frame: KeptFrame,
) -> Result<(), ReadError>
    requires between { IsBetween walking.old }
    ensures comes { CameTo result (spec.walk_step code.now frame (walk_of walking.old)) (walk_of walking.new) }
    ensures between { OnOk result (IsBetween walking.new) }
{
    let back = frame.back as usize;
    if back == 0 {
        return Err(ReadError::NotSpelled);
    }
    let Some(line) = code.lines().get(back - 1) else {
        return Err(ReadError::NotSpelled);
    };
    if !is_at(line, walking.body, walking.floor, frame.used as usize)? {
        return Err(ReadError::NotSpelled);
    }
    enter_by(alloc, code, line, walking, frame)
}

// All frames, the outermost first.
fn enter_all(
    alloc: Global,
    code: &Code,
    walking: &mut Walking,
    frames: &[KeptFrame],
) -> Result<(), ReadError>
    requires between { IsBetween walking.old }
    ensures comes { CameTo result (spec.walk code.now (walk_of walking.old) frames.now) (walk_of walking.new) }
    ensures between { OnOk result (IsBetween walking.new) }
{
    for frame in frames {
        enter_next(alloc, code, walking, *frame)?;
    }
    Ok(())
}

/// The cells in use, where two bytes can spell them; else the last number that they can.
pub fn held_used(used: usize) -> u16
    ensures { result ≡ held_used used }
{
    used.min(u16::MAX as usize) as u16
}

fn may_wait(waits: &Waits, used: u16, instr: &Instr) -> bool
    ensures { (k : Keeping) → k.waits ≡ waits.now → k.used ≡ used → result ≡ spec.may_wait k instr.now }
{
    match waits {
        Waits::Nothing => used <= CELLS,
        Waits::Asked(_) | Waits::Given(_) => is_ask(instr) && used <= CELLS,
        Waits::Refused(_) => true,
    }
}

fn is_ask(instr: &Instr) -> bool
    ensures { result ≡ is_ask (Some instr.now) }
{
    match instr {
        Instr::Ask(_) => true,
        _ => false,
    }
}

// The operands, the next one last.
fn last_first(operands: List<Operand>) -> List<Operand>
    ensures { result ≡ reverse operands }
{
    let mut operands = operands.into_vec();
    operands.reverse();
    List::from_vec(operands)
}

// The innermost frame.
fn settle(
    alloc: Global,
    code: &Code,
    line: &Line,
    mut walking: Walking,
    waits: Waits,
    pc: u32,
    used: u16,
) -> Result<State, ReadError>
    requires { IsBetween walking }
    ensures { (k : Keeping) → k.waits ≡ waits → k.used ≡ used → k.pc ≡ pc → StateIs result (spec.stands_at k (Some line.now) (walk_of walking)) }
{
    let cells = walking.floor.checked_add(line.spot.limits).ok_or(NoMemory)?;
    if !is_same_body(line.spot.body, walking.body) || used != held_used(cells) {
        return Err(ReadError::NotSpelled);
    }
    if !may_wait(&waits, used, &line.instr) {
        return Err(ReadError::NotSpelled);
    }
    take_all(
        alloc,
        line.operands.as_slice(),
        &mut walking.stack,
        &mut walking.left,
    )?;
    if !walking.left.is_empty() {
        return Err(ReadError::NotSpelled);
    }
    Ok(State {
        alloc,
        pc: pc as usize,
        stack: walking.stack,
        used: cells,
        waits,
    })
}

/// Where a command stands, from what was kept of it.
#[tactic(auto, unfolding(crate::specs::Revived::revived))]
pub fn revive(alloc: Global, code: &Code, kept: Kept) -> Result<State, ReadError>
    ensures { StateIs result (spec.revived code.now kept) }
{
    let Kept {
        waits,
        pc,
        used,
        frames,
        operands,
    } = kept;
    let mut walking = Walking {
        body: None,
        floor: code.variables().len(),
        stack: Stack::new(alloc),
        left: last_first(operands),
    };
    enter_all(alloc, code, &mut walking, frames.as_slice())?;
    let Some(line) = code.lines().get(pc as usize) else {
        return Err(ReadError::NotSpelled);
    };
    settle(alloc, code, line, walking, waits, pc, used)
}
