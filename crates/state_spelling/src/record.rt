//! To bytes.
ghost use Rattle.std.specs.Prelude.{◌≡◌, ◌++◌, ◌+◌, ◌<◌, ◌^◌, true, length, map, flat_map, OnOk, IfOk};
ghost use Rattle.code_form.specs.declared.operand.Operand.{Operand as Operands};
ghost use Rattle.zero_state.specs.Stepping.{control_of};
ghost use Rattle.byte_spelling.specs.Spelling.{all_fine, list_of};
ghost use Rattle.state_spelling.specs.Operands.{operand};
ghost use Rattle.state_spelling.specs.Kept.{kept as spelling};
ghost use Rattle.state_spelling.specs.Standing.{kept_of};
ghost use Rattle.state_spelling.specs.Held.{kept_link, held};

use crate::frames::held_used;
use crate::{KeptFrame, OperandBytes, put_waits, small};
use byte_spelling::{put_items, put_list, put_u16, put_u32};
use code_form::Operand;
use eu_base::{Bytes, List, NoMemory};
use std::alloc::Global;
use zero_state::{Frame, Link, State};

// A number that two bytes can spell. No greater one is met.
fn short(number: usize) -> Result<u16, NoMemory>
    ensures same { IfOk result (λ short. short ≡ number) }
    ensures few { IfOk result (λ short. number < 2 ^ 16) }
{
    if number > u16::MAX as usize {
        return Err(NoMemory);
    }
    Ok(number as u16)
}

fn kept_link(link: Link) -> Result<KeptFrame, NoMemory>
    ensures { IfOk result (λ kept. kept ≡ kept_link link) }
{
    Ok(KeptFrame {
        back: small(link.back)?,
        base: short(link.base)?,
        used: short(link.used)?,
    })
}

fn kept_links(alloc: Global, frames: &[Frame]) -> Result<List<KeptFrame>, NoMemory>
    ensures { IfOk result (λ kept. kept ≡ map (λ f. kept_link f.link) frames.now) }
{
    let mut kept = List::new(alloc);
    for frame in frames {
        kept.push(kept_link(frame.link)?)?;
    }
    Ok(kept)
}

fn count_below(frames: &[Frame]) -> Result<usize, NoMemory>
    ensures { IfOk result (λ count. count ≡ length (flat_map held frames.now)) }
{
    let mut count = 0usize;
    for frame in frames {
        count = count.checked_add(frame.operands.len()).ok_or(NoMemory)?;
    }
    Ok(count)
}

fn put_below(out: &mut Bytes, frames: &[Frame]) -> Result<(), NoMemory>
    ensures spelled { OnOk result (out.new ≡ out.old ++ flat_map operand.spell (flat_map held frames.now)) }
    ensures fine { OnOk result (all_fine operand (flat_map held frames.now) ≡ true) }
{
    for frame in frames {
        put_items::<OperandBytes>(out, frame.operands.as_slice())?;
    }
    Ok(())
}

fn sum_of(count: usize, more: usize) -> Result<usize, NoMemory>
    ensures { IfOk result (λ sum. sum ≡ count + more) }
{
    count.checked_add(more).ok_or(NoMemory)
}

// All that is pending, the oldest first.
fn put_pending(out: &mut Bytes, frames: &[Frame], own: &[Operand]) -> Result<(), NoMemory>
    ensures spelled { OnOk result (out.new ≡ out.old ++ (list_of operand).spell (flat_map held frames.now ++ own.now)) }
    ensures fine { OnOk result ((list_of operand).fine (flat_map held frames.now ++ own.now) ≡ true) }
{
    let count = sum_of(count_below(frames)?, own.len())?;
    put_u32(out, small(count)?)?;
    put_below(out, frames)?;
    put_items::<OperandBytes>(out, own)?;
    Ok(())
}

/// What is kept of where a command stands.
pub fn record_bytes(alloc: Global, state: &State) -> Result<Bytes, NoMemory>
    ensures spelled { IfOk result (λ bytes. bytes ≡ spelling.spell (kept_of (control_of state.now))) }
    ensures fine { IfOk result (λ _. spelling.fine (kept_of (control_of state.now)) ≡ true) }
{
    let mut out = Bytes::new(alloc);
    put_waits(&mut out, &state.waits)?;
    put_u32(&mut out, small(state.pc)?)?;
    put_u16(&mut out, held_used(state.used))?;
    let frames = state.stack.frames();
    put_list::<KeptFrame>(&mut out, kept_links(alloc, frames)?.as_slice())?;
    put_pending(&mut out, frames, state.stack.operands())?;
    Ok(out)
}
