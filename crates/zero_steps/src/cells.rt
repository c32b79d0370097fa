//! Values of several cells in memory, each cell's in turn.
ghost use Rattle.std.specs.Prelude.{◌≡◌, ◌-◌, ◌^◌, ◌≤◌, min, map, true, nat_le, IfOk, OnOk};
ghost use Rattle.eu_base.specs.declared.value.TheConstants.{OPERAND_BYTES};
ghost use Rattle.eu_base.specs.declared.value.Value.TheVariants as item;
ghost use Rattle.eu_base.specs.Room.{blocks_of, most_blocks, value_blocks, values_bytes, values_blocks};
ghost use Rattle.eu_base.specs.Cells.{Cells, IsCell, held_of, written, cell_blocks, area_blocks, HasFaultCause};
ghost use Rattle.eu_base.specs.SpaceCells.{IsThere};
ghost use Rattle.code_form.specs.Machine.{operand_bytes, takes, takes_all, written_all, next};
ghost use Rattle.zero_state.specs.Finds.{is_value, all_of};
ghost use Rattle.zero_steps.specs.Reading.{AllRead, PutsAll, blocks_from, shown, FitsSoFar};

use crate::reading::{put, value_at};
use code_form::Operand;
use eu_base::{Addr, CELLS, Kind, List, MemFault, Memory, Set, Value};
use std::alloc::Global;

// The bytes of a text that a block has.
const BLOCK_BYTES: usize = 28;

/// The values of these kinds that stand in the cells from a place on.
pub fn values_at<M: Memory>(
    m: &mut M,
    alloc: Global,
    at: Addr,
    kinds: &[Kind],
) -> Result<List<Value>, MemFault>
    requires cell { IsCell at }
    requires there { IsThere (M.heads m.old) at.area }
    ensures reads { IfOk result (AllRead (M.holds m.old) at kinds.now) }
    ensures kept { OnOk result ((cells : Cells) → M.holds m.old cells → M.holds m.new cells) }
    ensures heads { M.heads m.new ≡ M.heads m.old }
    ensures cause { HasFaultCause (M.faults m.old) (M.faults m.new) result }
    ensures follows { M.follows m.old m.new }
{
    let mut values = List::new(alloc);
    let mut place = at;
    for kind in kinds {
        values.push(value_at(m, place, *kind)?)?;
        place = next(place);
    }
    Ok(values)
}

/// Puts a pushed value into the cells from a place on, where all texts then have room. Else nothing changes.
pub fn put_operand<M: Memory>(m: &mut M, at: Addr, operand: &Operand) -> Result<Set, MemFault>
    requires cell { IsCell at }
    requires there { IsThere (M.heads m.old) at.area }
    requires value { is_value operand.now ≡ true }
    requires few { operand_bytes operand.now ≤ OPERAND_BYTES }
    ensures puts { IfOk result (PutsAll (M.holds m.old) (M.holds m.new) at (all_of operand.now)) }
    ensures heads { M.heads m.new ≡ M.heads m.old }
    ensures cause { HasFaultCause (M.faults m.old) (M.faults m.new) result }
    ensures follows { M.follows m.old m.new }
{
    match operand {
        Operand::Value(value) => put(m, at, value),
        Operand::Place(_) => unreachable!(),
        Operand::Aggregate(values) => put_all(m, at, values.as_slice()),
    }
}

// Puts values into the cells from a place on, where all texts then have room. Else nothing changes.
fn put_all<M: Memory>(m: &mut M, at: Addr, values: &[Value]) -> Result<Set, MemFault>
    requires cell { IsCell at }
    requires there { IsThere (M.heads m.old) at.area }
    requires few { values_bytes values.now ≤ OPERAND_BYTES }
    ensures puts { IfOk result (PutsAll (M.holds m.old) (M.holds m.new) at values.now) }
    ensures heads { M.heads m.new ≡ M.heads m.old }
    ensures cause { HasFaultCause (M.faults m.old) (M.faults m.new) result }
    ensures follows { M.follows m.old m.new }
{
    let needed = blocks_of(values);
    if needed == 0 {
        put_each(m, at, values, true)?;
        return Ok(Set::Done);
    }
    if !has_room(m, at, values, needed)? {
        return Ok(Set::HeapFull);
    }
    // The old texts go before the new ones come, which may have no room beside them.
    put_each(m, at, values, false)?;
    put_each(m, at, values, true)?;
    Ok(Set::Done)
}

// Whether all texts have room where values whose texts take so many blocks stand from a place on.
fn has_room<M: Memory>(
    m: &mut M,
    at: Addr,
    values: &[Value],
    needed: usize,
) -> Result<bool, MemFault>
    requires cell { IsCell at }
    requires there { IsThere (M.heads m.old) at.area }
    requires few { values_bytes values.now ≤ OPERAND_BYTES }
    requires needed { needed ≡ values_blocks values.now }
    ensures fits { IfOk result (λ fits. (cells : Cells) → M.holds m.old cells → takes_all values.now at cells ≡ true →
        fits ≡ nat_le (area_blocks at.area (written_all cells at values.now)) most_blocks) }
    ensures kept { OnOk result ((cells : Cells) → M.holds m.old cells → M.holds m.new cells) }
    ensures heads { M.heads m.new ≡ M.heads m.old }
    ensures cause { HasFaultCause (M.faults m.old) (M.faults m.new) result }
    ensures follows { M.follows m.old m.new }
{
    let had = blocks_at(m, at, values)?;
    if needed <= had {
        return Ok(true);
    }
    let rooms = m.rooms(at.area)?;
    Ok(needed - had <= rooms as usize)
}

// The blocks of the texts among values.
fn blocks_of(values: &[Value]) -> usize
    requires { values_bytes values.now ≤ OPERAND_BYTES }
    ensures { result ≡ values_blocks values.now }
{
    let mut blocks = 0;
    for value in values {
        blocks += value_blocks(value);
    }
    blocks
}

fn value_blocks(value: &Value) -> usize
    ensures { result ≡ value_blocks value.now }
{
    match value {
        Value::Int(_) | Value::Truth(_) | Value::Task(_) | Value::Space(_) => 0,
        Value::Text(text) => text_blocks(text.as_slice().len()),
    }
}

// The blocks of a text of so many bytes.
fn text_blocks(bytes: usize) -> usize
    ensures { result ≡ blocks_of bytes }
{
    let whole = bytes / BLOCK_BYTES;
    if bytes % BLOCK_BYTES == 0 {
        whole
    } else {
        whole + 1
    }
}

// The blocks of the texts that stand from a place on where values are to stand. More than can be counted there are not.
fn blocks_at<M: Memory>(m: &mut M, at: Addr, values: &[Value]) -> Result<usize, MemFault>
    requires cell { IsCell at }
    requires there { IsThere (M.heads m.old) at.area }
    ensures had { IfOk result (λ had. (cells : Cells) → M.holds m.old cells → takes_all values.now at cells ≡ true →
        had ≡ min (blocks_from cells at values.now) (2 ^ 64 - 1)) }
    ensures kept { OnOk result ((cells : Cells) → M.holds m.old cells → M.holds m.new cells) }
    ensures heads { M.heads m.new ≡ M.heads m.old }
    ensures cause { HasFaultCause (M.faults m.old) (M.faults m.new) result }
    ensures follows { M.follows m.old m.new }
{
    let mut had = 0usize;
    let mut place = at;
    for value in values {
        had = had.saturating_add(old_blocks(m, place, value)?);
        place = next(place);
    }
    Ok(had)
}

// The blocks of the text in a cell where a value is to stand.
fn old_blocks<M: Memory>(m: &mut M, at: Addr, value: &Value) -> Result<usize, MemFault>
    requires cell { IsCell at }
    requires there { IsThere (M.heads m.old) at.area }
    ensures had { IfOk result (λ had. (cells : Cells) → M.holds m.old cells → takes (held_of value.now) (cells at) ≡ true → had ≡ cell_blocks (cells at)) }
    ensures kept { OnOk result ((cells : Cells) → M.holds m.old cells → M.holds m.new cells) }
    ensures heads { M.heads m.new ≡ M.heads m.old }
    ensures cause { HasFaultCause (M.faults m.old) (M.faults m.new) result }
    ensures follows { M.follows m.old m.new }
{
    match value {
        Value::Int(_) | Value::Truth(_) | Value::Task(_) | Value::Space(_) => Ok(0),
        Value::Text(_) => Ok(text_blocks(m.text(at)?.as_slice().len())),
    }
}

// Puts values that have room into the cells from a place on, with their texts or with "" in the place of each.
fn put_each<M: Memory>(m: &mut M, at: Addr, values: &[Value], texts: bool) -> Result<(), MemFault>
    requires cell { IsCell at }
    requires there { IsThere (M.heads m.old) at.area }
    requires few { values_bytes values.now ≤ OPERAND_BYTES }
    ensures put { OnOk result ((cells : Cells) → M.holds m.old cells → takes_all values.now at cells ≡ true →
        FitsSoFar cells at (map (shown texts) values.now) → M.holds m.new (written_all cells at (map (shown texts) values.now))) }
    ensures heads { M.heads m.new ≡ M.heads m.old }
    ensures cause { HasFaultCause (M.faults m.old) (M.faults m.new) result }
    ensures follows { M.follows m.old m.new }
{
    let mut place = at;
    for value in values {
        put_one(m, place, value, texts)?;
        place = next(place);
    }
    Ok(())
}

fn put_one<M: Memory>(m: &mut M, at: Addr, value: &Value, text: bool) -> Result<(), MemFault>
    requires cell { IsCell at }
    requires there { IsThere (M.heads m.old) at.area }
    ensures put { OnOk result ((cells : Cells) → M.holds m.old cells → takes (held_of value.now) (cells at) ≡ true →
        area_blocks at.area (written cells at (held_of (shown text value.now))) ≤ most_blocks → M.holds m.new (written cells at (held_of (shown text value.now)))) }
    ensures heads { M.heads m.new ≡ M.heads m.old }
    ensures cause { HasFaultCause (M.faults m.old) (M.faults m.new) result }
    ensures follows { M.follows m.old m.new }
{
    match value {
        Value::Int(_) | Value::Truth(_) | Value::Task(_) | Value::Space(_) => m.set_cell(
            at,
            value.cell(),
        ),
        Value::Text(new) => {
            let _set = m.set_text(at, shown(new.as_slice(), text))?;
            Ok(())
        }
    }
}

// A text, or "" in its place.
fn shown(t: &[u8], text: bool) -> &[u8]
    ensures { item.Text result.now ≡ shown text (item.Text t.now) }
{
    if text { t } else { &[] }
}

// The next cell of an area; behind its last one, which is not looked at, the first.
fn next(at: Addr) -> Addr
    ensures { result ≡ next at }
{
    let cell = u32::from(at.cell) + 1;
    Addr {
        area: at.area,
        cell: (cell % u32::from(CELLS)) as u16,
    }
}
