//! Whether cells are there: a data space may be gone, or something of another type may stand in it.
ghost use Rattle.std.specs.Prelude.{◌≡◌, ◌<◌, ◌+◌, drop, length, map, IfOk};
ghost use Rattle.std.specs.Option.{option_copied};
ghost use Rattle.eu_base.specs.Shapes.{cell_kinds, joined};
ghost use Rattle.eu_base.specs.Values.{same_kind, kind_of};
ghost use Rattle.eu_base.specs.SpacePlaces.{shaped_kinds, begin_with, is_in, lies_in};
ghost use Rattle.eu_base.specs.Room.{cells_fit};
ghost use Rattle.space_calls.specs.Kinds.{kind_is, found_in, found_in_row};

use eu_base::{Addr, Area, CELLS, Kind, List, Memory, NoMemory, Shape, Value};
use std::alloc::Global;

/// Whether cells of these kinds stand at a place, all of them within its area.
pub fn are_there<M: Memory>(m: &M, at: Addr, kinds: &[Kind]) -> bool
    ensures { result ≡ lies_in kinds.now at.area at.cell (M.heads m.now) }
{
    have_room(at.cell, kinds.len()) && stand_there(m, at, kinds)
}

// The same, where it is known that they are within the area.
fn stand_there<M: Memory>(m: &M, at: Addr, kinds: &[Kind]) -> bool
    ensures { result ≡ is_in kinds.now at.area at.cell (M.heads m.now) }
{
    match at.area {
        Area::Run | Area::Packets => true,
        Area::Space(s) => m.live(s) && stand_in(m.has_shape(s), usize::from(at.cell), kinds),
    }
}

// Whether an area has so many cells from one on.
fn have_room(from: u16, count: usize) -> bool
    ensures { result ≡ cells_fit (from + count) }
{
    let most = usize::from(CELLS);
    count <= most && usize::from(from) + count <= most
}

// Whether it has as many as a shape.
fn has_room(from: u16, shape: &Shape) -> bool
    ensures { result ≡ cells_fit (from + length (cell_kinds shape.now)) }
{
    match found(shape, usize::from(CELLS)) {
        Ok(_) => false,
        Err(left) => usize::from(from) <= left,
    }
}

/// Whether cells of a shape stand at a place. Its kinds are asked for only where a data space has to be looked at.
pub fn shape_is_there<M: Memory>(
    m: &M,
    alloc: Global,
    at: Addr,
    shape: &Shape,
) -> Result<bool, NoMemory>
    ensures { IfOk result (λ there. there ≡ lies_in (cell_kinds shape.now) at.area at.cell (M.heads m.now)) }
{
    if !has_room(at.cell, shape) {
        return Ok(false);
    }
    match at.area {
        Area::Run | Area::Packets => Ok(true),
        Area::Space(_) => {
            let kinds = shape.kinds(alloc, usize::from(CELLS))?;
            Ok(stand_there(m, at, kinds.as_slice()))
        }
    }
}

/// Whether cells of the kinds of these values stand at a place.
pub fn values_are_there<M: Memory>(
    m: &M,
    alloc: Global,
    at: Addr,
    values: &[Value],
) -> Result<bool, NoMemory>
    ensures { IfOk result (λ there. there ≡ lies_in (map kind_of values.now) at.area at.cell (M.heads m.now)) }
{
    if !have_room(at.cell, values.len()) {
        return Ok(false);
    }
    match at.area {
        Area::Run | Area::Packets => Ok(true),
        Area::Space(_) => {
            let kinds = kinds_of(alloc, values)?;
            Ok(stand_there(m, at, kinds.as_slice()))
        }
    }
}

fn kinds_of(alloc: Global, values: &[Value]) -> Result<List<Kind>, NoMemory>
    ensures { IfOk result (λ kinds. kinds ≡ map kind_of values.now) }
{
    let mut kinds = List::new(alloc);
    for value in values {
        kinds.push(kind_of(value))?;
    }
    Ok(kinds)
}

/// The kind of a value.
pub fn kind_of(value: &Value) -> Kind
    ensures { result ≡ kind_of value.now }
{
    match value {
        Value::Int(_) => Kind::Int,
        Value::Truth(_) => Kind::Truth,
        Value::Text(_) => Kind::Text,
        Value::Task(_) => Kind::Task,
        Value::Space(_) => Kind::Space,
    }
}

// Whether cells of these kinds stand in a data space from one on.
fn stand_in(shape: Option<&Shape>, from: usize, kinds: &[Kind]) -> bool
    requires { from < 65536 }
    ensures { result ≡ begin_with kinds.now (drop from (shaped_kinds (option_copied shape.entry))) }
{
    match shape {
        Some(shape) => stand_from(shape, from, kinds),
        None => kinds.is_empty(),
    }
}

fn stand_from(shape: &Shape, from: usize, kinds: &[Kind]) -> bool
    requires { from < 65536 }
    ensures { result ≡ begin_with kinds.now (drop from (cell_kinds shape.now)) }
{
    let mut place = from;
    for kind in kinds {
        if !is_found(found(shape, place), *kind) {
            return false;
        }
        place += 1;
    }
    true
}

// Whether a cell was found, and is of a kind.
fn is_found(found: Result<Kind, usize>, kind: Kind) -> bool
    ensures { result ≡ kind_is kind found }
{
    match found {
        Ok(other) => is_same(kind, other),
        Err(_) => false,
    }
}

fn is_same(kind: Kind, other: Kind) -> bool
    ensures { result ≡ same_kind kind other }
{
    match (kind, other) {
        (Kind::Int, Kind::Int)
        | (Kind::Truth, Kind::Truth)
        | (Kind::Text, Kind::Text)
        | (Kind::Task, Kind::Task)
        | (Kind::Space, Kind::Space) => true,
        _ => false,
    }
}

// The kind of a cell of a shape, by its number there. Where the shape has no such cell, how many cells further on it is.
#[cycle(found)]
fn found(shape: &Shape, place: usize) -> Result<Kind, usize>
    ensures { result ≡ found_in (cell_kinds shape.now) place }
{
    match shape {
        Shape::Cell(kind) => {
            if place == 0 {
                Ok(*kind)
            } else {
                Err(place - 1)
            }
        }
        Shape::Row(count, of) => found_in_row(*count, of.get(), place),
        Shape::Struct(parts) => found_in_parts(parts.as_slice(), place),
    }
}

// In a row each item has as many cells as the first.
#[cycle(found)]
fn found_in_row(count: u16, of: &Shape, place: usize) -> Result<Kind, usize>
    ensures { result ≡ found_in_row count (cell_kinds of.now) place }
{
    if count == 0 {
        return Err(place);
    }
    let behind = match found(of, place) {
        Ok(kind) => return Ok(kind),
        Err(behind) => behind,
    };
    let cells = place - behind;
    if cells == 0 {
        return Err(place);
    }
    if place / cells < usize::from(count) {
        return found(of, place % cells);
    }
    Err(place - usize::from(count) * cells)
}

#[cycle(found)]
fn found_in_parts(parts: &[Shape], place: usize) -> Result<Kind, usize>
    ensures { result ≡ found_in (joined (map cell_kinds parts.now)) place }
{
    let mut left = place;
    for part in parts {
        match found(part, left) {
            Ok(kind) => return Ok(kind),
            Err(behind) => left = behind,
        }
    }
    Err(left)
}
