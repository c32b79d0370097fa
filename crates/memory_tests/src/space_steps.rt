//! Steps over the data spaces of a memory. What a call may not be asked is not done.
use crate::out::{put_digit, tell, tell_done, tell_fault};
use cell_layout::cells as cell_count;
use eu_base::{Addr, Area, Bytes, CELLS, Memory, Shape, SpaceOperation, Value};
use space_calls::{assign_bound, assign_copy, perform, shape_is_there, values_are_there};
use space_memory::MOST_LIVE;
use std::alloc::Global;
use task_numbers::SpaceNo;

// An empty space, or a copy of one that lives.
fn make<M: Memory>(memory: &mut M, from: Option<SpaceNo>) -> Option<SpaceNo>
    ensures { M.follows memory.old memory.new }
{
    let there = match from {
        Some(s) => memory.live(s),
        None => true,
    };
    if there && memory.count() < MOST_LIVE && memory.last_number() < 1000 {
        memory.make(from).ok()
    } else {
        None
    }
}

fn fill<M: Memory>(out: &mut Bytes, memory: &mut M, s: SpaceNo, shape: &Shape)
    ensures { M.follows memory.old memory.new }
{
    if memory.live(s) && memory.has_shape(s).is_none() && cell_count(shape) <= u32::from(CELLS) {
        tell_done(out, memory.fill(s, shape));
    } else {
        tell(out, false);
    }
}

fn set_kind<M: Memory>(memory: &mut M, s: SpaceNo, n: i16) -> bool
    ensures { M.follows memory.old memory.new }
{
    if memory.live(s) {
        memory.set_kind(s, n);
        memory.live(s) && memory.kind(s) == n
    } else {
        false
    }
}

fn name<M: Memory>(memory: &mut M, name: &[u8], s: SpaceNo) -> bool
    ensures { M.follows memory.old memory.new }
{
    if memory.live(s) && memory.named(name).is_none() {
        memory.name(name, s).is_ok()
    } else {
        false
    }
}

// `type (ds)` of a space with the type 103.
fn has_kind<M: Memory>(memory: &mut M, s: SpaceNo) -> bool
    ensures { M.follows memory.old memory.new }
{
    match perform(memory, SpaceOperation::KindOf, &[Value::Space(Some(s))]) {
        Ok(Ok(Some(Value::Int(kind)))) => kind == 103,
        _ => false,
    }
}

// `forget (ds)`
fn forgets<M: Memory>(memory: &mut M, s: SpaceNo) -> bool
    ensures { M.follows memory.old memory.new }
{
    matches!(
        perform(memory, SpaceOperation::Forget, &[Value::Space(Some(s))]),
        Ok(Ok(None))
    )
}

// The command's cell 9 is a DATASPACE variable, and cell 8 a BOUND one.
fn copies<M: Memory>(out: &mut Bytes, memory: &mut M, s: SpaceNo)
    ensures { M.follows memory.old memory.new }
{
    let at = Addr {
        area: Area::Run,
        cell: 9,
    };
    match assign_copy(memory, at, Some(s)) {
        Ok(stopped) => tell(out, stopped.is_none()),
        Err(fault) => tell_fault(out, fault),
    }
}

fn binds<M: Memory>(alloc: Global, out: &mut Bytes, memory: &mut M, shape: &Shape, s: SpaceNo)
    ensures { M.follows memory.old memory.new }
{
    let at = Addr {
        area: Area::Run,
        cell: 8,
    };
    match assign_bound(memory, alloc, at, shape, Some(s)) {
        Ok(stopped) => tell(out, stopped.is_none()),
        Err(fault) => tell_fault(out, fault),
    }
}

// Whether the shape stands in it, with a truth value first.
fn stands<M: Memory>(alloc: Global, memory: &M, shape: &Shape, s: SpaceNo) -> bool {
    let at = Addr {
        area: Area::Space(s),
        cell: 0,
    };
    shape_is_there(memory, alloc, at, shape).unwrap_or(false)
        && values_are_there(memory, alloc, at, &[Value::Truth(true)]).unwrap_or(false)
}

// The space with a digit for its number.
fn space(digit: u8) -> SpaceNo {
    SpaceNo(u32::from(digit.wrapping_sub(b'0')))
}

fn put_made(out: &mut Bytes, made: Option<SpaceNo>) {
    match made {
        Some(s) => put_digit(out, s.0),
        None => tell(out, false),
    }
}

/// Does a step, as one on a memory over its pool does: `m` makes a space, `y` a copy, `k` sets the type, `b` fills it with a shape, `f` forgets it,
/// `n` with a letter behind it names it so, and `u` takes a name out. As a program does: `K` asks for the type, `F` forgets, `C` assigns a copy, `B` binds,
/// and `S` finds the shape there.
pub fn go<M: Memory>(alloc: Global, out: &mut Bytes, memory: &mut M, shape: &Shape, step: &[u8])
    ensures { M.follows memory.old memory.new }
{
    match step {
        [b'm'] => put_made(out, make(memory, None)),
        [b'y', s] => put_made(out, make(memory, Some(space(*s)))),
        [b'k', s] => tell(out, set_kind(memory, space(*s), 103)),
        [b'b', s] => fill(out, memory, space(*s), shape),
        [b'f', s] => memory.forget(space(*s)),
        [b'n', letter, s] => tell(out, name(memory, &[*letter], space(*s))),
        [b'u', letter] => memory.unname(&[*letter]),
        [b'K', s] => tell(out, has_kind(memory, space(*s))),
        [b'F', s] => tell(out, forgets(memory, space(*s))),
        [b'C', s] => copies(out, memory, space(*s)),
        [b'B', s] => binds(alloc, out, memory, shape, space(*s)),
        [b'S', s] => tell(out, stands(alloc, memory, shape, space(*s))),
        _ => {}
    }
}
