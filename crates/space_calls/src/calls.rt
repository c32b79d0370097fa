//! The procedures.
ghost use Rattle.std.specs.Prelude.{◌≡◌, ◌∷◌, [], IfOk};
ghost use Rattle.eu_base.specs.Cells.{HasFaultCause};
ghost use Rattle.eu_base.specs.declared.value.Value.TheVariants as values;
ghost use Rattle.eu_base.specs.declared.space_operation.SpaceOperation.TheVariants as operations;
ghost use Rattle.eu_base.specs.SpaceOperations.{planned};
ghost use Rattle.space_calls.specs.Planned.{Performs, Looks};

use crate::refusals::{life_refusal, name_refusal, room_refusal};
use eu_base::{MemFault, Memory, SpaceNo, SpaceOperation, Value, number_at, space_at, text_at};
use zero_state::Next;

/// Does what a procedure does with the data spaces, and gives its result, if it has one. Where it stops, nothing changes.
pub fn perform<M: Memory>(
    m: &mut M,
    operation: SpaceOperation,
    operands: &[Value],
) -> Result<Result<Option<Value>, Next>, MemFault>
    ensures goes { IfOk result (Performs (M.holds m.old) (M.holds m.new) (M.heads m.old) (M.heads m.new) (planned operation operands.now (M.heads m.old))) }
    ensures cause { HasFaultCause (M.faults m.old) (M.faults m.new) result }
    ensures follows { M.follows m.old m.new }
{
    match operation {
        SpaceOperation::KindOf => Ok(kind_of(m, space_at(operands, 0))),
        SpaceOperation::New => new_space(m, text_at(operands, 0)),
        SpaceOperation::Old => Ok(old_space(m, text_at(operands, 0))),
        SpaceOperation::IsNamed => Ok(is_named(m, text_at(operands, 0))),
        SpaceOperation::SetKind => Ok(set_kind(m, space_at(operands, 0), number_at(operands, 1))),
        SpaceOperation::Forget => Ok(forget(m, space_at(operands, 0))),
        SpaceOperation::ForgetNamed => Ok(forget_named(m, text_at(operands, 0))),
        SpaceOperation::Rename => rename(m, text_at(operands, 0), text_at(operands, 1)),
        SpaceOperation::CopyNamed => copy_named(m, text_at(operands, 0), text_at(operands, 1)),
    }
}

// `type (ds)`
fn kind_of<M: Memory>(m: &M, space: Option<SpaceNo>) -> Result<Option<Value>, Next>
    ensures { Looks (planned operations.KindOf (values.Space space ∷ []) (M.heads m.now)) result }
{
    let Some(s) = space else {
        return Ok(Some(Value::Int(0)));
    };
    if let Some(next) = life_refusal(m, s) {
        return Err(next);
    }
    Ok(Some(Value::Int(m.kind(s))))
}

// `new (t)`
fn new_space<M: Memory>(m: &mut M, name: &[u8]) -> Result<Result<Option<Value>, Next>, MemFault>
    ensures goes { IfOk result (Performs (M.holds m.old) (M.holds m.new) (M.heads m.old) (M.heads m.new)
        (planned operations.New (values.Text name.now ∷ []) (M.heads m.old))) }
    ensures cause { HasFaultCause (M.faults m.old) (M.faults m.new) result }
    ensures follows { M.follows m.old m.new }
{
    if let Some(next) = name_refusal(m, name) {
        return Ok(Err(next));
    }
    if let Some(next) = room_refusal(m) {
        return Ok(Err(next));
    }
    let s = m.make(None)?;
    m.name(name, s)?;
    Ok(Ok(Some(Value::Space(Some(s)))))
}

// `old (t)`
fn old_space<M: Memory>(m: &M, name: &[u8]) -> Result<Option<Value>, Next>
    ensures { Looks (planned operations.Old (values.Text name.now ∷ []) (M.heads m.now)) result }
{
    match m.named(name) {
        Some(s) => Ok(Some(Value::Space(Some(s)))),
        None => Err(Next::NoName),
    }
}

// `exists (t)`
fn is_named<M: Memory>(m: &M, name: &[u8]) -> Result<Option<Value>, Next>
    ensures { Looks (planned operations.IsNamed (values.Text name.now ∷ []) (M.heads m.now)) result }
{
    let there = match m.named(name) {
        Some(_) => true,
        None => false,
    };
    Ok(Some(Value::Truth(there)))
}

// `type (ds, n)`
fn set_kind<M: Memory>(m: &mut M, space: Option<SpaceNo>, kind: i16) -> Result<Option<Value>, Next>
    ensures goes { Performs (M.holds m.old) (M.holds m.new) (M.heads m.old) (M.heads m.new)
        (planned operations.SetKind (values.Space space ∷ values.Int kind ∷ []) (M.heads m.old)) result }
    ensures faults { M.faults m.new ≡ M.faults m.old }
    ensures follows { M.follows m.old m.new }
{
    let Some(s) = space else {
        return Err(Next::NoSpace);
    };
    if let Some(next) = life_refusal(m, s) {
        return Err(next);
    }
    m.set_kind(s, kind);
    Ok(None)
}

// `forget (ds)`
fn forget<M: Memory>(m: &mut M, space: Option<SpaceNo>) -> Result<Option<Value>, Next>
    ensures goes { Performs (M.holds m.old) (M.holds m.new) (M.heads m.old) (M.heads m.new)
        (planned operations.Forget (values.Space space ∷ []) (M.heads m.old)) result }
    ensures faults { M.faults m.new ≡ M.faults m.old }
    ensures follows { M.follows m.old m.new }
{
    if let Some(s) = space {
        if m.live(s) {
            m.forget(s);
        }
    }
    Ok(None)
}

// `forget (t)`
fn forget_named<M: Memory>(m: &mut M, name: &[u8]) -> Result<Option<Value>, Next>
    ensures goes { Performs (M.holds m.old) (M.holds m.new) (M.heads m.old) (M.heads m.new)
        (planned operations.ForgetNamed (values.Text name.now ∷ []) (M.heads m.old)) result }
    ensures faults { M.faults m.new ≡ M.faults m.old }
    ensures follows { M.follows m.old m.new }
{
    let Some(s) = m.named(name) else {
        return Err(Next::NoName);
    };
    m.forget(s);
    Ok(None)
}

// `rename (t, u)`
fn rename<M: Memory>(
    m: &mut M,
    name: &[u8],
    new: &[u8],
) -> Result<Result<Option<Value>, Next>, MemFault>
    ensures goes { IfOk result (Performs (M.holds m.old) (M.holds m.new) (M.heads m.old) (M.heads m.new)
        (planned operations.Rename (values.Text name.now ∷ values.Text new.now ∷ []) (M.heads m.old))) }
    ensures cause { HasFaultCause (M.faults m.old) (M.faults m.new) result }
    ensures follows { M.follows m.old m.new }
{
    let Some(s) = m.named(name) else {
        return Ok(Err(Next::NoName));
    };
    if let Some(next) = name_refusal(m, new) {
        return Ok(Err(next));
    }
    m.unname(name);
    m.name(new, s)?;
    Ok(Ok(None))
}

// `copy (t, u)`
fn copy_named<M: Memory>(
    m: &mut M,
    name: &[u8],
    new: &[u8],
) -> Result<Result<Option<Value>, Next>, MemFault>
    ensures goes { IfOk result (Performs (M.holds m.old) (M.holds m.new) (M.heads m.old) (M.heads m.new)
        (planned operations.CopyNamed (values.Text name.now ∷ values.Text new.now ∷ []) (M.heads m.old))) }
    ensures cause { HasFaultCause (M.faults m.old) (M.faults m.new) result }
    ensures follows { M.follows m.old m.new }
{
    let Some(s) = m.named(name) else {
        return Ok(Err(Next::NoName));
    };
    if let Some(next) = name_refusal(m, new) {
        return Ok(Err(next));
    }
    if let Some(next) = room_refusal(m) {
        return Ok(Err(next));
    }
    let made = m.make(Some(s))?;
    m.name(new, made)?;
    Ok(Ok(None))
}
