//! Whether an operand is of a kind.
ghost use Rattle.std.specs.Prelude.{◌≡◌, IfOk};
ghost use Rattle.eu_base.specs.Values.{same_kind, kind_of};
ghost use Rattle.std.specs.Prelude.{map};
ghost use Rattle.eu_base.specs.Shapes.{cell_kinds};
ghost use Rattle.state_spelling.specs.Revived as spec;

use code_form::{Operand, OperandKind};
use eu_base::{CELLS, Kind, NoMemory, Shape, Value};
use space_calls::kind_of;
use std::alloc::Global;

fn is_same(kind: Kind, other: Kind) -> bool
    ensures { result ≡ same_kind kind other }
{
    match (kind, other) {
        (Kind::Int, Kind::Int)
        | (Kind::Truth, Kind::Truth)
        | (Kind::Text, Kind::Text)
        | (Kind::Task, Kind::Task)
        | (Kind::Space, Kind::Space) => true,
        _ => false,
    }
}

fn are_of(values: &[Value], kinds: &[Kind]) -> bool
    ensures { result ≡ spec.same_kinds (map kind_of values.now) kinds.now }
{
    match values {
        [] => kinds.is_empty(),
        [value, values @ ..] => match kinds {
            [] => false,
            [kind, kinds @ ..] => is_same(kind_of(value), *kind) && are_of(values, kinds),
        },
    }
}

fn is_single(values: &[Value]) -> bool
    ensures { result ≡ spec.is_single values.now }
{
    match values {
        [_] => true,
        _ => false,
    }
}

fn has_kinds(operand: &Operand, kinds: &[Kind]) -> bool
    ensures { result ≡ spec.has_kinds operand.now kinds.now }
{
    match operand {
        Operand::Value(value) => match kinds {
            [kind] => is_same(kind_of(value), *kind),
            _ => false,
        },
        Operand::Place(_) => false,
        Operand::Aggregate(values) => {
            let values = values.as_slice();
            !is_single(values) && are_of(values, kinds)
        }
    }
}

fn is_of_shape(alloc: Global, operand: &Operand, shape: &Shape) -> Result<bool, NoMemory>
    ensures { IfOk result (λ is. is ≡ spec.has_kinds operand.now (cell_kinds shape.now)) }
{
    let kinds = shape.kinds(alloc, usize::MAX)?;
    // More than can be counted fit no memory.
    if kinds.len() == usize::MAX {
        return Err(NoMemory);
    }
    Ok(has_kinds(operand, kinds.as_slice()))
}

fn is_place(operand: &Operand) -> bool
    ensures { result ≡ spec.is_place operand.now }
{
    match operand {
        Operand::Place(place) => place.cell < CELLS,
        Operand::Value(_) | Operand::Aggregate(_) => false,
    }
}

/// Whether an operand is of a kind.
pub fn fits_kind(alloc: Global, operand: &Operand, kind: &OperandKind) -> Result<bool, NoMemory>
    ensures { IfOk result (λ fits. fits ≡ spec.fits_kind operand.now kind.now) }
{
    match kind {
        OperandKind::Value(shape) => Ok(is_of_shape(alloc, operand, shape)?),
        OperandKind::Place(_) => Ok(is_place(operand)),
    }
}
