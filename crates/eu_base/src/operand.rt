//! Operands of operations and requests, by their places from left to right. One that is missing, or of another kind, counts as blank.
ghost use Rattle.std.specs.Prelude.{◌≡◌};
ghost use Rattle.eu_base.specs.Operations.{number_at, text_at, space_at};

use crate::value::Value;
use task_numbers::SpaceNo;

/// The number at a place; 0 where none is there.
pub fn number_at(operands: &[Value], place: usize) -> i16
    ensures { result ≡ number_at operands.now place }
{
    match operands.get(place) {
        Some(value) => value.number(),
        None => 0,
    }
}

/// The text at a place; "" where none is there.
pub fn text_at(operands: &[Value], place: usize) -> &[u8]
    ensures { result.now ≡ text_at operands.now place }
{
    match operands.get(place) {
        Some(value) => value.text(),
        None => &[],
    }
}

/// The data space at a place; none where the nil space or nothing is there.
pub fn space_at(operands: &[Value], place: usize) -> Option<SpaceNo>
    ensures { result ≡ space_at operands.now place }
{
    match operands.get(place) {
        Some(value) => value.space(),
        None => None,
    }
}
