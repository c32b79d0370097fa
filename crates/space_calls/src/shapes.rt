//! Shapes that are the same.
ghost use Rattle.std.specs.Prelude.{◌≡◌, map};
ghost use Rattle.eu_base.specs.Shapes.{same_shape, are_parts};
ghost use Rattle.eu_base.specs.Values.{same_kind};

use eu_base::{Kind, Shape};

/// Whether two shapes are the same.
#[cycle(same)]
pub(crate) fn is_same(shape: &Shape, other: &Shape) -> bool
    ensures { result ≡ same_shape shape.now other.now }
{
    match (shape, other) {
        (Shape::Cell(kind), Shape::Cell(behind)) => is_same_kind(*kind, *behind),
        (Shape::Row(count, of), Shape::Row(many, behind)) => {
            *count == *many && is_same(of.get(), behind.get())
        }
        (Shape::Struct(parts), Shape::Struct(others)) => {
            are_same(parts.as_slice(), others.as_slice())
        }
        _ => false,
    }
}

#[cycle(same)]
fn are_same(parts: &[Shape], others: &[Shape]) -> bool
    ensures { result ≡ are_parts (map same_shape parts.now) others.now }
{
    let mut rest = others;
    for part in parts {
        let [other, behind @ ..] = rest else {
            return false;
        };
        if !is_same(part, other) {
            return false;
        }
        rest = behind;
    }
    rest.is_empty()
}

fn is_same_kind(kind: Kind, other: Kind) -> bool
    ensures { result ≡ same_kind kind other }
{
    match (kind, other) {
        (Kind::Int, Kind::Int)
        | (Kind::Truth, Kind::Truth)
        | (Kind::Text, Kind::Text)
        | (Kind::Task, Kind::Task)
        | (Kind::Space, Kind::Space) => true,
        _ => false,
    }
}
