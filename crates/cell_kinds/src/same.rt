//! Whether two shapes are the same.
ghost use Rattle.std.specs.Prelude.{◌≡◌, map};
ghost use Rattle.eu_base.specs.Shapes.{same_shape, are_parts};

use eu_base::{Kind, Shape};

/// Whether two shapes are the same tree.
#[cycle(same)]
pub fn is_same(shape: &Shape, other: &Shape) -> bool
    ensures { result ≡ same_shape shape.now other.now }
{
    match shape {
        Shape::Cell(kind) => is_cell(*kind, other),
        Shape::Row(count, of) => match other {
            Shape::Row(other_count, other_of) => {
                *count == *other_count && is_same(of.get(), other_of.get())
            }
            Shape::Cell(_) | Shape::Struct(_) => false,
        },
        Shape::Struct(parts) => match other {
            Shape::Struct(others) => are_same(parts.as_slice(), others.as_slice()),
            Shape::Cell(_) | Shape::Row(_, _) => false,
        },
    }
}

// Whether a shape is one cell of a kind.
fn is_cell(kind: Kind, other: &Shape) -> bool
    ensures { result ≡ same_shape (Shape.Cell kind) other.now }
{
    match other {
        Shape::Cell(other) => kind == *other,
        Shape::Row(_, _) | Shape::Struct(_) => false,
    }
}

// Whether these shapes are the same, one by one.
#[cycle(same)]
fn are_same(parts: &[Shape], others: &[Shape]) -> bool
    ensures { result ≡ are_parts (map same_shape parts.now) others.now }
{
    if parts.len() != others.len() {
        return false;
    }
    for (k, part) in parts.iter().enumerate() {
        if !is_same(part, &others[k]) {
            return false;
        }
    }
    true
}
