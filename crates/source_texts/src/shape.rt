//! The shape of source texts.
ghost use Rattle.std.specs.Prelude.{◌≡◌, IfOk};
ghost use Rattle.eu_base.specs.Shapes.{same_shape};
ghost use Rattle.units.specs.Sources.{most_lines, source_shape};

use eu_base::{Boxed, Kind, List, NoMemory, Shape};
use std::alloc::Global;

/// The type number of a source text that is written here.
pub const SOURCE_KIND: i16 = 1004;

/// The most lines of a source text.
pub const MOST_LINES: u16 = 400;

/// The most bytes of a line that is written here. So many lines of so many bytes have room in a space.
pub const LONGEST_LINE: usize = 250;

/// The shape of a source text: how many lines, and the lines.
pub fn new_shape(alloc: Global) -> Result<Shape, NoMemory>
    ensures { IfOk result (λ shape. shape ≡ source_shape) }
{
    let mut parts = List::new(alloc);
    parts.push(Shape::Cell(Kind::Int))?;
    parts.push(Shape::Row(MOST_LINES, Boxed::new(alloc, Shape::Cell(Kind::Text))?))?;
    Ok(Shape::Struct(parts))
}

/// Whether a shape is that of a source text.
pub fn is_source(shape: &Shape) -> bool
    ensures { result ≡ same_shape source_shape shape.now }
{
    match shape {
        Shape::Cell(_) | Shape::Row(_, _) => false,
        Shape::Struct(parts) => match parts.as_slice() {
            [count, lines] => is_number(count) && are_lines(lines),
            _ => false,
        },
    }
}

// Whether it is one number.
fn is_number(shape: &Shape) -> bool
    ensures { result ≡ same_shape (Shape.Cell Kind.Int) shape.now }
{
    matches!(shape, Shape::Cell(Kind::Int))
}

// Whether it is one text.
fn is_text(shape: &Shape) -> bool
    ensures { result ≡ same_shape (Shape.Cell Kind.Text) shape.now }
{
    matches!(shape, Shape::Cell(Kind::Text))
}

// Whether it is the row of the lines.
fn are_lines(shape: &Shape) -> bool
    ensures { result ≡ same_shape (Shape.Row most_lines (Shape.Cell Kind.Text)) shape.now }
{
    match shape {
        Shape::Row(count, of) => *count == MOST_LINES && is_text(of.get()),
        Shape::Cell(_) | Shape::Struct(_) => false,
    }
}
