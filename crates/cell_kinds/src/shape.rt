//! The cells of a shape, counted.
ghost use Rattle.std.specs.Prelude.{◌*◌, ◌<◌, ◌^◌, SomeIff, length};
ghost use Rattle.eu_base.specs.Shapes.{cell_kinds};
ghost use Rattle.cell_kinds.specs.Kinds.{all_kinds};

use eu_base::Shape;

/// The number of a shape's cells; `None` exactly where it does not fit. It takes the time of going over the shape, however many
/// cells a row has.
#[cycle(cells)]
#[tactic(auto, using(crate::proofs::Counts::row_counted))]
pub fn count(shape: &Shape) -> Option<usize>
    ensures { SomeIff result (length (cell_kinds shape.now) < 2 ^ 64) (length (cell_kinds shape.now)) }
{
    match shape {
        Shape::Cell(_) => Some(1),
        Shape::Row(items, of) => count_row(*items, of.get()),
        Shape::Struct(parts) => count_all(parts.as_slice()),
    }
}

#[cycle(cells)]
fn count_row(items: u16, of: &Shape) -> Option<usize>
    ensures { SomeIff result (items * length (cell_kinds of.now) < 2 ^ 64) (items * length (cell_kinds of.now)) }
{
    if items == 0 {
        return Some(0);
    }
    usize::from(items).checked_mul(count(of)?)
}

#[cycle(cells)]
#[tactic(auto, using(crate::proofs::Counts::all_counted))]
fn count_all(parts: &[Shape]) -> Option<usize>
    ensures { SomeIff result (length (all_kinds parts.now) < 2 ^ 64) (length (all_kinds parts.now)) }
{
    let mut total = 0usize;
    for part in parts {
        total = total.checked_add(count(part)?)?;
    }
    Some(total)
}
