//! Lines that are written as a source text, which is read again.
ghost use Rattle.std.specs.Prelude.{◌≤◌, [], ◌∷◌, length};
ghost use Rattle.page_table.specs.Frames.{Stands};

use crate::out::{put, tell};
use data_space::DataSpace;
use eu_base::{Bytes, Kind, Shape};
use page_pool::{Nowhere, Pool};
use source_texts::{is_source, read_source, write_source};
use std::alloc::Global;

// Where memory is refused, the line is empty, and the scene goes wrong.
fn line(alloc: Global, bytes: &[u8]) -> Bytes
    requires { length bytes.now ≤ 250 }
    ensures { length result ≤ 250 }
{
    Bytes::from(alloc, bytes).unwrap_or(Bytes::new(alloc))
}

// Tells whether a space has the shape of a source text, and its text.
fn put_space(alloc: Global, out: &mut Bytes, pool: &mut Pool, space: &DataSpace)
    requires agree { Stands pool.old (space.now.root ∷ []) 0 }
    ensures agree { Stands pool.new (space.now.root ∷ []) 0 }
{
    if let Some(shape) = space.shape() {
        tell(out, is_source(shape));
    }
    match read_source(alloc, pool, space, &mut Nowhere) {
        Ok(Some(text)) => put(out, text.as_slice()),
        Ok(None) => put(out, b"none"),
        Err(_) => put(out, b"refused"),
    }
}

// Lines are written, and read; the space has no text where it gets another shape.
fn put_lines(alloc: Global, out: &mut Bytes) {
    let lines = [
        line(alloc, b"ab"),
        line(alloc, b""),
        line(alloc, &[b'x'; 250]),
        line(alloc, b"c"),
    ];
    let Ok(made) = Pool::new(alloc) else { return };
    let mut pool = made;
    if let Ok(mut space) = write_source(alloc, &mut pool, &lines, &mut Nowhere) {
        tell(out, space.kind() == 1004);
        put_space(alloc, out, &mut pool, &space);
        space.set_shape(Shape::Cell(Kind::Text));
        put_space(alloc, out, &mut pool, &space);
    }
}

pub fn lines_come_back(alloc: Global) -> bool {
    let mut told = Bytes::new(alloc);
    put(&mut told, b"++ab\n\n");
    put(&mut told, &[b'x'; 250]);
    put(&mut told, b"\nc-none");
    let mut out = Bytes::new(alloc);
    put_lines(alloc, &mut out);
    out.as_slice() == told.as_slice()
}
