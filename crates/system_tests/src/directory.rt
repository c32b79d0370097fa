//! Names of data spaces.
use crate::notes::{put, put_task};
use containers::Bytes;
use space_names::Names;
use std::alloc::Global;
use task_numbers::{SpaceNo, TaskNo};

fn put_space(out: &mut Bytes, space: Option<SpaceNo>) {
    match space {
        Some(space) => put_task(out, TaskNo(space.0)),
        None => put(out, b"-"),
    }
}

// Enters a name, where it is free.
fn enter(alloc: Global, out: &mut Bytes, names: &mut Names, name: &[u8], space: u32) {
    if names.get(name).is_none() {
        if let Ok(name) = Bytes::from(alloc, name) {
            let entered = names.put(name, SpaceNo(space)).is_ok();
            put(out, if entered { b"e" } else { b"?" });
        }
    }
}

fn put_entry(out: &mut Bytes, names: &Names, place: u32) {
    match names.entry(place) {
        Some((name, space)) => {
            put(out, name);
            put_space(out, Some(space));
        }
        None => put(out, b"-"),
    }
}

/// Names stand in order of entry: three are entered, and the second is taken out.
pub fn in_order(alloc: Global, out: &mut Bytes) {
    let mut names = Names::new(alloc);
    enter(alloc, out, &mut names, b"b", 4);
    enter(alloc, out, &mut names, b"a", 2);
    enter(alloc, out, &mut names, b"c", 9);
    put_space(out, names.take(b"a"));
    put_space(out, names.take(b"a"));
    put_space(out, names.get(b"a"));
    put_space(out, names.get(b"c"));
    put_entry(out, &names, 0);
    put_entry(out, &names, 1);
    put_entry(out, &names, 2);
}
