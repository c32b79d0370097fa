//! Rows of steps over the memory of a task, with what they tell.

use crate::out::{put, put_digit, tell};
use crate::task::Task;
use eu_base::{Boxed, Bytes, Kind, List, Shape};
use std::alloc::Global;
use task_numbers::SpaceNo;

/// Steps, and what they tell: the answers of the steps; the directory; the live spaces, with `k` where they have a type and with the
/// kinds of their cells; how many live, and the last number; `r` and `p` where the command and the packets have pages; and how many
/// pages are left at the end. `m` makes a space. The steps on one space end with its number: `y` makes a copy, `k` sets the type, `b` fills
/// it, `f` forgets it, `t` takes it and gives it a new number, and `n` with a letter behind it names it so. `ua` takes the name `a` out, `c`
/// clears the command's cells, `i` lets a son inherit, `x` goes over to the other of the two, and `s` lets all pages settle, so that they are loaded
/// at their next use. What begins with `r`, `p` or the
/// number of a data space is a step over cells, and what begins with `l` one of those on spaces, through the memory as it is lent.
pub const STEPS: &str = "\
m m na1 nb2 nc1 f1 => 12 b2 : 2 1 of 2 left 0
m na1 ua => 1 : 1 1 of 1 left 0
m na1 nb1 t1 => 12 : 2 1 of 2 left 0
m na1 f2 => 1 a1 : 1 1 of 1 left 0
m f1 m nb2 nb2 => 12 b2 : 2 1 of 2 left 0
m m m na3 f2 nb2 => 123 a3 : 1 3 2 of 3 left 0
m na1 na1 nb1 ua => 1 b1 : 1 1 of 1 left 0
f1 ua t1 => - : 0 of 0 left 0
m k1 b1 y1 => 1+2 : 1kbbbb 2kbbbb 2 of 2 left 0
m k1 b1 y1 b2 f1 t2 => 1+2-3 : 3kbbbb 1 of 3 left 0
p3=77 p4<a3 r5=1 c p3?77 p4>a3 p0#4095 r5?0 => +++++++ : 0 of 0 p left 0
p3=5 i x p3?5 x p3=6 x p3=8 p4=7 x p3?6 p4?0 x p3?8 p4?7 => ++++++++++ : 0 of 0 p left 0
m i x m => 1+2 : 2 1 of 2 left 0
r7=65535 rz<a3 rz>a3 rz<b100 rz>b100 rz<_0 rz>_0 rz?0 r7?65535 => +++++++++ : 0 of 0 r left 0
r0<c114660 r0>c114660 r1/e29 r1<d28 r1>d28 r0#0 r2/x1 r0>c114660 r0<_0 r0>_0 r2<e29 r2>e29 => ++++++++++++ : 0 of 0 r left 0
r0<c114660 r5=1 p5=2 p0<p29 p0#4094 r0#1 p0>p29 r5?1 p5?2 r0>c114660 => ++++++++++ : 0 of 0 r p left 0
lm lb1 10=1 ly1 20?1 10=0 20?1 10?0 lna2 lf1 => 1++2+++++ a2 : 2bbbb 1 of 2 left 0
lm lk1 lna1 lnb1 lua ly1 lnc2 lnc1 lb1 lb1 => 1+++2+-+- b1 c2 : 1kbbbb 2k 2 of 2 left 0
ly1 lk1 lb1 lf1 lua lna1 => ---- : 0 of 0 left 0
p3=5 pz=7 i s p3=6 x pz=8 p3?5 pz?8 x p3?6 pz?7 => +++++++++ : 0 of 0 p left 0
lm lk1 lK1 lC1 r9?2 lB1 r8?1 lS1 lS2 lF2 => 1+++++++-+ : 1kbbbb 1 of 2 r left 0
";

// A row of four structs of one truth value; another shape where memory is refused.
fn shape(alloc: Global) -> Shape {
    let mut fields = List::new(alloc);
    let _pushed = fields.push(Shape::Cell(Kind::Truth)).is_ok();
    match Boxed::new(alloc, Shape::Struct(fields)) {
        Ok(fields) => Shape::Row(4, fields),
        Err(_) => Shape::Cell(Kind::Truth),
    }
}

// The space with a digit for its number.
fn space(digit: u8) -> SpaceNo {
    SpaceNo(u32::from(digit.wrapping_sub(b'0')))
}

fn put_made(out: &mut Bytes, made: Option<SpaceNo>) {
    match made {
        Some(s) => put_digit(out, s.0),
        None => tell(out, false),
    }
}

fn go(alloc: Global, out: &mut Bytes, task: &mut Task, step: &[u8]) {
    match step {
        [b'm'] => put_made(out, task.make(None)),
        [b'y', s] => put_made(out, task.make(Some(space(*s)))),
        [b't', s] => put_made(out, task.renumber(space(*s))),
        [b'k', s] => task.set_kind(space(*s), 103),
        [b'b', s] => tell(out, task.fill(space(*s), &shape(alloc))),
        [b'f', s] => task.forget(space(*s)),
        [b'n', name, s] => task.name(&[*name], space(*s)),
        [b'u', name] => task.unname(&[*name]),
        [b'c'] => task.clear_run(),
        [b'i'] => tell(out, task.inherit()),
        [b'x'] => task.turn(),
        [b's'] => task.settle(),
        [b'l', step @ ..] => task.go_over(alloc, out, &shape(alloc), step),
        _ => task.go(alloc, out, step),
    }
}

fn put_names(out: &mut Bytes, task: &Task) {
    for k in 0..16u32 {
        if let Some((name, s)) = task.memory.entry(k) {
            put(out, b" ");
            put(out, name);
            put_digit(out, s.0);
        }
    }
}

// The kinds of a shape's cells: all are truth values.
fn put_kinds(alloc: Global, out: &mut Bytes, shape: &Shape) {
    if let Ok(kinds) = shape.kinds(alloc, 16_384) {
        for kind in kinds.as_slice() {
            put(out, if *kind == Kind::Truth { b"b" } else { b"?" });
        }
    }
}

fn put_space(alloc: Global, out: &mut Bytes, task: &Task, s: SpaceNo) {
    if task.memory.live(s) {
        put(
            out,
            if task.memory.kind(s) == 103 {
                b"k"
            } else {
                b""
            },
        );
        if let Some(shape) = task.memory.has_shape(s) {
            put_kinds(alloc, out, shape);
        }
    }
}

fn put_spaces(alloc: Global, out: &mut Bytes, task: &Task) {
    for k in 0..16u32 {
        if let Some((s, _)) = task.memory.space(k) {
            put(out, b" ");
            put_digit(out, s.0);
            put_space(alloc, out, task, s);
        }
    }
}

// What is there.
fn put_all(alloc: Global, out: &mut Bytes, task: &Task) {
    put_names(out, task);
    put(out, b" :");
    put_spaces(alloc, out, task);
    put(out, b" ");
    put_digit(out, task.memory.count());
    put(out, b" of ");
    put_digit(out, task.memory.last_number());
    let run = task.memory.run_space().root().is_some();
    put(out, if run { b" r" } else { b"" });
    let packets = task.memory.packet_space().root().is_some();
    put(out, if packets { b" p" } else { b"" });
}

/// Does steps, with a blank between two.
pub fn play(alloc: Global, out: &mut Bytes, task: &mut Task, steps: &str) {
    for step in steps.split(' ') {
        go(alloc, out, task, step.as_bytes());
    }
}

// What a row tells.
fn put_row(alloc: Global, out: &mut Bytes, steps: &str) {
    let Ok(made) = Task::new(alloc) else { return };
    let mut task = made;
    play(alloc, out, &mut task, steps);
    put_all(alloc, out, &task);
    put(out, b" left ");
    put_digit(out, task.ended());
}

/// Whether each row tells what stands behind it: with what the rows tell the table is made again.
pub fn steps_are_right(alloc: Global) -> bool {
    let mut out = Bytes::new(alloc);
    for row in STEPS.lines() {
        let (steps, _) = row.split_once(" => ").unwrap_or((row, ""));
        put(&mut out, steps.as_bytes());
        put(&mut out, b" => ");
        put_row(alloc, &mut out, steps);
        put(&mut out, b"\n");
    }
    out.as_slice() == STEPS.as_bytes()
}
