//! Rows of steps of which one fails, at each load in turn.

use crate::memories::play;
use crate::task::Task;
use eu_base::Bytes;
use std::alloc::Global;

/// Steps, a step at which the load fails, and what is there before and after it, whether it failed or not. All pages settle before the step,
/// and one page of a disk is kept. The steps are those of `memories`.
pub const STEPS: &str = "\
r3=5 rz=7 => r3?5 => rz?7 r3?5
r3=5 rz=7 p3=6 => r3=5 => rz?7 r3?5 p3?6
p3=5 pz=7 r3=6 => pz=7 => p3?5 pz?7 r3?6
p0<a3 pz<b60 => p0>a3 => pz>b60 p0>a3 p0#4092
p0<a600 pz<b60 => pz>b60 => p0>a600 pz>b60
p0<a600 pz<b60 => p0#4071 => p0>a600 pz>b60 p0#4071
r0<a3 p0<b90 pz<c7 => r0<a3 => p0>b90 pz>c7
r0<a600 rz<b60 p3=5 => r0<a600 => rz>b60 p3?5
m 13=4 1z=8 r0=9 => 13?4 => 1z?8 13?4 r0?9
m 13=4 y1 1z=8 => 23=4 => 13?4 23?4 1z?8 2z?0
m 13=4 1z=8 y1 y2 => 3z=8 => 13?4 23?4 33?4 1z?8 2z?8 3z?8
m 13=4 1z=8 m 23=5 => lb1 => 1z?8 23?5
m b1 r8=9 rz=3 => lB1 => rz?3
m 13=4 r9=0 rz=3 => lC1 => 13?4 rz?3
p3=5 pz=7 i x => p3=5 => x p3?5 pz?7 x p3?5 pz?7
p3=5 pz=7 i => pz=7 => p3?5 x p3?5 pz?7 x
";

// What a step does where the load of that number fails.
enum Met {
    /// It went as if there were none to fail, since it has fewer loads.
    Done,
    /// It failed where the load failed, and nothing was lost.
    Failed,
    Wrong,
}

fn parts(row: &str) -> (&str, &str, &str) {
    let (before, rest) = row.split_once(" => ").unwrap_or((row, ""));
    let (step, after) = rest.split_once(" => ").unwrap_or((rest, ""));
    (before, step, after)
}

// Whether steps tell that all is right.
fn are_right(alloc: Global, task: &mut Task, steps: &str) -> bool {
    let mut out = Bytes::new(alloc);
    play(alloc, &mut out, task, steps);
    !out.as_slice().is_empty() && out.as_slice().iter().all(|told| *told == b'+')
}

fn played(alloc: Global, task: &mut Task, row: &str, load: u32) -> Met {
    let (before, step, after) = parts(row);
    let mut made = Bytes::new(alloc);
    play(alloc, &mut made, task, before);
    let first = are_right(alloc, task, after);
    task.settle();
    task.blocks.fail_at(load);
    let mut told = Bytes::new(alloc);
    play(alloc, &mut told, task, step);
    let failed = task.blocks.faults() == 1;
    task.blocks.fail_at(0);
    let last = are_right(alloc, task, after);
    let right = if failed { b"!" } else { b"+" };
    if !first || !last || told.as_slice() != right.as_slice() {
        Met::Wrong
    } else if failed {
        Met::Failed
    } else {
        Met::Done
    }
}

fn at_load(alloc: Global, row: &str, load: u32) -> Met {
    match Task::new(alloc) {
        Ok(mut task) => played(alloc, &mut task, row, load),
        Err(_) => Met::Wrong,
    }
}

// Whether a step fails at its first load, and at each of the others, of which there are few.
fn is_right(alloc: Global, row: &str) -> bool {
    for load in 1..100u32 {
        match at_load(alloc, row, load) {
            Met::Failed => {}
            Met::Done => return load > 1,
            Met::Wrong => return false,
        }
    }
    false
}

/// Whether each row goes so.
pub fn nothing_is_lost(alloc: Global) -> bool {
    for row in STEPS.lines() {
        if !is_right(alloc, row) {
            return false;
        }
    }
    true
}
