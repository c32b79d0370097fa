//! Marks on the bodies that a command reaches.

ghost use Rattle.std.specs.Prelude.{◌≡◌, ◌++◌, true, false, length, replicate, IfOk};
ghost use Rattle.code_gen.specs.walks.Marks as spec;

use crate::names::{Found, in_actions, in_content};
use elan_types::{Body, Core};
use eu_base::{List, NoMemory, Shared};
use std::alloc::Global;

/// Whether a body is marked. A number behind the marks counts as marked.
pub fn is_marked(marks: &[bool], number: usize) -> bool
    ensures { result ≡ spec.is_marked marks.now number }
{
    match marks.get(number) {
        None => true,
        Some(mark) => *mark,
    }
}

fn unmarked(alloc: Global, count: usize) -> Result<List<bool>, NoMemory>
    ensures { IfOk result (λ marks. marks ≡ replicate count false) }
{
    let mut marks = List::new(alloc);
    for _ in 0..count {
        marks.push(false)?;
    }
    Ok(marks)
}

// The bodies that a command names itself.
fn first_names(alloc: Global, core: &Core) -> Result<List<usize>, NoMemory>
    ensures { IfOk result (λ names. names ≡ spec.first_names core.now) }
{
    let found = in_actions(Found::of(List::new(alloc)), core.units.as_slice());
    let found = match core.start {
        None => found,
        Some(number) => found.with(number),
    };
    found.met()
}

// Marks a body that was not looked at, and adds what it names to those that wait.
fn enter(
    marks: &mut List<bool>,
    pending: List<usize>,
    bodies: &[Shared<Body>],
    number: usize,
) -> Result<List<usize>, NoMemory>
    ensures marks { marks.new ≡ spec.marks_after marks.old number }
    ensures pending { IfOk result (λ waiting. waiting ≡ pending ++ spec.names_after marks.old bodies.now number) }
{
    if is_marked(marks.as_slice(), number) {
        return Ok(pending);
    }
    marks.set(number, true);
    match bodies.get(number) {
        None => Ok(pending),
        Some(body) => in_content(Found::of(pending), &body.get().content).met(),
    }
}

/// A mark for each body that a command reaches. Each is looked at once.
pub fn marks(alloc: Global, core: &Core) -> Result<List<bool>, NoMemory>
    ensures { IfOk result (spec.AreMarks core.now) }
{
    let bodies = core.bodies.as_slice();
    let mut marks = unmarked(alloc, bodies.len())?;
    let mut pending = first_names(alloc, core)?;
    while let Some(number) = pending.pop() {
        pending = enter(&mut marks, pending, bodies, number)?;
    }
    Ok(marks)
}
