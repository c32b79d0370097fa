//! Whether it is seen at once that no chain of calls leads from one refinement to another.

ghost use Rattle.std.specs.Prelude.{◌≡◌, true, false, length, IfOk};
ghost use Rattle.call_graph.specs.Chains as chains;
ghost use Rattle.call_graph.specs.walks.Apart as spec;

use containers::{List, NoMemory};
use std::alloc::Global;

// Marks a number, whose calls are then to be followed. One behind the marks calls nothing.
fn mark(marks: &mut List<bool>, pending: &mut List<usize>, number: usize) -> Result<(), NoMemory> {
    match marks.get(number) {
        Some(false) => {
            marks.set(number, true);
            pending.push(number)
        }
        _ => Ok(()),
    }
}

// Marks those to which chains of calls lead from a number. Nothing is promised of the marks: they are looked through before
// they are believed.
fn reached(alloc: Global, calls: &[List<usize>], from: usize) -> Result<List<bool>, NoMemory> {
    let mut marks = List::new(alloc);
    for _ in 0..calls.len() {
        marks.push(false)?;
    }
    let mut pending = List::new(alloc);
    mark(&mut marks, &mut pending, from)?;
    for _ in 0..calls.len() {
        let Some(number) = pending.pop() else {
            return Ok(marks);
        };
        follow(&mut marks, &mut pending, calls, number)?;
    }
    Ok(marks)
}

// Marks those that a number calls.
fn follow(
    marks: &mut List<bool>,
    pending: &mut List<usize>,
    calls: &[List<usize>],
    number: usize,
) -> Result<(), NoMemory> {
    let Some(called) = calls.get(number) else {
        return Ok(());
    };
    for next in called.as_slice() {
        mark(marks, pending, *next)?;
    }
    Ok(())
}

fn is_marked(marks: &[bool], number: usize) -> bool
    ensures { result ≡ spec.is_marked marks.now number }
{
    match marks.get(number) {
        None => true,
        Some(mark) => *mark,
    }
}

fn is_safe(marks: &[bool], number: usize, to: usize) -> bool
    ensures { result ≡ spec.is_safe marks.now to number }
{
    number != to && is_marked(marks, number)
}

fn all_safe(marks: &[bool], called: &[usize], to: usize) -> bool
    ensures { result ≡ spec.all_safe marks.now to called.now }
{
    for number in called {
        if !is_safe(marks, *number, to) {
            return false;
        }
    }
    true
}

// Whether those that are marked call only others that are, and not the one that is looked for.
fn is_closed(marks: &[bool], calls: &[List<usize>], to: usize) -> bool
    ensures { result ≡ spec.is_closed marks.now to calls.now }
{
    for (number, called) in calls.iter().enumerate() {
        if is_marked(marks, number) && !all_safe(marks, called.as_slice(), to) {
            return false;
        }
    }
    true
}

/// Whether no chain of calls leads from one refinement to the other. `false` tells nothing.
pub fn is_apart(
    alloc: Global,
    calls: &[List<usize>],
    from: usize,
    to: usize,
) -> Result<bool, NoMemory>
    ensures { IfOk result (λ apart. apart ≡ true → chains.leads (length calls.now) calls.now from to ≡ false) }
{
    let marks = reached(alloc, calls, from)?;
    let marks = marks.as_slice();
    if !is_safe(marks, from, to) {
        return Ok(false);
    }
    Ok(is_closed(marks, calls, to))
}
