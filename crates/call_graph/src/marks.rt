//! Marks of those from which a chain of calls leads to a refinement.

ghost use Rattle.std.specs.Prelude.{◌≡◌, ◌||◌, IfOk, length};
ghost use Rattle.call_graph.specs.Chains as chains;
ghost use Rattle.call_graph.specs.walks.Marks as spec;

use containers::{List, NoMemory};
use std::alloc::Global;

// A number behind the marks is marked where it is the one that is looked for.
fn is_marked(marks: &[bool], number: usize, to: usize) -> bool
    ensures { result ≡ spec.mark_at marks.now to number }
{
    match marks.get(number) {
        None => number == to,
        Some(mark) => *mark,
    }
}

fn any_marked(marks: &[bool], called: &[usize], to: usize) -> bool
    ensures { result ≡ spec.any_marked marks.now to called.now }
{
    for number in called {
        if is_marked(marks, *number, to) {
            return true;
        }
    }
    false
}

// The marks of those that call one that is marked.
fn next_marks(
    alloc: Global,
    calls: &[List<usize>],
    marks: &[bool],
    to: usize,
) -> Result<List<bool>, NoMemory>
    ensures { IfOk result (λ next. next ≡ spec.next_marks marks.now to calls.now) }
{
    let mut next = List::new(alloc);
    for (number, called) in calls.iter().enumerate() {
        next.push(number == to || any_marked(marks, called.as_slice(), to))?;
    }
    Ok(next)
}

fn first_marks(alloc: Global, count: usize, to: usize) -> Result<List<bool>, NoMemory>
    ensures { IfOk result (λ marks. marks ≡ spec.first_marks count to) }
{
    let mut marks = List::new(alloc);
    for number in 0..count {
        marks.push(number == to)?;
    }
    Ok(marks)
}

/// Whether a chain leads to a refinement. Those from which one does are marked, one call further in each turn, until nothing changes.
pub fn leads(alloc: Global, calls: &[List<usize>], from: usize, to: usize) -> Result<bool, NoMemory>
    ensures { IfOk result (λ back. back ≡ chains.leads (length calls.now) calls.now from to) }
{
    let mut marks = first_marks(alloc, calls.len(), to)?;
    for _turn in 0..calls.len() {
        let next = next_marks(alloc, calls, marks.as_slice(), to)?;
        if next.as_slice() == marks.as_slice() {
            return Ok(is_marked(marks.as_slice(), from, to));
        }
        marks = next;
    }
    Ok(is_marked(marks.as_slice(), from, to))
}
