//! Whether a walk finds a chain of calls from one refinement to another.

ghost use Rattle.std.specs.Prelude.{◌≡◌, ◌==◌, [], true, length, slice_index_or, IfOk};
ghost use Rattle.std.specs.List.{list_any};
ghost use Rattle.call_graph.specs.Chains as chains;

use containers::{List, NoMemory};
use std::alloc::Global;

// From which body each was reached; the number behind all bodies where it was not.
#[derive(Drop)]
struct Trail {
    callers: List<usize>,
    pending: List<usize>,
}

impl Trail {
    // Notes those that a body calls, as far as they were not reached before.
    fn follow(&mut self, none: usize, number: usize, called: &[usize]) -> Result<(), NoMemory> {
        for next in called {
            if let Some(caller) = self.callers.get(*next) {
                if *caller == none {
                    self.callers.set(*next, number);
                    self.pending.push(*next)?;
                }
            }
        }
        Ok(())
    }

    fn is_reached(&self, none: usize, number: usize) -> bool {
        match self.callers.get(number) {
            None => true,
            Some(caller) => *caller != none,
        }
    }
}

fn fresh(alloc: Global, none: usize) -> Result<Trail, NoMemory> {
    let mut callers = List::new(alloc);
    for _ in 0..none {
        callers.push(none)?;
    }
    Ok(Trail {
        callers,
        pending: List::new(alloc),
    })
}

// Follows calls until the one that is looked for is reached. Nothing is promised of the trail: it is gone back before it is
// believed.
fn callers(
    alloc: Global,
    calls: &[List<usize>],
    from: usize,
    to: usize,
) -> Result<List<usize>, NoMemory> {
    let none = calls.len();
    let mut trail = fresh(alloc, none)?;
    let mut number = from;
    for _ in 0..none {
        if trail.is_reached(none, to) {
            break;
        }
        if let Some(called) = calls.get(number) {
            trail.follow(none, number, called.as_slice())?;
        }
        let Some(next) = trail.pending.pop() else {
            break;
        };
        number = next;
    }
    let Trail { callers, .. } = trail;
    Ok(callers)
}

fn is_among(called: &[usize], number: usize) -> bool
    ensures { result ≡ list_any (λ n. n == number) called.now }
{
    for next in called {
        if *next == number {
            return true;
        }
    }
    false
}

// Whether a body calls another.
fn does_call(calls: &[List<usize>], caller: usize, number: usize) -> bool
    ensures { result ≡ list_any (λ n. n == number) (slice_index_or calls.now caller []) }
{
    match calls.get(caller) {
        None => false,
        Some(called) => is_among(called.as_slice(), number),
    }
}

// Goes a trail back, from the end of the chain.
fn goes_back(calls: &[List<usize>], callers: &[usize], from: usize, to: usize) -> bool
    ensures { result ≡ true → chains.leads (length calls.now) calls.now from to ≡ true }
{
    let mut number = to;
    for _turn in 0..calls.len() {
        if number == from {
            return true;
        }
        let Some(caller) = callers.get(number) else {
            return false;
        };
        if !does_call(calls, *caller, number) {
            return false;
        }
        number = *caller;
    }
    number == from
}

/// Whether a chain of calls that is found at once leads from one refinement to the other. `false` tells nothing.
pub fn is_led(
    alloc: Global,
    calls: &[List<usize>],
    from: usize,
    to: usize,
) -> Result<bool, NoMemory>
    ensures { IfOk result (λ led. led ≡ true → chains.leads (length calls.now) calls.now from to ≡ true) }
{
    let callers = callers(alloc, calls, from, to)?;
    Ok(goes_back(calls, callers.as_slice(), from, to))
}
