//! Ranks of bodies, by a walk over their calls.

use containers::{List, NoMemory};
use std::alloc::Global;

// How far the walk is with a body.
#[derive(Clone, Copy)]
struct Seen {
    // As which body, from 1 on, it was entered; 0 before.
    entered: usize,
    // Which body that has no rank yet, as far as is known the first that was entered, its calls lead to.
    lowest: usize,
    // 0 before it has one.
    rank: usize,
}

// The walk, depth first: how far it is with each body, those that are still to be looked at, those that were entered and have no
// rank yet, and those that have one, in the order in which they got it.
#[derive(Drop)]
struct Walk {
    seen: List<Seen>,
    pending: List<usize>,
    open: List<usize>,
    order: List<usize>,
    entered: usize,
    rank: usize,
}

impl Walk {
    fn note(&mut self, number: usize, seen: Seen) {
        if number < self.seen.len() {
            self.seen.set(number, seen);
        }
    }

    // Adds the bodies that a body calls and that were not entered.
    fn call(&mut self, called: &[usize]) -> Result<(), NoMemory> {
        for number in called {
            if let Some(Seen { entered: 0, .. }) = self.seen.get(*number) {
                self.pending.push(*number)?;
            }
        }
        Ok(())
    }

    fn enter(&mut self, number: usize, called: &[usize]) -> Result<(), NoMemory> {
        self.entered = self.entered.saturating_add(1);
        let seen = Seen {
            entered: self.entered,
            lowest: self.entered,
            rank: 0,
        };
        self.note(number, seen);
        self.open.push(number)?;
        self.pending.push(number)?;
        self.call(called)
    }

    // The first body without a rank to which these calls lead, or this one.
    fn lowest(&self, own: usize, called: &[usize]) -> usize {
        let mut lowest = own;
        for number in called {
            if let Some(seen) = self.seen.get(*number) {
                if seen.rank == 0 && seen.lowest < lowest {
                    lowest = seen.lowest;
                }
            }
        }
        lowest
    }

    // Gives the next rank to those that were entered from this body on: all of them lead to each other.
    fn close(&mut self, number: usize) -> Result<(), NoMemory> {
        self.rank = self.rank.saturating_add(1);
        for _ in 0..self.open.len() {
            let Some(last) = self.open.pop() else {
                return Ok(());
            };
            self.give_rank(last);
            self.order.push(last)?;
            if last == number {
                return Ok(());
            }
        }
        Ok(())
    }

    fn give_rank(&mut self, number: usize) {
        if let Some(seen) = self.seen.get(number) {
            let rank = self.rank;
            let ranked = Seen { rank, ..*seen };
            self.note(number, ranked);
        }
    }

    // Leaves a body. All that it calls were entered.
    fn leave(&mut self, number: usize, seen: Seen, called: &[usize]) -> Result<(), NoMemory> {
        let lowest = self.lowest(seen.lowest, called);
        self.note(number, Seen { lowest, ..seen });
        if lowest == seen.entered {
            return self.close(number);
        }
        Ok(())
    }

    // Enters a body, or leaves it.
    fn step(&mut self, calls: &[List<usize>], number: usize) -> Result<(), NoMemory> {
        let (Some(seen), Some(called)) = (self.seen.get(number), calls.get(number)) else {
            return Ok(());
        };
        let seen = *seen;
        let called = called.as_slice();
        if seen.entered == 0 {
            self.enter(number, called)
        } else if seen.rank == 0 {
            self.leave(number, seen, called)
        } else {
            Ok(())
        }
    }

    // Goes on from a body until all to which its calls lead are left, in at most so many steps.
    fn go(&mut self, calls: &[List<usize>], number: usize, most: usize) -> Result<(), NoMemory> {
        self.pending.push(number)?;
        for _ in 0..most {
            let Some(last) = self.pending.pop() else {
                return Ok(());
            };
            self.step(calls, last)?;
        }
        Ok(())
    }

    fn ranks(&self, alloc: Global) -> Result<List<usize>, NoMemory> {
        let mut ranks = List::new(alloc);
        for seen in self.seen.as_slice() {
            ranks.push(seen.rank)?;
        }
        Ok(ranks)
    }
}

// How many steps the walk has at most: two for each body and each call.
fn most_steps(calls: &[List<usize>]) -> usize {
    let mut most: usize = 2;
    for called in calls {
        most = most.saturating_add(called.len()).saturating_add(2);
    }
    most
}

fn fresh(alloc: Global, calls: &[List<usize>]) -> Result<Walk, NoMemory> {
    let mut seen = List::new(alloc);
    for _called in calls {
        seen.push(Seen {
            entered: 0,
            lowest: 0,
            rank: 0,
        })?;
    }
    Ok(Walk {
        seen,
        pending: List::new(alloc),
        open: List::new(alloc),
        order: List::new(alloc),
        entered: 0,
        rank: 0,
    })
}

/// Bodies in the order of their ranks, and the rank of each.
#[derive(Drop)]
pub struct Ranking {
    pub order: List<usize>,
    pub ranks: List<usize>,
}

/// Ranks by which each body calls none of a higher one, and those of one rank lead to each other. Nothing is promised of them:
/// they are looked through before they are believed.
pub fn ranked(alloc: Global, calls: &[List<usize>]) -> Result<Ranking, NoMemory> {
    let mut walk = fresh(alloc, calls)?;
    let most = most_steps(calls);
    for number in 0..calls.len() {
        walk.go(calls, number, most)?;
    }
    let ranks = walk.ranks(alloc)?;
    let Walk { order, .. } = walk;
    Ok(Ranking { order, ranks })
}
