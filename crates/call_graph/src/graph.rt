//! Which refinements bodies call, and whether a chain of calls leads from one to another.

ghost use Rattle.std.specs.Prelude.{◌≡◌, length, IfOk};
ghost use Rattle.call_graph.specs.Chains as chains;
ghost use Rattle.call_graph.specs.walks.Ranks as spec;

use crate::apart::is_apart;
use crate::led::is_led;
use crate::marks::leads;
use crate::ranks::{Ranking, ranked};
use containers::{List, NoMemory};
use std::alloc::Global;
use std::marker::Model;

/// The refinements that each body calls, by their numbers, which contracts see as lists. Each body has a rank, and calls
/// none of a higher one, so that mostly two ranks tell that no chain leads from one to another. The order is that of the ranks.
#[derive(Drop)]
pub struct CallGraph {
    calls: List<List<usize>>,
    ranks: List<usize>,
    order: List<usize>,
}

impl Model for CallGraph {
    ghost use Rattle.std.specs.Prelude.{◌≡◌, true, List, ℕ};
    ghost use Rattle.std.specs.Coded.{coded_list, coded_ℕ};

    ghost Value = { List (List ℕ) };

    ghost coded = { coded_list (coded_list coded_ℕ) };

    ghost use Rattle.call_graph.specs.walks.Ranks.{is_ranked};

    ghost view = { λ graph. graph.calls };

    ghost invariant = { λ graph. is_ranked graph.ranks graph.calls ≡ true };
}

// The rank of a body; of one that has none it is 0.
fn rank_of(ranks: &[usize], number: usize) -> usize
    ensures { result ≡ spec.rank_of ranks.now number }
{
    match ranks.get(number) {
        None => 0,
        Some(rank) => *rank,
    }
}

fn none_above(ranks: &[usize], rank: usize, called: &[usize]) -> bool
    ensures { result ≡ spec.none_above ranks.now rank called.now }
{
    for number in called {
        if rank < rank_of(ranks, *number) {
            return false;
        }
    }
    true
}

// Whether no body calls one of a higher rank.
fn is_ranked(ranks: &[usize], calls: &[List<usize>]) -> bool
    ensures { result ≡ spec.is_ranked ranks.now calls.now }
{
    for (number, called) in calls.iter().enumerate() {
        if !none_above(ranks, rank_of(ranks, number), called.as_slice()) {
            return false;
        }
    }
    true
}

impl CallGraph {
    /// The calls of bodies, in the order of their numbers.
    pub fn of(alloc: Global, calls: List<List<usize>>) -> Result<CallGraph, NoMemory>
        ensures { IfOk result (λ graph. graph ≡ calls) }
    {
        let Ranking { order, ranks } = ranked(alloc, calls.as_slice())?;
        if is_ranked(ranks.as_slice(), calls.as_slice()) {
            return Ok(CallGraph {
                calls,
                ranks,
                order,
            });
        }
        Ok(CallGraph {
            calls,
            ranks: List::new(alloc),
            order,
        })
    }

    /// The numbers of bodies, those that a body calls before it, as far as none of them leads back to it. Nothing is promised
    /// of the order.
    pub fn callees_first(&self) -> &[usize] {
        self.order.as_slice()
    }

    /// Whether a chain of calls leads from one body to another.
    pub fn leads(&self, alloc: Global, from: usize, to: usize) -> Result<bool, NoMemory>
        ensures { IfOk result (λ leads. leads ≡ chains.leads (length self.now) self.now from to) }
    {
        let ranks = self.ranks.as_slice();
        if rank_of(ranks, from) < rank_of(ranks, to) {
            return Ok(false);
        }
        let calls = self.calls.as_slice();
        if is_led(alloc, calls, from, to)? {
            return Ok(true);
        }
        if is_apart(alloc, calls, from, to)? {
            return Ok(false);
        }
        leads(alloc, calls, from, to)
    }
}
