//! Assignments.

ghost use Rattle.elan_rules.specs.Rules as spec;
ghost use Rattle.std.specs.Prelude.{[], ◌∷◌, ◌&&◌, is_none};
ghost use Rattle.elan_names.specs.declared.heading.Sort.TheVariants as sorts;
ghost use Rattle.elan_scope.specs.Answer.{Is};
ghost use Rattle.elan_meant.specs.Operands.{becomes, chosen, is_unclear};
ghost use Rattle.elan_rules.specs.Units.{binding_if};
ghost use Rattle.elan_meant.specs.Verdict.{told, unless, Tells};
ghost use Rattle.elan_names.specs.walks.Seen as seen;

use crate::list::alone;
use crate::store::{assigned, binds, bound};
use elan_meant::meant::Meant;
use elan_meant::operands::{chosen, is_unclear};
use elan_meant::row::Judged;
use elan_meant::together::{listed, two_of};
use elan_names::callable::Callable;
use elan_names::heading::Sort;
use elan_scope::scope::Scope;
use elan_scope::trouble::Trouble;
use eu_base::List;
use std::alloc::Global;
use value_rules::call::called;

// A call that stands alone.
#[tactic(auto, using(elan_meant::proofs::Told::fails_on))]
fn called_alone(alloc: Global, at: u32, callable: Callable<'_>, operands: List<Meant>) -> Judged
    ensures { Tells result (spec.called_alone at (seen.callable callable.entry) operands) }
{
    match called(alloc, at, callable, operands) {
        Err(trouble) => Err(trouble),
        Ok(meant) => alone(alloc, meant),
    }
}

// An own operator `:=` for these operands is called; it hangs on one that may take them.
fn assignment_as(alloc: Global, at: u32, scope: &Scope, left: Meant, right: Meant) -> Judged
    ensures { Is result (unless (is_unclear scope.now sorts.Operator becomes (left ∷ right ∷ []))
        (told (spec.assignment_as at left right (chosen scope.now sorts.Operator becomes (left ∷ right ∷ []))))) }
{
    let operands = listed(alloc, left, right)?;
    if is_unclear(scope, Sort::Operator, b":=", operands.as_slice()) {
        Meant::all_let_go(operands);
        return Err(Trouble::Hangs);
    }
    match chosen(scope, Sort::Operator, b":=", operands.as_slice()) {
        Some(callable) => called_alone(alloc, at, callable, operands),
        None => match two_of(operands) {
            None => unreachable!(),
            Some((left, right)) => assigned(alloc, at, left, right),
        },
    }
}

/// An assignment. A BOUND variable whose name stands at the left is bound where it is given a data space.
#[tactic(auto, using(crate::proofs::Bound::bound_is, crate::proofs::Bound::unbound_is))]
pub fn assignment(
    alloc: Global,
    at: u32,
    scope: &Scope,
    named: bool,
    left: Meant,
    right: Meant,
) -> Judged
    ensures { Is result (unless (is_none (binding_if named left right) && is_unclear scope.now sorts.Operator becomes (left ∷ right ∷ []))
        (told (spec.assignment at scope.now named left right))) }
{
    if named && binds(&left, &right) {
        return bound(alloc, left, right);
    }
    assignment_as(alloc, at, scope, left, right)
}
