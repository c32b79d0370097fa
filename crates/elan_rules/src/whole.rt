//! Phrases with several parts, by what these parts mean.

ghost use Rattle.std.specs.Prelude.{[], ◌∷◌};
ghost use Rattle.elan_scope.specs.declared.known.Known.{Known};
ghost use Rattle.elan_scope.specs.Phrase as form;
ghost use Rattle.elan_scope.specs.Phrase.{Phrase, pair, row};
ghost use Rattle.elan_scope.specs.Answer.{Is};
ghost use Rattle.elan_meant.specs.walks.Arity.{triple};
ghost use Rattle.elan_rules.specs.Meaning.{judged};

use crate::assignment::assignment;
use crate::body::refinement;
use crate::repetition::{Bounds, Turns, counted, repeated};
use crate::store::initial;
use elan_meant::row::Judged;
use elan_meant::together::{Three, six, two};
use elan_scope::scope::Scope;
use elan_types::{Scope as Owner, Way};
use std::alloc::Global;
use value_rules::part::indexed;
use value_rules::value::{cand, cor};

/// CAND of two expressions.
pub fn cand_phrase(alloc: Global, at: u32, left: Judged, right: Judged) -> Judged
    ensures { (k : Known) → (p : Phrase) → (q : Phrase) → Is left (judged k p) → Is right (judged k q) → Is result (judged k (pair at form.cand p q)) }
{
    match two(left, right) {
        Err(trouble) => Err(trouble),
        Ok((left, right)) => cand(alloc, at, left, right),
    }
}

/// COR of two expressions.
pub fn cor_phrase(alloc: Global, at: u32, left: Judged, right: Judged) -> Judged
    ensures { (k : Known) → (p : Phrase) → (q : Phrase) → Is left (judged k p) → Is right (judged k q) → Is result (judged k (pair at form.cor p q)) }
{
    match two(left, right) {
        Err(trouble) => Err(trouble),
        Ok((left, right)) => cor(alloc, at, left, right),
    }
}

/// The item of a row at an index.
pub fn index_phrase(alloc: Global, at: u32, row: Judged, index: Judged) -> Judged
    ensures { (k : Known) → (p : Phrase) → (q : Phrase) → Is row (judged k p) → Is index (judged k q) → Is result (judged k (pair at form.index p q)) }
{
    match two(row, index) {
        Err(trouble) => Err(trouble),
        Ok((row, index)) => indexed(alloc, at, row, index),
    }
}

/// A name in its declaration, and its initial value.
pub fn initial_phrase(alloc: Global, at: u32, name: Judged, init: Judged) -> Judged
    ensures { (k : Known) → (p : Phrase) → (q : Phrase) → Is name (judged k p) → Is init (judged k q) → Is result (judged k (pair at form.initial p q)) }
{
    match two(name, init) {
        Err(trouble) => Err(trouble),
        Ok((name, init)) => initial(alloc, at, name, init),
    }
}

/// An assignment, at whose left a name stands or not.
pub fn assignment_phrase(
    alloc: Global,
    at: u32,
    scope: &Scope,
    named: bool,
    left: Judged,
    right: Judged,
) -> Judged
    ensures { (k : Known) → (p : Phrase) → (q : Phrase) → Is left (judged k p) → Is right (judged k q) → Is result
        (judged k (pair at (form.assignment scope.now named) p q)) }
{
    match two(left, right) {
        Err(trouble) => Err(trouble),
        Ok((left, right)) => assignment(alloc, at, scope, named, left, right),
    }
}

/// A loop, by the condition of WHILE, its units, and the condition of UNTIL.
pub fn loop_phrase(alloc: Global, at: u32, turns: Three) -> Judged
    ensures { (k : Known) → (c : Phrase) → (us : Phrase) → (u : Phrase) → Is turns (triple (judged k c) (judged k us) (judged k u)) → Is result
        (judged k (row at form.loop (c ∷ us ∷ u ∷ []))) }
{
    match turns {
        Err(trouble) => Err(trouble),
        Ok((condition, units, until)) => repeated(
            alloc,
            at,
            Turns {
                condition,
                units,
                until,
            },
        ),
    }
}

/// A loop with a counter, by the counter, its first value, its limit, and what a loop has.
pub fn count_phrase(alloc: Global, at: u32, way: Way, bounds: Three, turns: Three) -> Judged
    ensures { (k : Known) → (n : Phrase) → (f : Phrase) → (l : Phrase) → (c : Phrase) → (us : Phrase) → (u : Phrase)
        → Is bounds (triple (judged k n) (judged k f) (judged k l)) → Is turns (triple (judged k c) (judged k us) (judged k u)) → Is result
        (judged k (row at (form.count way) (n ∷ f ∷ l ∷ c ∷ us ∷ u ∷ []))) }
{
    match six(bounds, turns) {
        Err(trouble) => Err(trouble),
        Ok(((name, from, limit), (condition, units, until))) => counted(
            alloc,
            at,
            way,
            Bounds { name, from, limit },
            Turns {
                condition,
                units,
                until,
            },
        ),
    }
}

/// A refinement, by its name and its units.
pub fn refinement_phrase(alloc: Global, owner: Owner, name: Judged, units: Judged) -> Judged
    ensures { (k : Known) → (p : Phrase) → (q : Phrase) → Is name (judged k p) → Is units (judged k q) → Is result
        (judged k (pair 0 (form.refinement owner) p q)) }
{
    match two(name, units) {
        Err(trouble) => {
            owner.let_go();
            Err(trouble)
        }
        Ok((name, units)) => {
            name.let_go();
            refinement(alloc, owner, units)
        }
    }
}
