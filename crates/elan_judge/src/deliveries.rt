//! What bodies deliver: a refinement delivers what its last unit delivers, which is found out in steps.

ghost use Rattle.std.specs.Prelude.{◌≡◌, [], map, length, option_map, slice_index_or, slice_set, IfOk};
ghost use Rattle.elan_scope.specs.declared.delivery.Delivery.{Delivery as Deliveries};
ghost use Rattle.elan_scope.specs.declared.scope.Scope.{Scope};
ghost use Rattle.elan_meant.specs.declared.meant.Meant.{Meant};
ghost use Rattle.elan_scope.specs.Ruled.{Ruled};
ghost use Rattle.elan_scope.specs.Answer.{Is};
ghost use Rattle.type_names.specs.Bodies as bodies;
ghost use Rattle.elan_judge.specs.Level as level_spec;
ghost use Rattle.elan_judge.specs.Refinements as spec;
ghost use Rattle.elan_judge.specs.walks.Rounds as walks;
ghost use Rattle.elan_judge.specs.Shape as shape;
ghost use Rattle.elan_judge.specs.walks.Steps as steps;
ghost use Rattle.elan_scope.specs.Known.{delivery_at};
ghost use lib.Pointwise.{pointwise};

use crate::below::of_elan_names::heading::{Heading, What};
use crate::judge::judge_role;
use crate::role::{Wanted, is_empty};
use crate::settle::settled;
use crate::walk::{EachBody, each_body};
use call_graph::CallGraph;
use elan_meant::meant::Meant;
use elan_meant::row::Judged;
use elan_scope::delivery::Delivery;
use elan_scope::known::Known;
use elan_scope::scope::Scope;
use elan_scope::trouble::Trouble;
use elan_tree::{Level, Unit};
use eu_base::{List, NoMemory};
use std::alloc::Global;
use type_names::uses::{called_in, called_in_unit};

fn stated(what: &What) -> Result<Delivery, NoMemory>
    ensures { IfOk result (λ delivery. delivery ≡ spec.stated what.now) }
{
    match what {
        What::Routine(_, _, None) => Ok(Delivery::Nothing),
        What::Routine(_, _, Some(of)) => Ok(Delivery::Of(of.try_clone()?)),
        What::Refinement(_) => Ok(Delivery::Open),
    }
}

// What the headings tell.
fn all_stated(alloc: Global, headings: &[Heading]) -> Result<List<Delivery>, NoMemory>
    ensures { IfOk result (λ deliveries. deliveries ≡ map (λ h. spec.stated h.what) headings.now) }
{
    let mut deliveries = List::new(alloc);
    for heading in headings {
        deliveries.push(stated(&heading.what)?)?;
    }
    Ok(deliveries)
}

// The last unit that is not empty.
fn last_unit(units: &[Unit]) -> Option<&Unit>
    ensures { (s : Scope) → (d : Deliveries) → option_map (λ u. shape.role d (shape.written (shape.unit s u.now))) result ≡ spec.last_unit
        (shape.units d (map (shape.unit s) units.now)) }
{
    let mut last = None;
    for unit in units {
        if !is_empty(unit) {
            last = Some(unit);
        }
    }
    last
}

fn delivery_of(meant: Meant) -> Delivery
    ensures { result ≡ spec.delivery_of meant }
{
    match meant {
        Meant::Value { at: _at, of, value } => {
            value.into_inner().let_go();
            Delivery::Of(of)
        }
        other => {
            other.let_go();
            Delivery::Nothing
        }
    }
}

// What a phrase delivers; nothing is known of one without a meaning.
fn outcome(judged: Judged) -> Result<Delivery, NoMemory>
    ensures { (r : Ruled Meant) → Is judged r → IfOk result (λ d. d ≡ spec.outcome r) }
{
    match judged {
        Ok(meant) => Ok(delivery_of(meant)),
        Err(Trouble::NoMemory) => Err(NoMemory),
        Err(Trouble::Breaks(_, _)) => Ok(Delivery::Open),
        Err(Trouble::Hangs) => Ok(Delivery::Open),
    }
}

/// What the last unit delivers.
pub fn units_delivery(
    alloc: Global,
    known: &Known,
    scope: &Scope,
    wanted: Wanted<'_>,
    units: &[Unit],
) -> Result<Delivery, NoMemory>
    ensures { IfOk result (λ d. d ≡ spec.unit_delivery known.now (spec.last_unit (shape.units (steps.wanted wanted.entry) (map (shape.unit scope.now) units.now)))) }
{
    match last_unit(units) {
        None => Ok(Delivery::Nothing),
        Some(unit) => outcome(judge_role(alloc, known, scope, wanted, unit)),
    }
}

// The refinements that the last unit calls.
fn called_in_last(alloc: Global, scope: &Scope, units: &[Unit]) -> Result<List<usize>, NoMemory>
    ensures { (d : Deliveries) → IfOk result (λ called. called ≡ walks.called_last (shape.units d (map (shape.unit scope.now) units.now))) }
{
    match last_unit(units) {
        None => Ok(List::new(alloc)),
        Some(unit) => called_in_unit(alloc, scope, unit),
    }
}

// ---- calls

// The refinements that bodies call: in all their units, and in their last ones.
#[derive(Drop)]
struct Calls {
    all: List<List<usize>>,
    last: List<List<usize>>,
}

impl EachBody for Calls {
    ghost after = { λ s n units. walks.with_calls s units };

    fn body(
        &mut self,
        alloc: Global,
        scope: &Scope,
        _number: usize,
        _wanted: Wanted<'_>,
        units: &[Unit],
    ) -> Result<(), NoMemory> {
        self.all.push(called_in(alloc, scope, units)?)?;
        self.last.push(called_in_last(alloc, scope, units)?)
    }
}

fn calls_of(alloc: Global, scope: &mut Scope, level: &Level) -> Result<Calls, NoMemory>
    requires level { scope.old.routine ≡ None }
    requires unit { scope.old.refinement ≡ None }
    ensures all { IfOk result (λ calls. calls.all ≡ map spec.called_in (level_spec.level_bodies scope.old level.now)) }
    ensures last { IfOk result (λ calls. calls.last ≡ map walks.called_last (level_spec.level_bodies scope.old level.now)) }
    ensures kept { IfOk result (λ calls. scope.new ≡ scope.old) }
{
    let mut calls = Calls {
        all: List::new(alloc),
        last: List::new(alloc),
    };
    match each_body(alloc, &mut calls, scope, level) {
        Err(refusal) => Err(refusal),
        Ok(()) => Ok(calls),
    }
}

// ---- rounds

// Whether it is not known what the body with this number delivers.
fn is_open(known: &Known, number: usize) -> bool
    ensures { result ≡ walks.is_open (delivery_at known.now number) }
{
    match known.delivery_at(number) {
        None | Some(Delivery::Open) => true,
        Some(_) => false,
    }
}

fn any_open(known: &Known, called: &[usize]) -> bool
    ensures { result ≡ walks.any_open known.now called.now }
{
    for number in called {
        if is_open(known, *number) {
            return true;
        }
    }
    false
}

// Whether the last unit of a body calls a refinement of which nothing is known.
fn waits(known: &Known, last: &[List<usize>], number: usize) -> bool
    ensures { result ≡ walks.any_open known.now (slice_index_or last.now number []) }
{
    match last.get(number) {
        None => false,
        Some(called) => any_open(known, called.as_slice()),
    }
}

/// Whether a body is not looked at.
pub fn is_kept(known: &Known, last: &[List<usize>], number: usize) -> bool
    ensures { result ≡ walks.is_kept known.now last.now number }
{
    if is_open(known, number) {
        waits(known, last, number)
    } else {
        true
    }
}

// One step further, from what is known and from what last units call. A body of which something is known is not looked at,
// nor one whose last unit calls a refinement of which nothing is known, so that each is looked at about once.
#[derive(Drop)]
struct Round<'a> {
    known: &'a Known,
    last: &'a List<List<usize>>,
    deliveries: List<Delivery>,
}

impl EachBody for Round<'_> {
    ghost after = { walks.with_found };

    fn body(
        &mut self,
        alloc: Global,
        scope: &Scope,
        number: usize,
        wanted: Wanted<'_>,
        units: &[Unit],
    ) -> Result<(), NoMemory> {
        if is_kept(self.known, self.last.as_slice(), number) {
            return Ok(());
        }
        let delivery = units_delivery(alloc, self.known, scope, wanted, units)?;
        put(&mut self.deliveries, number, delivery);
        Ok(())
    }
}

/// Puts the delivery of a body in its place, if it has one.
pub fn put(deliveries: &mut List<Delivery>, number: usize, delivery: Delivery)
    ensures { deliveries.new ≡ slice_set deliveries.old number delivery }
{
    if number < deliveries.len() {
        deliveries.set(number, delivery);
    }
}

fn clone_all(alloc: Global, deliveries: &[Delivery]) -> Result<List<Delivery>, NoMemory>
    ensures { IfOk result (λ copies. copies ≡ deliveries.now) }
{
    let mut copies = List::new(alloc);
    for delivery in deliveries {
        copies.push(delivery.try_clone()?)?;
    }
    Ok(copies)
}

fn next_deliveries(
    alloc: Global,
    known: &Known,
    last: &List<List<usize>>,
    scope: &mut Scope,
    level: &Level,
) -> Result<List<Delivery>, NoMemory>
    requires level { scope.old.routine ≡ None }
    requires unit { scope.old.refinement ≡ None }
    requires count { length known.now.deliveries ≡ length (level_spec.level_bodies scope.old level.now) }
    ensures found { IfOk result (λ next. next ≡ walks.found_from known.now last.now 0 (level_spec.level_bodies scope.old level.now)) }
    ensures kept { IfOk result (λ next. scope.new ≡ scope.old) }
{
    let deliveries = clone_all(alloc, known.deliveries.as_slice())?;
    let mut round = Round {
        known,
        last,
        deliveries,
    };
    match each_body(alloc, &mut round, scope, level) {
        Err(refusal) => Err(refusal),
        Ok(()) => {
            let Round { deliveries, .. } = round;
            Ok(deliveries)
        }
    }
}

fn is_same(delivery: &Delivery, other: &Delivery) -> bool
    ensures { result ≡ walks.same_delivery delivery.now other.now }
{
    match (delivery, other) {
        (Delivery::Open, Delivery::Open) | (Delivery::Nothing, Delivery::Nothing) => true,
        (Delivery::Of(of), Delivery::Of(other)) => of.is_same(other),
        _ => false,
    }
}

fn are_same(deliveries: &[Delivery], others: &[Delivery]) -> bool
    ensures { result ≡ pointwise walks.same_delivery deliveries.now others.now }
{
    match (deliveries, others) {
        ([], []) => true,
        ([delivery, deliveries @ ..], [other, others @ ..]) => {
            is_same(delivery, other) && are_same(deliveries, others)
        }
        ([], [_other, _others @ ..]) => false,
        ([_delivery, _deliveries @ ..], []) => false,
    }
}

/// What is known of the bodies of a level: what is found in the order of calls, and what rounds find until one finds no more.
pub fn known_of(alloc: Global, scope: &mut Scope, level: &Level) -> Result<Known, NoMemory>
    requires headings { scope.old.headings ≡ bodies.headings_in scope.old.types level.now }
    requires level { scope.old.routine ≡ None }
    requires unit { scope.old.refinement ≡ None }
    ensures found { IfOk result (λ known. known ≡ spec.known_of scope.old.headings (level_spec.level_bodies scope.old level.now)) }
    ensures kept { IfOk result (λ known. scope.new ≡ scope.old) }
{
    let Calls { all, last } = calls_of(alloc, scope, level)?;
    let known = Known {
        deliveries: all_stated(alloc, scope.headings.as_slice())?,
        calls: CallGraph::of(alloc, all)?,
    };
    let mut known = settled(alloc, known, &last, scope, level)?;
    for _ in 0..scope.headings.as_slice().len() {
        let next = next_deliveries(alloc, &known, &last, scope, level)?;
        if are_same(next.as_slice(), known.deliveries.as_slice()) {
            return Ok(known);
        }
        known.deliveries = next;
    }
    Ok(known)
}
