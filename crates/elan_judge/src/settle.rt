//! What refinements deliver, found out in the order of their calls, so that each is looked at when all that it calls is known.

ghost use Rattle.std.specs.Prelude.{◌≡◌, ◌≤◌, ◌+◌, ◌-◌, None, Some, IfOk, IfSome, OnOk, map, slice_get};
ghost use Rattle.type_names.specs.Bodies as bodies;
ghost use Rattle.elan_judge.specs.Level as spec;
ghost use Rattle.elan_judge.specs.walks.Units as of_units;
ghost use Rattle.elan_judge.specs.Refinements as refinements;
ghost use Rattle.elan_judge.specs.walks.OnTheWay as walks;

use crate::deliveries::{is_kept, put, units_delivery};
use crate::role::Wanted;
use elan_scope::known::Known;
use elan_scope::scope::Scope;
use elan_tree::{Body, Formal, Level, LevelUnit, Refinement};
use eu_base::{List, NoMemory};
use std::alloc::Global;
use type_names::heading::{first_refinement, next_number, number_behind};
use type_names::within::{enter, leave};

// What is known, and the refinements that last units call.
#[derive(Drop)]
struct Settling<'a> {
    known: Known,
    last: &'a List<List<usize>>,
}

// The refinement with this number, where the first of them has this one.
fn refinement_with(refinements: &[Refinement], first: usize, number: usize) -> Option<&Refinement>
    ensures { IfSome result (λ r. (first ≤ number) × (slice_get refinements.now (number - first) ≡ Some r.now)) }
{
    let place = number.checked_sub(first)?;
    refinements.get(place)
}

impl Settling<'_> {
    // The body that is looked at in this place.
    fn number_at(&self, place: usize) -> usize {
        match self.known.calls.callees_first().get(place) {
            None => 0,
            Some(number) => *number,
        }
    }

    // A refinement, if it is to be looked at.
    fn refinement(
        &mut self,
        alloc: Global,
        scope: &mut Scope,
        number: usize,
        refinement: &Refinement,
    ) -> Result<(), NoMemory>
        requires { scope.old.refinement ≡ None }
        ensures found { (w : walks.LevelAt) → walks.IsOnTheWay w self.old.known
            → slice_get (walks.bodies_at w) number ≡ Some (spec.refined_units scope.old number refinement.now)
            → OnOk result (walks.IsOnTheWay w self.new.known) }
        ensures kept { OnOk result (scope.new ≡ scope.old) }
    {
        if is_kept(&self.known, self.last.as_slice(), number) {
            return Ok(());
        }
        let units = refinement.units.as_slice();
        scope.refinement = Some(number);
        let delivery = units_delivery(alloc, &self.known, scope, Wanted::Open, units)?;
        scope.refinement = None;
        put(&mut self.known.deliveries, number, delivery);
        Ok(())
    }

    // The refinements of a level, or of a PROC or OP: those at these places of the order, from this one on.
    fn refinements(
        &mut self,
        alloc: Global,
        scope: &mut Scope,
        from: usize,
        first: usize,
        refinements: &[Refinement],
    ) -> Result<(), NoMemory>
        requires { scope.old.refinement ≡ None }
        ensures found { (w : walks.LevelAt) → walks.IsOnTheWay w self.old.known
            → walks.Holds (walks.bodies_at w) first (spec.all_refined_units scope.old first refinements.now)
            → OnOk result (walks.IsOnTheWay w self.new.known) }
        ensures kept { OnOk result (scope.new ≡ scope.old) }
    {
        for place in from..first.saturating_add(refinements.len()) {
            let number = self.number_at(place);
            if let Some(refinement) = refinement_with(refinements, first, number) {
                self.refinement(alloc, scope, number, refinement)?;
            }
        }
        Ok(())
    }

    // The refinements of a PROC or OP, in its scope.
    fn routine(
        &mut self,
        alloc: Global,
        scope: &mut Scope,
        number: usize,
        formals: &[Formal],
        body: &Body,
    ) -> Result<(), NoMemory>
        requires level { scope.old.routine ≡ None }
        requires unit { scope.old.refinement ≡ None }
        ensures found { (w : walks.LevelAt) → walks.IsOnTheWay w self.old.known
            → walks.Holds (walks.bodies_at w) (number + 1) (spec.all_refined_units
            (bodies.routine_scope scope.old (bodies.body_within scope.old.types number formals.now body.now)) (number + 1) body.now.refinements)
            → OnOk result (walks.IsOnTheWay w self.new.known) }
        ensures kept { OnOk result (scope.new ≡ scope.old) }
    {
        let first = next_number(number)?;
        enter(alloc, scope, number, formals, body)?;
        self.refinements(alloc, scope, number, first, body.refinements.as_slice())?;
        leave(scope);
        Ok(())
    }

    fn unit(
        &mut self,
        alloc: Global,
        scope: &mut Scope,
        number: usize,
        unit: &LevelUnit,
    ) -> Result<(), NoMemory>
        requires level { scope.old.routine ≡ None }
        requires unit { scope.old.refinement ≡ None }
        ensures found { (w : walks.LevelAt) → walks.IsOnTheWay w self.old.known
            → walks.Holds (walks.bodies_at w) number (spec.unit_bodies scope.old number unit.now)
            → OnOk result (walks.IsOnTheWay w self.new.known) }
        ensures kept { OnOk result (scope.new ≡ scope.old) }
    {
        match unit {
            LevelUnit::Plain(_) => Ok(()),
            LevelUnit::NewType { .. } => Ok(()),
            LevelUnit::Proc { formals, body, .. } => {
                self.routine(alloc, scope, number, formals.as_slice(), body)
            }
            LevelUnit::Op { formals, body, .. } => {
                self.routine(alloc, scope, number, formals.as_slice(), body)
            }
        }
    }

    fn units(
        &mut self,
        alloc: Global,
        scope: &mut Scope,
        units: &[LevelUnit],
    ) -> Result<(), NoMemory>
        requires level { scope.old.routine ≡ None }
        requires unit { scope.old.refinement ≡ None }
        ensures found { (w : walks.LevelAt) → walks.IsOnTheWay w self.old.known
            → walks.Holds (walks.bodies_at w) 0 (of_units.all_unit_bodies scope.old 0 units.now)
            → OnOk result (walks.IsOnTheWay w self.new.known) }
        ensures kept { OnOk result (scope.new ≡ scope.old) }
    {
        let mut number = 0;
        for unit in units {
            self.unit(alloc, scope, number, unit)?;
            number = number_behind(number, unit)?;
        }
        Ok(())
    }

    fn level(&mut self, alloc: Global, scope: &mut Scope, level: &Level) -> Result<(), NoMemory>
        requires level { scope.old.routine ≡ None }
        requires unit { scope.old.refinement ≡ None }
        ensures found { (w : walks.LevelAt) → w.scope ≡ scope.old → w.level ≡ level.now → walks.IsOnTheWay w self.old.known
            → OnOk result (walks.IsOnTheWay w self.new.known) }
        ensures kept { OnOk result (scope.new ≡ scope.old) }
    {
        let units = level.units.as_slice();
        self.units(alloc, scope, units)?;
        let first = first_refinement(units)?;
        self.refinements(alloc, scope, first, first, level.refinements.as_slice())
    }
}

/// What is known of the bodies of a level when refinements were looked at in the order of calls: nothing but what is known in the
/// end. Rounds behind it find what it missed.
pub fn settled(
    alloc: Global,
    known: Known,
    last: &List<List<usize>>,
    scope: &mut Scope,
    level: &Level,
) -> Result<Known, NoMemory>
    requires level { scope.old.routine ≡ None }
    requires unit { scope.old.refinement ≡ None }
    requires known { known ≡ refinements.known_after 0 scope.old.headings (spec.level_bodies scope.old level.now) }
    ensures found { IfOk result (λ known. (w : walks.LevelAt) → w.scope ≡ scope.old → w.level ≡ level.now → walks.IsOnTheWay w known) }
    ensures kept { IfOk result (λ known. scope.new ≡ scope.old) }
{
    let mut settling = Settling { known, last };
    match settling.level(alloc, scope, level) {
        Err(refusal) => Err(refusal),
        Ok(()) => {
            let Settling { known, .. } = settling;
            Ok(known)
        }
    }
}
