//! The walk over the bodies of a level.

ghost use Rattle.std.specs.Prelude.{◌≡◌, None, OnOk};
ghost use Rattle.elan_judge.specs.Level as spec;
ghost use Rattle.elan_judge.specs.walks.Units as of_units;
ghost use Rattle.elan_judge.specs.walks.Seen.{all_seen};

use crate::role::Wanted;
use elan_scope::scope::Scope;
use elan_tree::{Body, Formal, Level, LevelUnit, Refinement, TypePhrase, Unit};
use eu_base::NoMemory;
use std::alloc::Global;
use type_names::heading::{first_refinement, next_number, number_behind, result_type};
use type_names::within::{enter, leave};

/// Who looks at bodies.
pub trait EachBody {
    ghost use Rattle.std.specs.Prelude.{◌≡◌, ℕ, map};
    ghost use Rattle.elan_scope.specs.Phrase.{Phrase};
    ghost use Rattle.elan_judge.specs.Shape as shape;
    ghost use Rattle.elan_judge.specs.walks.Steps as steps;

    /// What it is when it has seen the units of the body with this number.
    ghost after: { Self → ℕ → Phrase → Self };

    /// Looks at the units of the body with this number, in its scope.
    fn body(
        &mut self,
        alloc: Global,
        scope: &Scope,
        number: usize,
        wanted: Wanted<'_>,
        units: &[Unit],
    ) -> Result<(), NoMemory>
        ensures { OnOk result (self.new ≡ after self.old number (shape.units (steps.wanted wanted.entry) (map (shape.unit scope.now) units.now))) };
}

fn see_refinement<B: EachBody>(
    alloc: Global,
    looks: &mut B,
    scope: &mut Scope,
    number: usize,
    refinement: &Refinement,
) -> Result<(), NoMemory>
    requires { scope.old.refinement ≡ None }
    ensures found { OnOk result (looks.new ≡ B.after looks.old number (spec.refined_units scope.old number refinement.now)) }
    ensures kept { OnOk result (scope.new ≡ scope.old) }
{
    let units = refinement.units.as_slice();
    scope.refinement = Some(number);
    looks.body(alloc, scope, number, Wanted::Open, units)?;
    scope.refinement = None;
    Ok(())
}

fn see_refinements<B: EachBody>(
    alloc: Global,
    looks: &mut B,
    scope: &mut Scope,
    first: usize,
    refinements: &[Refinement],
) -> Result<(), NoMemory>
    requires { scope.old.refinement ≡ None }
    ensures found { OnOk result (looks.new ≡ all_seen B.after looks.old first (spec.all_refined_units scope.old first refinements.now)) }
    ensures kept { OnOk result (scope.new ≡ scope.old) }
{
    let mut number = first;
    for refinement in refinements {
        see_refinement(alloc, looks, scope, number, refinement)?;
        number = next_number(number)?;
    }
    Ok(())
}

// A PROC or OP, and its refinements.
fn see_routine<B: EachBody>(
    alloc: Global,
    looks: &mut B,
    scope: &mut Scope,
    number: usize,
    delivered: &Option<TypePhrase>,
    formals: &[Formal],
    body: &Body,
) -> Result<(), NoMemory>
    requires level { scope.old.routine ≡ None }
    requires unit { scope.old.refinement ≡ None }
    ensures found { OnOk result (looks.new ≡ all_seen B.after looks.old number (spec.inside_units scope.old number delivered.now formals.now body.now)) }
    ensures kept { OnOk result (scope.new ≡ scope.old) }
{
    let first = next_number(number)?;
    let of = result_type(alloc, &scope.types, delivered)?;
    enter(alloc, scope, number, formals, body)?;
    let wanted = Wanted::of(of.as_ref());
    looks.body(alloc, scope, number, wanted, body.units.as_slice())?;
    see_refinements(alloc, looks, scope, first, body.refinements.as_slice())?;
    leave(scope);
    Ok(())
}

fn see_unit<B: EachBody>(
    alloc: Global,
    looks: &mut B,
    scope: &mut Scope,
    number: usize,
    unit: &LevelUnit,
) -> Result<(), NoMemory>
    requires level { scope.old.routine ≡ None }
    requires unit { scope.old.refinement ≡ None }
    ensures found { OnOk result (looks.new ≡ all_seen B.after looks.old number (spec.unit_bodies scope.old number unit.now)) }
    ensures kept { OnOk result (scope.new ≡ scope.old) }
{
    match unit {
        LevelUnit::Plain(_) => Ok(()),
        LevelUnit::NewType { .. } => Ok(()),
        LevelUnit::Proc {
            result,
            formals,
            body,
            ..
        } => see_routine(
            alloc,
            looks,
            scope,
            number,
            result,
            formals.as_slice(),
            body,
        ),
        LevelUnit::Op {
            result,
            formals,
            body,
            ..
        } => see_routine(
            alloc,
            looks,
            scope,
            number,
            result,
            formals.as_slice(),
            body,
        ),
    }
}

fn see_units<B: EachBody>(
    alloc: Global,
    looks: &mut B,
    scope: &mut Scope,
    units: &[LevelUnit],
) -> Result<(), NoMemory>
    requires level { scope.old.routine ≡ None }
    requires unit { scope.old.refinement ≡ None }
    ensures found { OnOk result (looks.new ≡ all_seen B.after looks.old 0 (of_units.all_unit_bodies scope.old 0 units.now)) }
    ensures kept { OnOk result (scope.new ≡ scope.old) }
{
    let mut number = 0;
    for unit in units {
        see_unit(alloc, looks, scope, number, unit)?;
        number = number_behind(number, unit)?;
    }
    Ok(())
}

/// Looks at the bodies of a level, in the order of their numbers.
pub fn each_body<B: EachBody>(
    alloc: Global,
    looks: &mut B,
    scope: &mut Scope,
    level: &Level,
) -> Result<(), NoMemory>
    requires level { scope.old.routine ≡ None }
    requires unit { scope.old.refinement ≡ None }
    ensures found { OnOk result (looks.new ≡ all_seen B.after looks.old 0 (spec.level_bodies scope.old level.now)) }
    ensures kept { OnOk result (scope.new ≡ scope.old) }
{
    let units = level.units.as_slice();
    see_units(alloc, looks, scope, units)?;
    let first = first_refinement(units)?;
    let refinements = level.refinements.as_slice();
    see_refinements(alloc, looks, scope, first, refinements)?;
    Ok(())
}
