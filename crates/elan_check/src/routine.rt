//! The meaning of PROCs, OPs and refinements.

ghost use Rattle.std.specs.Prelude.{◌≡◌, ◌++◌, List, map, option_map, None, IfOk};
ghost use Rattle.elan_scope.specs.declared.known.Known.{Known};
ghost use Rattle.elan_scope.specs.declared.scope.Scope.{Scope};
ghost use Rattle.elan_scope.specs.Known.{delivered};
ghost use Rattle.elan_scope.specs.Phrase as form;
ghost use Rattle.elan_scope.specs.Phrase.{Phrase, around, row, all_of};
ghost use Rattle.elan_check.specs.Below.elan_rules.specs.Meaning.{judged, judged_all};
ghost use Rattle.elan_scope.specs.Answer.{Is};
ghost use Rattle.type_names.specs.Bodies as bodies;
ghost use Rattle.elan_judge.specs.Level as spec;
ghost use Rattle.elan_check.specs.walks.Over as walks;
ghost use Rattle.elan_judge.specs.Shape as shape;

use crate::below::of_elan_rules::body::{bodies_of, body};
use crate::below::of_elan_rules::whole::refinement_phrase;
use crate::below::of_value_rules::name::{Headed, declared, heading};
use elan_judge::judge::judge_units;
use elan_judge::role::{Wanted, all_empty};
use elan_meant::meant::Meant;
use elan_meant::row::{Judged, Row};
use elan_meant::together::{let_go, with};
use elan_names::heading::Sort;
use elan_scope::known::Known;
use elan_scope::scope::Scope;
use elan_scope::trouble::Trouble;
use elan_tree::{Body, Formal, Name, Refinement, TypePhrase, Unit};
use elan_types::{ElanType, Scope as Owner, formals};
use eu_base::NoMemory;
use std::alloc::Global;
use type_names::bodies::{own_kinds, parameters};
use type_names::heading::{next_number, result_type};
use type_names::within::{enter, leave};

/// A PROC or OP as it is written, with its number among the bodies of the level.
#[derive(Clone, Copy)]
pub struct Routine<'a> {
    pub sort: Sort,
    pub number: usize,
    /// The place of its name.
    pub at: u32,
    pub name: &'a [u8],
    pub result: &'a Option<TypePhrase>,
    pub formals: &'a [Formal],
    pub body: &'a Body,
}

// ---- refinements

// Whose refinements stand in a scope.
fn owner_of(scope: &Scope) -> Result<Owner, NoMemory>
    ensures { IfOk result (λ owner. owner ≡ spec.owner_of scope.now) }
{
    match &scope.routine {
        None => Ok(Owner::Level),
        Some(within) => {
            let number = scope.bodies_before.checked_add(within.number);
            Ok(Owner::Of(number.ok_or(NoMemory)?))
        }
    }
}

fn judge_refinement(
    alloc: Global,
    known: &Known,
    scope: &mut Scope,
    number: usize,
    refinement: &Refinement,
) -> Judged
    requires { scope.old.refinement ≡ None }
    ensures meaning { Is result (judged known.now (spec.refinement scope.old number refinement.now)) }
    ensures kept { scope.new ≡ scope.old }
{
    let owner = owner_of(scope)?;
    let name = declared(
        alloc,
        refinement.name.at,
        scope,
        refinement.name.text.as_slice(),
    );
    scope.refinement = Some(number);
    let units = judge_units(
        alloc,
        known,
        scope,
        Wanted::Open,
        refinement.units.as_slice(),
    );
    scope.refinement = None;
    refinement_phrase(alloc, owner, name, units)
}

/// Whether nothing that stands behind can change what phrases mean: one of them breaks a rule, or memory ran out.
pub fn is_over(row: &Row) -> bool
    ensures { result ≡ walks.is_over row.now }
{
    match row {
        Ok(_) => false,
        Err(Trouble::Hangs) => false,
        Err(Trouble::Breaks(_, _)) => true,
        Err(Trouble::NoMemory) => true,
    }
}

/// What phrases mean, and behind them refinements, the first of which has this number.
pub fn judge_refinements(
    alloc: Global,
    known: &Known,
    scope: &mut Scope,
    before: Row,
    first: usize,
    refinements: &[Refinement],
) -> Row
    requires { scope.old.refinement ≡ None }
    ensures meaning { (ps : List Phrase) → Is before (judged_all known.now (all_of ps)) → Is result
        (judged_all known.now (all_of (ps ++ spec.refinements scope.old first refinements.now))) }
    ensures kept { scope.new ≡ scope.old }
{
    let mut row = before;
    let mut number = first;
    for refinement in refinements {
        if is_over(&row) {
            return row;
        }
        let next = judge_refinement(alloc, known, scope, number, refinement);
        row = with(row, next);
        let Ok(following) = next_number(number) else {
            let_go(row);
            return Err(Trouble::NoMemory);
        };
        number = following;
    }
    row
}

// ---- PROCs and OPs

fn declare_all(alloc: Global, scope: &Scope, before: Row, names: &[Name]) -> Row
    ensures { (k : Known) → (ps : List Phrase) → Is before (judged_all k (all_of ps)) → Is result
        (judged_all k (all_of (ps ++ map (spec.declares scope.now) names.now))) }
{
    let mut row = before;
    for name in names {
        row = with(row, declared(alloc, name.at, scope, name.text.as_slice()));
    }
    row
}

fn declare_parameters(alloc: Global, scope: &Scope, before: Row, formals: &[Formal]) -> Row
    ensures { (k : Known) → (ps : List Phrase) → Is before (judged_all k (all_of ps)) → Is result
        (judged_all k (all_of (ps ++ spec.declare_parameters scope.now formals.now))) }
{
    let mut row = before;
    for formal in formals {
        row = declare_all(alloc, scope, row, formal.names.as_slice());
    }
    row
}

// The scope of its variables: its parameters, and what its body declares.
fn frame(alloc: Global, scope: &Scope, of: Routine<'_>) -> Result<Owner, NoMemory>
    ensures { IfOk result (λ frame. frame ≡ bodies.frame scope.now.types of.entry.formals.now of.entry.body.now) }
{
    let types = &scope.types;
    let variables = own_kinds(alloc, types, of.formals, of.body)?;
    let parameters = parameters(alloc, types, of.formals)?;
    let parameters = formals(alloc, parameters.as_slice())?;
    Ok(Owner::Own {
        parameters,
        variables,
    })
}

// Its body, in its own scope.
fn judge_body(alloc: Global, known: &Known, scope: &Scope, of: Routine<'_>) -> Judged
    ensures { Is result (judged known.now
        (around 0 (form.body (bodies.frame scope.now.types of.entry.formals.now of.entry.body.now) (bodies.result scope.now.types of.entry.result.now))
        (shape.units (delivered (bodies.result scope.now.types of.entry.result.now)) (map (shape.unit scope.now) of.entry.body.now.units)))) }
{
    let of_type = result_type(alloc, &scope.types, of.result)?;
    let wanted = Wanted::of(of_type.as_ref());
    let meant = judge_units(alloc, known, scope, wanted, of.body.units.as_slice())?;
    let Ok(owner) = frame(alloc, scope, of) else {
        meant.let_go();
        return Err(Trouble::NoMemory);
    };
    body(alloc, owner, of_type, meant)
}

fn is_missing(of: Option<&ElanType>, units: &[Unit]) -> bool
    ensures { (s : Scope) → result ≡ spec.is_missing (option_map (λ t. t.now) of.entry) (map (shape.unit s) units.now) }
{
    match of {
        None => false,
        Some(of) => !of.is_open() && all_empty(units),
    }
}

// Its heading, in the scope of the level.
fn judge_heading(alloc: Global, scope: &Scope, of: Routine<'_>) -> Judged
    ensures { (k : Known) → (s : Scope) → Is result
        (judged k (form.leaf of.entry.at (form.heading scope.now of.entry.sort of.entry.name.now (bodies.parameters scope.now.types of.entry.formals.now)
        (bodies.result scope.now.types of.entry.result.now)
        (spec.is_missing (bodies.result scope.now.types of.entry.result.now) (map (shape.unit s) of.entry.body.now.units))))) }
{
    let types = &scope.types;
    let parameters = parameters(alloc, types, of.formals)?;
    let of_type = result_type(alloc, types, of.result)?;
    let delivered = of_type.as_ref();
    let missing = is_missing(delivered, of.body.units.as_slice());
    let headed = Headed {
        sort: of.sort,
        name: of.name,
        parameters: parameters.as_slice(),
    };
    heading(alloc, of.at, scope, headed, delivered, missing)
}

// What phrases mean, and behind them its parameters, its body and its refinements, in its own scope.
fn judge_inside(
    alloc: Global,
    known: &Known,
    scope: &mut Scope,
    of: Routine<'_>,
    before: Row,
) -> Row
    requires { scope.old.refinement ≡ None }
    ensures meaning { (ps : List Phrase) → Is before (judged_all known.now (all_of ps)) → Is result
        (judged_all known.now (all_of (ps ++ spec.inside scope.old of.entry.number of.entry.result.now of.entry.formals.now of.entry.body.now))) }
    ensures kept { scope.new ≡ scope.old }
{
    let Ok(first) = next_number(of.number) else {
        let_go(before);
        return Err(Trouble::NoMemory);
    };
    let row = declare_parameters(alloc, scope, before, of.formals);
    let row = with(row, judge_body(alloc, known, scope, of));
    let refinements = of.body.refinements.as_slice();
    judge_refinements(alloc, known, scope, row, first, refinements)
}

// A PROC or OP, from its parts.
fn routine_of(alloc: Global, parts: Row) -> Judged
    ensures { (k : Known) → (ps : List Phrase) → Is parts (judged_all k (all_of ps)) → Is result (judged k (row 0 form.routine ps)) }
{
    match parts {
        Err(trouble) => Err(trouble),
        Ok(parts) => match bodies_of(alloc, parts) {
            Err(_refusal) => Err(Trouble::NoMemory),
            Ok(bodies) => Ok(Meant::Bodies(bodies)),
        },
    }
}

/// A PROC or OP, whose name is declared by the phrases before it.
pub fn judge_routine(
    alloc: Global,
    known: &Known,
    scope: &mut Scope,
    of: Routine<'_>,
    names: Row,
) -> Judged
    requires level { scope.old.routine ≡ None }
    requires unit { scope.old.refinement ≡ None }
    ensures meaning { (ps : List Phrase) → Is names (judged_all known.now (all_of ps)) → Is result
        (judged known.now (spec.routine scope.old of.entry.number of.entry.at of.entry.name.now of.entry.result.now of.entry.formals.now
        of.entry.body.now of.entry.sort ps)) }
    ensures kept { scope.new ≡ scope.old }
{
    let row = with(names, judge_heading(alloc, scope, of));
    let Ok(()) = enter(alloc, scope, of.number, of.formals, of.body) else {
        let_go(row);
        return Err(Trouble::NoMemory);
    };
    let row = judge_inside(alloc, known, scope, of, row);
    leave(scope);
    routine_of(alloc, row)
}
