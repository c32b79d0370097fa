//! The meaning of a level: its units, its PROCs and OPs, and its refinements.

ghost use Rattle.std.specs.Prelude.{◌≡◌, ◌++◌, List, [], None};
ghost use Rattle.elan_scope.specs.declared.known.Known.{Known};
ghost use Rattle.elan_scope.specs.Phrase.{Phrase, all_of};
ghost use Rattle.elan_check.specs.Below.elan_rules.specs.Meaning.{judged, judged_all};
ghost use Rattle.elan_scope.specs.Answer.{Is};
ghost use Rattle.elan_judge.specs.Level as spec;
ghost use Rattle.elan_judge.specs.walks.Units as of_units;

use crate::below::of_value_rules::name::{declared, type_declared};
use crate::routine::{Routine, is_over, judge_refinements, judge_routine};
use crate::shown::judge_exports;
use elan_judge::judge::judge_role;
use elan_judge::role::Wanted;
use elan_meant::row::{Judged, Row};
use elan_meant::together::{let_go, none, one, with};
use elan_names::heading::Sort;
use elan_scope::known::Known;
use elan_scope::scope::Scope;
use elan_scope::trouble::Trouble;
use elan_tree::{Export, Formal, Level, LevelUnit, Name};
use elan_walk::operator_text;
use std::alloc::Global;
use type_names::heading::{first_refinement, number_behind};

// The name of a PROC: one without parameters is a name of the level.
fn procedure_name(alloc: Global, scope: &Scope, name: &Name, formals: &[Formal]) -> Row
    ensures { (k : Known) → Is result (judged_all k (all_of (spec.procedure_name scope.now name.now formals.now))) }
{
    match formals {
        [] => one(alloc, declared(alloc, name.at, scope, name.text.as_slice())),
        [_first, _others @ ..] => none(alloc),
    }
}

// A unit whose first body has this number. An arm a form of unit, so it is as long as their fields are.
fn judge_level_unit(
    alloc: Global,
    known: &Known,
    scope: &mut Scope,
    number: usize,
    unit: &LevelUnit,
) -> Judged
    requires level { scope.old.routine ≡ None }
    requires unit { scope.old.refinement ≡ None }
    ensures meaning { Is result (judged known.now (spec.level_unit scope.old number unit.now)) }
    ensures kept { scope.new ≡ scope.old }
{
    match unit {
        LevelUnit::Plain(unit) => judge_role(alloc, known, scope, Wanted::Nothing, unit),
        LevelUnit::NewType { name, .. } => {
            type_declared(alloc, name.at, scope, name.text.as_slice())
        }
        LevelUnit::Proc {
            result,
            name,
            formals,
            body,
            ..
        } => {
            let formals = formals.as_slice();
            let names = procedure_name(alloc, scope, name, formals);
            let routine = Routine {
                sort: Sort::Procedure,
                number,
                at: name.at,
                name: name.text.as_slice(),
                result,
                formals,
                body,
            };
            judge_routine(alloc, known, scope, routine, names)
        }
        LevelUnit::Op {
            result,
            name,
            formals,
            body,
            ..
        } => {
            let routine = Routine {
                sort: Sort::Operator,
                number,
                at: name.at,
                name: operator_text(&name.operator),
                result,
                formals: formals.as_slice(),
                body,
            };
            judge_routine(alloc, known, scope, routine, none(alloc))
        }
    }
}

// What phrases mean, and behind them the units of a level.
fn judge_level_units(
    alloc: Global,
    known: &Known,
    scope: &mut Scope,
    before: Row,
    units: &[LevelUnit],
) -> Row
    requires level { scope.old.routine ≡ None }
    requires unit { scope.old.refinement ≡ None }
    ensures meaning { (ps : List Phrase) → Is before (judged_all known.now (all_of ps)) → Is result
        (judged_all known.now (all_of (ps ++ of_units.level_units scope.old 0 units.now))) }
    ensures kept { scope.new ≡ scope.old }
{
    let mut row = before;
    let mut number = 0;
    for unit in units {
        if is_over(&row) {
            return row;
        }
        let next = judge_level_unit(alloc, known, scope, number, unit);
        row = with(row, next);
        let Ok(following) = number_behind(number, unit) else {
            let_go(row);
            return Err(Trouble::NoMemory);
        };
        number = following;
    }
    row
}

/// The names that a text shows, and the parts of its level, in its scope.
pub fn judge_level(
    alloc: Global,
    known: &Known,
    scope: &mut Scope,
    exports: &[Export],
    level: &Level,
) -> Row
    requires level { scope.old.routine ≡ None }
    requires unit { scope.old.refinement ≡ None }
    ensures meaning { Is result (judged_all known.now (all_of (spec.exports scope.old level.now [] exports.now ++ spec.level_parts scope.old level.now))) }
    ensures kept { scope.new ≡ scope.old }
{
    let units = level.units.as_slice();
    let first = first_refinement(units)?;
    let row = judge_exports(alloc, scope, level, exports);
    let row = judge_level_units(alloc, known, scope, row, units);
    let refinements = level.refinements.as_slice();
    judge_refinements(alloc, known, scope, row, first, refinements)
}
