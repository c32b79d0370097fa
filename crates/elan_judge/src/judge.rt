//! The meaning of expressions and units, from left to right. One cycle of functions over both, so it stands in one file.

ghost use Rattle.std.specs.Prelude.{option_map, ℕ, ◌≡◌, ◌++◌, ◌∷◌, [], List, map};
ghost use Rattle.elan_scope.specs.declared.scope.Scope.{Scope};
ghost use Rattle.elan_scope.specs.Phrase as form;
ghost use Rattle.elan_scope.specs.Phrase.{Phrase, row, leaf, around, all_of};
ghost use Rattle.elan_scope.specs.declared.known.Known.{Known as Knowns};
ghost use Rattle.elan_rules.specs.Meaning.{judged, judged_all};
ghost use Rattle.elan_scope.specs.Answer.{Is};
ghost use Rattle.elan_meant.specs.walks.Arity.{triple};
ghost use Rattle.elan_judge.specs.Shape as shape;
ghost use Rattle.elan_judge.specs.walks.Steps as walk;

use crate::below::of_elan_names::heading::Sort;
use crate::below::of_elan_walk::operator_text;
use crate::below::of_value_rules::call::{applied, is_begin_name};
use crate::below::of_value_rules::leave::leaving;
use crate::below::of_value_rules::name::{declared, named, start_named, started};
use crate::below::of_value_rules::part::field_part;
use crate::below::of_value_rules::value::{bracketed, concr, number, text, truth};
use crate::define::judge_let;
use crate::label::{add_numbers, judge_labels};
use crate::place::unit_place;
use crate::role::{Wanted, asked};
use elan_meant::meant::Meant;
use elan_meant::row::{Judged, Row};
use elan_meant::together::{Three, before, let_go, none, one, pair, three, with};
use elan_rules::choice::choice;
use elan_rules::list::{alone, declaration, in_order, must_deliver, without_value};
use elan_rules::selection::selected;
use elan_rules::whole::{
    assignment_phrase, cand_phrase, cor_phrase, count_phrase, index_phrase, initial_phrase,
    loop_phrase,
};
use elan_scope::known::Known;
use elan_scope::scope::{Scope, Usage};
use elan_scope::trouble::Trouble;
use elan_tree::{Branch, Case, Counter, Expr, Item, Limit, Name, Unit};
use elan_types::Way;
use eu_base::List;
use std::alloc::Global;

// PROC with a name.
fn start(at: u32, scope: &Scope, may: bool, name: &Name) -> Judged
    ensures { (known : Knowns) → Is result (judged known (around at (form.start may) (leaf name.now.at (form.start_name scope.now name.now.text)))) }
{
    let meant = start_named(name.at, scope, name.text.as_slice())?;
    started(at, may, meant)
}

fn way(limit: &Limit) -> Way
    ensures { (s : Scope) → result ≡ (shape.limit s limit.now).0 }
{
    match limit {
        Limit::Without => Way::Up,
        Limit::Upto(_) => Way::Up,
        Limit::Downto(_) => Way::Down,
    }
}

// Whether it is an identifier without actuals.
fn is_name(expr: &Expr) -> bool
    ensures { (s : Scope) → result ≡ shape.is_name (shape.expr s expr.now) }
{
    match expr {
        Expr::Named(_) => true,
        _ => false,
    }
}

/// The meaning of an expression. An arm a form of expression, so it is as long as there are forms.
#[cycle(judge)]
fn judge(alloc: Global, known: &Known, scope: &Scope, expr: &Expr) -> Judged
    ensures { Is result (judged known.now (shape.expr scope.now expr.now)) }
{
    match expr {
        Expr::Number(at, written) => number(alloc, *at, *written),
        Expr::Truth(at, written) => truth(alloc, *at, *written),
        Expr::Text(at, written) => text(alloc, *at, written.as_slice()),
        Expr::Named(name) => {
            let text = name.text.as_slice();
            named(alloc, known, Usage::Expression, name.at, scope, text)
        },
        Expr::Call(name, actuals) => {
            let text = name.text.as_slice();
            match judge_actuals(alloc, known, scope, text, actuals.as_slice()) {
                Err(trouble) => Err(trouble),
                Ok(actuals) => applied(alloc, name.at, scope, Sort::Procedure, text, actuals),
            }
        }
        Expr::Bracket(at, inner) => {
            match judge(alloc, known, scope, inner.get()) {
                Err(trouble) => Err(trouble),
                Ok(inner) => bracketed(alloc, *at, inner),
            }
        }
        Expr::If {
            at,
            branches,
            otherwise,
        } => {
            let row = judge_branches(alloc, known, scope, branches.as_slice());
            let otherwise = match otherwise {
                None => Ok(Meant::Absent),
                Some(units) => judge_units(alloc, known, scope, Wanted::Open, units.as_slice()),
            };
            match with(row, otherwise) {
                Err(trouble) => Err(trouble),
                Ok(parts) => choice(alloc, *at, parts),
            }
        }
        Expr::Select {
            at,
            of,
            cases,
            otherwise,
        } => {
            let of = judge(alloc, known, scope, of.get());
            let row = judge_cases(alloc, known, scope, cases.as_slice());
            let otherwise = match otherwise {
                None => Ok(Meant::Absent),
                Some(units) => judge_units(alloc, known, scope, Wanted::Open, units.as_slice()),
            };
            let row = with(row, otherwise);
            match before(of, row) {
                Err(trouble) => Err(trouble),
                Ok((of, parts)) => selected(alloc, *at, of, parts),
            }
        }
        Expr::Monadic {
            at,
            operator,
            operand,
        } => {
            let operand = judge(alloc, known, scope, operand.get());
            match one(alloc, operand) {
                Err(trouble) => Err(trouble),
                Ok(parts) => applied(
                    alloc,
                    *at,
                    scope,
                    Sort::Operator,
                    operator_text(operator),
                    parts,
                ),
            }
        }
        Expr::Dyadic {
            at,
            operator,
            left,
            right,
        } => {
            let left = judge(alloc, known, scope, left.get());
            let right = judge(alloc, known, scope, right.get());
            match pair(alloc, left, right) {
                Err(trouble) => Err(trouble),
                Ok(parts) => applied(
                    alloc,
                    *at,
                    scope,
                    Sort::Operator,
                    operator_text(operator),
                    parts,
                ),
            }
        }
        Expr::Cand { at, left, right } => {
            let left = judge(alloc, known, scope, left.get());
            let right = judge(alloc, known, scope, right.get());
            cand_phrase(alloc, *at, left, right)
        }
        Expr::Cor { at, left, right } => {
            let left = judge(alloc, known, scope, left.get());
            let right = judge(alloc, known, scope, right.get());
            cor_phrase(alloc, *at, left, right)
        }
        Expr::Procedure(at, name) => start(*at, scope, false, name),
        Expr::Concr(at, inner) => {
            match judge(alloc, known, scope, inner.get()) {
                Err(trouble) => Err(trouble),
                Ok(inner) => concr(*at, scope, inner),
            }
        }
        Expr::Index { at, of, index } => {
            let of = judge(alloc, known, scope, of.get());
            let index = judge(alloc, known, scope, index.get());
            index_phrase(alloc, *at, of, index)
        }
        Expr::Field { at, of, field } => {
            match judge(alloc, known, scope, of.get()) {
                Err(trouble) => Err(trouble),
                Ok(of) => field_part(alloc, *at, field.text.as_slice(), of),
            }
        }
    }
}

// PROC with a name, where it may stand.
#[cycle(judge)]
fn judge_second(alloc: Global, known: &Known, scope: &Scope, expr: &Expr) -> Judged
    ensures { Is result (judged known.now (shape.as_start (shape.expr scope.now expr.now))) }
{
    match expr {
        Expr::Procedure(at, name) => start(*at, scope, true, name),
        _ => judge(alloc, known, scope, expr),
    }
}

// The operands of a call.
#[cycle(judge)]
fn judge_actuals(alloc: Global, known: &Known, scope: &Scope, name: &[u8], exprs: &[Expr]) -> Row
    ensures { Is result (judged_all known.now (all_of (shape.actuals name.now (map (shape.expr scope.now) exprs.now)))) }
{
    if !is_begin_name(name) {
        return add_exprs(alloc, known, scope, none(alloc), exprs);
    }
    match exprs {
        [] => Ok(List::new(alloc)),
        [only] => one(alloc, judge(alloc, known, scope, only)),
        [first, second, others @ ..] => {
            let first = judge(alloc, known, scope, first);
            let row = pair(alloc, first, judge_second(alloc, known, scope, second));
            add_exprs(alloc, known, scope, row, others)
        }
    }
}

// A row, and behind it expressions.
#[cycle(judge)]
fn add_exprs(alloc: Global, known: &Known, scope: &Scope, front: Row, exprs: &[Expr]) -> Row
    ensures { (done : List Phrase) → Is front (judged_all known.now (all_of done)) → Is result
        (judged_all known.now (all_of (done ++ map (shape.expr scope.now) exprs.now))) }
{
    let mut row = front;
    for expr in exprs {
        row = with(row, judge(alloc, known, scope, expr));
    }
    row
}

#[cycle(judge)]
fn judge_optional(alloc: Global, known: &Known, scope: &Scope, expr: &Option<Expr>) -> Judged
    ensures { Is result (judged known.now (walk.optional_expr scope.now expr.now)) }
{
    match expr {
        None => Ok(Meant::Absent),
        Some(expr) => judge(alloc, known, scope, expr),
    }
}

// A row, and behind it a condition and the units that it guards.
#[cycle(judge)]
fn add_branch(alloc: Global, known: &Known, scope: &Scope, row: Row, branch: &Branch) -> Row
    ensures { (done : List Phrase) → Is row (judged_all known.now (all_of done)) → Is result
        (judged_all known.now (all_of (done ++ shape.branches (shape.branch scope.now branch.now ∷ [])))) }
{
    let row = with(row, judge(alloc, known, scope, &branch.condition));
    let units = branch.units.as_slice();
    with(row, judge_units(alloc, known, scope, Wanted::Open, units))
}

#[cycle(judge)]
fn judge_branches(alloc: Global, known: &Known, scope: &Scope, branches: &[Branch]) -> Row
    ensures { Is result (judged_all known.now (all_of (shape.branches (map (shape.branch scope.now) branches.now)))) }
{
    let mut row = none(alloc);
    for branch in branches {
        row = add_branch(alloc, known, scope, row, branch);
    }
    row
}

// A row, and behind it labels and the units that they choose.
#[cycle(judge)]
fn add_case(
    alloc: Global,
    known: &Known,
    scope: &Scope,
    row: Row,
    earlier: &[i16],
    case: &Case,
) -> Row
    ensures { (done : List Phrase) → Is row (judged_all known.now (all_of done)) → Is result
        (judged_all known.now (all_of (done ++ shape.arms scope.now earlier.now (shape.case scope.now case.now ∷ [])))) }
{
    let labels = case.labels.as_slice();
    let row = with(row, judge_labels(alloc, known, scope, earlier, labels));
    let units = case.units.as_slice();
    with(row, judge_units(alloc, known, scope, Wanted::Open, units))
}

// Each label is compared with all before it.
#[cycle(judge)]
fn judge_cases(alloc: Global, known: &Known, scope: &Scope, cases: &[Case]) -> Row
    ensures { Is result (judged_all known.now (all_of (shape.arms scope.now [] (map (shape.case scope.now) cases.now)))) }
{
    let mut row = none(alloc);
    let mut earlier = List::new(alloc);
    for case in cases {
        row = add_case(alloc, known, scope, row, earlier.as_slice(), case);
        let Ok(()) = add_numbers(&mut earlier, scope, case.labels.as_slice()) else {
            let_go(row);
            return Err(Trouble::NoMemory);
        };
    }
    row
}

#[cycle(judge)]
fn judge_item(alloc: Global, known: &Known, scope: &Scope, item: &Item) -> Judged
    ensures { Is result (judged known.now (shape.item scope.now item.now)) }
{
    let at = item.name.at;
    let name = declared(alloc, at, scope, item.name.text.as_slice());
    match &item.init {
        None => name,
        Some(expr) => {
            let value = judge(alloc, known, scope, expr);
            initial_phrase(alloc, at, name, value)
        }
    }
}

#[cycle(judge)]
fn judge_items(alloc: Global, known: &Known, scope: &Scope, items: &[Item]) -> Row
    ensures { Is result (judged_all known.now (all_of (map (shape.item scope.now) items.now))) }
{
    let mut row = none(alloc);
    for item in items {
        row = with(row, judge_item(alloc, known, scope, item));
    }
    row
}

#[cycle(judge)]
fn judge_declaration(alloc: Global, known: &Known, scope: &Scope, items: &[Item]) -> Judged
    ensures { (at : ℕ) → Is result (judged known.now (row at form.declaration (map (shape.item scope.now) items.now))) }
{
    let items = judge_items(alloc, known, scope, items)?;
    let meant = declaration(alloc, items)?;
    Ok(meant)
}

#[cycle(judge)]
fn judge_limit(alloc: Global, known: &Known, scope: &Scope, limit: &Limit) -> Judged
    ensures { Is result (judged known.now (shape.limit scope.now limit.now).1) }
{
    match limit {
        Limit::Without => Ok(Meant::Absent),
        Limit::Upto(expr) => judge(alloc, known, scope, expr),
        Limit::Downto(expr) => judge(alloc, known, scope, expr),
    }
}

// The counter of a loop, its first value and its limit.
#[cycle(judge)]
fn judge_counter(alloc: Global, known: &Known, scope: &Scope, counter: &Counter) -> Three
    ensures { Is result (triple (judged known.now (shape.counter scope.now counter.now).0) (judged known.now (shape.counter scope.now counter.now).1)
        (judged known.now (shape.counter scope.now counter.now).2)) }
{
    let text = counter.name.text.as_slice();
    let name = named(alloc, known, Usage::Counter, counter.name.at, scope, text);
    let from = judge_optional(alloc, known, scope, &counter.from);
    let limit = judge_limit(alloc, known, scope, &counter.limit);
    three(name, from, limit)
}

/// The meaning of a unit; an empty one is as a part that is not written.
#[cycle(judge)]
fn judge_unit(alloc: Global, known: &Known, scope: &Scope, unit: &Unit) -> Judged
    ensures { Is result (judged known.now (shape.written (shape.unit scope.now unit.now))) }
{
    match unit {
        Unit::Empty => Ok(Meant::Absent),
        Unit::Variables(_, _, items) => judge_declaration(alloc, known, scope, items.as_slice()),
        Unit::Constants(_, _, items) => judge_declaration(alloc, known, scope, items.as_slice()),
        Unit::Value(expr) => {
            let value = judge(alloc, known, scope, expr)?;
            alone(alloc, value)
        }
        Unit::Becomes { at, left, right } => {
            let named = is_name(left);
            let left = judge(alloc, known, scope, left);
            let right = judge(alloc, known, scope, right);
            assignment_phrase(alloc, *at, scope, named, left, right)
        }
        Unit::Loop {
            at,
            counter,
            condition,
            units,
            until,
        } => {
            let condition = judge_optional(alloc, known, scope, condition);
            let units = judge_units(alloc, known, scope, Wanted::Nothing, units.as_slice());
            let until = judge_optional(alloc, known, scope, until);
            let turns = three(condition, units, until);
            match counter {
                None => loop_phrase(alloc, *at, turns),
                Some(counter) => {
                    let counter = counter.get();
                    let bounds = judge_counter(alloc, known, scope, counter);
                    count_phrase(alloc, *at, way(&counter.limit), bounds, turns)
                }
            }
        }
        Unit::Let(_, items) => judge_let(alloc, known, scope, items.as_slice()),
        Unit::Bound(_, _, items) => judge_declaration(alloc, known, scope, items.as_slice()),
        Unit::Leave { at, name, value } => {
            let value = judge_optional(alloc, known, scope, value)?;
            leaving(alloc, known, *at, scope, name.text.as_slice(), value)
        }
    }
}

/// A unit that is asked for this.
#[cycle(judge)]
pub fn judge_role(
    alloc: Global,
    known: &Known,
    scope: &Scope,
    wanted: Wanted<'_>,
    unit: &Unit,
) -> Judged
    ensures { Is result (judged known.now (shape.role (walk.wanted wanted.entry) (shape.written (shape.unit scope.now unit.now)))) }
{
    match wanted {
        Wanted::Open => judge_unit(alloc, known, scope, unit),
        Wanted::Nothing => {
            let meant = judge_unit(alloc, known, scope, unit)?;
            without_value(alloc, meant)
        }
        Wanted::Of(of) => {
            let meant = judge_unit(alloc, known, scope, unit)?;
            must_deliver(unit_place(unit), of, meant)
        }
    }
}

// A row, and one unit more, unless it is empty.
#[cycle(judge)]
fn add_role(
    alloc: Global,
    known: &Known,
    scope: &Scope,
    row: Row,
    wanted: Option<Wanted<'_>>,
    unit: &Unit,
) -> Row
    ensures { (done : List Phrase) → Is row (judged_all known.now (all_of done)) → Is result
        (judged_all known.now (all_of (done ++ walk.in_role (option_map walk.wanted wanted.entry) (shape.written (shape.unit scope.now unit.now))))) }
{
    match wanted {
        None => row,
        Some(wanted) => with(row, judge_role(alloc, known, scope, wanted, unit)),
    }
}

#[cycle(judge)]
fn judge_roles(
    alloc: Global,
    known: &Known,
    scope: &Scope,
    wanted: Wanted<'_>,
    units: &[Unit],
) -> Row
    ensures { Is result (judged_all known.now (all_of (shape.roles (walk.wanted wanted.entry) (shape.filled (map (shape.unit scope.now) units.now))))) }
{
    let mut row = none(alloc);
    for (i, unit) in units.iter().enumerate() {
        let role = asked(wanted, unit, &units[i + 1..]);
        row = add_role(alloc, known, scope, row, role, unit);
    }
    row
}

/// A list of units that has to deliver this.
#[cycle(judge)]
pub fn judge_units(
    alloc: Global,
    known: &Known,
    scope: &Scope,
    wanted: Wanted<'_>,
    units: &[Unit],
) -> Judged
    ensures { Is result (judged known.now (shape.units (walk.wanted wanted.entry) (map (shape.unit scope.now) units.now))) }
{
    let row = judge_roles(alloc, known, scope, wanted, units)?;
    let meant = in_order(alloc, row)?;
    Ok(meant)
}
