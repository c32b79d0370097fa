//! The walk.

ghost use Rattle.std.specs.Prelude.{[], map, flat_map, option_map, unwrap_or};
ghost use Rattle.elan_walk.specs.Nodes as spec;
ghost use Rattle.elan_walk.specs.Walk.{Seen};

use crate::node::{Held, Node, Visitor};
use containers::{Boxed, List};
use elan_tree::{Branch, Case, Counter, Expr, Item, Label, LetItem, Limit, TypePhrase, Unit};

fn labels<V: Visitor>(mut visitor: V, labels: &[Label]) -> V
    ensures { Seen V.wanted V.after (spec.labels labels.now) visitor result }
{
    for label in labels {
        if let Label::Named(name) = label {
            visitor = visitor.visit(Node::Other(name));
        }
    }
    visitor
}

fn let_items<V: Visitor>(mut visitor: V, items: &[LetItem]) -> V
    ensures { Seen V.wanted V.after (map spec.let_item items.now) visitor result }
{
    for item in items {
        visitor = visitor.visit(match item {
            LetItem::Constant(name, constant) => Node::Let(name, constant),
            LetItem::Abbreviation(name, of) => Node::Abbreviation(name, of),
        });
    }
    visitor
}

// An arm a form of expression, so it is as long as there are forms.
#[cycle(walk)]
fn in_expr<V: Visitor>(visitor: V, expr: &Expr) -> V
    ensures { Seen V.wanted V.after (spec.in_expr expr.now) visitor result }
{
    match expr {
        Expr::Number(_, _) | Expr::Truth(_, _) | Expr::Text(_, _) => visitor,
        Expr::Named(name) => visitor.visit(Node::Alone(name)),
        Expr::Call(name, actuals) => {
            let visitor = visitor.visit(Node::Other(name));
            in_exprs(visitor, actuals.as_slice())
        }
        Expr::Bracket(_, inner) => in_expr(visitor, inner.get()),
        Expr::Concr(_, inner) => in_expr(visitor, inner.get()),
        Expr::If {
            branches,
            otherwise,
            ..
        } => {
            let visitor = in_branches(visitor, branches.as_slice());
            in_otherwise(visitor, otherwise)
        }
        Expr::Select {
            of,
            cases,
            otherwise,
            ..
        } => {
            let visitor = in_expr(visitor, of.get());
            let visitor = in_cases(visitor, cases.as_slice());
            in_otherwise(visitor, otherwise)
        }
        Expr::Monadic {
            operator,
            operand,
            ..
        } => {
            let visitor = visitor.visit(Node::Operator(operator));
            in_expr(visitor, operand.get())
        }
        Expr::Dyadic {
            operator,
            left,
            right,
            ..
        } => {
            let visitor = in_expr(visitor, left.get());
            let visitor = visitor.visit(Node::Operator(operator));
            in_expr(visitor, right.get())
        }
        Expr::Cand { left, right, .. } => {
            let visitor = in_expr(visitor, left.get());
            in_expr(visitor, right.get())
        }
        Expr::Cor { left, right, .. } => {
            let visitor = in_expr(visitor, left.get());
            in_expr(visitor, right.get())
        }
        Expr::Index { of, index, .. } => {
            let visitor = in_expr(visitor, of.get());
            in_expr(visitor, index.get())
        }
        Expr::Field { of, field, .. } => {
            let visitor = in_expr(visitor, of.get());
            visitor.visit(Node::Other(field))
        }
        Expr::Procedure(_, name) => visitor.visit(Node::Other(name)),
    }
}

#[cycle(walk)]
fn in_exprs<V: Visitor>(mut visitor: V, exprs: &[Expr]) -> V
    ensures { Seen V.wanted V.after (spec.all (map spec.in_expr exprs.now)) visitor result }
{
    for expr in exprs {
        visitor = in_expr(visitor, expr);
    }
    visitor
}

#[cycle(walk)]
fn in_optional<V: Visitor>(visitor: V, expr: &Option<Expr>) -> V
    ensures { Seen V.wanted V.after (unwrap_or (option_map spec.in_expr expr.now) []) visitor result }
{
    match expr {
        None => visitor,
        Some(expr) => in_expr(visitor, expr),
    }
}

#[cycle(walk)]
fn in_otherwise<V: Visitor>(mut visitor: V, otherwise: &Option<List<Unit>>) -> V
    ensures { Seen V.wanted V.after (spec.all (unwrap_or (option_map (map spec.in_unit) otherwise.now) [])) visitor result }
{
    if let Some(list) = otherwise {
        let units = list.as_slice();
        for unit in units {
            visitor = visit_unit(visitor, unit);
        }
    }
    visitor
}

#[cycle(walk)]
fn in_branches<V: Visitor>(mut visitor: V, branches: &[Branch]) -> V
    ensures { Seen V.wanted V.after (spec.all (map spec.in_branch branches.now)) visitor result }
{
    for branch in branches {
        visitor = in_expr(visitor, &branch.condition);
        visitor = visit_units(visitor, branch.units.as_slice());
    }
    visitor
}

#[cycle(walk)]
fn in_cases<V: Visitor>(mut visitor: V, cases: &[Case]) -> V
    ensures { Seen V.wanted V.after (spec.all (map spec.in_case cases.now)) visitor result }
{
    for case in cases {
        visitor = labels(visitor, case.labels.as_slice());
        visitor = visit_units(visitor, case.units.as_slice());
    }
    visitor
}

// What is declared with one type.
#[cycle(walk)]
fn in_items<V: Visitor>(mut visitor: V, items: &[Item], held: Held, of: &TypePhrase) -> V
    ensures { Seen V.wanted V.after (flat_map (λ i. i held of.now) (map spec.in_item items.now)) visitor result }
{
    for item in items {
        visitor = visitor.visit(Node::Item(held, of, &item.name));
        visitor = in_optional(visitor, &item.init);
    }
    visitor
}

#[cycle(walk)]
fn in_limit<V: Visitor>(visitor: V, limit: &Limit) -> V
    ensures { Seen V.wanted V.after (spec.in_limit limit.now) visitor result }
{
    match limit {
        Limit::Without => visitor,
        Limit::Upto(expr) => in_expr(visitor, expr),
        Limit::Downto(expr) => in_expr(visitor, expr),
    }
}

#[cycle(walk)]
fn in_counter<V: Visitor>(visitor: V, counter: &Option<Boxed<Counter>>) -> V
    ensures { Seen V.wanted V.after (unwrap_or (option_map spec.in_counter counter.now) []) visitor result }
{
    match counter {
        None => visitor,
        Some(counter) => {
            let counter = counter.get();
            let visitor = visitor.visit(Node::Other(&counter.name));
            let visitor = in_optional(visitor, &counter.from);
            in_limit(visitor, &counter.limit)
        }
    }
}

/// Looks at the nodes of a unit, in text order. An arm a form of unit, so it is as long as there are forms.
#[cycle(walk)]
pub fn visit_unit<V: Visitor>(visitor: V, unit: &Unit) -> V
    ensures { Seen V.wanted V.after (spec.in_unit unit.now) visitor result }
{
    match unit {
        Unit::Empty => visitor,
        Unit::Variables(_, of, items) => {
            let visitor = visitor.visit(Node::Type(of));
            in_items(visitor, items.as_slice(), Held::Variable, of)
        }
        Unit::Constants(_, of, items) => {
            let visitor = visitor.visit(Node::Type(of));
            in_items(visitor, items.as_slice(), Held::Constant, of)
        }
        Unit::Value(expr) => in_expr(visitor, expr),
        Unit::Becomes { left, right, .. } => {
            let visitor = in_expr(visitor, left);
            in_expr(visitor, right)
        }
        Unit::Loop {
            counter,
            condition,
            units,
            until,
            ..
        } => {
            let visitor = in_counter(visitor, counter);
            let visitor = in_optional(visitor, condition);
            let visitor = visit_units(visitor, units.as_slice());
            in_optional(visitor, until)
        }
        Unit::Leave { name, value, .. } => {
            let visitor = visitor.visit(Node::Other(name));
            in_optional(visitor, value)
        }
        Unit::Let(_, items) => let_items(visitor, items.as_slice()),
        Unit::Bound(_, of, items) => {
            let visitor = visitor.visit(Node::Content(of));
            in_items(visitor, items.as_slice(), Held::Bound, of)
        }
    }
}

/// Looks at the nodes of units, in text order.
#[cycle(walk)]
pub fn visit_units<V: Visitor>(mut visitor: V, units: &[Unit]) -> V
    ensures { Seen V.wanted V.after (spec.in_units units.now) visitor result }
{
    for unit in units {
        visitor = visit_unit(visitor, unit);
    }
    visitor
}
