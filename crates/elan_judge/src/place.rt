//! The places of units.

ghost use Rattle.std.specs.Prelude.{◌≡◌};
ghost use Rattle.elan_scope.specs.declared.scope.Scope.{Scope};
ghost use Rattle.elan_scope.specs.Phrase as form;
ghost use Rattle.elan_judge.specs.Shape as shape;

use elan_tree::{Expr, Unit};

fn expr_place(expr: &Expr) -> u32
    ensures { (s : Scope) → result ≡ form.place (shape.expr s expr.now) }
{
    match expr {
        Expr::Number(at, _) => *at,
        Expr::Truth(at, _) => *at,
        Expr::Named(name) => name.at,
        Expr::Call(name, _) => name.at,
        Expr::Bracket(at, _) => *at,
        Expr::If { at, .. } => *at,
        Expr::Select { at, .. } => *at,
        Expr::Monadic { at, .. } => *at,
        Expr::Dyadic { at, .. } => *at,
        Expr::Cand { at, .. } => *at,
        Expr::Cor { at, .. } => *at,
        Expr::Text(at, _) => *at,
        Expr::Procedure(at, _) => *at,
        Expr::Concr(at, _) => *at,
        Expr::Index { at, .. } => *at,
        Expr::Field { at, .. } => *at,
    }
}

/// The place of a unit; 0 of one that is empty.
pub fn unit_place(unit: &Unit) -> u32
    ensures { (s : Scope) → result ≡ form.place (shape.written (shape.unit s unit.now)) }
{
    match unit {
        Unit::Variables(at, _, _) => *at,
        Unit::Constants(at, _, _) => *at,
        Unit::Value(expr) => expr_place(expr),
        Unit::Becomes { at, .. } => *at,
        Unit::Loop { at, .. } => *at,
        Unit::Leave { at, .. } => *at,
        Unit::Empty => 0,
        Unit::Let(at, _) => *at,
        Unit::Bound(at, _, _) => *at,
    }
}
