//! Units as text: each application in braces, each bracket in angles.

use crate::answers::put;
use containers::{Bytes, List};
use elan_tree::{Branch, Expr, Operator, Sign, Unit};

pub fn word(out: &mut String, text: &Bytes) {
    put(out, str::from_utf8(text.as_slice()).unwrap_or("?"));
}

pub fn sign(out: &mut String, sign: Sign) {
    let _put = write!(out, "{sign:?}").is_ok();
}

pub fn number(out: &mut String, number: i16) {
    let _put = write!(out, "{number}").is_ok();
}

fn operator(out: &mut String, operator: &Operator) {
    match operator {
        Operator::Sign(found) => sign(out, *found),
        Operator::Named(text) => word(out, text),
    }
}

// The front and the end of an application. Each takes one operand alone, so that a measure is found.
#[cycle(shown)]
fn opened(out: &mut String, left: &Expr) {
    put(out, "{");
    expr(out, left);
    put(out, " ");
}

#[cycle(shown)]
fn closed(out: &mut String, right: &Expr) {
    put(out, " ");
    expr(out, right);
    put(out, "}");
}

#[cycle(shown)]
fn branches(out: &mut String, branches: &List<Branch>) {
    for branch in branches.as_slice() {
        put(out, "IF ");
        expr(out, &branch.condition);
        put(out, " THEN ");
        units(out, &branch.units);
        put(out, " ");
    }
}

#[cycle(shown)]
fn actuals(out: &mut String, actuals: &List<Expr>) {
    for actual in actuals.as_slice() {
        put(out, " ");
        expr(out, actual);
    }
}

// An arm a form of expression, so it is as long as there are forms. The rows have no others.
#[cycle(shown)]
fn expr(out: &mut String, e: &Expr) {
    match e {
        Expr::Number(_, found) => number(out, *found),
        Expr::Named(name) => word(out, &name.text),
        Expr::Call(name, given) => {
            word(out, &name.text);
            actuals(out, given);
        }
        Expr::Bracket(_, inner) => {
            put(out, "<");
            expr(out, inner.get());
            put(out, ">");
        }
        Expr::If {
            branches: parts,
            otherwise,
            ..
        } => {
            branches(out, parts);
            if let Some(row) = otherwise {
                put(out, "ELSE ");
                units(out, row);
                put(out, " ");
            }
            put(out, "FI");
        }
        Expr::Index { of, index, .. } => {
            opened(out, of.get());
            put(out, "at");
            closed(out, index.get());
        }
        Expr::Field { of, field, .. } => {
            put(out, "{");
            expr(out, of.get());
            put(out, ".");
            word(out, &field.text);
            put(out, "}");
        }
        Expr::Monadic {
            operator: by,
            operand,
            ..
        } => {
            put(out, "{");
            operator(out, by);
            closed(out, operand.get());
        }
        Expr::Dyadic {
            operator: by,
            left,
            right,
            ..
        } => {
            opened(out, left.get());
            operator(out, by);
            closed(out, right.get());
        }
        Expr::Cand { left, right, .. } => {
            opened(out, left.get());
            put(out, "CAND");
            closed(out, right.get());
        }
        Expr::Cor { left, right, .. } => {
            opened(out, left.get());
            put(out, "COR");
            closed(out, right.get());
        }
        _ => put(out, "?"),
    }
}

/// Writes how the operators of a unit hold, in braces.
#[cycle(shown)]
pub fn unit(out: &mut String, unit: &Unit) {
    match unit {
        Unit::Empty => {}
        Unit::Value(value) => expr(out, value),
        Unit::Becomes { left, right, .. } => {
            opened(out, left);
            put(out, ":=");
            closed(out, right);
        }
        _ => put(out, "?"),
    }
}

#[cycle(shown)]
fn units(out: &mut String, row: &List<Unit>) {
    for each in row.as_slice() {
        unit(out, each);
        put(out, ";");
    }
}
