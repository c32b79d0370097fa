//! The names that LET gives to constants and types.

ghost use Rattle.std.specs.Prelude.{ℕ, map};
ghost use Rattle.elan_scope.specs.Phrase as form;
ghost use Rattle.elan_scope.specs.Phrase.{row};
ghost use Rattle.elan_rules.specs.Meaning.{judged};
ghost use Rattle.elan_scope.specs.Answer.{Is};
ghost use Rattle.elan_judge.specs.Shape as shape;

use crate::below::of_value_rules::name::{declared, type_declared};
use crate::below::of_value_rules::value::{number, text, truth};
use elan_meant::row::Judged;
use elan_meant::together::{none, pair, with};
use elan_rules::list::definition;
use elan_scope::known::Known;
use elan_scope::scope::Scope;
use elan_tree::{Constant, LetItem};
use std::alloc::Global;

fn judge_constant(alloc: Global, known: &Known, scope: &Scope, constant: &Constant) -> Judged
    ensures { Is result (judged known.now (shape.constant scope.now constant.now)) }
{
    match constant {
        Constant::Number(at, written) => number(alloc, *at, *written),
        Constant::Text(at, written) => text(alloc, *at, written.as_slice()),
        Constant::Truth(at, written) => truth(alloc, *at, *written),
    }
}

fn judge_let_item(alloc: Global, known: &Known, scope: &Scope, item: &LetItem) -> Judged
    ensures { Is result (judged known.now (shape.let_item scope.now item.now)) }
{
    match item {
        LetItem::Constant(name, constant) => {
            let declared = declared(alloc, name.at, scope, name.text.as_slice());
            let constant = judge_constant(alloc, known, scope, constant);
            definition(alloc, pair(alloc, declared, constant))
        }
        LetItem::Abbreviation(name, _) => {
            type_declared(alloc, name.at, scope, name.text.as_slice())
        }
    }
}

/// The names of a LET.
pub fn judge_let(alloc: Global, known: &Known, scope: &Scope, items: &[LetItem]) -> Judged
    ensures { (at : ℕ) → Is result (judged known.now (row at form.definition (map (shape.let_item scope.now) items.now))) }
{
    let mut row = none(alloc);
    for item in items {
        row = with(row, judge_let_item(alloc, known, scope, item));
    }
    definition(alloc, row)
}
