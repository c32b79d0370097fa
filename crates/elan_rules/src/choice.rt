//! IF: conditions, and parts that deliver the same.

ghost use Rattle.std.specs.Prelude.{◌≡◌, IfOk};
ghost use Rattle.elan_meant.specs.Parts as meanings;
ghost use Rattle.elan_rules.specs.Choices as spec;
ghost use Rattle.elan_rules.specs.walks.ChoiceSteps as walk;
ghost use Rattle.elan_meant.specs.Verdict.{gives, Tells};

use crate::parts::{part_for_none, together};
use elan_meant::arms::values_as;
use elan_meant::meant::Meant;
use elan_meant::operands::delivers_kind;
use elan_meant::part::{actions, boxed, one, value_of};
use elan_meant::row::Judged;
use elan_meant::together::pairs_of;
use elan_scope::delivery::Delivery;
use elan_scope::trouble::Trouble;
use elan_types::{Action, ElanType, ValuePhrase, Why};
use eu_base::{Boxed, Kind, List, NoMemory};
use std::alloc::Global;

// What IF does by parts that deliver nothing.
fn if_actions(
    alloc: Global,
    condition: Boxed<ValuePhrase>,
    first: Meant,
    second: Meant,
) -> Result<List<Action>, NoMemory>
    ensures { IfOk result (λ actions. actions ≡ walk.if_actions condition first second) }
{
    let first = actions(alloc, first);
    let second = actions(alloc, second);
    one(alloc, Action::If(condition.into_inner(), first, second))
}

// What IF delivers by parts that deliver a value of this type.
fn if_value(
    alloc: Global,
    condition: Boxed<ValuePhrase>,
    first: Meant,
    second: Meant,
    of: &ElanType,
) -> Result<Boxed<ValuePhrase>, NoMemory>
    ensures { IfOk result (λ value. value ≡ walk.if_value condition first second of.now) }
{
    match values_as(alloc, of, first, second) {
        Err(refusal) => {
            condition.into_inner().let_go();
            Err(refusal)
        }
        Ok((first, second)) => boxed(alloc, ValuePhrase::If(condition, first, second)),
    }
}

// One of two parts, which deliver the same. One that ends with a LEAVE agrees with every type.
fn chosen_of(
    alloc: Global,
    at: u32,
    condition: Boxed<ValuePhrase>,
    first: Meant,
    second: Meant,
) -> Judged
    ensures { Tells result (spec.chosen_of at condition first second) }
{
    match together(&first, &second) {
        Err(_refusal) => {
            condition.into_inner().let_go();
            first.let_go();
            second.let_go();
            Err(Trouble::NoMemory)
        }
        Ok(None) => {
            condition.into_inner().let_go();
            first.let_go();
            second.let_go();
            Err(Trouble::Breaks(at, Why::WrongType))
        }
        Ok(Some(Delivery::Nothing)) => {
            let actions = if_actions(alloc, condition, first, second)?;
            Ok(Meant::Done(actions))
        }
        Ok(Some(Delivery::Open)) => {
            let actions = if_actions(alloc, condition, first, second)?;
            Ok(Meant::Left(actions))
        }
        Ok(Some(Delivery::Of(of))) => {
            let value = if_value(alloc, condition, first, second, &of)?;
            Ok(Meant::Value { at, of, value })
        }
    }
}

// One of two parts, the first of which a truth value guards.
fn guarded(alloc: Global, at: u32, condition: Meant, units: Meant, rest: Meant) -> Judged
    ensures { Tells result (spec.chosen_of at (meanings.value_of condition) units rest) }
{
    match value_of(alloc, condition) {
        Err(_refusal) => {
            units.let_go();
            rest.let_go();
            Err(Trouble::NoMemory)
        }
        Ok(condition) => chosen_of(alloc, at, condition, units, rest),
    }
}

fn branched(alloc: Global, at: u32, branch: (Meant, Meant), rest: Meant) -> Judged
    ensures { Tells result (spec.branched at branch rest) }
{
    let (condition, units) = branch;
    if delivers_kind(Kind::Truth, &condition) {
        guarded(alloc, at, condition, units, rest)
    } else {
        condition.let_go();
        units.let_go();
        rest.let_go();
        Err(Trouble::Breaks(at, Why::WrongType))
    }
}

// Branches, from the first one on, and the part for none of them.
fn chain(alloc: Global, at: u32, mut branches: List<(Meant, Meant)>, otherwise: Meant) -> Judged
    ensures { Tells result (spec.chain at branches (gives otherwise)) }
{
    let mut rest = otherwise;
    while let Some(branch) = branches.pop() {
        match branched(alloc, at, branch, rest) {
            Err(trouble) => {
                Meant::pairs_let_go(branches);
                return Err(trouble);
            }
            Ok(part) => rest = part,
        }
    }
    Meant::pairs_let_go(branches);
    Ok(rest)
}

/// Conditions, each before its units, and the units of ELSE.
pub fn choice(alloc: Global, at: u32, parts: List<Meant>) -> Judged
    ensures { Tells result (spec.choice at parts) }
{
    let (branches, otherwise) = pairs_of(alloc, parts)?;
    chain(alloc, at, branches, part_for_none(otherwise))
}
