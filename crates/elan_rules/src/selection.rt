//! SELECT: labels, and parts that deliver the same.

ghost use Rattle.std.specs.Prelude.{◌≡◌, ◌∷◌, [], IfOk, Some};
ghost use Rattle.elan_meant.specs.Parts as meanings;
ghost use Rattle.elan_meant.specs.declared.meant.Meant.TheVariants as means;
ghost use Rattle.elan_rules.specs.Choices as spec;
ghost use Rattle.elan_rules.specs.walks.ChoiceSteps as walk;
ghost use Rattle.elan_scope.specs.Answer.{Gives};
ghost use Rattle.elan_scope.specs.Scope as scopes;
ghost use Rattle.elan_names.specs.declared.heading.Sort.TheVariants.{Procedure};
ghost use Rattle.elan_meant.specs.Verdict.{told, Tells};

use crate::parts::{delivery_in, joined, part_for_none};
use elan_meant::arms::{action_arms, arms_as};
use elan_meant::meant::Meant;
use elan_meant::operands::delivers_kind;
use elan_meant::part::{actions, boxed, one, value_of};
use elan_meant::row::Judged;
use elan_meant::together::pairs_of;
use elan_names::heading::Sort;
use elan_scope::delivery::Delivery;
use elan_scope::scope::Scope;
use elan_scope::trouble::Trouble;
use elan_types::{Action, ElanType, ValuePhrase, Why};
use eu_base::{Boxed, Kind, List, NoMemory};
use std::alloc::Global;

fn is_in(labels: &[i16], number: i16) -> bool
    ensures { result ≡ walk.is_in labels.now number }
{
    for label in labels {
        if *label == number {
            return true;
        }
    }
    false
}

/// A label after others.
pub fn label_is(at: u32, earlier: &[i16], number: i16) -> Result<i16, Trouble>
    ensures { Gives (λ n. means.Labels (n ∷ [])) result (told (spec.label_is at earlier.now number)) }
{
    if is_in(earlier, number) {
        Err(Trouble::Breaks(at, Why::Doubled))
    } else {
        Ok(number)
    }
}

/// An identifier as a label after others. It has the wrong type where it names anything but a number of a LET.
pub fn label_named(at: u32, earlier: &[i16], scope: &Scope, name: &[u8]) -> Result<i16, Trouble>
    ensures { Gives (λ n. means.Labels (n ∷ [])) result (told (spec.label_named at earlier.now (scopes.is_known scope.now Procedure name.now 0) (scopes.find scope.now name.now))) }
{
    match scope.number_named(name) {
        Some(number) => label_is(at, earlier, number),
        None => {
            if scope.find(name).is_some() || scope.is_known(Sort::Procedure, name, 0) {
                Err(Trouble::Breaks(at, Why::WrongType))
            } else {
                Err(Trouble::Breaks(at, Why::Unknown))
            }
        }
    }
}

// What all parts deliver, if they agree.
fn agreed(
    alloc: Global,
    otherwise: &Meant,
    arms: &[(Meant, Meant)],
) -> Result<Option<Delivery>, NoMemory>
    ensures { IfOk result (λ delivery. delivery ≡ spec.agreed (Some (spec.delivery_in otherwise.now)) arms.now) }
{
    let mut agreed = Some(delivery_in(otherwise)?);
    for arm in arms {
        let delivery = delivery_in(&arm.1)?;
        agreed = match agreed {
            None => None,
            Some(before) => joined(before, delivery),
        };
    }
    Ok(agreed)
}

fn select_actions(
    alloc: Global,
    value: Boxed<ValuePhrase>,
    arms: List<(Meant, Meant)>,
    otherwise: Meant,
) -> Result<List<Action>, NoMemory>
    ensures { IfOk result (λ actions. actions ≡ walk.select_actions value arms otherwise) }
{
    match action_arms(alloc, arms) {
        Err(refusal) => {
            value.into_inner().let_go();
            otherwise.let_go();
            Err(refusal)
        }
        Ok(arms) => {
            let units = actions(alloc, otherwise);
            one(alloc, Action::Select(value.into_inner(), arms, units))
        }
    }
}

fn select_value(
    alloc: Global,
    value: Boxed<ValuePhrase>,
    arms: List<(Meant, Meant)>,
    otherwise: Meant,
    of: &ElanType,
) -> Result<Boxed<ValuePhrase>, NoMemory>
    ensures { IfOk result (λ v. v ≡ walk.select_value value arms otherwise of.now) }
{
    match arms_as(alloc, of, arms, otherwise) {
        Err(refusal) => {
            value.into_inner().let_go();
            Err(refusal)
        }
        Ok((arms, last)) => boxed(alloc, ValuePhrase::Select(value, arms, last)),
    }
}

fn selected_by(
    alloc: Global,
    at: u32,
    value: Boxed<ValuePhrase>,
    arms: List<(Meant, Meant)>,
    otherwise: Meant,
) -> Judged
    ensures { Tells result (spec.selected_by at value arms otherwise) }
{
    match agreed(alloc, &otherwise, arms.as_slice()) {
        Err(_refusal) => {
            value.into_inner().let_go();
            Meant::pairs_let_go(arms);
            otherwise.let_go();
            Err(Trouble::NoMemory)
        }
        Ok(None) => {
            value.into_inner().let_go();
            Meant::pairs_let_go(arms);
            otherwise.let_go();
            Err(Trouble::Breaks(at, Why::WrongType))
        }
        Ok(Some(Delivery::Nothing)) => {
            let actions = select_actions(alloc, value, arms, otherwise)?;
            Ok(Meant::Done(actions))
        }
        Ok(Some(Delivery::Open)) => {
            let actions = select_actions(alloc, value, arms, otherwise)?;
            Ok(Meant::Left(actions))
        }
        Ok(Some(Delivery::Of(of))) => {
            let value = select_value(alloc, value, arms, otherwise, &of)?;
            Ok(Meant::Value { at, of, value })
        }
    }
}

// The parts behind the value.
fn selected_among(alloc: Global, at: u32, value: Boxed<ValuePhrase>, parts: List<Meant>) -> Judged
    ensures { Tells result (spec.selected_by at value (meanings.pairs parts) (walk.otherwise (meanings.odd parts))) }
{
    match pairs_of(alloc, parts) {
        Err(_) => {
            value.into_inner().let_go();
            Err(Trouble::NoMemory)
        }
        Ok((arms, otherwise)) => { selected_by(alloc, at, value, arms, part_for_none(otherwise)) }
    }
}

/// The value to choose by; then labels, each before their units, and the units of OTHERWISE.
pub fn selected(alloc: Global, at: u32, value: Meant, parts: List<Meant>) -> Judged
    ensures { Tells result (spec.selected at value parts) }
{
    if delivers_kind(Kind::Int, &value) {
        match value_of(alloc, value) {
            Err(_) => {
                Meant::all_let_go(parts);
                Err(Trouble::NoMemory)
            }
            Ok(value) => selected_among(alloc, at, value, parts),
        }
    } else {
        value.let_go();
        Meant::all_let_go(parts);
        Err(Trouble::Breaks(at, Why::WrongType))
    }
}
