//! What parts deliver.

ghost use Rattle.std.specs.Prelude.{◌≡◌, IfOk, [], ◌∷◌, option_map};
ghost use Rattle.elan_types.specs.Types as types;
ghost use Rattle.elan_types.specs.declared.core_phrase.ValuePhrase.TheVariants as values;
ghost use Rattle.elan_meant.specs.Parts as spec;
ghost use Rattle.elan_meant.specs.Verdict.{gives, Tells};

use crate::meant::Meant;
use crate::operands::delivers_kind;
use crate::row::{Judged, both};
use elan_scope::trouble::Trouble;
use elan_types::{Action, ElanType, PlacePhrase, ValuePhrase, Why};
use eu_base::{Boxed, Kind, List, NoMemory};
use std::alloc::Global;

/// The values of two parts, each if it is written.
pub type Values = (Option<ValuePhrase>, Option<ValuePhrase>);

/// What stands at a place, as a value of this type.
pub fn loaded(alloc: Global, of: &ElanType, place: PlacePhrase) -> Result<ValuePhrase, NoMemory>
    ensures { IfOk result (λ value. value ≡ values.Load place (types.shape_in of.now)) }
{
    match of.shape(alloc) {
        Err(refusal) => {
            place.let_go();
            Err(refusal)
        }
        Ok(shape) => Ok(ValuePhrase::Load(place, shape)),
    }
}

/// The value of a part that delivers one.
pub fn value_of(alloc: Global, meant: Meant) -> Result<Boxed<ValuePhrase>, NoMemory>
    ensures { IfOk result (λ value. value ≡ spec.value_of meant) }
{
    match meant {
        Meant::Variable { at: _at, of, place } => {
            let value = loaded(alloc, &of, place);
            of.let_go();
            Boxed::new(alloc, value?)
        }
        Meant::Value { at: _at, of, value } => {
            of.let_go();
            Ok(value)
        }
        other => {
            other.let_go();
            Boxed::new(alloc, ValuePhrase::Truth(false))
        }
    }
}

/// The same without a box.
pub fn value_in(alloc: Global, meant: Meant) -> Result<ValuePhrase, NoMemory>
    ensures { IfOk result (λ value. value ≡ spec.value_of meant) }
{
    match meant {
        Meant::Variable { at: _at, of, place } => {
            let value = loaded(alloc, &of, place);
            of.let_go();
            value
        }
        Meant::Value { at: _at, of, value } => {
            of.let_go();
            Ok(value.into_inner())
        }
        other => {
            other.let_go();
            Ok(ValuePhrase::Truth(false))
        }
    }
}

/// The variable that a part is; all else breaks the rule that a variable is needed: a value at its own place, and what delivers
/// nothing at the place of the phrase that needs the variable.
pub fn variable(at: u32, meant: Meant) -> Result<PlacePhrase, Trouble>
    ensures { Tells result (spec.variable at meant) }
{
    match meant {
        Meant::Variable { at: _at, of, place } => {
            of.let_go();
            Ok(place)
        }
        Meant::Value {
            at: place,
            of,
            value,
        } => {
            of.let_go();
            value.into_inner().let_go();
            Err(Trouble::Breaks(place, Why::NoVariable))
        }
        other => {
            other.let_go();
            Err(Trouble::Breaks(at, Why::NoVariable))
        }
    }
}

/// The type that a part delivers, if it delivers a value.
pub fn type_in(meant: &Meant) -> Option<&ElanType>
    ensures { option_map (λ t. t.now) result ≡ spec.type_in meant.now }
{
    match meant {
        Meant::Variable { of, .. } => Some(of),
        Meant::Value { of, .. } => Some(of),
        _ => None,
    }
}

/// The actions of a part that delivers nothing.
pub fn actions(alloc: Global, meant: Meant) -> List<Action>
    ensures { result ≡ spec.actions meant }
{
    match meant {
        Meant::Done(actions) => actions,
        Meant::Left(actions) => actions,
        other => {
            other.let_go();
            List::new(alloc)
        }
    }
}

/// Whether a part is not written, or delivers the type of what is predefined for cells of this kind.
pub fn may_deliver(kind: Kind, meant: &Meant) -> bool
    ensures { result ≡ spec.may_deliver (types.type_in kind) meant.now }
{
    match meant {
        Meant::Absent => true,
        _ => delivers_kind(kind, meant),
    }
}

/// The value of a part, if it is written.
pub fn written(alloc: Global, meant: Meant) -> Result<Option<ValuePhrase>, NoMemory>
    ensures { IfOk result (λ value. value ≡ spec.written meant) }
{
    match meant {
        Meant::Variable { at: _at, of, place } => {
            let value = loaded(alloc, &of, place);
            of.let_go();
            Ok(Some(value?))
        }
        Meant::Value { at: _at, of, value } => {
            of.let_go();
            Ok(Some(value.into_inner()))
        }
        other => {
            other.let_go();
            Ok(None)
        }
    }
}

/// The values of two parts, each if it is written.
pub fn both_written(alloc: Global, first: Meant, second: Meant) -> Result<Values, NoMemory>
    ensures { IfOk result (λ values. values ≡ (spec.written first, spec.written second)) }
{
    let first = written(alloc, first);
    both(first, written(alloc, second))
}

/// The values of two parts and of two others, each if it is written.
pub fn four_written(
    alloc: Global,
    first: (Meant, Meant),
    second: (Meant, Meant),
) -> Result<(Values, Values), NoMemory>
    ensures { IfOk result (λ values. values ≡ ((spec.written first.0, spec.written first.1), (spec.written second.0, spec.written second.1))) }
{
    let first = both_written(alloc, first.0, first.1);
    both(first, both_written(alloc, second.0, second.1))
}

/// A phrase that delivers this value.
pub fn delivering(alloc: Global, at: u32, of: ElanType, value: ValuePhrase) -> Judged
    ensures { Tells result (gives (Meant.Value at of value)) }
{
    let value = Boxed::new(alloc, value)?;
    Ok(Meant::Value { at, of, value })
}

/// The same, with a copy of the type.
pub fn delivering_as(alloc: Global, at: u32, of: &ElanType, value: ValuePhrase) -> Judged
    ensures { Tells result (gives (Meant.Value at of.now value)) }
{
    match of.try_clone() {
        Err(_refusal) => {
            value.let_go();
            Err(Trouble::NoMemory)
        }
        Ok(of) => delivering(alloc, at, of, value),
    }
}

/// One action.
pub fn one(alloc: Global, action: Action) -> Result<List<Action>, NoMemory>
    ensures { IfOk result (λ actions. actions ≡ action ∷ []) }
{
    let mut actions = List::new(alloc);
    actions.push(action)?;
    Ok(actions)
}

/// A unit that delivers nothing.
pub fn unit_of(alloc: Global, actions: List<Action>) -> Judged
    ensures { Tells result (gives (spec.unit_of actions)) }
{
    let units = one(alloc, Action::Unit(actions))?;
    Ok(Meant::Done(units))
}

/// A phrase that delivers nothing, and does this.
pub fn done(alloc: Global, action: Action) -> Judged
    ensures { Tells result (gives (Meant.Done (action ∷ []))) }
{
    let actions = one(alloc, action)?;
    Ok(Meant::Done(actions))
}

/// A unit that delivers nothing, and does this.
pub fn unit_doing(alloc: Global, action: Action) -> Judged
    ensures { Tells result (gives (spec.unit_of (action ∷ []))) }
{
    let actions = one(alloc, action)?;
    unit_of(alloc, actions)
}

/// A value in a box of its own.
pub fn boxed(alloc: Global, value: ValuePhrase) -> Result<Boxed<ValuePhrase>, NoMemory>
    ensures { IfOk result (λ made. made ≡ value) }
{
    Boxed::new(alloc, value)
}

/// A value of a type that is never reached.
pub fn never(alloc: Global, of: &ElanType) -> Result<Boxed<ValuePhrase>, NoMemory>
    ensures { IfOk result (λ v. v ≡ values.Never (types.shape_in of.now)) }
{
    let shape = of.shape(alloc)?;
    Boxed::new(alloc, ValuePhrase::Never(shape))
}

/// Actions that end with a LEAVE, where a value of a type is asked for.
pub fn unreached(
    alloc: Global,
    actions: List<Action>,
    of: &ElanType,
) -> Result<Boxed<ValuePhrase>, NoMemory>
    ensures { IfOk result (λ v. v ≡ spec.unreached actions of.now) }
{
    match never(alloc, of) {
        Err(refusal) => {
            Action::all_let_go(actions);
            Err(refusal)
        }
        Ok(value) => Boxed::new(alloc, ValuePhrase::After(actions, value)),
    }
}
