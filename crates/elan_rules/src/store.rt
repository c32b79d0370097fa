//! Assignments and initial values.

ghost use Rattle.std.specs.Prelude.{◌≡◌, true, false, is_some, Some, IfOk};
ghost use Rattle.std.specs.Option.{option_map_or};
ghost use Rattle.elan_types.specs.Types.{has_own, same_type};
ghost use Rattle.elan_types.specs.declared.elan_type.ElanType.TheVariants as types;
ghost use Rattle.elan_meant.specs.Parts as parts_of;
ghost use Rattle.elan_rules.specs.Units as spec;
ghost use Rattle.elan_rules.specs.walks.UnitSteps as walk;
ghost use Rattle.elan_meant.specs.Verdict.{gives, Tells};
ghost use Rattle.std.specs.Prelude.{[], ◌∷◌};
ghost use Rattle.elan_types.specs.declared.core_phrase.Action.{Action as Actions};
ghost use Rattle.elan_types.specs.declared.core_phrase.PlacePhrase.{out-PlacePhrase};

use elan_meant::meant::Meant;
use elan_meant::operands::{delivers, delivers_kind};
use elan_meant::part::{done, type_in, unit_doing, value_in, variable};
use elan_meant::row::Judged;
use elan_scope::trouble::Trouble;
use elan_types::{Action, ElanType, PlacePhrase, Why};
use eu_base::{Kind, NoMemory, Shape};
use std::alloc::Global;

fn is_space(of: &ElanType) -> bool
    ensures { result ≡ same_type types.Dataspace of.now }
{
    let space = ElanType::of_kind(Kind::Space);
    let same = space.is_same(of);
    space.let_go();
    same
}

// Whether the type that both deliver is that of data spaces, and its shape.
fn agreed(alloc: Global, at: u32, left: &Meant, right: &Meant) -> Result<(bool, Shape), Trouble>
    ensures { Tells result (walk.agreed_shape (spec.agreed at left.now right.now)) }
{
    match type_in(left) {
        None => Err(Trouble::Breaks(at, Why::WrongType)),
        Some(of) => {
            if delivers(of, right) {
                let shape = of.shape(alloc)?;
                Ok((is_space(of), shape))
            } else {
                Err(Trouble::Breaks(at, Why::WrongType))
            }
        }
    }
}

// A variable for a data space gets a copy.
fn given_to(
    alloc: Global,
    is_space: bool,
    place: PlacePhrase,
    shape: Shape,
    value: Meant,
) -> Result<Action, Trouble>
    ensures { Tells result (gives (spec.given_to is_space place shape (parts_of.value_of value))) }
{
    match value_in(alloc, value) {
        Err(_refusal) => {
            place.let_go();
            Err(Trouble::NoMemory)
        }
        Ok(value) => {
            if is_space {
                Ok(Action::Copy(place, value))
            } else {
                Ok(Action::Store(place, shape, value))
            }
        }
    }
}

// Both deliver one type, and a variable is needed at the left.
fn stored(alloc: Global, at: u32, left: Meant, right: Meant) -> Result<Action, Trouble>
    ensures { Tells result (spec.stored at left right) }
{
    match agreed(alloc, at, &left, &right) {
        Err(trouble) => {
            left.let_go();
            right.let_go();
            Err(trouble)
        }
        Ok((is_space, shape)) => match variable(at, left) {
            Err(trouble) => {
                right.let_go();
                Err(trouble)
            }
            Ok(place) => given_to(alloc, is_space, place, shape, right),
        },
    }
}

fn delivers_own(meant: &Meant) -> bool
    ensures { result ≡ option_map_or has_own (parts_of.type_in meant.now) false }
{
    match type_in(meant) {
        None => false,
        Some(of) => of.has_own(),
    }
}

/// An assignment. For types in which one of a text's own occurs none is predefined.
pub fn assigned(alloc: Global, at: u32, left: Meant, right: Meant) -> Judged
    ensures { Tells result (spec.assigned at left right) }
{
    if delivers_own(&left) {
        left.let_go();
        right.let_go();
        return Err(Trouble::Breaks(at, Why::WrongType));
    }
    let action = stored(alloc, at, left, right)?;
    unit_doing(alloc, action)
}

// ---- BOUND variables

fn is_bound(meant: &Meant) -> bool
    ensures { result ≡ is_some (spec.bound_in meant.now) }
{
    match meant {
        Meant::Variable { place, .. } => match place {
            PlacePhrase::Content(_, _) => true,
            _ => false,
        },
        _ => false,
    }
}

/// Whether a BOUND variable at the left is given a data space.
pub fn binds(left: &Meant, right: &Meant) -> bool
    ensures { result ≡ is_some (spec.binding left.now right.now) }
{
    delivers_kind(Kind::Space, right) && is_bound(left)
}

// The BOUND variable for whose content a place stands, and the shape of the content.
fn content(place: PlacePhrase) -> Option<(PlacePhrase, Shape)>
    ensures { result ≡ spec.content_here (out-PlacePhrase place) }
{
    match place {
        PlacePhrase::Content(variable, shape) => Some((variable.into_inner(), shape)),
        other => {
            other.let_go();
            None
        }
    }
}

fn bound_in(meant: Meant) -> Option<(PlacePhrase, Shape)>
    ensures { result ≡ spec.bound_in meant }
{
    match meant {
        Meant::Variable { at: _at, of, place } => {
            of.let_go();
            content(place)
        }
        other => {
            other.let_go();
            None
        }
    }
}

// It is bound to it.
fn binding(alloc: Global, left: Meant, right: Meant) -> Result<Action, NoMemory>
    ensures { is_some (spec.binding left right) ≡ true → IfOk result (λ action. spec.binding left right ≡ Some action) }
{
    match bound_in(left) {
        None => {
            right.let_go();
            Err(NoMemory)
        }
        Some((variable, shape)) => match value_in(alloc, right) {
            Err(refusal) => {
                variable.let_go();
                Err(refusal)
            }
            Ok(value) => Ok(Action::Bind(variable, shape, value)),
        },
    }
}

/// A BOUND variable that is given a data space.
pub fn bound(alloc: Global, left: Meant, right: Meant) -> Judged
    ensures { (a : Actions) → spec.binding left right ≡ Some a → Tells result (gives (parts_of.unit_of (a ∷ []))) }
{
    let action = binding(alloc, left, right)?;
    unit_doing(alloc, action)
}

/// A name in its declaration, and its initial value.
#[tactic(auto, using(crate::proofs::Stores::initial_fails, crate::proofs::Stores::initial_stores, crate::proofs::Stores::initial_binds))]
pub fn initial(alloc: Global, at: u32, name: Meant, init: Meant) -> Judged
    ensures { Tells result (spec.initial at name init) }
{
    if binds(&name, &init) {
        let action = binding(alloc, name, init)?;
        return done(alloc, action);
    }
    let action = stored(alloc, at, name, init)?;
    done(alloc, action)
}
