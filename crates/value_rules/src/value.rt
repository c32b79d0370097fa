//! Numbers, texts, brackets, CAND and COR.

ghost use Rattle.std.specs.Prelude.{◌≡◌};
ghost use Rattle.elan_types.specs.Types.{concrete, is_own_from};
ghost use Rattle.elan_types.specs.declared.elan_type.ElanType.TheVariants as types;
ghost use Rattle.elan_types.specs.declared.core_phrase.ValuePhrase.TheVariants as values;
ghost use Rattle.elan_meant.specs.declared.meant.Meant.TheVariants as means;
ghost use Rattle.elan_meant.specs.Parts as parts;
ghost use Rattle.value_rules.specs.Values as spec;
ghost use Rattle.value_rules.specs.walks.Steps as walk;
ghost use Rattle.elan_meant.specs.Verdict.{gives, Tells};

use elan_meant::meant::Meant;
use elan_meant::operands::delivers_kind;
use elan_meant::part::{delivering, loaded, value_of};
use elan_meant::row::{Judged, both};
use elan_names::denoter::Denoter;
use elan_scope::scope::Scope;
use elan_scope::trouble::Trouble;
use elan_types::{ElanType, PlacePhrase, ValuePhrase, Why};
use eu_base::{Boxed, Bytes, Kind, TEXT_BYTES};
use std::alloc::Global;

/// A number that is written.
#[tactic(auto, using(crate::proofs::Numbers::number_gives))]
pub fn number(alloc: Global, at: u32, number: i16) -> Judged
    ensures { Tells result (spec.number at number) }
{
    delivering(alloc, at, ElanType::Int, ValuePhrase::Number(number))
}

/// TRUE or FALSE.
pub fn truth(alloc: Global, at: u32, truth: bool) -> Judged
    ensures { Tells result (gives (means.Value at types.Bool (values.Truth truth))) }
{
    delivering(alloc, at, ElanType::Bool, ValuePhrase::Truth(truth))
}

/// A text that is written, with a copy of its bytes.
pub fn text(alloc: Global, at: u32, text: &[u8]) -> Judged
    ensures { Tells result (spec.text at text.now) }
{
    if text.len() > TEXT_BYTES {
        return Err(Trouble::Breaks(at, Why::WrongType));
    }
    let bytes = Bytes::from(alloc, text)?;
    delivering(alloc, at, ElanType::Text, ValuePhrase::Text(bytes))
}

/// What stands behind a name of a LET, as if it were written there.
pub fn denoter(alloc: Global, at: u32, denoter: &Denoter) -> Judged
    ensures { Tells result (spec.denoter at denoter.now) }
{
    match denoter {
        Denoter::Number(written) => number(alloc, at, *written),
        Denoter::Truth(written) => truth(alloc, at, *written),
        Denoter::Text(written) => text(alloc, at, written.as_slice()),
    }
}

/// A phrase in brackets: its value is no variable.
pub fn bracketed(alloc: Global, at: u32, meant: Meant) -> Judged
    ensures { Tells result (gives (spec.bracketed at meant)) }
{
    match meant {
        Meant::Variable { at: _at, of, place } => {
            let value = loaded(alloc, &of, place)?;
            delivering(alloc, at, of, value)
        }
        Meant::Value { at: _at, of, value } => Ok(Meant::Value { at, of, value }),
        other => Ok(other),
    }
}

// The value where the left one is `stop`, and where it is not.
fn choice(
    stop: bool,
    left: Boxed<ValuePhrase>,
    right: Boxed<ValuePhrase>,
    stops: Boxed<ValuePhrase>,
) -> ValuePhrase
    ensures { result ≡ walk.choice stop left right stops }
{
    if stop {
        ValuePhrase::If(left, stops, right)
    } else {
        ValuePhrase::If(left, right, stops)
    }
}

// What is made of two truth values: where the left one is `stop` that is the value, and else the right one.
fn decided(alloc: Global, at: u32, stop: bool, left: Meant, right: Meant) -> Judged
    ensures { Tells result (gives (walk.decided at stop (parts.value_of left) (parts.value_of right))) }
{
    let values = both(value_of(alloc, left), value_of(alloc, right));
    let ((left, right), stops) = both(values, Boxed::new(alloc, ValuePhrase::Truth(stop)))?;
    let value = choice(stop, left, right, stops);
    delivering(alloc, at, ElanType::Bool, value)
}

fn of_truths(alloc: Global, at: u32, stop: bool, left: Meant, right: Meant) -> Judged
    ensures { Tells result (walk.of_truths at stop left right) }
{
    if delivers_kind(Kind::Truth, &left) && delivers_kind(Kind::Truth, &right) {
        decided(alloc, at, stop, left, right)
    } else {
        left.let_go();
        right.let_go();
        Err(Trouble::Breaks(at, Why::WrongType))
    }
}

/// CAND, of two truth values.
pub fn cand(alloc: Global, at: u32, left: Meant, right: Meant) -> Judged
    ensures { Tells result (spec.cand at left right) }
{
    of_truths(alloc, at, false, left, right)
}

/// COR, of two truth values.
pub fn cor(alloc: Global, at: u32, left: Meant, right: Meant) -> Judged
    ensures { Tells result (spec.cor at left right) }
{
    of_truths(alloc, at, true, left, right)
}

// The type that stands behind one that the level declares, whose types have this number or a greater one.
fn concrete_of(at: u32, first: usize, of: ElanType) -> Result<ElanType, Trouble>
    ensures { Tells result (spec.concr_as at (is_own_from first of) (concrete of) (λ t. t)) }
{
    let own = of.is_own_from(first);
    let found = of.concrete();
    of.let_go();
    match found? {
        None => Err(Trouble::Breaks(at, Why::WrongType)),
        Some(of) => {
            if own {
                Ok(of)
            } else {
                of.let_go();
                Err(Trouble::Breaks(at, Why::WrongPlace))
            }
        }
    }
}

// The same place, as of the concrete type.
fn concrete_place(at: u32, first: usize, of: ElanType, place: PlacePhrase) -> Judged
    ensures { Tells result (spec.concr_as at (is_own_from first of) (concrete of) (λ u. means.Variable at u place)) }
{
    match concrete_of(at, first, of) {
        Err(trouble) => {
            place.let_go();
            Err(trouble)
        }
        Ok(of) => Ok(Meant::Variable { at, of, place }),
    }
}

// The same value, as of the concrete type.
fn concrete_value(at: u32, first: usize, of: ElanType, value: Boxed<ValuePhrase>) -> Judged
    ensures { Tells result (spec.concr_as at (is_own_from first of) (concrete of) (λ u. means.Value at u value)) }
{
    match concrete_of(at, first, of) {
        Err(trouble) => {
            value.into_inner().let_go();
            Err(trouble)
        }
        Ok(of) => Ok(Meant::Value { at, of, value }),
    }
}

/// CONCR: the same place or value, as of the concrete type of one that the level declares.
pub fn concr(at: u32, scope: &Scope, meant: Meant) -> Judged
    ensures { Tells result (spec.concr at scope.now meant) }
{
    match meant {
        Meant::Variable { at: _at, of, place } => concrete_place(at, scope.types_before, of, place),
        Meant::Value { at: _at, of, value } => concrete_value(at, scope.types_before, of, value),
        other => {
            other.let_go();
            Err(Trouble::Breaks(at, Why::WrongType))
        }
    }
}
