//! The arms of a SELECT, by what their labels and their units mean.

ghost use Rattle.std.specs.Prelude.{◌≡◌, IfOk, map};
ghost use Rattle.elan_meant.specs.Arms as spec;

use crate::meant::Meant;
use crate::part::{actions, never, unreached};
use crate::row::{both, pushed};
use elan_types::{Arm, ElanType, ValueArm, ValuePhrase};
use eu_base::{Boxed, List, NoMemory};
use std::alloc::Global;

// The value of a part, where a value of this type is asked for.
fn value_as(alloc: Global, of: &ElanType, part: Meant) -> Result<Boxed<ValuePhrase>, NoMemory>
    ensures { IfOk result (λ value. value ≡ spec.value_as of.now part) }
{
    match part {
        Meant::Value {
            at: _at,
            of: delivered,
            value,
        } => {
            delivered.let_go();
            Ok(value)
        }
        Meant::Left(actions) => unreached(alloc, actions, of),
        other => {
            other.let_go();
            never(alloc, of)
        }
    }
}

fn labels_in(alloc: Global, meant: Meant) -> List<i16>
    ensures { result ≡ spec.labels_in meant }
{
    match meant {
        Meant::Labels(labels) => labels,
        other => {
            other.let_go();
            List::new(alloc)
        }
    }
}

fn action_arm(alloc: Global, arm: (Meant, Meant)) -> Arm
    ensures { result ≡ spec.action_arm arm }
{
    let (labels, units) = arm;
    Arm {
        labels: labels_in(alloc, labels),
        units: actions(alloc, units),
    }
}

fn value_arm(alloc: Global, of: &ElanType, arm: (Meant, Meant)) -> Result<ValueArm, NoMemory>
    ensures { IfOk result (λ a. a ≡ spec.value_arm of.now arm) }
{
    let (labels, units) = arm;
    let labels = labels_in(alloc, labels);
    let value = value_as(alloc, of, units)?;
    Ok(ValueArm {
        labels,
        value: value.into_inner(),
    })
}

/// The arms of a SELECT that delivers nothing.
pub fn action_arms(alloc: Global, arms: List<(Meant, Meant)>) -> Result<List<Arm>, NoMemory>
    ensures { IfOk result (λ list. list ≡ map spec.action_arm arms) }
{
    let mut list = Ok(List::new(alloc));
    for arm in arms.into_vec() {
        list = pushed(list, Ok(action_arm(alloc, arm)));
    }
    list
}

// The arms of a SELECT that delivers a value of this type.
fn value_arms(
    alloc: Global,
    of: &ElanType,
    arms: List<(Meant, Meant)>,
) -> Result<List<ValueArm>, NoMemory>
    ensures { IfOk result (λ list. list ≡ map (spec.value_arm of.now) arms) }
{
    let mut list = Ok(List::new(alloc));
    for arm in arms.into_vec() {
        list = pushed(list, value_arm(alloc, of, arm));
    }
    list
}

/// The arms of a SELECT that delivers a value of this type, and the value where no label holds it.
pub fn arms_as(
    alloc: Global,
    of: &ElanType,
    arms: List<(Meant, Meant)>,
    otherwise: Meant,
) -> Result<(List<ValueArm>, Boxed<ValuePhrase>), NoMemory>
    ensures { IfOk result (λ made. (made.0 ≡ map (spec.value_arm of.now) arms) × (made.1 ≡ spec.value_as of.now otherwise)) }
{
    let arms = value_arms(alloc, of, arms);
    both(arms, value_as(alloc, of, otherwise))
}

/// The values of two parts, where values of this type are asked for.
pub fn values_as(
    alloc: Global,
    of: &ElanType,
    first: Meant,
    second: Meant,
) -> Result<(Boxed<ValuePhrase>, Boxed<ValuePhrase>), NoMemory>
    ensures { IfOk result (λ made. (made.0 ≡ spec.value_as of.now first) × (made.1 ≡ spec.value_as of.now second)) }
{
    let first = value_as(alloc, of, first);
    both(first, value_as(alloc, of, second))
}
