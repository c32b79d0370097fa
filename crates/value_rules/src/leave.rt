//! LEAVE.

ghost use Rattle.std.specs.Prelude.{◌≡◌, ◌∷◌, [], IfOk};
ghost use Rattle.std.specs.Option.{option_map_or};
ghost use Rattle.elan_scope.specs.declared.delivery.Delivery.TheVariants as deliver;
ghost use Rattle.elan_types.specs.declared.core_phrase.Action.TheVariants as leaves;
ghost use Rattle.elan_meant.specs.declared.meant.Meant.TheVariants as means;
ghost use Rattle.value_rules.specs.Calls as spec;
ghost use Rattle.value_rules.specs.walks.Steps as walk;
ghost use Rattle.elan_scope.specs.Scope as scopes;
ghost use Rattle.elan_scope.specs.Answer.{Is};
ghost use Rattle.elan_meant.specs.Verdict.{gives, told, unless, Tells};

use elan_meant::meant::Meant;
use elan_meant::operands::delivers;
use elan_meant::part::{one, type_in, value_in};
use elan_meant::row::Judged;
use elan_scope::delivery::Delivery;
use elan_scope::known::Known;
use elan_scope::scope::Scope;
use elan_scope::trouble::Trouble;
use elan_types::{Action, Exit, Why};
use eu_base::NoMemory;
use std::alloc::Global;

// Nothing is asked of the value where it is not known what is left.
fn agrees(delivery: Option<&Delivery>, value: &Meant) -> bool
    ensures { result ≡ spec.agrees (option_map_or (λ d. d.now) delivery.entry deliver.Open) value.now }
{
    match (delivery, value) {
        (None | Some(Delivery::Open), Meant::Absent) => true,
        (None | Some(Delivery::Open), Meant::Variable { .. }) => true,
        (None | Some(Delivery::Open), Meant::Value { .. }) => true,
        (Some(Delivery::Nothing), Meant::Absent) => true,
        (Some(Delivery::Of(of)), value) => delivers(of, value),
        _ => false,
    }
}

fn leave_of(alloc: Global, exit: Exit, value: Meant) -> Result<Action, NoMemory>
    ensures { IfOk result (λ action. action ≡ walk.leave_of exit value) }
{
    match type_in(&value) {
        Some(of) => match of.shape(alloc) {
            Err(refusal) => {
                value.let_go();
                Err(refusal)
            }
            Ok(shape) => {
                let value = value_in(alloc, value)?;
                Ok(Action::LeaveWith(exit, shape, value))
            }
        },
        None => {
            value.let_go();
            Ok(Action::Leave(exit))
        }
    }
}

fn leave_unit(alloc: Global, action: Action) -> Judged
    ensures { Tells result (gives (means.Left (leaves.Unit (action ∷ []) ∷ []))) }
{
    let actions = one(alloc, action)?;
    let units = one(alloc, Action::Unit(actions))?;
    Ok(Meant::Left(units))
}

fn leave_as(alloc: Global, at: u32, exit: Exit, delivery: Option<&Delivery>, value: Meant) -> Judged
    ensures { Tells result (walk.leave_as at exit (option_map_or (λ d. d.now) delivery.entry deliver.Open) value) }
{
    if agrees(delivery, &value) {
        let action = leave_of(alloc, exit, value)?;
        leave_unit(alloc, action)
    } else {
        value.let_go();
        Err(Trouble::Breaks(at, Why::WrongType))
    }
}

/// A LEAVE of a name, and its value. It names the refinement, PROC or OP in which it stands, and hangs on what that delivers.
pub fn leaving(
    alloc: Global,
    known: &Known,
    at: u32,
    scope: &Scope,
    name: &[u8],
    value: Meant,
) -> Judged
    ensures { Is result (unless (spec.leaves_open scope.now (scopes.left scope.now name.now)) (told (spec.leaving known.now at (scopes.left scope.now name.now) value))) }
{
    match scope.left(name) {
        None => {
            value.let_go();
            Err(Trouble::Breaks(at, Why::WrongPlace))
        }
        Some((exit, number)) => {
            if scope.delivers_open(number) {
                value.let_go();
                return Err(Trouble::Hangs);
            }
            let delivery = known.delivery_at(number);
            leave_as(alloc, at, exit, delivery, value)
        }
    }
}
