//! Lists of units, and units that stand alone.

ghost use Rattle.std.specs.Prelude.{◌≡◌, ◌++◌, List, OnOk, IfOk};
ghost use Rattle.elan_meant.specs.declared.meant.Meant.TheVariants as means;
ghost use Rattle.elan_meant.specs.Parts as part_specs;
ghost use Rattle.elan_rules.specs.Units as spec;
ghost use Rattle.elan_meant.specs.declared.meant.Meant.{Meant};
ghost use Rattle.elan_meant.specs.Verdict.{gives, Tells};
ghost use Rattle.elan_rules.specs.walks.UnitSteps as walk;
ghost use Rattle.elan_scope.specs.Ruled.{Ruled};
ghost use Rattle.elan_scope.specs.Answer.{Is};

use elan_meant::meant::Meant;
use elan_meant::operands::delivers;
use elan_meant::part;
use elan_meant::part::{delivering, loaded, one, unit_of};
use elan_meant::row::{Judged, Row, append};
use elan_scope::trouble::Trouble;
use elan_types::{Action, ElanType, ValuePhrase, Why};
use eu_base::{Boxed, List, NoMemory};
use std::alloc::Global;
use std::mem::replace;

/// A name of a LET and what it is given to, and all names of a LET: nothing is done there.
pub fn definition(alloc: Global, parts: Row) -> Judged
    ensures { (rs : Ruled (List Meant)) → Is parts rs → Is result (walk.nothing_done rs) }
{
    match parts {
        Err(trouble) => Err(trouble),
        Ok(_) => Ok(Meant::Done(List::new(alloc))),
    }
}

// One more part. The actions of one that ends with a LEAVE stand among the others.
fn add(
    alloc: Global,
    actions: &mut List<Action>,
    last: &mut Meant,
    part: Meant,
) -> Result<(), NoMemory>
    ensures actions { OnOk result (actions.new ≡ actions.old ++ part_specs.actions part) }
    ensures last { OnOk result (last.new ≡ spec.or_last last.old part) }
{
    match part {
        Meant::Done(more) => append(actions, more),
        Meant::Left(more) => {
            replace(last, Meant::Left(List::new(alloc))).let_go();
            append(actions, more)
        }
        Meant::Value { at, of, value } => {
            replace(last, Meant::Value { at, of, value }).let_go();
            Ok(())
        }
        other => {
            other.let_go();
            Ok(())
        }
    }
}

// What parts do that deliver nothing, and the last part that delivers a value or ends with a LEAVE.
#[tactic(auto, using(crate::proofs::Lists::actions_push, crate::proofs::Lists::last_push))]
fn gathered(alloc: Global, parts: List<Meant>) -> Result<(List<Action>, Meant), NoMemory>
    ensures { IfOk result (λ g. (g.0 ≡ part_specs.actions_of parts) × (g.1 ≡ spec.last_value means.Absent parts)) }
{
    let mut actions = List::new(alloc);
    let mut last = Meant::Absent;
    for part in parts.into_vec() {
        if let Err(refusal) = add(alloc, &mut actions, &mut last, part) {
            last.let_go();
            return Err(refusal);
        }
    }
    Ok((actions, last))
}

// Actions, and then a value, if the last phrase delivers one.
fn ended(alloc: Global, actions: List<Action>, last: Meant) -> Result<Meant, NoMemory>
    ensures { IfOk result (λ m. m ≡ spec.ended actions last) }
{
    match last {
        Meant::Value { at, of, value } => {
            let value = Boxed::new(alloc, ValuePhrase::After(actions, value))?;
            Ok(Meant::Value { at, of, value })
        }
        Meant::Left(none) => {
            Action::all_let_go(none);
            Ok(Meant::Left(actions))
        }
        other => {
            other.let_go();
            Ok(Meant::Done(actions))
        }
    }
}

/// A list of units, of which at most the last non-empty one delivers.
pub fn in_order(alloc: Global, parts: List<Meant>) -> Result<Meant, NoMemory>
    ensures { IfOk result (λ m. m ≡ spec.in_order parts) }
{
    let (actions, last) = gathered(alloc, parts)?;
    ended(alloc, actions, last)
}

/// The items of a declaration.
pub fn declaration(alloc: Global, parts: List<Meant>) -> Result<Meant, NoMemory>
    ensures { IfOk result (λ m. m ≡ part_specs.unit_of (part_specs.actions_of parts)) }
{
    let (actions, last) = gathered(alloc, parts)?;
    last.let_go();
    let units = one(alloc, Action::Unit(actions))?;
    Ok(Meant::Done(units))
}

/// An expression that stands alone.
pub fn alone(alloc: Global, meant: Meant) -> Judged
    ensures { Tells result (gives (spec.alone meant)) }
{
    match meant {
        Meant::Variable { at, of, place } => {
            let value = loaded(alloc, &of, place)?;
            let value = Boxed::new(alloc, value)?;
            delivering(alloc, at, of, ValuePhrase::Unit(value))
        }
        Meant::Value { at, of, value } => delivering(alloc, at, of, ValuePhrase::Unit(value)),
        Meant::Left(actions) => {
            let units = one(alloc, Action::Unit(actions))?;
            Ok(Meant::Left(units))
        }
        other => unit_of(alloc, part::actions(alloc, other)),
    }
}

/// A unit that may deliver nothing.
pub fn without_value(alloc: Global, meant: Meant) -> Judged
    ensures { Tells result (spec.without_value meant) }
{
    match meant {
        Meant::Variable { at, of, place } => {
            of.let_go();
            place.let_go();
            Err(Trouble::Breaks(at, Why::WrongType))
        }
        Meant::Value { at, of, value } => {
            of.let_go();
            value.into_inner().let_go();
            Err(Trouble::Breaks(at, Why::WrongType))
        }
        other => Ok(Meant::Done(part::actions(alloc, other))),
    }
}

fn agrees_with(of: &ElanType, meant: &Meant) -> bool
    ensures { result ≡ spec.agrees_with of.now meant.now }
{
    match meant {
        Meant::Left(_) => true,
        _ => of.is_open() || delivers(of, meant),
    }
}

/// The last unit of a body that has to deliver this type.
pub fn must_deliver(at: u32, of: &ElanType, meant: Meant) -> Judged
    ensures { Tells result (spec.must_deliver at of.now meant) }
{
    if agrees_with(of, &meant) {
        Ok(meant)
    } else {
        meant.let_go();
        Err(Trouble::Breaks(at, Why::WrongType))
    }
}
