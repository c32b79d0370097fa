//! What PROCs, OPs, refinements and levels do.

ghost use Rattle.std.specs.Prelude.{◌≡◌, ◌++◌, IfOk, OnOk, Some, if◌then◌else◌};
ghost use Rattle.elan_meant.specs.Operands.{delivers};
ghost use Rattle.elan_meant.specs.Parts as parts_of;
ghost use Rattle.elan_rules.specs.Units as spec;
ghost use Rattle.elan_meant.specs.Verdict.{gives, Tells};

use elan_meant::meant::Meant;
use elan_meant::operands::delivers;
use elan_meant::part::{actions, unreached, value_of};
use elan_meant::row::{Judged, append, appended};
use elan_scope::trouble::Trouble;
use elan_types::{Action, Body, Content, ElanType, Scope, ValuePhrase};
use eu_base::{Boxed, List, NoMemory};
use std::alloc::Global;

// The value of a body that delivers this type; behind a LEAVE none is reached.
fn value_as(alloc: Global, of: &ElanType, units: Meant) -> Result<Boxed<ValuePhrase>, NoMemory>
    ensures { IfOk result (λ v. v ≡ (if delivers of.now units then parts_of.value_of units else parts_of.unreached (parts_of.actions units) of.now)) }
{
    if delivers(of, &units) {
        value_of(alloc, units)
    } else {
        unreached(alloc, actions(alloc, units), of)
    }
}

// The units of a body that delivers this type.
fn content_for(alloc: Global, of: &ElanType, units: Meant) -> Result<Content, NoMemory>
    ensures { IfOk result (λ c. c ≡ spec.content_as (Some of.now) units) }
{
    match of.shape(alloc) {
        Err(refusal) => {
            units.let_go();
            Err(refusal)
        }
        Ok(shape) => {
            let value = value_as(alloc, of, units)?;
            Ok(Content::Value(shape, value.into_inner()))
        }
    }
}

// The units of a body that delivers this type, or nothing.
fn content_as(alloc: Global, delivered: Option<ElanType>, units: Meant) -> Result<Content, NoMemory>
    ensures { IfOk result (λ c. c ≡ spec.content_as delivered units) }
{
    match delivered {
        None => Ok(Content::Units(actions(alloc, units))),
        Some(of) => {
            let content = content_for(alloc, &of, units);
            of.let_go();
            content
        }
    }
}

fn body_with(alloc: Global, owner: Scope, content: Content) -> Judged
    ensures { Tells result (gives (spec.body_with owner content)) }
{
    let mut bodies = List::new(alloc);
    bodies.push(Body {
        scope: owner,
        content,
    })?;
    Ok(Meant::Bodies(bodies))
}

/// A PROC or OP that delivers this type, or nothing.
pub fn body(alloc: Global, owner: Scope, delivered: Option<ElanType>, units: Meant) -> Judged
    ensures { Tells result (gives (spec.body_with owner (spec.content_as delivered units))) }
{
    match content_as(alloc, delivered, units) {
        Err(_refusal) => {
            owner.let_go();
            Err(Trouble::NoMemory)
        }
        Ok(content) => body_with(alloc, owner, content),
    }
}

fn content_of(alloc: Global, units: Meant) -> Result<Content, NoMemory>
    ensures { IfOk result (λ c. c ≡ spec.content_of units) }
{
    match units {
        Meant::Value { at: _at, of, value } => {
            let shape = of.shape(alloc);
            of.let_go();
            match shape {
                Err(refusal) => {
                    value.into_inner().let_go();
                    Err(refusal)
                }
                Ok(shape) => Ok(Content::Value(shape, value.into_inner())),
            }
        }
        other => Ok(Content::Units(actions(alloc, other))),
    }
}

/// A refinement, which delivers what its units deliver.
pub fn refinement(alloc: Global, owner: Scope, units: Meant) -> Judged
    ensures { Tells result (gives (spec.body_with owner (spec.content_of units))) }
{
    match content_of(alloc, units) {
        Err(_refusal) => {
            owner.let_go();
            Err(Trouble::NoMemory)
        }
        Ok(content) => body_with(alloc, owner, content),
    }
}

fn bodies_in(alloc: Global, part: Meant) -> List<Body>
    ensures { result ≡ spec.bodies_in part }
{
    match part {
        Meant::Bodies(bodies) => bodies,
        other => {
            other.let_go();
            List::new(alloc)
        }
    }
}

// Adds the actions or the bodies of a part of a level.
fn add(
    alloc: Global,
    units: &mut List<Action>,
    bodies: &mut List<Body>,
    part: Meant,
) -> Result<(), NoMemory>
    ensures units { OnOk result (units.new ≡ units.old ++ parts_of.actions part) }
    ensures bodies { OnOk result (bodies.new ≡ bodies.old ++ spec.bodies_in part) }
{
    match part {
        Meant::Bodies(more) => append(bodies, more),
        other => append(units, actions(alloc, other)),
    }
}

/// A PROC or OP with its refinements.
pub fn bodies_of(alloc: Global, parts: List<Meant>) -> Result<List<Body>, NoMemory>
    ensures { IfOk result (λ bodies. bodies ≡ spec.bodies_of parts) }
{
    let mut bodies = Ok(List::new(alloc));
    for part in parts.into_vec() {
        bodies = appended(bodies, bodies_in(alloc, part));
    }
    bodies
}

/// The units and the bodies of a level.
#[tactic(auto, using(crate::proofs::Lists::actions_push, crate::proofs::Lists::bodies_push))]
pub fn level(alloc: Global, parts: List<Meant>) -> Result<(List<Action>, List<Body>), NoMemory>
    ensures units { IfOk result (λ l. l.0 ≡ parts_of.actions_of parts) }
    ensures bodies { IfOk result (λ l. l.1 ≡ spec.bodies_of parts) }
{
    let mut units = List::new(alloc);
    let mut bodies = List::new(alloc);
    for part in parts.into_vec() {
        add(alloc, &mut units, &mut bodies, part)?;
    }
    Ok((units, bodies))
}
