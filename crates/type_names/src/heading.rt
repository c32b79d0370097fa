//! The headings of the bodies of a level.

ghost use Rattle.std.specs.Prelude.{◌≡◌, ◌++◌, ◌+◌, IfOk, OnOk};
ghost use Rattle.type_names.specs.Bodies as spec;
ghost use Rattle.type_names.specs.walks.Headings as walks;

use crate::bodies::parameters;
use crate::written::type_in;
use elan_names::heading::{Heading, Sort, What};
use elan_names::headings::Headings;
use elan_names::type_directory::TypeDirectory;
use elan_tree::{Formal, Level, LevelUnit, Refinement, TypePhrase};
use elan_types::ElanType;
use elan_walk::operator_text;
use eu_base::{Bytes, List, NoMemory};
use std::alloc::Global;

/// The type that a PROC or OP delivers, where these types are declared around.
pub fn result_type(
    alloc: Global,
    types: &TypeDirectory,
    of: &Option<TypePhrase>,
) -> Result<Option<ElanType>, NoMemory>
    ensures { IfOk result (λ delivered. delivered ≡ spec.result types.now of.now) }
{
    match of {
        None => Ok(None),
        Some(of) => Ok(Some(type_in(alloc, &TypeDirectory::new(alloc), types, of)?)),
    }
}

// Adds the headings of the refinements of a PROC or OP, or of the level.
fn refinement_headings(
    alloc: Global,
    out: &mut List<Heading>,
    home: Option<usize>,
    refinements: &[Refinement],
) -> Result<(), NoMemory>
    ensures { OnOk result (out.new ≡ out.old ++ spec.refinement_headings home refinements.now) }
{
    for refinement in refinements {
        out.push(Heading {
            at: refinement.name.at,
            name: Bytes::from(alloc, refinement.name.text.as_slice())?,
            what: What::Refinement(home),
        })?;
    }
    Ok(())
}

fn routine_heading(
    alloc: Global,
    types: &TypeDirectory,
    sort: Sort,
    at: u32,
    name: &[u8],
    formals: &[Formal],
    of: &Option<TypePhrase>,
) -> Result<Heading, NoMemory>
    ensures { IfOk result (λ heading. heading ≡ spec.routine_heading types.now sort at name.now formals.now of.now) }
{
    let name = Bytes::from(alloc, name)?;
    let parameters = parameters(alloc, types, formals)?;
    let delivered = result_type(alloc, types, of)?;
    Ok(Heading {
        at,
        name,
        what: What::Routine(sort, parameters, delivered),
    })
}

// A number behind some bodies. No memory has as many bodies as a number here can count.
fn behind(number: usize, count: usize) -> Result<usize, NoMemory>
    ensures { IfOk result (λ next. next ≡ number + count) }
{
    number.checked_add(count).ok_or(NoMemory)
}

/// The number behind the bodies of a unit whose first body has this number.
pub fn number_behind(number: usize, unit: &LevelUnit) -> Result<usize, NoMemory>
    ensures { IfOk result (λ next. next ≡ number + spec.bodies_in unit.now) }
{
    match unit {
        LevelUnit::Proc { body, .. } => {
            let next = behind(number, 1)?;
            behind(next, body.refinements.len())
        }
        LevelUnit::Op { body, .. } => {
            let next = behind(number, 1)?;
            behind(next, body.refinements.len())
        }
        LevelUnit::Plain(_) => Ok(number),
        LevelUnit::NewType { .. } => Ok(number),
    }
}

/// The next number.
pub fn next_number(number: usize) -> Result<usize, NoMemory>
    ensures { IfOk result (λ next. next ≡ number + 1) }
{
    behind(number, 1)
}

// Adds the headings of a unit whose first body has this number. An arm a form of unit, so it is as long as their fields are.
fn unit_headings(
    alloc: Global,
    types: &TypeDirectory,
    out: &mut List<Heading>,
    number: usize,
    unit: &LevelUnit,
) -> Result<(), NoMemory>
    ensures { OnOk result (out.new ≡ out.old ++ spec.unit_headings types.now number unit.now) }
{
    match unit {
        LevelUnit::Proc {
            result,
            name,
            formals,
            body,
            ..
        } => {
            let text = name.text.as_slice();
            let heading = routine_heading(
                alloc,
                types,
                Sort::Procedure,
                name.at,
                text,
                formals.as_slice(),
                result,
            )?;
            out.push(heading)?;
            refinement_headings(alloc, out, Some(number), body.refinements.as_slice())
        }
        LevelUnit::Op {
            result,
            name,
            formals,
            body,
            ..
        } => {
            let text = operator_text(&name.operator);
            let heading = routine_heading(
                alloc,
                types,
                Sort::Operator,
                name.at,
                text,
                formals.as_slice(),
                result,
            )?;
            out.push(heading)?;
            refinement_headings(alloc, out, Some(number), body.refinements.as_slice())
        }
        LevelUnit::Plain(_) => Ok(()),
        LevelUnit::NewType { .. } => Ok(()),
    }
}

fn all_headings(
    alloc: Global,
    types: &TypeDirectory,
    out: &mut List<Heading>,
    units: &[LevelUnit],
) -> Result<(), NoMemory>
    ensures { OnOk result (out.new ≡ out.old ++ walks.all_headings types.now 0 units.now) }
{
    let mut number = 0;
    for unit in units {
        unit_headings(alloc, types, out, number, unit)?;
        number = number_behind(number, unit)?;
    }
    Ok(())
}

/// The headings of a level that declares these types: each PROC or OP, and behind it its refinements; behind them all the
/// refinements of the level.
pub fn headings(alloc: Global, types: &TypeDirectory, level: &Level) -> Result<Headings, NoMemory>
    ensures { IfOk result (λ headings. headings ≡ spec.headings_in types.now level.now) }
{
    let mut headings = List::new(alloc);
    all_headings(alloc, types, &mut headings, level.units.as_slice())?;
    refinement_headings(alloc, &mut headings, None, level.refinements.as_slice())?;
    Headings::of(alloc, headings)
}

/// The number of the first refinement of a level.
pub fn first_refinement(units: &[LevelUnit]) -> Result<usize, NoMemory>
    ensures { IfOk result (λ number. number ≡ spec.bodies_of_units units.now) }
{
    let mut number = 0;
    for unit in units {
        number = number_behind(number, unit)?;
    }
    Ok(number)
}
