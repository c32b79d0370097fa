//! The first type of a text that breaks a rule.

ghost use Rattle.std.specs.Prelude.{◌≡◌, List, [], ◌++◌, flat_map};
ghost use Rattle.elan_walk.specs.declared.definition.Definition as definitions;
ghost use Rattle.elan_walk.specs.Nodes as nodes;
ghost use Rattle.type_names.specs.Faults as spec;
ghost use Rattle.type_names.specs.Types as types;
ghost use Rattle.type_names.specs.walks.Seen.{plainly, known_in, Knows, Finds};

use crate::resolve::Around;
use crate::scope_types::ScopeTypes;
use crate::search::{Fault, Search};
use elan_names::type_directory::TypeDirectory;
use elan_tree::{Body, Formal, Level, LevelUnit, Refinement, TypePhrase, Unit};
use elan_walk::definition::{body_definitions, level_definitions};
use elan_walk::{Node, Visitor, formals, refinements, result_type, visit_unit, visit_units};
use eu_base::NoMemory;
use std::alloc::Global;

/// What is known of types in a level.
#[derive(Clone, Copy)]
pub struct InLevel<'a> {
    pub types: &'a ScopeTypes,
    pub around: Around<'a>,
    /// The names of types that can be seen in it: its own, and those around.
    pub seen: &'a TypeDirectory,
    /// Its refinements.
    pub refined: &'a [Refinement],
}

// The heading of a PROC or OP.
#[tactic(auto, using(crate::proofs::Searched::found))]
fn heading_fault(
    alloc: Global,
    level: InLevel<'_>,
    of: &Option<TypePhrase>,
    given: &[Formal],
) -> Result<Option<Fault>, NoMemory>
    ensures { Finds (spec.nodes_faults (known_in level.entry) (nodes.result of.now ++ nodes.formals given.now)) result }
{
    let search = Search::new(alloc, level.types, level.around.names, level.refined);
    formals(result_type(search, of), given).met()
}

// The units of a PROC or OP, and its refinements.
#[tactic(auto, using(crate::proofs::Searched::found))]
fn units_fault(
    alloc: Global,
    here: &ScopeTypes,
    around: &TypeDirectory,
    body: &Body,
) -> Result<Option<Fault>, NoMemory>
    ensures { Finds (spec.nodes_faults (plainly here.now around.now []) (nodes.in_units body.now.units ++ nodes.refinements body.now.refinements)) result }
{
    let search = visit_units(Search::new(alloc, here, around, &[]), body.units.as_slice());
    refinements(search, body.refinements.as_slice()).met()
}

#[tactic(auto, using(crate::proofs::Told::first_append))]
fn routine_fault(
    alloc: Global,
    level: InLevel<'_>,
    of: &Option<TypePhrase>,
    given: &[Formal],
    body: &Body,
) -> Result<Option<Fault>, NoMemory>
    ensures { (ds : List definitions.Definition) → Knows ds level.entry → Finds
        (spec.routine_faults level.entry.around.first level.entry.around.names.now ds level.entry.refined.now of.now given.now body.now) result }
{
    match heading_fault(alloc, level, of, given)? {
        Some(fault) => Ok(Some(fault)),
        None => {
            let around = Around {
                names: level.seen,
                first: 0,
            };
            let here = ScopeTypes::of(alloc, around, body_definitions(alloc, given, body)?)?;
            units_fault(alloc, &here, level.seen, body)
        }
    }
}

#[tactic(auto, using(crate::proofs::Searched::found))]
fn plain_fault(alloc: Global, level: InLevel<'_>, unit: &Unit) -> Result<Option<Fault>, NoMemory>
    ensures { Finds (spec.nodes_faults (known_in level.entry) (nodes.in_unit unit.now)) result }
{
    let search = Search::new(alloc, level.types, level.around.names, level.refined);
    visit_unit(search, unit).met()
}

fn unit_fault(
    alloc: Global,
    level: InLevel<'_>,
    unit: &LevelUnit,
) -> Result<Option<Fault>, NoMemory>
    ensures { (ds : List definitions.Definition) → Knows ds level.entry → Finds
        (spec.unit_faults level.entry.around.first level.entry.around.names.now ds level.entry.refined.now unit.now) result }
{
    match unit {
        LevelUnit::Plain(unit) => plain_fault(alloc, level, unit),
        LevelUnit::NewType { at, name, of } => {
            let search = Search::new(alloc, level.types, level.around.names, level.refined);
            search.visit(Node::NewType(*at, name, of)).met()
        }
        LevelUnit::Proc {
            result,
            formals,
            body,
            ..
        } => routine_fault(alloc, level, result, formals.as_slice(), body),
        LevelUnit::Op {
            result,
            formals,
            body,
            ..
        } => routine_fault(alloc, level, result, formals.as_slice(), body),
    }
}

fn first_in_units(
    alloc: Global,
    level: InLevel<'_>,
    units: &[LevelUnit],
) -> Result<Option<Fault>, NoMemory>
    ensures { (ds : List definitions.Definition) → Knows ds level.entry → Finds
        (flat_map (spec.unit_faults level.entry.around.first level.entry.around.names.now ds level.entry.refined.now) units.now) result }
{
    for unit in units {
        match unit_fault(alloc, level, unit)? {
            Some(fault) => return Ok(Some(fault)),
            None => {}
        }
    }
    Ok(None)
}

#[tactic(auto, using(crate::proofs::Searched::found))]
fn refinements_fault(alloc: Global, level: InLevel<'_>) -> Result<Option<Fault>, NoMemory>
    ensures { Finds (spec.nodes_faults (known_in level.entry) (nodes.refinements level.entry.refined.now)) result }
{
    let search = Search::new(alloc, level.types, level.around.names, level.refined);
    refinements(search, level.refined).met()
}

#[tactic(auto, using(crate::proofs::Told::first_append))]
fn fault_in(alloc: Global, here: InLevel<'_>, level: &Level) -> Result<Option<Fault>, NoMemory>
    ensures { (ds : List definitions.Definition) → ds ≡ types.level_definitions level.now → here.entry.refined.now ≡ level.now.refinements
        → Knows ds here.entry → Finds (spec.level_faults here.entry.around.first here.entry.around.names.now level.now) result }
{
    match first_in_units(alloc, here, level.units.as_slice())? {
        Some(fault) => Ok(Some(fault)),
        None => refinements_fault(alloc, here),
    }
}

/// The first type of a level, in text order, that breaks a rule, if one does. What can be seen in the level is given.
pub fn level_fault(
    alloc: Global,
    around: Around<'_>,
    seen: &TypeDirectory,
    level: &Level,
) -> Result<Option<Fault>, NoMemory>
    ensures { seen.now ≡ types.level_types around.entry.first around.entry.names.now level.now
        → Finds (spec.level_faults around.entry.first around.entry.names.now level.now) result }
{
    let types = ScopeTypes::of(alloc, around, level_definitions(alloc, level)?)?;
    let here = InLevel {
        types: &types,
        around,
        seen,
        refined: level.refinements.as_slice(),
    };
    fault_in(alloc, here, level)
}
