//! The names that a level and its bodies declare.

ghost use Rattle.std.specs.Prelude.{◌≡◌, ◌++◌, flat_map, IfOk, OnOk};
ghost use Rattle.eu_base.specs.Shapes.{cell_kinds};
ghost use Rattle.elan_types.specs.Types.{shape_in};
ghost use Rattle.elan_names.specs.declared.entry.Denotes.TheVariants as denote;
ghost use Rattle.elan_scope.specs.Scope as scopes;
ghost use Rattle.type_names.specs.Bodies as spec;
ghost use Rattle.type_names.specs.walks.LevelSeen.{visible, Adds};
ghost use Rattle.type_names.specs.Types as types;

use crate::below::of_cell_kinds::CellKinds;
use crate::declare::Names;
use crate::resolve::{Around, names_of};
use crate::written::type_in;
use elan_names::directory::Directory;
use elan_names::entry::{Denotes, Entry};
use elan_names::type_directory::TypeDirectory;
use elan_scope::scope::Within;
use elan_tree::{Access as Given, Body, Formal, Level, LevelUnit, Name, Refinement};
use elan_types::{Access, ElanType, Parameter};
use elan_walk::definition::{body_definitions, level_definitions};
use eu_base::{Kind, List, NoMemory, Shape};
use std::alloc::Global;

fn access(given: Given) -> Access
    ensures { result ≡ spec.access_of given }
{
    match given {
        Given::Const => Access::Const,
        Given::Var => Access::Var,
    }
}

fn parameter(alloc: Global, types: &TypeDirectory, formal: &Formal) -> Result<Parameter, NoMemory>
    ensures { IfOk result (λ made. made ≡ spec.parameter types.now formal.now) }
{
    let of = type_in(alloc, &TypeDirectory::new(alloc), types, &formal.of)?;
    Ok(Parameter {
        of,
        access: access(formal.access),
    })
}

// Adds the parameter for each name.
fn for_each(
    alloc: Global,
    out: &mut List<Parameter>,
    names: &[Name],
    parameter: &Parameter,
) -> Result<(), NoMemory>
    ensures { OnOk result (out.new ≡ out.old ++ scopes.all_held (spec.named_as names.now (denote.Parameter parameter.now))) }
{
    for _name in names {
        out.push(parameter.try_clone()?)?;
    }
    Ok(())
}

/// The parameters of a PROC or OP, where these types are declared around.
#[tactic(auto, using(crate::proofs::Held::held_append))]
pub fn parameters(
    alloc: Global,
    types: &TypeDirectory,
    formals: &[Formal],
) -> Result<List<Parameter>, NoMemory>
    ensures { IfOk result (λ list. list ≡ spec.parameters types.now formals.now) }
{
    let mut list = List::new(alloc);
    for formal in formals {
        let parameter = parameter(alloc, types, formal)?;
        for_each(alloc, &mut list, formal.names.as_slice(), &parameter)?;
    }
    Ok(list)
}

fn named_as<'a>(mut out: Names<'a>, names: &[Name], parameter: &Parameter) -> Names<'a>
    ensures { Adds (spec.named_as names.now (denote.Parameter parameter.now)) out.entry result }
{
    for name in names {
        out = out.add_parameter(name, parameter);
    }
    out
}

fn formal_names<'a>(mut out: Names<'a>, formal: &Formal) -> Names<'a>
    ensures { Adds (spec.named_as formal.now.names (denote.Parameter (spec.parameter out.entry.around.now formal.now))) out.entry result }
{
    match parameter(out.alloc, out.around, formal) {
        Ok(parameter) => named_as(out, formal.names.as_slice(), &parameter),
        Err(NoMemory) => {
            out.wanted = true;
            out
        }
    }
}

// A heading is read in the level.
fn parameter_names<'a>(mut out: Names<'a>, formals: &[Formal]) -> Names<'a>
    ensures { Adds (spec.parameter_names out.entry.around.now formals.now) out.entry result }
{
    for formal in formals {
        out = formal_names(out, formal);
    }
    out
}

fn refinement_names<'a>(mut out: Names<'a>, refinements: &[Refinement]) -> Names<'a>
    ensures { Adds (spec.refinement_names (visible out.entry) refinements.now) out.entry result }
{
    for refinement in refinements {
        out = out.add(&refinement.name, Denotes::Refinement);
        out = out.add_units(refinement.units.as_slice());
    }
    out
}

// The names of a PROC or OP that declares these types.
fn body_names(
    alloc: Global,
    here: &TypeDirectory,
    around: &TypeDirectory,
    formals: &[Formal],
    body: &Body,
) -> Result<List<Entry>, NoMemory>
    ensures { IfOk result (λ names. names ≡ spec.parameter_names around.now formals.now ++ spec.own_names (here.now ++ around.now) body.now) }
{
    let names = parameter_names(Names::new(alloc, here, around), formals);
    let names = names.add_units(body.units.as_slice());
    refinement_names(names, body.refinements.as_slice()).met()
}

// The names of types that a PROC or OP declares, where these are declared around. It makes no types of its own.
fn body_types(
    alloc: Global,
    around: &TypeDirectory,
    formals: &[Formal],
    body: &Body,
) -> Result<TypeDirectory, NoMemory>
    ensures { IfOk result (λ names. names ≡ types.body_types around.now formals.now body.now) }
{
    let around = Around {
        names: around,
        first: 0,
    };
    let definitions = body_definitions(alloc, formals, body)?;
    names_of(alloc, around, definitions.as_slice())
}

/// The PROC or OP with this number, where these types are declared around: its names of types, and its other names, which are its
/// parameters, what its units declare, and its refinements.
pub fn body_within(
    alloc: Global,
    number: usize,
    around: &TypeDirectory,
    formals: &[Formal],
    body: &Body,
) -> Result<Within, NoMemory>
    ensures { IfOk result (λ within. within ≡ spec.body_within around.now number formals.now body.now) }
{
    let types = body_types(alloc, around, formals, body)?;
    let names = body_names(alloc, &types, around, formals, body)?;
    Ok(Within {
        number,
        names: Directory::of(alloc, names)?,
        types,
    })
}

/// The names of types that can be seen in a level: its own, and those around.
pub fn level_types(
    alloc: Global,
    around: Around<'_>,
    level: &Level,
) -> Result<TypeDirectory, NoMemory>
    ensures { IfOk result (λ names. names ≡ types.level_types around.entry.first around.entry.names.now level.now) }
{
    let definitions = level_definitions(alloc, level)?;
    let own = names_of(alloc, around, definitions.as_slice())?;
    own.before(alloc, around.names)
}

fn unit_names<'a>(out: Names<'a>, unit: &LevelUnit) -> Names<'a>
    ensures { Adds (spec.unit_names (visible out.entry) unit.now) out.entry result }
{
    match unit {
        LevelUnit::Plain(unit) => out.add_unit(unit),
        LevelUnit::Proc { name, formals, .. } => match formals.as_slice() {
            [] => out.add(name, Denotes::Procedure),
            [_first, _others @ ..] => out,
        },
        LevelUnit::NewType { .. } => out,
        LevelUnit::Op { .. } => out,
    }
}

fn all_unit_names<'a>(mut out: Names<'a>, units: &[LevelUnit]) -> Names<'a>
    ensures { Adds (flat_map (spec.unit_names (visible out.entry)) units.now) out.entry result }
{
    for unit in units {
        out = unit_names(out, unit);
    }
    out
}

/// The names of a level that declares these types: what its units declare, and its refinements.
pub fn level_names(
    alloc: Global,
    types: &TypeDirectory,
    level: &Level,
) -> Result<Directory, NoMemory>
    ensures { IfOk result (λ names. names ≡ spec.names_in types.now level.now) }
{
    let none = TypeDirectory::new(alloc);
    let names = all_unit_names(Names::new(alloc, &none, types), level.units.as_slice());
    let names = refinement_names(names, level.refinements.as_slice());
    Directory::of(alloc, names.met()?)
}

// What a body declares beside its parameters, where these types are declared here, and others around.
fn own_names(
    alloc: Global,
    here: &TypeDirectory,
    around: &TypeDirectory,
    body: &Body,
) -> Result<List<Entry>, NoMemory>
    ensures { IfOk result (λ names. names ≡ spec.own_names (here.now ++ around.now) body.now) }
{
    let names = Names::new(alloc, here, around).add_units(body.units.as_slice());
    refinement_names(names, body.refinements.as_slice()).met()
}

// Adds the kinds of the cells of what is held under a name.
#[tactic(auto, using(crate::proofs::Held::one_more, crate::proofs::Held::bound_more))]
fn add_held(alloc: Global, out: &mut CellKinds, denotes: &Denotes) -> Result<(), NoMemory>
    ensures { OnOk result (out.new ≡ out.old ++ flat_map (λ t. cell_kinds (shape_in t)) (scopes.types_of (scopes.held denotes.now))) }
{
    match denotes {
        Denotes::Variable(of) | Denotes::Constant(of) => out.push(of.shape(alloc)?),
        Denotes::Bound(_) => out.push(Shape::Cell(Kind::Space)),
        Denotes::Parameter(parameter) => out.push(parameter.of.shape(alloc)?),
        Denotes::Procedure | Denotes::Refinement | Denotes::Denoter(_) => Ok(()),
    }
}

/// The kinds of the cells of the variables, constants and parameters among names.
#[tactic(auto, using(crate::proofs::Held::kinds_append))]
pub fn held_kinds(alloc: Global, names: &[Entry]) -> Result<CellKinds, NoMemory>
    ensures { IfOk result (λ kinds. kinds ≡ scopes.variables_of names.now) }
{
    let mut kinds = CellKinds::new(alloc);
    for entry in names {
        add_held(alloc, &mut kinds, &entry.denotes)?;
    }
    Ok(kinds)
}

/// The kinds of the cells of the variables and constants that a PROC or OP declares, where these types are declared around.
pub fn own_kinds(
    alloc: Global,
    around: &TypeDirectory,
    formals: &[Formal],
    body: &Body,
) -> Result<CellKinds, NoMemory>
    ensures { IfOk result (λ kinds. kinds
        ≡ scopes.variables_of (spec.own_names (types.body_types around.now formals.now body.now ++ around.now) body.now)) }
{
    let types = body_types(alloc, around, formals, body)?;
    let names = own_names(alloc, &types, around, body)?;
    held_kinds(alloc, names.as_slice())
}
