//! What names are defined to be as far as types are written with them, in text order.

ghost use Rattle.std.specs.Prelude.{◌≡◌, ◌∷◌, [], ◌++◌, false, flat_map, IfOk};
ghost use Rattle.elan_walk.specs.Definitions as spec;
ghost use Rattle.elan_walk.specs.walks.Seen.{Adds, AddsAlone};

use crate::copy::copied;
use crate::{Node, Visitor, visit_unit, visit_units};
use containers::{Bytes, List, NoMemory};
use elan_tree::{Body, Constant, Formal, Level, LevelUnit, Name, Refinement, TypePhrase, Unit};
use std::alloc::Global;

/// What a name is defined to be.
#[derive(Drop)]
pub enum Defined {
    /// LET gives it to this type.
    Abbreviation(TypePhrase),
    /// TYPE makes it a type of the text's own, with this concrete type.
    New(TypePhrase),
    /// LET gives it to this number.
    Number(i16),
    /// It is declared otherwise, and denotes neither a type nor a number.
    Other,
}

// What LET gives a name to.
fn constant_defined(constant: &Constant) -> Defined
    ensures { result ≡ spec.constant_defined constant.now }
{
    match constant {
        Constant::Number(_, number) => Defined::Number(*number),
        Constant::Text(_, _) | Constant::Truth(_, _) => Defined::Other,
    }
}

/// A name that a scope declares, as far as types are written with it.
#[derive(Drop)]
pub struct Definition {
    /// The place of the definition: that of the word TYPE, or of the name.
    pub at: u32,
    /// The place of the name.
    pub name_at: u32,
    pub name: Bytes,
    pub what: Defined,
}

/// Definitions, in text order.
#[derive(Drop)]
pub struct Definitions {
    alloc: Global,
    list: List<Definition>,
    // Whether memory was wanted. What was added is worth nothing then.
    wanted: bool,
}

impl Definitions {
    ghost use Rattle.elan_walk.specs.Nodes as nodes;

    fn new(alloc: Global) -> Definitions
        ensures { result.list ≡ [] }
    {
        Definitions {
            alloc,
            list: List::new(alloc),
            wanted: false,
        }
    }

    // Adds what is defined at a place under a name.
    fn define(mut self, at: u32, name: &Name, what: Defined) -> Definitions
        ensures { AddsAlone (record { at = at; name_at = name.now.at; name = name.now.text; what = what } ∷ []) self result }
    {
        match Bytes::from(self.alloc, name.text.as_slice()) {
            Ok(text) => {
                let definition = Definition {
                    at,
                    name_at: name.at,
                    name: text,
                    what,
                };
                match self.list.push(definition) {
                    Ok(()) => (),
                    Err(NoMemory) => self.wanted = true,
                }
            }
            Err(NoMemory) => self.wanted = true,
        }
        self
    }

    fn add_other(self, name: &Name) -> Definitions
        ensures { AddsAlone (spec.other name.now) self result }
    {
        self.define(name.at, name, Defined::Other)
    }

    fn add_abbreviation(mut self, name: &Name, of: &TypePhrase) -> Definitions
        ensures { AddsAlone (spec.defined_by (nodes.abbreviation name.now of.now)) self result }
    {
        match copied(self.alloc, of) {
            Ok(of) => self.define(name.at, name, Defined::Abbreviation(of)),
            Err(NoMemory) => {
                self.wanted = true;
                self
            }
        }
    }

    fn add_new_type(mut self, at: u32, name: &Name, of: &TypePhrase) -> Definitions
        ensures { AddsAlone (spec.defined_by (nodes.new_type at name.now of.now)) self result }
    {
        match copied(self.alloc, of) {
            Ok(of) => self.define(at, name, Defined::New(of)),
            Err(NoMemory) => {
                self.wanted = true;
                self
            }
        }
    }

    #[tactic(auto, using(crate::proofs::Seen::definitions))]
    fn add_unit(self, unit: &Unit) -> Definitions
        ensures { Adds (flat_map spec.defined_by (nodes.in_unit unit.now)) self result }
    {
        visit_unit(self, unit)
    }

    #[tactic(auto, using(crate::proofs::Seen::definitions))]
    fn add_units(self, units: &[Unit]) -> Definitions
        ensures { Adds (spec.in_units units.now) self result }
    {
        visit_units(self, units)
    }

    // What was added, where memory sufficed for it.
    fn met(self) -> Result<List<Definition>, NoMemory>
        ensures { IfOk result (λ list. (self.wanted ≡ false) × (list ≡ self.list)) }
    {
        let Definitions { list, wanted, .. } = self;
        if wanted { Err(NoMemory) } else { Ok(list) }
    }
}

impl Visitor for Definitions {
    ghost use Rattle.elan_walk.specs.walks.Seen.{with_definitions};

    ghost after = { λ s n. with_definitions s (spec.defined_by n) };

    ghost wanted = { λ s. s.wanted };

    fn visit(self, node: Node<'_>) -> Definitions {
        match node {
            Node::Item(_, _, name) => self.add_other(name),
            Node::Let(name, constant) => self.define(name.at, name, constant_defined(constant)),
            Node::Abbreviation(name, of) => self.add_abbreviation(name, of),
            Node::NewType(at, name, of) => self.add_new_type(at, name, of),
            _ => self,
        }
    }
}

fn of_names(mut out: Definitions, names: &[Name]) -> Definitions
    ensures { Adds (flat_map spec.other names.now) out result }
{
    for name in names {
        out = out.add_other(name);
    }
    out
}

fn of_formals(mut out: Definitions, formals: &[Formal]) -> Definitions
    ensures { Adds (spec.parameter_definitions formals.now) out result }
{
    for formal in formals {
        out = of_names(out, formal.names.as_slice());
    }
    out
}

// The names of refinements, and what is declared in them.
fn of_refinements(mut out: Definitions, refinements: &[Refinement]) -> Definitions
    ensures { Adds (spec.refinement_definitions refinements.now) out result }
{
    for refinement in refinements {
        out = out.add_other(&refinement.name);
        out = out.add_units(refinement.units.as_slice());
    }
    out
}

/// The definitions of a PROC or OP.
pub fn body_definitions(
    alloc: Global,
    formals: &[Formal],
    body: &Body,
) -> Result<List<Definition>, NoMemory>
    ensures { IfOk result (λ list. list ≡ spec.body_definitions formals.now body.now) }
{
    let out = of_formals(Definitions::new(alloc), formals);
    let out = out.add_units(body.units.as_slice());
    of_refinements(out, body.refinements.as_slice()).met()
}

// A PROC without parameters is known by its name alone.
fn of_procedure(out: Definitions, name: &Name, formals: &[Formal]) -> Definitions
    ensures { Adds (spec.procedure_definition name.now formals.now) out result }
{
    match formals {
        [] => out.add_other(name),
        [_formal, _others @ ..] => out,
    }
}

fn of_level_unit(out: Definitions, unit: &LevelUnit) -> Definitions
    ensures { Adds (spec.unit_definitions unit.now) out result }
{
    match unit {
        LevelUnit::Plain(unit) => out.add_unit(unit),
        LevelUnit::NewType { at, name, of } => out.add_new_type(*at, name, of),
        LevelUnit::Proc { name, formals, .. } => of_procedure(out, name, formals.as_slice()),
        LevelUnit::Op { .. } => out,
    }
}

fn of_level_units(mut out: Definitions, units: &[LevelUnit]) -> Definitions
    ensures { Adds (flat_map spec.unit_definitions units.now) out result }
{
    for unit in units {
        out = of_level_unit(out, unit);
    }
    out
}

// What is declared in the refinements of a level. Their names hide nothing.
fn in_refinements(mut out: Definitions, refinements: &[Refinement]) -> Definitions
    ensures { Adds (spec.in_refinements refinements.now) out result }
{
    for refinement in refinements {
        out = out.add_units(refinement.units.as_slice());
    }
    out
}

/// The definitions of a level.
pub fn level_definitions(alloc: Global, level: &Level) -> Result<List<Definition>, NoMemory>
    ensures { IfOk result (λ list. list ≡ spec.level_definitions level.now) }
{
    let out = of_level_units(Definitions::new(alloc), level.units.as_slice());
    in_refinements(out, level.refinements.as_slice()).met()
}
