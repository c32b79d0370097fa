//! The declarations of a text, in text order.

ghost use Rattle.std.specs.Prelude.{◌≡◌, ◌++◌, false, IfOk, OnOk};
ghost use Rattle.elan_names.specs.declared.entry.Denotes.TheVariants as denote;
ghost use Rattle.type_names.specs.Declarations as spec;

use crate::written::{type_in, type_within};
use elan_names::denoter::Denoter;
use elan_names::entry::{Denotes, Entry};
use elan_names::type_directory::TypeDirectory;
use elan_tree::{Constant, Name, TypePhrase, Unit};
use elan_types::Parameter;
use elan_walk::{Held, Node, Visitor, visit_unit, visit_units};
use eu_base::{Bytes, List, NoMemory};
use std::alloc::Global;

fn denoter(alloc: Global, constant: &Constant) -> Result<Denoter, NoMemory>
    ensures { IfOk result (λ made. made ≡ spec.denoter constant.now) }
{
    match constant {
        Constant::Number(_, number) => Ok(Denoter::Number(*number)),
        Constant::Truth(_, truth) => Ok(Denoter::Truth(*truth)),
        Constant::Text(_, text) => Ok(Denoter::Text(Bytes::from(alloc, text.as_slice())?)),
    }
}

// What a name of a declaration denotes, by how it is held and the type that is written.
fn held_as(
    alloc: Global,
    here: &TypeDirectory,
    around: &TypeDirectory,
    held: Held,
    of: &TypePhrase,
) -> Result<Denotes, NoMemory>
    ensures { IfOk result (λ denotes. denotes ≡ spec.held_as (here.now ++ around.now) held of.now) }
{
    match held {
        Held::Variable => Ok(Denotes::Variable(type_in(alloc, here, around, of)?)),
        Held::Constant => Ok(Denotes::Constant(type_in(alloc, here, around, of)?)),
        Held::Bound => Ok(Denotes::Bound(type_within(alloc, here, around, of)?)),
    }
}

/// Names that are declared, in text order.
#[derive(Drop)]
pub struct Names<'a> {
    pub alloc: Global,
    /// The names of types of the scope, and those around it.
    pub here: &'a TypeDirectory,
    pub around: &'a TypeDirectory,
    pub entries: List<Entry>,
    /// Whether memory was wanted. What was added is worth nothing then.
    pub wanted: bool,
}

impl<'a> Names<'a> {
    ghost use Rattle.std.specs.Prelude.{[]};
    ghost use Rattle.elan_walk.specs.Nodes.{item, let_name};
    ghost use Rattle.type_names.specs.walks.LevelSeen.{with_entries, visible, Adds};

    pub fn new(alloc: Global, here: &'a TypeDirectory, around: &'a TypeDirectory) -> Names<'a>
        ensures entries { result.entries ≡ [] }
        ensures here { result.here.now ≡ here.now }
        ensures around { result.around.now ≡ around.now }
    {
        Names {
            alloc,
            here,
            around,
            entries: List::new(alloc),
            wanted: false,
        }
    }

    /// Adds the declaration of a name.
    pub fn add(mut self, name: &Name, denotes: Denotes) -> Names<'a>
        ensures { result.wanted ≡ false → (self.entry.wanted ≡ false) × (result ≡ with_entries self.entry (spec.entry name.now denotes)) }
    {
        match self.push(name, denotes) {
            Ok(()) => (),
            Err(NoMemory) => self.wanted = true,
        }
        self
    }

    /// Adds a parameter.
    pub fn add_parameter(mut self, name: &Name, parameter: &Parameter) -> Names<'a>
        ensures { result.wanted ≡ false → (self.entry.wanted ≡ false)
            × (result ≡ with_entries self.entry (spec.entry name.now (denote.Parameter parameter.now))) }
    {
        match parameter.try_clone() {
            Ok(parameter) => self.add(name, Denotes::Parameter(parameter)),
            Err(NoMemory) => {
                self.wanted = true;
                self
            }
        }
    }

    // Adds a name of a declaration.
    fn add_item(mut self, held: Held, of: &TypePhrase, name: &Name) -> Names<'a>
        ensures { result.wanted ≡ false → (self.entry.wanted ≡ false)
            × (result ≡ with_entries self.entry (spec.declared (visible self.entry) (item held of.now name.now))) }
    {
        match held_as(self.alloc, self.here, self.around, held, of) {
            Ok(denotes) => self.add(name, denotes),
            Err(NoMemory) => {
                self.wanted = true;
                self
            }
        }
    }

    // Adds a name that LET gives to a constant.
    fn add_constant(mut self, name: &Name, constant: &Constant) -> Names<'a>
        ensures { result.wanted ≡ false → (self.entry.wanted ≡ false)
            × (result ≡ with_entries self.entry (spec.declared (visible self.entry) (let_name name.now constant.now))) }
    {
        match denoter(self.alloc, constant) {
            Ok(denoter) => self.add(name, Denotes::Denoter(denoter)),
            Err(NoMemory) => {
                self.wanted = true;
                self
            }
        }
    }

    fn push(&mut self, name: &Name, denotes: Denotes) -> Result<(), NoMemory>
        ensures { OnOk result (self.new ≡ with_entries self.old (spec.entry name.now denotes)) }
    {
        self.entries.push(Entry {
            at: name.at,
            name: Bytes::from(self.alloc, name.text.as_slice())?,
            denotes,
        })
    }

    /// Adds what a unit declares.
    #[tactic(auto, using(crate::proofs::Seen::declarations))]
    pub fn add_unit(self, unit: &Unit) -> Names<'a>
        ensures { Adds (spec.in_unit (visible self.entry) unit.now) self.entry result }
    {
        visit_unit(self, unit)
    }

    /// Adds what units declare.
    #[tactic(auto, using(crate::proofs::Seen::declarations))]
    pub fn add_units(self, units: &[Unit]) -> Names<'a>
        ensures { Adds (spec.in_units (visible self.entry) units.now) self.entry result }
    {
        visit_units(self, units)
    }

    /// What was added, where memory sufficed for it.
    pub fn met(self) -> Result<List<Entry>, NoMemory>
        ensures { IfOk result (λ entries. (self.entry.wanted ≡ false) × (entries ≡ self.entry.entries)) }
    {
        let Names {
            entries,
            wanted,
            ..
        } = self;
        if wanted { Err(NoMemory) } else { Ok(entries) }
    }
}

impl<'a> Visitor for Names<'a> {
    ghost use Rattle.type_names.specs.walks.LevelSeen.{with_entries, visible};

    ghost after = { λ s n. with_entries s (spec.declared (visible s) n) };

    ghost wanted = { λ s. s.wanted };

    fn visit(self, node: Node<'_>) -> Names<'a> {
        match node {
            Node::Item(held, of, name) => self.add_item(held, of, name),
            Node::Let(name, constant) => self.add_constant(name, constant),
            _ => self,
        }
    }
}
