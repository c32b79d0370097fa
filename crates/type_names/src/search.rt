//! The search for the first type that breaks a rule.

ghost use Rattle.std.specs.Prelude.{◌≡◌, None, IfOk};
ghost use Rattle.type_names.specs.Faults as spec;
ghost use Rattle.type_names.specs.Types.{first_from};
ghost use Rattle.type_names.specs.walks.Seen.{here_of, with_fault, Notes};

use crate::fields::earlier;
use crate::judgement::judge;
use crate::scope_types::ScopeTypes;
pub use crate::visible::Fault;
use crate::visible::Visible;
use elan_names::type_directory::TypeDirectory;
use elan_tree::{Name, Refinement, TypePhrase};
use elan_types::Why;
use elan_walk::definition::Definition;
use elan_walk::{Held, Node, Visitor};
use eu_base::NoMemory;
use std::alloc::Global;

// The type of what BOUND variables stand for is as if it stood inside another.
fn is_inside(held: Held) -> bool
    ensures { result ≡ spec.is_inside held }
{
    match held {
        Held::Bound => true,
        Held::Variable | Held::Constant => false,
    }
}

/// Whoever looks for the first type that breaks a rule.
#[derive(Drop)]
pub struct Search<'a> {
    alloc: Global,
    here: &'a ScopeTypes,
    around: &'a TypeDirectory,
    refinements: &'a [Refinement],
    first: Option<Fault>,
    // Whether memory was wanted. What was found is worth nothing then.
    wanted: bool,
}

impl<'a> Search<'a> {
    ghost use Rattle.std.specs.Prelude.{false};

    /// Looks in a scope with these types, where others are declared around, and these are the refinements of the level.
    pub fn new(
        alloc: Global,
        here: &'a ScopeTypes,
        around: &'a TypeDirectory,
        refinements: &'a [Refinement],
    ) -> Search<'a>
        ensures here { result.here.now ≡ here.now }
        ensures around { result.around.now ≡ around.now }
        ensures refinements { result.refinements.now ≡ refinements.now }
        ensures first { result.first ≡ None }
    {
        Search {
            alloc,
            here,
            around,
            refinements,
            first: None,
            wanted: false,
        }
    }

    // The fault of a type that stands inside another one, or not.
    fn written_fault(&self, of: &TypePhrase, inside: bool) -> Result<Option<Fault>, NoMemory>
        ensures { IfOk result (λ fault. fault ≡ spec.first_fault (spec.written_faults (here_of self.now) of.now inside)) }
    {
        let visible = Visible {
            own: &self.here.names,
            around: self.around,
            refinements: self.refinements,
        };
        let judged = judge(self.alloc, visible, of, inside)?;
        Ok(judged.first)
    }

    // Whether the definition at this place contains itself, where this is written for it and its name's first definition has this number.
    fn contains_itself(
        &self,
        at: u32,
        number: usize,
        first: &Definition,
        of: &TypePhrase,
    ) -> Result<bool, NoMemory>
        ensures { IfOk result (λ circular. circular ≡ spec.contains_itself (here_of self.now) at of.now (number, first.now)) }
    {
        if first.at != at {
            return Ok(false);
        }
        self.here.leads(self.alloc, of, number)
    }

    // The fault of a definition for which all that is written has a meaning.
    fn named_fault(&self, at: u32, name: &Name, of: &TypePhrase) -> Result<Option<Fault>, NoMemory>
        ensures { IfOk result (λ fault. fault ≡ spec.first_fault (spec.named_faults (here_of self.now) at of.now
            (first_from 0 (here_of self.now).definitions name.now.text))) }
    {
        match self.here.first_defined(name.text.as_slice()) {
            None => Ok(None),
            Some((number, first)) => {
                if self.contains_itself(at, number, first, of)? {
                    Ok(Some((at, Why::WrongPlace)))
                } else {
                    Ok(None)
                }
            }
        }
    }

    // The fault of a definition at this place.
    fn definition_fault(
        &self,
        at: u32,
        name: &Name,
        of: &TypePhrase,
    ) -> Result<Option<Fault>, NoMemory>
        ensures { IfOk result (λ fault. fault ≡ spec.first_fault (spec.definition_faults (here_of self.now) at name.now of.now)) }
    {
        match self.written_fault(of, true)? {
            Some(fault) => Ok(Some(fault)),
            None => self.named_fault(at, name, of),
        }
    }

    // Keeps the fault that was found first.
    fn note(mut self, found: Result<Option<Fault>, NoMemory>) -> Search<'a>
        ensures { Notes self.entry found result }
    {
        match found {
            Ok(fault) => self.first = earlier(self.first, fault),
            Err(NoMemory) => self.wanted = true,
        }
        self
    }

    #[tactic(auto, using(crate::proofs::Told::noted))]
    fn see_type(self, of: &TypePhrase, inside: bool) -> Search<'a>
        ensures { result.wanted ≡ false → (self.entry.wanted ≡ false) × (result ≡ with_fault self.entry
            (spec.first_fault (spec.written_faults (here_of self.entry) of.now inside))) }
    {
        let found = self.written_fault(of, inside);
        self.note(found)
    }

    #[tactic(auto, using(crate::proofs::Told::noted))]
    fn see_definition(self, at: u32, name: &Name, of: &TypePhrase) -> Search<'a>
        ensures { result.wanted ≡ false → (self.entry.wanted ≡ false) × (result ≡ with_fault self.entry
            (spec.first_fault (spec.definition_faults (here_of self.entry) at name.now of.now))) }
    {
        let found = self.definition_fault(at, name, of);
        self.note(found)
    }

    /// The fault that was found first, where memory sufficed.
    pub fn met(self) -> Result<Option<Fault>, NoMemory>
        ensures { IfOk result (λ first. (self.entry.wanted ≡ false) × (first ≡ self.entry.first)) }
    {
        let Search { first, wanted, .. } = self;
        if wanted { Err(NoMemory) } else { Ok(first) }
    }
}

impl<'a> Visitor for Search<'a> {
    ghost use Rattle.type_names.specs.walks.Seen.{searched};

    ghost after = { λ s n. searched s n };

    ghost wanted = { λ s. s.wanted };

    fn visit(self, node: Node<'_>) -> Search<'a> {
        match node {
            Node::Type(of) => self.see_type(of, false),
            Node::Content(of) => self.see_type(of, true),
            Node::Item(held, of, _) => self.see_type(of, is_inside(held)),
            Node::Abbreviation(name, of) => self.see_definition(name.at, name, of),
            Node::NewType(at, name, of) => self.see_definition(at, name, of),
            _ => self.note(Ok(None)),
        }
    }
}
