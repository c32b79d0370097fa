//! What a scope defines of types.

ghost use Rattle.std.specs.Prelude.{◌≡◌, option_map, IfOk};
ghost use Rattle.type_names.specs.Faults as spec;
ghost use Rattle.type_names.specs.Types.{first_from};
ghost use Rattle.type_names.specs.walks.Further.{definition_names};
ghost use Rattle.elan_names.specs.walks.Firsts.{type_names};

use crate::calls::numbers_named;
use crate::resolve::{Around, Resolution, resolve};
use call_graph::CallGraph;
use elan_names::type_directory::TypeDirectory;
use elan_tree::TypePhrase;
use elan_walk::definition::Definition;
use eu_base::{List, NoMemory};
use std::alloc::Global;

/// What the names of a scope denote where types are written, their definitions, and which of these each names.
#[derive(Drop)]
pub struct ScopeTypes {
    pub names: TypeDirectory,
    pub definitions: List<Definition>,
    pub calls: CallGraph,
    pub ghost are_named: { type_names names ≡ definition_names definitions },
}

// Whether one of these definitions leads back to the one with this number.
fn comes_back(
    alloc: Global,
    calls: &CallGraph,
    numbers: &[usize],
    back: usize,
) -> Result<bool, NoMemory>
    ensures { IfOk result (λ comes. comes ≡ spec.comes_back calls.now numbers.now back) }
{
    for number in numbers {
        if calls.leads(alloc, *number, back)? {
            return Ok(true);
        }
    }
    Ok(false)
}

impl ScopeTypes {
    ghost use Rattle.type_names.specs.walks.Seen.{AreOf};

    /// What these definitions tell, where these names are declared around.
    pub fn of(
        alloc: Global,
        around: Around<'_>,
        definitions: List<Definition>,
    ) -> Result<ScopeTypes, NoMemory>
        ensures { IfOk result (λ made. AreOf around.entry.first around.entry.names.now definitions made) }
    {
        let Resolution { names, calls } = resolve(alloc, around, definitions.as_slice())?;
        Ok(ScopeTypes {
            names,
            definitions,
            calls,
        })
    }

    /// The first definition of a name, with its number.
    pub fn first_defined(&self, name: &[u8]) -> Option<(usize, &Definition)>
        ensures { option_map (λ f. (f.0, f.1.now)) result ≡ first_from 0 self.now.definitions name.now }
    {
        match self.names.place_of(name) {
            None => None,
            Some(number) => match self.definitions.get(number) {
                None => None,
                Some(definition) => Some((number, definition)),
            },
        }
    }

    /// Whether what is written leads to the definition with this number.
    pub fn leads(&self, alloc: Global, of: &TypePhrase, back: usize) -> Result<bool, NoMemory>
        ensures { IfOk result (λ leads. leads ≡ spec.comes_back self.now.calls (spec.numbers_named self.now.definitions (spec.named_in of.now)) back) }
    {
        let numbers = numbers_named(alloc, &self.names, of)?;
        comes_back(alloc, &self.calls, numbers.as_slice(), back)
    }
}
