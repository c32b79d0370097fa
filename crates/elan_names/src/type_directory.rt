//! The names of types that a level or a body declares, found by name.

ghost use Rattle.std.specs.Prelude.{◌≡◌, ◌++◌, [], option_map, IfOk, OnErr, OnOk};
ghost use Rattle.elan_names.specs.Types as types;
ghost use Rattle.elan_names.specs.walks.Firsts as spec;

use crate::heading::is_one;
use crate::keeping::{FEW, keep};
use crate::type_name::{Named, TypeName};
use eu_base::{Bytes, List, NoMemory};
use std::alloc::Global;
use std::collections::HashMap;
use std::marker::Model;

/// Names of types in text order, which contracts see as a list. Of many, the place of the first of each name is kept by the
/// name, so that no look-up goes over all of them.
#[derive(Drop)]
pub struct TypeDirectory {
    list: List<TypeName>,
    firsts: Option<HashMap<Vec<u8>, usize>>,
}

impl Model for TypeDirectory {
    ghost use Rattle.std.specs.Prelude.{List};
    ghost use Rattle.elan_names.specs.declared.type_name.TypeName.{TypeName};
    ghost use Rattle.std.specs.Coded.{codes};
    ghost use Rattle.elan_types.specs.contracts.elan_type.ElanType as types;

    ghost Value = { List TypeName };

    ghost coded = { Prim.hlevel (codes, types.the_row.coded) };

    ghost use Rattle.elan_names.specs.walks.Firsts.{AreKept, type_names};

    ghost view = { λ directory. directory.list };

    ghost invariant = { λ directory. AreKept directory.firsts (type_names directory.list) };
}

// The place of the first of a name.
fn first_at(list: &[TypeName], name: &[u8]) -> Option<usize>
    ensures { result ≡ spec.first_at 0 (spec.type_names list.now) name.now }
{
    for (place, named) in list.iter().enumerate() {
        if is_one(named.name.as_slice(), name) {
            return Some(place);
        }
    }
    None
}

// Keeps the place of the first of each name.
fn firsts(alloc: Global, list: &[TypeName]) -> Result<HashMap<Vec<u8>, usize>, NoMemory>
    ensures { IfOk result (λ firsts. spec.HasFirsts firsts (spec.type_names list.now)) }
{
    let mut firsts = HashMap::new(alloc);
    let mut place = 0;
    let mut rest = list;
    while let [named, others @ ..] = rest {
        keep(alloc, &mut firsts, place, named.name.as_slice())?;
        place += 1;
        rest = others;
    }
    Ok(firsts)
}

impl TypeDirectory {
    /// No names.
    pub fn new(alloc: Global) -> TypeDirectory
        ensures { result ≡ [] }
    {
        TypeDirectory {
            list: List::new(alloc),
            firsts: None,
        }
    }

    /// These names.
    pub fn of(alloc: Global, list: List<TypeName>) -> Result<TypeDirectory, NoMemory>
        ensures { IfOk result (λ made. made ≡ list) }
    {
        if list.len() <= FEW {
            return Ok(TypeDirectory { list, firsts: None });
        }
        let firsts = Some(firsts(alloc, list.as_slice())?);
        Ok(TypeDirectory { list, firsts })
    }

    /// These names, and others behind them.
    pub fn before(self, alloc: Global, others: &TypeDirectory) -> Result<TypeDirectory, NoMemory>
        ensures { IfOk result (λ both. both ≡ self ++ others.now) }
    {
        if others.list.is_empty() {
            return Ok(self);
        }
        let TypeDirectory { mut list, .. } = self;
        for named in others.list.as_slice() {
            list.push(named.try_clone(alloc)?)?;
        }
        TypeDirectory::of(alloc, list)
    }

    /// The names, lent.
    pub fn as_slice(&self) -> &[TypeName]
        ensures { result.now ≡ self.now }
    {
        self.list.as_slice()
    }

    /// The place of the first of a name, counted from 0; `None` exactly where there is none.
    pub fn place_of(&self, name: &[u8]) -> Option<usize>
        ensures { result ≡ spec.first_at 0 (spec.type_names self.now) name.now }
    {
        match &self.firsts {
            None => first_at(self.list.as_slice(), name),
            Some(firsts) => firsts.get(name).copied(),
        }
    }

    /// The first of a name; `None` exactly where there is none.
    #[tactic(auto, using(crate::proofs::Kept::type_found))]
    pub fn first(&self, name: &[u8]) -> Option<&TypeName>
        ensures { option_map (λ t. t.now) result ≡ types.first_type name.now self.now }
    {
        match self.place_of(name) {
            None => None,
            Some(place) => self.list.get(place),
        }
    }

    /// Lets the name at a place denote this. Without memory, or where none stands there, nothing changes.
    #[tactic(auto, using(crate::proofs::Kept::denoting_set, crate::proofs::Kept::denoting_none, crate::proofs::Kept::denoting_names))]
    pub fn denote(&mut self, alloc: Global, place: usize, of: Named) -> Result<(), NoMemory>
        ensures denotes { OnOk result (self.new ≡ spec.denoting self.old place of) }
        ensures refused { OnErr result (self.new ≡ self.old) }
    {
        match self.list.get(place) {
            None => Ok(()),
            Some(named) => {
                let at = named.at;
                let name = Bytes::from(alloc, named.name.as_slice())?;
                self.list.set(place, TypeName { at, name, of });
                Ok(())
            }
        }
    }
}
