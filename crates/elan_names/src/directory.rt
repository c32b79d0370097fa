//! What a level or a body declares, found by name.

ghost use Rattle.std.specs.Prelude.{◌≡◌, option_map, IfOk, OnOk};
ghost use Rattle.elan_names.specs.Names as names;
ghost use Rattle.elan_names.specs.walks.Firsts as spec;

use crate::entry::Entry;
use crate::heading::is_one;
use crate::keeping::{FEW, keep};
use eu_base::{List, NoMemory};
use std::alloc::Global;
use std::collections::HashMap;
use std::marker::Model;

/// Declarations in text order, which contracts see as a list. Of many, the place of the first of each name is kept by the name,
/// so that no look-up goes over all of them.
#[derive(Drop)]
pub struct Directory {
    entries: List<Entry>,
    // How many cells are before each of them.
    numbers: List<usize>,
    firsts: Option<HashMap<Vec<u8>, usize>>,
}

impl Model for Directory {
    ghost use Rattle.std.specs.Prelude.{◌≡◌, List};
    ghost use Rattle.elan_names.specs.declared.entry.Entry.{Entry};
    ghost use Rattle.std.specs.Coded.{codes};
    ghost use Rattle.elan_types.specs.contracts.elan_type.ElanType as types;

    ghost Value = { List Entry };

    ghost coded = { Prim.hlevel (codes, types.the_row.coded) };

    ghost use Rattle.elan_names.specs.walks.Firsts.{AreKept, cells_before, entry_names};

    ghost view = { λ directory. directory.entries };

    ghost invariant = { λ directory. (directory.numbers ≡ cells_before 0 directory.entries) × AreKept directory.firsts (entry_names directory.entries) };
}

// How many cells are before each declaration.
fn cells_before(alloc: Global, entries: &[Entry]) -> Result<List<usize>, NoMemory>
    ensures { IfOk result (λ numbers. numbers ≡ spec.cells_before 0 entries.now) }
{
    let mut numbers = List::new(alloc);
    let mut number = 0_usize;
    for entry in entries {
        numbers.push(number)?;
        let cells = entry.denotes.cells().ok_or(NoMemory)?;
        number = number.checked_add(usize::from(cells)).ok_or(NoMemory)?;
    }
    Ok(numbers)
}

// The place of the first declaration of a name.
fn first_at(entries: &[Entry], name: &[u8]) -> Option<usize>
    ensures { result ≡ spec.first_at 0 (spec.entry_names entries.now) name.now }
{
    for (index, entry) in entries.iter().enumerate() {
        if is_one(entry.name.as_slice(), name) {
            return Some(index);
        }
    }
    None
}

// Keeps the first declaration of each name.
fn firsts(alloc: Global, entries: &[Entry]) -> Result<HashMap<Vec<u8>, usize>, NoMemory>
    ensures { IfOk result (λ firsts. spec.HasFirsts firsts (spec.entry_names entries.now)) }
{
    let mut firsts = HashMap::new(alloc);
    let mut index = 0;
    let mut rest = entries;
    while let [entry, others @ ..] = rest {
        keep(alloc, &mut firsts, index, entry.name.as_slice())?;
        index += 1;
        rest = others;
    }
    Ok(firsts)
}

impl Directory {
    /// These declarations.
    pub fn of(alloc: Global, entries: List<Entry>) -> Result<Directory, NoMemory>
        ensures { IfOk result (λ made. made ≡ entries) }
    {
        let numbers = cells_before(alloc, entries.as_slice())?;
        if entries.len() <= FEW {
            return Ok(Directory {
                entries,
                numbers,
                firsts: None,
            });
        }
        let firsts = Some(firsts(alloc, entries.as_slice())?);
        Ok(Directory {
            entries,
            numbers,
            firsts,
        })
    }

    /// The declarations, lent.
    pub fn as_slice(&self) -> &[Entry]
        ensures { result.now ≡ self.now }
    {
        self.entries.as_slice()
    }

    // The declaration at this place, with the number of cells of what is held before it.
    fn entry_at(&self, index: usize) -> Option<(usize, &Entry)>
        ensures { option_map (λ f. (f.0, f.1.now)) result ≡ spec.entry_at self.now index }
    {
        let number = *self.numbers.as_slice().get(index)?;
        let entry = self.entries.as_slice().get(index)?;
        Some((number, entry))
    }

    fn place_of(&self, name: &[u8]) -> Option<usize>
        ensures { result ≡ spec.first_at 0 (spec.entry_names self.now) name.now }
    {
        match &self.firsts {
            None => first_at(self.entries.as_slice(), name),
            Some(firsts) => firsts.get(name).copied(),
        }
    }

    /// The first declaration of a name, with the number of cells of what is held before it; `None` exactly where there is none.
    pub fn first_named(&self, name: &[u8]) -> Option<(usize, &Entry)>
        ensures { option_map (λ f. (f.0, f.1.now)) result ≡ names.first_named self.now name.now }
    {
        match self.place_of(name) {
            None => None,
            Some(index) => self.entry_at(index),
        }
    }
}
