//! The headings of a level, and the look-up among them.

ghost use Rattle.std.specs.Prelude.{◌≡◌, ◌+◌, option_map, is_some, slice_get, IfOk, OnOk};
ghost use Rattle.elan_names.specs.Callables as spec;
ghost use Rattle.elan_names.specs.walks.Numbers as walks;
ghost use Rattle.elan_names.specs.walks.Seen as seen;

use crate::callable::{Callable, own_callable};
use crate::heading::{Heading, Sort, is_alike, is_refined};
use elan_types::Parameter;
use eu_base::{List, NoMemory};
use std::alloc::Global;
use std::collections::HashMap;
use std::marker::Model;

/// Headings in the order of their numbers, which contracts see as a list. The numbers of each name are kept by the name, so that
/// no look-up goes over all of them.
#[derive(Drop)]
pub struct Headings {
    list: List<Heading>,
    numbers: HashMap<Vec<u8>, List<usize>>,
}

impl Model for Headings {
    ghost use Rattle.std.specs.Prelude.{List};
    ghost use Rattle.elan_names.specs.declared.heading.Heading.{Heading};
    ghost use Rattle.std.specs.Coded.{codes};
    ghost use Rattle.elan_types.specs.contracts.elan_type.ElanType as types;

    ghost Value = { List Heading };

    ghost coded = { Prim.hlevel (codes, types.the_row.coded) };

    ghost use Rattle.elan_names.specs.walks.Numbers.{HasNumbers};

    ghost view = { λ headings. headings.list };

    ghost invariant = { λ headings. HasNumbers headings.numbers headings.list };
}

// The numbers that are kept under a name, taken out.
fn taken(alloc: Global, numbers: &mut HashMap<Vec<u8>, List<usize>>, name: &[u8]) -> List<usize>
    ensures numbers { result ≡ walks.numbers numbers.old name.now }
    ensures others { walks.KeepsOtherNames numbers.old numbers.new name.now }
{
    match numbers.remove(name) {
        None => List::new(alloc),
        Some(numbers) => numbers,
    }
}

// Keeps numbers under a name.
fn keep(
    alloc: Global,
    numbers: &mut HashMap<Vec<u8>, List<usize>>,
    name: &[u8],
    named: List<usize>,
) -> Result<(), NoMemory>
    ensures numbers { OnOk result (walks.numbers numbers.new name.now ≡ named) }
    ensures others { OnOk result (walks.KeepsOtherNames numbers.old numbers.new name.now) }
{
    let name = Vec::from_slice(alloc, name)?;
    numbers.insert(name, named)?;
    Ok(())
}

// Adds a number under its name.
fn add(
    alloc: Global,
    numbers: &mut HashMap<Vec<u8>, List<usize>>,
    number: usize,
    name: &[u8],
) -> Result<(), NoMemory>
    ensures { OnOk result (walks.AddsNumber numbers.old numbers.new number name.now) }
{
    let mut named = taken(alloc, numbers, name);
    named.push(number)?;
    keep(alloc, numbers, name, named)
}

fn numbers(alloc: Global, headings: &[Heading]) -> Result<HashMap<Vec<u8>, List<usize>>, NoMemory>
    ensures { IfOk result (λ numbers. walks.HasNumbers numbers headings.now) }
{
    let mut numbers = HashMap::new(alloc);
    let mut number = 0;
    let mut rest = headings;
    while let [heading, others @ ..] = rest {
        add(alloc, &mut numbers, number, heading.name.as_slice())?;
        number += 1;
        rest = others;
    }
    Ok(numbers)
}

impl Headings {
    /// These headings.
    pub fn of(alloc: Global, list: List<Heading>) -> Result<Headings, NoMemory>
        ensures { IfOk result (λ made. made ≡ list) }
    {
        let numbers = numbers(alloc, list.as_slice())?;
        Ok(Headings { list, numbers })
    }

    /// The headings, lent.
    pub fn as_slice(&self) -> &[Heading]
        ensures { result.now ≡ self.now }
    {
        self.list.as_slice()
    }

    /// The numbers of those of a name, in their order.
    pub fn named(&self, name: &[u8]) -> &[usize]
        ensures { result.now ≡ walks.numbers_named self.now name.now }
    {
        match self.numbers.get(name) {
            None => &[],
            Some(numbers) => numbers.as_slice(),
        }
    }

    fn get(&self, number: usize) -> Option<&Heading>
        ensures { option_map (λ h. h.now) result ≡ slice_get self.now number }
    {
        self.list.get(number)
    }

    // The heading with this number, where it is a PROC or OP with this name and these types of parameters.
    fn alike_at(
        &self,
        number: usize,
        sort: Sort,
        name: &[u8],
        parameters: &[Parameter],
    ) -> Option<&Heading>
        ensures { option_map (λ h. (number, h.now)) result ≡ walks.if_passes (spec.is_alike sort name.now (spec.types_of parameters.now)) number
            (slice_get self.now number) }
    {
        let heading = self.get(number)?;
        if is_alike(heading, sort, name, parameters) {
            Some(heading)
        } else {
            None
        }
    }

    /// The first PROC or OP with this name and these types of parameters, with its number; `None` exactly where there is none.
    pub fn first_alike(
        &self,
        sort: Sort,
        name: &[u8],
        parameters: &[Parameter],
    ) -> Option<(usize, &Heading)>
        ensures { option_map (λ b. (b.0, b.1.now)) result ≡ spec.first_heading (spec.is_alike sort name.now (spec.types_of parameters.now)) self.now }
    {
        for number in self.named(name) {
            if let Some(heading) = self.alike_at(*number, sort, name, parameters) {
                return Some((*number, heading));
            }
        }
        None
    }

    // Whether the heading with this number is the refinement of this name, of this PROC or OP or of the level.
    fn is_refined_at(&self, number: usize, home: Option<usize>, name: &[u8]) -> bool
        ensures { result ≡ is_some (walks.if_passes (spec.is_refined home name.now) number (slice_get self.now number)) }
    {
        match self.get(number) {
            None => false,
            Some(heading) => is_refined(heading, home, name),
        }
    }

    /// The number of the refinement of this name, of the PROC or OP with this number or of the level; `None` exactly where
    /// there is none.
    pub fn first_refined(&self, home: Option<usize>, name: &[u8]) -> Option<usize>
        ensures { result ≡ spec.number_in (spec.first_heading (spec.is_refined home name.now) self.now) }
    {
        for number in self.named(name) {
            if self.is_refined_at(*number, home, name) {
                return Some(*number);
            }
        }
        None
    }

    /// The PROC or OP with this number, if the body is one, where so many bodies are before those of the level.
    pub fn callable_at(&self, before: usize, number: usize) -> Option<Callable<'_>>
        ensures { seen.listed result ≡ walks.callable_at (before + number) (slice_get self.now number) }
    {
        match self.get(number) {
            None => None,
            Some(heading) => own_callable(before, number, heading),
        }
    }
}
