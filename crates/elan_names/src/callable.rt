//! What can be called with operands.

ghost use Rattle.std.specs.Prelude.{◌≡◌, ◌+◌, IfOk, map, option_map, length, slice_get, drop};
ghost use Rattle.std.specs.Option.{is_some};
ghost use Rattle.elan_types.specs.Types.{formal_of};
ghost use Rattle.elan_names.specs.Predefined.{predefined};
ghost use Rattle.elan_names.specs.Callables as spec;
ghost use Rattle.elan_names.specs.walks.Seen as seen;

use crate::heading::{Heading, Sort, What, is_one};
use crate::headings::Headings;
use crate::predefined::{Operand, Predefined, Row, rows};
use elan_types::{ElanType, Formal, Parameter};
use eu_base::{NoMemory, Shape};
use std::alloc::Global;

/// What is called.
#[derive(Clone, Copy)]
pub enum Called<'a> {
    Predefined(Predefined),
    /// A PROC or OP with its parameters and the type that it delivers: how many bodies are before those of its level, and its
    /// number among these.
    Body(usize, usize, &'a [Parameter], Option<&'a ElanType>),
}

/// What can be called: by which name, and what it is.
#[derive(Clone, Copy)]
pub struct Callable<'a> {
    pub sort: Sort,
    pub name: &'a [u8],
    pub what: Called<'a>,
}

/// What is given to what is called.
#[derive(Clone, Copy)]
pub enum Parameters<'a> {
    Own(&'a [Parameter]),
    Predefined(&'static [Operand]),
}

impl<'a> Parameters<'a> {
    /// How many they are.
    pub fn len(self) -> usize
        ensures { result ≡ length (seen.parameters self.entry) }
    {
        match self {
            Parameters::Own(parameters) => parameters.len(),
            Parameters::Predefined(operands) => operands.len(),
        }
    }

    // Whether they are so many; any number of them will do where none is told.
    fn are_many(self, count: Option<usize>) -> bool
        ensures { result ≡ spec.are_many count (seen.parameters self.entry) }
    {
        match count {
            None => true,
            Some(count) => self.len() == count,
        }
    }

    /// What a core knows of the first, if there is one.
    #[tactic(auto, using(elan_types::proofs::Types::type_shape))]
    pub fn first(self, alloc: Global) -> Result<Option<Formal>, NoMemory>
        ensures { IfOk result (λ formal. formal ≡ option_map formal_of (slice_get (seen.parameters self.entry) 0)) }
    {
        match self {
            Parameters::Own([parameter, _others @ ..]) => Ok(Some(parameter.formal(alloc)?)),
            Parameters::Predefined([operand, _others @ ..]) => Ok(Some(Formal {
                shape: Shape::Cell(operand.kind),
                access: operand.access,
            })),
            Parameters::Own([]) | Parameters::Predefined([]) => Ok(None),
        }
    }

    /// Those behind the first.
    pub fn behind_first(self) -> Parameters<'a>
        ensures { seen.parameters result ≡ drop 1 (seen.parameters self.entry) }
    {
        match self {
            Parameters::Own([_first, others @ ..]) => Parameters::Own(others),
            Parameters::Predefined([_first, others @ ..]) => Parameters::Predefined(others),
            Parameters::Own([]) | Parameters::Predefined([]) => self,
        }
    }
}

impl<'a> Called<'a> {
    /// What it is given.
    pub fn parameters(self) -> Parameters<'a>
        ensures { seen.parameters result ≡ seen.given_to self.entry }
    {
        match self {
            Called::Predefined(predefined) => Parameters::Predefined(predefined.operands()),
            Called::Body(_, _, parameters, _) => Parameters::Own(parameters),
        }
    }
}

/// Whether what is written for one of these has no meaning.
pub fn has_open(parameters: &[Parameter]) -> bool
    ensures { result ≡ spec.has_open parameters.now }
{
    match parameters {
        [] => false,
        [parameter, others @ ..] => parameter.of.is_open() || has_open(others),
    }
}

/// Whether what is written for the type that is delivered has no meaning.
pub fn is_open_result(delivered: Option<&ElanType>) -> bool
    ensures { result ≡ spec.is_open_result (option_map (λ t. t.now) delivered.entry) }
{
    match delivered {
        None => false,
        Some(of) => of.is_open(),
    }
}

impl Callable<'_> {
    /// Whether what is written for one of its parameters has no meaning.
    #[tactic(auto, using(crate::proofs::Closed::parameters_closed))]
    pub fn has_open(&self) -> bool
        ensures { result ≡ spec.has_open (seen.callable self.now).parameters }
    {
        match self.what {
            Called::Predefined(_) => false,
            Called::Body(_, _, parameters, _) => has_open(parameters),
        }
    }

    #[tactic(auto, using(crate::proofs::Closed::result_closed))]
    fn delivers_open(&self) -> bool
        ensures { result ≡ spec.is_open_result (seen.callable self.now).result }
    {
        match self.what {
            Called::Predefined(_) => false,
            Called::Body(_, _, _, result) => is_open_result(result),
        }
    }

    /// Whether what is written for a parameter, or for what it delivers, has no meaning.
    pub fn is_open(&self) -> bool
        ensures { result ≡ spec.is_open_callable (seen.callable self.now) }
    {
        self.has_open() || self.delivers_open()
    }

    /// Whether it is called by a name.
    pub fn is_called(&self, sort: Sort, name: &[u8]) -> bool
        ensures { result ≡ spec.is_called sort name.now (seen.callable self.now) }
    {
        sort.is_same(self.sort) && is_one(self.name, name)
    }

    // With so many parameters, or with any number of them.
    fn has_as_many(&self, sort: Sort, name: &[u8], count: Option<usize>) -> bool
        ensures { result ≡ spec.has_as_many sort name.now count (seen.callable self.now) }
    {
        self.is_called(sort, name) && self.what.parameters().are_many(count)
    }
}

/// The PROC or OP with this number in its level, before whose bodies there are so many, if the body is one.
pub fn own_callable(before: usize, number: usize, heading: &Heading) -> Option<Callable<'_>>
    ensures { seen.listed result ≡ spec.own_callable (before + number) heading.now.name heading.now.what }
{
    match &heading.what {
        What::Refinement(_) => None,
        What::Routine(sort, parameters, result) => Some(Callable {
            sort: *sort,
            name: heading.name.as_slice(),
            what: Called::Body(before, number, parameters.as_slice(), result.as_ref()),
        }),
    }
}

/// What a row of the table tells.
pub fn predefined_callable(row: &Row) -> Callable<'static>
    ensures { seen.callable result ≡ spec.predefined_callable (row.now.0, row.now.1.now, row.now.2) }
{
    let (sort, name, predefined) = *row;
    Callable {
        sort,
        name,
        what: Called::Predefined(predefined),
    }
}

// Whether what is called, if anything is, has a name and so many parameters.
fn is_such(callable: Option<Callable<'_>>, sort: Sort, name: &[u8], count: Option<usize>) -> bool
    ensures { result ≡ is_some (spec.first (spec.has_as_many sort name.now count) (seen.listed callable.entry)) }
{
    match callable {
        None => false,
        Some(callable) => callable.has_as_many(sort, name, count),
    }
}

/// Whether a PROC or OP of a level, before whose bodies there are so many, has a name and so many parameters, or any number of them.
pub fn is_own(
    headings: &Headings,
    before: usize,
    sort: Sort,
    name: &[u8],
    count: Option<usize>,
) -> bool
    ensures { result ≡ is_some (spec.first (spec.has_as_many sort name.now count) (spec.own_callables before headings.now)) }
{
    for number in headings.named(name) {
        if is_such(headings.callable_at(before, *number), sort, name, count) {
            return true;
        }
    }
    false
}

/// Whether what is predefined has a name and so many parameters, or any number of them.
pub fn is_predefined(sort: Sort, name: &[u8], count: Option<usize>) -> bool
    ensures { result ≡ is_some (spec.first (spec.has_as_many sort name.now count) (map spec.predefined_callable predefined)) }
{
    let mut rest = rows();
    while let [row, others @ ..] = rest {
        if predefined_callable(row).has_as_many(sort, name, count) {
            return true;
        }
        rest = others;
    }
    false
}
