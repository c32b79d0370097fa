//! The headings of bodies.

ghost use Rattle.std.specs.Prelude.{◌≡◌, true, false};
ghost use Rattle.std.specs.Str.{bytes_eq};
ghost use lib.Pointwise.{pointwise};
ghost use Rattle.elan_types.specs.Typing.{same_home};
ghost use Rattle.elan_types.specs.Types.{same_type};
ghost use Rattle.elan_names.specs.Callables as spec;

use elan_types::{ElanType, Parameter};
use eu_base::{Bytes, List};

/// PROCs and OPs have names of their own.
#[derive(Clone, Copy)]
pub enum Sort {
    Procedure,
    Operator,
}

impl Sort {
    /// Whether both are PROCs, or both OPs.
    pub fn is_same(self, other: Sort) -> bool
        ensures { result ≡ spec.same_sort self other }
    {
        match (self, other) {
            (Sort::Procedure, Sort::Procedure) | (Sort::Operator, Sort::Operator) => true,
            (Sort::Procedure, Sort::Operator) | (Sort::Operator, Sort::Procedure) => false,
        }
    }
}

/// What a body is.
#[derive(Drop)]
pub enum What {
    /// A PROC or OP, with its parameters and the type that it delivers.
    Routine(Sort, List<Parameter>, Option<ElanType>),
    /// A refinement of the PROC or OP with this number, or of the level.
    Refinement(Option<usize>),
}

/// The heading of a body: the place of its name, the name, and what it is.
#[derive(Drop)]
pub struct Heading {
    pub at: u32,
    pub name: Bytes,
    pub what: What,
}

impl Heading {
    /// Whether what is written for what it delivers has no meaning.
    pub fn delivers_open(&self) -> bool
        ensures { result ≡ spec.delivers_open self.now.what }
    {
        match &self.what {
            What::Routine(_, _, Some(of)) => of.is_open(),
            What::Routine(_, _, None) => false,
            What::Refinement(_) => false,
        }
    }
}

// Whether two names differ in their last bytes. Most names of a text do, so these are looked at first.
fn differ_at_end(name: &[u8], other: &[u8]) -> bool
    ensures { result ≡ true → bytes_eq name.now other.now ≡ false }
{
    match (name, other) {
        ([.., last], [.., end]) => *last != *end,
        _ => false,
    }
}

/// Whether two names are one.
pub fn is_one(name: &[u8], other: &[u8]) -> bool
    ensures { result ≡ bytes_eq name.now other.now }
{
    if differ_at_end(name, other) {
        return false;
    }
    name == other
}

fn same_types(parameters: &[Parameter], others: &[Parameter]) -> bool
    ensures { result ≡ pointwise same_type (spec.types_of parameters.now) (spec.types_of others.now) }
{
    match (parameters, others) {
        ([], []) => true,
        ([parameter, parameters @ ..], [other, others @ ..]) => parameter.of.is_same(&other.of)
            && same_types(parameters, others),
        ([], [_other, _others @ ..]) => false,
        ([_parameter, _parameters @ ..], []) => false,
    }
}

fn same_home(home: Option<usize>, other: Option<usize>) -> bool
    ensures { result ≡ same_home home other }
{
    match (home, other) {
        (None, None) => true,
        (Some(home), Some(other)) => home == other,
        (None, Some(_)) | (Some(_), None) => false,
    }
}

/// Whether it is a PROC or OP with this name and these types of parameters.
pub fn is_alike(heading: &Heading, sort: Sort, name: &[u8], parameters: &[Parameter]) -> bool
    ensures { result ≡ spec.is_alike sort name.now (spec.types_of parameters.now) heading.now }
{
    is_one(heading.name.as_slice(), name)
        && match &heading.what {
            What::Routine(other, own, _) => sort.is_same(*other)
                && same_types(own.as_slice(), parameters),
            What::Refinement(_) => false,
        }
}

/// Whether it is the refinement of this name, of the PROC or OP with this number or of the level.
pub fn is_refined(heading: &Heading, home: Option<usize>, name: &[u8]) -> bool
    ensures { result ≡ spec.is_refined home name.now heading.now }
{
    is_one(heading.name.as_slice(), name)
        && match &heading.what {
            What::Routine(_, _, _) => false,
            What::Refinement(other) => same_home(home, *other),
        }
}
