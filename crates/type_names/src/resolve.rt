//! What names denote.

ghost use Rattle.std.specs.Prelude.{◌≡◌, ℕ, ◌+◌, ◌++◌, length, IfOk, OnOk};
ghost use Rattle.elan_names.specs.Types.{is_open_named};
ghost use Rattle.type_names.specs.Faults as faults;
ghost use Rattle.type_names.specs.Types as spec;
ghost use Rattle.type_names.specs.walks.Further as walk;

use crate::calls::calls;
use crate::written::type_within;
use call_graph::CallGraph;
use elan_names::type_directory::TypeDirectory;
use elan_names::type_name::{Named, TypeName};
use elan_types::ElanType;
use elan_walk::definition::{Defined, Definition};
use eu_base::{Bytes, List, NoMemory, Shared};
use std::alloc::Global;

// An own type; it is open where its concrete type is.
fn made(alloc: Global, number: usize, concrete: ElanType) -> Result<ElanType, NoMemory>
    ensures { IfOk result (λ of. of ≡ spec.made number concrete) }
{
    if concrete.is_open() {
        concrete.let_go();
        return Ok(ElanType::Open);
    }
    Ok(ElanType::Own(number, Shared::new(alloc, concrete)?))
}

/// What is declared around a scope.
#[derive(Clone, Copy)]
pub struct Around<'a> {
    /// The names of types.
    pub names: &'a TypeDirectory,
    /// How many names of types other texts declare: own types are numbered from this number on.
    pub first: usize,
}

// What a definition says, read with these names.
fn as_defined(
    alloc: Global,
    own: &TypeDirectory,
    around: Around<'_>,
    number: usize,
    what: &Defined,
) -> Result<Named, NoMemory>
    ensures { IfOk result (λ named. named ≡ spec.as_defined around.entry.first (spec.look (own.now ++ around.entry.names.now)) number what.now) }
{
    match what {
        Defined::Abbreviation(of) => { Ok(Named::Of(type_within(alloc, own, around.names, of)?)) },
        Defined::New(of) => {
            let concrete = type_within(alloc, own, around.names, of)?;
            let number = around.first.checked_add(number).ok_or(NoMemory)?;
            Ok(Named::Of(made(alloc, number, concrete)?))
        }
        Defined::Number(size) => Ok(Named::Size(*size)),
        Defined::Other => Ok(Named::Other),
    }
}

// What a definition says before anything is read: its type is open.
fn unread(what: &Defined) -> Named
    ensures { result ≡ walk.unread what.now }
{
    match what {
        Defined::Abbreviation(_) | Defined::New(_) => Named::Of(ElanType::Open),
        Defined::Number(size) => Named::Size(*size),
        Defined::Other => Named::Other,
    }
}

// The names that definitions declare, before anything is read.
fn all_unread(alloc: Global, definitions: &[Definition]) -> Result<TypeDirectory, NoMemory>
    ensures { IfOk result (λ names. names ≡ walk.all_unread definitions.now) }
{
    let mut names = List::new(alloc);
    for definition in definitions {
        names.push(TypeName {
            at: definition.name_at,
            name: Bytes::from(alloc, definition.name.as_slice())?,
            of: unread(&definition.what),
        })?;
    }
    TypeDirectory::of(alloc, names)
}

// Reads a definition with what was read before.
fn read_one(
    alloc: Global,
    names: &mut TypeDirectory,
    around: Around<'_>,
    definitions: &[Definition],
    number: usize,
) -> Result<(), NoMemory>
    ensures { OnOk result (names.new ≡ walk.with_read around.entry.first around.entry.names.now definitions.now number names.old) }
{
    match definitions.get(number) {
        None => Ok(()),
        Some(definition) => {
            let of = as_defined(alloc, names, around, number, &definition.what)?;
            names.denote(alloc, number, of)
        }
    }
}

// Reads the next definition of an order, if there is one.
fn read_next(
    alloc: Global,
    names: &mut TypeDirectory,
    around: Around<'_>,
    definitions: &[Definition],
    next: Option<&usize>,
) -> Result<(), NoMemory>
    ensures { OnOk result ((n : ℕ) → walk.Reads around.entry.first around.entry.names.now definitions.now n names.old → walk.Reads around.entry.first around.entry.names.now definitions.now (n + 1) names.new) }
{
    match next {
        None => Ok(()),
        Some(number) => read_one(alloc, names, around, definitions, *number),
    }
}

// Reads each definition once, in an order in which each stands behind those that it names, as far as it does not lead back to
// itself. Nothing is promised of the order.
fn read_in_order(
    alloc: Global,
    unread: TypeDirectory,
    around: Around<'_>,
    definitions: &[Definition],
    order: &[usize],
) -> Result<TypeDirectory, NoMemory>
    ensures { unread ≡ walk.all_unread definitions.now
        → IfOk result (λ names. walk.Reads around.entry.first around.entry.names.now definitions.now (length definitions.now) names) }
{
    let mut names = unread;
    for turn in 0..definitions.len() {
        read_next(alloc, &mut names, around, definitions, order.get(turn))?;
    }
    Ok(names)
}

// Whether the type of a definition has no meaning, read with these names.
fn reads_open(
    alloc: Global,
    own: &TypeDirectory,
    around: Around<'_>,
    number: usize,
    what: &Defined,
) -> Result<bool, NoMemory>
    ensures { IfOk result (λ told. told ≡ is_open_named (spec.as_defined around.entry.first (spec.look (own.now ++ around.entry.names.now)) number what.now)) }
{
    match as_defined(alloc, own, around, number, what)? {
        Named::Of(of) => {
            let is_open = of.is_open();
            of.let_go();
            Ok(is_open)
        }
        Named::Size(_) | Named::Other => Ok(false),
    }
}

// Whether each type that is open is still open where it is read again: then nothing further is known.
fn are_settled(
    alloc: Global,
    names: &TypeDirectory,
    around: Around<'_>,
    definitions: &[Definition],
) -> Result<bool, NoMemory>
    ensures { IfOk result (λ settled. settled ≡ walk.settled_from around.entry.first (spec.look (names.now ++ around.entry.names.now)) 0 names.now definitions.now) }
{
    let mut rest = names.as_slice();
    for (number, definition) in definitions.iter().enumerate() {
        let [named, behind @ ..] = rest else {
            return Ok(false);
        };
        if named.is_open() && !reads_open(alloc, names, around, number, &definition.what)? {
            return Ok(false);
        }
        rest = behind;
    }
    Ok(rest.is_empty())
}

// The names that definitions declare, read with these names.
fn read(
    alloc: Global,
    own: &TypeDirectory,
    around: Around<'_>,
    definitions: &[Definition],
) -> Result<TypeDirectory, NoMemory>
    ensures { IfOk result (λ names. names ≡ walk.read around.entry.first (spec.look (own.now ++ around.entry.names.now)) 0 definitions.now) }
{
    let mut names = List::new(alloc);
    for (number, definition) in definitions.iter().enumerate() {
        let of = as_defined(alloc, own, around, number, &definition.what)?;
        names.push(TypeName {
            at: definition.name_at,
            name: Bytes::from(alloc, definition.name.as_slice())?,
            of,
        })?;
    }
    TypeDirectory::of(alloc, names)
}

// The names that definitions declare, read again and again with what was read before. This is the definition, which answers what
// an order leaves open.
fn read_in_rounds(
    alloc: Global,
    around: Around<'_>,
    definitions: &[Definition],
) -> Result<TypeDirectory, NoMemory>
    ensures { IfOk result (λ names. names ≡ spec.names_of around.entry.first around.entry.names.now definitions.now) }
{
    let none = TypeDirectory::new(alloc);
    let nothing = Around {
        names: &none,
        first: around.first,
    };
    let mut names = read(alloc, &none, nothing, definitions)?;
    for _definition in definitions {
        names = read(alloc, &names, around, definitions)?;
    }
    read(alloc, &names, around, definitions)
}

// What was read in order, where nothing further is known.
fn settled(
    alloc: Global,
    names: TypeDirectory,
    around: Around<'_>,
    definitions: &[Definition],
) -> Result<TypeDirectory, NoMemory>
    ensures { walk.Reads around.entry.first around.entry.names.now definitions.now (length definitions.now) names
        → IfOk result (λ names. names ≡ spec.names_of around.entry.first around.entry.names.now definitions.now) }
{
    if are_settled(alloc, &names, around, definitions)? {
        return Ok(names);
    }
    read_in_rounds(alloc, around, definitions)
}

/// What the names of a scope denote, and which of its definitions each names.
#[derive(Drop)]
pub struct Resolution {
    pub names: TypeDirectory,
    pub calls: CallGraph,
}

/// What the names that definitions declare denote, where others are declared around, and which definitions each names. Each
/// definition is read behind those that it names.
pub fn resolve(
    alloc: Global,
    around: Around<'_>,
    definitions: &[Definition],
) -> Result<Resolution, NoMemory>
    ensures names { IfOk result (λ made. made.names ≡ spec.names_of around.entry.first around.entry.names.now definitions.now) }
    ensures calls { IfOk result (λ made. made.calls ≡ faults.calls definitions.now) }
{
    let unread = all_unread(alloc, definitions)?;
    let calls = CallGraph::of(alloc, calls(alloc, &unread, definitions)?)?;
    let names = read_in_order(alloc, unread, around, definitions, calls.callees_first())?;
    let names = settled(alloc, names, around, definitions)?;
    Ok(Resolution { names, calls })
}

/// The names that definitions declare, where others are declared around.
pub fn names_of(
    alloc: Global,
    around: Around<'_>,
    definitions: &[Definition],
) -> Result<TypeDirectory, NoMemory>
    ensures { IfOk result (λ names. names ≡ spec.names_of around.entry.first around.entry.names.now definitions.now) }
{
    let Resolution { names, .. } = resolve(alloc, around, definitions)?;
    Ok(names)
}
