//! Which definitions each names.

ghost use Rattle.std.specs.Prelude.{◌≡◌, ◌++◌, map, flat_map, IfOk, OnOk};
ghost use Rattle.type_names.specs.Faults as spec;
ghost use Rattle.type_names.specs.walks.Further as walk;

use elan_names::type_directory::TypeDirectory;
use elan_tree::{Field, TypePhrase};
use elan_walk::definition::{Defined, Definition};
use eu_base::{List, NoMemory};
use std::alloc::Global;

// Adds the numbers of these names that are written in a type.
#[cycle(naming)]
fn add_named(
    numbers: &mut List<usize>,
    names: &TypeDirectory,
    of: &TypePhrase,
) -> Result<(), NoMemory>
    ensures { OnOk result (numbers.new ≡ numbers.old ++ walk.numbers_at names.now (spec.named_in of.now)) }
{
    match of {
        TypePhrase::Named(name) => match names.place_of(name.text.as_slice()) {
            Some(number) => numbers.push(number),
            None => Ok(()),
        },
        TypePhrase::Row { of, .. } => add_named(numbers, names, of.get()),
        TypePhrase::Struct { fields, .. } => add_named_in_fields(numbers, names, fields.as_slice()),
        _ => Ok(()),
    }
}

#[cycle(naming)]
fn add_named_in_fields(
    numbers: &mut List<usize>,
    names: &TypeDirectory,
    fields: &[Field],
) -> Result<(), NoMemory>
    ensures { OnOk result (numbers.new ≡ numbers.old ++ walk.numbers_at names.now (flat_map (λ xs. xs) (map spec.named_in_field fields.now))) }
{
    for field in fields {
        add_named(numbers, names, &field.of)?;
    }
    Ok(())
}

/// The numbers of those of these names that are written in a type.
pub fn numbers_named(
    alloc: Global,
    names: &TypeDirectory,
    of: &TypePhrase,
) -> Result<List<usize>, NoMemory>
    ensures { IfOk result (λ numbers. numbers ≡ walk.numbers_at names.now (spec.named_in of.now)) }
{
    let mut numbers = List::new(alloc);
    add_named(&mut numbers, names, of)?;
    Ok(numbers)
}

fn named_by(alloc: Global, names: &TypeDirectory, what: &Defined) -> Result<List<usize>, NoMemory>
    ensures { IfOk result (λ numbers. numbers ≡ walk.numbers_at names.now (spec.names_in what.now)) }
{
    match what {
        Defined::Abbreviation(of) | Defined::New(of) => numbers_named(alloc, names, of),
        Defined::Number(_) | Defined::Other => Ok(List::new(alloc)),
    }
}

/// The numbers of those of these names that each definition names.
pub fn calls(
    alloc: Global,
    names: &TypeDirectory,
    definitions: &[Definition],
) -> Result<List<List<usize>>, NoMemory>
    ensures { IfOk result (λ made. made ≡ walk.calls_at names.now definitions.now) }
{
    let mut calls = List::new(alloc);
    for definition in definitions {
        calls.push(named_by(alloc, names, &definition.what)?)?;
    }
    Ok(calls)
}
