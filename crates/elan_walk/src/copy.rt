//! Copies of types as they are written.

ghost use Rattle.std.specs.Prelude.{◌≡◌, IfOk};

use containers::{Boxed, Bytes, List, NoMemory};
use elan_tree::{Field, Name, Size, TypePhrase};
use std::alloc::Global;

fn copied_name(alloc: Global, name: &Name) -> Result<Name, NoMemory>
    ensures { IfOk result (λ copy. copy ≡ name.now) }
{
    let text = Bytes::from(alloc, name.text.as_slice())?;
    Ok(Name { at: name.at, text })
}

fn copied_names(alloc: Global, names: &[Name]) -> Result<List<Name>, NoMemory>
    ensures { IfOk result (λ copies. copies ≡ names.now) }
{
    let mut copies = List::new(alloc);
    for name in names {
        copies.push(copied_name(alloc, name)?)?;
    }
    Ok(copies)
}

fn copied_size(alloc: Global, size: &Size) -> Result<Size, NoMemory>
    ensures { IfOk result (λ copy. copy ≡ size.now) }
{
    match size {
        Size::Number(at, number) => Ok(Size::Number(*at, *number)),
        Size::Named(name) => Ok(Size::Named(copied_name(alloc, name)?)),
    }
}

/// The same type in memory of its own.
#[cycle(copies)]
pub fn copied(alloc: Global, of: &TypePhrase) -> Result<TypePhrase, NoMemory>
    ensures { IfOk result (λ copy. copy ≡ of.now) }
{
    match of {
        TypePhrase::Int(at) => Ok(TypePhrase::Int(*at)),
        TypePhrase::Bool(at) => Ok(TypePhrase::Bool(*at)),
        TypePhrase::Text(at) => Ok(TypePhrase::Text(*at)),
        TypePhrase::Task(at) => Ok(TypePhrase::Task(*at)),
        TypePhrase::Dataspace(at) => Ok(TypePhrase::Dataspace(*at)),
        TypePhrase::Named(name) => Ok(TypePhrase::Named(copied_name(alloc, name)?)),
        TypePhrase::Row { at, size, of } => {
            let size = copied_size(alloc, size)?;
            let of = copied(alloc, of.get())?;
            Ok(TypePhrase::Row {
                at: *at,
                size,
                of: Boxed::new(alloc, of)?,
            })
        }
        TypePhrase::Struct { at, fields } => Ok(TypePhrase::Struct {
            at: *at,
            fields: copied_fields(alloc, fields.as_slice())?,
        }),
    }
}

#[cycle(copies)]
fn copied_fields(alloc: Global, fields: &[Field]) -> Result<List<Field>, NoMemory>
    ensures { IfOk result (λ copies. copies ≡ fields.now) }
{
    let mut copies = List::new(alloc);
    for field in fields {
        let of = copied(alloc, &field.of)?;
        let names = copied_names(alloc, field.names.as_slice())?;
        copies.push(Field { of, names })?;
    }
    Ok(copies)
}
