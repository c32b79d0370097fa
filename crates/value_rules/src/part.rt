//! Items of rows and fields of structures.

ghost use Rattle.std.specs.Prelude.{◌≡◌, IfOk};
ghost use Rattle.elan_types.specs.Types as types;
ghost use Rattle.elan_types.specs.declared.core_phrase.PlacePhrase.TheVariants as places;
ghost use Rattle.elan_types.specs.declared.core_phrase.ValuePhrase.TheVariants as values;
ghost use Rattle.elan_meant.specs.declared.meant.Meant.TheVariants as means;
ghost use Rattle.value_rules.specs.Values as spec;
ghost use Rattle.elan_meant.specs.Verdict.{gives, Tells};

use elan_meant::meant::Meant;
use elan_meant::operands::delivers_kind;
use elan_meant::part::{delivering, value_of};
use elan_meant::row::Judged;
use elan_scope::trouble::Trouble;
use elan_types::{ElanType, Items, Part, PlacePhrase, ValuePhrase, Why};
use eu_base::{Boxed, Kind, NoMemory, Shape};
use std::alloc::Global;

// ---- items

// So many items of this type. No type with meaning has more cells than can be counted.
fn items_of(count: u16, of: &ElanType) -> Result<Items, NoMemory>
    ensures { IfOk result (λ items. items ≡ spec.items_of (count, of.now)) }
{
    match of.cells() {
        None => Err(NoMemory),
        Some(cells) => Ok(Items { count, cells }),
    }
}

fn items_and_shape(alloc: Global, count: u16, of: &ElanType) -> Result<(Items, Shape), NoMemory>
    ensures { IfOk result (λ made. made ≡ (spec.items_of (count, of.now), types.shape_in of.now)) }
{
    let items = items_of(count, of)?;
    let shape = of.shape(alloc)?;
    Ok((items, shape))
}

// The item of a row that is a variable.
fn item_at(
    alloc: Global,
    at: u32,
    count: u16,
    of: ElanType,
    row: PlacePhrase,
    index: Boxed<ValuePhrase>,
) -> Judged
    ensures { Tells result (gives (means.Variable at of (places.Item row index (spec.items_of (count, of))))) }
{
    match items_of(count, &of) {
        Err(_refusal) => {
            of.let_go();
            row.let_go();
            index.into_inner().let_go();
            Err(Trouble::NoMemory)
        }
        Ok(items) => match Boxed::new(alloc, row) {
            Err(_refusal) => {
                of.let_go();
                index.into_inner().let_go();
                Err(Trouble::NoMemory)
            }
            Ok(row) => Ok(Meant::Variable {
                at,
                of,
                place: PlacePhrase::Item(row, index, items),
            }),
        },
    }
}

fn item_place(
    alloc: Global,
    at: u32,
    of: ElanType,
    row: PlacePhrase,
    index: Boxed<ValuePhrase>,
) -> Judged
    ensures { Tells result (spec.item_as at (types.items of) (λ r. means.Variable at r.1 (places.Item row index (spec.items_of r)))) }
{
    let items = of.items();
    of.let_go();
    match items {
        Err(_refusal) => {
            row.let_go();
            index.into_inner().let_go();
            Err(Trouble::NoMemory)
        }
        Ok(None) => {
            row.let_go();
            index.into_inner().let_go();
            Err(Trouble::Breaks(at, Why::WrongType))
        }
        Ok(Some((count, of))) => item_at(alloc, at, count, of, row, index),
    }
}

// The item of a row that is a value.
fn picked(
    alloc: Global,
    at: u32,
    count: u16,
    of: ElanType,
    row: Boxed<ValuePhrase>,
    index: Boxed<ValuePhrase>,
) -> Judged
    ensures { Tells result (gives (means.Value at of (values.Pick row index (spec.items_of (count, of)) (types.shape_in of)))) }
{
    match items_and_shape(alloc, count, &of) {
        Err(_refusal) => {
            of.let_go();
            row.into_inner().let_go();
            index.into_inner().let_go();
            Err(Trouble::NoMemory)
        }
        Ok((items, shape)) => delivering(
            alloc,
            at,
            of,
            ValuePhrase::Pick(row, index, items, shape),
        ),
    }
}

fn item_value(
    alloc: Global,
    at: u32,
    of: ElanType,
    row: Boxed<ValuePhrase>,
    index: Boxed<ValuePhrase>,
) -> Judged
    ensures { Tells result (spec.item_as at (types.items of) (λ r. means.Value at r.1 (values.Pick row index (spec.items_of r) (types.shape_in r.1)))) }
{
    let items = of.items();
    of.let_go();
    match items {
        Err(_refusal) => {
            row.into_inner().let_go();
            index.into_inner().let_go();
            Err(Trouble::NoMemory)
        }
        Ok(None) => {
            row.into_inner().let_go();
            index.into_inner().let_go();
            Err(Trouble::Breaks(at, Why::WrongType))
        }
        Ok(Some((count, of))) => picked(alloc, at, count, of, row, index),
    }
}

fn item(alloc: Global, at: u32, row: Meant, index: Boxed<ValuePhrase>) -> Judged
    ensures { Tells result (spec.item at row index) }
{
    match row {
        Meant::Variable { at: _at, of, place } => item_place(alloc, at, of, place, index),
        Meant::Value { at: _at, of, value } => item_value(alloc, at, of, value, index),
        other => {
            other.let_go();
            index.into_inner().let_go();
            Err(Trouble::Breaks(at, Why::WrongType))
        }
    }
}

/// A row and an index, which is a number.
pub fn indexed(alloc: Global, at: u32, row: Meant, index: Meant) -> Judged
    ensures { Tells result (spec.indexed at row index) }
{
    if !delivers_kind(Kind::Int, &index) {
        row.let_go();
        index.let_go();
        return Err(Trouble::Breaks(at, Why::WrongType));
    }
    match value_of(alloc, index) {
        Err(_refusal) => {
            row.let_go();
            Err(Trouble::NoMemory)
        }
        Ok(index) => item(alloc, at, row, index),
    }
}

// ---- fields

// The part of a structure that a field is, with the shape of the field.
fn part_and_shape(
    alloc: Global,
    of: &ElanType,
    before: u16,
    field: &ElanType,
) -> Result<(Part, Shape), NoMemory>
    ensures { IfOk result (λ made. made ≡ (spec.part_of of.now (before, field.now), types.shape_in field.now)) }
{
    match (of.cells(), field.cells()) {
        (Some(whole), Some(cells)) => {
            let shape = field.shape(alloc)?;
            let part = Part {
                of: whole,
                before,
                cells,
            };
            Ok((part, shape))
        }
        _ => Err(NoMemory),
    }
}

// The field of a structure that is a variable.
fn field_at(alloc: Global, at: u32, structure: PlacePhrase, before: u16, of: ElanType) -> Judged
    ensures { Tells result (gives (means.Variable at of (places.Field structure before))) }
{
    match Boxed::new(alloc, structure) {
        Err(_refusal) => {
            of.let_go();
            Err(Trouble::NoMemory)
        }
        Ok(structure) => Ok(Meant::Variable {
            at,
            of,
            place: PlacePhrase::Field(structure, before),
        }),
    }
}

fn field_place(alloc: Global, at: u32, name: &[u8], of: ElanType, structure: PlacePhrase) -> Judged
    ensures { Tells result (spec.field_as at (types.field of name.now) (λ f. means.Variable at f.1 (places.Field structure f.0))) }
{
    let found = of.field(name);
    of.let_go();
    match found {
        Err(_refusal) => {
            structure.let_go();
            Err(Trouble::NoMemory)
        }
        Ok(None) => {
            structure.let_go();
            Err(Trouble::Breaks(at, Why::Unknown))
        }
        Ok(Some((before, field))) => field_at(alloc, at, structure, before, field),
    }
}

// The field of a structure that is a value.
fn taken(
    alloc: Global,
    at: u32,
    of: &ElanType,
    structure: Boxed<ValuePhrase>,
    before: u16,
    field: ElanType,
) -> Judged
    ensures { Tells result (gives (means.Value at field (values.Take structure (spec.part_of of.now (before, field)) (types.shape_in field)))) }
{
    match part_and_shape(alloc, of, before, &field) {
        Err(_refusal) => {
            field.let_go();
            structure.into_inner().let_go();
            Err(Trouble::NoMemory)
        }
        Ok((part, shape)) => {
            delivering(alloc, at, field, ValuePhrase::Take(structure, part, shape))
        }
    }
}

fn field_value(
    alloc: Global,
    at: u32,
    name: &[u8],
    of: &ElanType,
    structure: Boxed<ValuePhrase>,
) -> Judged
    ensures { Tells result (spec.field_as at (types.field of.now name.now)
        (λ f. means.Value at f.1 (values.Take structure (spec.part_of of.now f) (types.shape_in f.1)))) }
{
    match of.field(name) {
        Err(_refusal) => {
            structure.into_inner().let_go();
            Err(Trouble::NoMemory)
        }
        Ok(None) => {
            structure.into_inner().let_go();
            Err(Trouble::Breaks(at, Why::Unknown))
        }
        Ok(Some((before, field))) => taken(alloc, at, of, structure, before, field),
    }
}

/// A field of a structure. One that is not there is unknown.
pub fn field_part(alloc: Global, at: u32, name: &[u8], structure: Meant) -> Judged
    ensures { Tells result (spec.field_part at name.now structure) }
{
    match structure {
        Meant::Variable { at: _at, of, place } => field_place(alloc, at, name, of, place),
        Meant::Value { at: _at, of, value } => {
            let taken = field_value(alloc, at, name, &of, value);
            of.let_go();
            taken
        }
        other => {
            other.let_go();
            Err(Trouble::Breaks(at, Why::WrongType))
        }
    }
}
