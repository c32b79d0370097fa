//! What a type means as it is written, and its first fault.

ghost use Rattle.std.specs.Prelude.{◌≡◌, true, map, IfOk};
ghost use Rattle.type_names.specs.Faults as faults;
ghost use Rattle.type_names.specs.Types as types;
ghost use Rattle.type_names.specs.walks.Seen.{earlier, names_seen};
ghost use Rattle.type_names.specs.walks.Judged.{told, told_fields};

use crate::fields::{add_fields, any_doubled, any_open, earlier};
use crate::visible::{Fault, Visible};
use elan_names::type_name::Named;
use elan_tree::{Field, Name, TypePhrase};
use elan_types::{ElanType, FieldType, Why};
use eu_base::{List, NoMemory, Shared};
use std::alloc::Global;

/// A type as it is written: what it means, and its first fault in text order.
#[derive(Drop)]
pub struct Judged {
    pub of: ElanType,
    pub first: Option<Fault>,
}

/// Fields as they are written: what they are, and the first fault in them.
#[derive(Drop)]
pub struct Fields {
    pub list: List<FieldType>,
    pub first: Option<Fault>,
}

impl Judged {
    fn open(first: Option<Fault>) -> Judged
        ensures { result ≡ record { of = ElanType.Open; first = first } }
    {
        Judged {
            of: ElanType::Open,
            first,
        }
    }

    fn closed(of: ElanType) -> Judged
        ensures { result ≡ record { of = of; first = None } }
    {
        Judged { of, first: None }
    }

    // A row or structure whose parts have a meaning. It has none where it is too large.
    fn whole(at: u32, of: ElanType, behind: Option<Fault>) -> Judged
        ensures of { result.of ≡ types.or_open of }
        ensures first { result.first ≡ earlier (faults.first_fault (faults.large_fault at true of)) behind }
    {
        if of.is_too_large() {
            of.let_go();
            return Judged::open(Some((at, Why::TooLarge)));
        }
        Judged { of, first: behind }
    }
}

fn name_judged(visible: Visible<'_>, name: &Name) -> Result<Judged, NoMemory>
    ensures { IfOk result (λ judged. judged ≡ told (faults.name_judged (names_seen visible.entry) visible.entry.refinements.now name.now)) }
{
    match visible.look(name.text.as_slice()) {
        Some(Named::Of(of)) => Ok(Judged::closed(of.try_clone()?)),
        _ => Ok(Judged::open(Some((name.at, Why::Unknown)))),
    }
}

fn row_judged(
    alloc: Global,
    at: u32,
    size: Option<u16>,
    behind: Option<Fault>,
    of: ElanType,
) -> Result<Judged, NoMemory>
    ensures { IfOk result (λ row. (row.of ≡ types.row_of size of) × (row.first ≡ earlier (faults.first_fault (faults.row_fault at size of)) behind)) }
{
    match size {
        None => {
            of.let_go();
            Ok(Judged::open(behind))
        }
        Some(size) => {
            if of.is_open() {
                of.let_go();
                return Ok(Judged::open(behind));
            }
            let of = Shared::new(alloc, of)?;
            Ok(Judged::whole(at, ElanType::Row(size, of), behind))
        }
    }
}

fn structure_judged(alloc: Global, at: u32, fields: Fields) -> Result<Judged, NoMemory>
    ensures { IfOk result (λ structure. (structure.of ≡ types.structure_of fields.list)
        × (structure.first ≡ earlier (faults.first_fault (faults.structure_fault at fields.list)) fields.first)) }
{
    let Fields { list, first } = fields;
    if list.is_empty() {
        return Ok(Judged::open(Some((at, Why::Unknown))));
    }
    if any_open(list.as_slice()) || any_doubled(list.as_slice()) {
        return Ok(Judged::open(first));
    }
    let fields = Shared::new(alloc, list)?;
    Ok(Judged::whole(at, ElanType::Struct(fields), first))
}

// DATASPACE stands in a wrong place inside another type.
fn space_judged(at: u32, inside: bool) -> Judged
    ensures { result ≡ told (faults.space_judged at inside) }
{
    if inside {
        Judged::open(Some((at, Why::WrongPlace)))
    } else {
        Judged::closed(ElanType::Dataspace)
    }
}

/// What a type means, inside another one or not, and its first fault.
#[cycle(judging)]
pub fn judge(
    alloc: Global,
    visible: Visible<'_>,
    of: &TypePhrase,
    inside: bool,
) -> Result<Judged, NoMemory>
    ensures { IfOk result (λ judged. judged ≡ told (faults.judged (names_seen visible.entry) visible.entry.refinements.now of.now inside)) }
{
    match of {
        TypePhrase::Int(_) => Ok(Judged::closed(ElanType::Int)),
        TypePhrase::Bool(_) => Ok(Judged::closed(ElanType::Bool)),
        TypePhrase::Text(_) => Ok(Judged::closed(ElanType::Text)),
        TypePhrase::Task(_) => Ok(Judged::closed(ElanType::Task)),
        TypePhrase::Named(name) => name_judged(visible, name),
        TypePhrase::Row { at, size, of } => {
            let items = judge(alloc, visible, of.get(), true)?;
            let behind = earlier(visible.size_fault(size), items.first);
            row_judged(alloc, *at, visible.size(size), behind, items.of)
        }
        TypePhrase::Struct { at, fields } => {
            let fields = fields_judged(alloc, visible, fields.as_slice())?;
            structure_judged(alloc, *at, fields)
        }
        TypePhrase::Dataspace(at) => Ok(space_judged(*at, inside)),
    }
}

#[cycle(judging)]
fn fields_judged(alloc: Global, visible: Visible<'_>, fields: &[Field]) -> Result<Fields, NoMemory>
    ensures { IfOk result (λ judged. judged ≡ told_fields (map (faults.judged_fields (names_seen visible.entry) visible.entry.refinements.now) fields.now)) }
{
    let mut list = List::new(alloc);
    let mut first = None;
    for field in fields {
        let judged = judge(alloc, visible, &field.of, true)?;
        first = earlier(first, judged.first);
        let doubled = add_fields(alloc, &mut list, field.names.as_slice(), &judged.of)?;
        first = earlier(first, doubled);
    }
    Ok(Fields { list, first })
}
