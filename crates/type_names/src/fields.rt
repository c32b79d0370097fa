//! The fields of a structure as they are written.

ghost use Rattle.std.specs.Prelude.{◌≡◌, ◌++◌, IfOk, OnOk};
ghost use Rattle.std.specs.List.{list_any};
ghost use Rattle.std.specs.Str.{bytes_eq};
ghost use Rattle.elan_types.specs.Types.{is_open};
ghost use Rattle.type_names.specs.Faults as faults;
ghost use Rattle.type_names.specs.Types as types;
ghost use Rattle.type_names.specs.walks.Seen.{earlier};
ghost use Rattle.type_names.specs.walks.Judged.{texts, named_alike};

use crate::visible::Fault;
use elan_names::heading::is_one;
use elan_tree::Name;
use elan_types::{ElanType, FieldType, Why};
use eu_base::{Bytes, List, NoMemory};
use std::alloc::Global;

/// The fault that was found first.
pub fn earlier(first: Option<Fault>, other: Option<Fault>) -> Option<Fault>
    ensures { result ≡ earlier first other }
{
    match first {
        Some(fault) => Some(fault),
        None => other,
    }
}

fn is_among(fields: &[FieldType], name: &[u8]) -> bool
    ensures { result ≡ list_any (λ x. bytes_eq x name.now) (texts fields.now) }
{
    for field in fields {
        if is_one(field.name.as_slice(), name) {
            return true;
        }
    }
    false
}

// The fault of a name that stands behind these fields.
fn name_fault(fields: &[FieldType], name: &Name) -> Option<Fault>
    ensures { result ≡ faults.first_fault (faults.doubled_name (texts fields.now) name.now) }
{
    if is_among(fields, name.text.as_slice()) {
        Some((name.at, Why::Doubled))
    } else {
        None
    }
}

/// Whether the type of one of these has no meaning.
pub fn any_open(fields: &[FieldType]) -> bool
    ensures { result ≡ list_any (λ f. is_open f.of) fields.now }
{
    for field in fields {
        if field.of.is_open() {
            return true;
        }
    }
    false
}

/// Whether two of these have one name.
pub fn any_doubled(fields: &[FieldType]) -> bool
    ensures { result ≡ types.any_doubled (texts fields.now) }
{
    let mut rest = fields;
    while let [first, others @ ..] = rest {
        if is_among(others, first.name.as_slice()) {
            return true;
        }
        rest = others;
    }
    false
}

/// Adds fields of one type, and finds the first of them whose name was there before.
pub fn add_fields(
    alloc: Global,
    list: &mut List<FieldType>,
    names: &[Name],
    of: &ElanType,
) -> Result<Option<Fault>, NoMemory>
    ensures list { OnOk result (list.new ≡ list.old ++ named_alike of.now names.now) }
    ensures first { IfOk result (λ first. first ≡ faults.first_fault (faults.doubled_names (texts list.old) names.now)) }
{
    let mut first = None;
    for name in names {
        first = earlier(first, name_fault(list.as_slice(), name));
        list.push(FieldType {
            name: Bytes::from(alloc, name.text.as_slice())?,
            of: of.try_clone()?,
        })?;
    }
    Ok(first)
}
