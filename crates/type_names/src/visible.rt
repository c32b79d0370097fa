//! What can be seen where a type is written.

ghost use Rattle.std.specs.Prelude.{◌≡◌, option_map};
ghost use Rattle.std.specs.List.{list_any};
ghost use Rattle.std.specs.Str.{bytes_eq};
ghost use Rattle.type_names.specs.Faults as faults;
ghost use Rattle.type_names.specs.Types as types;
ghost use Rattle.type_names.specs.walks.Seen.{names_seen};

use elan_names::callable::is_predefined;
use elan_names::heading::{Sort, is_one};
use elan_names::type_directory::TypeDirectory;
use elan_names::type_name::Named;
use elan_tree::{Refinement, Size};
use elan_types::Why;

/// A place, and the rule that what stands there breaks.
pub type Fault = (u32, Why);

/// The names that can be seen: those of a scope, then those around it, and the refinements of the level for what stands in the level.
#[derive(Clone, Copy)]
pub struct Visible<'a> {
    pub own: &'a TypeDirectory,
    pub around: &'a TypeDirectory,
    pub refinements: &'a [Refinement],
}

// The number of items of a row.
fn size_in(number: i16) -> Option<u16>
    ensures { result ≡ types.size_in number }
{
    if number >= 1 && number <= 16384 {
        Some(number as u16)
    } else {
        None
    }
}

fn range_fault(at: u32, number: i16) -> Option<Fault>
    ensures { result ≡ faults.first_fault (faults.size_range at number) }
{
    match size_in(number) {
        Some(_) => None,
        None => Some((at, Why::TooLarge)),
    }
}

fn is_refinement(refinements: &[Refinement], name: &[u8]) -> bool
    ensures { result ≡ list_any (λ r. bytes_eq r.name.text name.now) refinements.now }
{
    for refinement in refinements {
        if is_one(refinement.name.text.as_slice(), name) {
            return true;
        }
    }
    false
}

impl<'a> Visible<'a> {
    /// What a name denotes.
    pub fn look(self, name: &[u8]) -> Option<&'a Named>
        ensures { option_map (λ n. n.now) result ≡ types.look (names_seen self.entry) name.now }
    {
        match self.own.first(name) {
            Some(found) => Some(&found.of),
            None => match self.around.first(name) {
                Some(found) => Some(&found.of),
                None => None,
            },
        }
    }

    // Whether a name that denotes nothing where types are written is one all the same.
    fn is_known(self, name: &[u8]) -> bool
        ensures { result ≡ faults.is_known (names_seen self.entry) self.entry.refinements.now name.now }
    {
        is_refinement(self.refinements, name) || is_predefined(Sort::Procedure, name, Some(0))
    }

    /// The number of items of a row.
    pub fn size(self, size: &Size) -> Option<u16>
        ensures { result ≡ types.size_of (types.look (names_seen self.entry)) size.now }
    {
        match size {
            Size::Number(_, number) => size_in(*number),
            Size::Named(name) => match self.look(name.text.as_slice()) {
                Some(Named::Size(number)) => size_in(*number),
                _ => None,
            },
        }
    }

    /// The fault of a size.
    pub fn size_fault(self, size: &Size) -> Option<Fault>
        ensures { result ≡ faults.first_fault (faults.size_faults (names_seen self.entry) self.entry.refinements.now size.now) }
    {
        match size {
            Size::Number(at, number) => range_fault(*at, *number),
            Size::Named(name) => match self.look(name.text.as_slice()) {
                Some(Named::Size(number)) => range_fault(name.at, *number),
                Some(_) => Some((name.at, Why::WrongType)),
                None => {
                    if self.is_known(name.text.as_slice()) {
                        Some((name.at, Why::WrongType))
                    } else {
                        Some((name.at, Why::Unknown))
                    }
                }
            },
        }
    }
}
