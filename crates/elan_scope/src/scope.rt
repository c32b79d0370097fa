//! Where a phrase stands, and what names denote there.

ghost use Rattle.std.specs.Prelude.{◌≡◌, option_map, slice_get};
ghost use Rattle.std.specs.Option.{is_some};
ghost use Rattle.elan_scope.specs.Scope as spec;
ghost use Rattle.elan_scope.specs.walks.Seen as seen;

use elan_names::callable::{is_own, is_predefined};
use elan_names::denoter::Denoter;
use elan_names::directory::Directory;
use elan_names::entry::Denotes;
use elan_names::heading::Sort;
use elan_names::headings::Headings;
use elan_names::interface::Inserted;
use elan_names::type_directory::TypeDirectory;
use elan_names::type_name::TypeName;
use elan_types::Exit;
use eu_base::List;

/// Where what is declared under a name is held.
#[derive(Clone, Copy)]
pub enum Home {
    /// Among the variables of a program.
    Level,
    /// In a PROC or OP.
    Routine,
    /// Among the variables of a packet, before which there are so many cells of those of other packets.
    Packet(usize),
}

/// What an identifier without actuals is used as.
#[derive(Clone, Copy)]
pub enum Usage {
    Expression,
    /// The counter of a loop, which calls nothing.
    Counter,
}

/// A PROC or OP, by its number among the bodies of the level, with the names that it declares in text order.
#[derive(Drop)]
pub struct Within {
    pub number: usize,
    pub names: Directory,
    /// Its names of types.
    pub types: TypeDirectory,
}

/// Where a phrase stands.
#[derive(Drop)]
pub struct Scope {
    /// The packets of the task, from the last inserted on.
    pub packets: List<Inserted>,
    /// How many bodies they have; those of the level are numbered behind them.
    pub bodies_before: usize,
    /// How many names of types they declare; those of the level are numbered behind them.
    pub types_before: usize,
    /// Where the variables and constants of the level are held.
    pub home: Home,
    /// The bodies of the level.
    pub headings: Headings,
    /// The names that the level declares, in text order.
    pub level: Directory,
    /// The names of types that can be seen in the level: those that it declares, in text order, and those that the packets show.
    pub types: TypeDirectory,
    /// The PROC or OP in which the phrase stands.
    pub routine: Option<Within>,
    /// The number of the refinement in which it stands.
    pub refinement: Option<usize>,
}

/// A declaration that was found, with the number of cells of what is held before it in its home.
#[derive(Clone, Copy)]
pub struct Found<'a> {
    pub home: Home,
    pub number: usize,
    pub at: u32,
    pub denotes: &'a Denotes,
}

// What a packet shows of a name.
fn found_in_packet<'a>(packet: &'a Inserted, name: &[u8]) -> Option<Found<'a>>
    ensures { option_map seen.found_there result ≡ spec.found name.now (spec.packet_layer packet.now) }
{
    let interface = packet.interface.get();
    let found = found_in(Home::Packet(packet.cells_before), &interface.names, name)?;
    if interface.exports(name) {
        Some(found)
    } else {
        None
    }
}

// What the packets show of a name, from the last inserted on.
fn found_in_packets<'a>(packets: &'a [Inserted], name: &[u8]) -> Option<Found<'a>>
    ensures { option_map seen.found_there result ≡ seen.found_in_packets name.now packets.now }
{
    let mut rest = packets;
    while let [packet, others @ ..] = rest {
        let found = from_inside(found_in_packet(packet, name));
        if found.is_some() {
            return found;
        }
        rest = others;
    }
    None
}

fn found_in<'a>(home: Home, names: &'a Directory, name: &[u8]) -> Option<Found<'a>>
    ensures { option_map seen.found_there result ≡ spec.found_in home (spec.first_named names.now name.now) }
{
    match names.first_named(name) {
        None => None,
        Some((number, entry)) => Some(Found {
            home,
            number,
            at: entry.at,
            denotes: &entry.denotes,
        }),
    }
}

// The refinements of a level are for its own units and refinements alone.
fn from_inside(found: Option<Found<'_>>) -> Option<Found<'_>>
    ensures { option_map seen.found_there result ≡ spec.from_inside (option_map seen.found_there found.entry) }
{
    match found {
        None => None,
        Some(found) => {
            if found.denotes.is_refinement() {
                return None;
            }
            Some(found)
        }
    }
}

// Whether a packet shows a PROC or OP of a name with so many parameters.
#[tactic(auto, using(crate::proofs::Layers::packet_known))]
fn is_in_packet(packet: &Inserted, sort: Sort, name: &[u8], count: Option<usize>) -> bool
    ensures { result ≡ is_some (seen.called_in_packet (spec.has_as_many sort name.now count) packet.now) }
{
    let interface = packet.interface.get();
    is_own(&interface.headings, packet.bodies_before, sort, name, count) && interface.exports(name)
}

// Whether a packet does.
fn is_inserted(packets: &[Inserted], sort: Sort, name: &[u8], count: Option<usize>) -> bool
    ensures { result ≡ is_some (seen.called_in_packets (spec.has_as_many sort name.now count) packets.now) }
{
    let mut rest = packets;
    while let [packet, others @ ..] = rest {
        if is_in_packet(packet, sort, name, count) {
            return true;
        }
        rest = others;
    }
    false
}

impl Scope {
    // What is found in the PROC or OP, and else in the level.
    fn find_within(&self, name: &[u8]) -> Option<Found<'_>>
        ensures { option_map seen.found_there result ≡ seen.found_within name.now self.now }
    {
        let level = found_in(self.home, &self.level, name);
        match &self.routine {
            None => level,
            Some(within) => match found_in(Home::Routine, &within.names, name) {
                None => from_inside(level),
                Some(found) => Some(found),
            },
        }
    }

    /// What an identifier without actuals denotes in the first layer that declares it: the body is looked at first, then
    /// the level, and then the packets from the last inserted on. `None` exactly where none declares it.
    #[tactic(auto, using(crate::proofs::Layers::found_as))]
    pub fn find(&self, name: &[u8]) -> Option<Found<'_>>
        ensures { option_map seen.found_there result ≡ spec.find self.now name.now }
    {
        match self.find_within(name) {
            None => found_in_packets(self.packets.as_slice(), name),
            Some(found) => Some(found),
        }
    }

    /// What a name denotes in the scope that declares it; `None` exactly where it is not declared there.
    pub fn find_own(&self, name: &[u8]) -> Option<Found<'_>>
        ensures { option_map seen.found_there result ≡ spec.find_own self.now name.now }
    {
        match &self.routine {
            None => found_in(self.home, &self.level, name),
            Some(within) => found_in(Home::Routine, &within.names, name),
        }
    }

    /// The name of a type in the scope that declares it; `None` exactly where it is not declared there.
    pub fn find_own_type(&self, name: &[u8]) -> Option<&TypeName>
        ensures { option_map (λ t. t.now) result ≡ spec.find_own_type self.now name.now }
    {
        match &self.routine {
            None => self.types.first(name),
            Some(within) => within.types.first(name),
        }
    }

    /// The number that LET gives a name to, if it gives it to one.
    pub fn number_named(&self, name: &[u8]) -> Option<i16>
        ensures { result ≡ spec.number_named (spec.find self.now name.now) }
    {
        match self.find(name) {
            None => None,
            Some(found) => match found.denotes {
                Denotes::Denoter(Denoter::Number(number)) => Some(*number),
                _ => None,
            },
        }
    }

    fn routine_number(&self) -> Option<usize>
        ensures { result ≡ spec.number_of self.now.routine }
    {
        match &self.routine {
            None => None,
            Some(within) => Some(within.number),
        }
    }

    /// The number of the refinement that a name denotes, if it denotes one.
    pub fn refinement_named(&self, name: &[u8]) -> Option<usize>
        ensures { result ≡ spec.refinement_named self.now name.now }
    {
        match self.find(name) {
            None => None,
            Some(found) => {
                if found.denotes.is_refinement() {
                    self.headings.first_refined(self.routine_number(), name)
                } else {
                    None
                }
            }
        }
    }

    // The body with this number, where it has that name.
    fn body_named(&self, number: Option<usize>, name: &[u8]) -> Option<usize>
        ensures { result ≡ spec.body_named self.now.headings number name.now }
    {
        let number = number?;
        match self.headings.as_slice().get(number) {
            None => None,
            Some(heading) => {
                if heading.name.as_slice() == name {
                    Some(number)
                } else {
                    None
                }
            }
        }
    }

    // A PROC or OP is left from itself, or from a refinement of it.
    fn exit(&self) -> Exit
        ensures { result ≡ spec.exit_from self.now.refinement }
    {
        match self.refinement {
            None => Exit::Body,
            Some(_) => Exit::Around,
        }
    }

    /// Whether what is written for what a body delivers has no meaning.
    pub fn delivers_open(&self, number: usize) -> bool
        ensures { result ≡ spec.is_open_heading (slice_get self.now.headings number) }
    {
        match self.headings.as_slice().get(number) {
            None => false,
            Some(heading) => heading.delivers_open(),
        }
    }

    /// The body that a LEAVE of a name leaves: the refinement in which it stands, or the PROC or OP. `None` exactly where
    /// it stands in none of that name.
    pub fn left(&self, name: &[u8]) -> Option<(Exit, usize)>
        ensures { result ≡ spec.left self.now name.now }
    {
        match self.body_named(self.refinement, name) {
            Some(number) => Some((Exit::Body, number)),
            None => match self.body_named(self.routine_number(), name) {
                None => None,
                Some(number) => Some((self.exit(), number)),
            },
        }
    }

    // Whether a name can be called with that number of operands, or with any where none is told.
    #[tactic(auto, using(crate::proofs::Layers::known_by))]
    fn is_called_with(&self, sort: Sort, name: &[u8], count: Option<usize>) -> bool
        ensures { result ≡ is_some (spec.called_by (spec.has_as_many sort name.now count) self.now) }
    {
        is_own(&self.headings, self.bodies_before, sort, name, count)
            || is_inserted(self.packets.as_slice(), sort, name, count)
            || is_predefined(sort, name, count)
    }

    /// Whether a name can be called with that number of operands.
    pub fn is_known(&self, sort: Sort, name: &[u8], count: usize) -> bool
        ensures { result ≡ spec.is_known self.now sort name.now count }
    {
        self.is_called_with(sort, name, Some(count))
    }

    /// Whether a name can be called with some number of operands.
    pub fn can_be_called(&self, sort: Sort, name: &[u8]) -> bool
        ensures { result ≡ spec.can_be_called self.now sort name.now }
    {
        self.is_called_with(sort, name, None)
    }
}
