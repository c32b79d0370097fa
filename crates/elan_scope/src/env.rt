//! What a text may use beside its own names.

ghost use Rattle.std.specs.Prelude.{◌≡◌, ◌++◌, [], IfOk, OnOk};
ghost use Rattle.elan_scope.specs.Shown as spec;

use crate::below::of_cell_kinds::Packet;
use elan_names::interface::{Inserted, Interface};
use elan_names::type_directory::TypeDirectory;
use elan_names::type_name::TypeName;
use elan_types::Body;
use eu_base::{List, NoMemory, Shared};
use std::alloc::Global;

/// The packets of a task, as a text sees them that is compiled after them.
#[derive(Drop)]
pub struct Env {
    /// What each shows, from the last inserted on.
    pub inserted: List<Inserted>,
    /// The number of each, and its variables and constants, from the first inserted on.
    pub packets: List<Packet>,
    /// Their bodies, from those of the first inserted on.
    pub bodies: List<Shared<Body>>,
    /// How many names of types they declare.
    pub types: usize,
}

// Adds the names of types that a packet shows.
fn add_shown(alloc: Global, out: &mut List<TypeName>, interface: &Interface) -> Result<(), NoMemory>
    ensures { OnOk result (out.new ≡ out.old ++ spec.shows interface.now) }
{
    for named in interface.types.as_slice() {
        if interface.exports(named.name.as_slice()) {
            out.push(named.try_clone(alloc)?)?;
        }
    }
    Ok(())
}

impl Env {
    /// No packets.
    pub fn new(alloc: Global) -> Env
        ensures inserted { result.inserted ≡ [] }
        ensures packets { result.packets ≡ [] }
        ensures bodies { result.bodies ≡ [] }
        ensures types { result.types ≡ 0 }
    {
        Env {
            inserted: List::new(alloc),
            packets: List::new(alloc),
            bodies: List::new(alloc),
            types: 0,
        }
    }

    /// What each shows, from the last inserted on, for a scope to keep.
    pub fn inserted(&self, alloc: Global) -> Result<List<Inserted>, NoMemory>
        ensures { IfOk result (λ inserted. inserted ≡ self.now.inserted) }
    {
        let mut inserted = List::new(alloc);
        for packet in self.inserted.as_slice() {
            inserted.push(packet.try_clone()?)?;
        }
        Ok(inserted)
    }

    /// The names of types that the packets show, from those of the last inserted on.
    pub fn shown_types(&self, alloc: Global) -> Result<TypeDirectory, NoMemory>
        ensures { IfOk result (λ shown. shown ≡ spec.shown_types self.now) }
    {
        let mut shown = List::new(alloc);
        for packet in self.inserted.as_slice() {
            add_shown(alloc, &mut shown, packet.interface.get())?;
        }
        TypeDirectory::of(alloc, shown)
    }
}
