//! What later texts see of a packet.

ghost use Rattle.std.specs.Prelude.{◌≡◌, IfOk};
ghost use Rattle.elan_names.specs.Interfaces as spec;

use crate::directory::Directory;
use crate::heading::is_one;
use crate::headings::Headings;
use crate::type_directory::TypeDirectory;
use eu_base::{Bytes, List, NoMemory, Shared};

/// What the texts that are compiled after a packet see of it.
#[derive(Drop)]
pub struct Interface {
    /// The names that it exports. Each stands for all PROCs or OPs of that name.
    pub exports: List<Bytes>,
    /// The names that its level declares, in text order.
    pub names: Directory,
    /// The bodies of its level.
    pub headings: Headings,
    /// The names of types that its level declares, in text order.
    pub types: TypeDirectory,
}

impl Interface {
    /// Whether it exports a name.
    pub fn exports(&self, name: &[u8]) -> bool
        ensures { result ≡ spec.exports self.now name.now }
    {
        let mut rest = self.exports.as_slice();
        while let [export, others @ ..] = rest {
            if is_one(export.as_slice(), name) {
                return true;
            }
            rest = others;
        }
        false
    }
}

/// A packet of a task, as later texts see it, and where its bodies and variables stand among those of all packets of the task. The
/// packets before it are always those with which it was compiled, so this never changes.
#[derive(Drop)]
pub struct Inserted {
    pub interface: Shared<Interface>,
    /// How many bodies stand before those of the packet.
    pub bodies_before: usize,
    /// How many cells of variables and constants stand before those of the packet.
    pub cells_before: usize,
}

impl Inserted {
    /// The same; what it shows is shared.
    pub fn try_clone(&self) -> Result<Inserted, NoMemory>
        ensures { IfOk result (λ copy. copy ≡ self.now) }
    {
        Ok(Inserted {
            interface: self.interface.share()?,
            bodies_before: self.bodies_before,
            cells_before: self.cells_before,
        })
    }
}
