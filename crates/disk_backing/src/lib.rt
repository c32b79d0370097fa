//! What stands behind a pool is a disk.
#![tactic(auto)]

ghost use Rattle.std.specs.Prelude.{◌≡◌};

use edge::Disk;
use eu_base::{Backing, MemFault};

/// The blocks of a disk.
#[derive(Drop)]
pub struct DiskBacking<'a, D: Disk> {
    pub disk: &'a mut D,
}

impl<'a, D: Disk> Backing for DiskBacking<'a, D> {
    ghost use Rattle.std.specs.Prelude.{nat_lt, refl};
    ghost use Rattle.std.proofs.Common.{◌∙◌};
    ghost use Rattle.edge.specs.declared.disk.TheConstants.{BLOCKS};
    ghost use Rattle.disk_backing.specs.Reads.{told_by, OnlyReads, reads_none, reads_then, reads_told};

    ghost holds = { λ _ block. nat_lt block BLOCKS };

    ghost tells = { λ backing. told_by (D.state backing.disk.now) };

    ghost faults = { λ backing. D.faults backing.disk.now };

    ghost follows = { λ old new. (new.disk.ghost_name ≡ old.disk.ghost_name) × OnlyReads ⟦<D as Disk>⟧ old.disk.now new.disk.now };

    ghost later = { λ _ _ f. f.1.faults };

    ghost same_told = { λ old new f. reads_told ⟦<D as Disk>⟧ old.disk.now new.disk.now f.1 };

    ghost same_held = { λ _ _ _ _ held. held };

    ghost reflexive = { λ b. (refl, reads_none ⟦<D as Disk>⟧ b.disk.now) };

    ghost transitive = { λ a b c f h. (h.0 ∙ f.0, reads_then ⟦<D as Disk>⟧ a.disk.now b.disk.now c.disk.now f.1 h.1) };

    fn load(&mut self, block: u32, into: &mut [u8; 512]) -> Result<(), MemFault> {
        match self.disk.read(block, into) {
            Ok(()) => Ok(()),
            Err(_failed) => Err(MemFault::Failed),
        }
    }
}
