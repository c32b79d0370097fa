//! Blocks in memory, of which one load fails.
ghost use Rattle.std.specs.Prelude.{◌<◌};

use eu_base::{Backing, MemFault, NoMemory};
use std::alloc::Global;

/// How many blocks there are.
pub const BLOCKS: u32 = 64;

/// What stands behind a pool: 64 blocks, and zeros in each other one. The load that it was told to fail at fails, and no other.
#[derive(Drop)]
pub struct Blocks {
    bytes: Vec<u8>,
    /// How many loads there are until one fails, that one among them; 0 where none does.
    left: u32,
    faults: u64,
}

// The place of a byte of a block.
fn place(block: u32, k: usize) -> usize
    requires { k < 512 }
{
    block as usize * 512 + k
}

impl Blocks {
    pub fn new(alloc: Global) -> Result<Blocks, NoMemory> {
        match Vec::from_elem(alloc, 0u8, 512 * BLOCKS as usize) {
            Ok(bytes) => Ok(Blocks {
                bytes,
                left: 0,
                faults: 0,
            }),
            Err(_) => Err(NoMemory),
        }
    }

    /// A block has these bytes.
    pub fn put(&mut self, block: u32, from: &[u8; 512]) {
        for k in 0..512 {
            if let Some(byte) = self.bytes.get_mut(place(block, k)) {
                *byte = from[k];
            }
        }
    }

    /// The load fails that is so many from here, from 1 on; with 0 none does.
    pub fn fail_at(&mut self, load: u32) {
        self.left = load;
    }

    /// How many loads failed.
    pub fn faults(&self) -> u64 {
        self.faults
    }
}

impl Backing for Blocks {
    ghost use Rattle.std.specs.Prelude.{true, None, refl};
    ghost use Rattle.std.proofs.Common.{◌≤◌, le_refl, le_trans};

    ghost holds = { λ _ _. true };

    ghost tells = { λ _. None };

    ghost faults = { λ blocks. blocks.faults };

    ghost follows = { λ old new. old.faults ≤ new.faults };

    ghost same_told = { λ _ _ _. refl };

    ghost same_held = { λ _ _ _ _ held. held };

    ghost later = { λ _ _ follows. follows };

    ghost reflexive = { λ blocks. le_refl blocks.faults };

    ghost transitive = { λ _ _ _ first second. le_trans first second };

    fn load(&mut self, block: u32, into: &mut [u8; 512]) -> Result<(), MemFault> {
        if self.left == 1 {
            self.left = 0;
            self.faults = self.faults.saturating_add(1);
            return Err(MemFault::Failed);
        }
        self.left = self.left.saturating_sub(1);
        for k in 0..512 {
            into[k] = *self.bytes.get(place(block, k)).unwrap_or(&0);
        }
        Ok(())
    }
}
