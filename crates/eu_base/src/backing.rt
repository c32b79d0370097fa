//! What stands behind a pool: blocks, from which pages come that are not in memory.
ghost use Rattle.std.specs.Prelude.{◌≡◌, ◌≢◌, ◌≤◌, ℕ, Bool, true, List, Option, Err, OnOk};
ghost use Rattle.std.specs.Option.{ForSome};
ghost use Rattle.eu_base.specs.declared.cells.MemFault.TheVariants as fault;
ghost use Rattle.eu_base.specs.Cells.{HasFaultCause};

use crate::cells::MemFault;

/// Blocks of 512 bytes.
pub trait Backing {
    /// Whether it holds the block of that number.
    ghost holds: { Self → ℕ → Bool };

    /// The bytes of its blocks, where it tells them.
    ghost tells: { Self → Option (ℕ → List ℕ) };

    /// How often it failed.
    ghost faults: { Self → ℕ };

    /// What a later value of the same backing keeps of an earlier one.
    ghost follows: { Self → Self → Type 0 };

    /// The bytes of a block. It takes no memory.
    fn load(&mut self, block: u32, into: &mut [u8; 512]) -> Result<(), MemFault>
        requires held { holds self.old block ≡ true }
        ensures bytes { OnOk result (ForSome (tells self.old) (λ bytes. into.new ≡ bytes block)) }
        ensures memory { result ≢ Err fault.NoMemory }
        ensures cause { HasFaultCause (faults self.old) (faults self.new) result }
        ensures follows { follows self.old self.new };

    ghost same_told: { (old new : Self) → follows old new → tells new ≡ tells old };

    ghost same_held: { (old new : Self) → follows old new → (block : ℕ) → holds old block ≡ true → holds new block ≡ true };

    /// The count of faults never falls.
    ghost later: { (old new : Self) → follows old new → faults old ≤ faults new };

    ghost reflexive: { (backing : Self) → follows backing backing };

    ghost transitive: { (first second third : Self) → follows first second → follows second third → follows first third };
}

/// Nothing stands behind the pages: each block reads as zeros, and no call fails. It is for pools of which no page has a home.
#[derive(Drop)]
pub struct Nowhere;

impl Backing for Nowhere {
    ghost use Rattle.std.specs.Prelude.{Some, replicate, refl};
    ghost use Rattle.std.proofs.Common.{le_refl};

    ghost holds = { λ _ _. true };

    ghost tells = { λ _. Some (λ _. replicate 512 0) };

    ghost faults = { λ _. 0 };

    ghost follows = { λ _ _. Unit {0} };

    ghost same_told = { λ _ _ _. refl };

    ghost same_held = { λ _ _ _ _ held. held };

    ghost later = { λ _ _ _. le_refl 0 };

    ghost reflexive = { λ _. record {} };

    ghost transitive = { λ _ _ _ _ _. record {} };

    fn load(&mut self, _block: u32, into: &mut [u8; 512]) -> Result<(), MemFault> {
        *into = [0; 512];
        Ok(())
    }
}
