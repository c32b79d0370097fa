//! A space that is lent to be read.
ghost use Rattle.std.specs.Prelude.{◌≡◌, [], ◌∷◌};
ghost use Rattle.page_pool.specs.Pool.{Backed};
ghost use Rattle.source_texts.specs.Below.page_table.specs.Frames.{Stands};

use data_space::DataSpace;
use eu_base::{MemFault, Space};
use page_pool::{Backing, Pool};

/// The bytes of a space, over its pool and what stands behind that. Nothing is written: a write is refused.
#[derive(Drop)]
pub(crate) struct ReadSpace<'a, B: Backing> {
    /// The space.
    pub space: &'a DataSpace,
    /// The pool that its pages are in.
    pub pool: &'a mut Pool,
    /// What stands behind the pool.
    pub backing: &'a mut B,
    ghost agree: { Stands pool.now (space.now.root ∷ []) 0 },
    ghost backed: { Backed (B.holds backing.now) pool.now },
}

/// The bytes of a space, over its pool.
pub(crate) fn view<'a, B: Backing>(
    space: &'a DataSpace,
    pool: &'a mut Pool,
    backing: &'a mut B,
) -> ReadSpace<'a, B>
    requires agree { Stands pool.old (space.now.root ∷ []) 0 }
    requires backed { Backed (B.holds backing.old) pool.old }
    ensures pool_name { result.pool.ghost_name ≡ pool.entry.ghost_name }
    ensures backing_name { result.backing.ghost_name ≡ backing.entry.ghost_name }
    ensures space_same { result.space.now ≡ space.now }
    ensures pool_same { result.pool.now ≡ pool.old }
    ensures backing_same { result.backing.now ≡ backing.old }
{
    ReadSpace {
        space,
        pool,
        backing,
    }
}

impl<'a, B: Backing> Space for ReadSpace<'a, B> {
    ghost use Rattle.source_texts.specs.Below.page_table.specs.Frames.{content_at, Knows};
    ghost use Rattle.source_texts.specs.View.{pages_of, ReadFollows, read_known, read_reflexive, read_transitive};

    ghost content = { λ view. content_at (pages_of ⟦<B as Backing>⟧ view) view.space.now.root };

    ghost known = { λ view. Knows (pages_of ⟦<B as Backing>⟧ view) };

    ghost faults = { λ view. B.faults view.backing.now };

    ghost follows = { ReadFollows ⟦<B as Backing>⟧ };

    ghost stays_known = { read_known ⟦<B as Backing>⟧ };

    ghost reflexive = { read_reflexive ⟦<B as Backing>⟧ B.reflexive };

    ghost transitive = { read_transitive ⟦<B as Backing>⟧ B.transitive };

    fn read(&mut self, at: u32, into: &mut [u8]) -> Result<(), MemFault> {
        self.space.read(self.pool, at, into, self.backing)?;
        Ok(())
    }

    fn write(&mut self, _at: u32, _from: &[u8]) -> Result<(), MemFault> {
        Err(MemFault::NoMemory)
    }
}
