//! A memory that is lent with its pool.
ghost use Rattle.std.specs.Prelude.{◌≡◌};
ghost use Rattle.page_pool.specs.Pool.{Backed};
ghost use Rattle.space_memory.specs.Memories.{StandsWhole, roots};

use crate::space_memory::SpaceMemory;
use eu_base::{Addr, Area, Bytes, MemFault, Memory, Set, Shape};
use page_pool::{Backing, Pool};
use task_numbers::SpaceNo;

/// The cells of a memory, over its pool: each area's in its space. There is room for all data spaces that the memory can have.
#[derive(Drop)]
pub struct Lent<'a, B: Backing> {
    pub memory: &'a mut SpaceMemory,
    pub pool: &'a mut Pool,
    pub backing: &'a mut B,
    ghost agree: { StandsWhole pool.now (roots memory.now) },
    ghost backed: { Backed (B.holds backing.now) pool.now },
}

impl SpaceMemory {
    /// Its cells, over its pool.
    pub fn over<'a, B: Backing>(&'a mut self, pool: &'a mut Pool, backing: &'a mut B) -> Lent<'a, B>
        requires agree { StandsWhole pool.old (roots self.old) }
        requires backed { Backed (B.holds backing.old) pool.old }
        ensures memory_name { result.memory.ghost_name ≡ self.entry.ghost_name }
        ensures pool_name { result.pool.ghost_name ≡ pool.entry.ghost_name }
        ensures backing_name { result.backing.ghost_name ≡ backing.entry.ghost_name }
        ensures memory_same { result.memory.now ≡ self.old }
        ensures pool_same { result.pool.now ≡ pool.old }
        ensures backing_same { result.backing.now ≡ backing.old }
    {
        Lent {
            memory: self,
            pool,
            backing,
        }
    }
}

impl<'a, B: Backing> Memory for Lent<'a, B> {
    ghost use Rattle.space_memory.specs.Memories.{HoldsAll, memory_heads};
    ghost use Rattle.space_memory.specs.Lent.{pages_of, LentFollows, lent_reflexive, lent_transitive};
    ghost use Rattle.space_memory.specs.Laws.{all_fewer, all_empty, all_room};

    ghost holds = { λ lent cells. HoldsAll (pages_of ⟦<B as Backing>⟧ lent) lent.memory.now cells };

    ghost heads = { λ lent. memory_heads lent.memory.now };

    ghost faults = { λ lent. B.faults lent.backing.now };

    ghost follows = { LentFollows ⟦<B as Backing>⟧ };

    ghost forgets = { λ lent cells fewer. all_fewer (pages_of ⟦<B as Backing>⟧ lent) lent.memory.now cells fewer };

    ghost empty = { λ lent cells at. all_empty (pages_of ⟦<B as Backing>⟧ lent) lent.memory.now cells at };

    ghost room = { λ lent area cells. all_room (pages_of ⟦<B as Backing>⟧ lent) lent.memory.now area cells };

    ghost reflexive = { lent_reflexive ⟦<B as Backing>⟧ B.reflexive };

    ghost transitive = { lent_transitive ⟦<B as Backing>⟧ B.transitive };

    #[inline(always)]
    fn cell(&mut self, at: Addr) -> Result<u64, MemFault> {
        match at.area {
            Area::Run => self.memory.run_cell(self.pool, at.cell, self.backing),
            Area::Packets => self.memory.packet_cell(self.pool, at.cell, self.backing),
            Area::Space(s) => self.memory.space_cell(self.pool, s, at.cell, self.backing),
        }
    }

    #[inline(always)]
    fn set_cell(&mut self, at: Addr, number: u64) -> Result<(), MemFault> {
        match at.area {
            Area::Run => self
                .memory
                .set_run_cell(self.pool, at.cell, number, self.backing),
            Area::Packets => self
                .memory
                .set_packet_cell(self.pool, at.cell, number, self.backing),
            Area::Space(s) => self
                .memory
                .set_space_cell(self.pool, s, at.cell, number, self.backing),
        }
    }

    fn text(&mut self, at: Addr) -> Result<Bytes, MemFault> {
        match at.area {
            Area::Run => self.memory.run_text(self.pool, at.cell, self.backing),
            Area::Packets => self.memory.packet_text(self.pool, at.cell, self.backing),
            Area::Space(s) => self.memory.space_text(self.pool, s, at.cell, self.backing),
        }
    }

    fn set_text(&mut self, at: Addr, t: &[u8]) -> Result<Set, MemFault> {
        match at.area {
            Area::Run => self
                .memory
                .set_run_text(self.pool, at.cell, t, self.backing),
            Area::Packets => self
                .memory
                .set_packet_text(self.pool, at.cell, t, self.backing),
            Area::Space(s) => self
                .memory
                .set_space_text(self.pool, s, at.cell, t, self.backing),
        }
    }

    fn rooms(&mut self, area: Area) -> Result<u32, MemFault> {
        match area {
            Area::Run => Ok(u32::from(self.memory.run_rooms(self.pool, self.backing)?)),
            Area::Packets => Ok(u32::from(self.memory.packet_rooms(self.pool, self.backing)?)),
            Area::Space(s) => Ok(u32::from(self.memory.space_rooms(self.pool, s, self.backing)?)),
        }
    }

    fn live(&self, s: SpaceNo) -> bool {
        self.memory.live(s)
    }

    fn count(&self) -> u32 {
        self.memory.count()
    }

    fn last_number(&self) -> u32 {
        self.memory.last_number()
    }

    fn make(&mut self, from: Option<SpaceNo>) -> Result<SpaceNo, MemFault> {
        let number = SpaceNo(self.memory.last_number() + 1);
        self.memory.make(self.pool, from)?;
        Ok(number)
    }

    fn forget(&mut self, s: SpaceNo) {
        self.memory.forget(self.pool, s);
    }

    fn kind(&self, s: SpaceNo) -> i16 {
        self.memory.kind(s)
    }

    fn set_kind(&mut self, s: SpaceNo, n: i16) {
        self.memory.set_kind(s, n);
    }

    fn has_shape(&self, s: SpaceNo) -> Option<&Shape> {
        self.memory.has_shape(s)
    }

    fn fill(&mut self, s: SpaceNo, shape: &Shape) -> Result<(), MemFault> {
        self.memory.fill(self.pool, s, shape, self.backing)
    }

    fn name(&mut self, name: &[u8], s: SpaceNo) -> Result<(), MemFault> {
        self.memory.name(name, s)?;
        Ok(())
    }

    fn named(&self, name: &[u8]) -> Option<SpaceNo> {
        self.memory.named(name)
    }

    fn unname(&mut self, name: &[u8]) {
        self.memory.unname(name);
    }
}
