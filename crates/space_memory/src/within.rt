//! Cells and texts of the live data spaces.
ghost use Rattle.std.specs.Prelude.{◌≡◌, ◌≢◌, ◌+◌, ◌<◌, Err, IfOk, OnOk, IsSome, Some};
ghost use Rattle.eu_base.specs.declared.cells.MemFault.TheVariants.{NoMemory};
ghost use Rattle.eu_base.specs.Cells.{HasFaultCause};
ghost use Rattle.eu_base.specs.Spaces.{IsKept};
ghost use Rattle.page_pool.specs.Pool.{Known, Backed};
ghost use Rattle.space_memory.specs.Below.page_table.specs.Frames.{over, content_at, Frames, Stands};
ghost use Rattle.cell_layout.specs.Layout.{cell_in, HoldsIn, IsKeptBut};
ghost use Rattle.text_heap.specs.Texts.{Texts, Holds, Sets, KeepsCells, blocks_in};
ghost use Rattle.space_memory.specs.Live.{IsLive, the_space};
ghost use Rattle.space_memory.specs.Memories.{roots};
ghost use Rattle.space_memory.specs.Changes.{OnlySpace};

use crate::space_memory::SpaceMemory;
use eu_base::{Bytes, CELLS, MemFault, Set};
use page_pool::{Backing, Pool};
use task_numbers::SpaceNo;

// Each call changes no other space of the memory.
impl SpaceMemory {
    /// The number in a cell of a live space.
    pub fn space_cell<B: Backing>(
        &mut self,
        pool: &mut Pool,
        s: SpaceNo,
        cell: u16,
        backing: &mut B,
    ) -> Result<u64, MemFault>
        requires live { IsLive s.0 self.old.spaces }
        requires cell { cell < CELLS }
        requires agree { Stands pool.old (roots self.old) 0 }
        requires backed { Backed (B.holds backing.old) pool.old }
        ensures number { IfOk result (λ number. Known (B.tells backing.old) pool.old → number ≡ cell_in (content_at (over pool.old (B.tells backing.old)) (the_space s.0 self.old.spaces).root) cell) }
        ensures same { OnOk result (IsKept (content_at (over pool.old (B.tells backing.old)) (the_space s.0 self.old.spaces).root) (content_at (over pool.new (B.tells backing.new)) (the_space s.0 self.new.spaces).root)) }
        ensures rest { OnlySpace s.0 (over pool.old (B.tells backing.old)) (over pool.new (B.tells backing.new)) self.old self.new }
        ensures frames { Frames (over pool.old (B.tells backing.old)) (over pool.new (B.tells backing.new)) (roots self.old) (roots self.new) }
        ensures memory { result ≢ Err NoMemory }
        ensures cause { HasFaultCause (B.faults backing.old) (B.faults backing.new) result }
        ensures follows { B.follows backing.old backing.new }
    {
        self.spaces.cell(pool, s, cell, backing)
    }

    /// Puts a number into a cell of a live space. After a refusal some bytes of the cell may be written.
    pub fn set_space_cell<B: Backing>(
        &mut self,
        pool: &mut Pool,
        s: SpaceNo,
        cell: u16,
        number: u64,
        backing: &mut B,
    ) -> Result<(), MemFault>
        requires live { IsLive s.0 self.old.spaces }
        requires cell { cell < CELLS }
        requires agree { Stands pool.old (roots self.old) 0 }
        requires backed { Backed (B.holds backing.old) pool.old }
        ensures holds { OnOk result (Known (B.tells backing.old) pool.old → HoldsIn (content_at (over pool.old (B.tells backing.old)) (the_space s.0 self.old.spaces).root) (content_at (over pool.new (B.tells backing.new)) (the_space s.0 self.new.spaces).root) cell number) }
        ensures kept { Known (B.tells backing.old) pool.old → IsKeptBut (content_at (over pool.old (B.tells backing.old)) (the_space s.0 self.old.spaces).root) (content_at (over pool.new (B.tells backing.new)) (the_space s.0 self.new.spaces).root) cell 1 }
        ensures rest { OnlySpace s.0 (over pool.old (B.tells backing.old)) (over pool.new (B.tells backing.new)) self.old self.new }
        ensures frames { Frames (over pool.old (B.tells backing.old)) (over pool.new (B.tells backing.new)) (roots self.old) (roots self.new) }
        ensures cause { HasFaultCause (B.faults backing.old) (B.faults backing.new) result }
        ensures follows { B.follows backing.old backing.new }
    {
        self.spaces.set_cell(pool, s, cell, number, backing)
    }

    /// The text in a cell of a live space.
    pub fn space_text<B: Backing>(
        &mut self,
        pool: &mut Pool,
        s: SpaceNo,
        cell: u16,
        backing: &mut B,
    ) -> Result<Bytes, MemFault>
        requires live { IsLive s.0 self.old.spaces }
        requires cell { cell < CELLS }
        requires agree { Stands pool.old (roots self.old) 0 }
        requires backed { Backed (B.holds backing.old) pool.old }
        ensures text { IfOk result (λ text. Known (B.tells backing.old) pool.old → (texts : Texts) → Holds (content_at (over pool.old (B.tells backing.old)) (the_space s.0 self.old.spaces).root) texts → IsSome (texts cell) → texts cell ≡ Some text) }
        ensures same { OnOk result (IsKept (content_at (over pool.old (B.tells backing.old)) (the_space s.0 self.old.spaces).root) (content_at (over pool.new (B.tells backing.new)) (the_space s.0 self.new.spaces).root)) }
        ensures rest { OnlySpace s.0 (over pool.old (B.tells backing.old)) (over pool.new (B.tells backing.new)) self.old self.new }
        ensures frames { Frames (over pool.old (B.tells backing.old)) (over pool.new (B.tells backing.new)) (roots self.old) (roots self.new) }
        ensures cause { HasFaultCause (B.faults backing.old) (B.faults backing.new) result }
        ensures follows { B.follows backing.old backing.new }
    {
        self.spaces.text(self.alloc, pool, s, cell, backing)
    }

    /// Puts a text into a cell of a live space, where all texts of the space then have room. After a refusal some bytes of the space may
    /// be written.
    pub fn set_space_text<B: Backing>(
        &mut self,
        pool: &mut Pool,
        s: SpaceNo,
        cell: u16,
        t: &[u8],
        backing: &mut B,
    ) -> Result<Set, MemFault>
        requires live { IsLive s.0 self.old.spaces }
        requires cell { cell < CELLS }
        requires agree { Stands pool.old (roots self.old) 0 }
        requires backed { Backed (B.holds backing.old) pool.old }
        ensures sets { IfOk result (λ set. Known (B.tells backing.old) pool.old → (texts : Texts) → Holds (content_at (over pool.old (B.tells backing.old)) (the_space s.0 self.old.spaces).root) texts → IsSome (texts cell) →
            Sets (content_at (over pool.old (B.tells backing.old)) (the_space s.0 self.old.spaces).root) (content_at (over pool.new (B.tells backing.new)) (the_space s.0 self.new.spaces).root) texts cell t.now set) }
        ensures cells { OnOk result (Known (B.tells backing.old) pool.old → KeepsCells (content_at (over pool.old (B.tells backing.old)) (the_space s.0 self.old.spaces).root) (content_at (over pool.new (B.tells backing.new)) (the_space s.0 self.new.spaces).root) cell) }
        ensures rest { OnlySpace s.0 (over pool.old (B.tells backing.old)) (over pool.new (B.tells backing.new)) self.old self.new }
        ensures frames { Frames (over pool.old (B.tells backing.old)) (over pool.new (B.tells backing.new)) (roots self.old) (roots self.new) }
        ensures cause { HasFaultCause (B.faults backing.old) (B.faults backing.new) result }
        ensures follows { B.follows backing.old backing.new }
    {
        self.spaces.set_text(pool, s, cell, t, backing)
    }

    /// How many blocks no text of a live space has.
    pub fn space_rooms<B: Backing>(
        &mut self,
        pool: &mut Pool,
        s: SpaceNo,
        backing: &mut B,
    ) -> Result<u16, MemFault>
        requires live { IsLive s.0 self.old.spaces }
        requires agree { Stands pool.old (roots self.old) 0 }
        requires backed { Backed (B.holds backing.old) pool.old }
        ensures rooms { IfOk result (λ rooms. Known (B.tells backing.old) pool.old → (texts : Texts) → Holds (content_at (over pool.old (B.tells backing.old)) (the_space s.0 self.old.spaces).root) texts → rooms + blocks_in texts ≡ 4096) }
        ensures same { OnOk result (IsKept (content_at (over pool.old (B.tells backing.old)) (the_space s.0 self.old.spaces).root) (content_at (over pool.new (B.tells backing.new)) (the_space s.0 self.new.spaces).root)) }
        ensures rest { OnlySpace s.0 (over pool.old (B.tells backing.old)) (over pool.new (B.tells backing.new)) self.old self.new }
        ensures frames { Frames (over pool.old (B.tells backing.old)) (over pool.new (B.tells backing.new)) (roots self.old) (roots self.new) }
        ensures memory { result ≢ Err NoMemory }
        ensures cause { HasFaultCause (B.faults backing.old) (B.faults backing.new) result }
        ensures follows { B.follows backing.old backing.new }
    {
        self.spaces.rooms(pool, s, backing)
    }
}
