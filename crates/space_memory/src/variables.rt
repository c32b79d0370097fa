//! The variables of the command that runs, and those of packets.
ghost use Rattle.std.specs.Prelude.{◌≡◌, ◌≢◌, ◌+◌, ◌<◌, Err, IfOk, OnOk, IsSome, Some};
ghost use Rattle.eu_base.specs.declared.cells.MemFault.TheVariants.{NoMemory};
ghost use Rattle.eu_base.specs.Cells.{HasFaultCause};
ghost use Rattle.eu_base.specs.Spaces.{IsKept};
ghost use Rattle.page_pool.specs.Pool.{Known, Backed};
ghost use Rattle.space_memory.specs.Below.page_table.specs.Frames.{over, content_at, Frames, Stands};
ghost use Rattle.cell_layout.specs.Layout.{cell_in, HoldsIn, IsKeptBut};
ghost use Rattle.text_heap.specs.Texts.{Texts, Holds, Sets, KeepsCells, blocks_in};
ghost use Rattle.space_memory.specs.Memories.{roots};
ghost use Rattle.space_memory.specs.Changes.{OnlyRun, OnlyPackets};

use crate::space_memory::SpaceMemory;
use eu_base::{Bytes, CELLS, MemFault, Set};
use page_pool::{Backing, Pool};

// Each call changes no other space of the memory.
impl SpaceMemory {
    // The number in a cell of the command that runs.
    #[inline(always)]
    pub(crate) fn run_cell<B: Backing>(
        &mut self,
        pool: &mut Pool,
        cell: u16,
        backing: &mut B,
    ) -> Result<u64, MemFault>
        requires cell { cell < CELLS }
        requires agree { Stands pool.old (roots self.old) 0 }
        requires backed { Backed (B.holds backing.old) pool.old }
        ensures number { IfOk result (λ number. Known (B.tells backing.old) pool.old → number ≡ cell_in (content_at (over pool.old (B.tells backing.old)) self.old.run.root) cell) }
        ensures same { OnOk result (IsKept (content_at (over pool.old (B.tells backing.old)) self.old.run.root) (content_at (over pool.new (B.tells backing.new)) self.new.run.root)) }
        ensures rest { OnlyRun (over pool.old (B.tells backing.old)) (over pool.new (B.tells backing.new)) self.old self.new }
        ensures frames { Frames (over pool.old (B.tells backing.old)) (over pool.new (B.tells backing.new)) (roots self.old) (roots self.new) }
        ensures memory { result ≢ Err NoMemory }
        ensures cause { HasFaultCause (B.faults backing.old) (B.faults backing.new) result }
        ensures follows { B.follows backing.old backing.new }
    {
        crate::number(&mut self.run, pool, cell, backing)
    }

    // Puts a number into a cell of the command that runs.
    #[inline(always)]
    pub(crate) fn set_run_cell<B: Backing>(
        &mut self,
        pool: &mut Pool,
        cell: u16,
        number: u64,
        backing: &mut B,
    ) -> Result<(), MemFault>
        requires cell { cell < CELLS }
        requires agree { Stands pool.old (roots self.old) 0 }
        requires backed { Backed (B.holds backing.old) pool.old }
        ensures holds { OnOk result (Known (B.tells backing.old) pool.old → HoldsIn (content_at (over pool.old (B.tells backing.old)) self.old.run.root) (content_at (over pool.new (B.tells backing.new)) self.new.run.root) cell number) }
        ensures kept { Known (B.tells backing.old) pool.old → IsKeptBut (content_at (over pool.old (B.tells backing.old)) self.old.run.root) (content_at (over pool.new (B.tells backing.new)) self.new.run.root) cell 1 }
        ensures rest { OnlyRun (over pool.old (B.tells backing.old)) (over pool.new (B.tells backing.new)) self.old self.new }
        ensures frames { Frames (over pool.old (B.tells backing.old)) (over pool.new (B.tells backing.new)) (roots self.old) (roots self.new) }
        ensures cause { HasFaultCause (B.faults backing.old) (B.faults backing.new) result }
        ensures follows { B.follows backing.old backing.new }
    {
        crate::set_number(&mut self.run, pool, cell, number, backing)
    }

    // The text in a cell of the command that runs.
    pub(crate) fn run_text<B: Backing>(
        &mut self,
        pool: &mut Pool,
        cell: u16,
        backing: &mut B,
    ) -> Result<Bytes, MemFault>
        requires cell { cell < CELLS }
        requires agree { Stands pool.old (roots self.old) 0 }
        requires backed { Backed (B.holds backing.old) pool.old }
        ensures text { IfOk result (λ text. Known (B.tells backing.old) pool.old → (texts : Texts) → Holds (content_at (over pool.old (B.tells backing.old)) self.old.run.root) texts → IsSome (texts cell) →
            texts cell ≡ Some text) }
        ensures same { OnOk result (IsKept (content_at (over pool.old (B.tells backing.old)) self.old.run.root) (content_at (over pool.new (B.tells backing.new)) self.new.run.root)) }
        ensures rest { OnlyRun (over pool.old (B.tells backing.old)) (over pool.new (B.tells backing.new)) self.old self.new }
        ensures frames { Frames (over pool.old (B.tells backing.old)) (over pool.new (B.tells backing.new)) (roots self.old) (roots self.new) }
        ensures cause { HasFaultCause (B.faults backing.old) (B.faults backing.new) result }
        ensures follows { B.follows backing.old backing.new }
    {
        crate::text(self.alloc, &mut self.run, pool, cell, backing)
    }

    // Puts a text into a cell of the command that runs, where all its texts then have room.
    pub(crate) fn set_run_text<B: Backing>(
        &mut self,
        pool: &mut Pool,
        cell: u16,
        t: &[u8],
        backing: &mut B,
    ) -> Result<Set, MemFault>
        requires cell { cell < CELLS }
        requires agree { Stands pool.old (roots self.old) 0 }
        requires backed { Backed (B.holds backing.old) pool.old }
        ensures sets { IfOk result (λ set. Known (B.tells backing.old) pool.old → (texts : Texts) → Holds (content_at (over pool.old (B.tells backing.old)) self.old.run.root) texts → IsSome (texts cell) →
            Sets (content_at (over pool.old (B.tells backing.old)) self.old.run.root) (content_at (over pool.new (B.tells backing.new)) self.new.run.root) texts cell t.now set) }
        ensures cells { OnOk result (Known (B.tells backing.old) pool.old → KeepsCells (content_at (over pool.old (B.tells backing.old)) self.old.run.root) (content_at (over pool.new (B.tells backing.new)) self.new.run.root) cell) }
        ensures rest { OnlyRun (over pool.old (B.tells backing.old)) (over pool.new (B.tells backing.new)) self.old self.new }
        ensures frames { Frames (over pool.old (B.tells backing.old)) (over pool.new (B.tells backing.new)) (roots self.old) (roots self.new) }
        ensures cause { HasFaultCause (B.faults backing.old) (B.faults backing.new) result }
        ensures follows { B.follows backing.old backing.new }
    {
        crate::set_text(&mut self.run, pool, cell, t, backing)
    }

    // How many blocks no text of the command that runs has.
    pub(crate) fn run_rooms<B: Backing>(
        &mut self,
        pool: &mut Pool,
        backing: &mut B,
    ) -> Result<u16, MemFault>
        requires agree { Stands pool.old (roots self.old) 0 }
        requires backed { Backed (B.holds backing.old) pool.old }
        ensures rooms { IfOk result (λ rooms. Known (B.tells backing.old) pool.old → (texts : Texts) → Holds (content_at (over pool.old (B.tells backing.old)) self.old.run.root) texts → rooms + blocks_in texts ≡ 4096) }
        ensures same { OnOk result (IsKept (content_at (over pool.old (B.tells backing.old)) self.old.run.root) (content_at (over pool.new (B.tells backing.new)) self.new.run.root)) }
        ensures rest { OnlyRun (over pool.old (B.tells backing.old)) (over pool.new (B.tells backing.new)) self.old self.new }
        ensures frames { Frames (over pool.old (B.tells backing.old)) (over pool.new (B.tells backing.new)) (roots self.old) (roots self.new) }
        ensures memory { result ≢ Err NoMemory }
        ensures cause { HasFaultCause (B.faults backing.old) (B.faults backing.new) result }
        ensures follows { B.follows backing.old backing.new }
    {
        crate::rooms(&mut self.run, pool, backing)
    }

    /// The number in a cell of the packets. It stands outside the loop of a run, which is quicker so.
    #[inline(never)]
    pub fn packet_cell<B: Backing>(
        &mut self,
        pool: &mut Pool,
        cell: u16,
        backing: &mut B,
    ) -> Result<u64, MemFault>
        requires cell { cell < CELLS }
        requires agree { Stands pool.old (roots self.old) 0 }
        requires backed { Backed (B.holds backing.old) pool.old }
        ensures number { IfOk result (λ number. Known (B.tells backing.old) pool.old → number ≡ cell_in (content_at (over pool.old (B.tells backing.old)) self.old.packets.root) cell) }
        ensures same { OnOk result (IsKept (content_at (over pool.old (B.tells backing.old)) self.old.packets.root) (content_at (over pool.new (B.tells backing.new)) self.new.packets.root)) }
        ensures rest { OnlyPackets (over pool.old (B.tells backing.old)) (over pool.new (B.tells backing.new)) self.old self.new }
        ensures frames { Frames (over pool.old (B.tells backing.old)) (over pool.new (B.tells backing.new)) (roots self.old) (roots self.new) }
        ensures memory { result ≢ Err NoMemory }
        ensures cause { HasFaultCause (B.faults backing.old) (B.faults backing.new) result }
        ensures follows { B.follows backing.old backing.new }
    {
        crate::number(&mut self.packets, pool, cell, backing)
    }

    /// Puts a number into a cell of the packets. After a refusal some bytes of the cell may be written.
    #[inline(never)]
    pub fn set_packet_cell<B: Backing>(
        &mut self,
        pool: &mut Pool,
        cell: u16,
        number: u64,
        backing: &mut B,
    ) -> Result<(), MemFault>
        requires cell { cell < CELLS }
        requires agree { Stands pool.old (roots self.old) 0 }
        requires backed { Backed (B.holds backing.old) pool.old }
        ensures holds { OnOk result (Known (B.tells backing.old) pool.old → HoldsIn (content_at (over pool.old (B.tells backing.old)) self.old.packets.root) (content_at (over pool.new (B.tells backing.new)) self.new.packets.root) cell number) }
        ensures kept { Known (B.tells backing.old) pool.old → IsKeptBut (content_at (over pool.old (B.tells backing.old)) self.old.packets.root) (content_at (over pool.new (B.tells backing.new)) self.new.packets.root) cell 1 }
        ensures rest { OnlyPackets (over pool.old (B.tells backing.old)) (over pool.new (B.tells backing.new)) self.old self.new }
        ensures frames { Frames (over pool.old (B.tells backing.old)) (over pool.new (B.tells backing.new)) (roots self.old) (roots self.new) }
        ensures cause { HasFaultCause (B.faults backing.old) (B.faults backing.new) result }
        ensures follows { B.follows backing.old backing.new }
    {
        crate::set_number(&mut self.packets, pool, cell, number, backing)
    }

    /// The text in a cell of the packets.
    pub fn packet_text<B: Backing>(
        &mut self,
        pool: &mut Pool,
        cell: u16,
        backing: &mut B,
    ) -> Result<Bytes, MemFault>
        requires cell { cell < CELLS }
        requires agree { Stands pool.old (roots self.old) 0 }
        requires backed { Backed (B.holds backing.old) pool.old }
        ensures text { IfOk result (λ text. Known (B.tells backing.old) pool.old → (texts : Texts) → Holds (content_at (over pool.old (B.tells backing.old)) self.old.packets.root) texts → IsSome (texts cell) →
            texts cell ≡ Some text) }
        ensures same { OnOk result (IsKept (content_at (over pool.old (B.tells backing.old)) self.old.packets.root) (content_at (over pool.new (B.tells backing.new)) self.new.packets.root)) }
        ensures rest { OnlyPackets (over pool.old (B.tells backing.old)) (over pool.new (B.tells backing.new)) self.old self.new }
        ensures frames { Frames (over pool.old (B.tells backing.old)) (over pool.new (B.tells backing.new)) (roots self.old) (roots self.new) }
        ensures cause { HasFaultCause (B.faults backing.old) (B.faults backing.new) result }
        ensures follows { B.follows backing.old backing.new }
    {
        crate::text(self.alloc, &mut self.packets, pool, cell, backing)
    }

    /// Puts a text into a cell of the packets, where all their texts then have room; else it answers HeapFull and changes
    /// nothing. After a refusal some bytes of the space may be written.
    pub fn set_packet_text<B: Backing>(
        &mut self,
        pool: &mut Pool,
        cell: u16,
        t: &[u8],
        backing: &mut B,
    ) -> Result<Set, MemFault>
        requires cell { cell < CELLS }
        requires agree { Stands pool.old (roots self.old) 0 }
        requires backed { Backed (B.holds backing.old) pool.old }
        ensures sets { IfOk result (λ set. Known (B.tells backing.old) pool.old → (texts : Texts) → Holds (content_at (over pool.old (B.tells backing.old)) self.old.packets.root) texts → IsSome (texts cell) →
            Sets (content_at (over pool.old (B.tells backing.old)) self.old.packets.root) (content_at (over pool.new (B.tells backing.new)) self.new.packets.root) texts cell t.now set) }
        ensures cells { OnOk result (Known (B.tells backing.old) pool.old → KeepsCells (content_at (over pool.old (B.tells backing.old)) self.old.packets.root) (content_at (over pool.new (B.tells backing.new)) self.new.packets.root) cell) }
        ensures rest { OnlyPackets (over pool.old (B.tells backing.old)) (over pool.new (B.tells backing.new)) self.old self.new }
        ensures frames { Frames (over pool.old (B.tells backing.old)) (over pool.new (B.tells backing.new)) (roots self.old) (roots self.new) }
        ensures cause { HasFaultCause (B.faults backing.old) (B.faults backing.new) result }
        ensures follows { B.follows backing.old backing.new }
    {
        crate::set_text(&mut self.packets, pool, cell, t, backing)
    }

    /// How many blocks of 28 bytes no text of the packets has: at most 4,096.
    pub fn packet_rooms<B: Backing>(
        &mut self,
        pool: &mut Pool,
        backing: &mut B,
    ) -> Result<u16, MemFault>
        requires agree { Stands pool.old (roots self.old) 0 }
        requires backed { Backed (B.holds backing.old) pool.old }
        ensures rooms { IfOk result (λ rooms. Known (B.tells backing.old) pool.old → (texts : Texts) → Holds (content_at (over pool.old (B.tells backing.old)) self.old.packets.root) texts → rooms + blocks_in texts ≡ 4096) }
        ensures same { OnOk result (IsKept (content_at (over pool.old (B.tells backing.old)) self.old.packets.root) (content_at (over pool.new (B.tells backing.new)) self.new.packets.root)) }
        ensures rest { OnlyPackets (over pool.old (B.tells backing.old)) (over pool.new (B.tells backing.new)) self.old self.new }
        ensures frames { Frames (over pool.old (B.tells backing.old)) (over pool.new (B.tells backing.new)) (roots self.old) (roots self.new) }
        ensures memory { result ≢ Err NoMemory }
        ensures cause { HasFaultCause (B.faults backing.old) (B.faults backing.new) result }
        ensures follows { B.follows backing.old backing.new }
    {
        crate::rooms(&mut self.packets, pool, backing)
    }
}
