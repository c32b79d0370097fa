//! Cells and texts of one space.
ghost use Rattle.std.specs.Prelude.{◌≡◌, ◌≢◌, ◌+◌, ◌<◌, [], ◌∷◌, Err, IfOk, OnOk, IsSome, Some};
ghost use Rattle.eu_base.specs.declared.cells.MemFault.TheVariants.{NoMemory};
ghost use Rattle.eu_base.specs.Cells.{HasFaultCause};
ghost use Rattle.eu_base.specs.Spaces.{IsKept};
ghost use Rattle.page_pool.specs.Pool.{Known, Backed};
ghost use Rattle.space_memory.specs.Below.page_table.specs.Frames.{over, content_at, Frames, Stands};
ghost use Rattle.cell_layout.specs.Layout.{cell_in, HoldsIn, IsKeptBut};
ghost use Rattle.text_heap.specs.Texts.{Texts, Holds, Sets, KeepsCells, blocks_in};
ghost use Rattle.space_memory.specs.Kept.{IsOfKind};

use cell_layout::{get, put};
use data_space::DataSpace;
use eu_base::{Bytes, CELLS, MemFault, Set};
use page_pool::{Backing, Pool};
use std::alloc::Global;

/// The number in a cell.
#[inline(always)]
pub fn number<B: Backing>(
    space: &mut DataSpace,
    pool: &mut Pool,
    cell: u16,
    backing: &mut B,
) -> Result<u64, MemFault>
    requires cell { cell < CELLS }
    requires agree { Stands pool.old (space.old.root ∷ []) 0 }
    requires backed { Backed (B.holds backing.old) pool.old }
    ensures number { IfOk result (λ number. Known (B.tells backing.old) pool.old → number ≡ cell_in (content_at (over pool.old (B.tells backing.old)) space.old.root) cell) }
    ensures same { OnOk result (IsKept (content_at (over pool.old (B.tells backing.old)) space.old.root) (content_at (over pool.new (B.tells backing.new)) space.new.root)) }
    ensures kind { IsOfKind space.old space.new }
    ensures frames { Frames (over pool.old (B.tells backing.old)) (over pool.new (B.tells backing.new)) (space.old.root ∷ []) (space.new.root ∷ []) }
    ensures memory { result ≢ Err NoMemory }
    ensures cause { HasFaultCause (B.faults backing.old) (B.faults backing.new) result }
    ensures follows { B.follows backing.old backing.new }
{
    let mut lent = space.over(pool, backing);
    get(&mut lent, cell)
}

/// Puts a number into a cell.
#[inline(always)]
pub fn set_number<B: Backing>(
    space: &mut DataSpace,
    pool: &mut Pool,
    cell: u16,
    number: u64,
    backing: &mut B,
) -> Result<(), MemFault>
    requires cell { cell < CELLS }
    requires agree { Stands pool.old (space.old.root ∷ []) 0 }
    requires backed { Backed (B.holds backing.old) pool.old }
    ensures holds { OnOk result (Known (B.tells backing.old) pool.old → HoldsIn (content_at (over pool.old (B.tells backing.old)) space.old.root) (content_at (over pool.new (B.tells backing.new)) space.new.root) cell number) }
    ensures kept { Known (B.tells backing.old) pool.old → IsKeptBut (content_at (over pool.old (B.tells backing.old)) space.old.root) (content_at (over pool.new (B.tells backing.new)) space.new.root) cell 1 }
    ensures kind { IsOfKind space.old space.new }
    ensures frames { Frames (over pool.old (B.tells backing.old)) (over pool.new (B.tells backing.new)) (space.old.root ∷ []) (space.new.root ∷ []) }
    ensures cause { HasFaultCause (B.faults backing.old) (B.faults backing.new) result }
    ensures follows { B.follows backing.old backing.new }
{
    let mut lent = space.over(pool, backing);
    put(&mut lent, cell, number)
}

/// The text in a cell.
pub fn text<B: Backing>(
    alloc: Global,
    space: &mut DataSpace,
    pool: &mut Pool,
    cell: u16,
    backing: &mut B,
) -> Result<Bytes, MemFault>
    requires cell { cell < CELLS }
    requires agree { Stands pool.old (space.old.root ∷ []) 0 }
    requires backed { Backed (B.holds backing.old) pool.old }
    ensures text { IfOk result (λ text. Known (B.tells backing.old) pool.old → (texts : Texts) → Holds (content_at (over pool.old (B.tells backing.old)) space.old.root) texts → IsSome (texts cell) → texts cell ≡ Some text) }
    ensures same { OnOk result (IsKept (content_at (over pool.old (B.tells backing.old)) space.old.root) (content_at (over pool.new (B.tells backing.new)) space.new.root)) }
    ensures kind { IsOfKind space.old space.new }
    ensures frames { Frames (over pool.old (B.tells backing.old)) (over pool.new (B.tells backing.new)) (space.old.root ∷ []) (space.new.root ∷ []) }
    ensures cause { HasFaultCause (B.faults backing.old) (B.faults backing.new) result }
    ensures follows { B.follows backing.old backing.new }
{
    let mut lent = space.over(pool, backing);
    text_heap::get(alloc, &mut lent, cell)
}

/// Puts a text into a cell, where all texts of the space then have room.
pub fn set_text<B: Backing>(
    space: &mut DataSpace,
    pool: &mut Pool,
    cell: u16,
    t: &[u8],
    backing: &mut B,
) -> Result<Set, MemFault>
    requires cell { cell < CELLS }
    requires agree { Stands pool.old (space.old.root ∷ []) 0 }
    requires backed { Backed (B.holds backing.old) pool.old }
    ensures sets { IfOk result (λ set. Known (B.tells backing.old) pool.old → (texts : Texts) → Holds (content_at (over pool.old (B.tells backing.old)) space.old.root) texts → IsSome (texts cell) →
        Sets (content_at (over pool.old (B.tells backing.old)) space.old.root) (content_at (over pool.new (B.tells backing.new)) space.new.root) texts cell t.now set) }
    ensures cells { OnOk result (Known (B.tells backing.old) pool.old → KeepsCells (content_at (over pool.old (B.tells backing.old)) space.old.root) (content_at (over pool.new (B.tells backing.new)) space.new.root) cell) }
    ensures kind { IsOfKind space.old space.new }
    ensures frames { Frames (over pool.old (B.tells backing.old)) (over pool.new (B.tells backing.new)) (space.old.root ∷ []) (space.new.root ∷ []) }
    ensures cause { HasFaultCause (B.faults backing.old) (B.faults backing.new) result }
    ensures follows { B.follows backing.old backing.new }
{
    let mut lent = space.over(pool, backing);
    text_heap::set(&mut lent, cell, t)
}

/// How many blocks no text of the space has.
pub fn rooms<B: Backing>(
    space: &mut DataSpace,
    pool: &mut Pool,
    backing: &mut B,
) -> Result<u16, MemFault>
    requires agree { Stands pool.old (space.old.root ∷ []) 0 }
    requires backed { Backed (B.holds backing.old) pool.old }
    ensures rooms { IfOk result (λ rooms. Known (B.tells backing.old) pool.old → (texts : Texts) → Holds (content_at (over pool.old (B.tells backing.old)) space.old.root) texts → rooms + blocks_in texts ≡ 4096) }
    ensures same { OnOk result (IsKept (content_at (over pool.old (B.tells backing.old)) space.old.root) (content_at (over pool.new (B.tells backing.new)) space.new.root)) }
    ensures kind { IsOfKind space.old space.new }
    ensures frames { Frames (over pool.old (B.tells backing.old)) (over pool.new (B.tells backing.new)) (space.old.root ∷ []) (space.new.root ∷ []) }
    ensures memory { result ≢ Err NoMemory }
    ensures cause { HasFaultCause (B.faults backing.old) (B.faults backing.new) result }
    ensures follows { B.follows backing.old backing.new }
{
    let mut lent = space.over(pool, backing);
    text_heap::rooms(&mut lent)
}
