//! Lines that are written as a source text.
ghost use Rattle.std.specs.Prelude.{◌≡◌, ◌≤◌, ℕ, [], ◌∷◌, length, None, Err, IfOk, OnOk, OnErr};
ghost use Rattle.std.specs.List.{All};
ghost use Rattle.eu_base.specs.declared.address.Area.TheVariants.{Run};
ghost use Rattle.eu_base.specs.Cells.{HasFaultCause};
ghost use Rattle.page_pool.specs.Pool.{Known, Backed};
ghost use Rattle.source_texts.specs.Below.page_table.specs.Frames.{over, content_at, Frames, Stands};
ghost use Rattle.text_heap.specs.Held.{HoldsCells};
ghost use Rattle.source_texts.specs.Spaces.{HoldsSpace, cells_of};
ghost use Rattle.units.specs.Sources.{source_space};

use crate::shape::{LONGEST_LINE, MOST_LINES, SOURCE_KIND, new_shape};
use cell_layout::put;
use data_space::DataSpace;
use eu_base::{Bytes, MemFault, Set, Space};
use page_pool::{Backing, Pool};
use std::alloc::Global;
use text_heap::set;

/// A new data space that holds these lines. Where memory is wanted, all that was taken is given back, as if a space without
/// pages were let go: the pool agrees with the spaces that were there before, and no byte of them changed.
pub fn write_source<B: Backing>(
    alloc: Global,
    pool: &mut Pool,
    lines: &[Bytes],
    backing: &mut B,
) -> Result<DataSpace, MemFault>
    requires few { length lines.now ≤ MOST_LINES }
    requires short { All (λ line. length line ≤ LONGEST_LINE) lines.now }
    requires agree { Stands pool.old [] 1 }
    requires backed { Backed (B.holds backing.old) pool.old }
    ensures holds { IfOk result (λ space. Known (B.tells backing.old) pool.old → HoldsSpace (over pool.new (B.tells backing.new)) space (source_space lines.now)) }
    ensures frames { IfOk result (λ space. Frames (over pool.old (B.tells backing.old)) (over pool.new (B.tells backing.new)) [] (space.root ∷ [])) }
    ensures given_back { OnErr result (Frames (over pool.old (B.tells backing.old)) (over pool.new (B.tells backing.new)) (None ∷ []) []) }
    ensures cause { HasFaultCause (B.faults backing.old) (B.faults backing.new) result }
    ensures follows { B.follows backing.old backing.new }
{
    let shape = new_shape(alloc)?;
    let mut space = DataSpace::of(SOURCE_KIND, Some(shape), None);
    match fill(&mut space, pool, lines, backing) {
        Ok(()) => Ok(space),
        Err(fault) => {
            space.forget(pool);
            Err(fault)
        }
    }
}

// Puts the lines into a space without pages.
fn fill<B: Backing>(
    space: &mut DataSpace,
    pool: &mut Pool,
    lines: &[Bytes],
    backing: &mut B,
) -> Result<(), MemFault>
    requires few { length lines.now ≤ MOST_LINES }
    requires short { All (λ line. length line ≤ LONGEST_LINE) lines.now }
    requires empty { space.old.root ≡ None }
    requires agree { Stands pool.old (space.old.root ∷ []) 0 }
    requires backed { Backed (B.holds backing.old) pool.old }
    ensures holds { OnOk result (Known (B.tells backing.old) pool.old → HoldsCells Run (content_at (over pool.new (B.tells backing.new)) space.new.root) (cells_of (source_space lines.now).values)) }
    ensures kind { space.new.kind ≡ space.old.kind }
    ensures shape { space.new.shape ≡ space.old.shape }
    ensures frames { Frames (over pool.old (B.tells backing.old)) (over pool.new (B.tells backing.new)) (space.old.root ∷ []) (space.new.root ∷ []) }
    ensures cause { HasFaultCause (B.faults backing.old) (B.faults backing.new) result }
    ensures follows { B.follows backing.old backing.new }
{
    let mut lent = space.over(pool, backing);
    put_lines(&mut lent, lines)
}

// Puts the number of lines into the first cell of a space of zeros, and the lines into the cells behind it.
fn put_lines<S: Space>(space: &mut S, lines: &[Bytes]) -> Result<(), MemFault>
    requires few { length lines.now ≤ MOST_LINES }
    requires short { All (λ line. length line ≤ LONGEST_LINE) lines.now }
    requires zeros { (n : ℕ) → S.content space.old n ≡ 0 }
    ensures holds { OnOk result (S.known space.old → HoldsCells Run (S.content space.new) (cells_of (source_space lines.now).values)) }
    ensures cause { HasFaultCause (S.faults space.old) (S.faults space.new) result }
    ensures follows { S.follows space.old space.new }
{
    put(space, 0, lines.len() as u64)?;
    for (k, line) in lines.iter().enumerate() {
        // Where bytes are told, there is room.
        let Set::Done = set(space, k as u16 + 1, line.as_slice())? else {
            return Err(MemFault::NoMemory);
        };
    }
    Ok(())
}
