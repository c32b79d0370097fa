//! A memory of cells.
ghost use Rattle.std.specs.Prelude.{◌≡◌, ◌≢◌, ◌+◌, ◌<◌, ◌≤◌, ℕ, List, [], length, None, Err, IfOk, IfSome, OnOk};
ghost use Rattle.std.specs.Option.{option_copied};
ghost use Rattle.eu_base.specs.declared.cells.MemFault.TheVariants as fault;
ghost use Rattle.eu_base.specs.declared.address.Addr.{Addr};
ghost use Rattle.eu_base.specs.Room.{most_blocks};
ghost use Rattle.eu_base.specs.declared.address.Area.{Area as Areas};
ghost use Rattle.eu_base.specs.Cells.{Word, Letters, Cells, IsCell, AreBare, written, cell_blocks, area_blocks, HasText, Within, Puts, HasFaultCause};
ghost use Rattle.eu_base.specs.declared.address.Area.TheVariants as areas;
ghost use Rattle.eu_base.specs.declared.address.TheConstants.{CELLS};
ghost use Rattle.eu_base.specs.Shapes.{cell_count};
ghost use Rattle.eu_base.specs.DataSpaces.{Heads, IsLive, is_live, the_head, next_number, under, most_live, last_number, Makes, Forgets, SetsKind, Fills, Names, Unnames, heads_by};
ghost use Rattle.eu_base.specs.SpaceCells.{IsThere, cells_by};

use crate::address::{Addr, Area};
use crate::set::Set;
use crate::shape::Shape;
use crate::{Bytes, NoMemory};
use task_numbers::SpaceNo;

/// Why a memory did not do what it was asked for. Afterwards it is spent, and can only be dropped.
#[derive(Clone, Copy, PartialEq, Eq, Debug)]
pub enum MemFault {
    /// Memory was refused.
    NoMemory,
    /// What lies behind it failed, and its count of faults rose.
    Failed,
}

impl From<NoMemory> for MemFault {
    ghost use Rattle.eu_base.specs.declared.cells.MemFault.TheVariants.{NoMemory};

    ghost from_gives = { λ _ fault. fault ≡ NoMemory };

    fn from(_refusal: NoMemory) -> MemFault {
        MemFault::NoMemory
    }
}

/// A memory of the cells of each area, each of which holds a number or a text, with the data spaces of a task. Which of them a cell holds cannot be seen from its bytes, so contracts
/// say what a memory is known to hold: each call speaks of all that may be known.
pub trait Memory {
    /// It holds these numbers and texts; of other cells nothing is known.
    ghost holds: { Self → Cells → Type 0 };

    /// Its data spaces without their values, and their directory.
    ghost heads: { Self → Heads };

    /// How often it failed.
    ghost faults: { Self → ℕ };

    /// What a later value of the same memory keeps of an earlier one.
    ghost follows: { Self → Self → Type 0 };

    /// The number in a cell. It takes no memory.
    fn cell(&mut self, at: Addr) -> Result<u64, MemFault>
        requires cell { IsCell at }
        requires there { IsThere (heads self.old) at.area }
        ensures number { IfOk result (λ number. (cells : Cells) (n : ℕ) → holds self.old cells → cells at ≡ Word n → number ≡ n) }
        ensures kept { OnOk result ((cells : Cells) → holds self.old cells → holds self.new cells) }
        ensures memory { result ≢ Err fault.NoMemory }
        ensures heads { heads self.new ≡ heads self.old }
        ensures cause { HasFaultCause (faults self.old) (faults self.new) result }
        ensures follows { follows self.old self.new };

    /// Puts a number into a cell that is not known to hold a text that has blocks.
    fn set_cell(&mut self, at: Addr, number: u64) -> Result<(), MemFault>
        requires cell { IsCell at }
        requires there { IsThere (heads self.old) at.area }
        ensures written { OnOk result ((cells : Cells) → holds self.old cells → cell_blocks (cells at) ≡ 0 → holds self.new (written cells at (Word number))) }
        ensures heads { heads self.new ≡ heads self.old }
        ensures cause { HasFaultCause (faults self.old) (faults self.new) result }
        ensures follows { follows self.old self.new };

    /// The text in a cell.
    fn text(&mut self, at: Addr) -> Result<Bytes, MemFault>
        requires cell { IsCell at }
        requires there { IsThere (heads self.old) at.area }
        ensures text { IfOk result (λ text. (cells : Cells) (t : List ℕ) → holds self.old cells → cells at ≡ Letters t → text ≡ t) }
        ensures kept { OnOk result ((cells : Cells) → holds self.old cells → holds self.new cells) }
        ensures heads { heads self.new ≡ heads self.old }
        ensures cause { HasFaultCause (faults self.old) (faults self.new) result }
        ensures follows { follows self.old self.new };

    /// Puts a text into a cell in the place of the one that it holds, where all texts of its area then have room. Else nothing changes.
    fn set_text(&mut self, at: Addr, t: &[u8]) -> Result<Set, MemFault>
        requires cell { IsCell at }
        requires there { IsThere (heads self.old) at.area }
        ensures puts { IfOk result (λ set. (cells : Cells) → holds self.old cells → HasText (cells at) → Puts (holds self.new) cells at t.now set) }
        ensures heads { heads self.new ≡ heads self.old }
        ensures cause { HasFaultCause (faults self.old) (faults self.new) result }
        ensures follows { follows self.old self.new };

    /// How many blocks of an area no text has. It takes no memory.
    fn rooms(&mut self, area: Area) -> Result<u32, MemFault>
        requires there { IsThere (heads self.old) area }
        ensures rooms { IfOk result (λ rooms. (cells : Cells) → holds self.old cells → rooms + area_blocks area cells ≡ most_blocks) }
        ensures kept { OnOk result ((cells : Cells) → holds self.old cells → holds self.new cells) }
        ensures memory { result ≢ Err fault.NoMemory }
        ensures heads { heads self.new ≡ heads self.old }
        ensures cause { HasFaultCause (faults self.old) (faults self.new) result }
        ensures follows { follows self.old self.new };

    /// Whether a data space lives under a number.
    fn live(&self, s: SpaceNo) -> bool
        ensures { result ≡ is_live s (heads self.now) };

    /// How many data spaces live.
    fn count(&self) -> u32
        ensures { result ≡ length (heads self.now).live };

    /// The last number that was given to a data space; 0 before the first.
    fn last_number(&self) -> u32
        ensures { result ≡ (heads self.now).last };

    /// Makes a data space under the next number: an empty one, or one with the cells, the type and the shape of another.
    fn make(&mut self, from: Option<SpaceNo>) -> Result<SpaceNo, MemFault>
        requires few { length (heads self.old).live < most_live }
        requires left { (heads self.old).last < last_number }
        requires live { IfSome from (λ s. IsLive s (heads self.old)) }
        ensures number { IfOk result (λ s. s ≡ next_number (heads self.old)) }
        ensures heads { OnOk result (heads self.new ≡ heads_by (Makes from) (heads self.old)) }
        ensures kept { OnOk result ((cells : Cells) → holds self.old cells → holds self.new (cells_by (Makes from) (heads self.old) cells)) }
        ensures cause { HasFaultCause (faults self.old) (faults self.new) result }
        ensures follows { follows self.old self.new };

    /// Lets the data space under a number go, and its names. Where none lives under it, nothing changes.
    fn forget(&mut self, s: SpaceNo)
        ensures heads { heads self.new ≡ heads_by (Forgets s) (heads self.old) }
        ensures kept { (cells : Cells) → holds self.old cells → holds self.new (cells_by (Forgets s) (heads self.old) cells) }
        ensures faults { faults self.new ≡ faults self.old }
        ensures follows { follows self.old self.new };

    /// The type number of a data space.
    fn kind(&self, s: SpaceNo) -> i16
        requires live { IsLive s (heads self.now) }
        ensures { result ≡ (the_head s (heads self.now)).kind };

    /// Gives a data space another type number.
    fn set_kind(&mut self, s: SpaceNo, n: i16)
        requires live { IsLive s (heads self.old) }
        ensures heads { heads self.new ≡ heads_by (SetsKind s n) (heads self.old) }
        ensures kept { (cells : Cells) → holds self.old cells → holds self.new cells }
        ensures faults { faults self.new ≡ faults self.old }
        ensures follows { follows self.old self.new };

    /// The shape of what stands in a data space; `None` where nothing does.
    fn has_shape(&self, s: SpaceNo) -> Option<&Shape>
        requires live { IsLive s (heads self.now) }
        ensures { option_copied result ≡ (the_head s (heads self.now)).shape };

    /// Gives a data space without a shape one, and lets its cells hold what variables of it hold before anything was stored.
    fn fill(&mut self, s: SpaceNo, shape: &Shape) -> Result<(), MemFault>
        requires live { IsLive s (heads self.old) }
        requires empty { (the_head s (heads self.old)).shape ≡ None }
        requires cells { cell_count shape.now ≤ CELLS }
        ensures heads { OnOk result (heads self.new ≡ heads_by (Fills s shape.now) (heads self.old)) }
        ensures filled { OnOk result ((cells : Cells) → holds self.old cells → AreBare (areas.Space s) 0 (cell_count shape.now) cells →
            holds self.new (cells_by (Fills s shape.now) (heads self.old) cells)) }
        ensures cause { HasFaultCause (faults self.old) (faults self.new) result }
        ensures follows { follows self.old self.new };

    /// Enters a name that is free for a data space; it comes last in the directory.
    fn name(&mut self, name: &[u8], s: SpaceNo) -> Result<(), MemFault>
        requires free { under name.now (heads self.old) ≡ None }
        requires live { IsLive s (heads self.old) }
        ensures heads { OnOk result (heads self.new ≡ heads_by (Names name.now s) (heads self.old)) }
        ensures kept { OnOk result ((cells : Cells) → holds self.old cells → holds self.new cells) }
        ensures cause { HasFaultCause (faults self.old) (faults self.new) result }
        ensures follows { follows self.old self.new };

    /// The number of the data space under a name, which lives; `None` exactly where the name is free.
    fn named(&self, name: &[u8]) -> Option<SpaceNo>
        ensures space { result ≡ under name.now (heads self.now) }
        ensures live { IfSome result (λ s. IsLive s (heads self.now)) };

    /// Takes a name out of the directory; where it is free, nothing changes.
    fn unname(&mut self, name: &[u8])
        ensures heads { heads self.new ≡ heads_by (Unnames name.now) (heads self.old) }
        ensures kept { (cells : Cells) → holds self.old cells → holds self.new cells }
        ensures faults { faults self.new ≡ faults self.old }
        ensures follows { follows self.old self.new };

    /// What is known may be forgotten, but for a text that has blocks.
    ghost forgets: { (memory : Self) (cells fewer : Cells) → holds memory cells → Within fewer cells → holds memory fewer };

    /// The number 0 is also the text "".
    ghost empty: { (memory : Self) (cells : Cells) (at : Addr) → IsCell at → holds memory cells → cells at ≡ Word 0 →
        holds memory (written cells at (Letters [])) };

    /// All known texts of an area together have room.
    ghost room: { (memory : Self) (area : Areas) (cells : Cells) → holds memory cells → area_blocks area cells ≤ most_blocks };

    ghost reflexive: { (memory : Self) → follows memory memory };

    ghost transitive: { (first second third : Self) → follows first second → follows second third → follows first third };
}
