//! Data spaces under numbers that are given once.
ghost use Rattle.std.specs.Prelude.{◌≡◌, ◌≢◌, ◌+◌, ◌<◌, ◌≤◌, [], ◌∷◌, length, None, Some, slice_get, is_some, option_map, IfOk, IfErr, OnOk, OnErr, IfSome, Err};
ghost use Rattle.std.specs.Option.{option_copied};
ghost use Rattle.eu_base.specs.Shapes.{cell_count, cell_kinds};
ghost use Rattle.eu_base.specs.Cells.{HasFaultCause};
ghost use Rattle.page_pool.specs.Pool.{used_of, Tell, Known, Backed};
ghost use Rattle.space_memory.specs.Below.page_table.specs.Changes.{ChangesOnly, FreesOnly};
ghost use Rattle.space_memory.specs.Below.page_table.specs.Frames.{over, content_at, Frames, Stands};
ghost use Rattle.cell_layout.specs.Layout.{IsBlankFrom, IsKeptBut};
ghost use Rattle.space_memory.specs.Kept.{KeepsBytes, IsFilled, IsNotFilled, IsOfKind};
ghost use Rattle.space_memory.specs.Live.{space_at, IsLive, IsNumbered, the_space, without, with_space, with_new, space_roots};

use cell_layout::blank;
use data_space::DataSpace;
use eu_base::{CELLS, MemFault, NoMemory, Shape};
use indexmap::IndexMap;
use page_pool::{Backing, Pool};
use std::alloc::Global;
use std::marker::Model;
use task_numbers::SpaceNo;

/// How many data spaces of a task can live at a time.
pub const MOST_LIVE: u32 = 16;

/// At most 16 data spaces under rising numbers, from 1 on. No number is given twice. All calls that take a pool have the
/// pool of the spaces.
#[derive(Drop)]
pub struct Spaces {
    pub(crate) spaces: IndexMap<u32, DataSpace>,
    pub(crate) last: u32,
}

impl Model for Spaces {
    ghost use Rattle.space_memory.specs.Live.{LiveData, IsNumbered};

    ghost Value = { LiveData };

    ghost use Rattle.eu_base.specs.contracts.shape.Shape as shapes;
    ghost use Rattle.std.specs.Coded.{codes};

    ghost coded = { Prim.hlevel (codes, shapes.the_row.coded) };

    ghost view = { λ live. record { spaces = live.spaces.entries; last = live.last } };

    ghost invariant = { λ live. IsNumbered live.spaces.entries live.last };
}

impl Spaces {
    /// No spaces, where numbers up to `last` were given.
    pub fn new(alloc: Global, last: u32) -> Spaces
        ensures { result ≡ record { spaces = []; last = last } }
    {
        Spaces {
            spaces: IndexMap::new(alloc),
            last,
        }
    }

    /// Whether a space lives under a number.
    pub fn live(&self, s: SpaceNo) -> bool
        ensures { result ≡ is_some (space_at s.0 self.now.spaces) }
    {
        self.spaces.contains_key(&s.0)
    }

    /// How many live: at most 16.
    pub fn count(&self) -> u32
        ensures count { result ≡ length self.now.spaces }
        ensures few { result ≤ MOST_LIVE }
    {
        self.spaces.len() as u32
    }

    /// The last number that was given; 0 before the first. The numbers of the live spaces rise from 1 to at most this.
    pub fn last_number(&self) -> u32
        ensures last { result ≡ self.now.last }
        ensures numbered { IsNumbered self.now.spaces self.now.last }
    {
        self.last
    }

    /// The space under a number; `None` exactly where none lives under it.
    pub fn get(&self, s: SpaceNo) -> Option<&DataSpace>
        ensures { option_copied result ≡ space_at s.0 self.now.spaces }
    {
        self.spaces.get(&s.0)
    }

    /// The `k`-th by number, from 0; `None` exactly past the last.
    pub fn space(&self, k: u32) -> Option<(SpaceNo, &DataSpace)>
        ensures { option_map (λ s. (s.0.0, s.1.now)) result ≡ slice_get self.now.spaces k }
    {
        let (number, space) = self.spaces.get_index(k as usize)?;
        Some((SpaceNo(*number), space))
    }

    /// Adds a space under the next number. Where there is no memory, nothing changes and the space comes back.
    pub fn add(&mut self, space: DataSpace) -> Result<SpaceNo, DataSpace>
        requires few { length self.old.spaces < MOST_LIVE }
        requires left { self.old.last < 4294967295 }
        ensures number { IfOk result (λ s. s.0 ≡ self.old.last + 1) }
        ensures added { OnOk result (self.new ≡ with_new space self.old) }
        ensures back { IfErr result (λ back. back ≡ space) }
        ensures err { OnErr result (self.new ≡ self.old) }
    {
        let number = self.last + 1;
        match self.spaces.insert(number, space) {
            Ok(_) => {
                self.last = number;
                Ok(SpaceNo(number))
            }
            Err(refused) => Err(refused.value.1),
        }
    }

    /// Gives a space another type number.
    pub fn set_kind(&mut self, s: SpaceNo, n: i16)
        requires live { IsLive s.0 self.old.spaces }
        ensures { self.new ≡ record self.old { spaces = with_space s.0 (record (the_space s.0 self.old.spaces) { kind = n }) self.old.spaces } }
    {
        let Some(space) = self.spaces.get_mut(&s.0) else {
            unreachable!()
        };
        space.set_kind(n);
    }

    /// Takes a space out, with all that it has. It takes no memory.
    pub fn take(&mut self, s: SpaceNo) -> DataSpace
        requires live { IsLive s.0 self.old.spaces }
        ensures space { result ≡ the_space s.0 self.old.spaces }
        ensures others { self.new ≡ record self.old { spaces = without s.0 self.old.spaces } }
    {
        match self.spaces.shift_remove(&s.0) {
            Some(space) => space,
            None => unreachable!(),
        }
    }

    /// Lets the space under a number go, and frees the pages that no other has; where none lives under it, nothing changes.
    pub fn forget(&mut self, pool: &mut Pool, s: SpaceNo)
        requires agree { Stands pool.old (space_roots self.old.spaces) 0 }
        ensures others { self.new ≡ record self.old { spaces = without s.0 self.old.spaces } }
        ensures gone { space_at s.0 self.new.spaces ≡ None }
        ensures frames { (tell : Tell) → Frames (over pool.old tell) (over pool.new tell) (space_roots self.old.spaces) (space_roots self.new.spaces) }
        ensures keeps { (tell : Tell) → KeepsBytes (over pool.old tell) (over pool.new tell) (space_roots self.new.spaces) }
        ensures frees { FreesOnly pool.old pool.new }
        ensures used { used_of pool.new ≤ used_of pool.old }
    {
        let Some(space) = self.spaces.shift_remove(&s.0) else {
            return
        };
        space.forget(pool);
    }

    /// Adds a space with the same bytes, type and shape as that under a number, which shares its pages. A refusal
    /// changes nothing.
    pub fn copy(
        &mut self,
        alloc: Global,
        pool: &mut Pool,
        from: SpaceNo,
    ) -> Result<SpaceNo, NoMemory>
        requires few { length self.old.spaces < MOST_LIVE }
        requires left { self.old.last < 4294967295 }
        requires live { IsLive from.0 self.old.spaces }
        requires agree { Stands pool.old (space_roots self.old.spaces) 1 }
        ensures number { IfOk result (λ s. s.0 ≡ self.old.last + 1) }
        ensures added { OnOk result (self.new ≡ with_new (the_space from.0 self.old.spaces) self.old) }
        ensures frames { (tell : Tell) → Frames (over pool.old tell) (over pool.new tell) (space_roots self.old.spaces) (space_roots self.new.spaces) }
        ensures keeps { (tell : Tell) → KeepsBytes (over pool.old tell) (over pool.new tell) (space_roots self.old.spaces) }
        ensures changes { ChangesOnly pool.old pool.new [] }
        ensures used { used_of pool.new ≤ used_of pool.old + 1 }
        ensures err { OnErr result (self.new ≡ self.old) }
        ensures pool { OnErr result (pool.new ≡ pool.old) }
    {
        if self.spaces.reserve(1).is_err() {
            return Err(NoMemory);
        }
        let Some(of) = self.spaces.get(&from.0) else {
            unreachable!()
        };
        let copy = of.copy(alloc, pool)?;
        let number = self.last + 1;
        match self.spaces.insert(number, copy) {
            Ok(_) => {
                self.last = number;
                Ok(SpaceNo(number))
            }
            Err(_) => unreachable!(),
        }
    }

    /// Gives the space under a number a shape, and lets its cells from 0 on hold what variables of it hold before anything
    /// was stored. After a refusal some of the cells may hold it, and no byte outside them has changed.
    pub fn fill<B: Backing>(
        &mut self,
        alloc: Global,
        pool: &mut Pool,
        s: SpaceNo,
        shape: &Shape,
        backing: &mut B,
    ) -> Result<(), MemFault>
        requires live { IsLive s.0 self.old.spaces }
        requires empty { (the_space s.0 self.old.spaces).shape ≡ None }
        requires cells { cell_count shape.now ≤ CELLS }
        requires agree { Stands pool.old (space_roots self.old.spaces) 0 }
        requires backed { Backed (B.holds backing.old) pool.old }
        ensures others { self.new ≡ record self.old { spaces = with_space s.0 (the_space s.0 self.new.spaces) self.old.spaces } }
        ensures filled { OnOk result (IsFilled (over pool.old (B.tells backing.old)) (over pool.new (B.tells backing.new)) shape.now (the_space s.0 self.old.spaces) (the_space s.0 self.new.spaces)) }
        ensures err { OnErr result (IsNotFilled (over pool.old (B.tells backing.old)) (over pool.new (B.tells backing.new)) shape.now (the_space s.0 self.old.spaces) (the_space s.0 self.new.spaces)) }
        ensures frames { Frames (over pool.old (B.tells backing.old)) (over pool.new (B.tells backing.new)) (space_roots self.old.spaces) (space_roots self.new.spaces) }
        ensures keeps { KeepsBytes (over pool.old (B.tells backing.old)) (over pool.new (B.tells backing.new)) (space_roots (without s.0 self.old.spaces)) }
        ensures cause { HasFaultCause (B.faults backing.old) (B.faults backing.new) result }
        ensures follows { B.follows backing.old backing.new }
    {
        let Some(space) = self.spaces.get_mut(&s.0) else {
            unreachable!()
        };
        fill_space(space, alloc, pool, shape, backing)
    }

    /// Lets all spaces go.
    pub fn end(self, pool: &mut Pool)
        requires agree { Stands pool.old (space_roots self.spaces) 0 }
        ensures frames { (tell : Tell) → Frames (over pool.old tell) (over pool.new tell) (space_roots self.spaces) [] }
        ensures frees { FreesOnly pool.old pool.new }
        ensures used { used_of pool.new ≤ used_of pool.old }
    {
        let Spaces { mut spaces, .. } = self;
        while let Some((_, space)) = spaces.pop() {
            space.forget(pool);
        }
    }
}

// Gives a space a shape, with the values of cells before anything was stored.
fn fill_space<B: Backing>(
    space: &mut DataSpace,
    alloc: Global,
    pool: &mut Pool,
    shape: &Shape,
    backing: &mut B,
) -> Result<(), MemFault>
    requires cells { cell_count shape.now ≤ CELLS }
    requires agree { Stands pool.old (space.old.root ∷ []) 0 }
    requires backed { Backed (B.holds backing.old) pool.old }
    ensures filled { OnOk result (IsFilled (over pool.old (B.tells backing.old)) (over pool.new (B.tells backing.new)) shape.now space.old space.new) }
    ensures err { OnErr result (IsNotFilled (over pool.old (B.tells backing.old)) (over pool.new (B.tells backing.new)) shape.now space.old space.new) }
    ensures frames { Frames (over pool.old (B.tells backing.old)) (over pool.new (B.tells backing.new)) (space.old.root ∷ []) (space.new.root ∷ []) }
    ensures cause { HasFaultCause (B.faults backing.old) (B.faults backing.new) result }
    ensures follows { B.follows backing.old backing.new }
{
    match shape.try_clone(alloc) {
        Ok(own) => {
            blank_cells(space, pool, shape, backing)?;
            space.set_shape(own);
            Ok(())
        }
        Err(NoMemory) => Err(MemFault::NoMemory),
    }
}

// Lets the cells of a shape from 0 on hold what they hold before anything was stored.
fn blank_cells<B: Backing>(
    space: &mut DataSpace,
    pool: &mut Pool,
    shape: &Shape,
    backing: &mut B,
) -> Result<(), MemFault>
    requires cells { cell_count shape.now ≤ CELLS }
    requires agree { Stands pool.old (space.old.root ∷ []) 0 }
    requires backed { Backed (B.holds backing.old) pool.old }
    ensures blank { OnOk result (Known (B.tells backing.old) pool.old → IsBlankFrom (content_at (over pool.new (B.tells backing.new)) space.new.root) 0 (cell_kinds shape.now)) }
    ensures kept { Known (B.tells backing.old) pool.old → IsKeptBut (content_at (over pool.old (B.tells backing.old)) space.old.root) (content_at (over pool.new (B.tells backing.new)) space.new.root) 0 (cell_count shape.now) }
    ensures same { IsOfKind space.old space.new }
    ensures frames { Frames (over pool.old (B.tells backing.old)) (over pool.new (B.tells backing.new)) (space.old.root ∷ []) (space.new.root ∷ []) }
    ensures cause { HasFaultCause (B.faults backing.old) (B.faults backing.new) result }
    ensures follows { B.follows backing.old backing.new }
{
    let mut lent = space.over(pool, backing);
    blank(&mut lent, 0, shape)
}
