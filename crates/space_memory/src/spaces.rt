//! The live data spaces of a task.
ghost use Rattle.std.specs.Prelude.{◌≡◌, ◌≢◌, ◌+◌, ◌<◌, ◌≤◌, [], ◌∷◌, length, None, slice_get, is_some, option_map, IfOk, IfErr, OnOk, OnErr, IfSome, Err};
ghost use Rattle.std.specs.Option.{option_copied};
ghost use Rattle.eu_base.specs.Shapes.{cell_count};
ghost use Rattle.eu_base.specs.Cells.{HasFaultCause};
ghost use Rattle.page_pool.specs.Pool.{used_of, Tell, Backed};
ghost use Rattle.space_memory.specs.Below.page_table.specs.Changes.{ChangesOnly, FreesOnly};
ghost use Rattle.space_memory.specs.Below.page_table.specs.Frames.{Over, over, Frames, Stands};
ghost use Rattle.space_memory.specs.Kept.{KeepsBytes, IsFilled, IsNotFilled};
ghost use Rattle.space_memory.specs.Live.{space_at, IsLive, IsNumbered, the_space, without, space_roots};
ghost use Rattle.space_memory.specs.Memories.{roots, with_new, source, changed, forgotten};

use crate::MOST_LIVE;
use crate::space_memory::SpaceMemory;
use data_space::DataSpace;
use eu_base::{CELLS, MemFault, NoMemory, Shape};
use page_pool::{Backing, Pool};
use task_numbers::SpaceNo;

impl SpaceMemory {
    /// Whether a space lives under a number.
    pub fn live(&self, s: SpaceNo) -> bool
        ensures { result ≡ is_some (space_at s.0 self.now.spaces) }
    {
        self.spaces.live(s)
    }

    /// How many spaces live under numbers: at most 16.
    pub fn count(&self) -> u32
        ensures count { result ≡ length self.now.spaces }
        ensures few { result ≤ MOST_LIVE }
    {
        self.spaces.count()
    }

    /// The last number that was given; 0 before the first. The numbers of the live spaces rise from 1 to at most this.
    pub fn last_number(&self) -> u32
        ensures last { result ≡ self.now.last }
        ensures numbered { IsNumbered self.now.spaces self.now.last }
    {
        self.spaces.last_number()
    }

    /// Makes a space under the next number: an empty one, or one with the bytes, the type and the shape of another. A
    /// refusal changes nothing.
    pub fn make(&mut self, pool: &mut Pool, from: Option<SpaceNo>) -> Result<SpaceNo, NoMemory>
        requires few { length self.old.spaces < MOST_LIVE }
        requires left { self.old.last < 4294967295 }
        requires live { IfSome from (λ s. IsLive s.0 self.old.spaces) }
        requires agree { Stands pool.old (roots self.old) 1 }
        ensures number { IfOk result (λ s. s.0 ≡ self.old.last + 1) }
        ensures made { OnOk result (self.new ≡ with_new (source from self.old) self.old) }
        ensures frames { (tell : Tell) → Frames (over pool.old tell) (over pool.new tell) (roots self.old) (roots self.new) }
        ensures keeps { (tell : Tell) → KeepsBytes (over pool.old tell) (over pool.new tell) (roots self.old) }
        ensures changes { ChangesOnly pool.old pool.new [] }
        ensures used { used_of pool.new ≤ used_of pool.old + 1 }
        ensures err { OnErr result (self.new ≡ self.old) }
        ensures pool { OnErr result (pool.new ≡ pool.old) }
    {
        match from {
            Some(of) => self.make_copy(pool, of),
            None => match self.give(DataSpace::nil()) {
                Ok(s) => Ok(s),
                Err(_) => Err(NoMemory),
            },
        }
    }

    fn make_copy(&mut self, pool: &mut Pool, of: SpaceNo) -> Result<SpaceNo, NoMemory>
        requires few { length self.old.spaces < MOST_LIVE }
        requires left { self.old.last < 4294967295 }
        requires live { IsLive of.0 self.old.spaces }
        requires agree { Stands pool.old (roots self.old) 1 }
        ensures number { IfOk result (λ s. s.0 ≡ self.old.last + 1) }
        ensures made { OnOk result (self.new ≡ with_new (the_space of.0 self.old.spaces) self.old) }
        ensures frames { (tell : Tell) → Frames (over pool.old tell) (over pool.new tell) (roots self.old) (roots self.new) }
        ensures keeps { (tell : Tell) → KeepsBytes (over pool.old tell) (over pool.new tell) (roots self.old) }
        ensures changes { ChangesOnly pool.old pool.new [] }
        ensures used { used_of pool.new ≤ used_of pool.old + 1 }
        ensures err { OnErr result (self.new ≡ self.old) }
        ensures pool { OnErr result (pool.new ≡ pool.old) }
    {
        match self.spaces.copy(self.alloc, pool, of) {
            Ok(s) => Ok(s),
            Err(refusal) => Err(refusal),
        }
    }

    /// Lets the space under a number go, and frees the pages that no other has; its names leave the directory. Where none
    /// lives under the number, nothing changes.
    pub fn forget(&mut self, pool: &mut Pool, s: SpaceNo)
        requires agree { Stands pool.old (roots self.old) 0 }
        ensures forgotten { self.new ≡ forgotten s.0 self.old }
        ensures gone { space_at s.0 self.new.spaces ≡ None }
        ensures frames { (tell : Tell) → Frames (over pool.old tell) (over pool.new tell) (roots self.old) (roots self.new) }
        ensures keeps { (tell : Tell) → KeepsBytes (over pool.old tell) (over pool.new tell) (roots self.new) }
        ensures frees { FreesOnly pool.old pool.new }
        ensures used { used_of pool.new ≤ used_of pool.old }
    {
        self.names.forget(s);
        self.spaces.forget(pool, s);
    }

    /// The type number of a space.
    pub fn kind(&self, s: SpaceNo) -> i16
        requires live { IsLive s.0 self.now.spaces }
        ensures { result ≡ (the_space s.0 self.now.spaces).kind }
    {
        match self.spaces.get(s) {
            Some(space) => space.kind(),
            None => unreachable!(),
        }
    }

    /// Gives a space another type number.
    pub fn set_kind(&mut self, s: SpaceNo, n: i16)
        requires live { IsLive s.0 self.old.spaces }
        ensures kind { self.new ≡ changed s.0 (record (the_space s.0 self.old.spaces) { kind = n }) self.old }
        ensures roots { roots self.new ≡ roots self.old }
    {
        self.spaces.set_kind(s, n);
    }

    /// The shape of what stands in a space; `None` where nothing does.
    pub fn has_shape(&self, s: SpaceNo) -> Option<&Shape>
        requires live { IsLive s.0 self.now.spaces }
        ensures { option_copied result ≡ (the_space s.0 self.now.spaces).shape }
    {
        match self.spaces.get(s) {
            Some(space) => space.shape(),
            None => unreachable!(),
        }
    }

    /// Gives a space without a shape one, and lets its cells from 0 on hold what variables of it hold before anything was
    /// stored. After a refusal some of the cells may hold it, and no byte outside them has changed.
    pub fn fill<B: Backing>(
        &mut self,
        pool: &mut Pool,
        s: SpaceNo,
        shape: &Shape,
        backing: &mut B,
    ) -> Result<(), MemFault>
        requires live { IsLive s.0 self.old.spaces }
        requires empty { (the_space s.0 self.old.spaces).shape ≡ None }
        requires cells { cell_count shape.now ≤ CELLS }
        requires agree { Stands pool.old (roots self.old) 0 }
        requires backed { Backed (B.holds backing.old) pool.old }
        ensures others { self.new ≡ changed s.0 (the_space s.0 self.new.spaces) self.old }
        ensures filled { OnOk result (IsFilled (over pool.old (B.tells backing.old)) (over pool.new (B.tells backing.new)) shape.now (the_space s.0 self.old.spaces) (the_space s.0 self.new.spaces)) }
        ensures err { OnErr result (IsNotFilled (over pool.old (B.tells backing.old)) (over pool.new (B.tells backing.new)) shape.now (the_space s.0 self.old.spaces) (the_space s.0 self.new.spaces)) }
        ensures frames { Frames (over pool.old (B.tells backing.old)) (over pool.new (B.tells backing.new)) (roots self.old) (roots self.new) }
        ensures keeps { KeepsBytes (over pool.old (B.tells backing.old)) (over pool.new (B.tells backing.new))
            (self.old.run.root ∷ self.old.packets.root ∷ space_roots (without s.0 self.old.spaces)) }
        ensures cause { HasFaultCause (B.faults backing.old) (B.faults backing.new) result }
        ensures follows { B.follows backing.old backing.new }
    {
        self.spaces.fill(self.alloc, pool, s, shape, backing)
    }

    /// Takes a space out: it is no longer the task's, and its names leave the directory. It takes no memory.
    pub fn take(&mut self, s: SpaceNo) -> DataSpace
        requires live { IsLive s.0 self.old.spaces }
        ensures space { result ≡ the_space s.0 self.old.spaces }
        ensures forgotten { self.new ≡ forgotten s.0 self.old }
        ensures frames { (pages : Over) → Frames pages pages (roots self.old) (result.root ∷ roots self.new) }
    {
        self.names.forget(s);
        self.spaces.take(s)
    }

    /// Gives the task a space, under the next number. Where there is no memory, nothing changes and the space comes back.
    pub fn give(&mut self, space: DataSpace) -> Result<SpaceNo, DataSpace>
        requires few { length self.old.spaces < MOST_LIVE }
        requires left { self.old.last < 4294967295 }
        ensures number { IfOk result (λ s. s.0 ≡ self.old.last + 1) }
        ensures given { OnOk result (self.new ≡ with_new space self.old) }
        ensures frames { OnOk result ((pages : Over) → Frames pages pages (space.root ∷ roots self.old) (roots self.new)) }
        ensures back { IfErr result (λ back. back ≡ space) }
        ensures err { OnErr result (self.new ≡ self.old) }
    {
        match self.spaces.add(space) {
            Ok(s) => Ok(s),
            Err(back) => Err(back),
        }
    }

    /// The `k`-th live space by number, from 0; `None` exactly past the last.
    pub fn space(&self, k: u32) -> Option<(SpaceNo, &DataSpace)>
        ensures { option_map (λ s. (s.0.0, s.1.now)) result ≡ slice_get self.now.spaces k }
    {
        self.spaces.space(k)
    }
}
