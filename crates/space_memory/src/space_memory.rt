//! What a task has in its memory.
ghost use Rattle.std.specs.Prelude.{◌≡◌, ◌+◌, ◌≤◌, ◌++◌, [], IfOk, OnErr};
ghost use Rattle.eu_base.specs.Cells.{Free};
ghost use Rattle.page_pool.specs.Pool.{used_of, Tell};
ghost use Rattle.space_memory.specs.Below.page_table.specs.Changes.{ChangesOnly, FreesOnly};
ghost use Rattle.space_memory.specs.Below.page_table.specs.Frames.{Over, over, Knows, content_at, Frames, Stands};
ghost use Rattle.space_memory.specs.Below.page_table.specs.Sharing.{Agree};
ghost use Rattle.text_heap.specs.Held.{HoldsCells};
ghost use Rattle.space_memory.specs.Kept.{KeepsBytes};
ghost use Rattle.space_memory.specs.Live.{no_space};
ghost use Rattle.space_memory.specs.Memories.{new_memory, heir, roots, HoldsAll};
ghost use Rattle.eu_base.specs.declared.address.Area.TheVariants.{Run};

use crate::Spaces;
use data_space::DataSpace;
use eu_base::NoMemory;
use page_pool::Pool;
use space_names::Names;
use std::alloc::Global;
use std::marker::Model;
use std::mem;

/// The spaces of a task. All calls that take a pool have the pool of these spaces.
#[derive(Drop)]
pub struct SpaceMemory {
    // The variables of the command that runs.
    pub(crate) run: DataSpace,
    // The variables of packets.
    pub(crate) packets: DataSpace,
    pub(crate) spaces: Spaces,
    // The directory: names of live spaces.
    pub(crate) names: Names,
    pub(crate) alloc: Global,
}

impl Model for SpaceMemory {
    ghost use Rattle.space_memory.specs.Memories.{MemoryData, LeadToSpaces};

    ghost Value = { MemoryData };

    ghost use Rattle.eu_base.specs.contracts.shape.Shape as shapes;
    ghost use Rattle.std.specs.Coded.{codes};

    ghost coded = { Prim.hlevel (codes, shapes.the_row.coded) };

    ghost view = { λ memory. record { run = memory.run; packets = memory.packets; spaces = memory.spaces.spaces; last = memory.spaces.last; names = memory.names } };

    ghost invariant = { λ memory. LeadToSpaces memory.names memory.spaces.spaces };
}

impl SpaceMemory {
    /// A memory whose spaces are empty: over any pool no number and no text is known, and all blocks are free.
    pub fn new(alloc: Global) -> SpaceMemory
        ensures empty { result ≡ new_memory }
        ensures nothing { (pages : Over) → Knows pages → HoldsAll pages result (λ _. Free) }
    {
        SpaceMemory {
            run: DataSpace::nil(),
            packets: DataSpace::nil(),
            spaces: Spaces::new(alloc, 0),
            names: Names::new(alloc),
            alloc,
        }
    }

    /// The space of the command that runs.
    pub fn run_space(&self) -> &DataSpace
        ensures { result.now ≡ self.now.run }
    {
        &self.run
    }

    /// The space of the packets' variables.
    pub fn packet_space(&self) -> &DataSpace
        ensures { result.now ≡ self.now.packets }
    {
        &self.packets
    }

    /// Empties the space of the command that runs, so that nothing is known of it and all its blocks are free, and frees the
    /// pages that no other space has.
    pub fn clear_run(&mut self, pool: &mut Pool)
        requires agree { Stands pool.old (roots self.old) 0 }
        ensures cleared { self.new ≡ record self.old { run = no_space } }
        ensures nothing { (tell : Tell) → HoldsCells Run (content_at (over pool.new tell) self.new.run.root) (λ _. Free) }
        ensures frames { (tell : Tell) → Frames (over pool.old tell) (over pool.new tell) (roots self.old) (roots self.new) }
        ensures keeps { (tell : Tell) → KeepsBytes (over pool.old tell) (over pool.new tell) (roots self.new) }
        ensures frees { FreesOnly pool.old pool.new }
        ensures used { used_of pool.new ≤ used_of pool.old }
    {
        let run = mem::replace(&mut self.run, DataSpace::nil());
        run.forget(pool);
    }

    /// The memory of a son: the variables of packets are equal, and all else is as in a new memory, but that no number of the
    /// father is given again. Pages are shared, and no write of the one is seen by the other. A refusal changes nothing.
    pub fn inherit(&self, pool: &mut Pool) -> Result<SpaceMemory, NoMemory>
        requires agree { Stands pool.old (roots self.now) 2 }
        ensures son { IfOk result (λ son. son ≡ heir self.now) }
        ensures frames { IfOk result (λ son. (tell : Tell) → Frames (over pool.old tell) (over pool.new tell) (roots self.now) (roots self.now ++ roots son)) }
        ensures keeps { (tell : Tell) → KeepsBytes (over pool.old tell) (over pool.new tell) (roots self.now) }
        ensures changes { ChangesOnly pool.old pool.new [] }
        ensures used { used_of pool.new ≤ used_of pool.old + 1 }
        ensures err { OnErr result (pool.new ≡ pool.old) }
    {
        let packets = self.packets.copy(self.alloc, pool)?;
        Ok(SpaceMemory {
            run: DataSpace::nil(),
            packets,
            spaces: Spaces::new(self.alloc, self.spaces.last_number()),
            names: Names::new(self.alloc),
            alloc: self.alloc,
        })
    }

    /// Lets all spaces go.
    pub fn end(self, pool: &mut Pool)
        requires agree { Stands pool.old (roots self) 0 }
        ensures frames { (tell : Tell) → Frames (over pool.old tell) (over pool.new tell) (roots self) [] }
        ensures frees { FreesOnly pool.old pool.new }
        ensures used { used_of pool.new ≤ used_of pool.old }
        ensures last { Agree pool.old (roots self) → used_of pool.new ≡ 0 }
    {
        let SpaceMemory {
            run,
            packets,
            spaces,
            ..
        } = self;
        spaces.end(pool);
        packets.forget(pool);
        run.forget(pool);
    }
}
