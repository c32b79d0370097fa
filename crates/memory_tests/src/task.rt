//! A task's memory and that of a son, over one pool of which pages stand in blocks.
ghost use Rattle.std.specs.Prelude.{◌≡◌, ◌++◌};
ghost use Rattle.page_table.specs.Sharing.{Agree};
ghost use Rattle.space_memory.specs.Memories.{roots};

use crate::blocks::{BLOCKS, Blocks};
use crate::{cells, space_steps};
use cell_layout::cells as cell_count;
use eu_base::{Bytes, CELLS, NoMemory, Shape};
use page_pool::Pool;
use space_memory::{MOST_LIVE, SpaceMemory};
use std::alloc::Global;
use std::mem;
use task_numbers::SpaceNo;

/// A memory, on which each call works, and another, with their pool and its blocks. What a call may not be asked is not done.
#[derive(Drop)]
pub struct Task {
    pool: Pool,
    pub blocks: Blocks,
    pub memory: SpaceMemory,
    other: SpaceMemory,
    ghost agree: { ∥ Agree pool (roots memory ++ roots other) ∥₁ },
}

impl Task {
    pub fn new(alloc: Global) -> Result<Task, NoMemory> {
        Ok(Task {
            pool: Pool::paged(alloc, 1)?,
            blocks: Blocks::new(alloc)?,
            memory: SpaceMemory::new(alloc),
            other: SpaceMemory::new(alloc),
        })
    }

    /// The other memory becomes that of a son.
    pub fn inherit(&mut self) -> bool {
        prove!(self.memory.count() <= MOST_LIVE);
        prove!(self.other.count() <= MOST_LIVE);
        match self.memory.inherit(&mut self.pool) {
            Ok(son) => {
                mem::replace(&mut self.other, son).end(&mut self.pool);
                true
            }
            Err(_) => false,
        }
    }

    /// Calls work on the other memory.
    pub fn turn(&mut self) {
        mem::swap(&mut self.memory, &mut self.other);
    }

    /// An empty space, or a copy of one that lives.
    pub fn make(&mut self, from: Option<SpaceNo>) -> Option<SpaceNo> {
        let there = match from {
            Some(s) => self.memory.live(s),
            None => true,
        };
        prove!(self.other.count() <= MOST_LIVE);
        if there && self.memory.count() < MOST_LIVE && self.memory.last_number() < 1000 {
            let made = self.memory.make(&mut self.pool, from).ok();
            prove!(self.memory.count() <= MOST_LIVE);
            made
        } else {
            None
        }
    }

    pub fn forget(&mut self, s: SpaceNo) {
        self.memory.forget(&mut self.pool, s);
    }

    pub fn fill(&mut self, s: SpaceNo, shape: &Shape) -> bool {
        if self.memory.live(s)
            && self.memory.has_shape(s).is_none()
            && cell_count(shape) <= u32::from(CELLS)
        {
            self.memory
                .fill(&mut self.pool, s, shape, &mut self.blocks)
                .is_ok()
        } else {
            false
        }
    }

    pub fn set_kind(&mut self, s: SpaceNo, n: i16) {
        if self.memory.live(s) {
            self.memory.set_kind(s, n);
        }
    }

    pub fn name(&mut self, name: &[u8], s: SpaceNo) {
        if self.memory.live(s) && self.memory.named(name).is_none() {
            let _named = self.memory.name(name, s).is_ok();
        }
    }

    pub fn unname(&mut self, name: &[u8]) {
        self.memory.unname(name);
    }

    /// A space is taken out, and given under the next number.
    pub fn renumber(&mut self, s: SpaceNo) -> Option<SpaceNo> {
        if self.memory.live(s)
            && self.memory.count() < MOST_LIVE
            && self.memory.last_number() < 1000
        {
            let space = self.memory.take(s);
            match self.memory.give(space) {
                Ok(s) => Some(s),
                Err(space) => {
                    space.forget(&mut self.pool);
                    None
                }
            }
        } else {
            None
        }
    }

    /// Does a step over cells.
    pub fn go(&mut self, alloc: Global, out: &mut Bytes, step: &[u8]) {
        prove!(self.memory.count() <= MOST_LIVE);
        prove!(self.other.count() <= MOST_LIVE);
        let mut lent = self.memory.over(&mut self.pool, &mut self.blocks);
        cells::go(alloc, out, &mut lent, step);
    }

    /// Does a step over data spaces, through the memory as it is lent.
    pub fn go_over(&mut self, alloc: Global, out: &mut Bytes, shape: &Shape, step: &[u8]) {
        prove!(self.memory.count() <= MOST_LIVE);
        prove!(self.other.count() <= MOST_LIVE);
        let mut lent = self.memory.over(&mut self.pool, &mut self.blocks);
        space_steps::go(alloc, out, &mut lent, shape, step);
    }

    // A content page that is changed settles in the block of its own number, where there is one.
    fn settle_page(&mut self, p: u32) {
        if p < BLOCKS && self.pool.lives(p) && !self.pool.pinned(p) && self.pool.changed(p) {
            let mut bytes = [0; 512];
            self.pool.peek(p, 0, &mut bytes);
            self.blocks.put(p, &bytes);
            self.pool.settle(p, p);
        }
    }

    /// The content pages that are changed leave memory.
    pub fn settle(&mut self) {
        for p in 0..self.pool.past() {
            self.settle_page(p);
        }
    }

    pub fn clear_run(&mut self) {
        self.memory.clear_run(&mut self.pool);
    }

    /// Ends both, and tells how many pages are left.
    pub fn ended(self) -> u32
        ensures { result ≡ 0 }
    {
        let Task {
            mut pool,
            memory,
            other,
            ..
        } = self;
        memory.end(&mut pool);
        other.end(&mut pool);
        pool.used()
    }
}
