//! Tasks over one pool.
ghost use Rattle.std.specs.Prelude.{◌≡◌, ◌+◌, ◌<◌, ◌≤◌, length, OnOk};
ghost use Rattle.eu_base.specs.Spaces.{IsPasted};
ghost use Rattle.page_pool.specs.Pool.{Known};
ghost use Rattle.page_table.specs.Frames.{content_at};
ghost use Rattle.page_table.specs.Sharing.{Agree, most_spaces};
ghost use Rattle.memory_tests.specs.Tasks.{roots_of, task_at, zeros, whole, SameBytes, IsCopy, ChangesTask, LosesTask};

use crate::space_task::Task;
use crate::spaces;
use eu_base::{MemFault, NoMemory};
use page_pool::Pool;
use std::alloc::Global;

/// Tasks over one pool.
#[derive(Drop)]
pub struct System {
    /// The pages of all tasks.
    pub pool: Pool,
    /// The tasks, by number from 0.
    pub tasks: Vec<Task>,
    ghost agree: { ∥ Agree pool (roots_of tasks.items) ∥₁ },
    ghost known: { Known zeros pool },
}

impl System {
    /// Writes to the first space of a task.
    pub fn write(&mut self, k: usize, at: u32, from: &[u8]) -> Result<(), MemFault>
        requires task { k < length self.old.tasks.items }
        requires within { at + length from.now ≤ 262144 }
        ensures written { OnOk result (IsPasted (content_at (whole self.old.pool) (task_at self.old.tasks.items k).first.root)
            (content_at (whole self.new.pool) (task_at self.new.tasks.items k).first.root) at from.now) }
        ensures second { SameBytes (whole self.old.pool) (whole self.new.pool) (task_at self.old.tasks.items k).second.root }
        ensures others { ChangesTask (whole self.old.pool) (whole self.new.pool) self.old.tasks.items self.new.tasks.items k }
    {
        spaces::write(&mut self.tasks[k], &mut self.pool, at, from)?;
        Ok(())
    }

    /// Puts a number into a cell of the first space of a task, through a loan.
    pub fn put(&mut self, k: usize, cell: u16, number: u64) -> Result<(), MemFault>
        requires task { k < length self.old.tasks.items }
        requires cell { cell < 16384 }
        ensures others { ChangesTask (whole self.old.pool) (whole self.new.pool) self.old.tasks.items self.new.tasks.items k }
    {
        spaces::put(&mut self.tasks[k], &mut self.pool, cell, number)
    }

    /// Lets the second space of a task be a copy of the first of another.
    pub fn copy(&mut self, alloc: Global, from: usize, to: usize) -> Result<(), NoMemory>
        requires from { from < length self.old.tasks.items }
        requires to { to < length self.old.tasks.items }
        requires few { length (roots_of self.old.tasks.items) < most_spaces }
        ensures copied { OnOk result (IsCopy (whole self.old.pool) (whole self.new.pool) (task_at self.old.tasks.items from).first (task_at self.new.tasks.items to).second) }
        ensures first { SameBytes (whole self.old.pool) (whole self.new.pool) (task_at self.old.tasks.items to).first.root }
        ensures others { ChangesTask (whole self.old.pool) (whole self.new.pool) self.old.tasks.items self.new.tasks.items to }
    {
        let copy = self.tasks[from].first.copy(alloc, &mut self.pool)?;
        spaces::give(&mut self.tasks[to], &mut self.pool, copy);
        Ok(())
    }

    /// Ends a task.
    pub fn end(&mut self, k: usize)
        requires task { k < length self.old.tasks.items }
        ensures others { LosesTask (whole self.old.pool) (whole self.new.pool) self.old.tasks.items self.new.tasks.items k }
    {
        let task = self.tasks.remove(k);
        spaces::end(task, &mut self.pool);
    }
}
