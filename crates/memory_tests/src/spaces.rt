//! The spaces of a task.
ghost use Rattle.std.specs.Prelude.{◌≡◌, ◌+◌, ◌<◌, ◌≤◌, length, [], ◌∷◌, OnOk};
ghost use Rattle.eu_base.specs.Spaces.{IsPasted};
ghost use Rattle.page_pool.specs.Pool.{Known};
ghost use Rattle.page_table.specs.Frames.{content_at, Frames, Stands};
ghost use Rattle.memory_tests.specs.Tasks.{roots, zeros, whole, SameBytes};

use crate::space_task::Task;
use data_space::DataSpace;
use eu_base::MemFault;
use page_pool::{Nowhere, Pool};
use std::mem;

/// Writes to the first space of a task.
pub fn write(task: &mut Task, pool: &mut Pool, at: u32, from: &[u8]) -> Result<(), MemFault>
    requires within { at + length from.now ≤ 262144 }
    requires agree { Stands pool.old (roots task.old) 0 }
    ensures frames { Frames (whole pool.old) (whole pool.new) (roots task.old) (roots task.new) }
    ensures written { OnOk result (Known zeros pool.old →
        IsPasted (content_at (whole pool.old) task.old.first.root) (content_at (whole pool.new) task.new.first.root) at from.now) }
    ensures second { SameBytes (whole pool.old) (whole pool.new) task.old.second.root }
    ensures same { task.new.second ≡ task.old.second }
{
    task.first.write(pool, at, from, &mut Nowhere)
}

/// Puts a number into a cell of the first space of a task, through a loan.
pub fn put(task: &mut Task, pool: &mut Pool, cell: u16, number: u64) -> Result<(), MemFault>
    requires cell { cell < 16384 }
    requires agree { Stands pool.old (roots task.old) 0 }
    ensures frames { Frames (whole pool.old) (whole pool.new) (roots task.old) (roots task.new) }
    ensures same { task.new.second ≡ task.old.second }
{
    put_cell(&mut task.first, pool, cell, number)
}

// Puts a number into a cell of a space.
fn put_cell(space: &mut DataSpace, pool: &mut Pool, cell: u16, number: u64) -> Result<(), MemFault>
    requires cell { cell < 16384 }
    requires agree { Stands pool.old (space.old.root ∷ []) 0 }
    ensures frames { Frames (whole pool.old) (whole pool.new) (space.old.root ∷ []) (space.new.root ∷ []) }
{
    let mut nowhere = Nowhere;
    let mut lent = space.over(pool, &mut nowhere);
    cell_layout::put(&mut lent, cell, number)
}

/// Puts a space in the place of the second, which is forgotten.
pub fn give(task: &mut Task, pool: &mut Pool, space: DataSpace)
    requires agree { Stands pool.old (space.root ∷ roots task.old) 0 }
    ensures frames { Frames (whole pool.old) (whole pool.new) (space.root ∷ roots task.old) (roots task.new) }
    ensures first { SameBytes (whole pool.old) (whole pool.new) task.old.first.root }
    ensures given { SameBytes (whole pool.old) (whole pool.new) space.root }
    ensures same { task.new ≡ record { first = task.old.first; second = space } }
{
    let was = mem::replace(&mut task.second, space);
    was.forget(pool);
}

/// Lets the spaces of a task go.
pub fn end(task: Task, pool: &mut Pool)
    requires agree { Stands pool.old (roots task) 0 }
    ensures frames { Frames (whole pool.old) (whole pool.new) (roots task) [] }
{
    let Task { first, second } = task;
    first.forget(pool);
    second.forget(pool);
}
