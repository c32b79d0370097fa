//! The kinds of many cells.
ghost use Rattle.std.specs.Prelude.{◌≡◌, ◌++◌, [], length, IfOk, OnOk, OnErr};
ghost use Rattle.eu_base.specs.Shapes.{cell_kinds};
ghost use Rattle.cell_kinds.specs.Kinds.{all_kinds};

use crate::shape::count;
use eu_base::{List, NoMemory, Shape};
use std::alloc::Global;
use std::marker::Model;

/// The kinds of cells, which contracts see as a list of them. It takes memory for the shapes of the cells alone.
#[derive(Drop)]
pub struct CellKinds {
    shapes: List<Shape>,
    count: usize,
}

impl Model for CellKinds {
    ghost use Rattle.std.specs.Prelude.{◌≡◌, List, length};
    ghost use Rattle.eu_base.specs.declared.value.Kind.{Kind};

    ghost Value = { List Kind };

    ghost use Rattle.cell_kinds.specs.Kinds.{all_kinds};

    ghost view = { λ kinds. all_kinds kinds.shapes };

    ghost invariant = { λ kinds. kinds.count ≡ length (all_kinds kinds.shapes) };
}

impl CellKinds {
    /// Those of no cells. It takes no memory before the first `push`.
    pub fn new(alloc: Global) -> CellKinds
        ensures { result ≡ [] }
    {
        CellKinds {
            shapes: List::new(alloc),
            count: 0,
        }
    }

    /// Adds the kinds of a shape's cells at the end. A refusal changes nothing; it comes also where the cells cannot be counted.
    pub fn push(&mut self, shape: Shape) -> Result<(), NoMemory>
        ensures ok { OnOk result (self.new ≡ self.old ++ cell_kinds shape) }
        ensures err { OnErr result (self.new ≡ self.old) }
    {
        let cells = count(&shape).ok_or(NoMemory)?;
        let count = self.count.checked_add(cells).ok_or(NoMemory)?;
        self.shapes.push(shape)?;
        self.count = count;
        Ok(())
    }

    /// The number of cells.
    pub fn len(&self) -> usize
        ensures { result ≡ length self.now }
    {
        self.count
    }

    /// The shapes of the cells, in order.
    pub fn shapes(&self) -> &[Shape]
        ensures { all_kinds result.now ≡ self.now }
    {
        self.shapes.as_slice()
    }

    /// The same kinds in memory of their own.
    pub fn try_clone(&self, alloc: Global) -> Result<CellKinds, NoMemory>
        ensures { IfOk result (λ copy. copy ≡ self.now) }
    {
        let mut copy = CellKinds::new(alloc);
        for shape in self.shapes.as_slice() {
            copy.push(shape.try_clone(alloc)?)?;
        }
        Ok(copy)
    }
}
