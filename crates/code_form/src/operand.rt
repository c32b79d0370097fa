//! What the machine computes with.
ghost use Rattle.std.specs.Prelude.{◌≡◌, ◌-◌, ◌^◌, min, IfOk};
ghost use Rattle.eu_base.specs.Room.{values_bytes};
ghost use Rattle.code_form.specs.Machine.{operand_bytes};

use eu_base::{Addr, CELL_BYTES, List, NoMemory, Shape, Value};
use std::alloc::Global;

/// A pending operand.
#[derive(Drop)]
pub enum Operand {
    /// A value of one cell.
    Value(Value),
    /// The place of a variable.
    Place(Addr),
    /// A row or structure: the values of its cells, in order.
    Aggregate(List<Value>),
}

impl Operand {
    /// The bytes that it takes where it is pending. More than can be counted have no room anyway.
    pub fn bytes(&self) -> usize
        ensures { result ≡ min (operand_bytes self.now) (2 ^ 64 - 1) }
    {
        match self {
            Operand::Value(value) => value.bytes(),
            Operand::Place(_) => CELL_BYTES,
            Operand::Aggregate(values) => bytes_of(values.as_slice()),
        }
    }
}

// The bytes of values one after the other.
#[inline(never)]
fn bytes_of(values: &[Value]) -> usize
    ensures { result ≡ min (values_bytes values.now) (2 ^ 64 - 1) }
{
    let mut bytes = 0usize;
    for value in values {
        bytes = bytes.saturating_add(value.bytes());
    }
    bytes
}

/// The kind of a pending operand.
#[derive(Drop)]
pub enum OperandKind {
    /// A value of a shape.
    Value(Shape),
    /// A place where values of a shape stand.
    Place(Shape),
}

impl OperandKind {
    /// The same kind in memory of its own.
    pub fn try_clone(&self, alloc: Global) -> Result<OperandKind, NoMemory>
        ensures { IfOk result (λ copy. copy ≡ self.now) }
    {
        match self {
            OperandKind::Value(shape) => Ok(OperandKind::Value(shape.try_clone(alloc)?)),
            OperandKind::Place(shape) => Ok(OperandKind::Place(shape.try_clone(alloc)?)),
        }
    }
}
