//! Operations of every kind.
ghost use Rattle.std.specs.Prelude.{◌≡◌, false, slice_index_or};
ghost use Rattle.eu_base.specs.Operations.{result_of};
ghost use Rattle.zero_ops.specs.Given.{given_of, Gives, has_texts};

use crate::error::{Fault, OpError};
use crate::numbers::on_numbers;
use crate::texts::on_texts;
use eu_base::{Operation, Value};
use std::alloc::Global;

/// The result of an operation, or why the program stops. An operand that is missing, or of another kind, counts as blank.
pub fn apply(alloc: Global, operation: Operation, operands: &[Value]) -> Result<Value, OpError>
    ensures { Gives result (result_of operation operands.now) }
{
    match operation {
        Operation::OnTexts(operation) => on_texts(alloc, operation, operands),
        _ => Ok(on_cells(operation, operands)?),
    }
}

// The result of an operation on numbers and truth values.
fn on_cells(operation: Operation, operands: &[Value]) -> Result<Value, Fault>
    requires { has_texts operation ≡ false }
    ensures { given_of result ≡ result_of operation operands.now }
{
    let blank = Value::Int(0);
    on_numbers(
        operation,
        operand(operands, 0, &blank),
        operand(operands, 1, &blank),
    )
}

fn operand<'a>(operands: &'a [Value], place: usize, blank: &'a Value) -> &'a Value
    ensures { result.now ≡ slice_index_or operands.now place blank.now }
{
    match operands.get(place) {
        Some(value) => value,
        None => blank,
    }
}
