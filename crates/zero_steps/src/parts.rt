//! Values of several cells, and parts of them.
ghost use Rattle.std.specs.Prelude.{◌≡◌, take, drop, IfOk};
ghost use Rattle.code_form.specs.Machine.{operand_of};
ghost use Rattle.zero_state.specs.Finds.{all_of};

use code_form::Operand;
use eu_base::{List, NoMemory, Value};
use std::alloc::Global;

/// A value as it is pushed.
pub fn operand_of(mut values: List<Value>) -> Operand
    ensures { result ≡ operand_of values }
{
    if values.len() != 1 {
        return Operand::Aggregate(values);
    }
    match values.pop() {
        Some(value) => Operand::Value(value),
        None => unreachable!(),
    }
}

/// So many cells of a pushed value, from one on.
pub fn part_of(
    alloc: Global,
    operand: Operand,
    from: usize,
    size: usize,
) -> Result<Operand, NoMemory>
    ensures { IfOk result (λ part. part ≡ operand_of (take size (drop from (all_of operand)))) }
{
    let mut values = values_of(alloc, operand)?;
    let from = from.min(values.len());
    let mut part = values.split_off(from)?;
    part.truncate(size);
    Ok(operand_of(List::from_vec(part)))
}

// The values of the cells of a pushed value; none where a place was pushed.
fn values_of(alloc: Global, operand: Operand) -> Result<Vec<Value>, NoMemory>
    ensures { IfOk result (λ values. values.items ≡ all_of operand) }
{
    match operand {
        Operand::Value(value) => {
            let mut values = Vec::new(alloc);
            values.push(value)?;
            Ok(values)
        }
        Operand::Place(_) => Ok(Vec::new(alloc)),
        Operand::Aggregate(values) => Ok(values.into_vec()),
    }
}
