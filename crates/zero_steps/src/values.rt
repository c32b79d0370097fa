//! Values that an instruction takes, and puts back where it stops.
ghost use Rattle.std.specs.Prelude.{◌≡◌, [], List, true, OnOk, IfOk};
ghost use Rattle.eu_base.specs.declared.value.Value.{Value as Values};
ghost use Rattle.eu_base.specs.Room.{bytes_fit};
ghost use Rattle.code_form.specs.declared.operand.Operand.{Operand};
ghost use Rattle.code_form.specs.Machine.{Move, on_values, bytes_on, bytes_of};
ghost use Rattle.zero_state.specs.Finds.{TopValues};
ghost use Rattle.zero_steps.specs.Giving.{put_on};

use code_form::Operand;
use eu_base::{NoMemory, Value};
use std::alloc::Global;
use zero_state::Stack;

/// Takes so many values, the newest last.
pub fn pop_values(stack: &mut Stack, alloc: Global, count: usize) -> Result<Vec<Value>, NoMemory>
    requires { TopValues count stack.old.ops }
    ensures taken { IfOk result (λ values. (go : List Values → List Operand → Move) → on_values count [] stack.old.ops go ≡ go values.items stack.new.ops) }
    ensures back { IfOk result (λ values. stack.old ≡ record stack.new { ops = put_on values.items stack.new.ops }) }
{
    let mut values = Vec::new(alloc);
    for _ in 0..count {
        values.push(stack.pop_value())?;
    }
    values.reverse();
    Ok(values)
}

/// Pushes values that have room, the last one at the end.
pub fn push_values(stack: &mut Stack, mut values: Vec<Value>) -> Result<(), NoMemory>
    requires { bytes_fit (bytes_on (put_on values.items stack.old.ops) (bytes_of stack.old.frames)) ≡ true }
    ensures { OnOk result (stack.new ≡ record stack.old { ops = put_on values.items stack.old.ops }) }
{
    values.reverse();
    while let Some(value) = values.pop() {
        stack.push(Operand::Value(value))?;
    }
    Ok(())
}
