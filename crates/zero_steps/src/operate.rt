//! Operations on what is pending.
ghost use Rattle.std.specs.Prelude.{◌≡◌, ◌<◌, IfOk, Some, None, false, length};
ghost use Rattle.eu_base.specs.Operations.{Given, operand_kinds};
ghost use Rattle.code_form.specs.declared.instr.Instr.TheVariants as instrs;
ghost use Rattle.code_form.specs.Machine.{Mem};
ghost use Rattle.zero_ops.specs.Given.{given_of, has_texts, Gives};
ghost use Rattle.zero_state.specs.Finds.{TopValue, TopValues};
ghost use Rattle.zero_state.specs.Stepping.{position_of, control_of, IsReady, StepsSo};

use crate::push::{give, stopped};
use crate::values::{pop_values, push_values};
use code_form::Operand;
use eu_base::{NoMemory, Operation, Value};
use zero_ops::{Fault, OpError, apply, on_numbers};
use zero_state::{Next, State};

/// Takes the operands of an operation, and pushes its result. A stop leaves them pending.
pub fn operate(s: &mut State, operation: Operation) -> Result<Next, NoMemory>
    requires ready { IsReady s.old }
    requires finds { TopValues (length (operand_kinds operation)) s.old.stack.ops }
    ensures { IfOk result (λ next. (mem : Mem) → StepsSo (instrs.Do operation) (position_of s.old) mem (control_of s.new) mem next) }
{
    match operation {
        Operation::OnTexts(_) => operate_on_values(s, operation),
        _ => operate_on_numbers(s, operation),
    }
}

// An operation of any kind. It stands outside the loop of a run, which is quicker so.
#[inline(never)]
fn operate_on_values(s: &mut State, operation: Operation) -> Result<Next, NoMemory>
    requires ready { IsReady s.old }
    requires finds { TopValues (length (operand_kinds operation)) s.old.stack.ops }
    ensures { IfOk result (λ next. (mem : Mem) → StepsSo (instrs.Do operation) (position_of s.old) mem (control_of s.new) mem next) }
{
    let operands = pop_values(&mut s.stack, s.alloc, operation.operand_kinds().len())?;
    let given = settled(apply(s.alloc, operation, operands.as_slice()))?;
    match give(s, given)? {
        None => Ok(Next::On),
        Some(stop) => {
            push_values(&mut s.stack, operands)?;
            Ok(stop)
        }
    }
}

// What is given, where memory was not refused.
fn settled(given: Result<Value, OpError>) -> Result<Result<Value, Fault>, NoMemory>
    ensures { IfOk result (λ settled. (g : Given) → Gives given g → g ≡ given_of settled) }
{
    match given {
        Ok(value) => Ok(Ok(value)),
        Err(OpError::Stop(fault)) => Ok(Err(fault)),
        Err(OpError::NoMemory) => Err(NoMemory),
    }
}

// An operation on numbers and truth values.
fn operate_on_numbers(s: &mut State, operation: Operation) -> Result<Next, NoMemory>
    requires ready { IsReady s.old }
    requires finds { TopValues (length (operand_kinds operation)) s.old.stack.ops }
    requires numbers { has_texts operation ≡ false }
    ensures { IfOk result (λ next. (mem : Mem) → StepsSo (instrs.Do operation) (position_of s.old) mem (control_of s.new) mem next) }
{
    match operation.operand_kinds().len() {
        0 => operate_on_none(s, operation),
        1 => operate_on_one(s, operation),
        _ => operate_on_two(s, operation),
    }
}

fn operate_on_none(s: &mut State, operation: Operation) -> Result<Next, NoMemory>
    requires ready { IsReady s.old }
    requires arity { length (operand_kinds operation) ≡ 0 }
    requires numbers { has_texts operation ≡ false }
    ensures { IfOk result (λ next. (mem : Mem) → StepsSo (instrs.Do operation) (position_of s.old) mem (control_of s.new) mem next) }
{
    match give(s, on_numbers(operation, &Value::Int(0), &Value::Int(0)))? {
        None => Ok(Next::On),
        Some(stop) => Ok(stop),
    }
}

fn operate_on_one(s: &mut State, operation: Operation) -> Result<Next, NoMemory>
    requires ready { IsReady s.old }
    requires arity { length (operand_kinds operation) ≡ 1 }
    requires finds { TopValue s.old.stack.ops }
    requires numbers { has_texts operation ≡ false }
    ensures { IfOk result (λ next. (mem : Mem) → StepsSo (instrs.Do operation) (position_of s.old) mem (control_of s.new) mem next) }
{
    let [Operand::Value(a)] = s.stack.top(1) else {
        unreachable!()
    };
    match on_numbers(operation, a, &Value::Int(0)) {
        Ok(value) => {
            s.stack.replace_top(Operand::Value(value));
            s.pc += 1;
            Ok(Next::On)
        }
        Err(fault) => Ok(stopped(fault)),
    }
}

fn operate_on_two(s: &mut State, operation: Operation) -> Result<Next, NoMemory>
    requires ready { IsReady s.old }
    requires arity { length (operand_kinds operation) ≡ 2 }
    requires finds { TopValues 2 s.old.stack.ops }
    requires numbers { has_texts operation ≡ false }
    ensures { IfOk result (λ next. (mem : Mem) → StepsSo (instrs.Do operation) (position_of s.old) mem (control_of s.new) mem next) }
{
    let [Operand::Value(a), Operand::Value(b)] = s.stack.top(2) else {
        unreachable!()
    };
    match on_numbers(operation, a, b) {
        Ok(value) => {
            let _b = s.stack.pop_value();
            s.stack.replace_top(Operand::Value(value));
            s.pc += 1;
            Ok(Next::On)
        }
        Err(fault) => Ok(stopped(fault)),
    }
}
