//! Operations on numbers, truth values and tasks.
ghost use Rattle.std.specs.Prelude.{◌≡◌, ◌≢◌, [], ◌∷◌, false, pos, ◌+ℤ◌, ◌-ℤ◌, ◌*ℤ◌, int_div};
ghost use Rattle.eu_base.specs.declared.value.Kind.TheVariants as kinds;
ghost use Rattle.eu_base.specs.declared.value.Value.TheVariants.{Int};
ghost use Rattle.eu_base.specs.Operations.{fitted, divided, remaining, result_of, change_kind, changed};
ghost use Rattle.zero_ops.specs.Given.{given_of, given_number, has_texts};

use crate::error::Fault;
use eu_base::{Change, Operation, Value};

/// The result of an operation on numbers, truth values and tasks. Where it has fewer operands, it does not look at the others.
// Inlined, since a call would pass the values and the result through memory at each operation of a program.
#[inline(always)]
pub fn on_numbers(operation: Operation, left: &Value, right: &Value) -> Result<Value, Fault>
    requires { has_texts operation ≡ false }
    ensures { given_of result ≡ result_of operation (left.now ∷ right.now ∷ []) }
{
    let a = left.number();
    let b = right.number();
    match operation {
        Operation::Plus => fitted(i32::from(a)),
        Operation::Negate => fitted(-i32::from(a)),
        Operation::Add => fitted(sum(a, b)),
        Operation::Subtract => fitted(difference(a, b)),
        Operation::Multiply => fitted(product(a, b)),
        Operation::Divide => divided(a, b),
        Operation::Modulo => remaining(a, b),
        Operation::Absolute => fitted(i32::from(a).abs()),
        Operation::Minimum => fitted(i32::from(a.min(b))),
        Operation::Maximum => fitted(i32::from(a.max(b))),
        Operation::Largest => fitted(32767),
        Operation::Equal => Ok(Value::Truth(a == b)),
        Operation::Unequal => Ok(Value::Truth(a != b)),
        Operation::Less => Ok(Value::Truth(a < b)),
        Operation::LessEqual => Ok(Value::Truth(a <= b)),
        Operation::Greater => Ok(Value::Truth(a > b)),
        Operation::GreaterEqual => Ok(Value::Truth(a >= b)),
        Operation::Same => Ok(Value::Truth(left.truth() == right.truth())),
        Operation::Different => Ok(Value::Truth(left.truth() != right.truth())),
        Operation::And => Ok(Value::Truth(left.truth() && right.truth())),
        Operation::Or => Ok(Value::Truth(left.truth() || right.truth())),
        Operation::Not => Ok(Value::Truth(!left.truth())),
        Operation::NoTask => Ok(Value::Task(0)),
        Operation::NilSpace => Ok(Value::Space(None)),
        Operation::SameTask => Ok(Value::Truth(left.task() == right.task())),
        Operation::OtherTask => Ok(Value::Truth(left.task() != right.task())),
        Operation::OnTexts(_) => unreachable!(),
    }
}

/// What INCR and DECR store in place of a number. CAT is `append`.
pub fn change_number(by: Change, old: i16, operand: &Value) -> Result<i16, Fault>
    requires { change_kind by ≡ kinds.Int }
    ensures { given_number result ≡ changed by (Int old) operand.now }
{
    match by {
        Change::Increase => in_range(sum(old, operand.number())),
        Change::Decrease => in_range(difference(old, operand.number())),
        Change::Append => unreachable!(),
    }
}

fn sum(a: i16, b: i16) -> i32
    ensures { result ≡ a +ℤ b }
{
    i32::from(a) + i32::from(b)
}

fn difference(a: i16, b: i16) -> i32
    ensures { result ≡ a -ℤ b }
{
    i32::from(a) - i32::from(b)
}

fn product(a: i16, b: i16) -> i32
    ensures { result ≡ a *ℤ b }
{
    i32::from(a) * i32::from(b)
}

fn quotient(a: i16, b: i16) -> i32
    requires { b ≢ pos 0 }
    ensures { result ≡ int_div a b }
{
    i32::from(a) / i32::from(b)
}

fn fitted(number: i32) -> Result<Value, Fault>
    ensures { given_of result ≡ fitted number }
{
    Ok(Value::Int(in_range(number)?))
}

fn in_range(number: i32) -> Result<i16, Fault>
    ensures { given_number result ≡ fitted number }
{
    match i16::try_from(number) {
        Ok(number) => Ok(number),
        Err(_) => Err(Fault::Overflow),
    }
}

fn divided(a: i16, b: i16) -> Result<Value, Fault>
    ensures { given_of result ≡ divided a b }
{
    if b == 0 {
        return Err(Fault::Division);
    }
    fitted(quotient(a, b))
}

fn remaining(a: i16, b: i16) -> Result<Value, Fault>
    ensures { given_of result ≡ remaining a b }
{
    if b == 0 {
        return Err(Fault::Division);
    }
    fitted(i32::from(a).rem_euclid(i32::from(b)))
}
