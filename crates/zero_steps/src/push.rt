//! Operands are pushed where they have room.
ghost use Rattle.std.specs.Prelude.{◌≡◌, ℕ, ◌+◌, ◌^◌, ◌<◌, true, IfOk, Some};
ghost use Rattle.code_form.specs.Machine.{Mem, pushes, stage};
ghost use Rattle.code_form.specs.declared.halt.Halt.TheVariants as halts;
ghost use Rattle.zero_ops.specs.Given.{given_of, stop_of};
ghost use Rattle.zero_state.specs.Stepping.{position_of, control_of, scene_of, stage_of, halt_of, has_room, IsReady};
ghost use Rattle.zero_steps.specs.Giving.{fits_with, pushed, GivesSo};

use code_form::Operand;
use eu_base::{NoMemory, Value};
use zero_ops::Fault;
use zero_state::{Next, State};

/// Whether an operand has room. It is pushed then, and the machine goes on; else nothing is done.
// Inlined as the next ones, since a call would pass the operand through memory at each instruction of a program.
#[inline(always)]
pub fn push(s: &mut State, operand: Operand) -> Result<bool, NoMemory>
    requires room { has_room s.old ≡ true }
    requires next { s.old.pc + 1 < 2 ^ 64 }
    ensures room { IfOk result (λ fits. fits ≡ fits_with s.old operand) }
    ensures goes { IfOk result (λ fits. control_of s.new ≡ pushed s.old operand fits) }
{
    if !s.stack.has_room(&operand) {
        return Ok(false);
    }
    s.stack.push(operand)?;
    s.pc += 1;
    Ok(true)
}

/// Pushes an operand, or stops.
#[inline(always)]
pub fn push_on(s: &mut State, operand: Operand) -> Result<Next, NoMemory>
    requires { IsReady s.old }
    ensures { IfOk result (λ next. (mem : Mem) (marks : ℕ) → stage_of (halt_of next) (control_of s.new) (scene_of mem marks) ≡ stage
        (pushes (position_of s.old) operand s.old.stack.ops mem) (position_of s.old) (scene_of mem marks)) }
{
    if !s.stack.has_room(&operand) {
        return Ok(Next::OperandRoom);
    }
    s.stack.push(operand)?;
    s.pc += 1;
    Ok(Next::On)
}

/// Pushes what an operation gives; what stops it, or `None` where the machine goes on.
#[inline(always)]
pub fn give(s: &mut State, given: Result<Value, Fault>) -> Result<Option<Next>, NoMemory>
    requires room { has_room s.old ≡ true }
    requires next { s.old.pc + 1 < 2 ^ 64 }
    ensures { IfOk result (GivesSo (given_of given) s.old s.new) }
{
    match given {
        Ok(value) => {
            if push(s, Operand::Value(value))? {
                Ok(None)
            } else {
                Ok(Some(Next::OperandRoom))
            }
        }
        Err(fault) => Ok(Some(stopped(fault))),
    }
}

/// What comes of an instruction whose operation is stopped.
pub fn stopped(fault: Fault) -> Next
    ensures { halt_of result ≡ Some (halts.Stopped (stop_of fault)) }
{
    match fault {
        Fault::Overflow => Next::Overflow,
        Fault::Division => Next::Division,
        Fault::TextLong => Next::TextLong,
        Fault::BadCode => Next::BadCode,
    }
}
