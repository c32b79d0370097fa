//! Operands of the kinds that tables give.
ghost use Rattle.std.specs.Prelude.{◌≡◌, true, [], reverse};
ghost use Rattle.eu_base.specs.Room.{bytes_fit};
ghost use Rattle.code_form.specs.Machine.{bytes_on, bytes_of};
ghost use Rattle.state_spelling.specs.Revived as spec;
ghost use Rattle.state_spelling.specs.Coming.{CameTo};
ghost use Rattle.std.specs.Prelude.{OnOk};

use crate::kinds::fits_kind;
use byte_spelling::ReadError;
use code_form::{Operand, OperandKind};
use eu_base::List;
use std::alloc::Global;
use zero_state::Stack;

// Pushes the next operand, where it is of a kind and has room.
fn take_next(
    alloc: Global,
    kind: &OperandKind,
    stack: &mut Stack,
    left: &mut List<Operand>,
) -> Result<(), ReadError>
    requires { bytes_fit (bytes_on stack.old.ops (bytes_of stack.old.frames)) ≡ true }
    ensures takes { CameTo result (spec.next_operand kind.now (bytes_of stack.old.frames) (stack.old.ops, reverse left.old)) (stack.new.ops, reverse left.new) }
    ensures frames { OnOk result (stack.new.frames ≡ stack.old.frames) }
    ensures room { OnOk result (bytes_fit (bytes_on stack.new.ops (bytes_of stack.new.frames)) ≡ true) }
{
    let Some(operand) = left.pop() else {
        return Err(ReadError::NotSpelled);
    };
    if !fits_kind(alloc, &operand, kind)? {
        return Err(ReadError::NotSpelled);
    }
    if !stack.has_room(&operand) {
        return Err(ReadError::NotSpelled);
    }
    stack.push(operand)?;
    Ok(())
}

/// Pushes operands of these kinds, of which the newest stands first.
pub fn take_all(
    alloc: Global,
    kinds: &[OperandKind],
    stack: &mut Stack,
    left: &mut List<Operand>,
) -> Result<(), ReadError>
    requires nothing { stack.old.ops ≡ [] }
    requires room { bytes_fit (bytes_of stack.old.frames) ≡ true }
    ensures takes { CameTo result (spec.taken kinds.now (bytes_of stack.old.frames) (reverse left.old)) (stack.new.ops, reverse left.new) }
    ensures frames { OnOk result (stack.new.frames ≡ stack.old.frames) }
    ensures room { OnOk result (bytes_fit (bytes_on stack.new.ops (bytes_of stack.new.frames)) ≡ true) }
{
    let mut at = kinds.len();
    while at > 0 {
        at -= 1;
        take_next(alloc, &kinds[at], stack, left)?;
    }
    Ok(())
}
