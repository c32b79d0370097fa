//! A command that stops by itself.
ghost use Rattle.std.specs.Prelude.{◌≡◌};
ghost use Rattle.eu_base.specs.Values.{text_of};
ghost use Rattle.code_form.specs.declared.instr.Instr.TheVariants as instrs;
ghost use Rattle.code_form.specs.Machine.{Mem};
ghost use Rattle.zero_state.specs.Finds.{TopValue};
ghost use Rattle.zero_state.specs.Stepping.{position_of, control_of, IsReady, GoesOn};

use code_form::Waits;
use eu_base::{Bytes, Stop, Value};
use std::alloc::Global;
use zero_state::State;

/// DO of errorstop. The command goes on to its next instruction, and stops before it with the text on top. It stands outside the
/// loop of a run, which is quicker so.
#[inline(never)]
pub fn error_stop(s: &mut State)
    requires ready { IsReady s.old }
    requires finds { TopValue s.old.stack.ops }
    ensures { (mem : Mem) → GoesOn instrs.ErrorStop (position_of s.old) mem (control_of s.new) mem }
{
    let text = text_of(s.alloc, s.stack.pop_value());
    s.waits = Waits::Refused(Stop::Own(text));
    s.pc += 1;
}

// The text that a value is; "" where it is none.
fn text_of(alloc: Global, value: Value) -> Bytes
    ensures { result ≡ text_of value }
{
    match value {
        Value::Int(_) | Value::Truth(_) | Value::Task(_) | Value::Space(_) => Bytes::new(alloc),
        Value::Text(text) => text,
    }
}
