//! Where a command stands, from bytes.
ghost use Rattle.std.specs.Prelude.{◌≡◌, ◌≢◌, true, Err, IfOk};
ghost use Rattle.byte_spelling.specs.declared.reading.ReadError.TheVariants as errors;
ghost use Rattle.code_form.specs.Machine.{Control};
ghost use Rattle.code_form.specs.Valid.{IsValid, Fits};
ghost use Rattle.zero_state.specs.Stepping.{control_of};
ghost use Rattle.state_spelling.specs.Kept.{kept as spelling};
ghost use Rattle.state_spelling.specs.Standing.{kept_of};
ghost use Rattle.state_spelling.specs.Revival.{IsRevived};

use crate::frames::revive;
use crate::read;
use byte_spelling::ReadError;
use code_form::Code;
use std::alloc::Global;
use zero_state::State;

fn read_and_revive(alloc: Global, code: &Code, bytes: &[u8]) -> Result<State, ReadError>
    ensures valid { IsValid code.now }
    ensures revived { IsRevived code.now bytes.now result }
{
    let _size = code.len();
    let kept = read(alloc, bytes)?;
    revive(alloc, code, kept)
}

/// Where a command of this code stands, from the bytes that were kept of it.
pub fn revive_bytes(alloc: Global, code: &Code, bytes: &[u8]) -> Result<State, ReadError>
    // What is revived fits the code, and the bytes are what is kept of it.
    ensures fits { IfOk result (λ s. Fits code.now (control_of s)) }
    ensures kept { IfOk result (λ s. bytes.now ≡ spelling.spell (kept_of (control_of s))) }
    // What fits the code is revived from the bytes that are kept of it: it is the same, and is not refused.
    ensures same { (c : Control) → Fits code.now c → spelling.fine (kept_of c) ≡ true → bytes.now ≡ spelling.spell (kept_of c) → IfOk result (λ s. control_of s ≡ c) }
    ensures refused { (c : Control) → Fits code.now c → spelling.fine (kept_of c) ≡ true → bytes.now ≡ spelling.spell (kept_of c) → result ≢ Err errors.NotSpelled }
{
    read_and_revive(alloc, code, bytes)
}
