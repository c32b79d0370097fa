//! A command over a memory, to bytes and back.
ghost use Rattle.std.specs.Prelude.{◌≡◌, ◌≢◌, ℕ, List, Err, IfOk};
ghost use Rattle.eu_base.specs.Requests.{Answer};
ghost use Rattle.byte_spelling.specs.declared.reading.ReadError.TheVariants as errors;
ghost use Rattle.code_form.specs.Program.{Program};
ghost use Rattle.code_form.specs.Machine.{Mem};
ghost use Rattle.zero_state.specs.Stepping.{control_of};
ghost use Rattle.state_spelling.specs.Stands.{StandsHere, RecordStands};

use crate::record::record_bytes;
use crate::revival::revive_bytes;
use byte_spelling::ReadError;
use code_form::Code;
use eu_base::{Bytes, Memory, NoMemory};
use std::alloc::Global;
use zero_state::State;

/// What is kept of a command: with the memory as it is, it stands where the command stands.
pub fn record_over<M: Memory>(alloc: Global, state: &State, _m: &M) -> Result<Bytes, NoMemory>
    ensures { IfOk result (λ bytes. (p : Program) (was : Mem) (spent : ℕ) (replies : List Answer) →
        StandsHere p was spent replies (control_of state.now) (M.holds _m.now) (M.heads _m.now) →
        RecordStands p was spent replies bytes (M.holds _m.now) (M.heads _m.now)) }
{
    record_bytes(alloc, state)
}

/// A command of this code from what was kept of it: with a memory with which the bytes stand somewhere, it stands there.
pub fn revive_over<M: Memory>(
    alloc: Global,
    code: &Code,
    bytes: &[u8],
    _m: &M,
) -> Result<State, ReadError>
    ensures stands { IfOk result (λ s. (was : Mem) (spent : ℕ) (replies : List Answer) →
        RecordStands code.now was spent replies bytes.now (M.holds _m.now) (M.heads _m.now) →
        StandsHere code.now was spent replies (control_of s) (M.holds _m.now) (M.heads _m.now)) }
    ensures refused { result ≡ Err errors.NotSpelled → (was : Mem) (spent : ℕ) (replies : List Answer) →
        RecordStands code.now was spent replies bytes.now (M.holds _m.now) (M.heads _m.now) → ⊥ }
{
    revive_bytes(alloc, code, bytes)
}
