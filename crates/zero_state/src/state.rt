//! Where the machine stands.
ghost use Rattle.std.specs.Prelude.{◌≡◌, false, IfOk};
ghost use Rattle.code_form.specs.declared.waits.Waits.TheVariants as waits;
ghost use Rattle.zero_state.specs.Stepping.{due};

use crate::stack::Stack;
use code_form::{Halt, Waits};
use eu_base::NoMemory;
use std::alloc::Global;

/// Where the machine stands in its code.
#[derive(Drop)]
pub struct State {
    pub alloc: Global,
    /// The number of the next instruction.
    pub pc: usize,
    /// What is pending, and the live calls and refinements.
    pub stack: Stack,
    /// The cells in use. Limits of loops stand in the last ones.
    pub used: usize,
    /// What it waits for.
    pub waits: Waits,
}

impl State {
    /// Whether something is waited for, or was, and its reply is there.
    pub fn is_waiting(&self) -> bool
        ensures idle { result ≡ false → self.now.waits ≡ waits.Nothing }
        ensures waits { self.now.waits ≡ waits.Nothing → result ≡ false }
    {
        match self.waits {
            Waits::Nothing => false,
            Waits::Asked(_) | Waits::Given(_) | Waits::Refused(_) => true,
        }
    }

    /// Why the machine rests before its instruction; `None` where nothing is waited for, or the reply is there. It stands outside the
    /// loop of a run, which is quicker so.
    #[inline(never)]
    pub fn due(&self) -> Result<Option<Halt>, NoMemory>
        ensures { IfOk result (λ halt. halt ≡ due self.now.waits) }
    {
        match &self.waits {
            Waits::Nothing | Waits::Given(_) => Ok(None),
            Waits::Asked(request) => Ok(Some(Halt::Asks(request.try_clone(self.alloc)?))),
            Waits::Refused(stop) => Ok(Some(Halt::Stopped(stop.try_clone(self.alloc)?))),
        }
    }
}
