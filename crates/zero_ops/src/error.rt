//! Why an operation gives nothing.
ghost use Rattle.std.specs.Prelude.{◌≡◌};
ghost use Rattle.zero_ops.specs.Given.{stop_of};

use eu_base::{NoMemory, Stop};

/// What stops an operation.
#[derive(Clone, Copy)]
pub enum Fault {
    /// A number past 16 bits.
    Overflow,
    /// A divisor 0.
    Division,
    /// A text of more than 16,000 bytes.
    TextLong,
    /// No code of a byte.
    BadCode,
}

impl Fault {
    /// Why the program stops.
    pub fn stop(self) -> Stop
        ensures { result ≡ stop_of self }
    {
        match self {
            Fault::Overflow => Stop::Overflow,
            Fault::Division => Stop::Division,
            Fault::TextLong => Stop::TextLong,
            Fault::BadCode => Stop::BadCode,
        }
    }
}

/// What keeps an operation from its result.
#[derive(Clone, Copy)]
pub enum OpError {
    /// Memory was refused.
    NoMemory,
    /// The program stops.
    Stop(Fault),
}

impl From<NoMemory> for OpError {
    ghost use Rattle.zero_ops.specs.declared.error.OpError.TheVariants.{NoMemory};

    ghost from_gives = { λ _ error. error ≡ NoMemory };

    fn from(_refusal: NoMemory) -> OpError {
        OpError::NoMemory
    }
}

impl From<Fault> for OpError {
    ghost use Rattle.zero_ops.specs.declared.error.OpError.TheVariants as errors;

    ghost from_gives = { λ fault error. error ≡ errors.Stop fault };

    fn from(fault: Fault) -> OpError {
        OpError::Stop(fault)
    }
}
