//! How long a text and how large a number may be.
ghost use Rattle.std.specs.Prelude.{◌≡◌, ◌≤◌, ◌<◌, pos, MatchResult};
ghost use Rattle.eu_base.specs.declared.value.TheConstants.{TEXT_BYTES};
ghost use Rattle.eu_base.specs.Operations.{fitted, fitting};
ghost use Rattle.eu_base.specs.Texts.{count_of};
ghost use Rattle.zero_ops.specs.declared.error.Fault.TheVariants.{TextLong};
ghost use Rattle.zero_ops.specs.Given.{Gives};

use crate::error::{Fault, OpError};
use eu_base::{Bytes, TEXT_BYTES, Value};
use std::alloc::Global;

/// Stops where a text would have so many bytes and may not.
pub fn check_length(length: usize) -> Result<(), Fault>
    ensures { MatchResult result (λ _. length ≤ TEXT_BYTES) (λ fault. (TEXT_BYTES < length) × (fault ≡ TextLong)) }
{
    if length > TEXT_BYTES {
        return Err(Fault::TextLong);
    }
    Ok(())
}

/// These bytes as a text.
pub fn fitting(alloc: Global, bytes: &[u8]) -> Result<Value, OpError>
    ensures { Gives result (fitting bytes.now) }
{
    check_length(bytes.len())?;
    Ok(Value::Text(Bytes::from(alloc, bytes)?))
}

/// A number of bytes, or a place, as a number of 16 bits.
pub fn counted(count: usize) -> Result<Value, OpError>
    ensures { Gives result (fitted (pos count)) }
{
    match i16::try_from(count) {
        Ok(number) => Ok(Value::Int(number)),
        Err(_) => Err(OpError::Stop(Fault::Overflow)),
    }
}

/// A number as a count, 0 where it is negative.
pub fn count(n: i16) -> usize
    ensures { result ≡ count_of n }
{
    usize::try_from(n).unwrap_or(0)
}
