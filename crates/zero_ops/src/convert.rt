//! Numbers and codes of texts, and texts of these.
ghost use Rattle.std.specs.Prelude.{◌≡◌, Ok};
ghost use Rattle.std.specs.Fmt.{signed_decimal};
ghost use Rattle.eu_base.specs.Operations.{fitted, fitting, byte_of, ranged};
ghost use Rattle.eu_base.specs.Texts.{code_of, trimmed, number_spelled};
ghost use Rattle.zero_ops.specs.Given.{Gives};

use crate::error::{Fault, OpError};
use crate::limit::{check_length, fitting};
use crate::trim::trimmed;
use eu_base::{Value, decimal};
use std::alloc::Global;
use std::str;

/// `code (t)`
pub fn code_of(t: &[u8]) -> Value
    ensures { fitted (code_of t.now) ≡ Ok result }
{
    match t.first() {
        Some(byte) => Value::Int(i16::from(*byte)),
        None => Value::Int(-1),
    }
}

/// `code (i)`
pub fn text_of_code(alloc: Global, i: i16) -> Result<Value, OpError>
    ensures { Gives result (byte_of i) }
{
    match u8::try_from(i) {
        Ok(byte) => fitting(alloc, &[byte]),
        Err(_) => Err(OpError::Stop(Fault::BadCode)),
    }
}

/// `text (i)`
pub fn text_of_number(alloc: Global, i: i16) -> Result<Value, OpError>
    ensures { Gives result (fitting (signed_decimal i)) }
{
    let digits = decimal(alloc, i64::from(i))?;
    check_length(digits.as_slice().len())?;
    Ok(Value::Text(digits))
}

/// `int (t)`
pub fn number_in(t: &[u8]) -> i16
    ensures { result ≡ ranged (number_spelled (trimmed t.now)) }
{
    match str::from_utf8(trimmed(t)) {
        Ok(digits) => digits.parse().unwrap_or(0),
        Err(_) => 0,
    }
}
