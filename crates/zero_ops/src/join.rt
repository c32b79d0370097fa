//! Texts behind one another.
ghost use Rattle.std.specs.Prelude.{◌≡◌, ◌++◌, Ok, OnOk, IfErr, OnErr};
ghost use Rattle.eu_base.specs.declared.value.Value.TheVariants.{Text};
ghost use Rattle.eu_base.specs.Operations.{fitting};
ghost use Rattle.eu_base.specs.Texts.{repeated};
ghost use Rattle.zero_ops.specs.Given.{Gives, HasCause};

use crate::error::OpError;
use crate::limit::{check_length, count};
use eu_base::{Bytes, Value};
use std::alloc::Global;

/// `s + t`
pub fn joined(alloc: Global, s: &[u8], t: &[u8]) -> Result<Value, OpError>
    ensures { Gives result (fitting (s.now ++ t.now)) }
{
    check_length(s.len() + t.len())?;
    let mut text = Bytes::from(alloc, s)?;
    text.append(t)?;
    Ok(Value::Text(text))
}

/// `s CAT t`, in place. An error leaves the text as it was.
pub fn append(s: &mut Bytes, t: &[u8]) -> Result<(), OpError>
    ensures ok { OnOk result (fitting (s.old ++ t.now) ≡ Ok (Text s.new)) }
    ensures err { IfErr result (λ error. HasCause error (fitting (s.old ++ t.now))) }
    ensures kept { OnErr result (s.new ≡ s.old) }
{
    check_length(s.as_slice().len() + t.len())?;
    s.append(t)?;
    Ok(())
}

/// `n * t`
pub fn repeated(alloc: Global, n: i16, t: &[u8]) -> Result<Value, OpError>
    ensures { Gives result (fitting (repeated n t.now)) }
{
    let times = count(n);
    check_length(times.saturating_mul(t.len()))?;
    let mut text = Bytes::new(alloc);
    for done in 0..times {
        text.append(t)?;
    }
    Ok(Value::Text(text))
}
