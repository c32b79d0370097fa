//! Parts of texts. Places outside a text are passed over.
ghost use Rattle.std.specs.Prelude.{◌≡◌, ◌&&◌, nat_le, length, pos};
ghost use Rattle.eu_base.specs.Operations.{fitting};
ghost use Rattle.eu_base.specs.Texts.{subtext, bytes_at};
ghost use Rattle.zero_ops.specs.Given.{Gives};

use crate::error::OpError;
use crate::limit::{count, fitting};
use eu_base::Value;
use std::alloc::Global;

/// `subtext (t, a, b)`, and `t SUB i` where both are `i`
pub fn subtext(alloc: Global, t: &[u8], a: i16, b: i16) -> Result<Value, OpError>
    ensures { Gives result (fitting (subtext t.now a b)) }
{
    fitting(alloc, part(t, count(a), count(b)))
}

/// `subtext (t, a)`
pub fn subtext_from(alloc: Global, t: &[u8], a: i16) -> Result<Value, OpError>
    ensures { Gives result (fitting (subtext t.now a (pos (length t.now)))) }
{
    fitting(alloc, part(t, count(a), t.len()))
}

// The bytes at places from `first` to `last` that exist.
fn part(t: &[u8], first: usize, last: usize) -> &[u8]
    ensures { result.now ≡ bytes_at (λ k. nat_le first k && nat_le k last) 1 t.now }
{
    let end = last.min(t.len());
    let start = first.saturating_sub(1).min(end);
    &t[start..end]
}
