//! What is made of what was read.

ghost use Rattle.std.specs.Prelude.{◌≡◌, [], ◌∷◌, ◌++◌, max, Some, Ok, IfOk};
ghost use Rattle.elan_grammar.specs.Pairs.{IsMade};
ghost use Rattle.elan_cursor.specs.Passing.{both_of, first_of};

use containers::{Boxed, List};
use elan_grammar::ParseError;
use elan_grammar::tall::{Tall, and, boxed, with_next};
use std::alloc::Global;

/// What was read, where something was read behind it.
pub fn before<T: Drop>(
    read: Result<T, ParseError>,
    behind: Result<u32, ParseError>,
) -> Result<T, ParseError>
    ensures { result ≡ first_of read behind }
{
    let (read, _) = and(read?, behind)?;
    Ok(read)
}

/// What was read, and what was read behind it. The first failure is kept: what stands behind it was read to no purpose, but the
/// caller needs no exit while it holds a tree.
pub fn both<A: Drop, B: Drop>(
    read: Result<A, ParseError>,
    behind: Result<B, ParseError>,
) -> Result<(A, B), ParseError>
    ensures both { IfOk result (λ p. (read ≡ Ok p.0) × (behind ≡ Ok p.1)) }
    ensures first { result ≡ both_of read behind }
{
    and(read?, behind)
}

/// A list with one more, where both were read.
pub fn longer<T: Drop>(
    row: Result<Tall<List<T>>, ParseError>,
    next: Result<Tall<T>, ParseError>,
) -> Result<Tall<List<T>>, ParseError>
    ensures { IsMade (λ p list. (list.tree ≡ p.0.tree ++ p.1.tree ∷ []) × (list.height ≡ max p.0.height p.1.height))
        (both_of row next) result }
{
    with_next(row?, next)
}

/// What was read, and how deep it is.
pub fn tall<T: Drop>(read: Result<T, ParseError>, height: u32) -> Result<Tall<T>, ParseError>
    ensures { IsMade (λ x made. (made.tree ≡ x) × (made.height ≡ height)) read result }
{
    let tree = read?;
    Ok(Tall { tree, height })
}

/// What was read where it might be missing.
pub fn some<T: Drop>(read: Result<Tall<T>, ParseError>) -> Result<Tall<Option<T>>, ParseError>
    ensures { IsMade (λ x made. (made.tree ≡ Some x.tree) × (made.height ≡ x.height)) read result }
{
    let read = read?;
    Ok(Tall {
        tree: Some(read.tree),
        height: read.height,
    })
}

/// A value in a box, and what was read behind it.
pub fn boxed_and<A: Drop, B: Drop>(
    alloc: Global,
    value: Tall<A>,
    behind: Result<B, ParseError>,
) -> Result<(Tall<Boxed<A>>, B), ParseError>
    ensures { IsMade (λ b made. (made.0 ≡ value) × (made.1 ≡ b)) behind result }
{
    let (value, behind) = and(value, behind)?;
    let value = boxed(alloc, Ok(value))?;
    Ok((value, behind))
}
