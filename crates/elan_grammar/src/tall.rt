//! What was read, and how deep it is.

ghost use Rattle.std.specs.Prelude.{◌≡◌, [], ◌∷◌, ◌++◌, max, IfOk};
ghost use Rattle.elan_grammar.specs.Pairs.{second_of, IsMade};

use crate::error::ParseError;
use containers::{Boxed, List};
use std::alloc::Global;

/// What was read, and its depth.
#[derive(Drop)]
pub struct Tall<T> {
    pub tree: T,
    pub height: u32,
}

/// A list of the one item that was read.
pub fn one<T: Drop>(alloc: Global, first: Result<T, ParseError>) -> Result<List<T>, ParseError>
    ensures { IsMade (λ x list. list ≡ x ∷ []) first result }
{
    let mut row = List::new(alloc);
    row.push(first?)?;
    Ok(row)
}

/// A list with one more. Where that could not be read the list is let go here.
pub fn one_more<T: Drop>(row: List<T>, next: Result<T, ParseError>) -> Result<List<T>, ParseError>
    ensures { IsMade (λ x list. list ≡ row ++ x ∷ []) next result }
{
    let mut row = row;
    row.push(next?)?;
    Ok(row)
}

/// A list of the one item that was read, as deep as that.
pub fn single<T: Drop>(
    alloc: Global,
    first: Result<Tall<T>, ParseError>,
) -> Result<Tall<List<T>>, ParseError>
    ensures { IsMade (λ x list. (list.tree ≡ x.tree ∷ []) × (list.height ≡ x.height)) first result }
{
    let first = first?;
    let mut tree = List::new(alloc);
    tree.push(first.tree)?;
    Ok(Tall {
        tree,
        height: first.height,
    })
}

/// A list with one more, as deep as the deepest. Where that could not be read the list is let go here.
pub fn with_next<T: Drop>(
    row: Tall<List<T>>,
    next: Result<Tall<T>, ParseError>,
) -> Result<Tall<List<T>>, ParseError>
    ensures { IsMade (λ x list. (list.tree ≡ row.tree ++ x.tree ∷ []) × (list.height ≡ max row.height x.height)) next result }
{
    let last = next?;
    let mut tree = row.tree;
    tree.push(last.tree)?;
    Ok(Tall {
        tree,
        height: row.height.max(last.height),
    })
}

/// What was read, in a box.
pub fn boxed<T: Drop>(
    alloc: Global,
    read: Result<Tall<T>, ParseError>,
) -> Result<Tall<Boxed<T>>, ParseError>
    ensures { IsMade (λ x box. box ≡ x) read result }
{
    let Tall { tree, height } = read?;
    let tree = Boxed::new(alloc, tree)?;
    Ok(Tall { tree, height })
}

/// A value, and what was read behind it. Where that fails the value is let go here and not in the caller, whose proof would be
/// long with an exit at which a tree is let go.
pub fn and<A: Drop, B: Drop>(value: A, behind: Result<B, ParseError>) -> Result<(A, B), ParseError>
    ensures value { IfOk result (λ p. p.0 ≡ value) }
    ensures behind { behind ≡ second_of result }
{
    match behind {
        Ok(behind) => Ok((value, behind)),
        Err(error) => Err(error),
    }
}
