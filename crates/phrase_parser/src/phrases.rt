//! What a list of units is read with.

ghost use Rattle.std.specs.Prelude.{◌≡◌};

use crate::{Grammar, Inner};
use containers::List;
use elan_cursor::Cursor;
use elan_grammar::ParseError;
use elan_grammar::tall::Tall;
use elan_tree::{Expr, Unit};
use std::alloc::Global;

/// The rules of units whose parts are less than `depth` deep, which the two functions parse.
#[derive(Drop)]
pub struct Phrases<E, U> {
    pub alloc: Global,
    pub depth: u16,
    pub expression: E,
    pub units: U,
}

impl<
    E: Fn(Global, &mut Cursor<'_>, u16, u8) -> Result<Tall<Expr>, ParseError> + Copy,
    U: Fn(Global, &mut Cursor<'_>, u16) -> Result<Tall<List<Unit>>, ParseError> + Copy,
> Phrases<E, U> {
    /// The rules of loops over the same parts.
    pub fn forms(&self) -> Inner<E, U>
        ensures alloc { result.alloc ≡ self.now.alloc }
        ensures depth { result.depth ≡ self.now.depth }
        ensures expression { result.expression ≡ self.now.expression }
        ensures units { result.units ≡ self.now.units }
    {
        Inner {
            alloc: self.alloc,
            depth: self.depth,
            expression: self.expression,
            units: self.units,
        }
    }

    /// The rules of expressions over the same parts.
    pub fn expressions(&self) -> Grammar<E, U>
        ensures alloc { result.alloc ≡ self.now.alloc }
        ensures depth { result.depth ≡ self.now.depth }
        ensures expression { result.expression ≡ self.now.expression }
        ensures units { result.units ≡ self.now.units }
    {
        Grammar {
            alloc: self.alloc,
            depth: self.depth,
            expression: self.expression,
            units: self.units,
        }
    }
}
