//! What stands in a form: expressions and units, less deep than the form itself may be.

ghost use Rattle.std.specs.Prelude.{◌<◌, ◌≤◌};
ghost use Rattle.elan_grammar.specs.Kinds.{word_level};
ghost use Rattle.elan_grammar.specs.Rule.{Parses, Below};
ghost use Rattle.elan_grammar.specs.Units as units;
ghost use Rattle.phrase_parser.specs.FormNests.{Nests};
ghost use Rattle.elan_grammar.specs.Depth.{expr_depth, unit_depth, deepest_of};

use containers::List;
use elan_cursor::Cursor;
use elan_grammar::ParseError;
use elan_grammar::tall::Tall;
use elan_tree::{Expr, Unit};
use std::alloc::Global;

/// The phrases less than `depth` deep, which the two functions parse.
#[derive(Drop)]
pub struct Inner<E, U> {
    pub alloc: Global,
    pub depth: u16,
    pub expression: E,
    pub units: U,
}

impl<
    E: Fn(Global, &mut Cursor<'_>, u16, u8) -> Result<Tall<Expr>, ParseError>,
    U: Fn(Global, &mut Cursor<'_>, u16) -> Result<Tall<List<Unit>>, ParseError>,
> Inner<E, U> {
    /// An expression in another phrase.
    pub fn expression(&self, cursor: &mut Cursor<'_>, level: u8) -> Result<Tall<Expr>, ParseError>
        requires nests { Nests E.Fn U.Fn self.now }
        requires level { level ≤ word_level }
        ensures { Parses ((units.phrases self.now.depth).level level) expr_depth (Below self.now.depth) cursor.old.rest.now result cursor.new.rest.now }
    {
        (self.expression)(self.alloc, cursor, self.depth, level)
    }

    /// Units in another phrase.
    pub fn units(&self, cursor: &mut Cursor<'_>) -> Result<Tall<List<Unit>>, ParseError>
        requires { Nests E.Fn U.Fn self.now }
        ensures { Parses ((units.phrases self.now.depth).units) (deepest_of unit_depth) (Below self.now.depth) cursor.old.rest.now result cursor.new.rest.now }
    {
        (self.units)(self.alloc, cursor, self.depth)
    }
}
