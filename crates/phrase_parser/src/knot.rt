//! Phrases in phrases.

ghost use Rattle.std.specs.Prelude.{◌≤◌};
ghost use Rattle.elan_grammar.specs.Kinds.{word_level};
ghost use Rattle.elan_grammar.specs.Rule.{Parses, AtMost, Below, IsTall};
ghost use Rattle.elan_grammar.specs.Units as spec;
ghost use Rattle.elan_grammar.specs.Depth.{type_depth, expr_depth, unit_depth, deepest_of};

use crate::Grammar;
use crate::phrases::Phrases;
use containers::List;
use elan_cursor::Cursor;
use elan_grammar::ParseError;
use elan_grammar::tall::Tall;
use elan_tree::{Expr, TypePhrase, Unit};
use std::alloc::Global;

/// An expression less than `depth` deep.
#[cycle(phrases)]
pub fn expression(
    alloc: Global,
    cursor: &mut Cursor<'_>,
    depth: u16,
    level: u8,
) -> Result<Tall<Expr>, ParseError>
    requires { level ≤ word_level }
    ensures { Parses ((spec.phrases depth).level level) expr_depth (Below depth) cursor.old.rest.now result cursor.new.rest.now }
{
    if depth == 0 {
        return Err(cursor.refuse());
    }
    let grammar = Grammar {
        alloc,
        depth: depth - 1,
        expression,
        units,
    };
    grammar.level(cursor, level)
}

/// Units less than `depth` deep.
#[cycle(phrases)]
pub fn units(
    alloc: Global,
    cursor: &mut Cursor<'_>,
    depth: u16,
) -> Result<Tall<List<Unit>>, ParseError>
    ensures { Parses (spec.phrases depth).units (deepest_of unit_depth) (Below depth) cursor.old.rest.now result cursor.new.rest.now }
{
    if depth == 0 {
        return Err(cursor.refuse());
    }
    let phrases = Phrases {
        alloc,
        depth: depth - 1,
        expression,
        units,
    };
    phrases.units(cursor)
}

/// A declaration at most `depth` deep, behind its type.
pub fn declared(
    alloc: Global,
    cursor: &mut Cursor<'_>,
    depth: u16,
    of: Tall<TypePhrase>,
) -> Result<Tall<Unit>, ParseError>
    requires tall { IsTall type_depth (AtMost depth) of }
    ensures { Parses (spec.declared (spec.phrases depth) depth of.tree) unit_depth (AtMost depth) cursor.old.rest.now result cursor.new.rest.now }
{
    let phrases = Phrases {
        alloc,
        depth,
        expression,
        units,
    };
    phrases.declared(cursor, of)
}

/// A unit at most `depth` deep that begins with no type.
pub fn plain(alloc: Global, cursor: &mut Cursor<'_>, depth: u16) -> Result<Tall<Unit>, ParseError>
    ensures { Parses (spec.plain (spec.phrases depth) depth) unit_depth (AtMost depth) cursor.old.rest.now result cursor.new.rest.now }
{
    let phrases = Phrases {
        alloc,
        depth,
        expression,
        units,
    };
    phrases.plain(cursor)
}
