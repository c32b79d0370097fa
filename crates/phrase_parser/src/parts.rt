//! What holds types and no expression: parameters, constants, LET.

ghost use Rattle.std.specs.Prelude.{◌≡◌, ◌≤◌, IfOk};
ghost use Rattle.elan_grammar.specs.Rule.{Gives, Parses, AtMost};
ghost use Rattle.elan_grammar.specs.Types as spec;
ghost use Rattle.elan_grammar.specs.Depth.{formal_depth, let_item_depth, deepest_of};

use crate::type_phrases::{names, types};
use containers::List;
use elan_cursor::Cursor;
use elan_cursor::made::{both, longer, tall};
use elan_cursor::passing::before_sign;
use elan_grammar::ParseError;
use elan_grammar::tall::{Tall, single};
use elan_tree::{Constant, Formal, LetItem, Sign};
use std::alloc::Global;

#[tactic(auto, unfolding(elan_grammar::specs::Types::formal))]
fn formal(alloc: Global, cursor: &mut Cursor<'_>, depth: u16) -> Result<Tall<Formal>, ParseError>
    ensures { Parses (spec.formal depth) formal_depth (AtMost depth) cursor.old.rest.now result cursor.new.rest.now }
{
    let of = types(alloc, cursor, depth);
    let access = cursor.access();
    let (of, (access, names)) = both(of, both(access, names(alloc, cursor)))?;
    let tree = Formal {
        of: of.tree,
        access,
        names,
    };
    Ok(Tall {
        tree,
        height: of.height,
    })
}

/// Parameters, their types at most `depth` deep.
#[tactic(auto, unfolding(elan_grammar::specs::Types::formals), using(elan_grammar::proofs::Turns::turns, elan_grammar::proofs::Deepest::deepens))]
pub fn formals(
    alloc: Global,
    cursor: &mut Cursor<'_>,
    depth: u16,
) -> Result<Tall<List<Formal>>, ParseError>
    ensures { Parses (spec.formals depth) (deepest_of formal_depth) (AtMost depth) cursor.old.rest.now result cursor.new.rest.now }
{
    let mut row = single(alloc, formal(alloc, cursor, depth));
    for _turn in 0..cursor.rest.len() {
        if !cursor.passes_sign(Sign::Comma) {
            return row;
        }
        row = longer(row, formal(alloc, cursor, depth));
    }
    row
}

#[tactic(auto, unfolding(elan_grammar::specs::Types::negative))]
fn negative(cursor: &mut Cursor<'_>) -> Result<Constant, ParseError>
    ensures { Gives ((spec.negative).run cursor.old.rest.now) result cursor.new.rest.now }
{
    let (at, number) = both(cursor.mark(Sign::Minus), cursor.negated())?;
    Ok(Constant::Number(at, number))
}

#[tactic(auto, unfolding(elan_grammar::specs::Types::constant), using(elan_grammar::proofs::Starts::of_types))]
fn constant(alloc: Global, cursor: &mut Cursor<'_>) -> Result<Constant, ParseError>
    ensures { Gives ((spec.constant).run cursor.old.rest.now) result cursor.new.rest.now }
{
    if cursor.sees_sign(Sign::Minus) {
        negative(cursor)
    } else {
        cursor.constant(alloc)
    }
}

#[tactic(auto, unfolding(elan_grammar::specs::Types::let_constant))]
fn let_constant(alloc: Global, cursor: &mut Cursor<'_>) -> Result<LetItem, ParseError>
    ensures { Gives ((spec.let_constant).run cursor.old.rest.now) result cursor.new.rest.now }
{
    let name = before_sign(cursor.ident(alloc), cursor, Sign::Equal);
    let (name, value) = both(name, constant(alloc, cursor))?;
    Ok(LetItem::Constant(name, value))
}

#[tactic(auto, unfolding(elan_grammar::specs::Types::abbreviation))]
fn abbreviation(
    alloc: Global,
    cursor: &mut Cursor<'_>,
    depth: u16,
) -> Result<Tall<LetItem>, ParseError>
    ensures { Parses (spec.abbreviation depth) let_item_depth (AtMost depth) cursor.old.rest.now result cursor.new.rest.now }
{
    let low = cursor.below(0, depth);
    let name = before_sign(cursor.bold(alloc), cursor, Sign::Equal);
    let (name, of) = low.and(both(name, types(alloc, cursor, depth)))?;
    Ok(Tall {
        tree: LetItem::Abbreviation(name, of.tree),
        height: of.height,
    })
}

#[tactic(auto, unfolding(elan_grammar::specs::Types::let_item, elan_grammar::specs::Types::let_constant), using(elan_grammar::proofs::Starts::of_types))]
fn let_item(alloc: Global, cursor: &mut Cursor<'_>, depth: u16) -> Result<Tall<LetItem>, ParseError>
    ensures { Parses (spec.let_item depth) let_item_depth (AtMost depth) cursor.old.rest.now result cursor.new.rest.now }
{
    if cursor.sees_ident() {
        return tall(let_constant(alloc, cursor), 0);
    }
    abbreviation(alloc, cursor, depth)
}

/// The names that a LET defines, their types at most `depth` deep.
#[tactic(auto, unfolding(elan_grammar::specs::Types::let_items), using(elan_grammar::proofs::Turns::turns, elan_grammar::proofs::Deepest::deepens))]
pub fn let_items(
    alloc: Global,
    cursor: &mut Cursor<'_>,
    depth: u16,
) -> Result<Tall<List<LetItem>>, ParseError>
    ensures { Parses (spec.let_items depth) (deepest_of let_item_depth) (AtMost depth) cursor.old.rest.now result cursor.new.rest.now }
{
    let mut row = single(alloc, let_item(alloc, cursor, depth));
    for _turn in 0..cursor.rest.len() {
        if !cursor.passes_sign(Sign::Comma) {
            return row;
        }
        row = longer(row, let_item(alloc, cursor, depth));
    }
    row
}
