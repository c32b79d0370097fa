//! Bodies with their refinements.

ghost use Rattle.std.specs.Prelude.{◌≡◌, ◌+◌, max, IfOk};
ghost use Rattle.elan_grammar.specs.Rule.{Parses, AtMost};
ghost use Rattle.elan_grammar.specs.Grammar as spec;
ghost use Rattle.elan_grammar.specs.Depth.{refinement_depth, body_depth, deepest_of};

use containers::List;
use elan_cursor::Cursor;
use elan_cursor::kind::leads;
use elan_cursor::made::{both, longer};
use elan_cursor::passing::before_sign;
use elan_grammar::ParseError;
use elan_grammar::tall::{Tall, single};
use elan_tree::{Body, Refinement, Sign};
use phrase_parser::units;
use std::alloc::Global;

/// A tree is at most so deep.
pub const MOST: u16 = 400;

/// What stands in a body is at most so deep.
pub const MOST_IN_BODY: u16 = 399;

#[tactic(auto, unfolding(elan_grammar::specs::Grammar::refinement))]
fn refinement(
    alloc: Global,
    cursor: &mut Cursor<'_>,
    depth: u16,
) -> Result<Tall<Refinement>, ParseError>
    ensures { Parses (spec.refinement depth) refinement_depth (AtMost depth) cursor.old.rest.now result cursor.new.rest.now }
{
    let name = before_sign(cursor.ident(alloc), cursor, Sign::Colon);
    let (name, units) = both(name, units(alloc, cursor, depth))?;
    let tree = Refinement {
        name,
        units: units.tree,
    };
    Ok(Tall {
        tree,
        height: units.height + 1,
    })
}

#[tactic(auto, unfolding(elan_grammar::specs::Grammar::refinement_list), using(elan_grammar::proofs::Turns::turns, elan_grammar::proofs::Deepest::deepens))]
fn refinement_list(
    alloc: Global,
    cursor: &mut Cursor<'_>,
    depth: u16,
) -> Result<Tall<List<Refinement>>, ParseError>
    ensures { Parses (spec.refinement_list depth) (deepest_of refinement_depth) (AtMost depth) cursor.old.rest.now result cursor.new.rest.now }
{
    let mut row = single(alloc, refinement(alloc, cursor, depth));
    for _turn in 0..cursor.rest.len() {
        if !leads(cursor.ahead()) {
            return row;
        }
        let point = cursor.mark(Sign::Point);
        row = longer(row, point.and(refinement(alloc, cursor, depth)));
    }
    row
}

#[tactic(auto, unfolding(elan_grammar::specs::Grammar::refinements, elan_grammar::specs::Grammar::last_point))]
fn refinements(
    alloc: Global,
    cursor: &mut Cursor<'_>,
    depth: u16,
) -> Result<Tall<List<Refinement>>, ParseError>
    ensures { Parses (spec.refinements depth) (deepest_of refinement_depth) (AtMost depth) cursor.old.rest.now result cursor.new.rest.now }
{
    let row = refinement_list(alloc, cursor, depth)?;
    let _point = cursor.passes_sign(Sign::Point);
    Ok(row)
}

/// What may end a list of units: its refinements.
#[tactic(auto, unfolding(elan_grammar::specs::Grammar::tail, elan_grammar::specs::Grammar::point_tail), using(elan_grammar::proofs::Starts::of_texts))]
pub fn tail(
    alloc: Global,
    cursor: &mut Cursor<'_>,
    depth: u16,
) -> Result<Tall<List<Refinement>>, ParseError>
    ensures { Parses (spec.tail depth) (deepest_of refinement_depth) (AtMost depth) cursor.old.rest.now result cursor.new.rest.now }
{
    if cursor.passes_sign(Sign::Point) && cursor.sees_ident() {
        return refinements(alloc, cursor, depth);
    }
    Ok(Tall {
        tree: List::new(alloc),
        height: 0,
    })
}

/// The units of a PROC or OP with their refinements.
#[tactic(auto, unfolding(elan_grammar::specs::Grammar::body))]
pub fn body(alloc: Global, cursor: &mut Cursor<'_>) -> Result<Tall<Body>, ParseError>
    ensures { Parses (spec.body 400 399) body_depth (AtMost 399) cursor.old.rest.now result cursor.new.rest.now }
{
    let units = units(alloc, cursor, MOST);
    let (units, refinements) = both(units, tail(alloc, cursor, MOST_IN_BODY))?;
    let height = units.height.max(refinements.height);
    let tree = Body {
        units: units.tree,
        refinements: refinements.tree,
    };
    Ok(Tall { tree, height })
}
