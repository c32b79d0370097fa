//! The labels of a CASE.

ghost use Rattle.elan_grammar.specs.Rule.{Gives};
ghost use Rattle.elan_grammar.specs.Types as spec;

use containers::List;
use elan_cursor::Cursor;
use elan_cursor::made::both;
use elan_grammar::ParseError;
use elan_grammar::tall::{one, one_more};
use elan_tree::{Label, Sign};
use std::alloc::Global;

#[tactic(auto, unfolding(elan_grammar::specs::Types::negative_label))]
fn negative_label(cursor: &mut Cursor<'_>) -> Result<Label, ParseError>
    ensures { Gives ((spec.negative_label).run cursor.old.rest.now) result cursor.new.rest.now }
{
    let (at, number) = both(cursor.mark(Sign::Minus), cursor.negated())?;
    Ok(Label::Number(at, number))
}

#[tactic(auto, unfolding(elan_grammar::specs::Types::label), using(elan_grammar::proofs::Starts::of_types))]
fn label(alloc: Global, cursor: &mut Cursor<'_>) -> Result<Label, ParseError>
    ensures { Gives ((spec.label).run cursor.old.rest.now) result cursor.new.rest.now }
{
    if cursor.sees_sign(Sign::Minus) {
        negative_label(cursor)
    } else {
        cursor.label(alloc)
    }
}

/// Labels with commas between them.
#[tactic(auto, unfolding(elan_grammar::specs::Types::labels), using(elan_grammar::proofs::Turns::turns))]
pub fn labels(alloc: Global, cursor: &mut Cursor<'_>) -> Result<List<Label>, ParseError>
    ensures { Gives ((spec.labels).run cursor.old.rest.now) result cursor.new.rest.now }
{
    let mut row = one(alloc, label(alloc, cursor))?;
    for _turn in 0..cursor.rest.len() {
        if !cursor.passes_sign(Sign::Comma) {
            return Ok(row);
        }
        row = one_more(row, label(alloc, cursor))?;
    }
    Ok(row)
}
