//! OP.

ghost use Rattle.std.specs.Prelude.{◌≡◌, ◌+◌, max, IfOk};
ghost use Rattle.elan_grammar.specs.Rule.{Parses, AtMost, IsTall};
ghost use Rattle.elan_grammar.specs.Grammar as spec;
ghost use Rattle.elan_grammar.specs.Depth.{formal_depth, body_depth, level_unit_depth, type_depth, deepest_of, if_any};

use crate::bodies::{MOST_IN_BODY, body};
use crate::procs::start;
use containers::{List, NoMemory};
use elan_cursor::Cursor;
use elan_cursor::kind::goes_on;
use elan_cursor::made::both;
use elan_cursor::passing::{before_end, before_sign};
use elan_grammar::tall::{Tall, and, one_more, single, with_next};
use elan_grammar::{OperatorParts, ParseError};
use elan_tree::{Access, Formal, Key, LevelUnit, Name, Operator, Sign, TypePhrase};
use phrase_parser::types;
use std::alloc::Global;

/// Whether an operator may have one operand.
fn takes_one(operator: &Operator) -> bool
    ensures { result ≡ spec.takes_one operator.now }
{
    matches!(
        operator,
        Operator::Named(_) | Operator::Sign(Sign::Plus | Sign::Minus)
    )
}

fn operand_of(alloc: Global, of: TypePhrase, access: Access, name: Name) -> Result<Formal, NoMemory>
    ensures { IfOk result (λ f. f ≡ spec.operand_of of access name) }
{
    let mut names = List::new(alloc);
    names.push(name)?;
    Ok(Formal { of, access, names })
}

#[tactic(auto, unfolding(elan_grammar::specs::Grammar::operand))]
fn operand(alloc: Global, cursor: &mut Cursor<'_>) -> Result<Tall<Formal>, ParseError>
    ensures { Parses (spec.operand 400 399) formal_depth (AtMost 399) cursor.old.rest.now result cursor.new.rest.now }
{
    let of = types(alloc, cursor, MOST_IN_BODY);
    let access = cursor.access();
    let (of, (access, name)) = both(of, both(access, cursor.ident(alloc)))?;
    let Tall { tree, height } = of;
    let tree = operand_of(alloc, tree, access, name)?;
    Ok(Tall { tree, height })
}

#[tactic(auto, unfolding(elan_grammar::specs::Grammar::same_typed), using(elan_grammar::proofs::Deepest::deepest_one))]
fn same_typed(
    alloc: Global,
    cursor: &mut Cursor<'_>,
    first: Tall<Formal>,
) -> Result<Tall<List<Formal>>, ParseError>
    requires tall { IsTall formal_depth (AtMost 399) first }
    ensures { Parses (spec.same_typed first.tree) (deepest_of formal_depth) (AtMost 399) cursor.old.rest.now result cursor.new.rest.now }
{
    let comma = cursor.mark(Sign::Comma);
    let second = comma.and(cursor.ident(alloc));
    let Tall { tree, height } = first;
    let Formal { of, access, names } = tree;
    let (of, names) = and(of, one_more(names, second))?;
    let tree = Formal { of, access, names };
    single(alloc, Ok(Tall { tree, height }))
}

#[tactic(auto, unfolding(elan_grammar::specs::Grammar::other_typed), using(elan_grammar::proofs::Deepest::deepens))]
fn other_typed(
    alloc: Global,
    cursor: &mut Cursor<'_>,
    first: Tall<Formal>,
) -> Result<Tall<List<Formal>>, ParseError>
    requires tall { IsTall formal_depth (AtMost 399) first }
    ensures { Parses (spec.other_typed 400 399 first.tree) (deepest_of formal_depth) (AtMost 399) cursor.old.rest.now result cursor.new.rest.now }
{
    let (first, _) = and(first, cursor.mark(Sign::Comma))?;
    let row = single(alloc, Ok(first))?;
    with_next(row, operand(alloc, cursor))
}

#[tactic(auto, unfolding(elan_grammar::specs::Grammar::one_operand), using(elan_grammar::proofs::Deepest::deepest_one))]
fn one_operand(
    alloc: Global,
    cursor: &mut Cursor<'_>,
    operator: &Operator,
    first: Tall<Formal>,
) -> Result<Tall<List<Formal>>, ParseError>
    requires tall { IsTall formal_depth (AtMost 399) first }
    ensures { Parses (spec.one_operand operator.now first.tree) (deepest_of formal_depth) (AtMost 399) cursor.old.rest.now result cursor.new.rest.now }
{
    if !takes_one(operator) {
        return Err(cursor.refuse());
    }
    single(alloc, Ok(first))
}

/// As many operands as an operator takes.
#[tactic(auto, unfolding(elan_grammar::specs::Grammar::operands), using(elan_grammar::proofs::Starts::of_texts))]
fn operands(
    alloc: Global,
    cursor: &mut Cursor<'_>,
    operator: &Operator,
) -> Result<Tall<List<Formal>>, ParseError>
    ensures { Parses (spec.operands 400 399 operator.now) (deepest_of formal_depth) (AtMost 399) cursor.old.rest.now result cursor.new.rest.now }
{
    let first = operand(alloc, cursor)?;
    if goes_on(cursor.ahead()) {
        same_typed(alloc, cursor, first)
    } else if cursor.sees_sign(Sign::Comma) {
        other_typed(alloc, cursor, first)
    } else {
        one_operand(alloc, cursor, operator, first)
    }
}

#[tactic(auto, unfolding(elan_grammar::specs::Grammar::operator_parts, elan_grammar::specs::Grammar::end_operator))]
fn operator_parts(alloc: Global, cursor: &mut Cursor<'_>) -> Result<Tall<OperatorParts>, ParseError>
    ensures { Parses (spec.operator_parts 400 399) (λ t. max (deepest_of formal_depth t.formals) (body_depth t.body) + 1) (AtMost 400)
        cursor.old.rest.now result cursor.new.rest.now }
{
    let at = cursor.keyword(Key::Op);
    let name = before_sign(cursor.operator(alloc), cursor, Sign::LeftRound);
    let (at, name) = both(at, name)?;
    let formals = operands(alloc, cursor, &name.operator);
    let formals = before_sign(formals, cursor, Sign::RightRound);
    let formals = before_sign(formals, cursor, Sign::Colon);
    let body = before_end(body(alloc, cursor), cursor, Key::Op);
    let (name, (formals, body)) = and(name, both(formals, body))?;
    let _name = cursor.passes_same_operator(&name);
    let height = formals.height.max(body.height) + 1;
    let tree = OperatorParts {
        at,
        name,
        formals: formals.tree,
        body: body.tree,
    };
    Ok(Tall { tree, height })
}

/// An OP behind the type of its result.
#[tactic(auto, unfolding(elan_grammar::specs::Grammar::operator))]
pub fn operator(
    alloc: Global,
    cursor: &mut Cursor<'_>,
    of: Tall<Option<TypePhrase>>,
) -> Result<Tall<LevelUnit>, ParseError>
    requires tall { IsTall (if_any type_depth) (AtMost 400) of }
    ensures { Parses (spec.operator 400 399 of.tree) level_unit_depth (AtMost 400) cursor.old.rest.now result cursor.new.rest.now }
{
    let (of, parts) = and(of, operator_parts(alloc, cursor))?;
    let height = of.height.max(parts.height);
    let OperatorParts {
        at,
        name,
        formals,
        body,
    } = parts.tree;
    let tree = LevelUnit::Op {
        at: start(&of.tree, at),
        result: of.tree,
        name,
        formals,
        body,
    };
    Ok(Tall { tree, height })
}
