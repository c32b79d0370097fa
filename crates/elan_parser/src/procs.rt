//! PROC, and what it shares with OP.

ghost use Rattle.std.specs.Prelude.{◌≡◌, ◌+◌, max};
ghost use Rattle.elan_grammar.specs.Rule.{Parses, AtMost, IsTall};
ghost use Rattle.elan_grammar.specs.Grammar as spec;
ghost use Rattle.elan_grammar.specs.Depth.{body_depth, level_unit_depth, type_depth, type_place, formal_depth, deepest_of, if_any};

use crate::bodies::{MOST_IN_BODY, body};
use containers::List;
use elan_cursor::Cursor;
use elan_cursor::made::both;
use elan_cursor::passing::{before_end, before_sign};
use elan_grammar::tall::{Tall, and};
use elan_grammar::{ParseError, ProcParts};
use elan_tree::{Formal, Key, LevelUnit, Sign, TypePhrase};
use phrase_parser::{formals, type_place};
use std::alloc::Global;

#[tactic(auto, unfolding(elan_grammar::specs::Grammar::optional_formals, elan_grammar::specs::Grammar::formal_list))]
fn optional_formals(
    alloc: Global,
    cursor: &mut Cursor<'_>,
) -> Result<Tall<List<Formal>>, ParseError>
    ensures { Parses (spec.optional_formals 400 399) (deepest_of formal_depth) (AtMost 399) cursor.old.rest.now result cursor.new.rest.now }
{
    if !cursor.passes_sign(Sign::LeftRound) {
        return Ok(Tall {
            tree: List::new(alloc),
            height: 0,
        });
    }
    let row = formals(alloc, cursor, MOST_IN_BODY);
    before_sign(row, cursor, Sign::RightRound)
}

/// Where a PROC or OP begins: at the type of its result, or at its keyword.
pub fn start(of: &Option<TypePhrase>, at: u32) -> u32
    ensures { result ≡ spec.start of.now at }
{
    match of {
        Some(of) => type_place(of),
        None => at,
    }
}

#[tactic(auto, unfolding(elan_grammar::specs::Grammar::proc_parts, elan_grammar::specs::Grammar::end_name))]
fn proc_parts(alloc: Global, cursor: &mut Cursor<'_>) -> Result<Tall<ProcParts>, ParseError>
    ensures { Parses (spec.proc_parts 400 399) (λ t. max (deepest_of formal_depth t.formals) (body_depth t.body) + 1) (AtMost 400)
        cursor.old.rest.now result cursor.new.rest.now }
{
    let head = both(cursor.keyword(Key::Proc), cursor.ident(alloc));
    let formals = before_sign(optional_formals(alloc, cursor), cursor, Sign::Colon);
    let body = before_end(body(alloc, cursor), cursor, Key::Proc);
    let ((at, name), (formals, body)) = both(head, both(formals, body))?;
    let _name = cursor.passes_same(&name);
    let height = formals.height.max(body.height) + 1;
    let tree = ProcParts {
        at,
        name,
        formals: formals.tree,
        body: body.tree,
    };
    Ok(Tall { tree, height })
}

/// A PROC behind the type of its result.
#[tactic(auto, unfolding(elan_grammar::specs::Grammar::proc))]
pub fn proc(
    alloc: Global,
    cursor: &mut Cursor<'_>,
    of: Tall<Option<TypePhrase>>,
) -> Result<Tall<LevelUnit>, ParseError>
    requires tall { IsTall (if_any type_depth) (AtMost 400) of }
    ensures { Parses (spec.proc 400 399 of.tree) level_unit_depth (AtMost 400) cursor.old.rest.now result cursor.new.rest.now }
{
    let (of, parts) = and(of, proc_parts(alloc, cursor))?;
    let height = of.height.max(parts.height);
    let ProcParts {
        at,
        name,
        formals,
        body,
    } = parts.tree;
    let tree = LevelUnit::Proc {
        at: start(&of.tree, at),
        result: of.tree,
        name,
        formals,
        body,
    };
    Ok(Tall { tree, height })
}
