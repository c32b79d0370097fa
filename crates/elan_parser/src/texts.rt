//! Whole texts: programs and packets.

ghost use Rattle.std.specs.Prelude.{◌≡◌, ℕ, Err, ◌≤◌, IfOk};
ghost use Rattle.elan_grammar.specs.Rule.{Gives, Parses, AtMost, IsTall};
ghost use Rattle.elan_parser.specs.Skips.{Skips};
ghost use Rattle.elan_grammar.specs.Grammar as spec;
ghost use Rattle.elan_grammar.specs.Reads as whole;
ghost use Rattle.elan_grammar.specs.Reads.{Reads};
ghost use Rattle.elan_grammar.specs.Stops.{left};
ghost use Rattle.elan_grammar.specs.Depth.{type_depth, level_unit_depth, level_depth, tree_depth, deepest_of};

use crate::bodies::{MOST, tail};
use crate::operators::operator;
use crate::procs::proc;
use containers::{List, NoMemory};
use elan_cursor::Cursor;
use elan_cursor::kind::begins_typed;
use elan_cursor::made::{both, longer};
use elan_cursor::passing::{before_end, before_sign};
use elan_grammar::ParseError;
use elan_grammar::tall::{Tall, one, one_more, single};
use elan_tree::{Export, Key, Level, LevelUnit, Name, Sign, Token, Tree, TypePhrase};
use phrase_parser::{declared, plain, types};
use std::alloc::Global;

#[tactic(auto, unfolding(elan_grammar::specs::Grammar::new_type))]
fn new_type(alloc: Global, cursor: &mut Cursor<'_>) -> Result<Tall<LevelUnit>, ParseError>
    ensures { Parses (spec.new_type 400 399) level_unit_depth (AtMost 400) cursor.old.rest.now result cursor.new.rest.now }
{
    let at = cursor.keyword(Key::TypeWord);
    let name = before_sign(cursor.bold(alloc), cursor, Sign::Equal);
    let (at, (name, of)) = both(at, both(name, types(alloc, cursor, MOST)))?;
    let tree = LevelUnit::NewType {
        at,
        name,
        of: of.tree,
    };
    Ok(Tall {
        tree,
        height: of.height,
    })
}

#[tactic(auto, unfolding(elan_grammar::specs::Grammar::declared_unit))]
fn declared_unit(
    alloc: Global,
    cursor: &mut Cursor<'_>,
    of: Tall<TypePhrase>,
) -> Result<Tall<LevelUnit>, ParseError>
    requires tall { IsTall type_depth (AtMost 400) of }
    ensures { Parses (spec.declared_unit 400 399 of.tree) level_unit_depth (AtMost 400) cursor.old.rest.now result cursor.new.rest.now }
{
    let unit = declared(alloc, cursor, MOST, of)?;
    Ok(Tall {
        tree: LevelUnit::Plain(unit.tree),
        height: unit.height,
    })
}

#[tactic(auto, unfolding(elan_grammar::specs::Grammar::typed_unit), using(elan_grammar::proofs::Starts::of_texts))]
fn typed_unit(alloc: Global, cursor: &mut Cursor<'_>) -> Result<Tall<LevelUnit>, ParseError>
    ensures { Parses (spec.typed_unit 400 399) level_unit_depth (AtMost 400) cursor.old.rest.now result cursor.new.rest.now }
{
    let of = types(alloc, cursor, MOST)?;
    let is_proc = cursor.sees_key(Key::Proc);
    if !is_proc && !cursor.sees_key(Key::Op) {
        return declared_unit(alloc, cursor, of);
    }
    let result = Tall {
        tree: Some(of.tree),
        height: of.height,
    };
    if is_proc {
        proc(alloc, cursor, result)
    } else {
        operator(alloc, cursor, result)
    }
}

#[tactic(auto, unfolding(elan_grammar::specs::Grammar::plain_unit))]
fn plain_unit(alloc: Global, cursor: &mut Cursor<'_>) -> Result<Tall<LevelUnit>, ParseError>
    ensures { Parses (spec.plain_unit 400 399) level_unit_depth (AtMost 400) cursor.old.rest.now result cursor.new.rest.now }
{
    let unit = plain(alloc, cursor, MOST)?;
    Ok(Tall {
        tree: LevelUnit::Plain(unit.tree),
        height: unit.height,
    })
}

#[tactic(auto, unfolding(elan_grammar::specs::Grammar::level_unit), using(elan_grammar::proofs::Starts::of_texts))]
fn level_unit(alloc: Global, cursor: &mut Cursor<'_>) -> Result<Tall<LevelUnit>, ParseError>
    ensures { Parses (spec.level_unit 400 399) level_unit_depth (AtMost 400) cursor.old.rest.now result cursor.new.rest.now }
{
    if begins_typed(cursor.ahead()) {
        typed_unit(alloc, cursor)
    } else if cursor.sees_key(Key::TypeWord) {
        new_type(alloc, cursor)
    } else if cursor.sees_key(Key::Proc) {
        proc(
            alloc,
            cursor,
            Tall {
                tree: None,
                height: 0,
            },
        )
    } else if cursor.sees_key(Key::Op) {
        operator(
            alloc,
            cursor,
            Tall {
                tree: None,
                height: 0,
            },
        )
    } else {
        plain_unit(alloc, cursor)
    }
}

#[tactic(auto, unfolding(elan_grammar::specs::Grammar::level_units), using(elan_grammar::proofs::Turns::turns, elan_grammar::proofs::Deepest::deepens))]
fn level_units(alloc: Global, cursor: &mut Cursor<'_>) -> Result<Tall<List<LevelUnit>>, ParseError>
    ensures { Parses (spec.level_units 400 399) (deepest_of level_unit_depth) (AtMost 400) cursor.old.rest.now result cursor.new.rest.now }
{
    let mut row = single(alloc, level_unit(alloc, cursor));
    for _turn in 0..cursor.rest.len() {
        if !cursor.passes_sign(Sign::Semicolon) {
            return row;
        }
        row = longer(row, level_unit(alloc, cursor));
    }
    row
}

#[tactic(auto, unfolding(elan_grammar::specs::Grammar::a_level))]
fn a_level(alloc: Global, cursor: &mut Cursor<'_>) -> Result<Tall<Level>, ParseError>
    ensures { Parses (spec.a_level 400 399) level_depth (AtMost 400) cursor.old.rest.now result cursor.new.rest.now }
{
    let units = level_units(alloc, cursor);
    let (units, refinements) = both(units, tail(alloc, cursor, MOST))?;
    let height = units.height.max(refinements.height);
    let tree = Level {
        units: units.tree,
        refinements: refinements.tree,
    };
    Ok(Tall { tree, height })
}

#[tactic(auto, unfolding(elan_grammar::specs::Grammar::program))]
fn program(alloc: Global, cursor: &mut Cursor<'_>) -> Result<Tall<Tree>, ParseError>
    ensures { Parses (spec.program 400 399) tree_depth (AtMost 400) cursor.old.rest.now result cursor.new.rest.now }
{
    let level = a_level(alloc, cursor)?;
    Ok(Tall {
        tree: Tree::Program(level.tree),
        height: level.height,
    })
}

#[tactic(auto, unfolding(elan_grammar::specs::Grammar::export_list), using(elan_grammar::proofs::Turns::turns))]
fn export_list(alloc: Global, cursor: &mut Cursor<'_>) -> Result<List<Export>, ParseError>
    ensures { Gives ((spec.export_list).run cursor.old.rest.now) result cursor.new.rest.now }
{
    let mut row = one(alloc, cursor.export(alloc))?;
    for _turn in 0..cursor.rest.len() {
        if !cursor.passes_sign(Sign::Comma) {
            return Ok(row);
        }
        row = one_more(row, cursor.export(alloc))?;
    }
    Ok(row)
}

#[tactic(auto, unfolding(elan_grammar::specs::Grammar::exports))]
fn exports(alloc: Global, cursor: &mut Cursor<'_>) -> Result<List<Export>, ParseError>
    ensures { Gives ((spec.exports).run cursor.old.rest.now) result cursor.new.rest.now }
{
    if !cursor.passes_key(Key::Defines) {
        return Ok(List::new(alloc));
    }
    export_list(alloc, cursor)
}

/// Goes past the name of what ends, where it is written.
fn pass_name(cursor: &mut Cursor<'_>, name: &Name)
    ensures { Skips (spec.end_name name.now) cursor.old.rest.now cursor.new.rest.now }
{
    let _name = cursor.passes_same(name);
}

/// Goes past a semicolon or a point at the end, where one stands.
fn pass_last_mark(cursor: &mut Cursor<'_>)
    ensures { Skips spec.last_mark cursor.old.rest.now cursor.new.rest.now }
{
    if cursor.passes_sign(Sign::Semicolon) {
        return;
    }
    let _point = cursor.passes_sign(Sign::Point);
}

#[tactic(auto, unfolding(elan_grammar::specs::Grammar::packet))]
fn packet(alloc: Global, cursor: &mut Cursor<'_>) -> Result<Tall<Tree>, ParseError>
    ensures { Parses (spec.packet 400 399) tree_depth (AtMost 400) cursor.old.rest.now result cursor.new.rest.now }
{
    let head = both(cursor.keyword(Key::Packet), cursor.ident(alloc));
    let exports = before_sign(exports(alloc, cursor), cursor, Sign::Colon);
    let level = before_end(a_level(alloc, cursor), cursor, Key::Packet);
    let ((at, name), (exports, level)) = both(head, both(exports, level))?;
    pass_name(cursor, &name);
    pass_last_mark(cursor);
    let tree = Tree::Packet {
        at,
        name,
        exports,
        level: level.tree,
    };
    Ok(Tall {
        tree,
        height: level.height,
    })
}

/// A packet, or a program.
fn text(alloc: Global, cursor: &mut Cursor<'_>, is_packet: bool) -> Result<Tall<Tree>, ParseError>
    ensures { Parses (whole.text is_packet) tree_depth (AtMost 400) cursor.old.rest.now result cursor.new.rest.now }
{
    if is_packet {
        packet(alloc, cursor)
    } else {
        program(alloc, cursor)
    }
}

/// The tree that all these tokens spell, or how many the parser leaves.
#[tactic(auto, using(elan_grammar::proofs::GrammarLaws::of_whole_texts))]
pub fn whole(alloc: Global, tokens: &[Token], packet: bool) -> Result<Tree, ParseError>
    ensures ok { IfOk result (λ t. Reads packet tokens.now t) }
    ensures deep { IfOk result (λ t. tree_depth t ≤ 400) }
    ensures refused { (n : ℕ) → result ≡ Err (ParseError.NotElan n) → (t : Tree) → Reads packet tokens.now t → ⊥ }
    ensures left { (n : ℕ) → result ≡ Err (ParseError.NotElan n) → n ≡ left packet tokens.now }
{
    if tokens.is_empty() {
        return Err(ParseError::NotElan(0));
    }
    let mut cursor = Cursor { rest: tokens };
    let found = text(alloc, &mut cursor, packet)?;
    if !cursor.rest.is_empty() {
        return Err(cursor.refuse());
    }
    Ok(found.tree)
}

/// How many tokens the parser leaves.
#[tactic(auto, using(elan_grammar::proofs::GrammarLaws::left_err, elan_grammar::proofs::GrammarLaws::left_ok))]
pub fn left(alloc: Global, tokens: &[Token], packet: bool) -> Result<usize, NoMemory>
    ensures { IfOk result (λ n. n ≡ left packet tokens.now) }
{
    let mut cursor = Cursor { rest: tokens };
    match text(alloc, &mut cursor, packet) {
        Ok(_) => Ok(cursor.rest.len()),
        Err(ParseError::NotElan(left)) => Ok(left),
        Err(ParseError::NoMemory) => Err(NoMemory),
    }
}
