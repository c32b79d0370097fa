//! Types: each stands in others.

ghost use Rattle.std.specs.Prelude.{◌≡◌, ◌<◌, ◌≤◌, ◌+◌, ◌-◌, ◌==◌, IfOk};
ghost use Rattle.elan_grammar.specs.Rule.{Gives, Parses, AtMost};
ghost use Rattle.elan_grammar.specs.Terminals.{word, simple_of};
ghost use Rattle.elan_grammar.specs.Types as spec;
ghost use Rattle.elan_grammar.specs.Depth.{type_depth, field_depth, type_place, deepest_of};
ghost use Rattle.phrase_parser.specs.TypeNests.{Nests};

use containers::List;
use elan_cursor::Cursor;
use elan_cursor::kind::goes_on;
use elan_cursor::made::{both, longer, tall};
use elan_cursor::passing::before_sign;
use elan_grammar::ParseError;
use elan_grammar::tall::{Tall, boxed, one, one_more, single};
use elan_tree::{Field, Key, Name, Sign, TypePhrase};
use std::alloc::Global;

/// Identifiers with commas between them.
#[tactic(auto, unfolding(elan_grammar::specs::Types::names), using(elan_grammar::proofs::Turns::turns))]
pub fn names(alloc: Global, cursor: &mut Cursor<'_>) -> Result<List<Name>, ParseError>
    ensures { Gives (spec.names.run cursor.old.rest.now) result cursor.new.rest.now }
{
    let mut names = one(alloc, cursor.ident(alloc))?;
    for _turn in 0..cursor.rest.len() {
        if !goes_on(cursor.ahead()) {
            return Ok(names);
        }
        let comma = cursor.mark(Sign::Comma);
        names = one_more(names, comma.and(cursor.ident(alloc)))?;
    }
    Ok(names)
}

/// The types at most `depth` deep.
pub fn types(
    alloc: Global,
    cursor: &mut Cursor<'_>,
    depth: u16,
) -> Result<Tall<TypePhrase>, ParseError>
    ensures { Parses (spec.types depth) type_depth (AtMost depth) cursor.old.rest.now result cursor.new.rest.now }
{
    if depth == 0 {
        return Err(cursor.refuse());
    }
    let types = TypeRules {
        alloc,
        depth: depth - 1,
        inner: types,
    };
    types.a_type(cursor)
}

/// The place where a type begins.
pub fn type_place(of: &TypePhrase) -> u32
    ensures { result ≡ type_place of.now }
{
    match of {
        TypePhrase::Int(at)
        | TypePhrase::Bool(at)
        | TypePhrase::Text(at)
        | TypePhrase::Task(at)
        | TypePhrase::Dataspace(at)
        | TypePhrase::Row { at, .. }
        | TypePhrase::Struct { at, .. } => *at,
        TypePhrase::Named(name) => name.at,
    }
}

/// The rules of types whose parts are at most `depth` deep.
#[derive(Drop)]
pub struct TypeRules<F> {
    alloc: Global,
    depth: u16,
    inner: F,
}

impl<F: Fn(Global, &mut Cursor<'_>, u16) -> Result<Tall<TypePhrase>, ParseError>> TypeRules<F> {
    fn inner(&self, cursor: &mut Cursor<'_>) -> Result<Tall<TypePhrase>, ParseError>
        requires { Nests F.Fn self.now }
        ensures { Parses (spec.types self.now.depth) type_depth (AtMost self.now.depth) cursor.old.rest.now result cursor.new.rest.now }
    {
        (self.inner)(self.alloc, cursor, self.depth)
    }

    #[tactic(auto, unfolding(elan_grammar::specs::Types::row))]
    fn row(&self, cursor: &mut Cursor<'_>) -> Result<Tall<TypePhrase>, ParseError>
        requires { Nests F.Fn self.now }
        ensures { Parses (spec.row (spec.types self.now.depth) self.now.depth) type_depth (AtMost (self.now.depth + 1))
            cursor.old.rest.now result cursor.new.rest.now }
    {
        let at = cursor.opening(Key::Row, self.depth);
        let size = cursor.size(self.alloc);
        let part = boxed(self.alloc, self.inner(cursor));
        let (at, (size, part)) = both(at, both(size, part))?;
        Ok(Tall {
            tree: TypePhrase::Row {
                at,
                size,
                of: part.tree,
            },
            height: part.height + 1,
        })
    }

    #[tactic(auto, unfolding(elan_grammar::specs::Types::field))]
    fn field(&self, cursor: &mut Cursor<'_>) -> Result<Tall<Field>, ParseError>
        requires { Nests F.Fn self.now }
        ensures { Parses (spec.field (spec.types self.now.depth)) field_depth (AtMost self.now.depth) cursor.old.rest.now result cursor.new.rest.now }
    {
        let of = self.inner(cursor);
        let (of, names) = both(of, names(self.alloc, cursor))?;
        Ok(Tall {
            tree: Field { of: of.tree, names },
            height: of.height,
        })
    }

    #[tactic(auto, unfolding(elan_grammar::specs::Types::fields), using(elan_grammar::proofs::Turns::turns, elan_grammar::proofs::Deepest::deepens))]
    fn fields(&self, cursor: &mut Cursor<'_>) -> Result<Tall<List<Field>>, ParseError>
        requires { Nests F.Fn self.now }
        ensures { Parses (spec.fields (spec.types self.now.depth)) (deepest_of field_depth) (AtMost self.now.depth)
            cursor.old.rest.now result cursor.new.rest.now }
    {
        let mut row = single(self.alloc, self.field(cursor));
        for _turn in 0..cursor.rest.len() {
            if !cursor.passes_sign(Sign::Comma) {
                return row;
            }
            row = longer(row, self.field(cursor));
        }
        row
    }

    #[tactic(auto, unfolding(elan_grammar::specs::Types::structure))]
    fn structure(&self, cursor: &mut Cursor<'_>) -> Result<Tall<TypePhrase>, ParseError>
        requires { Nests F.Fn self.now }
        ensures { Parses (spec.structure (spec.types self.now.depth) self.now.depth) type_depth (AtMost (self.now.depth + 1))
            cursor.old.rest.now result cursor.new.rest.now }
    {
        let at = cursor.opening(Key::Struct, self.depth);
        let at = before_sign(at, cursor, Sign::LeftRound);
        let row = before_sign(self.fields(cursor), cursor, Sign::RightRound);
        let (at, row) = both(at, row)?;
        Ok(Tall {
            tree: TypePhrase::Struct {
                at,
                fields: row.tree,
            },
            height: row.height + 1,
        })
    }

    fn simple(&self, cursor: &mut Cursor<'_>) -> Result<Tall<TypePhrase>, ParseError>
        ensures { Parses (word simple_of) type_depth (AtMost (self.now.depth + 1)) cursor.old.rest.now result cursor.new.rest.now }
    {
        tall(cursor.simple_type(), 1)
    }

    #[tactic(auto, unfolding(elan_grammar::specs::Types::a_type, elan_grammar::specs::Types::named_type), using(elan_grammar::proofs::Starts::of_types))]
    fn a_type(&self, cursor: &mut Cursor<'_>) -> Result<Tall<TypePhrase>, ParseError>
        requires { Nests F.Fn self.now }
        ensures { Parses (spec.a_type (spec.types self.now.depth) self.now.depth) type_depth (AtMost (self.now.depth + 1))
            cursor.old.rest.now result cursor.new.rest.now }
    {
        if cursor.sees_bold() {
            let tree = TypePhrase::Named(cursor.bold(self.alloc)?);
            Ok(Tall { tree, height: 1 })
        } else if cursor.sees_key(Key::Row) {
            self.row(cursor)
        } else if cursor.sees_key(Key::Struct) {
            self.structure(cursor)
        } else {
            self.simple(cursor)
        }
    }
}
