//! Units: declarations and statements.

ghost use Rattle.std.specs.Prelude.{◌≡◌};
ghost use Rattle.elan_grammar.specs.Rule.{Parses, AtMost, IsTall};
ghost use Rattle.elan_grammar.specs.Units as units;
ghost use Rattle.phrase_parser.specs.VarOrConst as either;
ghost use Rattle.phrase_parser.specs.UnitNests.{Nests};
ghost use Rattle.elan_grammar.specs.Depth.{type_depth, expr_depth, item_depth, unit_depth, type_place, expr_place, deepest_of};

use crate::access::{declaration_of, declaring, is_bare};
use crate::phrases::Phrases;
use crate::{expr_place, let_items, type_place, types};
use containers::List;
use elan_cursor::Cursor;
use elan_cursor::kind::{WORD_LEVEL, begins_typed};
use elan_cursor::made::{both, longer};
use elan_cursor::passing::before_key;
use elan_grammar::ParseError;
use elan_grammar::tall::{Tall, and, single};
use elan_tree::{Access, Expr, Item, Key, Sign, TypePhrase, Unit};
use std::alloc::Global;

impl<
    E: Fn(Global, &mut Cursor<'_>, u16, u8) -> Result<Tall<Expr>, ParseError> + Copy,
    U: Fn(Global, &mut Cursor<'_>, u16) -> Result<Tall<List<Unit>>, ParseError> + Copy,
> Phrases<E, U> {
    #[tactic(auto, unfolding(elan_grammar::specs::Units::a_let))]
    fn a_let(&self, cursor: &mut Cursor<'_>) -> Result<Tall<Unit>, ParseError>
        ensures { Parses (units.a_let (units.phrases self.now.depth) self.now.depth) unit_depth (AtMost self.now.depth)
            cursor.old.rest.now result cursor.new.rest.now }
    {
        let at = cursor.keyword(Key::Let);
        let (at, row) = both(at, let_items(self.alloc, cursor, self.depth))?;
        Ok(Tall {
            tree: Unit::Let(at, row.tree),
            height: row.height,
        })
    }

    #[tactic(auto, unfolding(elan_grammar::specs::Units::init))]
    fn init(&self, cursor: &mut Cursor<'_>) -> Result<Tall<Expr>, ParseError>
        requires { Nests E.Fn U.Fn self.now }
        ensures { Parses (units.init (units.phrases self.now.depth) self.now.depth) expr_depth (AtMost self.now.depth)
            cursor.old.rest.now result cursor.new.rest.now }
    {
        let mark = cursor.init_mark();
        mark.and(self.expressions().level(cursor, WORD_LEVEL))
    }

    #[tactic(auto, using(crate::proofs::VarOrConst::of_items))]
    fn item(&self, cursor: &mut Cursor<'_>, access: Access) -> Result<Tall<Item>, ParseError>
        requires { Nests E.Fn U.Fn self.now }
        ensures { Parses (either.item access (units.phrases self.now.depth) self.now.depth) item_depth (AtMost self.now.depth)
            cursor.old.rest.now result cursor.new.rest.now }
    {
        let name = cursor.ident(self.alloc)?;
        if is_bare(access, cursor) {
            return Ok(Tall {
                tree: Item { name, init: None },
                height: 0,
            });
        }
        let (name, init) = and(name, self.init(cursor))?;
        let tree = Item {
            name,
            init: Some(init.tree),
        };
        Ok(Tall {
            tree,
            height: init.height,
        })
    }

    #[tactic(auto, using(elan_grammar::proofs::Turns::turns, elan_grammar::proofs::Deepest::deepens))]
    fn items(&self, cursor: &mut Cursor<'_>, access: Access) -> Result<Tall<List<Item>>, ParseError>
        requires { Nests E.Fn U.Fn self.now }
        ensures { Parses (either.items access (units.phrases self.now.depth) self.now.depth) (deepest_of item_depth) (AtMost self.now.depth)
            cursor.old.rest.now result cursor.new.rest.now }
    {
        let mut row = single(self.alloc, self.item(cursor, access));
        for _turn in 0..cursor.rest.len() {
            if !cursor.passes_sign(Sign::Comma) {
                return row;
            }
            row = longer(row, self.item(cursor, access));
        }
        row
    }

    /// A declaration behind its type.
    #[tactic(auto, using(crate::proofs::VarOrConst::of_declarations))]
    pub fn declared(
        &self,
        cursor: &mut Cursor<'_>,
        of: Tall<TypePhrase>,
    ) -> Result<Tall<Unit>, ParseError>
        requires nests { Nests E.Fn U.Fn self.now }
        requires tall { IsTall type_depth (AtMost self.now.depth) of }
        ensures { Parses (units.declared (units.phrases self.now.depth) self.now.depth of.tree) unit_depth (AtMost self.now.depth)
            cursor.old.rest.now result cursor.new.rest.now }
    {
        let at = type_place(&of.tree);
        let (of, access) = and(of, declaring(cursor))?;
        let (of, row) = and(of, self.items(cursor, access))?;
        let height = of.height.max(row.height);
        Ok(Tall {
            tree: declaration_of(access, at, of.tree, row.tree),
            height,
        })
    }

    #[tactic(auto, unfolding(elan_grammar::specs::Units::declaration))]
    fn declaration(&self, cursor: &mut Cursor<'_>) -> Result<Tall<Unit>, ParseError>
        requires { Nests E.Fn U.Fn self.now }
        ensures { Parses (units.declaration (units.phrases self.now.depth) self.now.depth) unit_depth (AtMost self.now.depth)
            cursor.old.rest.now result cursor.new.rest.now }
    {
        let of = types(self.alloc, cursor, self.depth)?;
        self.declared(cursor, of)
    }

    #[tactic(auto, unfolding(elan_grammar::specs::Units::bound, elan_grammar::specs::Units::items))]
    fn bound(&self, cursor: &mut Cursor<'_>) -> Result<Tall<Unit>, ParseError>
        requires { Nests E.Fn U.Fn self.now }
        ensures { Parses (units.bound (units.phrases self.now.depth) self.now.depth) unit_depth (AtMost self.now.depth)
            cursor.old.rest.now result cursor.new.rest.now }
    {
        let at = cursor.opening(Key::Bound, self.depth);
        let of = types(self.alloc, cursor, self.depth);
        let of = before_key(of, cursor, Key::Var);
        let row = self.items(cursor, Access::Var);
        let (at, (of, row)) = both(at, both(of, row))?;
        let height = of.height.max(row.height);
        Ok(Tall {
            tree: Unit::Bound(at, of.tree, row.tree),
            height,
        })
    }

    #[tactic(auto, unfolding(elan_grammar::specs::Units::assigned))]
    fn assigned(&self, cursor: &mut Cursor<'_>, left: Tall<Expr>) -> Result<Tall<Unit>, ParseError>
        requires nests { Nests E.Fn U.Fn self.now }
        requires tall { left.height ≡ expr_depth left.tree }
        ensures { Parses (units.assigned (units.phrases self.now.depth) self.now.depth left.tree) unit_depth (AtMost self.now.depth)
            cursor.old.rest.now result cursor.new.rest.now }
    {
        let sign = cursor.opening_sign(Sign::Becomes, left.height, self.depth);
        let right = both(sign, self.forms().expression(cursor, WORD_LEVEL));
        let (left, (_, right)) = and(left, right)?;
        let height = left.height.max(right.height);
        let tree = Unit::Becomes {
            at: expr_place(&left.tree),
            left: left.tree,
            right: right.tree,
        };
        Ok(Tall {
            tree,
            height: height + 1,
        })
    }

    #[tactic(auto, unfolding(elan_grammar::specs::Units::statement, elan_grammar::specs::Units::assigned))]
    fn statement(&self, cursor: &mut Cursor<'_>) -> Result<Tall<Unit>, ParseError>
        requires { Nests E.Fn U.Fn self.now }
        ensures { Parses (units.statement (units.phrases self.now.depth) self.now.depth) unit_depth (AtMost self.now.depth)
            cursor.old.rest.now result cursor.new.rest.now }
    {
        let a = self.expressions().level(cursor, WORD_LEVEL)?;
        if cursor.sees_sign(Sign::Becomes) {
            return self.assigned(cursor, a);
        }
        Ok(Tall {
            tree: Unit::Value(a.tree),
            height: a.height,
        })
    }

    #[tactic(auto, unfolding(elan_grammar::specs::Units::leave))]
    fn leave(&self, cursor: &mut Cursor<'_>) -> Result<Tall<Unit>, ParseError>
        requires { Nests E.Fn U.Fn self.now }
        ensures { Parses (units.leave (units.phrases self.now.depth) self.now.depth) unit_depth (AtMost self.now.depth)
            cursor.old.rest.now result cursor.new.rest.now }
    {
        let at = cursor.opening(Key::Leave, self.depth)?;
        let name = cursor.leaving(self.alloc);
        let (name, value) = both(name, self.forms().key_part(cursor, Key::With))?;
        let tree = Unit::Leave {
            at,
            name,
            value: value.tree,
        };
        Ok(Tall {
            tree,
            height: value.height + 1,
        })
    }

    /// A unit that begins with no type.
    #[tactic(auto, unfolding(elan_grammar::specs::Units::plain), using(elan_grammar::proofs::Starts::of_units))]
    pub fn plain(&self, cursor: &mut Cursor<'_>) -> Result<Tall<Unit>, ParseError>
        requires { Nests E.Fn U.Fn self.now }
        ensures { Parses (units.plain (units.phrases self.now.depth) self.now.depth) unit_depth (AtMost self.now.depth)
            cursor.old.rest.now result cursor.new.rest.now }
    {
        if cursor.sees_key(Key::Let) {
            self.a_let(cursor)
        } else if cursor.sees_key(Key::Bound) {
            self.bound(cursor)
        } else if cursor.sees_key(Key::Leave) {
            self.leave(cursor)
        } else if cursor.sees_key(Key::For) {
            self.forms().counted(cursor)
        } else if cursor.sees_key(Key::While) {
            self.forms().guarded(cursor)
        } else if cursor.sees_rep() {
            self.forms().repeated(cursor)
        } else if cursor.sees_expression() {
            self.statement(cursor)
        } else {
            Ok(Tall {
                tree: Unit::Empty,
                height: 0,
            })
        }
    }

    #[tactic(auto, unfolding(elan_grammar::specs::Units::unit), using(elan_grammar::proofs::Starts::of_units))]
    fn unit(&self, cursor: &mut Cursor<'_>) -> Result<Tall<Unit>, ParseError>
        requires { Nests E.Fn U.Fn self.now }
        ensures { Parses (units.unit (units.phrases self.now.depth) self.now.depth) unit_depth (AtMost self.now.depth)
            cursor.old.rest.now result cursor.new.rest.now }
    {
        if begins_typed(cursor.ahead()) {
            self.declaration(cursor)
        } else {
            self.plain(cursor)
        }
    }

    /// Units with semicolons between them; there may be nothing between two.
    #[tactic(auto, unfolding(elan_grammar::specs::Units::units), using(elan_grammar::proofs::Turns::turns, elan_grammar::proofs::Deepest::deepens))]
    pub fn units(&self, cursor: &mut Cursor<'_>) -> Result<Tall<List<Unit>>, ParseError>
        requires { Nests E.Fn U.Fn self.now }
        ensures { Parses (units.units (units.phrases self.now.depth) self.now.depth) (deepest_of unit_depth) (AtMost self.now.depth)
            cursor.old.rest.now result cursor.new.rest.now }
    {
        let mut row = single(self.alloc, self.unit(cursor));
        for _turn in 0..cursor.rest.len() {
            if !cursor.passes_sign(Sign::Semicolon) {
                return row;
            }
            row = longer(row, self.unit(cursor));
        }
        row
    }
}
