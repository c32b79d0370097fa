//! What stands beside operators: calls, brackets, choices, and what selects in them.

ghost use Rattle.std.specs.Prelude.{◌≡◌, ◌<◌, ◌+◌, max, IfOk};
ghost use Rattle.elan_grammar.specs.Rule.{Gives, Parses, AtMost, Below, IsTall};
ghost use Rattle.elan_grammar.specs.Expressions as spec;
ghost use Rattle.elan_grammar.specs.Units as units;
ghost use Rattle.phrase_parser.specs.ExpressionNests.{Nests};
ghost use Rattle.elan_grammar.specs.Depth.{expr_depth, deepest_of};

use crate::expressions::{Grammar, expr_place};
use containers::List;
use elan_cursor::Cursor;
use elan_cursor::kind::{WORD_LEVEL, selects};
use elan_cursor::made::{both, boxed_and, longer, tall};
use elan_cursor::passing::before_sign;
use elan_grammar::ParseError;
use elan_grammar::tall::{Tall, and, boxed, single};
use elan_tree::{Expr, Key, Name, Sign, Unit};
use std::alloc::Global;

#[tactic(auto, unfolding(elan_grammar::specs::Expressions::field_part))]
fn field_part(
    alloc: Global,
    cursor: &mut Cursor<'_>,
    height: u32,
    depth: u16,
) -> Result<Name, ParseError>
    ensures parses { Gives ((spec.field_part (units.phrases depth) depth height).run cursor.old.rest.now) result cursor.new.rest.now }
    ensures below { IfOk result (λ _. height < depth) }
{
    let point = cursor.opening_sign(Sign::Point, height, depth);
    point.and(cursor.ident(alloc))
}

impl<
    E: Fn(Global, &mut Cursor<'_>, u16, u8) -> Result<Tall<Expr>, ParseError> + Copy,
    U: Fn(Global, &mut Cursor<'_>, u16) -> Result<Tall<List<Unit>>, ParseError> + Copy,
> Grammar<E, U> {
    #[tactic(auto, unfolding(elan_grammar::specs::Expressions::bracket))]
    fn bracket(&self, cursor: &mut Cursor<'_>) -> Result<Tall<Expr>, ParseError>
        requires { Nests E.Fn U.Fn self.now }
        ensures { Parses (spec.bracket (units.phrases self.now.depth) self.now.depth) expr_depth (AtMost self.now.depth)
            cursor.old.rest.now result cursor.new.rest.now }
    {
        let at = cursor.opening_sign(Sign::LeftRound, 0, self.depth);
        let inner = boxed(self.alloc, self.inner(cursor, WORD_LEVEL));
        let (at, inner) = both(at, before_sign(inner, cursor, Sign::RightRound))?;
        Ok(Tall {
            tree: Expr::Bracket(at, inner.tree),
            height: inner.height + 1,
        })
    }

    #[tactic(auto, unfolding(elan_grammar::specs::Expressions::concr))]
    fn concr(&self, cursor: &mut Cursor<'_>) -> Result<Tall<Expr>, ParseError>
        requires { Nests E.Fn U.Fn self.now }
        ensures { Parses (spec.concr (units.phrases self.now.depth) self.now.depth) expr_depth (AtMost self.now.depth)
            cursor.old.rest.now result cursor.new.rest.now }
    {
        let at = cursor.opening(Key::Concr, self.depth);
        let at = before_sign(at, cursor, Sign::LeftRound);
        let inner = boxed(self.alloc, self.inner(cursor, WORD_LEVEL));
        let (at, inner) = both(at, before_sign(inner, cursor, Sign::RightRound))?;
        Ok(Tall {
            tree: Expr::Concr(at, inner.tree),
            height: inner.height + 1,
        })
    }

    #[tactic(auto, unfolding(elan_grammar::specs::Expressions::procedure))]
    fn procedure(&self, cursor: &mut Cursor<'_>) -> Result<Expr, ParseError>
        ensures { Gives ((spec.procedure (units.phrases self.now.depth) self.now.depth).run cursor.old.rest.now) result cursor.new.rest.now }
    {
        let (at, name) = both(cursor.keyword(Key::Proc), cursor.ident(self.alloc))?;
        Ok(Expr::Procedure(at, name))
    }

    #[tactic(auto, unfolding(elan_grammar::specs::Expressions::actual, elan_grammar::specs::Expressions::procedure), using(elan_grammar::proofs::Starts::of_expressions))]
    fn actual(&self, cursor: &mut Cursor<'_>) -> Result<Tall<Expr>, ParseError>
        requires nests { Nests E.Fn U.Fn self.now }
        requires room { 0 < self.now.depth }
        ensures { Parses (spec.actual (units.phrases self.now.depth) self.now.depth) expr_depth (Below self.now.depth)
            cursor.old.rest.now result cursor.new.rest.now }
    {
        if cursor.sees_key(Key::Proc) {
            return tall(self.procedure(cursor), 0);
        }
        self.inner(cursor, WORD_LEVEL)
    }

    #[tactic(auto, unfolding(elan_grammar::specs::Expressions::actuals), using(elan_grammar::proofs::Turns::turns, elan_grammar::proofs::Deepest::deepens))]
    fn actuals(&self, cursor: &mut Cursor<'_>) -> Result<Tall<List<Expr>>, ParseError>
        requires nests { Nests E.Fn U.Fn self.now }
        requires room { 0 < self.now.depth }
        ensures { Parses (spec.actuals (units.phrases self.now.depth) self.now.depth) (deepest_of expr_depth) (Below self.now.depth)
            cursor.old.rest.now result cursor.new.rest.now }
    {
        let mut row = single(self.alloc, self.actual(cursor));
        for _turn in 0..cursor.rest.len() {
            if !cursor.passes_sign(Sign::Comma) {
                return row;
            }
            row = longer(row, self.actual(cursor));
        }
        row
    }

    #[tactic(auto, unfolding(elan_grammar::specs::Expressions::call))]
    fn call(&self, cursor: &mut Cursor<'_>, name: Name) -> Result<Tall<Expr>, ParseError>
        requires { Nests E.Fn U.Fn self.now }
        ensures { Parses (spec.call (units.phrases self.now.depth) self.now.depth name) expr_depth (AtMost self.now.depth)
            cursor.old.rest.now result cursor.new.rest.now }
    {
        let opening = cursor.opening_sign(Sign::LeftRound, 0, self.depth);
        let (name, _) = and(name, opening)?;
        let row = before_sign(self.actuals(cursor), cursor, Sign::RightRound);
        let (name, row) = and(name, row)?;
        let tree = Expr::Call(name, row.tree);
        Ok(Tall {
            tree,
            height: row.height + 1,
        })
    }

    #[tactic(auto, unfolding(elan_grammar::specs::Expressions::named, elan_grammar::specs::Expressions::call))]
    fn named(&self, cursor: &mut Cursor<'_>) -> Result<Tall<Expr>, ParseError>
        requires { Nests E.Fn U.Fn self.now }
        ensures { Parses (spec.named (units.phrases self.now.depth) self.now.depth) expr_depth (AtMost self.now.depth)
            cursor.old.rest.now result cursor.new.rest.now }
    {
        let name = cursor.ident(self.alloc)?;
        if cursor.sees_sign(Sign::LeftRound) {
            return self.call(cursor, name);
        }
        Ok(Tall {
            tree: Expr::Named(name),
            height: 0,
        })
    }

    #[tactic(auto, unfolding(elan_grammar::specs::Expressions::head), using(elan_grammar::proofs::Starts::of_expressions))]
    fn head(&self, cursor: &mut Cursor<'_>) -> Result<Tall<Expr>, ParseError>
        requires { Nests E.Fn U.Fn self.now }
        ensures { Parses (spec.head (units.phrases self.now.depth) self.now.depth) expr_depth (AtMost self.now.depth)
            cursor.old.rest.now result cursor.new.rest.now }
    {
        if cursor.sees_literal() {
            tall(cursor.literal(self.alloc), 0)
        } else if cursor.sees_sign(Sign::LeftRound) {
            self.bracket(cursor)
        } else if cursor.sees_key(Key::Concr) {
            self.concr(cursor)
        } else if cursor.sees_key(Key::If) {
            self.forms().choice(cursor)
        } else if cursor.sees_key(Key::Select) {
            self.forms().selection(cursor)
        } else {
            self.named(cursor)
        }
    }

    #[tactic(auto, unfolding(elan_grammar::specs::Expressions::index_part))]
    fn index_part(&self, cursor: &mut Cursor<'_>, height: u32) -> Result<Tall<Expr>, ParseError>
        requires { Nests E.Fn U.Fn self.now }
        ensures parses { Parses (spec.index_part (units.phrases self.now.depth) self.now.depth height) expr_depth (Below self.now.depth)
            cursor.old.rest.now result cursor.new.rest.now }
        ensures below { IfOk result (λ _. height < self.now.depth) }
    {
        let opening = cursor.opening_sign(Sign::LeftSquare, height, self.depth);
        let index = self.inner(cursor, WORD_LEVEL);
        opening.and(before_sign(index, cursor, Sign::RightSquare))
    }

    #[tactic(auto, unfolding(elan_grammar::specs::Expressions::index))]
    fn index(&self, cursor: &mut Cursor<'_>, of: Tall<Expr>) -> Result<Tall<Expr>, ParseError>
        requires nests { Nests E.Fn U.Fn self.now }
        requires tall { of.height ≡ expr_depth of.tree }
        ensures { Parses (spec.index (units.phrases self.now.depth) self.now.depth of.tree) expr_depth (AtMost self.now.depth)
            cursor.old.rest.now result cursor.new.rest.now }
    {
        let at = expr_place(&of.tree);
        let height = of.height;
        let index = boxed(self.alloc, self.index_part(cursor, height));
        let (of, index) = boxed_and(self.alloc, of, index)?;
        let height = height.max(index.height) + 1;
        let tree = Expr::Index {
            at,
            of: of.tree,
            index: index.tree,
        };
        Ok(Tall { tree, height })
    }

    #[tactic(auto, unfolding(elan_grammar::specs::Expressions::field_of))]
    fn field_of(&self, cursor: &mut Cursor<'_>, of: Tall<Expr>) -> Result<Tall<Expr>, ParseError>
        requires nests { Nests E.Fn U.Fn self.now }
        requires tall { of.height ≡ expr_depth of.tree }
        ensures { Parses (spec.field_of (units.phrases self.now.depth) self.now.depth of.tree) expr_depth (AtMost self.now.depth)
            cursor.old.rest.now result cursor.new.rest.now }
    {
        let height = of.height;
        let at = expr_place(&of.tree);
        let field = field_part(self.alloc, cursor, height, self.depth);
        let (of, field) = boxed_and(self.alloc, of, field)?;
        let tree = Expr::Field {
            at,
            of: of.tree,
            field,
        };
        Ok(Tall {
            tree,
            height: height + 1,
        })
    }

    #[tactic(auto, unfolding(elan_grammar::specs::Expressions::longer), using(elan_grammar::proofs::Starts::of_expressions))]
    fn longer(&self, cursor: &mut Cursor<'_>, of: Tall<Expr>) -> Result<Tall<Expr>, ParseError>
        requires nests { Nests E.Fn U.Fn self.now }
        requires tall { of.height ≡ expr_depth of.tree }
        ensures { Parses (spec.longer (units.phrases self.now.depth) self.now.depth of.tree) expr_depth (AtMost self.now.depth)
            cursor.old.rest.now result cursor.new.rest.now }
    {
        if cursor.sees_sign(Sign::LeftSquare) {
            self.index(cursor, of)
        } else {
            self.field_of(cursor, of)
        }
    }

    /// What no operator takes apart, with the indices and fields behind it.
    #[tactic(auto, unfolding(elan_grammar::specs::Expressions::prim), using(elan_grammar::proofs::Turns::turns, elan_grammar::proofs::Starts::of_expressions))]
    pub fn prim(&self, cursor: &mut Cursor<'_>) -> Result<Tall<Expr>, ParseError>
        requires { Nests E.Fn U.Fn self.now }
        ensures { Parses (spec.prim (units.phrases self.now.depth) self.now.depth) expr_depth (AtMost self.now.depth)
            cursor.old.rest.now result cursor.new.rest.now }
    {
        let mut of = self.head(cursor)?;
        for _turn in 0..cursor.rest.len() {
            if !cursor.sees_sign(Sign::LeftSquare) && !selects(cursor.ahead()) {
                return Ok(of);
            }
            of = self.longer(cursor, of)?;
        }
        Ok(of)
    }
}
