//! Expressions: each rule for what is at most `depth` deep, over what stands in it and is less deep.

ghost use Rattle.std.specs.Prelude.{◌≡◌, ◌<◌, ◌≤◌, ◌+◌, max, IfOk};
ghost use Rattle.elan_grammar.specs.Rule as rule;
ghost use Rattle.elan_grammar.specs.Rule.{Parses, AtMost, Below, IsTall};
ghost use Rattle.elan_grammar.specs.Kinds.{word_level};
ghost use Rattle.elan_grammar.specs.Expressions as spec;
ghost use Rattle.elan_grammar.specs.Units as units;
ghost use Rattle.phrase_parser.specs.ExpressionNests.{Nests};
ghost use Rattle.elan_grammar.specs.Depth.{expr_depth, expr_place};

use crate::Inner;
use containers::{Boxed, List};
use elan_cursor::Cursor;
use elan_cursor::kind::{OPERAND_LEVEL, WORD_LEVEL};
use elan_cursor::made::{both, boxed_and};
use elan_grammar::tall::{Tall, and, boxed};
use elan_grammar::{Joint, ParseError, Right};
use elan_tree::{Expr, Unit};
use std::alloc::Global;

/// The rules of phrases whose parts are less than `depth` deep, which the two functions parse.
#[derive(Drop)]
pub struct Grammar<E, U> {
    pub alloc: Global,
    pub depth: u16,
    pub expression: E,
    pub units: U,
}

/// The place where an expression begins.
pub fn expr_place(expr: &Expr) -> u32
    ensures { result ≡ expr_place expr.now }
{
    match expr {
        Expr::Number(at, _)
        | Expr::Text(at, _)
        | Expr::Truth(at, _)
        | Expr::Procedure(at, _)
        | Expr::Concr(at, _)
        | Expr::Bracket(at, _)
        | Expr::If { at, .. }
        | Expr::Select { at, .. }
        | Expr::Index { at, .. }
        | Expr::Field { at, .. }
        | Expr::Monadic { at, .. }
        | Expr::Dyadic { at, .. }
        | Expr::Cand { at, .. }
        | Expr::Cor { at, .. } => *at,
        Expr::Named(name) | Expr::Call(name, _) => name.at,
    }
}

/// Two operands and what joins them, at the place of the left one.
fn joined(at: u32, joint: Joint, left: Boxed<Expr>, right: Boxed<Expr>) -> Expr
    requires { at ≡ expr_place left }
    ensures tree { result ≡ spec.joined_by joint left right }
    ensures depth { expr_depth result ≡ max (expr_depth left) (expr_depth right) + 1 }
{
    match joint {
        Joint::Cand => Expr::Cand { at, left, right },
        Joint::Cor => Expr::Cor { at, left, right },
        Joint::Operator(operator) => Expr::Dyadic {
            at,
            operator,
            left,
            right,
        },
    }
}

impl<
    E: Fn(Global, &mut Cursor<'_>, u16, u8) -> Result<Tall<Expr>, ParseError> + Copy,
    U: Fn(Global, &mut Cursor<'_>, u16) -> Result<Tall<List<Unit>>, ParseError> + Copy,
> Grammar<E, U> {
    /// The rules of IF, SELECT and loops over the same parts.
    pub fn forms(&self) -> Inner<E, U>
        ensures alloc { result.alloc ≡ self.now.alloc }
        ensures depth { result.depth ≡ self.now.depth }
        ensures expression { result.expression ≡ self.now.expression }
        ensures units { result.units ≡ self.now.units }
    {
        Inner {
            alloc: self.alloc,
            depth: self.depth,
            expression: self.expression,
            units: self.units,
        }
    }

    /// An expression in another phrase.
    pub fn inner(&self, cursor: &mut Cursor<'_>, level: u8) -> Result<Tall<Expr>, ParseError>
        requires nests { Nests E.Fn U.Fn self.now }
        requires level { level ≤ word_level }
        ensures { Parses ((units.phrases self.now.depth).level level) expr_depth (Below self.now.depth) cursor.old.rest.now result cursor.new.rest.now }
    {
        (self.expression)(self.alloc, cursor, self.depth, level)
    }

    #[tactic(auto, unfolding(elan_grammar::specs::Expressions::applied))]
    fn applied(&self, cursor: &mut Cursor<'_>) -> Result<Tall<Expr>, ParseError>
        requires { Nests E.Fn U.Fn self.now }
        ensures { Parses (spec.applied (units.phrases self.now.depth) self.now.depth) expr_depth (AtMost self.now.depth)
            cursor.old.rest.now result cursor.new.rest.now }
    {
        let low = cursor.below(0, self.depth);
        let (_, (at, operator)) = both(low, cursor.monadic(self.alloc))?;
        let operand = boxed(self.alloc, self.inner(cursor, OPERAND_LEVEL));
        let (operator, operand) = and(operator, operand)?;
        let tree = Expr::Monadic {
            at,
            operator,
            operand: operand.tree,
        };
        Ok(Tall {
            tree,
            height: operand.height + 1,
        })
    }

    #[tactic(auto, unfolding(elan_grammar::specs::Expressions::operand), using(elan_grammar::proofs::Starts::of_expressions))]
    fn operand(&self, cursor: &mut Cursor<'_>) -> Result<Tall<Expr>, ParseError>
        requires { Nests E.Fn U.Fn self.now }
        ensures { Parses (spec.operand (units.phrases self.now.depth) self.now.depth) expr_depth (AtMost self.now.depth)
            cursor.old.rest.now result cursor.new.rest.now }
    {
        if cursor.sees_monadic() {
            self.applied(cursor)
        } else {
            self.prim(cursor)
        }
    }

    #[tactic(auto, unfolding(elan_grammar::specs::Expressions::right_part))]
    fn right_part(
        &self,
        cursor: &mut Cursor<'_>,
        level: u8,
        height: u32,
    ) -> Result<Tall<Right>, ParseError>
        requires nests { Nests E.Fn U.Fn self.now }
        requires level { level < word_level }
        ensures parses { Parses (spec.right_part (units.phrases self.now.depth) self.now.depth level height) (λ t. expr_depth t.operand) (Below self.now.depth)
            cursor.old.rest.now result cursor.new.rest.now }
        ensures below { IfOk result (λ _. height < self.now.depth) }
    {
        cursor.below(height, self.depth)?;
        let joint = cursor.joint(self.alloc, level + 1)?;
        let operand = boxed(self.alloc, self.inner(cursor, level));
        let (joint, operand) = and(joint, operand)?;
        let tree = Right {
            joint,
            operand: operand.tree,
        };
        Ok(Tall {
            tree,
            height: operand.height,
        })
    }

    #[tactic(auto, unfolding(elan_grammar::specs::Expressions::dyadic))]
    fn dyadic(
        &self,
        cursor: &mut Cursor<'_>,
        level: u8,
        left: Tall<Expr>,
    ) -> Result<Tall<Expr>, ParseError>
        requires nests { Nests E.Fn U.Fn self.now }
        requires level { level < word_level }
        requires tall { left.height ≡ expr_depth left.tree }
        ensures { Parses (spec.dyadic (units.phrases self.now.depth) self.now.depth level left.tree) expr_depth (AtMost self.now.depth)
            cursor.old.rest.now result cursor.new.rest.now }
    {
        let at = expr_place(&left.tree);
        let height = left.height;
        let right = self.right_part(cursor, level, height);
        let (left, right) = boxed_and(self.alloc, left, right)?;
        let height = height.max(right.height) + 1;
        let Right { joint, operand } = right.tree;
        Ok(Tall {
            tree: joined(at, joint, left.tree, operand),
            height,
        })
    }

    #[tactic(auto, using(elan_grammar::proofs::Turns::turns, elan_grammar::proofs::Starts::of_expressions))]
    fn more_dyadic(
        &self,
        cursor: &mut Cursor<'_>,
        level: u8,
        mut left: Tall<Expr>,
    ) -> Result<Tall<Expr>, ParseError>
        requires nests { Nests E.Fn U.Fn self.now }
        requires tall { IsTall expr_depth (AtMost self.now.depth) left }
        requires level { level < word_level }
        ensures { Parses (rule.iterate (spec.dyadic (units.phrases self.now.depth) self.now.depth level) left.tree)
            expr_depth (AtMost self.now.depth) cursor.old.rest.now result cursor.new.rest.now }
    {
        for _turn in 0..cursor.rest.len() {
            if !cursor.sees_joint(level + 1) {
                return Ok(left);
            }
            left = self.dyadic(cursor, level, left)?;
        }
        Ok(left)
    }

    /// An expression whose operators have at most this level, from 1 for those that hold most tightly to 6; at 0 an operand alone.
    pub fn level(&self, cursor: &mut Cursor<'_>, level: u8) -> Result<Tall<Expr>, ParseError>
        requires nests { Nests E.Fn U.Fn self.now }
        requires level { level ≤ word_level }
        ensures { Parses (spec.level (units.phrases self.now.depth) self.now.depth level) expr_depth (AtMost self.now.depth)
            cursor.old.rest.now result cursor.new.rest.now }
    {
        if level == OPERAND_LEVEL {
            return self.operand(cursor);
        }
        let left = self.level(cursor, level - 1)?;
        self.more_dyadic(cursor, level - 1, left)
    }
}
