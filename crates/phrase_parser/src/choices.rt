//! IF and SELECT.

ghost use Rattle.std.specs.Prelude.{◌<◌, ◌+◌, ◌-◌, max};
ghost use Rattle.elan_grammar.specs.Rule.{Gives, Parses, AtMost, Below};
ghost use Rattle.elan_grammar.specs.Expressions as spec;
ghost use Rattle.elan_grammar.specs.Units as units;
ghost use Rattle.phrase_parser.specs.FormNests.{Nests};
ghost use Rattle.elan_grammar.specs.Depth.{expr_depth, branch_depth, case_depth, unit_depth, deepest_of, if_any};

use crate::inner::Inner;
use crate::labels::labels;
use containers::List;
use elan_cursor::Cursor;
use elan_cursor::kind::WORD_LEVEL;
use elan_cursor::made::{before, both, longer, some};
use elan_cursor::passing::{before_end, before_key, before_sign};
use elan_grammar::tall::{Tall, boxed, single};
use elan_grammar::{ParseError, SelectParts};
use elan_tree::{Branch, Case, Expr, Key, Sign, Unit};
use std::alloc::Global;

#[tactic(auto, unfolding(elan_grammar::specs::Expressions::choice_end), using(elan_grammar::proofs::Starts::of_expressions))]
fn choice_end(cursor: &mut Cursor<'_>) -> Result<u32, ParseError>
    ensures { Gives ((spec.choice_end).run cursor.old.rest.now) result cursor.new.rest.now }
{
    if cursor.sees_key(Key::End) {
        cursor.end_of(Key::If)
    } else {
        cursor.keyword(Key::Fi)
    }
}

impl<
    E: Fn(Global, &mut Cursor<'_>, u16, u8) -> Result<Tall<Expr>, ParseError>,
    U: Fn(Global, &mut Cursor<'_>, u16) -> Result<Tall<List<Unit>>, ParseError>,
> Inner<E, U> {
    #[tactic(auto, unfolding(elan_grammar::specs::Expressions::branch))]
    fn branch(&self, cursor: &mut Cursor<'_>) -> Result<Tall<Branch>, ParseError>
        requires { Nests E.Fn U.Fn self.now }
        ensures { Parses (spec.branch (units.phrases self.now.depth) self.now.depth) branch_depth (Below self.now.depth)
            cursor.old.rest.now result cursor.new.rest.now }
    {
        let condition = self.expression(cursor, WORD_LEVEL);
        let condition = before_key(condition, cursor, Key::Then);
        let (condition, units) = both(condition, self.units(cursor))?;
        let height = condition.height.max(units.height);
        let tree = Branch {
            condition: condition.tree,
            units: units.tree,
        };
        Ok(Tall { tree, height })
    }

    #[tactic(auto, unfolding(elan_grammar::specs::Expressions::branches), using(elan_grammar::proofs::Turns::turns, elan_grammar::proofs::Deepest::deepens))]
    fn branches(&self, cursor: &mut Cursor<'_>) -> Result<Tall<List<Branch>>, ParseError>
        requires { Nests E.Fn U.Fn self.now }
        ensures { Parses (spec.branches (units.phrases self.now.depth) self.now.depth) (deepest_of branch_depth) (Below self.now.depth)
            cursor.old.rest.now result cursor.new.rest.now }
    {
        let mut row = single(self.alloc, self.branch(cursor));
        for _turn in 0..cursor.rest.len() {
            if !cursor.passes_key(Key::Elif) {
                return row;
            }
            row = longer(row, self.branch(cursor));
        }
        row
    }

    #[tactic(auto, unfolding(elan_grammar::specs::Expressions::else_part))]
    fn else_part(&self, cursor: &mut Cursor<'_>) -> Result<Tall<Option<List<Unit>>>, ParseError>
        requires nests { Nests E.Fn U.Fn self.now }
        requires room { 0 < self.now.depth }
        ensures { Parses (spec.else_part (units.phrases self.now.depth) self.now.depth) (if_any (deepest_of unit_depth)) (Below self.now.depth)
            cursor.old.rest.now result cursor.new.rest.now }
    {
        if !cursor.passes_key(Key::Else) {
            return Ok(Tall {
                tree: None,
                height: 0,
            });
        }
        some(self.units(cursor))
    }

    /// IF with its branches.
    #[tactic(auto, unfolding(elan_grammar::specs::Expressions::choice, elan_grammar::specs::Expressions::choice_end))]
    pub fn choice(&self, cursor: &mut Cursor<'_>) -> Result<Tall<Expr>, ParseError>
        requires { Nests E.Fn U.Fn self.now }
        ensures { Parses (spec.choice (units.phrases self.now.depth) self.now.depth) expr_depth (AtMost self.now.depth)
            cursor.old.rest.now result cursor.new.rest.now }
    {
        let at = cursor.opening(Key::If, self.depth)?;
        let branches = self.branches(cursor);
        let otherwise = before(self.else_part(cursor), choice_end(cursor));
        let (branches, otherwise) = both(branches, otherwise)?;
        let height = branches.height.max(otherwise.height);
        let tree = Expr::If {
            at,
            branches: branches.tree,
            otherwise: otherwise.tree,
        };
        Ok(Tall {
            tree,
            height: height + 1,
        })
    }

    #[tactic(auto, unfolding(elan_grammar::specs::Expressions::a_case))]
    fn a_case(&self, cursor: &mut Cursor<'_>) -> Result<Tall<Case>, ParseError>
        requires { Nests E.Fn U.Fn self.now }
        ensures { Parses (spec.a_case (units.phrases self.now.depth) self.now.depth) case_depth (Below self.now.depth)
            cursor.old.rest.now result cursor.new.rest.now }
    {
        let start = cursor.keyword(Key::Case);
        let labels = before_sign(labels(self.alloc, cursor), cursor, Sign::Colon);
        let (labels, units) = start.and(both(labels, self.units(cursor)))?;
        let tree = Case {
            labels,
            units: units.tree,
        };
        Ok(Tall {
            tree,
            height: units.height,
        })
    }

    #[tactic(auto, unfolding(elan_grammar::specs::Expressions::cases), using(elan_grammar::proofs::Turns::turns, elan_grammar::proofs::Deepest::deepens, elan_grammar::proofs::Starts::of_expressions))]
    fn cases(&self, cursor: &mut Cursor<'_>) -> Result<Tall<List<Case>>, ParseError>
        requires { Nests E.Fn U.Fn self.now }
        ensures { Parses (spec.cases (units.phrases self.now.depth) self.now.depth) (deepest_of case_depth) (Below self.now.depth)
            cursor.old.rest.now result cursor.new.rest.now }
    {
        let mut row = single(self.alloc, self.a_case(cursor));
        for _turn in 0..cursor.rest.len() {
            if !cursor.sees_key(Key::Case) {
                return row;
            }
            row = longer(row, self.a_case(cursor));
        }
        row
    }

    #[tactic(auto, unfolding(elan_grammar::specs::Expressions::otherwise_part))]
    fn otherwise_part(
        &self,
        cursor: &mut Cursor<'_>,
    ) -> Result<Tall<Option<List<Unit>>>, ParseError>
        requires nests { Nests E.Fn U.Fn self.now }
        requires room { 0 < self.now.depth }
        ensures { Parses (spec.otherwise_part (units.phrases self.now.depth) self.now.depth) (if_any (deepest_of unit_depth)) (Below self.now.depth)
            cursor.old.rest.now result cursor.new.rest.now }
    {
        if !cursor.passes_key(Key::Otherwise) {
            return Ok(Tall {
                tree: None,
                height: 0,
            });
        }
        let _colon = cursor.passes_sign(Sign::Colon);
        some(self.units(cursor))
    }

    #[tactic(auto, unfolding(elan_grammar::specs::Expressions::select_parts))]
    fn select_parts(&self, cursor: &mut Cursor<'_>) -> Result<Tall<SelectParts>, ParseError>
        requires nests { Nests E.Fn U.Fn self.now }
        requires room { 0 < self.now.depth }
        ensures { Parses (spec.select_parts (units.phrases self.now.depth) self.now.depth)
            (λ t. max (deepest_of case_depth t.cases) (if_any (deepest_of unit_depth) t.otherwise)) (Below self.now.depth)
            cursor.old.rest.now result cursor.new.rest.now }
    {
        let cases = self.cases(cursor);
        let otherwise = before_end(self.otherwise_part(cursor), cursor, Key::Select);
        let (cases, otherwise) = both(cases, otherwise)?;
        let height = cases.height.max(otherwise.height);
        let tree = SelectParts {
            cases: cases.tree,
            otherwise: otherwise.tree,
        };
        Ok(Tall { tree, height })
    }

    /// SELECT with its cases.
    #[tactic(auto, unfolding(elan_grammar::specs::Expressions::selection))]
    pub fn selection(&self, cursor: &mut Cursor<'_>) -> Result<Tall<Expr>, ParseError>
        requires { Nests E.Fn U.Fn self.now }
        ensures { Parses (spec.selection (units.phrases self.now.depth) self.now.depth) expr_depth (AtMost self.now.depth)
            cursor.old.rest.now result cursor.new.rest.now }
    {
        let at = cursor.opening(Key::Select, self.depth)?;
        let of = boxed(self.alloc, self.expression(cursor, WORD_LEVEL));
        let of = before_key(of, cursor, Key::Of);
        let (of, parts) = both(of, self.select_parts(cursor))?;
        let height = of.height.max(parts.height);
        let SelectParts { cases, otherwise } = parts.tree;
        let tree = Expr::Select {
            at,
            of: of.tree,
            cases,
            otherwise,
        };
        Ok(Tall {
            tree,
            height: height + 1,
        })
    }
}
