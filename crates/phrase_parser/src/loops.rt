//! Loops.

ghost use Rattle.std.specs.Prelude.{◌<◌, max, Some};
ghost use Rattle.elan_grammar.specs.Rule.{Gives, Parses, AtMost, Below, IsTall};
ghost use Rattle.elan_grammar.specs.Units as units;
ghost use Rattle.phrase_parser.specs.FormNests.{Nests};
ghost use Rattle.elan_grammar.specs.Depth.{expr_depth, unit_depth, limit_depth, counter_depth, deepest_of, if_any};

use crate::inner::Inner;
use containers::{Boxed, List};
use elan_cursor::Cursor;
use elan_cursor::kind::WORD_LEVEL;
use elan_cursor::made::{before, both, some};
use elan_grammar::tall::{Tall, and, boxed};
use elan_grammar::{LoopParts, ParseError};
use elan_tree::{Counter, Expr, Key, Limit, Unit};
use std::alloc::Global;

#[tactic(auto, unfolding(elan_grammar::specs::Units::loop_end))]
fn loop_end(cursor: &mut Cursor<'_>) -> Result<u32, ParseError>
    ensures { Gives ((units.loop_end).run cursor.old.rest.now) result cursor.new.rest.now }
{
    if cursor.passes_key(Key::End) {
        cursor.rep()
    } else {
        cursor.keyword(Key::Per)
    }
}

impl<
    E: Fn(Global, &mut Cursor<'_>, u16, u8) -> Result<Tall<Expr>, ParseError>,
    U: Fn(Global, &mut Cursor<'_>, u16) -> Result<Tall<List<Unit>>, ParseError>,
> Inner<E, U> {
    #[tactic(auto, unfolding(elan_grammar::specs::Units::a_limit, elan_grammar::specs::Units::upto, elan_grammar::specs::Units::downto), using(elan_grammar::proofs::Starts::of_units))]
    fn a_limit(&self, cursor: &mut Cursor<'_>) -> Result<Tall<Limit>, ParseError>
        requires nests { Nests E.Fn U.Fn self.now }
        requires room { 0 < self.now.depth }
        ensures { Parses (units.a_limit (units.phrases self.now.depth) self.now.depth) limit_depth (Below self.now.depth)
            cursor.old.rest.now result cursor.new.rest.now }
    {
        if cursor.passes_key(Key::Upto) {
            let a = self.expression(cursor, WORD_LEVEL)?;
            Ok(Tall {
                tree: Limit::Upto(a.tree),
                height: a.height,
            })
        } else if cursor.passes_key(Key::Downto) {
            let a = self.expression(cursor, WORD_LEVEL)?;
            Ok(Tall {
                tree: Limit::Downto(a.tree),
                height: a.height,
            })
        } else {
            Ok(Tall {
                tree: Limit::Without,
                height: 0,
            })
        }
    }

    /// An expression behind a keyword, where that stands next.
    #[tactic(auto, unfolding(elan_grammar::specs::Units::key_part))]
    pub fn key_part(
        &self,
        cursor: &mut Cursor<'_>,
        key: Key,
    ) -> Result<Tall<Option<Expr>>, ParseError>
        requires nests { Nests E.Fn U.Fn self.now }
        requires room { 0 < self.now.depth }
        ensures { Parses (units.key_part (units.phrases self.now.depth) self.now.depth key) (if_any expr_depth) (Below self.now.depth)
            cursor.old.rest.now result cursor.new.rest.now }
    {
        if !cursor.passes_key(key) {
            return Ok(Tall {
                tree: None,
                height: 0,
            });
        }
        some(self.expression(cursor, WORD_LEVEL))
    }

    #[tactic(auto, unfolding(elan_grammar::specs::Units::counter))]
    fn counter(&self, cursor: &mut Cursor<'_>) -> Result<Tall<Option<Boxed<Counter>>>, ParseError>
        requires nests { Nests E.Fn U.Fn self.now }
        requires room { 0 < self.now.depth }
        ensures { Parses (units.counter (units.phrases self.now.depth) self.now.depth) (if_any counter_depth) (Below self.now.depth)
            cursor.old.rest.now result cursor.new.rest.now }
    {
        let name = cursor.ident(self.alloc);
        let from = self.key_part(cursor, Key::From);
        let range = both(from, self.a_limit(cursor));
        let (name, (from, limit)) = both(name, range)?;
        let height = from.height.max(limit.height);
        let counter = Counter {
            name,
            from: from.tree,
            limit: limit.tree,
        };
        let counter = Tall {
            tree: counter,
            height,
        };
        some(boxed(self.alloc, Ok(counter)))
    }

    #[tactic(auto, unfolding(elan_grammar::specs::Units::turn_parts))]
    fn turn_parts(&self, cursor: &mut Cursor<'_>) -> Result<Tall<LoopParts>, ParseError>
        requires nests { Nests E.Fn U.Fn self.now }
        requires room { 0 < self.now.depth }
        ensures { Parses (units.turn_parts (units.phrases self.now.depth) self.now.depth)
            (λ t. max (deepest_of unit_depth t.units) (if_any expr_depth t.until)) (Below self.now.depth) cursor.old.rest.now result cursor.new.rest.now }
    {
        let start = cursor.rep();
        let units = self.units(cursor);
        let until = before(self.key_part(cursor, Key::Until), loop_end(cursor));
        let (start, (units, until)) = both(start, both(units, until))?;
        let height = units.height.max(until.height);
        let tree = LoopParts {
            start,
            units: units.tree,
            until: until.tree,
        };
        Ok(Tall { tree, height })
    }

    #[tactic(auto, unfolding(elan_grammar::specs::Units::turns), using(crate::proofs::LoopDepth::loop_depth))]
    fn turns(
        &self,
        cursor: &mut Cursor<'_>,
        at: Option<u32>,
        counter: Tall<Option<Boxed<Counter>>>,
        condition: Tall<Option<Expr>>,
    ) -> Result<Tall<Unit>, ParseError>
        requires nests { Nests E.Fn U.Fn self.now }
        requires room { 0 < self.now.depth }
        requires counter { IsTall (if_any counter_depth) (Below self.now.depth) counter }
        requires condition { IsTall (if_any expr_depth) (Below self.now.depth) condition }
        ensures { Parses (units.turns (units.phrases self.now.depth) self.now.depth at counter.tree condition.tree) unit_depth (AtMost self.now.depth)
            cursor.old.rest.now result cursor.new.rest.now }
    {
        let (before, parts) = and((counter, condition), self.turn_parts(cursor))?;
        let (counter, condition) = before;
        let guards = condition.height.max(parts.height);
        let height = counter.height.max(guards);
        let LoopParts {
            start,
            units,
            until,
        } = parts.tree;
        let tree = Unit::Loop {
            at: at.unwrap_or(start),
            counter: counter.tree,
            condition: condition.tree,
            units,
            until,
        };
        Ok(Tall {
            tree,
            height: height + 1,
        })
    }

    /// A loop that begins with FOR.
    #[tactic(auto, unfolding(elan_grammar::specs::Units::counted))]
    pub fn counted(&self, cursor: &mut Cursor<'_>) -> Result<Tall<Unit>, ParseError>
        requires { Nests E.Fn U.Fn self.now }
        ensures { Parses (units.counted (units.phrases self.now.depth) self.now.depth) unit_depth (AtMost self.now.depth)
            cursor.old.rest.now result cursor.new.rest.now }
    {
        let at = cursor.opening(Key::For, self.depth)?;
        let counter = self.counter(cursor);
        let (counter, condition) = both(counter, self.key_part(cursor, Key::While))?;
        self.turns(cursor, Some(at), counter, condition)
    }

    /// A loop that begins with WHILE.
    #[tactic(auto, unfolding(elan_grammar::specs::Units::guarded))]
    pub fn guarded(&self, cursor: &mut Cursor<'_>) -> Result<Tall<Unit>, ParseError>
        requires { Nests E.Fn U.Fn self.now }
        ensures { Parses (units.guarded (units.phrases self.now.depth) self.now.depth) unit_depth (AtMost self.now.depth)
            cursor.old.rest.now result cursor.new.rest.now }
    {
        let at = cursor.opening(Key::While, self.depth)?;
        let a = self.expression(cursor, WORD_LEVEL)?;
        let counter = Tall {
            tree: None,
            height: 0,
        };
        let condition = Tall {
            tree: Some(a.tree),
            height: a.height,
        };
        self.turns(cursor, Some(at), counter, condition)
    }

    /// A loop that begins with REP.
    #[tactic(auto, unfolding(elan_grammar::specs::Units::repeated))]
    pub fn repeated(&self, cursor: &mut Cursor<'_>) -> Result<Tall<Unit>, ParseError>
        requires { Nests E.Fn U.Fn self.now }
        ensures { Parses (units.repeated (units.phrases self.now.depth) self.now.depth) unit_depth (AtMost self.now.depth)
            cursor.old.rest.now result cursor.new.rest.now }
    {
        cursor.below(0, self.depth)?;
        let counter = Tall {
            tree: None,
            height: 0,
        };
        let condition = Tall {
            tree: None,
            height: 0,
        };
        self.turns(cursor, None, counter, condition)
    }
}
