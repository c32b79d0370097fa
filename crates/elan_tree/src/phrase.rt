//! Expressions and units.

use crate::token::Sign;
use crate::written_type::{Label, LetItem, Name, TypePhrase};
use containers::{Boxed, Bytes, List};

/// An operator that a program may define.
#[derive(Drop)]
pub enum Operator {
    /// One of `+ - * = <> < <= > >= :=`.
    Sign(Sign),
    /// A bold word, by its letters.
    Named(Bytes),
}

/// An expression. Its place, `at`, is that of its first byte.
#[cycle(phrases)]
#[derive(Drop)]
pub enum Expr {
    /// A number, from 0 to 32,767.
    Number(u32, i16),
    /// A text denoter, by the characters that it stands for.
    Text(u32, Bytes),
    /// `TRUE` or `FALSE`.
    Truth(u32, bool),
    /// An identifier without actuals.
    Named(Name),
    /// An identifier with actuals, which are never none.
    Call(Name, List<Expr>),
    /// `PROC p` as an actual parameter.
    Procedure(u32, Name),
    /// `CONCR (e)`
    Concr(u32, Boxed<Expr>),
    /// `(e)`
    Bracket(u32, Boxed<Expr>),
    /// The branches of IF and ELIF, and the units of ELSE.
    If {
        at: u32,
        branches: List<Branch>,
        otherwise: Option<List<Unit>>,
    },
    /// The value to choose by, the cases, and the units of OTHERWISE.
    Select {
        at: u32,
        of: Boxed<Expr>,
        cases: List<Case>,
        otherwise: Option<List<Unit>>,
    },
    /// `of [index]`
    Index {
        at: u32,
        of: Boxed<Expr>,
        index: Boxed<Expr>,
    },
    /// `of.field`
    Field {
        at: u32,
        of: Boxed<Expr>,
        field: Name,
    },
    /// An operator and its one operand.
    Monadic {
        at: u32,
        operator: Operator,
        operand: Boxed<Expr>,
    },
    /// An operator between two operands.
    Dyadic {
        at: u32,
        operator: Operator,
        left: Boxed<Expr>,
        right: Boxed<Expr>,
    },
    /// `left CAND right`
    Cand {
        at: u32,
        left: Boxed<Expr>,
        right: Boxed<Expr>,
    },
    /// `left COR right`
    Cor {
        at: u32,
        left: Boxed<Expr>,
        right: Boxed<Expr>,
    },
}

/// A condition, and the units that it guards.
#[cycle(phrases)]
#[derive(Drop)]
pub struct Branch {
    /// What is asked.
    pub condition: Expr,
    /// What is done where the answer is TRUE.
    pub units: List<Unit>,
}

/// Labels, and the units that they choose.
#[cycle(phrases)]
#[derive(Drop)]
pub struct Case {
    /// At least one.
    pub labels: List<Label>,
    /// What is done where a label is the value.
    pub units: List<Unit>,
}

/// A name that is declared, with its initial value.
#[cycle(phrases)]
#[derive(Drop)]
pub struct Item {
    /// The name.
    pub name: Name,
    /// What stands behind `::` or `:=`.
    pub init: Option<Expr>,
}

/// The counter of a loop.
#[cycle(phrases)]
#[derive(Drop)]
pub struct Counter {
    /// The variable that counts.
    pub name: Name,
    /// What it begins with; 1 where nothing is written.
    pub from: Option<Expr>,
    /// Where it ends.
    pub limit: Limit,
}

/// Where a counter ends.
#[cycle(phrases)]
#[derive(Drop)]
pub enum Limit {
    /// Nothing is written: it counts up.
    Without,
    /// It counts up to this number.
    Upto(Expr),
    /// It counts down to this number.
    Downto(Expr),
}

/// A unit that may stand in any list of units. Its place, `at`, is that of its first byte.
#[cycle(phrases)]
#[derive(Drop)]
pub enum Unit {
    /// Nothing between two semicolons.
    Empty,
    /// `LET a = 1, T = INT`
    Let(u32, List<LetItem>),
    /// `INT VAR a, b :: 1`
    Variables(u32, TypePhrase, List<Item>),
    /// `INT CONST c :: 1`
    Constants(u32, TypePhrase, List<Item>),
    /// `BOUND INT VAR b`
    Bound(u32, TypePhrase, List<Item>),
    /// An expression that stands alone.
    Value(Expr),
    /// `left := right`
    Becomes {
        at: u32,
        left: Expr,
        right: Expr,
    },
    /// A loop: its counter, the condition of WHILE, the units, the condition of UNTIL.
    Loop {
        at: u32,
        counter: Option<Boxed<Counter>>,
        condition: Option<Expr>,
        units: List<Unit>,
        until: Option<Expr>,
    },
    /// LEAVE with the name of a body, and the value of WITH.
    Leave {
        at: u32,
        name: Name,
        value: Option<Expr>,
    },
}
