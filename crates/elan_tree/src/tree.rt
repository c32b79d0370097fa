//! Programs and packets.

use crate::phrase::{Operator, Unit};
use crate::token::Sign;
use crate::written_type::{Formal, Name, TypePhrase};
use containers::List;

/// A text as it is written.
#[derive(Drop)]
pub enum Tree {
    /// A program: a level alone.
    Program(Level),
    /// A packet, with the names that it offers.
    Packet {
        at: u32,
        name: Name,
        exports: List<Export>,
        level: Level,
    },
}

// A crate above that lets a tree go by this call proves nothing of how its parts are let go.
impl Tree {
    /// Lets it go, with all its parts.
    pub fn let_go(self) {}
}

/// A name that a packet offers.
#[derive(Drop)]
pub enum Export {
    /// A PROC or constant, by its name.
    Ident(Name),
    /// A type or operator, by its name.
    Bold(Name),
    /// An operator that is a sign.
    Sign(u32, Sign),
}

/// The units of a program or packet, and its refinements.
#[derive(Drop)]
pub struct Level {
    /// What it declares and does, in text order.
    pub units: List<LevelUnit>,
    /// Those behind its point.
    pub refinements: List<Refinement>,
}

/// A unit of a program or packet. Its place, `at`, is that of its first byte.
#[derive(Drop)]
pub enum LevelUnit {
    /// A unit that may stand in any list.
    Plain(Unit),
    /// `TYPE NAME = of`
    NewType {
        at: u32,
        name: Name,
        of: TypePhrase,
    },
    /// `result PROC name (formals): body END PROC`
    Proc {
        at: u32,
        result: Option<TypePhrase>,
        name: Name,
        formals: List<Formal>,
        body: Body,
    },
    /// `result OP name (formals): body END OP`
    Op {
        at: u32,
        result: Option<TypePhrase>,
        name: OperatorName,
        formals: List<Formal>,
        body: Body,
    },
}

/// The name of an operator, where it stands.
#[derive(Drop)]
pub struct OperatorName {
    /// The place of its first byte.
    pub at: u32,
    /// A sign or a bold word.
    pub operator: Operator,
}

/// The units of a PROC or OP, and its refinements.
#[derive(Drop)]
pub struct Body {
    /// What it declares and does, in text order.
    pub units: List<Unit>,
    /// Those behind its point.
    pub refinements: List<Refinement>,
}

/// Units under a name.
#[derive(Drop)]
pub struct Refinement {
    /// The name.
    pub name: Name,
    /// What stands behind the colon.
    pub units: List<Unit>,
}
