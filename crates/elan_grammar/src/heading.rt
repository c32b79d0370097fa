//! Parts of phrases, as they are read together.

use containers::List;
use elan_tree::{Body, Case, Expr, Formal, Name, OperatorName, Unit};

/// What stands in a PROC behind the type of its result.
#[derive(Drop)]
pub struct ProcParts {
    pub at: u32,
    pub name: Name,
    pub formals: List<Formal>,
    pub body: Body,
}

/// What stands in an OP behind the type of its result.
#[derive(Drop)]
pub struct OperatorParts {
    pub at: u32,
    pub name: OperatorName,
    pub formals: List<Formal>,
    pub body: Body,
}

/// What stands in a SELECT behind OF.
#[derive(Drop)]
pub struct SelectParts {
    pub cases: List<Case>,
    pub otherwise: Option<List<Unit>>,
}

/// What stands in a loop from its REP on.
#[derive(Drop)]
pub struct LoopParts {
    /// The place of REP.
    pub start: u32,
    pub units: List<Unit>,
    pub until: Option<Expr>,
}
