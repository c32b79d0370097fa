//! What joins two operands.

use containers::Boxed;
use elan_tree::{Expr, Operator};

/// An operator that stands between two operands.
#[derive(Drop)]
pub enum Joint {
    Cand,
    Cor,
    Operator(Operator),
}

/// What joins an operand to the right, and that operand.
#[derive(Drop)]
pub struct Right {
    pub joint: Joint,
    pub operand: Boxed<Expr>,
}
