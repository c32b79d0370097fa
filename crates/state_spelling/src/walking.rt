//! How far revival has come.

use code_form::Operand;
use eu_base::List;
use zero_state::Stack;

/// The body of the innermost frame, the cells that are in use without its limits, what is pending and the frames, and the operands that are
/// left, the next one last.
#[derive(Drop)]
pub struct Walking {
    pub body: Option<usize>,
    pub floor: usize,
    pub stack: Stack,
    pub left: List<Operand>,
}
