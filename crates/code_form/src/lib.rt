//! The instructions of the machine, code, and what code does.
#![tactic(auto)]

mod code;
mod halt;
mod instr;
mod operand;
mod text;
mod waits;

pub use code::{Code, Entry, Layout, Line, Spot, Start};
pub use halt::Halt;
pub use instr::Instr;
pub use operand::{Operand, OperandKind};
pub use text::listing;
pub use waits::Waits;
