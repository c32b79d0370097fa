//! What follows the end of a command, and sons.
#![tactic(auto)]

mod behind;
pub mod below;
mod going;
mod settling;
mod sons;

pub use going::all_let_go;
pub use settling::settle;
pub use sons::son;
