//! The kinds of many cells, kept as the shapes that the cells are of; and the variables of packets.
#![tactic(auto)]

mod kinds;
mod packet;
mod same;
mod shape;

pub use kinds::CellKinds;
pub use packet::Packet;
pub use same::is_same;
pub use shape::count;
