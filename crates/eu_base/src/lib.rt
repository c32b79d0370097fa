//! Values that every layer shares: the containers again, numbers as text; what a program computes with, why
//! it stops, what it asks for, and the memory and the data spaces that it runs over.
#![tactic(auto)]

mod address;
mod backing;
pub mod below;
mod cells;
mod law;
mod number;
mod operand;
mod operation;
mod request;
mod revive;
mod set;
mod shape;
mod space;
mod space_operation;
mod stop;
mod text_operation;
mod value;

pub use address::{Addr, Area, CELLS};
pub use backing::{Backing, Nowhere};
pub use cells::{MemFault, Memory};
pub use containers::{Boxed, Bytes, List, NoMemory, Shared};
pub use law::data_spaces_stay_sound;
pub use number::decimal;
pub use operand::{number_at, space_at, text_at};
pub use operation::{Change, Operation, Way};
pub use request::{Reply, Request, RequestName};
pub use revive::ReviveError;
pub use set::Set;
pub use shape::Shape;
pub use space::{SPACE_BYTES, Space};
pub use space_operation::{LONGEST_NAME, SpaceOperation, is_name};
pub use stop::Stop;
pub use task_numbers::SpaceNo;
pub use text_operation::TextOperation;
pub use value::{
    CELL_BYTES, Kind, OPERAND_BYTES, TEXT_BYTES, Value, number_in, space_in, task_in, truth_in,
};
