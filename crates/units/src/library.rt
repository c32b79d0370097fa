//! How many packets can live, and their numbers.

/// So many packets can live.
pub const PACKETS: usize = 64;

/// The last number that a packet can have.
pub const LAST_NUMBER: u32 = u32::MAX;
