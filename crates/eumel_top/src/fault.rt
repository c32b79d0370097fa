//! Why a line of a session is not served.

/// Why a line of a session is not served.
#[derive(Clone, Copy, PartialEq, Eq)]
pub enum LineFault {
    /// The line of this number, from 1, is of no form.
    BadLine(u32),
    /// The sink failed.
    SinkFault,
    /// Memory was wanting.
    NoMemory,
}
