//! Why a session comes to no end.

/// Why a session comes to no end.
#[derive(Clone, Copy, PartialEq, Eq)]
pub enum PlayError {
    /// Memory was wanting.
    NoMemory,
    /// The source failed before it showed what comes next.
    SourceFault,
    /// The sink failed.
    SinkFault,
}
