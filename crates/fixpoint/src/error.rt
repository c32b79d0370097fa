//! What a call on fixpoints answers where it fails.

use edge::Failed;
use thiserror::Error;

/// The disk failed, and its count of faults rose.
#[derive(Clone, Copy, Debug, PartialEq, Eq, Error)]
#[error("the disk failed")]
pub struct DiskFault;

impl From<Failed> for DiskFault {
    fn from(_failed: Failed) -> DiskFault {
        DiskFault
    }
}

/// Why no fixpoint was found.
#[derive(Clone, Copy, Debug, PartialEq, Eq, Error)]
pub enum RecoverError {
    /// The disk failed, and its count of faults rose.
    #[error("the disk failed")]
    DiskFault,
    /// No slot can be taken.
    #[error("the disk holds no fixpoint")]
    Foreign,
}
