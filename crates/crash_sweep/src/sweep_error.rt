//! Why a sweep ends before its script does.
use std::alloc::{AllocError, AllocFailed};
use std::io;

/// Why a sweep ends before its script does.
#[derive(Drop)]
pub(crate) enum SweepError {
    /// Memory was refused.
    NoMemory,
    /// A write of the output failed.
    Unwritten(io::Error),
}

impl From<AllocError> for SweepError {
    fn from(_: AllocError) -> SweepError {
        SweepError::NoMemory
    }
}

impl<T: Drop> From<AllocFailed<T>> for SweepError {
    fn from(_: AllocFailed<T>) -> SweepError {
        SweepError::NoMemory
    }
}

impl From<io::Error> for SweepError {
    fn from(error: io::Error) -> SweepError {
        SweepError::Unwritten(error)
    }
}
