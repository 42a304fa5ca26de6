// Why the program gives up.
use descriptor::Fault;
use masked::Refusal;
use std::alloc::{AllocError, AllocFailed};
use std::io;
use thiserror::Error;

#[derive(Debug, Drop, Error)]
pub enum Failure {
    #[error("there was not enough memory")]
    Memory,
    #[error("nothing more could be printed: {0}")]
    Output(#[from] io::Error),
    #[error("the library declined a call that has to be made: {0:?}")]
    Declined(#[from] Refusal),
    #[error("the reader did not accept a descriptor: {0:?}")]
    Unreadable(#[from] Fault),
}

// By hand, so that want of memory is printed as `Memory` alone.
impl From<AllocError> for Failure {
    fn from(_error: AllocError) -> Failure {
        Failure::Memory
    }
}

impl<T: Drop> From<AllocFailed<T>> for Failure {
    fn from(_error: AllocFailed<T>) -> Failure {
        Failure::Memory
    }
}
