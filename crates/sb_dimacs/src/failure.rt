//! Why a run failed.

use sb_proof::TapeFault;
use std::alloc::{AllocError, AllocFailed};

/// Why a run failed.
#[derive(Clone, Copy, Drop)]
pub enum Failure {
    /// The program's words are wrong.
    Words,
    /// Input or output failed.
    Outside,
    /// A number or a word of the input can't be read.
    Input,
    NoMemory,
    /// The search came to what it does not expect.
    Lost,
}

impl From<AllocError> for Failure {
    fn from(_error: AllocError) -> Failure {
        Failure::NoMemory
    }
}

impl<T: Drop> From<AllocFailed<T>> for Failure {
    fn from(_error: AllocFailed<T>) -> Failure {
        Failure::NoMemory
    }
}

impl From<TapeFault> for Failure {
    fn from(fault: TapeFault) -> Failure {
        match fault {
            TapeFault::Fault => Failure::Outside,
            TapeFault::NoMemory => Failure::NoMemory,
        }
    }
}

/// A want of memory as a failure.
pub fn done(outcome: Result<(), AllocError>) -> Result<(), Failure> {
    match outcome {
        Ok(()) => Ok(()),
        Err(_) => Err(Failure::NoMemory),
    }
}
