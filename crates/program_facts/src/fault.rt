//! Why no facts were answered.

use format_match::MatchFault;
use std::alloc::AllocError;
use thiserror::Error;

/// Why no facts were answered.
#[derive(Clone, Copy, Debug, PartialEq, Eq, Drop, Error)]
pub enum FactFault {
    /// Memory ran out, or a number would pass the greatest of 32 bits.
    #[error("out of memory")]
    Memory,
}

impl From<AllocError> for FactFault {
    fn from(_error: AllocError) -> FactFault {
        FactFault::Memory
    }
}

impl From<MatchFault> for FactFault {
    fn from(_error: MatchFault) -> FactFault {
        FactFault::Memory
    }
}
