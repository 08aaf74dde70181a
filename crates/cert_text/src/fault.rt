use std::alloc::AllocError;
use thiserror::Error;

/// Why bytes were not read, or a text was not written.
#[derive(Clone, Copy, Debug, PartialEq, Eq, Error)]
pub enum CertFault {
    /// The line of this number, from 1, is the first that has no place in the form. Behind the last
    /// line it is the line that is still wanted.
    #[error("line {0} has no place")]
    BadLine(usize),
    /// Line 1 names another version.
    #[error("another version")]
    WrongVersion,
    /// Memory ran out.
    #[error("out of memory")]
    Memory,
}

impl From<AllocError> for CertFault {
    ghost use Rattle.std.specs.Prelude.{◌≡◌};
    ghost use Rattle.cert_text.specs.declared.fault.CertFault.TheVariants.{Memory};

    ghost from_gives = { λ _ fault. fault ≡ Memory };

    fn from(_error: AllocError) -> CertFault {
        CertFault::Memory
    }
}
