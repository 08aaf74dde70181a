//! Why there is no program of a source.

use c_program_notes::Refusal;
use std::alloc::AllocError;

/// Why there is no program of a source.
#[derive(Drop)]
pub enum CheckFault {
    /// The source isn't accepted.
    Refused(Refusal),
    /// There is no memory.
    Memory,
}

impl From<AllocError> for CheckFault {
    ghost use Rattle.std.specs.Prelude.{◌≡◌};
    ghost use Rattle.acceptance.specs.declared.fault.CheckFault.TheVariants.{Memory};

    ghost from_gives = { λ _ fault. fault ≡ Memory };

    fn from(_error: AllocError) -> CheckFault {
        CheckFault::Memory
    }
}
