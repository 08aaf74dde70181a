use std::alloc::AllocError;
use thiserror::Error;

/// Why the tokens are no unit.
#[derive(Clone, Copy, Debug, PartialEq, Eq, Error)]
pub enum ParseFault {
    /// No unit is derived from the tokens; the number is that of the token where reading stopped, counted from 0.
    #[error("no rule of the grammar takes token {0}")]
    Syntax(usize),
    /// No unit of the greatest height or less is derived; the number is that of the token at which trees stood too deep
    /// in one another.
    #[error("trees stand too deep in one another at token {0}")]
    TooDeep(usize),
    /// Memory ran out.
    #[error("out of memory")]
    Memory,
}

impl From<AllocError> for ParseFault {
    ghost use Rattle.std.specs.Prelude.{◌≡◌};
    ghost use Rattle.c_reading.specs.declared.fault.ParseFault.TheVariants.{Memory};

    ghost from_gives = { λ _ fault. fault ≡ Memory };

    fn from(_error: AllocError) -> ParseFault {
        ParseFault::Memory
    }
}
