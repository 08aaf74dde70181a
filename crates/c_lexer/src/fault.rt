use std::alloc::{AllocError, AllocFailed};
use thiserror::Error;

/// Why a source isn't lexed: the first fault, with the offset of the byte where it stands.
#[derive(Clone, Copy, Debug, PartialEq, Eq, Error)]
pub enum LexFault {
    /// No token begins at this byte.
    #[error("no token begins at byte {0}")]
    BadByte(u32),
    /// A comment, a character constant or a string literal begins here and isn't closed.
    #[error("the comment or literal at byte {0} isn't closed")]
    OpenText(u32),
    /// An integer constant of 2^64 or more.
    #[error("the integer constant at byte {0} has no type")]
    WideNumber(u32),
    /// A numeric or character constant or an escape of no accepted form.
    #[error("the constant or escape at byte {0} has no accepted form")]
    BadConstant(u32),
    /// A directive other than a line marker and `#pragma`.
    #[error("the directive at byte {0} is neither a line marker nor a pragma")]
    BadDirective(u32),
    /// Memory ran out.
    #[error("out of memory")]
    Memory,
}

impl From<AllocError> for LexFault {
    ghost use Rattle.std.specs.Prelude.{◌≡◌};
    ghost use Rattle.c_lexer.specs.declared.fault.LexFault.TheVariants.{Memory};

    ghost from_gives = { λ _ fault. fault ≡ Memory };

    fn from(_error: AllocError) -> LexFault {
        LexFault::Memory
    }
}

impl<T: Drop> From<AllocFailed<T>> for LexFault {
    ghost use Rattle.std.specs.Prelude.{◌≡◌};
    ghost use Rattle.c_lexer.specs.declared.fault.LexFault.TheVariants.{Memory};

    ghost from_gives = { λ _ fault. fault ≡ Memory };

    fn from(_error: AllocFailed<T>) -> LexFault {
        LexFault::Memory
    }
}
