use cdcl::SolveFault;
use gates::BlastFault;
use std::alloc::AllocError;
use term_bank::BankFault;
use thiserror::Error;

/// Why a question has no answer.
#[derive(Clone, Copy, Debug, PartialEq, Eq, Error)]
pub enum AskFault {
    /// Memory, or numbers for variables, clauses or steps, ran out.
    #[error("out of memory")]
    Memory,
    /// What a print sees of a watched variable depends on more than the world, or asks for a memory's objects.
    #[error("a value that isn't walked yet")]
    Unwalked,
}

impl From<AllocError> for AskFault {
    ghost use Rattle.std.specs.Prelude.{◌≡◌};
    ghost use Rattle.query_core.specs.declared.fault.AskFault.TheVariants.{Memory};

    ghost from_gives = { λ _ e. e ≡ Memory };

    fn from(_error: AllocError) -> AskFault {
        AskFault::Memory
    }
}

impl From<SolveFault> for AskFault {
    ghost use Rattle.std.specs.Prelude.{◌≡◌};
    ghost use Rattle.query_core.specs.declared.fault.AskFault.TheVariants.{Memory};

    ghost from_gives = { λ _ e. e ≡ Memory };

    fn from(_error: SolveFault) -> AskFault {
        AskFault::Memory
    }
}

impl From<BlastFault> for AskFault {
    ghost use Rattle.std.specs.Prelude.{◌≡◌};
    ghost use Rattle.query_core.specs.declared.fault.AskFault.TheVariants.{Memory};

    ghost from_gives = { λ _ e. e ≡ Memory };

    fn from(_error: BlastFault) -> AskFault {
        AskFault::Memory
    }
}

impl From<BankFault> for AskFault {
    ghost use Rattle.std.specs.Prelude.{◌≡◌};
    ghost use Rattle.query_core.specs.declared.fault.AskFault.TheVariants.{Memory};

    ghost from_gives = { λ _ e. e ≡ Memory };

    fn from(_error: BankFault) -> AskFault {
        AskFault::Memory
    }
}
