//! Why a source and a log have no diagnosis.
use path_forms::WalkFault;
use program_facts::FactFault;
use query_core::AskFault;
use std::alloc::AllocError;
use thiserror::Error;

/// Why a source and a log have no diagnosis.
#[derive(Clone, Copy, Debug, PartialEq, Eq, Error)]
pub enum DiagnoseFault {
    /// The source unrolls to more nodes than are followed, over the lines of the log.
    #[error("more nodes than are followed")]
    TooLarge,
    /// The walk doesn't do what a step of the program does yet.
    #[error("a step that isn't walked yet")]
    Unwalked,
    /// Memory ran out, or a number would pass its type's end.
    #[error("out of memory")]
    Memory,
}

impl From<AllocError> for DiagnoseFault {
    ghost use Rattle.std.specs.Prelude.{◌≡◌};
    ghost use Rattle.must_facts.specs.declared.fault.DiagnoseFault.TheVariants.{Memory};

    ghost from_gives = { λ _ e. e ≡ Memory };

    fn from(_error: AllocError) -> DiagnoseFault {
        DiagnoseFault::Memory
    }
}

impl From<FactFault> for DiagnoseFault {
    ghost use Rattle.std.specs.Prelude.{◌≡◌};
    ghost use Rattle.must_facts.specs.declared.fault.DiagnoseFault.TheVariants.{Memory};

    ghost from_gives = { λ _ e. e ≡ Memory };

    fn from(_error: FactFault) -> DiagnoseFault {
        DiagnoseFault::Memory
    }
}

impl From<AskFault> for DiagnoseFault {
    ghost use Rattle.std.specs.Prelude.{◌≢◌};
    ghost use Rattle.must_facts.specs.declared.fault.DiagnoseFault.TheVariants.{TooLarge};

    ghost from_gives = { λ _ e. e ≢ TooLarge };

    fn from(fault: AskFault) -> DiagnoseFault {
        match fault {
            AskFault::Memory => DiagnoseFault::Memory,
            AskFault::Unwalked => DiagnoseFault::Unwalked,
        }
    }
}

impl From<WalkFault> for DiagnoseFault {
    ghost use Rattle.std.specs.Prelude.{◌≢◌};
    ghost use Rattle.must_facts.specs.declared.fault.DiagnoseFault.TheVariants.{TooLarge};

    ghost from_gives = { λ _ e. e ≢ TooLarge };

    fn from(fault: WalkFault) -> DiagnoseFault {
        match fault {
            WalkFault::Memory => DiagnoseFault::Memory,
            _ => DiagnoseFault::Unwalked,
        }
    }
}
