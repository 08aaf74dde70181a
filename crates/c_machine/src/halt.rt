//! Why there is no value.

use std::alloc::AllocError;

/// Why a step gave no value: the run has ended, which the machine's state tells, or memory is used up.
#[derive(Clone, Copy, PartialEq, Eq)]
pub enum Halt {
    Over,
    Memory,
}

impl From<AllocError> for Halt {
    ghost use Rattle.std.specs.Prelude.{◌≡◌};
    ghost use Rattle.c_machine.specs.declared.halt.Halt.TheVariants.{Memory};

    ghost from_gives = { λ _ e. e ≡ Memory };

    fn from(_error: AllocError) -> Halt {
        Halt::Memory
    }
}
