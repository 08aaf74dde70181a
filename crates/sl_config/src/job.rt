use crate::name::Name;
use plain_data::Items;
use std::alloc::AllocError;
use thiserror::Error;

/// A command of the program.
#[derive(Clone, Copy, Debug, PartialEq, Eq)]
pub enum Command {
    Diagnose,
    Check,
    Replay,
    Sites,
    Match,
    SelfTest,
}

/// What a command line asks for.
#[derive(Debug, Drop)]
pub struct Job {
    pub command: Command,
    /// The words that stand by themselves, in order.
    pub places: Items<Name>,
    /// The number of `self N`.
    pub count: Option<u32>,
    pub config: Option<Name>,
    pub cert: Option<Name>,
    pub turns: u32,
    pub depth: u32,
    pub conflicts: u32,
    pub by_line: bool,
    pub json: bool,
}

/// Why words are no job.
#[derive(Clone, Copy, Debug, PartialEq, Eq, Error)]
pub enum WordsFault {
    /// They are no command line.
    #[error("not a command line")]
    Usage,
    #[error("out of memory")]
    Memory,
}

impl From<AllocError> for WordsFault {
    ghost use Rattle.std.specs.Prelude.{◌≡◌};
    ghost use Rattle.sl_config.specs.declared.job.WordsFault.TheVariants.{Memory};

    ghost from_gives = { λ _ fault. fault ≡ Memory };

    fn from(_error: AllocError) -> WordsFault {
        WordsFault::Memory
    }
}
