//! Why a command line is not answered.
ghost use Rattle.std.specs.Prelude.{◌≡◌};
ghost use Rattle.sherlog.specs.Inputs.{asked_in, limit_of, name_of};
ghost use Rattle.sherlog.specs.Lines.{status_of};

use crate::places::MAX_SOURCE;
use crate::request::Request;
use c_language::Spot;
use c_means::BrokenRule;
use config_text::ConfigFault;
use std::alloc::AllocError;

/// A file that a command reads.
#[derive(Clone, Copy, PartialEq, Eq)]
pub enum InputFile {
    Config,
    Source,
    Log,
    World,
}

impl InputFile {
    /// How many bytes it may have.
    pub fn limit(self) -> usize
        ensures { result ≡ limit_of self }
    {
        match self {
            InputFile::Config => 1_048_576,
            InputFile::Source => MAX_SOURCE,
            InputFile::Log => 65_536,
            InputFile::World => 1_048_576,
        }
    }

    /// Its name in a command line.
    pub fn name<'a>(self, request: &Request<'a>) -> &'a str
        ensures { result.now ≡ name_of (asked_in request.now) self }
    {
        match self {
            InputFile::Config => match request.config {
                Some(name) => name,
                None => "",
            },
            InputFile::Source => request.source,
            InputFile::Log => request.second,
            InputFile::World => request.second,
        }
    }
}

/// What is wrong with a source, as far as the lexer and the grammar go.
#[derive(Clone, Copy, PartialEq, Eq)]
pub enum SourceFault {
    /// No token begins at a byte.
    BadByte,
    /// A comment, a character constant or a string literal isn't closed.
    OpenText,
    /// An integer constant is 2^64 or more.
    WideNumber,
    /// A constant or an escape has no accepted form.
    BadConstant,
    /// A directive is neither a line marker nor `#pragma`.
    BadDirective,
    /// No rule of the grammar takes a token, or the source ends too early.
    Syntax,
    /// Trees stand too deep in one another.
    TooDeep,
}

/// Why a command line is not answered.
#[derive(Drop)]
pub enum Refusal {
    /// The configuration's text is none.
    BadConfig(ConfigFault),
    /// The source has this fault, which stands at this place.
    BadSource { fault: SourceFault, spot: Spot },
    /// The source has no function `main` of a type that it may have.
    NoMain,
    /// The source breaks this rule at this place, and none before.
    Broken { rule: BrokenRule, spot: Spot },
    /// The source breaks no rule, and is not served so far.
    NotYetRead,
    /// The log has so many lines, more than are followed.
    TooManyLines(u32),
    /// The program unrolls to more nodes than are followed.
    TooLarge,
    /// The line of this number, from 1, is the first that has no place in the text of a world.
    BadWorld(usize),
    /// A file could not be read, or the output could not be written.
    Fault,
    /// A file is longer than its limit.
    TooLong(InputFile),
    /// There is no memory.
    Memory,
}

impl Refusal {
    /// The status that the program ends with.
    pub fn status(&self) -> u8
        ensures { result ≡ status_of self.now }
    {
        match self {
            Refusal::BadConfig(_) => 5,
            Refusal::BadSource { .. } => 3,
            Refusal::NoMain => 3,
            Refusal::Broken { .. } => 3,
            Refusal::NotYetRead => 3,
            Refusal::TooManyLines(_) => 4,
            Refusal::TooLarge => 8,
            Refusal::BadWorld(_) => 10,
            Refusal::Fault => 6,
            Refusal::TooLong(_) => 7,
            Refusal::Memory => 12,
        }
    }
}

impl From<AllocError> for Refusal {
    ghost use Rattle.std.specs.Prelude.{◌≡◌};
    ghost use Rattle.sherlog.specs.declared.refusal.Refusal.TheVariants.{Memory};

    ghost from_gives = { λ _ refusal. refusal ≡ Memory };

    fn from(_error: AllocError) -> Refusal {
        Refusal::Memory
    }
}
