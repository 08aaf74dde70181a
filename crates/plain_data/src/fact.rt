use crate::Items;
use crate::run::{Side, Undefined};

/// What a report says of runs. `at` is the byte offset of a token in the source, and a line is one of
/// the log, from 1.
#[derive(Clone, Copy, PartialEq, Eq)]
pub enum Fact {
    /// The branch takes this side.
    Branch { at: u32, side: Side },
    /// The branch takes this side while the log stands in this line.
    BranchIn { at: u32, side: Side, line: u32 },
    /// The call happens.
    Call { at: u32 },
    /// The call happens while the log stands in this line.
    CallIn { at: u32, line: u32 },
    /// The log call prints a text that begins in this line.
    Print { at: u32, line: u32 },
    /// The run ends by undefined behaviour of this kind at this token.
    StopAt { kind: Undefined, at: u32 },
    /// `main` returns.
    Returned,
    /// `exit` ends the run.
    Exited,
    /// `abort` ends the run.
    Aborted,
    /// The run ends by undefined behaviour of this kind.
    StopOf { kind: Undefined },
}

/// A variable whose value is seen at a print: the number of the print fact, from 1, and the byte offset
/// of the name in the object's first declaration.
#[derive(Clone, Copy, PartialEq, Eq)]
pub struct Watched {
    pub fact: u32,
    pub object: u32,
}

/// The facts of a program and a log, and the watched variables of its print facts, both numbered from 1.
#[derive(Drop)]
pub struct Facts {
    pub facts: Items<Fact>,
    pub watched: Items<Watched>,
}
