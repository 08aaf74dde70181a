//! Log expressions.

use plain_data::Shared;
use printf_text::Pieces;

/// Texts that code can print.
#[derive(Drop)]
pub enum LogExpr {
    /// The text of no bytes.
    Silent,
    /// The texts of a log call: those that its pieces make of some arguments.
    Texts {
        pieces: Pieces,
    },
    /// A text of the first, and one of the second behind it.
    Sequence {
        first: Shared<LogExpr>,
        second: Shared<LogExpr>,
    },
    /// A text of either.
    Choice {
        first: Shared<LogExpr>,
        second: Shared<LogExpr>,
    },
    /// Texts of the body one behind the other, at most as many as a loop takes turns.
    Repetition {
        body: Shared<LogExpr>,
    },
    /// A text of a function that is called, with one level of depth less.
    Called {
        function: u32,
    },
}
