//! The rules that an accepted program keeps.

use c_language::Rule;
use printf_text::FormatFault;

/// A rule that is broken.
#[derive(Drop)]
pub enum BrokenRule {
    /// The body of a function that is reached couldn't be read.
    UnreadBody,
    /// A rule on types, names or constants.
    Typing(Rule),
    /// A jump that leads nowhere, into a block or back, or a label that stands twice (C99 6.8.1, 6.8.4.2, 6.8.6).
    BadGoto,
    /// The format of a log call is no string literal.
    FormatNotLiteral,
    /// The format of a log call isn't one that is read.
    Format(FormatFault),
    /// An argument of a log call is missing, or of the wrong kind.
    FormatArgument,
}

/// A broken rule, and the byte offset of the token at which it is broken.
#[derive(Drop)]
pub struct Breach {
    pub at: u32,
    pub rule: BrokenRule,
}
