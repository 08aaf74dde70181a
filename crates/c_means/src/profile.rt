//! What is known of functions besides their source.

use c_language::Name;
use plain_data::{Bytes, Items};

/// Where a log function's format is.
#[derive(Drop)]
pub enum LogText {
    /// The argument of this index, from 0, is the format, and those behind it are its arguments; a newline may follow.
    Format { index: u32, newline: bool },
    /// This format, over the arguments from the first.
    Text { format: Bytes },
}

/// A function that writes to the log.
#[derive(Drop)]
pub struct LogFunction {
    pub name: Name,
    pub text: LogText,
}

/// A function that answers its argument of this index, from 0.
#[derive(Drop)]
pub struct IdentityFunction {
    pub name: Name,
    pub index: u32,
}

/// What a function that fills a buffer answers.
#[derive(Clone, Copy, PartialEq, Eq)]
pub enum FillAnswer {
    /// What any function outside may answer.
    Free,
    /// How many bytes it filled, or -1.
    Count,
}

/// A function outside that fills a buffer: the indices, from 0, of the buffer and of its length in bytes.
#[derive(Drop)]
pub struct FillFunction {
    pub name: Name,
    pub buffer: u32,
    pub length: u32,
    pub answer: FillAnswer,
}

/// What is known of functions besides their source. Of two entries of one name in a list the last counts.
#[derive(Drop)]
pub struct Profile {
    pub log: Items<LogFunction>,
    pub identity: Items<IdentityFunction>,
    pub fills: Items<FillFunction>,
    /// The functions outside that answer no null pointer.
    pub never_null: Items<Name>,
}
