//! What a configuration is, and why a text is none.

use c_means::Profile;
use plain_data::Bytes;
use sl_config::Name;
use thiserror::Error;

/// What a configuration settles. The numbers are bounds of `plain_data::Bounds`.
#[derive(Drop)]
pub struct Config {
    /// What is known of functions besides their source: the defaults, and behind them what the text adds.
    pub profile: Profile,
    pub heap: u32,
    pub outside: u32,
    pub texts: u32,
    pub arguments: u32,
    /// The pattern that is removed from the beginning of log lines.
    pub prefix: Option<Name>,
    /// Lines without the pattern are left out.
    pub drop_unmatched: bool,
}

/// Why a text is no configuration. A fault names the key that it is about.
#[derive(Debug, PartialEq, Drop, Error)]
pub enum ConfigFault {
    /// The text is no JSON object.
    #[error("not a JSON object")]
    NotJson,
    /// There is no such key.
    #[error("unknown key")]
    UnknownKey(Bytes),
    /// The key's value has another type, or an entry has not the keys of one form.
    #[error("wrong type")]
    WrongType(Bytes),
    /// The key's value has the right type and isn't one of its values.
    #[error("out of range")]
    OutOfRange(Bytes),
    /// The text under `prefix` is no pattern.
    #[error("bad pattern")]
    BadPattern,
    #[error("out of memory")]
    Memory,
}

/// What is wrong with a key or its value.
#[derive(Clone, Copy, PartialEq, Eq)]
pub(crate) enum KeyFault {
    Unknown,
    WrongType,
    OutOfRange,
}

/// The keys under which names have entries.
#[derive(Clone, Copy, PartialEq, Eq)]
pub(crate) enum EntryKind {
    Log,
    Identity,
    Fill,
}
