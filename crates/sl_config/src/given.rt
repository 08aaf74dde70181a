use crate::name::Name;
use plain_data::Items;

/// An option with a value.
#[derive(Clone, Copy, Debug, PartialEq, Eq)]
pub(crate) enum Setting {
    Config,
    Turns,
    Depth,
    Conflicts,
    Cert,
}

/// An option without a value.
#[derive(Clone, Copy, Debug, PartialEq, Eq)]
pub(crate) enum Flag {
    ByLine,
    Json,
}

/// What was read of the words so far.
#[derive(Drop)]
pub(crate) struct Given {
    pub(crate) places: Items<Name>,
    pub(crate) config: Option<Name>,
    pub(crate) cert: Option<Name>,
    pub(crate) turns: Option<u32>,
    pub(crate) depth: Option<u32>,
    pub(crate) conflicts: Option<u32>,
    pub(crate) by_line: bool,
    pub(crate) json: bool,
    /// The next word is the value of this option.
    pub(crate) waits: Option<Setting>,
    /// `--` was read: each word stands by itself.
    pub(crate) trailing: bool,
}
