//! What a command line asks for.
ghost use Rattle.std.specs.Prelude.{◌≤◌};

/// A command that is served.
#[derive(Clone, Copy, PartialEq, Eq)]
pub enum Command {
    Diagnose,
    Replay,
    Sites,
    Match,
}

/// What is asked for: a command over files, by name, the bounds in force, how many conflicts a question may take, and
/// whether facts are listed by line too.
#[derive(Clone, Copy, PartialEq, Eq)]
pub struct Request<'a> {
    pub command: Command,
    pub source: &'a str,
    /// The log of `diagnose` and `match`, the world of `replay`; empty for `sites`.
    pub second: &'a str,
    pub config: Option<&'a str>,
    pub turns: u32,
    pub depth: u32,
    pub conflicts: u32,
    pub by_line: bool,
    ghost turns_in_range: { (1 ≤ turns) × (turns ≤ 64) },
    ghost depth_in_range: { (1 ≤ depth) × (depth ≤ 16) },
}
