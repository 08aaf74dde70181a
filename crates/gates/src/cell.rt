/// What defines a gate's variable: a function of literals, each by its code.
#[derive(Clone, Copy, PartialEq, Eq, Hash)]
pub(crate) enum Cell {
    /// Both are true.
    And(u32, u32),
    /// One is true, and the other isn't.
    Xor(u32, u32),
    /// At least two are true.
    Majority(u32, u32, u32),
    /// The second where the first is true, and else the third.
    Choose(u32, u32, u32),
}
