use cnf_core::Lit;

/// What a clause says where some literals are taken as true.
#[derive(Clone, Copy, PartialEq, Eq)]
pub enum Reading {
    /// All its literals are false.
    Falsified,
    /// All literals but this one are false, and this one has no value.
    Implied(Lit),
    Neither,
}

/// What reading a step's hints comes to.
#[derive(Clone, Copy, PartialEq, Eq)]
pub enum Outcome {
    /// A hint's clause is false: the step is valid.
    Conflict,
    /// A hint names no clause, or one that is neither unit nor false.
    BadHint,
    /// The hints end without a false clause.
    NoConflict,
}
