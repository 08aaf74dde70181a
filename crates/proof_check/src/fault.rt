use thiserror::Error;

/// What is wrong with the first invalid step, which is counted from 1, or with the end.
#[derive(Clone, Copy, Debug, PartialEq, Eq, Error)]
pub enum StepFault {
    #[error("step {0}: a hint names no earlier clause, or one that is neither unit nor false")]
    BadHint(usize),
    #[error("step {0}: the hints end without a false clause")]
    NoConflict(usize),
    #[error("the last step's clause is not empty")]
    NoEmptyClause,
}
