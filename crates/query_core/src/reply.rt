use plain_data::World;
use proof_check::{Refutation, Trail};

/// What a question comes to.
#[derive(Drop)]
pub enum Reply {
    /// A world whose run is as it was asked for.
    World(World),
    /// No world's run is so: a refutation of the clauses that say it is.
    Refuted(Refutation),
    /// The clauses learnt from the conflicts that were allowed.
    Spent(Trail),
}
