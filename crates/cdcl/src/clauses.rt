ghost use Rattle.std.specs.Prelude.{◌≡◌, ◌<◌, ◌+◌, ◌^◌, ◌∷◌, [], length, slice_get, List, Some, None, IsSome, true, false};
ghost use Rattle.cnf_core.specs.Literal.{Literal};
ghost use Rattle.cdcl.specs.Sources.{named};

use cnf_core::{Formula, Lit};
use plain_data::Items;
use proof_check::Steps;

/// Where a clause stands: among those given, the assumptions as unit clauses, or those learnt.
#[derive(Clone, Copy, PartialEq, Eq)]
pub enum ClauseId {
    Given(u32),
    Assumed(u32),
    Learnt(u32),
}

/// The clauses of a question. Those learnt are steps over those given and the earlier ones.
#[derive(Drop)]
pub struct Clauses {
    pub given: Formula,
    pub assumed: Items<Lit>,
    pub learnt: Steps,
}

/// The unit clause of the literal at an index.
fn unit_at(literals: &[Lit], index: usize) -> &[Lit]
    requires { index < length literals.now }
    ensures { (l : _) → slice_get literals.now index ≡ Some l → result.now ≡ l ∷ [] }
{
    &literals[index..index + 1]
}

impl Clauses {
    /// The literals of a clause.
    pub fn clause(&self, id: ClauseId) -> &[Lit]
        requires { IsSome (named 0 self.now id) }
        ensures { named 0 self.now id ≡ Some result.now }
    {
        match id {
            ClauseId::Given(index) => self.given.clause(index as usize),
            ClauseId::Assumed(index) => unit_at(self.assumed.as_slice(), index as usize),
            ClauseId::Learnt(index) => self.learnt.step(index as usize).clause,
        }
    }

    /// Whether there is a clause of this name that a step may cite.
    pub fn has(&self, id: ClauseId) -> bool
        ensures there { result ≡ true → (c : List Literal) × (named 1 self.now id ≡ Some c) }
        ensures missing { result ≡ false → named 1 self.now id ≡ None }
    {
        match id {
            ClauseId::Given(index) => (index as usize) < self.given.len(),
            ClauseId::Assumed(_) => false,
            ClauseId::Learnt(index) => (index as usize) < self.learnt.len(),
        }
    }

    /// How many clauses there are.
    pub fn count(&self) -> usize
        requires { length self.now.given + length self.now.assumed + length self.now.learnt < 2 ^ 32 }
        ensures { result ≡ length self.now.given + length self.now.assumed + length self.now.learnt }
    {
        self.given.len() + self.assumed.len() + self.learnt.len()
    }
}
