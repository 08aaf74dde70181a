ghost use Rattle.std.specs.Prelude.{◌≡◌, ◌<◌, ◌≤◌, ◌^◌, ◌↔◌, ℕ, [], None, IsTrue, true, false, slice_set, length, OnOk, IfSome};
ghost use Rattle.cdcl.specs.Ranks.{mark_of, IsUnset, IsFirst, IsGrown};
ghost use Rattle.cdcl.specs.Scoreboards.{count_of};
ghost use Rattle.cdcl.specs.Tallies.{occurs, AreMarked};

use crate::clauses::{ClauseId, Clauses};
use crate::ranking::Ranking;
use crate::tally::Tally;
use std::alloc::{AllocError, Global};
use std::marker::Model;
use std::mem;

/// What a chooser may ask of a solver: its variables, which of them are open (have no value), and in how many conflicts
/// each occurred.
#[derive(Drop)]
pub struct Scores {
    ranking: Ranking,
    tally: Tally,
}

impl Model for Scores {
    ghost use Rattle.cdcl.specs.Ranks.{IsRanked};
    ghost use Rattle.cdcl.specs.Tallies.{IsTally};
    ghost use Rattle.cdcl.specs.Scoreboards.{Scoreboard};

    ghost Value = { Scoreboard };

    ghost view = { λ s. record { unset = s.ranking.unset.items; marks = s.tally.marks.items; activities = s.ranking.activities.items } };

    ghost invariant = { λ s. IsRanked s.ranking × IsTally s.tally };
}

impl Scores {
    /// How many variables there are: 1 to this number.
    pub fn count(&self) -> u32
        ensures value { result ≡ count_of self.now }
        ensures from_one { IsUnset self.now.unset 0 → ⊥ }
    {
        self.ranking.unset.len().saturating_sub(1) as u32
    }

    /// Whether the number is that of a variable that has no value yet.
    pub fn is_open(&self, variable: u32) -> bool
        ensures { IsTrue result ↔ IsUnset self.now.unset variable }
    {
        self.ranking.unset.get(variable as usize) == Some(&true)
    }

    /// In how many conflicts the variable occurred since the solver was made, up to 2^64 - 1. A variable occurs in a
    /// conflict where a clause has it that had a part in the conflict.
    pub fn mark(&self, variable: u32) -> u64
        ensures { result ≡ mark_of self.now.marks variable }
    {
        self.tally
            .marks
            .get(variable as usize)
            .copied()
            .unwrap_or(0)
    }

    /// The same with older conflicts counting for less: the mean of the older activity and the number of the conflict in
    /// which the variable occurred (Biere and Fröhlich, "Evaluating CDCL Variable Scoring Schemes", SAT 2015).
    pub fn activity(&self, variable: u32) -> u64
        ensures { result ≡ mark_of self.now.activities variable }
    {
        self.ranking
            .activities
            .get(variable as usize)
            .copied()
            .unwrap_or(0)
    }

    /// The open variable with the greatest activity, and of these the one with the least number, where one is open. It is
    /// known, and no variables are gone through.
    pub fn first(&self) -> Option<u32>
        ensures first { IfSome result (IsFirst self.now.unset self.now.activities) }
        ensures none { result ≡ None → (v : ℕ) → IsUnset self.now.unset v → ⊥ }
    {
        self.ranking.first()
    }

    /// No variables. It takes no memory.
    pub(crate) fn new(alloc: Global) -> Scores
        ensures { result.unset ≡ [] }
    {
        Scores {
            ranking: Ranking::new(alloc),
            tally: Tally::new(alloc),
        }
    }

    /// Forgets all but the marks.
    pub(crate) fn forget(&mut self, alloc: Global)
        ensures unset { self.new.unset ≡ [] }
        ensures marks { self.new.marks ≡ self.old.marks }
    {
        self.ranking = Ranking::new(alloc);
    }

    /// Makes room for variables below `room`; the new ones are open.
    pub(crate) fn grow(&mut self, alloc: Global, room: usize) -> Result<(), AllocError>
        requires small { room ≤ 2 ^ 31 }
        requires least { length self.old.unset ≤ room }
        ensures unset { OnOk result (IsGrown room self.old.unset self.new.unset) }
        ensures marks { OnOk result ((v : ℕ) → mark_of self.new.marks v ≡ mark_of self.old.marks v) }
    {
        if self.tally.marks.len() < room {
            self.tally.grow(room)?;
        }
        if self.ranking.unset.len() < room {
            let mut ranking = mem::replace(&mut self.ranking, Ranking::new(alloc));
            ranking.grow(room)?;
            self.ranking = ranking;
        }
        Ok(())
    }

    /// The variable has a value now.
    pub(crate) fn close(&mut self, variable: u32)
        requires { 1 ≤ variable }
        ensures { self.new ≡ record self.old { unset = slice_set self.old.unset variable false } }
    {
        let variable = variable as usize;
        if variable < self.ranking.unset.len() {
            self.ranking.set(variable, false);
        }
    }

    /// The variable has no value any more.
    pub(crate) fn reopen(&mut self, variable: u32)
        requires { 1 ≤ variable }
        ensures { self.new ≡ record self.old { unset = slice_set self.old.unset variable true } }
    {
        let variable = variable as usize;
        if variable < self.ranking.unset.len() {
            self.ranking.set(variable, true);
        }
    }

    /// Tally a conflict for the variables of the clauses that had a part in it.
    pub(crate) fn count_conflict(&mut self, clauses: &Clauses, ids: &[ClauseId])
        ensures unset { self.new.unset ≡ self.old.unset }
        ensures marks { AreMarked (occurs clauses.now ids.now) self.old.marks self.new.marks }
    {
        self.tally.count_conflict(clauses, ids, &mut self.ranking);
    }
}
