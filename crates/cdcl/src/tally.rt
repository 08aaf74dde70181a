ghost use Rattle.std.specs.Prelude.{◌≡◌, ◌<◌, ◌≤◌, ◌||◌, ℕ, Bool, List, [], false, nat_eq, vec_len, OnOk};
ghost use Rattle.cdcl.specs.Sources.{named};
ghost use Rattle.cdcl.specs.Trails.{names};
ghost use Rattle.cdcl.specs.Ranks.{mark_of, IsRanked};
ghost use Rattle.cdcl.specs.Tallies.{has_variable, occurs, AreMarked, IsTally, HasCounted};

use crate::clauses::{ClauseId, Clauses};
use crate::ranking::Ranking;
use cnf_core::Lit;
use std::alloc::{AllocError, Global};

/// In how many conflicts each variable occurred.
#[derive(Drop)]
pub struct Tally {
    pub marks: Vec<u64>,
    /// At a variable: the number of the last conflict in which it was counted.
    pub last: Vec<u64>,
    pub conflict: u64,
}

impl Tally {
    /// No variables. It takes no memory.
    pub fn new(alloc: Global) -> Tally
        ensures { IsTally result }
    {
        Tally {
            marks: Vec::new(alloc),
            last: Vec::new(alloc),
            conflict: 0,
        }
    }

    /// Makes room for variables below `room`. Those that there were keep their marks.
    pub fn grow(&mut self, room: usize) -> Result<(), AllocError>
        requires counts { IsTally self.old }
        requires least { vec_len self.old.marks ≤ room }
        ensures counts { IsTally self.new }
        ensures marks { OnOk result ((v : ℕ) → mark_of self.new.marks.items v ≡ mark_of self.old.marks.items v) }
    {
        let size = self.marks.len();
        self.marks.resize(room, 0)?;
        if self.last.resize(room, 0).is_err() {
            self.marks.truncate(size);
            return Err(AllocError);
        }
        Ok(())
    }

    /// Numbers the conflicts from 0 again.
    fn renumber(&mut self)
        requires { IsTally self.old }
        ensures counts { IsTally self.new }
        ensures marks { self.new.marks ≡ self.old.marks }
        ensures conflict { self.new.conflict ≡ 0 }
    {
        for index in 0..self.last.len() {
            self.last[index] = 0;
        }
        self.conflict = 0;
    }

    /// Sees that there is a next number of a conflict.
    fn make_next(&mut self)
        requires { IsTally self.old }
        ensures counts { IsTally self.new }
        ensures marks { self.new.marks ≡ self.old.marks }
        ensures conflict { self.new.conflict < 18446744073709551615 }
    {
        if self.conflict < u64::MAX {
            return;
        }
        self.renumber();
    }

    /// Begins the next conflict, in which no variable is counted yet.
    fn begin(&mut self)
        requires { IsTally self.old }
        ensures { HasCounted (λ v. false) self.old.marks.items self.new }
    {
        self.make_next();
        self.conflict += 1;
    }

    /// Tally the conflict for a variable, once.
    fn count(&mut self, variable: usize, ranking: &mut Ranking)
        requires counts { IsTally self.old }
        requires ranked { IsRanked ranking.old }
        requires from_one { 1 ≤ variable }
        ensures counted { (seen : ℕ → Bool) (old : List ℕ) → HasCounted seen old self.old → HasCounted (λ v. seen v || nat_eq variable v) old self.new }
        ensures counts { IsTally self.new }
        ensures ranked { IsRanked ranking.new }
        ensures unset { ranking.new.unset.items ≡ ranking.old.unset.items }
    {
        if variable >= self.last.len() || self.last[variable] == self.conflict {
            return;
        }
        self.last[variable] = self.conflict;
        self.marks[variable] = self.marks[variable].saturating_add(1);
        if variable < ranking.unset.len() {
            ranking.raise(variable, self.conflict);
        }
    }

    /// Tally the conflict for the variables of a clause.
    fn count_all(&mut self, clause: &[Lit], ranking: &mut Ranking)
        requires counts { IsTally self.old }
        requires ranked { IsRanked ranking.old }
        ensures counted { (seen : ℕ → Bool) (old : List ℕ) → HasCounted seen old self.old → HasCounted (λ v. seen v || names v clause.now) old self.new }
        ensures counts { IsTally self.new }
        ensures ranked { IsRanked ranking.new }
        ensures unset { ranking.new.unset.items ≡ ranking.old.unset.items }
    {
        for literal in clause {
            self.count(literal.variable() as usize, ranking);
        }
    }

    /// Tally the conflict for the variables of a named clause, where there is one that a step may cite.
    fn count_named(&mut self, clauses: &Clauses, id: ClauseId, ranking: &mut Ranking)
        requires counts { IsTally self.old }
        requires ranked { IsRanked ranking.old }
        ensures counted { (seen : ℕ → Bool) (old : List ℕ) → HasCounted seen old self.old → HasCounted (λ v. seen v || has_variable (named 1 clauses.now id) v) old self.new }
        ensures counts { IsTally self.new }
        ensures ranked { IsRanked ranking.new }
        ensures unset { ranking.new.unset.items ≡ ranking.old.unset.items }
    {
        if !clauses.has(id) {
            return;
        }
        self.count_all(clauses.clause(id), ranking);
    }

    /// Tally a conflict for the variables of the clauses that had a part in it.
    pub fn count_conflict(&mut self, clauses: &Clauses, ids: &[ClauseId], ranking: &mut Ranking)
        requires counts { IsTally self.old }
        requires ranked { IsRanked ranking.old }
        ensures marks { AreMarked (occurs clauses.now ids.now) self.old.marks.items self.new.marks.items }
        ensures counts { IsTally self.new }
        ensures ranked { IsRanked ranking.new }
        ensures unset { ranking.new.unset.items ≡ ranking.old.unset.items }
    {
        self.begin();
        for id in ids {
            self.count_named(clauses, *id, ranking);
        }
    }
}
