ghost use Rattle.std.specs.Prelude.{◌≡◌, ◌++◌, ◌∷◌, [], true, length, map, IfOk, OnOk, OnErr};
ghost use Rattle.cnf_core.specs.Truth.{value_of, formula_holds};
ghost use Rattle.proof_check.specs.Refutations.{IsRefutation, IsTrail};
ghost use Rattle.cdcl.specs.Tidy.{AreTidy, units};
ghost use Rattle.proof_check.specs.Steps.{clause_of};
ghost use Rattle.cdcl.specs.Searches.{AreFresh};
ghost use Rattle.cdcl.specs.Answers.{IfSat, IfUnsat, IfSpent, IsSpent, IsFew};
ghost use Rattle.cdcl.specs.Stores.{AreKept, KeepsMore, raised_step};

use crate::answer::{Answer, SolveFault};
use crate::chooser::Chooser;
use crate::search::Search;
use cnf_core::{Clause, Lit};
use std::alloc::Global;
use std::marker::Model;

/// A solver, seen as the clauses that were added to it and the steps over them that it keeps.
#[derive(Drop)]
pub struct Solver {
    search: Search,
    /// Over how many clauses the steps that are kept are numbered.
    numbered: usize,
}

impl Model for Solver {
    ghost use Rattle.cdcl.specs.Resting.{IsResting};
    ghost use Rattle.cdcl.specs.Stores.{Store, over_all};

    ghost Value = { Store };

    ghost view = { λ s. record {
      clauses = s.search.clauses.given;
      kept = over_all s.search.clauses.given s.numbered s.search.clauses.learnt;
    } };

    ghost invariant = { λ s. IsResting s.numbered s.search };
}

impl Solver {
    /// A solver with no clause. It takes no memory before the first clause comes.
    pub fn new(alloc: Global) -> Solver
        ensures { result ≡ record { clauses = []; kept = [] } }
    {
        Solver {
            search: Search::new(alloc),
            numbered: 0,
        }
    }

    /// Lets the solver go. Each crate that lets one go by itself proves anew how all that it holds is let go.
    pub fn discard(self) {
        drop(self);
    }

    /// Adds a clause at the end, so that each hint that names a kept step rises by one. It fails for want of memory alone.
    pub fn add(&mut self, clause: Clause) -> Result<(), SolveFault>
        ensures ok { OnOk result (self.new.clauses ≡ self.old.clauses ++ clause ∷ []) }
        ensures kept { OnOk result (self.new.kept ≡ map (raised_step (length self.old.clauses)) self.old.kept) }
        ensures err { OnErr result (self.new ≡ self.old) }
    {
        match self.search.add(clause.literals()) {
            Ok(()) => Ok(()),
            Err(_) => Err(SolveFault::Memory),
        }
    }

    /// Whether some assignment satisfies the clauses added and makes the assumptions true, by at
    /// most so many conflicts, where the variable that is decided next is what the chooser names.
    ///
    /// `Sat` has such an assignment. `Unsat` has a refutation of the clauses added with the
    /// assumptions as unit clauses last; a conflict without decisions ends with it, and isn't
    /// counted. `Spent` comes where the last of so many conflicts was met, at once where none is
    /// allowed, with the steps kept before and a step learnt from each conflict, over the clauses
    /// added alone. No step has a literal twice, or a literal and its negation, and each variable
    /// of a step is one of the clauses'. What is learnt is kept behind the steps that are kept,
    /// and serves the questions that follow. It fails for want of memory alone; then nothing is
    /// kept, and the solver may be asked again.
    ///
    /// Clauses are learnt at the first unique implication point (Marques-Silva and Sakallah,
    /// "GRASP", 1999; Zhang et al., "Efficient Conflict Driven Learning", 2001).
    pub fn solve<C: Chooser>(
        &mut self,
        alloc: Global,
        chooser: &C,
        assume: &[Lit],
        conflicts: u32,
    ) -> Result<Answer, SolveFault>
        ensures sat { IfOk result (λ a. IfSat a (λ values. formula_holds (value_of values) (self.old.clauses ++ units assume.now) ≡ true)) }
        ensures unsat { IfOk result (λ a. IfUnsat a (λ r. IsRefutation (self.old.clauses ++ units assume.now) r × AreTidy (self.old.clauses ++ units assume.now) r)) }
        ensures spent { IfOk result (λ a. IfSpent a (λ kept steps. IsTrail self.old.clauses kept steps × AreTidy self.old.clauses kept × AreTidy self.old.clauses steps × (length steps ≡ conflicts))) }
        ensures fresh { IfOk result (λ a. IfSpent a (λ kept steps. AreFresh (self.old.clauses ++ map clause_of kept) steps)) }
        ensures few { IfOk result (λ a. IfSpent a (λ kept steps. IsFew self.old.clauses conflicts)) }
        ensures at_once { conflicts ≡ 0 → IfOk result IsSpent }
        ensures kept { IfOk result (λ a. IfSpent a (λ kept steps. (kept ≡ self.old.kept) × (self.new.kept ≡ kept ++ steps))) }
        ensures keeps { OnOk result (KeepsMore self.old.kept self.new.kept) }
        ensures lost { OnErr result (self.new.kept ≡ []) }
        ensures are_kept { AreKept self.new }
        ensures clauses { self.new.clauses ≡ self.old.clauses }
    {
        let numbered = self.numbered;
        self.numbered = self.search.clauses.given.len();
        match self
            .search
            .reply(alloc, chooser, numbered, assume, conflicts)
        {
            Ok(answer) => Ok(answer),
            Err(_) => {
                self.search.forget(alloc);
                Err(SolveFault::Memory)
            }
        }
    }
}
