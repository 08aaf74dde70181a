ghost use Rattle.std.specs.Prelude.{◌≡◌, ◌<◌, ◌+◌, ◌^◌, ◌++◌, ◌≤◌, ℕ, Some, true, map, length, take, vec_len, IfOk, OnOk};
ghost use Rattle.proof_check.specs.Propagation.{negations};
ghost use Rattle.proof_check.specs.Room.{Within, variables_of};
ghost use Rattle.proof_check.specs.Steps.{clause_of};
ghost use Rattle.proof_check.specs.Refutations.{AreValid, IsRefutation};
ghost use Rattle.cdcl.specs.Sources.{named, numbered, shifted, shifted_step};
ghost use Rattle.cdcl.specs.Trails.{follows, IsTrailOf, IsConflict};
ghost use Rattle.cdcl.specs.Tidy.{AreApart, AreTidy, units};
ghost use Rattle.cdcl.specs.Searches.{AreLearnt, IsReady, ContainsNone, OneMore, Appends};
ghost use Rattle.cdcl.specs.Guards.{Guards, GuardsBut};
ghost use Rattle.cdcl.specs.Fits.{Fits};
ghost use Rattle.cdcl.specs.Stores.{over_all};

use crate::analysis::{Lesson, analyze};
use crate::clauses::{ClauseId, Clauses};
use crate::search::Search;
use cnf_core::Lit;
use proof_check::{Refutation, Step, Steps};
use std::alloc::{AllocError, Global};

/// The number of a clause where so many are given and so many assumptions are listed behind them.
fn number(id: ClauseId, given: usize, listed: usize) -> u32
    requires { given + listed < 2 ^ 32 }
    ensures { result ≡ numbered given listed id }
{
    let number = match id {
        ClauseId::Given(index) => index as usize + 1,
        ClauseId::Assumed(index) => given + index as usize + 1,
        ClauseId::Learnt(index) => given + listed + index as usize + 1,
    };
    number.min(4294967295) as u32
}

fn numbers(
    alloc: Global,
    ids: &[ClauseId],
    given: usize,
    listed: usize,
) -> Result<Vec<u32>, AllocError>
    requires { given + listed < 2 ^ 32 }
    ensures { IfOk result (λ v. v.items ≡ map (numbered given listed) ids.now) }
{
    ids.iter()
        .map(|id| number(*id, given, listed))
        .collect(alloc)
}

/// The number of a clause once so many clauses stand behind those given.
fn shifted_number(number: u32, given: usize, listed: usize) -> u32
    requires { given + listed < 2 ^ 32 }
    ensures { result ≡ shifted given listed number }
{
    if number as usize <= given {
        number
    } else {
        (number as usize + listed).min(4294967295) as u32
    }
}

fn shifted_numbers(
    alloc: Global,
    hints: &[u32],
    given: usize,
    listed: usize,
) -> Result<Vec<u32>, AllocError>
    requires { given + listed < 2 ^ 32 }
    ensures { IfOk result (λ v. v.items ≡ map (shifted given listed) hints.now) }
{
    hints
        .iter()
        .map(|number| shifted_number(*number, given, listed))
        .collect(alloc)
}

/// Steps over clauses given, as steps over these and so many more behind them.
fn shifted_steps(
    alloc: Global,
    steps: &Steps,
    given: usize,
    listed: usize,
) -> Result<Steps, AllocError>
    requires { given + listed < 2 ^ 32 }
    ensures { IfOk result (λ s. s ≡ map (shifted_step given listed) steps.now) }
{
    let mut moved = Steps::new(alloc);
    for index in 0..steps.len() {
        let step = steps.step(index);
        let hints = shifted_numbers(alloc, step.hints, given, listed)?;
        moved.push(Step {
            clause: step.clause,
            hints: &hints,
        })?;
    }
    Ok(moved)
}

impl Clauses {
    /// Numbers the clauses that the steps learnt cite anew, where so many had been given and more are now.
    pub fn renumber(&mut self, alloc: Global, before: usize) -> Result<(), AllocError>
        requires before { before ≤ length self.old.given }
        requires few { length self.old.given + length self.old.learnt < 2 ^ 32 }
        ensures learnt { OnOk result (self.new.learnt ≡ over_all self.old.given before self.old.learnt) }
        ensures valid { OnOk result (AreValid (take before self.old.given) self.old.learnt → AreValid self.new.given self.new.learnt) }
        ensures clauses { OnOk result (map clause_of self.new.learnt ≡ map clause_of self.old.learnt) }
        ensures given { self.new.given ≡ self.old.given }
        ensures assumed { self.new.assumed ≡ self.old.assumed }
    {
        let added = self.given.len() - before;
        if added == 0 {
            return Ok(());
        }
        self.learnt = shifted_steps(alloc, &self.learnt, before, added)?;
        Ok(())
    }

    /// Puts a lesson at the end of the clauses learnt.
    fn learn(&mut self, alloc: Global, lesson: &Lesson) -> Result<(), AllocError>
        requires learnt { AreLearnt self.old }
        requires room { length self.old.given + length self.old.assumed + length self.old.learnt + 1 < 2 ^ 32 }
        requires valid { follows (named 1 self.old) (negations lesson.now.clause.items) lesson.now.hints.items ≡ true }
        requires apart { AreApart lesson.now.clause.items }
        requires occurs { Within (variables_of self.old.given) lesson.now.clause.items }
        requires fresh { ContainsNone self.old lesson.now.clause.items }
        ensures learnt { OnOk result (AreLearnt self.new) }
        ensures appends { OnOk result (Appends self.old self.new) }
        ensures more { OnOk result (length self.new.learnt ≡ length self.old.learnt + 1) }
        ensures names { (level : ℕ) (id : _) (c : _) → named level self.old id ≡ Some c → named level self.new id ≡ Some c }
        ensures last { OnOk result (OneMore self.old self.new lesson.now.clause.items) }
        ensures given { self.new.given ≡ self.old.given }
        ensures assumed { self.new.assumed ≡ self.old.assumed }
    {
        let hints = numbers(alloc, &lesson.hints, self.given.len(), 0)?;
        self.learnt.push(Step {
            clause: &lesson.clause,
            hints: &hints,
        })?;
        Ok(())
    }
}

impl Search {
    /// Puts a lesson at the end of the clauses learnt.
    fn keep(&mut self, alloc: Global, lesson: &Lesson) -> Result<(), AllocError>
        requires ready { IsReady self.old }
        requires room { length self.old.clauses.given + length self.old.clauses.assumed + length self.old.clauses.learnt + 1 < 2 ^ 32 }
        requires valid { follows (named 1 self.old.clauses) (negations lesson.now.clause.items) lesson.now.hints.items ≡ true }
        requires apart { AreApart lesson.now.clause.items }
        requires occurs { Within (variables_of self.old.clauses.given) lesson.now.clause.items }
        requires fresh { ContainsNone self.old.clauses lesson.now.clause.items }
        requires fits { Fits (vec_len self.old.trail.levels) lesson.now.clause.items }
        ensures ready { OnOk result (IsReady self.new) }
        ensures appends { OnOk result (Appends self.old.clauses self.new.clauses) }
        ensures more { OnOk result (length self.new.clauses.learnt ≡ length self.old.clauses.learnt + 1) }
        ensures names { OnOk result ((level : ℕ) (id : _) (c : _) → named level self.old.clauses id ≡ Some c → named level self.new.clauses id ≡ Some c) }
        ensures last { OnOk result (OneMore self.old.clauses self.new.clauses lesson.now.clause.items) }
        ensures rest { OnOk result (self.new ≡ record self.old { clauses = self.new.clauses }) }
        ensures given { self.new.clauses.given ≡ self.old.clauses.given }
        ensures assumed { self.new.clauses.assumed ≡ self.old.clauses.assumed }
    {
        self.clauses.learn(alloc, lesson)?;
        Ok(())
    }

    /// Lets the clause learnt last wait at its first two literals, and takes the first, the only one that isn't false.
    fn assert_last(&mut self, clause: &[Lit]) -> Result<(), AllocError>
        requires ready { IsReady self.old }
        requires guards { GuardsBut self.old clause.now }
        ensures ready { OnOk result (IsReady self.new) }
        ensures guards { OnOk result (Guards (length self.new.clauses.given) self.new.followed self.new) }
        ensures clauses { self.new.clauses ≡ self.old.clauses }
    {
        let id = ClauseId::Learnt(self.watches.learnt.len() as u32);
        self.watches.wait_last(clause)?;
        self.heed(id)?;
        Ok(())
    }

    /// Learns from a conflict above level 1, and goes back to where the learnt clause is unit.
    pub fn learn(&mut self, alloc: Global, conflict: ClauseId) -> Result<(), AllocError>
        requires ready { IsReady self.old }
        requires guards { Guards (length self.old.clauses.given) self.old.followed self.old }
        requires level { 2 ≤ self.old.trail.level }
        requires conflict { IsConflict 1 self.old.clauses self.old.trail.entries.items conflict }
        ensures ready { OnOk result (IsReady self.new) }
        ensures guards { OnOk result (Guards (length self.new.clauses.given) self.new.followed self.new) }
        ensures appends { OnOk result (Appends self.old.clauses self.new.clauses) }
        ensures more { OnOk result (length self.new.clauses.learnt ≡ length self.old.clauses.learnt + 1) }
        ensures given { self.new.clauses.given ≡ self.old.clauses.given }
        ensures assumed { self.new.clauses.assumed ≡ self.old.clauses.assumed }
    {
        if self.clauses.count() >= 4294967295 {
            return Err(AllocError);
        }
        let lesson = analyze(alloc, &self.clauses, &self.trail, conflict, 1)?;
        self.count_conflict(&lesson.hints);
        self.go_back(lesson.level);
        self.keep(alloc, &lesson)?;
        self.assert_last(&lesson.clause)
    }

    /// The refutation that a conflict at level 0 or 1 ends: the clauses learnt, and the empty one.
    pub fn refute(&self, alloc: Global, conflict: ClauseId) -> Result<Refutation, AllocError>
        requires learnt { AreLearnt self.now.clauses }
        requires trail { IsTrailOf self.now.clauses self.now.trail }
        requires root { self.now.trail.level ≤ 1 }
        requires conflict { IsConflict 0 self.now.clauses self.now.trail.entries.items conflict }
        ensures refutes { IfOk result (λ r. IsRefutation (self.now.clauses.given ++ units self.now.clauses.assumed) r) }
        ensures tidy { IfOk result (λ r. AreTidy (self.now.clauses.given ++ units self.now.clauses.assumed) r) }
    {
        let given = self.clauses.given.len();
        let listed = self.clauses.assumed.len();
        let lesson = analyze(alloc, &self.clauses, &self.trail, conflict, 0)?;
        let hints = numbers(alloc, &lesson.hints, given, listed)?;
        let mut steps = shifted_steps(alloc, &self.clauses.learnt, given, listed)?;
        steps.push(Step {
            clause: &lesson.clause,
            hints: &hints,
        })?;
        Ok(Refutation::from_steps(steps))
    }
}
