ghost use Rattle.std.specs.Prelude.{◌≡◌, ◌<◌, ◌≤◌, ◌+◌, ◌-◌, ◌++◌, None, true, false, length, map, take, drop, IfOk, OnOk, IfSome};
ghost use Rattle.cnf_core.specs.Truth.{value_of, formula_holds};
ghost use Rattle.proof_check.specs.Refutations.{IsRefutation, IsTrail};
ghost use Rattle.cdcl.specs.declared.clauses.ClauseId.TheVariants.{Assumed};
ghost use Rattle.cdcl.specs.Known.{open_count};
ghost use Rattle.cdcl.specs.Trails.{IsConflict};
ghost use Rattle.cdcl.specs.Tidy.{AreTidy, units};
ghost use Rattle.proof_check.specs.Steps.{clause_of};
ghost use Rattle.cdcl.specs.Guards.{Guards};
ghost use Rattle.cdcl.specs.Resting.{IsResting};
ghost use Rattle.cdcl.specs.Searches.{IsSearch, IsSearching, IsReady, IsMet, IsModel, IsEvent, AreFresh, Appends};
ghost use Rattle.cdcl.specs.Answers.{IfSat, IfUnsat, IfSpent, IsSpent, IsFew};
ghost use Rattle.cdcl.specs.Stores.{KeepsMore, over_all};

use crate::answer::Answer;
use crate::assigned::Entry;
use crate::chooser::Chooser;
use crate::clauses::ClauseId;
use crate::restarts::Restarts;
use crate::search::{Event, Search};
use cnf_core::{Assignment, Lit};
use proof_check::{Steps, Trail};
use std::alloc::{AllocError, Global};

/// A copy of the steps from one index up to another.
fn steps_between(
    alloc: Global,
    steps: &Steps,
    start: usize,
    end: usize,
) -> Result<Steps, AllocError>
    requires start { start ≤ end }
    requires end { end ≤ length steps.now }
    ensures { IfOk result (λ s. s ≡ take (end - start) (drop start steps.now)) }
{
    let mut copy = Steps::new(alloc);
    for index in start..end {
        copy.push(steps.step(index))?;
    }
    Ok(copy)
}

impl Search {
    /// Takes the assumption at an index as true, or answers true where it is false.
    fn assume_at(&mut self, index: u32) -> Result<bool, AllocError>
        requires index { index < length self.old.clauses.assumed }
        requires search { IsSearch index self.old }
        requires level { self.old.trail.level ≡ 1 }
        requires guards { Guards (length self.old.clauses.given) self.old.followed self.old }
        ensures search { IfOk result (λ b. b ≡ false → IsSearch (index + 1) self.new) }
        ensures searching { OnOk result (IsSearching self.new) }
        ensures guards { OnOk result (Guards (length self.new.clauses.given) self.new.followed self.new) }
        ensures conflict { IfOk result (λ b. b ≡ true → IsConflict 0 self.new.clauses self.new.trail.entries.items (Assumed index)) }
        ensures level { OnOk result (self.new.trail.level ≡ 1) }
        ensures fewer { OnOk result (open_count self.new.trail.taken.items ≤ open_count self.old.trail.taken.items) }
        ensures clauses { self.new.clauses ≡ self.old.clauses }
    {
        let literal = self.clauses.assumed.as_slice()[index as usize];
        if self.trail.holds(literal) {
            return Ok(false);
        }
        if self.trail.holds(literal.negated()) {
            return Ok(true);
        }
        self.take(Entry {
            literal,
            reason: Some(ClauseId::Assumed(index)),
            level: self.trail.level,
        })?;
        Ok(false)
    }

    /// Begins the level of the assumptions.
    fn rise(&mut self)
        requires ready { IsReady self.old }
        requires guards { Guards (length self.old.clauses.given) self.old.followed self.old }
        requires whole { self.old.followed ≡ length self.old.trail.entries.items }
        requires root { self.old.trail.level ≡ 0 }
        ensures search { IsSearch 0 self.new }
        ensures guards { Guards (length self.new.clauses.given) self.new.followed self.new }
        ensures level { self.new.trail.level ≡ 1 }
        ensures taken { self.new.trail.taken ≡ self.old.trail.taken }
        ensures clauses { self.new.clauses ≡ self.old.clauses }
    {
        self.trail.level = 1;
    }

    /// Takes the assumptions as true at level 1, up to one that is false.
    fn assume_all(&mut self) -> Result<Option<ClauseId>, AllocError>
        requires ready { IsReady self.old }
        requires guards { Guards (length self.old.clauses.given) self.old.followed self.old }
        requires whole { self.old.followed ≡ length self.old.trail.entries.items }
        requires root { self.old.trail.level ≡ 0 }
        ensures searching { OnOk result (IsSearching self.new) }
        ensures ready { IfOk result (λ o. o ≡ None → IsReady self.new) }
        ensures guards { OnOk result (Guards (length self.new.clauses.given) self.new.followed self.new) }
        ensures level { OnOk result (self.new.trail.level ≡ 1) }
        ensures conflict { IfOk result (λ o. IfSome o (IsConflict 0 self.new.clauses self.new.trail.entries.items)) }
        ensures fewer { OnOk result (open_count self.new.trail.taken.items ≤ open_count self.old.trail.taken.items) }
        ensures clauses { self.new.clauses ≡ self.old.clauses }
    {
        self.rise();
        for index in 0..self.clauses.assumed.len() as u32 {
            if self.assume_at(index)? {
                return Ok(Some(ClauseId::Assumed(index)));
            }
        }
        Ok(None)
    }

    /// Takes the literals that clauses and assumptions imply, up to a false clause.
    fn settle(&mut self, alloc: Global) -> Result<Option<ClauseId>, AllocError>
        requires ready { IsReady self.old }
        requires guards { Guards (length self.old.clauses.given) self.old.followed self.old }
        ensures searching { OnOk result (IsSearching self.new) }
        ensures ready { IfOk result (λ o. o ≡ None → IsReady self.new) }
        ensures guards { OnOk result (Guards (length self.new.clauses.given) self.new.followed self.new) }
        ensures level { IfOk result (λ o. o ≡ None → 1 ≤ self.new.trail.level) }
        ensures whole { IfOk result (λ o. o ≡ None → self.new.followed ≡ length self.new.trail.entries.items) }
        ensures met { IfOk result (λ o. IfSome o (IsMet self.new)) }
        ensures fewer { OnOk result (open_count self.new.trail.taken.items ≤ open_count self.old.trail.taken.items) }
        ensures clauses { self.new.clauses ≡ self.old.clauses }
    {
        if let Some(id) = self.propagate(alloc)? {
            return Ok(Some(id));
        }
        if self.trail.level > 0 {
            return Ok(None);
        }
        if let Some(id) = self.assume_all()? {
            return Ok(Some(id));
        }
        let found = self.propagate(alloc)?;
        Ok(found)
    }

    /// Propagates and decides up to a false clause, or till each clause given has a true literal.
    fn until_event<C: Chooser>(&mut self, alloc: Global, chooser: &C) -> Result<Event, AllocError>
        requires ready { IsReady self.old }
        requires guards { Guards (length self.old.clauses.given) self.old.followed self.old }
        ensures searching { OnOk result (IsSearching self.new) }
        ensures guards { OnOk result (Guards (length self.new.clauses.given) self.new.followed self.new) }
        ensures event { IfOk result (IsEvent self.new) }
        ensures clauses { self.new.clauses ≡ self.old.clauses }
    {
        'decisions: loop {
            if let Some(id) = self.settle(alloc)? {
                return Ok(Event::Conflict(id));
            }
            match self.next(chooser) {
                Some(literal) => self.decide(literal)?,
                None => return Ok(Event::Satisfied),
            }
        }
    }

    /// The values that the literals taken as true give; a variable without one is false.
    fn assignment(&self, alloc: Global) -> Result<Assignment, AllocError>
        requires { IsModel self.now }
        ensures { IfOk result (λ values. formula_holds (value_of values) (self.now.clauses.given ++ units self.now.clauses.assumed) ≡ true) }
    {
        let mut values = Vec::new(alloc);
        for variable in 0..self.trail.levels.len() {
            values.push(self.trail.taken[2 * variable])?;
        }
        Ok(Assignment::from_vec(values))
    }

    /// Goes back to the assumptions.
    fn restart(&mut self)
        requires ready { IsReady self.old }
        requires guards { Guards (length self.old.clauses.given) self.old.followed self.old }
        ensures ready { IsReady self.new }
        ensures guards { Guards (length self.new.clauses.given) self.new.followed self.new }
        ensures clauses { self.new.clauses ≡ self.old.clauses }
    {
        if self.trail.level > 1 {
            self.go_back(1);
        }
    }

    /// Learns from a conflict above level 1, and goes back further now and then.
    fn learn_on(
        &mut self,
        alloc: Global,
        conflict: ClauseId,
        restarts: &mut Restarts,
    ) -> Result<(), AllocError>
        requires ready { IsReady self.old }
        requires guards { Guards (length self.old.clauses.given) self.old.followed self.old }
        requires level { 2 ≤ self.old.trail.level }
        requires conflict { IsConflict 1 self.old.clauses self.old.trail.entries.items conflict }
        ensures ready { OnOk result (IsReady self.new) }
        ensures guards { OnOk result (Guards (length self.new.clauses.given) self.new.followed self.new) }
        ensures appends { OnOk result (Appends self.old.clauses self.new.clauses) }
        ensures more { OnOk result (length self.new.clauses.learnt ≡ length self.old.clauses.learnt + 1) }
        ensures given { self.new.clauses.given ≡ self.old.clauses.given }
        ensures assumed { self.new.clauses.assumed ≡ self.old.clauses.assumed }
    {
        self.learn(alloc, conflict)?;
        if restarts.note() {
            self.restart();
        }
        Ok(())
    }

    /// The steps learnt, of which so many were kept from before.
    fn spent(&self, alloc: Global, kept: usize) -> Result<Trail, AllocError>
        requires { kept ≤ length self.now.clauses.learnt }
        ensures kept { IfOk result (λ t. t.kept ≡ take kept self.now.clauses.learnt) }
        ensures steps { IfOk result (λ t. t.steps ≡ drop kept self.now.clauses.learnt) }
    {
        let learnt = &self.clauses.learnt;
        let before = steps_between(alloc, learnt, 0, kept)?;
        let steps = steps_between(alloc, learnt, kept, learnt.len())?;
        Ok(Trail {
            kept: before,
            steps,
        })
    }

    /// Searches on, learning from at most so many conflicts.
    fn run<C: Chooser>(
        &mut self,
        alloc: Global,
        chooser: &C,
        conflicts: u32,
    ) -> Result<Answer, AllocError>
        requires ready { IsReady self.old }
        requires guards { Guards (length self.old.clauses.given) self.old.followed self.old }
        requires some { 1 ≤ conflicts }
        ensures sat { IfOk result (λ a. IfSat a (λ values. formula_holds (value_of values) (self.old.clauses.given ++ units self.old.clauses.assumed) ≡ true)) }
        ensures unsat { IfOk result (λ a. IfUnsat a (λ r. IsRefutation (self.old.clauses.given ++ units self.old.clauses.assumed) r × AreTidy (self.old.clauses.given ++ units self.old.clauses.assumed) r)) }
        ensures spent { IfOk result (λ a. IfSpent a (λ kept steps. IsTrail self.old.clauses.given kept steps × AreTidy self.old.clauses.given kept × AreTidy self.old.clauses.given steps × (length steps ≡ conflicts))) }
        ensures fresh { IfOk result (λ a. IfSpent a (λ kept steps. AreFresh (self.old.clauses.given ++ map clause_of kept) steps)) }
        ensures few { IfOk result (λ a. IfSpent a (λ kept steps. IsFew self.old.clauses.given conflicts)) }
        ensures kept { IfOk result (λ a. IfSpent a (λ kept steps. (kept ≡ self.old.clauses.learnt) × (self.new.clauses.learnt ≡ kept ++ steps))) }
        ensures keeps { OnOk result (KeepsMore self.old.clauses.learnt self.new.clauses.learnt) }
        ensures searching { OnOk result (IsSearching self.new) }
        ensures guards { OnOk result (Guards (length self.new.clauses.given) self.new.followed self.new) }
        ensures given { self.new.clauses.given ≡ self.old.clauses.given }
    {
        let kept = self.clauses.learnt.len();
        let mut restarts = Restarts::new();
        for _met in 0..conflicts {
            match self.until_event(alloc, chooser)? {
                Event::Satisfied => return Ok(Answer::Sat(self.assignment(alloc)?)),
                Event::Conflict(id) => {
                    if self.trail.level <= 1 {
                        return Ok(Answer::Unsat(self.refute(alloc, id)?));
                    }
                    self.learn_on(alloc, id, &mut restarts)?;
                }
            }
        }
        let trail = self.spent(alloc, kept)?;
        Ok(Answer::Spent(trail))
    }

    /// Goes back to level 0, where the next question begins.
    fn rest(&mut self)
        requires searching { IsSearching self.old }
        requires guards { Guards (length self.old.clauses.given) self.old.followed self.old }
        ensures resting { IsResting (length self.new.clauses.given) self.new }
        ensures clauses { self.new.clauses ≡ self.old.clauses }
    {
        self.go_back(0);
    }

    /// The answer to a question.
    pub fn answer<C: Chooser>(
        &mut self,
        alloc: Global,
        chooser: &C,
        assume: &[Lit],
        conflicts: u32,
    ) -> Result<Answer, AllocError>
        requires { IsResting (length self.old.clauses.given) self.old }
        ensures sat { IfOk result (λ a. IfSat a (λ values. formula_holds (value_of values) (self.old.clauses.given ++ units assume.now) ≡ true)) }
        ensures unsat { IfOk result (λ a. IfUnsat a (λ r. IsRefutation (self.old.clauses.given ++ units assume.now) r × AreTidy (self.old.clauses.given ++ units assume.now) r)) }
        ensures spent { IfOk result (λ a. IfSpent a (λ kept steps. IsTrail self.old.clauses.given kept steps × AreTidy self.old.clauses.given kept × AreTidy self.old.clauses.given steps × (length steps ≡ conflicts))) }
        ensures fresh { IfOk result (λ a. IfSpent a (λ kept steps. AreFresh (self.old.clauses.given ++ map clause_of kept) steps)) }
        ensures few { IfOk result (λ a. IfSpent a (λ kept steps. IsFew self.old.clauses.given conflicts)) }
        ensures at_once { conflicts ≡ 0 → IfOk result IsSpent }
        ensures kept { IfOk result (λ a. IfSpent a (λ kept steps. (kept ≡ self.old.clauses.learnt) × (self.new.clauses.learnt ≡ kept ++ steps))) }
        ensures keeps { OnOk result (KeepsMore self.old.clauses.learnt self.new.clauses.learnt) }
        ensures resting { OnOk result (IsResting (length self.new.clauses.given) self.new) }
        ensures given { self.new.clauses.given ≡ self.old.clauses.given }
    {
        if conflicts == 0 {
            let trail = self.spent(alloc, self.clauses.learnt.len())?;
            return Ok(Answer::Spent(trail));
        }
        let entered = self.begin(alloc, assume)?;
        if let Some(index) = self.enter_given(entered)? {
            let refutation = self.refute(alloc, ClauseId::Given(index))?;
            self.leave_from(index);
            return Ok(Answer::Unsat(refutation));
        }
        let answer = self.run(alloc, chooser, conflicts)?;
        self.rest();
        Ok(answer)
    }

    /// The answer to a question, where the steps learnt are numbered over so many of the clauses given.
    pub fn reply<C: Chooser>(
        &mut self,
        alloc: Global,
        chooser: &C,
        numbered: usize,
        assume: &[Lit],
        conflicts: u32,
    ) -> Result<Answer, AllocError>
        requires { IsResting numbered self.old }
        ensures sat { IfOk result (λ a. IfSat a (λ values. formula_holds (value_of values) (self.old.clauses.given ++ units assume.now) ≡ true)) }
        ensures unsat { IfOk result (λ a. IfUnsat a (λ r. IsRefutation (self.old.clauses.given ++ units assume.now) r × AreTidy (self.old.clauses.given ++ units assume.now) r)) }
        ensures spent { IfOk result (λ a. IfSpent a (λ kept steps. IsTrail self.old.clauses.given kept steps × AreTidy self.old.clauses.given kept × AreTidy self.old.clauses.given steps × (length steps ≡ conflicts))) }
        ensures fresh { IfOk result (λ a. IfSpent a (λ kept steps. AreFresh (self.old.clauses.given ++ map clause_of kept) steps)) }
        ensures few { IfOk result (λ a. IfSpent a (λ kept steps. IsFew self.old.clauses.given conflicts)) }
        ensures at_once { conflicts ≡ 0 → IfOk result IsSpent }
        ensures kept { IfOk result (λ a. IfSpent a (λ kept steps. (kept ≡ over_all self.old.clauses.given numbered self.old.clauses.learnt) × (self.new.clauses.learnt ≡ kept ++ steps))) }
        ensures keeps { OnOk result (KeepsMore (over_all self.old.clauses.given numbered self.old.clauses.learnt) self.new.clauses.learnt) }
        ensures resting { OnOk result (IsResting (length self.new.clauses.given) self.new) }
        ensures given { self.new.clauses.given ≡ self.old.clauses.given }
    {
        self.number_from(alloc, numbered)?;
        let answer = self.answer(alloc, chooser, assume, conflicts)?;
        Ok(answer)
    }
}
