ghost use Rattle.std.specs.Prelude.{◌≡◌, ◌<◌, ◌≤◌, ◌+◌, ◌||◌, cond, ◌++◌, ◌∷◌, [], ℕ, Some, None, false, true, reverse, length, eqb, slice_get, List, vec_len, IfOk, OnOk, IfSome, Contains};
ghost use Rattle.cnf_core.specs.Literal.{Literal, negated};
ghost use Rattle.proof_check.specs.Propagation.{negations};
ghost use Rattle.proof_check.specs.Room.{Within};
ghost use Rattle.cdcl.specs.Sources.{named};
ghost use Rattle.cdcl.specs.Fits.{Fits};
ghost use Rattle.cdcl.specs.Derives.{Derives, NamesWithin, WorkWithin};
ghost use Rattle.cdcl.specs.Tidy.{AreApart};
ghost use Rattle.cdcl.specs.Trails.{seen_at, names, follows, IsTrailOf, IsConflict, HasRoom, HaveLevels, AllReasoned};
ghost use Rattle.cdcl.specs.Jumps.{Weighs, Marked, NoneMarked, IsStage, HasTop, IsJump};
ghost use Rattle.cdcl.specs.Sources.{IsCiteable};

use crate::assigned::{Assigned, Entry};
use crate::clauses::{ClauseId, Clauses};
use cnf_core::Lit;
use std::alloc::{AllocError, Global};

/// A clause, and those from which it follows by unit propagation, in order.
#[derive(Drop)]
pub struct Lesson {
    pub clause: Vec<Lit>,
    pub hints: Vec<ClauseId>,
    /// The level of the second literal, or 0.
    pub level: u32,
}

/// Marks the clause's variables.
fn mark(seen: &mut Vec<bool>, clause: &[Lit])
    requires { Fits (vec_len seen.old) clause.now }
    ensures room { vec_len seen.new ≡ vec_len seen.old }
    ensures marks { (v : ℕ) → seen_at seen.new.items v ≡ (seen_at seen.old.items v || names v clause.now) }
{
    for literal in clause {
        seen[literal.variable() as usize] = true;
    }
}

/// The marked variables, the lesson's literals and the clauses read so far, the last one first, and the level of the
/// lesson's second literal, or 0.
#[derive(Drop)]
struct Work {
    seen: Vec<bool>,
    kept: Vec<Lit>,
    hints: Vec<ClauseId>,
    level: u32,
}

fn is_marked(seen: &[bool], literal: Lit) -> bool
    requires { literal.variable < length seen.now }
    ensures { result ≡ seen_at seen.now literal.variable }
{
    seen[literal.variable() as usize]
}

/// The entry's reason, where it is wanted and a step may cite it.
fn resolvable(clauses: &Clauses, entry: &Entry, from: u32, wanted: bool) -> Option<ClauseId>
    ensures reason { IfSome result (λ id. (entry.now.reason ≡ Some id) × IsCiteable from clauses.now id) }
    ensures wanted { IfSome result (λ id. wanted ≡ true) }
    ensures nothing { result ≡ None → wanted ≡ true → from ≡ 0 → entry.now.reason ≡ None }
    ensures uncited { result ≡ None → wanted ≡ true → (id : _) → entry.now.reason ≡ Some id → named 1 clauses.now id ≡ None }
{
    let reason = entry.reason?;
    if wanted && (from == 0 || clauses.has(reason)) {
        Some(reason)
    } else {
        None
    }
}

fn unmarked(alloc: Global, room: usize) -> Result<Vec<bool>, AllocError>
    ensures room { IfOk result (λ seen. vec_len seen ≡ room) }
    ensures marks { IfOk result (λ seen. (v : ℕ) → seen_at seen.items v ≡ false) }
{
    let seen = vec![in alloc; false; room]?;
    Ok(seen)
}

impl Work {
    /// The marks of the conflict's clause.
    fn begin(
        alloc: Global,
        clauses: &Clauses,
        trail: &Assigned,
        conflict: ClauseId,
        from: u32,
    ) -> Result<Work, AllocError>
        requires room { HasRoom (vec_len trail.now.levels) trail.now.entries.items }
        requires conflict { IsConflict from clauses.now trail.now.entries.items conflict }
        ensures room { IfOk result (λ w. vec_len w.seen ≡ vec_len trail.now.levels) }
        ensures kept { IfOk result (λ w. w.kept.items ≡ []) }
        ensures occurs { IfOk result (λ w. (vars : List ℕ) → NamesWithin vars (named from clauses.now) → WorkWithin vars w.seen.items w.kept.items) }
        ensures derives { IfOk result (λ w. Derives (named from clauses.now) trail.now.entries.items (length trail.now.entries.items) w.seen.items w.kept.items (reverse w.hints.items)) }
        ensures stage { IfOk result (λ w. HasTop clauses.now trail.now conflict → IsStage trail.now.entries.items trail.now.level (length trail.now.entries.items) w.seen.items w.kept.items w.level) }
    {
        let mut hints = Vec::new(alloc);
        hints.push(conflict)?;
        let mut seen = unmarked(alloc, trail.levels.len())?;
        mark(&mut seen, clauses.clause(conflict));
        Ok(Work {
            seen,
            kept: Vec::new(alloc),
            hints,
            level: 0,
        })
    }

    /// Whether the literals of an entry's reason are marked but for its own, or stand at level 0: then the lesson goes
    /// without it (Sörensson and Biere, "Minimizing learned clauses", SAT 2009).
    fn is_covered(&self, clauses: &Clauses, trail: &Assigned, entry: &Entry) -> bool {
        let Some(reason) = entry.reason else {
            return false;
        };
        if !clauses.has(reason) {
            return false;
        }
        let own = entry.literal;
        for literal in clauses.clause(reason) {
            let is_seen = self.seen.get(literal.variable() as usize) == Some(&true);
            if !is_seen && *literal != own && trail.level_of(*literal) > 0 {
                return false;
            }
        }
        true
    }

    /// Whether one of the first so many entries that are of the trail's level is marked.
    fn is_another(&self, trail: &Assigned, end: usize) -> bool
        requires room { HasRoom (vec_len self.now.seen) trail.now.entries.items }
        requires levels { HaveLevels trail.now.level trail.now.entries.items }
        requires end { end ≤ length trail.now.entries.items }
        ensures { Weighs trail.now.entries.items trail.now.level end self.now.seen.items result }
    {
        let mut next = end;
        'entries: while next > 0 {
            let entry = &trail.entries[next - 1];
            if entry.level != trail.level {
                return false;
            }
            if is_marked(&self.seen, entry.literal) {
                return true;
            }
            next -= 1;
        }
        false
    }

    /// Whether an entry's mark is to go to the literals of its reason: always where the clause is to be empty, and at the
    /// trail's level where another entry below it is marked.
    fn is_wanted(&self, clauses: &Clauses, trail: &Assigned, index: usize, from: u32) -> bool
        requires room { HasRoom (vec_len self.now.seen) trail.now.entries.items }
        requires levels { HaveLevels trail.now.level trail.now.entries.items }
        requires index { index < length trail.now.entries.items }
        ensures all { from ≡ 0 → result ≡ true }
        ensures top { from ≡ 1 → (e : _) → slice_get trail.now.entries.items index ≡ Some e → e.level ≡ trail.now.level → Weighs trail.now.entries.items trail.now.level index self.now.seen.items result }
    {
        if from == 0 {
            return true;
        }
        let entry = &trail.entries[index];
        if entry.level == trail.level {
            return self.is_another(trail, index);
        }
        if entry.level == 0 {
            return true;
        }
        self.is_covered(clauses, trail, entry)
    }

    /// Replaces the entry's mark by those of its reason's other literals.
    fn resolve(&mut self, literal: Lit, reason: ClauseId, clause: &[Lit]) -> Result<(), AllocError>
        requires fits { Fits (vec_len self.old.seen) clause.now }
        requires literal { literal.variable < vec_len self.old.seen }
        ensures room { vec_len self.new.seen ≡ vec_len self.old.seen }
        ensures off { OnOk result (seen_at self.new.seen.items literal.variable ≡ false) }
        ensures marks { OnOk result ((v : ℕ) → (v ≡ literal.variable → ⊥) → seen_at self.new.seen.items v ≡ (seen_at self.old.seen.items v || names v clause.now)) }
        ensures hints { OnOk result (self.new.hints.items ≡ self.old.hints.items ++ reason ∷ []) }
        ensures kept { self.new.kept ≡ self.old.kept }
        ensures level { self.new.level ≡ self.old.level }
    {
        self.hints.push(reason)?;
        mark(&mut self.seen, clause);
        self.seen[literal.variable() as usize] = false;
        Ok(())
    }

    /// Takes the entry's mark off, and puts the negation of its literal into the lesson.
    fn keep(&mut self, literal: Lit, level: u32) -> Result<(), AllocError>
        requires { literal.variable < vec_len self.old.seen }
        ensures room { vec_len self.new.seen ≡ vec_len self.old.seen }
        ensures off { OnOk result (seen_at self.new.seen.items literal.variable ≡ false) }
        ensures marks { OnOk result ((v : ℕ) → (v ≡ literal.variable → ⊥) → seen_at self.new.seen.items v ≡ seen_at self.old.seen.items v) }
        ensures kept { OnOk result (self.new.kept.items ≡ self.old.kept.items ++ negated literal ∷ []) }
        ensures level { self.new.level ≡ cond (eqb (vec_len self.old.kept) 1) level self.old.level }
        ensures hints { self.new.hints ≡ self.old.hints }
    {
        if self.kept.len() == 1 {
            self.level = level;
        }
        self.kept.push(literal.negated())?;
        self.seen[literal.variable() as usize] = false;
        Ok(())
    }

    /// Goes below the entry: its mark goes to its reason's other literals, or its negation into the lesson.
    fn descend(
        &mut self,
        clauses: &Clauses,
        trail: &Assigned,
        index: usize,
        from: u32,
    ) -> Result<(), AllocError>
        requires trail { IsTrailOf clauses.now trail.now }
        requires index { index < length trail.now.entries.items }
        requires seen { vec_len self.old.seen ≡ vec_len trail.now.levels }
        requires derives { Derives (named from clauses.now) trail.now.entries.items (index + 1) self.old.seen.items self.old.kept.items (reverse self.old.hints.items) }
        ensures seen { vec_len self.new.seen ≡ vec_len trail.now.levels }
        ensures kept { OnOk result (from ≡ 0 → AllReasoned trail.now.entries.items → self.new.kept.items ≡ self.old.kept.items) }
        ensures occurs { OnOk result ((vars : List ℕ) → NamesWithin vars (named from clauses.now) → WorkWithin vars self.old.seen.items self.old.kept.items → WorkWithin vars self.new.seen.items self.new.kept.items) }
        ensures derives { OnOk result (Derives (named from clauses.now) trail.now.entries.items index self.new.seen.items self.new.kept.items (reverse self.new.hints.items)) }
        ensures stage { OnOk result (from ≡ 1 → 2 ≤ trail.now.level → IsStage trail.now.entries.items trail.now.level (index + 1) self.old.seen.items self.old.kept.items self.old.level → IsStage trail.now.entries.items trail.now.level index self.new.seen.items self.new.kept.items self.new.level) }
    {
        let entry = &trail.entries[index];
        if !is_marked(&self.seen, entry.literal) {
            return Ok(());
        }
        let wanted = self.is_wanted(clauses, trail, index, from);
        match resolvable(clauses, entry, from, wanted) {
            Some(reason) => {
                self.resolve(entry.literal, reason, clauses.clause(reason))?;
                Ok(())
            }
            None => {
                self.keep(entry.literal, entry.level)?;
                Ok(())
            }
        }
    }

    /// Goes down the whole trail.
    fn run(&mut self, clauses: &Clauses, trail: &Assigned, from: u32) -> Result<(), AllocError>
        requires trail { IsTrailOf clauses.now trail.now }
        requires seen { vec_len self.old.seen ≡ vec_len trail.now.levels }
        requires derives { Derives (named from clauses.now) trail.now.entries.items (length trail.now.entries.items) self.old.seen.items self.old.kept.items (reverse self.old.hints.items) }
        ensures kept { OnOk result (from ≡ 0 → AllReasoned trail.now.entries.items → self.new.kept.items ≡ self.old.kept.items) }
        ensures occurs { OnOk result ((vars : List ℕ) → NamesWithin vars (named from clauses.now) → WorkWithin vars self.old.seen.items self.old.kept.items → WorkWithin vars self.new.seen.items self.new.kept.items) }
        ensures derives { OnOk result (Derives (named from clauses.now) trail.now.entries.items 0 self.new.seen.items self.new.kept.items (reverse self.new.hints.items)) }
        ensures stage { OnOk result (from ≡ 1 → 2 ≤ trail.now.level → IsStage trail.now.entries.items trail.now.level (length trail.now.entries.items) self.old.seen.items self.old.kept.items self.old.level → IsStage trail.now.entries.items trail.now.level 0 self.new.seen.items self.new.kept.items self.new.level) }
    {
        let mut index = trail.entries.len();
        'entries: while index > 0 {
            self.descend(clauses, trail, index - 1, from)?;
            index -= 1;
        }
        Ok(())
    }
}

/// The clause that the conflict teaches, with its literals from the trail's end down: at its level's first unique
/// implication point, or from level 0 the empty one.
pub fn analyze(
    alloc: Global,
    clauses: &Clauses,
    trail: &Assigned,
    conflict: ClauseId,
    from: u32,
) -> Result<Lesson, AllocError>
    requires trail { IsTrailOf clauses.now trail.now }
    requires conflict { IsConflict from clauses.now trail.now.entries.items conflict }
    ensures empty { IfOk result (λ lesson. from ≡ 0 → AllReasoned trail.now.entries.items → lesson.clause.items ≡ []) }
    ensures apart { IfOk result (λ lesson. AreApart lesson.clause.items) }
    ensures occurs { IfOk result (λ lesson. (vars : List ℕ) → NamesWithin vars (named from clauses.now) → Within vars lesson.clause.items) }
    ensures jump { IfOk result (λ lesson. from ≡ 1 → 2 ≤ trail.now.level → HasTop clauses.now trail.now conflict → IsJump trail.now.entries.items trail.now.level lesson.clause.items lesson.level) }
    ensures valid { IfOk result (λ lesson. follows (named from clauses.now) (negations lesson.clause.items) lesson.hints.items ≡ true) }
{
    let mut work = Work::begin(alloc, clauses, trail, conflict, from)?;
    work.run(clauses, trail, from)?;
    work.hints.reverse();
    Ok(Lesson {
        clause: work.kept,
        hints: work.hints,
        level: work.level,
    })
}
