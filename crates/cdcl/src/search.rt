ghost use Rattle.std.specs.Prelude.{◌≡◌, ◌<◌, ◌≤◌, ◌+◌, ◌*◌, ◌^◌, ◌++◌, ◌∷◌, [], ℕ, List, Some, None, true, false, length, slice_get, vec_len, IfOk, OnOk, IfSome, MatchOption};
ghost use Rattle.cnf_core.specs.Literal.{Literal, code_of};
ghost use Rattle.cdcl.specs.Sources.{named};
ghost use Rattle.cdcl.specs.Known.{known, IsOpen, open_count};
ghost use Rattle.cdcl.specs.Trails.{IsNext as IsNextEntry, IsConflict, IsLevel, IsCut};
ghost use Rattle.cdcl.specs.Searches.{IsSearch, IsSearching, IsReady, Goes, Says, AllTrue, IfFalsified, IfConflict};
ghost use Rattle.cdcl.specs.Tallies.{occurs, AreMarked};
ghost use Rattle.cdcl.specs.Guards.{Guards, AreSound, left_of, IsWatch, InTurn, Moved, Visited, IsAtRest};
ghost use Rattle.cdcl.specs.declared.clauses.ClauseId.TheVariants.{Given};
ghost use Rattle.cdcl.specs.declared.watching.Visit.TheVariants.{Stays};

use crate::assigned::{Assigned, Entry, Reading};
use crate::chooser::Chooser;
use crate::choosing::Choice;
use crate::clauses::{ClauseId, Clauses};
use crate::watching::{Pair, Visit, Watch, Watches};
use cnf_core::Lit;
use std::alloc::{AllocError, Global};

/// The clauses of a question, the literals taken as true, and the signs of the next. The literals of level 0 and the
/// clauses learnt stay from question to question.
#[derive(Drop)]
pub struct Search {
    pub clauses: Clauses,
    pub trail: Assigned,
    pub choice: Choice,
    pub watches: Watches,
    /// How many entries of the trail have been followed.
    pub followed: usize,
}

/// What a search comes to.
#[derive(Clone, Copy)]
pub enum Event {
    Conflict(ClauseId),
    /// Each clause given has a true literal.
    Satisfied,
}

/// The level above this one. It fails where that would have no number below 2^32.
fn next_level(level: u32) -> Result<u32, AllocError>
    ensures { IfOk result (λ n. n ≡ level + 1) }
{
    level.checked_add(1).ok_or(AllocError)
}

/// Two literals of a clause that aren't false, or one of them twice where it is true.
fn left_in(reading: Reading) -> Option<Pair>
    ensures { result ≡ left_of reading }
{
    match reading {
        Reading::Falsified => None,
        Reading::Satisfied(literal) | Reading::Implied(literal) => Some(Pair {
            first: literal,
            second: literal,
        }),
        Reading::Undecided(first, second) => Some(Pair { first, second }),
    }
}

impl Search {
    /// Takes one more literal as true.
    pub fn take(&mut self, entry: Entry) -> Result<(), AllocError>
        requires room { entry.literal.variable < vec_len self.old.trail.levels }
        requires paired { vec_len self.old.trail.taken ≡ 2 * vec_len self.old.trail.levels }
        requires open { IsOpen (known self.old.trail.taken.items) entry.literal }
        ensures search { OnOk result ((held : ℕ) → IsSearch held self.old → IsNextEntry self.old.clauses self.old.trail entry → IsSearch held self.new) }
        ensures goes { OnOk result (entry.level ≡ self.old.trail.level → (entry.reason ≡ None → ⊥) → Goes self.old self.new) }
        ensures entries { OnOk result (self.new.trail.entries.items ≡ self.old.trail.entries.items ++ entry ∷ []) }
        ensures level { OnOk result (self.new.trail.level ≡ entry.level) }
        ensures fewer { OnOk result (open_count self.new.trail.taken.items + 1 ≡ open_count self.old.trail.taken.items) }
        ensures room { OnOk result (vec_len self.new.trail.levels ≡ vec_len self.old.trail.levels) }
        ensures clauses { self.new.clauses ≡ self.old.clauses }
        ensures watches { self.new.watches ≡ self.old.watches }
        ensures followed { self.new.followed ≡ self.old.followed }
    {
        let literal = entry.literal;
        self.trail.push(entry)?;
        self.choice.note(literal);
        Ok(())
    }

    /// What the clause says. The literal that it implies is taken.
    pub fn heed(&mut self, id: ClauseId) -> Result<Reading, AllocError>
        requires ready { IsReady self.old }
        requires named { (c : List Literal) × (named 1 self.old.clauses id ≡ Some c) }
        ensures ready { OnOk result (IsReady self.new) }
        ensures goes { OnOk result (Goes self.old self.new) }
        ensures clauses { self.new.clauses ≡ self.old.clauses }
        ensures watches { self.new.watches ≡ self.old.watches }
        ensures says { IfOk result (λ r. (c : List Literal) → named 1 self.old.clauses id ≡ Some c → Says self.old.trail self.new.trail c r) }
        ensures conflict { IfOk result (IfFalsified (IsConflict 1 self.new.clauses self.new.trail.entries.items id)) }
    {
        match self.trail.read(self.clauses.clause(id)) {
            Reading::Implied(literal) => {
                self.take(Entry {
                    literal,
                    reason: Some(id),
                    level: self.trail.level,
                })?;
                Ok(Reading::Implied(literal))
            }
            Reading::Satisfied(literal) => Ok(Reading::Satisfied(literal)),
            Reading::Falsified => Ok(Reading::Falsified),
            Reading::Undecided(first, second) => Ok(Reading::Undecided(first, second)),
        }
    }

    /// Reads a clause given for the first time, and answers whether it is false.
    fn enter(&mut self, index: u32) -> Result<bool, AllocError>
        requires ready { IsReady self.old }
        requires guards { Guards index self.old.followed self.old }
        requires root { self.old.trail.level ≡ 0 }
        requires within { index < length self.old.clauses.given }
        ensures ready { OnOk result (IsReady self.new) }
        ensures goes { OnOk result (Goes self.old self.new) }
        ensures clauses { self.new.clauses ≡ self.old.clauses }
        ensures guards { IfOk result (λ b. b ≡ false → Guards (index + 1) self.new.followed self.new) }
        ensures left { IfOk result (λ b. b ≡ true → Guards index self.new.followed self.new) }
        ensures conflict { IfOk result (λ b. b ≡ true → IsConflict 1 self.new.clauses self.new.trail.entries.items (Given index)) }
    {
        let id = ClauseId::Given(index);
        match self.heed(id)? {
            Reading::Falsified => Ok(true),
            Reading::Undecided(first, second) => {
                self.watches.wait(id, first, second)?;
                Ok(false)
            }
            Reading::Satisfied(_) => Ok(false),
            Reading::Implied(_) => Ok(false),
        }
    }

    /// Reads the clauses given from an index on, up to a false one, whose index it answers.
    pub fn enter_given(&mut self, start: u32) -> Result<Option<u32>, AllocError>
        requires ready { IsReady self.old }
        requires start { start ≤ length self.old.clauses.given }
        requires guards { Guards start self.old.followed self.old }
        requires root { self.old.trail.level ≡ 0 }
        ensures ready { OnOk result (IsReady self.new) }
        ensures goes { OnOk result (Goes self.old self.new) }
        ensures clauses { self.new.clauses ≡ self.old.clauses }
        ensures guards { IfOk result (λ o. o ≡ None → Guards (length self.new.clauses.given) self.new.followed self.new) }
        ensures left { IfOk result (λ o. IfSome o (λ i. (i < length self.new.clauses.given) × Guards i self.new.followed self.new)) }
        ensures conflict { IfOk result (λ o. IfSome o (λ i. IsConflict 1 self.new.clauses self.new.trail.entries.items (Given i))) }
    {
        for index in start..self.clauses.given.len() as u32 {
            if self.enter(index)? {
                return Ok(Some(index));
            }
        }
        Ok(None)
    }

    /// Lets a clause wait at one of these two literals, which aren't false, in place of one that is.
    fn move_watch(
        &mut self,
        id: ClauseId,
        falsified: Lit,
        one: Lit,
        another: Lit,
    ) -> Result<Visit, AllocError>
        requires one { code_of one < vec_len self.old.watches.lists }
        requires another { code_of another < vec_len self.old.watches.lists }
        ensures moved { IfOk result (Moved id falsified one another self.old.watches self.new.watches) }
        ensures rest { self.new ≡ record self.old { watches = self.new.watches } }
    {
        match self.watches.wait_instead(id, falsified, one, another)? {
            Some(watch) => Ok(Visit::Stays(watch)),
            None => Ok(Visit::Moves),
        }
    }

    /// Reads a clause that waits at a literal that is false now.
    fn visit(&mut self, falsified: Lit, watch: Watch) -> Result<Visit, AllocError>
        requires ready { IsReady self.old }
        requires sound { AreSound self.old }
        requires watch { IsWatch self.old.clauses watch }
        ensures ready { OnOk result (IsReady self.new) }
        ensures goes { OnOk result (Goes self.old self.new) }
        ensures clauses { self.new.clauses ≡ self.old.clauses }
        ensures visited { IfOk result (Visited falsified watch self.old self.new) }
        ensures conflict { IfOk result (IfConflict (λ id. IsConflict 1 self.new.clauses self.new.trail.entries.items id)) }
    {
        if self.trail.holds(watch.blocking) {
            return Ok(Visit::Stays(watch));
        }
        let reading = self.heed(watch.id)?;
        match left_in(reading) {
            None => Ok(Visit::Conflict(watch.id)),
            Some(pair) => {
                let visit = self.move_watch(watch.id, falsified, pair.first, pair.second)?;
                Ok(visit)
            }
        }
    }

    /// Reads a clause that waits at a literal that is false now, unless a false clause was found.
    fn attend(
        &mut self,
        falsified: Lit,
        watch: Watch,
        found: Option<ClauseId>,
    ) -> Result<Visit, AllocError>
        requires ready { IsReady self.old }
        requires sound { AreSound self.old }
        requires watch { IsWatch self.old.clauses watch }
        ensures ready { OnOk result (IsReady self.new) }
        ensures goes { OnOk result (Goes self.old self.new) }
        ensures clauses { self.new.clauses ≡ self.old.clauses }
        ensures attended { IfOk result (λ v. MatchOption found (Visited falsified watch self.old self.new v) (λ id. (self.new ≡ self.old) × (v ≡ Stays watch))) }
        ensures conflict { IfOk result (IfConflict (λ id. IsConflict 1 self.new.clauses self.new.trail.entries.items id)) }
    {
        if found.is_some() {
            return Ok(Visit::Stays(watch));
        }
        self.visit(falsified, watch)
    }

    /// Reads the clauses of a list that wait at a literal that is false now, up to a false one. Those that wait there
    /// still are kept in the list.
    fn follow_list(
        &mut self,
        falsified: Lit,
        list: &mut Vec<Watch>,
        index: usize,
    ) -> Result<Option<ClauseId>, AllocError>
        requires ready { IsReady self.old }
        requires turn { InTurn falsified index 0 0 list.old.items None self.old }
        ensures ready { OnOk result (IsReady self.new) }
        ensures goes { OnOk result (Goes self.old self.new) }
        ensures clauses { self.new.clauses ≡ self.old.clauses }
        ensures turn { IfOk result (λ o. InTurn falsified index (vec_len list.new) (vec_len list.new) list.new.items o self.new) }
        ensures conflict { IfOk result (λ o. IfSome o (λ id. IsConflict 1 self.new.clauses self.new.trail.entries.items id)) }
    {
        let mut kept: usize = 0;
        let mut found = None;
        for next in 0..list.len() {
            let watch = list[next];
            match self.attend(falsified, watch, found)? {
                Visit::Stays(watch) => {
                    list[kept] = watch;
                    kept += 1;
                }
                Visit::Moves => {}
                Visit::Conflict(id) => {
                    let watch = list[next];
                    list[kept] = watch;
                    kept += 1;
                    found = Some(id);
                }
            }
        }
        list.truncate(kept);
        Ok(found)
    }

    /// Reads the clauses that wait at the negation of an entry's literal, up to a false one.
    fn follow(&mut self, alloc: Global, index: usize) -> Result<Option<ClauseId>, AllocError>
        requires ready { IsReady self.old }
        requires guards { Guards (length self.old.clauses.given) index self.old }
        requires within { index < length self.old.trail.entries.items }
        ensures ready { OnOk result (IsReady self.new) }
        ensures goes { OnOk result (Goes self.old self.new) }
        ensures clauses { self.new.clauses ≡ self.old.clauses }
        ensures rest { IfOk result (λ o. IsAtRest index o self.new) }
        ensures conflict { IfOk result (λ o. IfSome o (λ id. IsConflict 1 self.new.clauses self.new.trail.entries.items id)) }
    {
        let falsified = self.trail.entries[index].literal.negated();
        let mut list = self.watches.take_list(alloc, falsified);
        let found = self.follow_list(falsified, &mut list, index)?;
        self.watches.put_list(falsified, list);
        Ok(found)
    }

    /// Takes the literals that clauses imply, up to a false clause.
    pub fn propagate(&mut self, alloc: Global) -> Result<Option<ClauseId>, AllocError>
        requires ready { IsReady self.old }
        requires guards { Guards (length self.old.clauses.given) self.old.followed self.old }
        ensures ready { OnOk result (IsReady self.new) }
        ensures guards { OnOk result (Guards (length self.new.clauses.given) self.new.followed self.new) }
        ensures clauses { self.new.clauses ≡ self.old.clauses }
        ensures whole { IfOk result (λ o. o ≡ None → self.new.followed ≡ length self.new.trail.entries.items) }
        ensures level { OnOk result (self.new.trail.level ≡ self.old.trail.level) }
        ensures fewer { OnOk result (open_count self.new.trail.taken.items ≤ open_count self.old.trail.taken.items) }
        ensures conflict { IfOk result (λ o. IfSome o (λ id. IsConflict 1 self.new.clauses self.new.trail.entries.items id)) }
    {
        let mut next = self.followed;
        'entries: while next < self.trail.entries.len() {
            if let Some(id) = self.follow(alloc, next)? {
                return Ok(Some(id));
            }
            next += 1;
        }
        self.followed = next;
        Ok(None)
    }

    /// The literal to decide next, or none where each clause given has a true literal.
    pub fn next<C: Chooser>(&self, chooser: &C) -> Option<Lit>
        requires ready { IsReady self.now }
        requires guards { Guards (length self.now.clauses.given) self.now.followed self.now }
        requires whole { self.now.followed ≡ length self.now.trail.entries.items }
        ensures open { IfSome result (λ l. (l.variable < vec_len self.now.trail.levels) × IsOpen (known self.now.trail.taken.items) l) }
        ensures none { result ≡ None → AllTrue self.now }
    {
        self.choice.pick(chooser, &self.trail)
    }

    /// Tally a conflict for the variables of the clauses that had a part in it.
    pub fn count_conflict(&mut self, ids: &[ClauseId])
        ensures ready { IsReady self.old → IsReady self.new }
        ensures guards { (n : ℕ) → Guards (length self.old.clauses.given) n self.old → Guards (length self.new.clauses.given) n self.new }
        ensures entries { self.new.trail.entries ≡ self.old.trail.entries }
        ensures levels { self.new.trail.levels ≡ self.old.trail.levels }
        ensures level { self.new.trail.level ≡ self.old.trail.level }
        ensures followed { self.new.followed ≡ self.old.followed }
        ensures clauses { self.new.clauses ≡ self.old.clauses }
        ensures marks { AreMarked (occurs self.old.clauses ids.now) self.old.trail.scores.marks self.new.trail.scores.marks }
    {
        self.trail.scores.count_conflict(&self.clauses, ids);
    }

    /// Takes an open literal as true at a level of its own. It fails where the level would have no number below 2^32.
    pub fn decide(&mut self, literal: Lit) -> Result<(), AllocError>
        requires ready { IsReady self.old }
        requires above { 1 ≤ self.old.trail.level }
        requires guards { Guards (length self.old.clauses.given) self.old.followed self.old }
        requires whole { self.old.followed ≡ length self.old.trail.entries.items }
        requires room { literal.variable < vec_len self.old.trail.levels }
        requires open { IsOpen (known self.old.trail.taken.items) literal }
        ensures ready { OnOk result (IsReady self.new) }
        ensures guards { OnOk result (Guards (length self.new.clauses.given) self.new.followed self.new) }
        ensures fewer { OnOk result (open_count self.new.trail.taken.items < open_count self.old.trail.taken.items) }
        ensures clauses { self.new.clauses ≡ self.old.clauses }
    {
        let level = next_level(self.trail.level)?;
        self.take(Entry {
            literal,
            reason: None,
            level,
        })?;
        Ok(())
    }

    /// Takes back the literals above a level, which is 0, 1 or that of an entry.
    pub fn go_back(&mut self, level: u32)
        requires searching { IsSearching self.old }
        requires guards { Guards (length self.old.clauses.given) self.old.followed self.old }
        requires level { IsLevel level self.old.trail.entries.items }
        requires below { level ≤ self.old.trail.level }
        ensures ready { (1 ≤ level → IsReady self.old) → IsReady self.new }
        ensures guards { Guards (length self.new.clauses.given) self.new.followed self.new }
        ensures cut { IsCut level self.old.trail.entries.items self.new.trail.entries.items }
        ensures level { self.new.trail.level ≡ level }
        ensures room { vec_len self.new.trail.levels ≡ vec_len self.old.trail.levels }
        ensures whole { level < self.old.trail.level → self.new.followed ≡ length self.new.trail.entries.items }
        ensures clauses { self.new.clauses ≡ self.old.clauses }
    {
        self.trail.backjump(level);
        self.followed = self.followed.min(self.trail.entries.len());
    }
}
