ghost use Rattle.std.specs.Prelude.{◌≡◌, ◌<◌, ◌≤◌, ◌+◌, ◌*◌, ◌^◌, ◌++◌, ◌∷◌, [], ◌⊎◌, ℕ, List, Some, None, true, length, vec_len, IfOk, OnOk};
ghost use Rattle.cnf_core.specs.Literal.{Literal};
ghost use Rattle.proof_check.specs.Propagation.{taking};
ghost use Rattle.cdcl.specs.declared.clauses.Clauses.{Clauses as ClausesValue};
ghost use Rattle.cdcl.specs.Sources.{named};
ghost use Rattle.cdcl.specs.Known.{known, Reads, IsOpen, open_count};
ghost use Rattle.cdcl.specs.Trails.{IsTrailOf, IsNext, IsCut, top_level};

use crate::clauses::ClauseId;
use crate::scores::Scores;
use cnf_core::Lit;
use std::alloc::{AllocError, Global};

/// A literal that is taken as true: a decision, or implied by a clause. Level 0 has what the clauses imply, level 1 the
/// assumptions and what these imply; decisions stand above.
#[derive(Clone, Copy)]
pub struct Entry {
    pub literal: Lit,
    pub reason: Option<ClauseId>,
    pub level: u32,
}

/// What a clause says where some literals are taken as true.
#[derive(Clone, Copy)]
pub enum Reading {
    /// This literal is true.
    Satisfied(Lit),
    /// All literals are false.
    Falsified,
    /// All literals but this one are false, and this one has no value.
    Implied(Lit),
    /// This literal has no value, and the second one hasn't either.
    Undecided(Lit, Lit),
}

/// The literals that are taken as true, in order: entries with their reasons and levels, a mark for
/// each literal at its code, and the level of each variable.
#[derive(Drop)]
pub struct Assigned {
    pub entries: Vec<Entry>,
    pub taken: Vec<bool>,
    pub levels: Vec<u32>,
    pub level: u32,
    /// What a chooser may ask of the variables.
    pub scores: Scores,
}

impl Assigned {
    /// No literals, over no variables. It takes no memory.
    pub fn new(alloc: Global) -> Assigned
        ensures trail { (clauses : ClausesValue) → IsTrailOf clauses result }
        ensures entries { result.entries.items ≡ [] }
        ensures room { vec_len result.levels ≡ 0 }
        ensures level { result.level ≡ 0 }
    {
        Assigned {
            entries: Vec::new(alloc),
            taken: Vec::new(alloc),
            levels: Vec::new(alloc),
            level: 0,
            scores: Scores::new(alloc),
        }
    }

    /// Forgets all but the marks of the variables.
    pub fn forget(&mut self, alloc: Global)
        ensures trail { (clauses : ClausesValue) → IsTrailOf clauses self.new }
        ensures entries { self.new.entries.items ≡ [] }
        ensures room { vec_len self.new.levels ≡ 0 }
        ensures level { self.new.level ≡ 0 }
        ensures marks { self.new.scores.marks ≡ self.old.scores.marks }
    {
        self.entries = Vec::new(alloc);
        self.taken = Vec::new(alloc);
        self.levels = Vec::new(alloc);
        self.level = 0;
        self.scores.forget(alloc);
    }

    /// Makes room for variables below `room`.
    pub fn grow(&mut self, alloc: Global, room: usize) -> Result<(), AllocError>
        requires small { room ≤ 2 ^ 31 }
        requires least { vec_len self.old.levels ≤ room }
        requires paired { vec_len self.old.taken ≡ 2 * vec_len self.old.levels }
        requires scored { length self.old.scores.unset ≡ vec_len self.old.levels }
        ensures trail { OnOk result ((clauses : ClausesValue) → IsTrailOf clauses self.old → IsTrailOf clauses self.new) }
        ensures room { OnOk result (vec_len self.new.levels ≡ room) }
        ensures entries { self.new.entries ≡ self.old.entries }
        ensures level { self.new.level ≡ self.old.level }
    {
        self.taken.resize(2 * room, false)?;
        self.levels.resize(room, 0)?;
        self.scores.grow(alloc, room)?;
        Ok(())
    }

    /// Whether the literal is taken as true.
    pub fn holds(&self, literal: Lit) -> bool
        ensures { result ≡ known self.now.taken.items literal }
    {
        self.taken.get(literal.code() as usize) == Some(&true)
    }

    /// The level of a literal's variable.
    pub fn level_of(&self, literal: Lit) -> u32 {
        self.levels
            .get(literal.variable() as usize)
            .copied()
            .unwrap_or(0)
    }

    /// What the clause says.
    pub fn read(&self, clause: &[Lit]) -> Reading
        ensures { Reads (known self.now.taken.items) clause.now result }
    {
        let mut candidate = None;
        for literal in clause {
            if self.holds(*literal) {
                return Reading::Satisfied(*literal);
            }
            if !self.holds(literal.negated()) {
                match candidate {
                    None => candidate = Some(*literal),
                    Some(first) => {
                        if first != *literal {
                            return Reading::Undecided(first, *literal);
                        }
                    }
                }
            }
        }
        match candidate {
            None => Reading::Falsified,
            Some(first) => Reading::Implied(first),
        }
    }

    /// Takes one more literal as true. Its level is the trail's from now on.
    pub fn push(&mut self, entry: Entry) -> Result<(), AllocError>
        requires room { entry.literal.variable < vec_len self.old.levels }
        requires paired { vec_len self.old.taken ≡ 2 * vec_len self.old.levels }
        requires open { IsOpen (known self.old.taken.items) entry.literal }
        ensures trail { OnOk result ((clauses : ClausesValue) → IsTrailOf clauses self.old → IsNext clauses self.old entry → IsTrailOf clauses self.new) }
        ensures entries { OnOk result (self.new.entries.items ≡ self.old.entries.items ++ entry ∷ []) }
        ensures fewer { OnOk result (open_count self.new.taken.items + 1 ≡ open_count self.old.taken.items) }
        ensures room { vec_len self.new.levels ≡ vec_len self.old.levels }
        ensures level { OnOk result (self.new.level ≡ entry.level) }
    {
        let literal = entry.literal;
        let level = entry.level;
        self.entries.push(entry)?;
        self.level = level;
        self.taken[literal.code() as usize] = true;
        self.levels[literal.variable() as usize] = level;
        self.scores.close(literal.variable());
        Ok(())
    }

    /// Takes the last literal back.
    fn pop(&mut self)
        requires { (clauses : ClausesValue) × IsTrailOf clauses self.old }
        ensures trail { (clauses : ClausesValue) → IsTrailOf clauses self.old → IsTrailOf clauses self.new }
        ensures shorter { (self.old.entries.items ≡ []) ⊎ ((e : _) × (self.old.entries.items ≡ self.new.entries.items ++ e ∷ [])) }
        ensures room { vec_len self.new.levels ≡ vec_len self.old.levels }
        ensures level { self.new.level ≡ self.old.level }
    {
        let Some(entry) = self.entries.pop() else {
            return;
        };
        self.taken[entry.literal.code() as usize] = false;
        self.scores.reopen(entry.literal.variable());
    }

    /// The level of the last entry, or 0.
    fn last_level(&self) -> u32
        ensures { result ≡ top_level self.now.entries.items }
    {
        match self.entries.last() {
            None => 0,
            Some(entry) => entry.level,
        }
    }

    /// Takes back the literals above a level.
    pub fn backjump(&mut self, level: u32)
        requires { (clauses : ClausesValue) × IsTrailOf clauses self.old }
        ensures trail { (clauses : ClausesValue) → IsTrailOf clauses self.old → IsTrailOf clauses self.new }
        ensures cut { IsCut level self.old.entries.items self.new.entries.items }
        ensures level { self.new.level ≡ level }
        ensures room { vec_len self.new.levels ≡ vec_len self.old.levels }
    {
        'entries: while self.last_level() > level {
            self.pop();
        }
        self.level = level;
    }
}
