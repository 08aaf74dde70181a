ghost use Rattle.std.specs.Prelude.{◌≡◌, ◌<◌, ◌≤◌, ◌++◌, ◌^◌, ◌*◌, ◌∷◌, [], ℕ, Some, length, slice_get, vec_len, IfOk, OnOk, OnErr};
ghost use Rattle.cnf_core.specs.Literal.{Literal};
ghost use Rattle.cdcl.specs.Fits.{IsNumbered};
ghost use Rattle.cdcl.specs.Guards.{Guards};
ghost use Rattle.cdcl.specs.Resting.{IsResting, IsWidened};
ghost use Rattle.cdcl.specs.Searches.{IsReady};
ghost use Rattle.cdcl.specs.Stores.{over_all};

use crate::assigned::Assigned;
use crate::choosing::Choice;
use crate::clauses::Clauses;
use crate::search::Search;
use crate::watching::Watches;
use cnf_core::{Formula, Lit};
use plain_data::Items;
use proof_check::Steps;
use std::alloc::{AllocError, Global};

/// A number above each variable, and at most 2^31.
fn room_for(literals: &[Lit], least: usize) -> usize
    requires { least ≤ 2 ^ 31 }
    ensures small { result ≤ 2 ^ 31 }
    ensures least { least ≤ result }
    ensures fits { IsNumbered result literals.now }
{
    let mut room = least;
    for literal in literals {
        room = room.max(literal.variable() as usize + 1);
    }
    room
}

/// The same for the clauses from an index on.
fn room_from(clauses: &Formula, start: usize, least: usize) -> usize
    requires start { start ≤ length clauses.now }
    requires least { least ≤ 2 ^ 31 }
    ensures small { result ≤ 2 ^ 31 }
    ensures least { least ≤ result }
    ensures fits { (i : ℕ) (c : _) → start ≤ i → slice_get clauses.now i ≡ Some c → IsNumbered result c }
{
    let mut room = least;
    for index in start..clauses.len() {
        room = room_for(clauses.clause(index), room);
    }
    room
}

impl Search {
    /// No clauses.
    pub fn new(alloc: Global) -> Search
        ensures given { result.clauses.given ≡ [] }
        ensures learnt { result.clauses.learnt ≡ [] }
        ensures resting { IsResting 0 result }
    {
        Search {
            clauses: Clauses {
                given: Formula::new(alloc),
                assumed: Items::new(alloc),
                learnt: Steps::new(alloc),
            },
            trail: Assigned::new(alloc),
            choice: Choice::new(alloc),
            watches: Watches::new(alloc),
            followed: 0,
        }
    }

    /// Adds a clause at the end. The steps learnt are numbered over the clauses as before.
    pub fn add(&mut self, clause: &[Lit]) -> Result<(), AllocError>
        ensures resting { (n : ℕ) → IsResting n self.old → IsResting n self.new }
        ensures learnt { self.new.clauses.learnt ≡ self.old.clauses.learnt }
        ensures ok { OnOk result (self.new.clauses.given ≡ self.old.clauses.given ++ clause.now ∷ []) }
        ensures err { OnErr result (self.new.clauses.given ≡ self.old.clauses.given) }
    {
        self.clauses.given.push(clause)?;
        Ok(())
    }

    /// Forgets all but the clauses given, so that the next question begins anew.
    pub fn forget(&mut self, alloc: Global)
        ensures resting { IsResting (length self.new.clauses.given) self.new }
        ensures learnt { self.new.clauses.learnt ≡ [] }
        ensures given { self.new.clauses.given ≡ self.old.clauses.given }
    {
        self.clauses.learnt = Steps::new(alloc);
        self.trail.forget(alloc);
        self.choice = Choice::new(alloc);
        self.watches = Watches::new(alloc);
        self.followed = 0;
    }

    /// Makes room for variables below `room`, and for all clauses given.
    fn widen(&mut self, alloc: Global, room: usize) -> Result<(), AllocError>
        requires small { room ≤ 2 ^ 31 }
        requires least { vec_len self.old.trail.levels ≤ room }
        requires paired { vec_len self.old.trail.taken ≡ 2 * vec_len self.old.trail.levels }
        requires scored { length self.old.trail.scores.unset ≡ vec_len self.old.trail.levels }
        requires lists { vec_len self.old.watches.lists ≡ 2 * vec_len self.old.trail.levels }
        requires given { vec_len self.old.watches.given ≤ length self.old.clauses.given }
        ensures widened { OnOk result (IsWidened room self.old self.new) }
        ensures clauses { self.new.clauses ≡ self.old.clauses }
    {
        self.trail.grow(alloc, room)?;
        self.choice.grow(room)?;
        self.watches.grow(alloc, room, self.clauses.given.len())?;
        Ok(())
    }

    /// Numbers the clauses that the steps learnt cite anew, where they are numbered over the first clauses given.
    pub fn number_from(&mut self, alloc: Global, before: usize) -> Result<(), AllocError>
        requires { IsResting before self.old }
        ensures resting { OnOk result (IsResting (length self.new.clauses.given) self.new) }
        ensures learnt { OnOk result (self.new.clauses.learnt ≡ over_all self.old.clauses.given before self.old.clauses.learnt) }
        ensures given { self.new.clauses.given ≡ self.old.clauses.given }
    {
        if self.clauses.given.len() >= 0x8000_0000 || self.clauses.learnt.len() >= 0x3fff_ffff {
            return Err(AllocError);
        }
        self.clauses.renumber(alloc, before)?;
        Ok(())
    }

    /// Begins a question under assumptions, with room for their variables and those of the clauses added since the last
    /// one. It answers how many clauses were entered before.
    pub fn begin(&mut self, alloc: Global, assume: &[Lit]) -> Result<u32, AllocError>
        requires { IsResting (length self.old.clauses.given) self.old }
        ensures ready { OnOk result (IsReady self.new) }
        ensures entered { IfOk result (λ n. (n ≤ length self.new.clauses.given) × Guards n self.new.followed self.new) }
        ensures root { OnOk result (self.new.trail.level ≡ 0) }
        ensures assumed { OnOk result (self.new.clauses.assumed ≡ assume.now) }
        ensures learnt { OnOk result (self.new.clauses.learnt ≡ self.old.clauses.learnt) }
        ensures given { self.new.clauses.given ≡ self.old.clauses.given }
    {
        let entered = self.watches.given.len();
        if self.clauses.given.len() >= 0x8000_0000
            || assume.len() >= 0x4000_0000
            || self.clauses.learnt.len() >= 0x3fff_ffff
        {
            return Err(AllocError);
        }
        self.clauses.assumed = Items::from_slice(alloc, assume)?;
        let least = room_for(assume, self.trail.levels.len());
        let room = room_from(&self.clauses.given, entered, least);
        self.widen(alloc, room)?;
        Ok(entered as u32)
    }

    /// Leaves the clauses given from an index on to the next question, which begins with them.
    pub fn leave_from(&mut self, index: u32)
        requires ready { IsReady self.old }
        requires root { self.old.trail.level ≡ 0 }
        requires within { index < length self.old.clauses.given }
        requires guards { Guards index self.old.followed self.old }
        ensures resting { IsResting (length self.new.clauses.given) self.new }
        ensures clauses { self.new.clauses ≡ self.old.clauses }
    {
        self.watches.keep_given(index as usize);
    }
}
