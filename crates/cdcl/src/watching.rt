ghost use Rattle.std.specs.Prelude.{◌≡◌, ◌<◌, ◌≤◌, ◌+◌, ◌*◌, ◌^◌, ◌++◌, ◌∷◌, [], ℕ, List, Some, None, cond, length, slice_get, vec_len, IfOk, OnOk};
ghost use Rattle.cnf_core.specs.Literal.{Literal, same, code_of};
ghost use Rattle.cdcl.specs.declared.clauses.ClauseId.TheVariants.{Learnt};
ghost use Rattle.cdcl.specs.Watches.{waiting, pair_of, beside, HasPlace, SameSizes, IsMore, OtherPairs, IsWaiting, WaitsLast, WaitsInstead};
ghost use Rattle.cdcl.specs.Known.{Member};

use crate::clauses::ClauseId;
use cnf_core::Lit;
use std::alloc::{AllocError, Global};
use std::mem;

/// A clause that waits at a literal: it is read again once the literal is false, unless its blocking literal is true.
#[derive(Clone, Copy)]
pub struct Watch {
    pub id: ClauseId,
    pub blocking: Lit,
}

/// What becomes of a watch at a literal that is false.
#[derive(Clone, Copy)]
pub enum Visit {
    Stays(Watch),
    /// The clause waits at another literal now.
    Moves,
    /// The clause is false.
    Conflict(ClauseId),
}

/// The two literals at which a clause waits.
#[derive(Clone, Copy)]
pub struct Pair {
    pub first: Lit,
    pub second: Lit,
}

impl Pair {
    /// The literal beside this one.
    fn beside(self, literal: Lit) -> Lit
        ensures { result ≡ beside self literal }
    {
        if self.first == literal {
            self.second
        } else {
            self.first
        }
    }
}

/// The clauses that wait at each literal, in lists at the literals' codes (Moskewicz et al., "Chaff", DAC 2001), each
/// with a blocking literal (Chu, Harwood and Stuckey, "Cache conscious data structures for Boolean satisfiability
/// solvers", 2009).
#[derive(Drop)]
pub struct Watches {
    pub lists: Vec<Vec<Watch>>,
    pub given: Vec<Pair>,
    pub learnt: Vec<Pair>,
}

impl Watches {
    /// No clauses, over no variables. It takes no memory.
    pub fn new(alloc: Global) -> Watches
        ensures lists { result.lists.items ≡ [] }
        ensures given { vec_len result.given ≡ 0 }
        ensures learnt { vec_len result.learnt ≡ 0 }
    {
        Watches {
            lists: Vec::new(alloc),
            given: Vec::new(alloc),
            learnt: Vec::new(alloc),
        }
    }

    /// Makes room for variables below `room`, and a place for each of so many clauses given.
    pub fn grow(&mut self, alloc: Global, room: usize, given: usize) -> Result<(), AllocError>
        requires small { room ≤ 2 ^ 31 }
        requires lists { vec_len self.old.lists ≤ 2 * room }
        requires given { vec_len self.old.given ≤ given }
        ensures lists { OnOk result (vec_len self.new.lists ≡ 2 * room) }
        ensures given { OnOk result (vec_len self.new.given ≡ given) }
        ensures waits { OnOk result ((k : ℕ) → waiting self.new k ≡ waiting self.old k) }
        ensures pairs { OnOk result ((i : ℕ) (p : Pair) → slice_get self.old.given.items i ≡ Some p → slice_get self.new.given.items i ≡ Some p) }
        ensures learnt { self.new.learnt ≡ self.old.learnt }
    {
        for _list in self.lists.len()..2 * room {
            self.lists.push(Vec::new(alloc))?;
        }
        let nowhere = Lit::new(1, true);
        let pair = Pair {
            first: nowhere,
            second: nowhere,
        };
        self.given.resize(given, pair)?;
        Ok(())
    }

    /// Keeps the places of so many of the clauses given.
    pub fn keep_given(&mut self, count: usize)
        requires { count ≤ vec_len self.old.given }
        ensures count { vec_len self.new.given ≡ count }
        ensures given { (i : ℕ) → i < count → slice_get self.new.given.items i ≡ slice_get self.old.given.items i }
        ensures lists { self.new.lists ≡ self.old.lists }
        ensures learnt { self.new.learnt ≡ self.old.learnt }
    {
        self.given.truncate(count);
    }

    /// A clause waits at a literal.
    fn push(&mut self, literal: Lit, watch: Watch) -> Result<(), AllocError>
        requires { code_of literal < vec_len self.old.lists }
        ensures more { OnOk result (IsMore (code_of literal) watch self.old self.new) }
        ensures given { self.new.given ≡ self.old.given }
        ensures learnt { self.new.learnt ≡ self.old.learnt }
    {
        self.lists[literal.code() as usize].push(watch)?;
        Ok(())
    }

    fn pair(&self, id: ClauseId) -> Option<Pair>
        ensures { result ≡ pair_of self.now id }
    {
        match id {
            ClauseId::Given(index) => self.given.get(index as usize).copied(),
            ClauseId::Assumed(_) => None,
            ClauseId::Learnt(index) => self.learnt.get(index as usize).copied(),
        }
    }

    fn set_pair(&mut self, id: ClauseId, pair: Pair)
        requires { HasPlace self.old id }
        ensures here { pair_of self.new id ≡ Some pair }
        ensures others { OtherPairs id self.old self.new }
        ensures lists { self.new.lists ≡ self.old.lists }
        ensures sizes { SameSizes self.old self.new }
    {
        match id {
            ClauseId::Given(index) => self.given[index as usize] = pair,
            ClauseId::Assumed(_) => {}
            ClauseId::Learnt(index) => self.learnt[index as usize] = pair,
        }
    }

    /// A clause waits at two of its literals.
    pub fn wait(&mut self, id: ClauseId, first: Lit, second: Lit) -> Result<(), AllocError>
        requires place { HasPlace self.old id }
        requires first { code_of first < vec_len self.old.lists }
        requires second { code_of second < vec_len self.old.lists }
        ensures { OnOk result (IsWaiting id first second self.old self.new) }
    {
        self.set_pair(id, Pair { first, second });
        self.push(
            first,
            Watch {
                id,
                blocking: second,
            },
        )?;
        self.push(
            second,
            Watch {
                id,
                blocking: first,
            },
        )?;
        Ok(())
    }

    /// Makes a place for the next clause learnt.
    fn add(&mut self) -> Result<(), AllocError>
        ensures place { OnOk result (vec_len self.new.learnt ≡ vec_len self.old.learnt + 1) }
        ensures pairs { OnOk result (OtherPairs (Learnt (vec_len self.old.learnt)) self.old self.new) }
        ensures lists { self.new.lists ≡ self.old.lists }
        ensures given { self.new.given ≡ self.old.given }
    {
        let nowhere = Lit::new(1, true);
        self.learnt.push(Pair {
            first: nowhere,
            second: nowhere,
        })?;
        Ok(())
    }

    /// The next clause learnt waits at its first two literals, or nowhere where it has fewer.
    pub fn wait_last(&mut self, clause: &[Lit]) -> Result<(), AllocError>
        requires few { vec_len self.old.learnt < 2 ^ 32 }
        requires codes { (l : Literal) → Member l clause.now → code_of l < vec_len self.old.lists }
        ensures { OnOk result (WaitsLast clause.now self.old self.new) }
    {
        let id = ClauseId::Learnt(self.learnt.len() as u32);
        self.add()?;
        if clause.len() < 2 {
            return Ok(());
        }
        self.wait(id, clause[0], clause[1])?;
        Ok(())
    }

    /// Lets a clause wait at one of these two literals in place of one that is false, or answers a new watch for that one
    /// where it waits at both.
    pub fn wait_instead(
        &mut self,
        id: ClauseId,
        falsified: Lit,
        one: Lit,
        another: Lit,
    ) -> Result<Option<Watch>, AllocError>
        requires one { code_of one < vec_len self.old.lists }
        requires another { code_of another < vec_len self.old.lists }
        ensures { IfOk result (λ o. WaitsInstead id falsified one another self.old self.new o) }
    {
        let Some(pair) = self.pair(id) else {
            return Ok(None);
        };
        let beside = pair.beside(falsified);
        let (instead, blocking) = if one == beside {
            (another, one)
        } else {
            (one, another)
        };
        if instead == beside {
            return Ok(Some(Watch {
                id,
                blocking: beside,
            }));
        }
        self.set_pair(
            id,
            Pair {
                first: beside,
                second: instead,
            },
        );
        self.push(instead, Watch { id, blocking })?;
        Ok(None)
    }

    /// Takes out the list of those that wait at a literal.
    pub fn take_list(&mut self, alloc: Global, literal: Lit) -> Vec<Watch>
        requires { code_of literal < vec_len self.old.lists }
        ensures list { result.items ≡ waiting self.old (code_of literal) }
        ensures here { waiting self.new (code_of literal) ≡ [] }
        ensures others { (k : ℕ) → (k ≡ code_of literal → ⊥) → waiting self.new k ≡ waiting self.old k }
        ensures sizes { SameSizes self.old self.new }
        ensures given { self.new.given ≡ self.old.given }
        ensures learnt { self.new.learnt ≡ self.old.learnt }
    {
        mem::replace(&mut self.lists[literal.code() as usize], Vec::new(alloc))
    }

    /// Puts the list of those that wait at a literal back.
    pub fn put_list(&mut self, literal: Lit, list: Vec<Watch>)
        requires { code_of literal < vec_len self.old.lists }
        ensures here { waiting self.new (code_of literal) ≡ list.items }
        ensures others { (k : ℕ) → (k ≡ code_of literal → ⊥) → waiting self.new k ≡ waiting self.old k }
        ensures sizes { SameSizes self.old self.new }
        ensures given { self.new.given ≡ self.old.given }
        ensures learnt { self.new.learnt ≡ self.old.learnt }
    {
        self.lists[literal.code() as usize] = list;
    }
}
