ghost use Rattle.std.specs.Prelude.{◌≡◌, ◌<◌, ◌≤◌, ◌^◌, ◌+◌, length, vec_len, Contains, IfOk};
ghost use Rattle.std.specs.List.{All};
ghost use Rattle.std.specs.List.Sorted.{IsStrictlyIncreasing};
ghost use Rattle.proof_check.specs.Places.{place_of};

use crate::propagation::Reading;
use cnf_core::Lit;
use std::alloc::{AllocError, Global};

/// The rounds in which a variable and its negation were last taken as true.
#[derive(Clone, Copy, PartialEq, Eq)]
pub struct Stamps {
    pub positive: u64,
    pub negative: u64,
}

impl Stamps {
    /// No round: rounds count from 1.
    pub const NEVER: Stamps = Stamps {
        positive: 0,
        negative: 0,
    };
}

/// A set of literals over a room of variables, emptied in constant time: those whose stamp is this round.
#[derive(Drop)]
pub struct Marks {
    pub variables: Vec<u32>,
    pub stamps: Vec<Stamps>,
    pub round: u64,
    ghost rising: { IsStrictlyIncreasing variables.items },
    ghost paired: { vec_len stamps ≡ vec_len variables },
    ghost past: { All (λ s. (s.positive ≤ round) × (s.negative ≤ round)) stamps.items },
}

/// Where the variable stands.
fn place(variables: &[u32], variable: u32) -> usize
    requires rising { IsStrictlyIncreasing variables.now }
    requires found { Contains variables.now variable }
    ensures place { result ≡ place_of variables.now variable }
    ensures within { result < length variables.now }
{
    match variables.binary_search(&variable) {
        Ok(place) => place,
        Err(_) => unreachable!(),
    }
}

impl Marks {
    ghost use Rattle.proof_check.specs.Marked.{marked};
    ghost use Rattle.proof_check.specs.Propagation.{nothing, taking, reading};
    ghost use Rattle.proof_check.specs.Room.{Within};

    /// No literals, over these variables.
    pub fn with_room(alloc: Global, variables: Vec<u32>) -> Result<Marks, AllocError>
        requires { IsStrictlyIncreasing variables.items }
        ensures { IfOk result (λ m. m.variables.items ≡ variables.items) }
    {
        let stamps = vec![in alloc; Stamps::NEVER; variables.len()]?;
        Ok(Marks {
            variables,
            stamps,
            round: 0,
        })
    }

    pub fn holds(&self, literal: Lit) -> bool
        requires { Contains self.now.variables.items literal.variable }
        ensures { result ≡ marked self.now literal }
    {
        let stamps = self.stamps[place(&self.variables, literal.variable())];
        if literal.is_positive() {
            stamps.positive == self.round
        } else {
            stamps.negative == self.round
        }
    }

    pub fn take(&mut self, literal: Lit)
        requires { Contains self.old.variables.items literal.variable }
        ensures marks { marked self.new ≡ taking literal (marked self.old) }
        ensures room { self.new.variables.items ≡ self.old.variables.items }
    {
        let round = self.round;
        let place = place(&self.variables, literal.variable());
        let stamps = &mut self.stamps[place];
        if literal.is_positive() {
            stamps.positive = round;
        } else {
            stamps.negative = round;
        }
    }

    /// Empties the set.
    pub fn clear(&mut self)
        ensures marks { marked self.new ≡ nothing }
        ensures room { self.new.variables.items ≡ self.old.variables.items }
    {
        if self.round == u64::MAX {
            self.wipe();
        }
        self.round += 1;
    }

    fn wipe(&mut self)
        ensures round { self.new.round ≡ 0 }
        ensures room { self.new.variables.items ≡ self.old.variables.items }
    {
        for index in 0..self.stamps.len() {
            self.stamps[index] = Stamps::NEVER;
        }
        self.round = 0;
    }

    /// What the clause says where these literals are taken as true.
    pub fn read(&self, clause: &[Lit]) -> Reading
        requires { Within self.now.variables.items clause.now }
        ensures { result ≡ reading (marked self.now) clause.now }
    {
        let mut candidate = None;
        for literal in clause {
            if !self.holds(literal.negated()) {
                match candidate {
                    None => candidate = Some(*literal),
                    Some(first) => {
                        if first != *literal {
                            return Reading::Neither;
                        }
                    }
                }
            }
        }
        match candidate {
            None => Reading::Falsified,
            Some(first) => {
                if self.holds(first) {
                    Reading::Neither
                } else {
                    Reading::Implied(first)
                }
            }
        }
    }
}
