//! The literals of questions on values: each is made once, and stays as it is.
ghost use Rattle.std.specs.Prelude.{◌≡◌, ◌++◌, ◌∷◌, ◌+◌, [], length, None, Some, IfOk, OnErr};
ghost use Rattle.query_core.specs.Claims.{IsFoundAt, IsWatched, IsWhole, Keeps, OfSome, other_at, with_others};

use crate::fault::AskFault;
use crate::others::{Made, index_of, made_other};
use crate::query::Query;
use std::alloc::Global;
use std::mem;

impl Query {
    /// Puts a literal that was made behind the others, and answers its index. The bank is the query's again.
    fn put(&mut self, made: Made) -> Result<usize, AskFault>
        ensures others { IfOk result (λ index. OfSome made.other (λ other.
            (index ≡ length self.old.others) × (self.new ≡ with_others self.old (Some made.bank) (self.old.others ++ other ∷ [])))) }
        ensures failed { OnErr result (self.new ≡ with_others self.old (Some made.bank) self.old.others) }
    {
        let Made { other, bank } = made;
        self.bank = Some(bank);
        match other {
            None => Err(AskFault::Unwalked),
            Some(other) => {
                let index = self.others.len();
                self.others.push(other)?;
                Ok(index)
            }
        }
    }

    /// Makes the literal of a watched variable and a value, which hasn't been made, and answers its index. Where it
    /// fails for want of memory the bank is lost, and so each other literal fails that isn't made yet.
    fn make(&mut self, alloc: Global, watch: u32, value: &i128) -> Result<usize, AskFault>
        requires whole { IsWhole self.old }
        requires watch { IsWatched self.old watch }
        requires new { other_at self.old.others watch value.now ≡ None }
        ensures found { IfOk result (IsFoundAt self.new.others watch value.now) }
        ensures keeps { Keeps self.old self.new }
    {
        match mem::replace(&mut self.bank, None) {
            None => Err(AskFault::Memory),
            Some(bank) => {
                let made = made_other(alloc, &self.formula, &self.blasted, bank, watch, value)?;
                let index = self.put(made)?;
                Ok(index)
            }
        }
    }

    /// The index of the literal of a watched variable and a value, which is made where it hasn't been.
    pub(crate) fn define(
        &mut self,
        alloc: Global,
        watch: u32,
        value: &i128,
    ) -> Result<usize, AskFault>
        requires whole { IsWhole self.old }
        requires watch { IsWatched self.old watch }
        ensures found { IfOk result (IsFoundAt self.new.others watch value.now) }
        ensures keeps { Keeps self.old self.new }
    {
        match index_of(self.others.as_slice(), watch, value) {
            Some(index) => Ok(index),
            None => {
                let index = self.make(alloc, watch, value)?;
                Ok(index)
            }
        }
    }
}
