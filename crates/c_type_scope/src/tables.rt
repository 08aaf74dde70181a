//! The tables of types, which stay when a block is left. A new entry is the last, and its number is how many there were.

ghost use Rattle.std.specs.Prelude.{◌≡◌, IfOk, OnOk};
ghost use Rattle.c_language.specs.Scopes as spec;

use crate::scope::Scope;
use c_language::{Aggregate, AggregateForm, CType, Content, Enumeration, Prototype, Signature};
use plain_data::Items;
use std::alloc::AllocError;

/// The number of the next entry of a table: past 2^32 - 1 entries there is no memory for more.
fn number_of(entries: usize) -> Result<u32, AllocError>
    ensures { IfOk result (λ number. number ≡ entries) }
{
    if entries <= 0xffff_ffff {
        Ok(entries as u32)
    } else {
        Err(AllocError)
    }
}

impl Scope {
    /// Adds a structure or union without members so far, and answers its number. It fails for want of memory alone.
    pub fn add_aggregate(&mut self, form: AggregateForm) -> Result<u32, AllocError>
        ensures number { IfOk result (λ number. number ≡ spec.next_aggregate self.old) }
        ensures scope { OnOk result (self.new ≡ spec.with_aggregate form self.old) }
    {
        let number = number_of(self.tables.aggregates.len())?;
        let content = Content::Incomplete;
        self.tables.aggregates.push(Aggregate { form, content })?;
        Ok(number)
    }

    /// Says what is known of the members of a structure or union (C99 6.7.2.3p4). It takes no memory.
    pub fn set_content(&mut self, number: u32, form: AggregateForm, content: Content)
        ensures { self.new ≡ spec.with_content number form content self.old }
    {
        let index = number as usize;
        if index < self.tables.aggregates.len() {
            let aggregate = Aggregate { form, content };
            self.tables.aggregates.set(index, aggregate);
        }
    }

    /// Adds an enumerated type whose list of enumerators hasn't ended, and answers its number. It fails for want of memory
    /// alone.
    pub fn add_enumeration(&mut self) -> Result<u32, AllocError>
        ensures number { IfOk result (λ number. number ≡ spec.next_enumeration self.old) }
        ensures scope { OnOk result (self.new ≡ spec.with_enumeration self.old) }
    {
        let number = number_of(self.tables.enumerations.len())?;
        let is_complete = false;
        self.tables.enumerations.push(Enumeration { is_complete })?;
        Ok(number)
    }

    /// Ends the list of enumerators of an enumerated type (C99 6.7.2.2p4). It takes no memory.
    pub fn set_enumerators(&mut self, number: u32)
        ensures { self.new ≡ spec.with_enumerators number self.old }
    {
        let index = number as usize;
        if index < self.tables.enumerations.len() {
            let is_complete = true;
            self.tables
                .enumerations
                .set(index, Enumeration { is_complete });
        }
    }

    /// Adds the signature of a function declarator, and answers its number. It fails for want of memory alone.
    pub fn add_signature(
        &mut self,
        prototype: Prototype,
        parameters: Items<CType>,
    ) -> Result<u32, AllocError>
        ensures number { IfOk result (λ number. number ≡ spec.next_signature self.old) }
        ensures scope { OnOk result (self.new ≡ spec.with_signature prototype parameters self.old) }
    {
        let number = number_of(self.tables.signatures.len())?;
        let signature = Signature {
            prototype,
            parameters,
        };
        self.tables.signatures.push(signature)?;
        Ok(number)
    }
}
