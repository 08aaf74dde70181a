//! Enumerations, constant by constant (C99 6.7.2.2).

ghost use Rattle.std.specs.Prelude.{◌≡◌, ◌++◌, pos, OnOk};
ghost use Rattle.c_language.specs.Typing.{typed_in};
ghost use Rattle.c_language.specs.Declares as spec;
ghost use Rattle.c_declares.specs.Views.{counting_in};

use crate::constants::{add_constant, value_of};
use crate::names::{add_duplicate, declare};
use c_language::{Fault, IntegerKind, Means, Name, Rule, Told};
use c_type_scope::Scope;
use plain_data::Items;
use std::alloc::{AllocError, Global};

/// The value of the next constant that is given none, where it is known, and the faults so far.
#[derive(Drop)]
pub struct Counting {
    pub next: Option<i128>,
    pub faults: Items<Fault>,
}

impl Counting {
    /// No constant so far, behind some faults. It takes no memory.
    pub fn new(faults: Items<Fault>) -> Counting
        ensures { result ≡ record { next = Some (pos 0); faults = faults } }
    {
        Counting {
            next: Some(0),
            faults,
        }
    }

    /// A constant that is given no value. It fails for want of memory alone.
    pub fn add_next(
        &mut self,
        alloc: Global,
        at: u32,
        name: &Name,
        scope: &mut Scope,
    ) -> Result<(), AllocError>
        ensures { OnOk result (counting_in self.new scope.new ≡ spec.enumerates at name.now self.old.next self.old.faults scope.old) }
    {
        let value = int_value(self.next);
        add_int_fault(at, self.next, &mut self.faults)?;
        add_duplicate(at, scope.own_entry(name.get().as_slice()), &mut self.faults)?;
        declare(alloc, at, name, constant_means(value), scope)?;
        self.next = following(value);
        Ok(())
    }

    /// A constant that is given a value. It fails for want of memory alone.
    pub fn add_given(
        &mut self,
        alloc: Global,
        at: u32,
        name: &Name,
        value: Told,
        scope: &mut Scope,
    ) -> Result<(), AllocError>
        ensures { OnOk result (counting_in self.new scope.new ≡ spec.enumerates_typed at name.now (typed_in value scope.old) self.old.faults) }
    {
        self.next = value_of(&value.shown);
        add_constant(value, &mut self.faults)?;
        self.add_next(alloc, at, name, scope)
    }
}

/// A constant's value, where `int` has it (C99 6.7.2.2p2).
fn int_value(value: Option<i128>) -> Option<i32>
    ensures { result ≡ spec.int_value value }
{
    match value {
        Some(z) => {
            if IntegerKind::Int.has(z) {
                Some(z as i32)
            } else {
                None
            }
        }
        None => None,
    }
}

fn add_int_fault(at: u32, value: Option<i128>, faults: &mut Items<Fault>) -> Result<(), AllocError>
    ensures { OnOk result (faults.new ≡ faults.old ++ spec.int_faults at value) }
{
    match value {
        Some(z) => {
            if IntegerKind::Int.has(z) {
                Ok(())
            } else {
                faults.push(Fault {
                    at,
                    rule: Rule::TypeMismatch,
                })
            }
        }
        None => Ok(()),
    }
}

fn constant_means(value: Option<i32>) -> Means
    ensures { result ≡ spec.constant_means value }
{
    match value {
        Some(value) => Means::Constant { value },
        None => Means::Faulty,
    }
}

fn following(value: Option<i32>) -> Option<i128>
    ensures { result ≡ spec.following value }
{
    match value {
        Some(value) => Some(i128::from(value) + 1),
        None => None,
    }
}
