//! Calls and returns (C99 6.5.2.2, 6.8.6.4): a function begins with nothing printed, noted or met, and its caller goes
//! on with what it did behind its own.
ghost use Rattle.std.specs.Prelude.{◌≡◌, ◌++◌, ℕ, IfOk};
ghost use Rattle.c_store.specs.Store.{Store};
ghost use Rattle.c_means.specs.Expressions.{needed};
ghost use Rattle.c_means.specs.Parts.{entered, returned};
ghost use Rattle.c_machine.specs.Callers.{state_in};
ghost use Rattle.c_machine.specs.States.{state, Runs};

use crate::halt::Halt;
use crate::machine::Machine;
use c_language::Class;
use c_means::Kind;
use plain_data::{Bytes, Events, Items, Undefined};
use std::alloc::AllocError;
use std::mem::replace;

/// What a caller has printed, noted and met, and where it stands, while the function that it called runs.
#[derive(Drop)]
pub struct Caller {
    pub kind: Kind,
    pub value: Option<i128>,
    pub printed: Bytes,
    pub events: Events,
    pub met: Items<u64>,
}

impl Machine {
    /// Begins a function.
    pub fn enter(&mut self) -> Caller
        ensures world { self.new.world ≡ self.old.world }
        ensures enters { state self.new ≡ entered (state self.old).store (state self.old).count }
        ensures caller { state_in result (state self.old).store (state self.old).count ≡ state self.old }
    {
        Caller {
            kind: replace(&mut self.kind, Kind::Running),
            value: replace(&mut self.value, None),
            printed: replace(&mut self.printed, Bytes::new(self.alloc)),
            events: replace(&mut self.events, Events::new(self.alloc)),
            met: replace(&mut self.met, Items::new(self.alloc)),
        }
    }

    /// Goes on with the caller, behind a function that came back or ended the run: the value that it gave, where it
    /// gave one. It fails for want of memory alone.
    pub fn resume(&mut self, caller: Caller) -> Result<Option<i128>, Halt>
        ensures world { self.new.world ≡ self.old.world }
        ensures runs { (s : Store) (n : ℕ) → Runs result (state self.new) (returned (state_in caller s n) (state self.old)) }
    {
        let Caller {
            kind,
            value,
            printed,
            events,
            met,
        } = caller;
        self.printed = joined(printed, replace(&mut self.printed, Bytes::new(self.alloc)))?;
        self.events = joined(events, replace(&mut self.events, Events::new(self.alloc)))?;
        self.met = joined(met, replace(&mut self.met, Items::new(self.alloc)))?;
        let value = replace(&mut self.value, value);
        match replace(&mut self.kind, kind) {
            Kind::Ended(finish) => Err(self.end(finish)),
            _ => Ok(value),
        }
    }

    /// The value of a call, which must have given one where it is used (C99 6.9.1p12).
    pub fn needed(&mut self, at: u32, class: Class, value: Option<i128>) -> Result<i128, Halt>
        ensures world { self.new.world ≡ self.old.world }
        ensures runs { Runs result (state self.new) (needed at class value (state self.old)) }
    {
        match value {
            Some(value) => Ok(value),
            None => match class {
                Class::Void => Ok(0),
                _ => Err(self.stop(at, Undefined::MissingValue)),
            },
        }
    }
}

fn joined<T: Drop>(first: Items<T>, second: Items<T>) -> Result<Items<T>, AllocError>
    ensures { IfOk result (λ items. items ≡ first ++ second) }
{
    let mut items = first;
    items.append(second)?;
    Ok(items)
}
