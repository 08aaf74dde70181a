//! The state in which a program runs.
ghost use Rattle.std.specs.Prelude.{◌≡◌, OnOk};
ghost use Rattle.plain_data.specs.declared.run.Finish.TheVariants.{Stopped};
ghost use Rattle.c_means.specs.declared.kind.Kind.TheVariants.{Ended};
ghost use Rattle.c_means.specs.Parts as parts;
ghost use Rattle.c_memory.specs.Memories.{initial_bytes};
ghost use Rattle.c_store.specs.Store as store;
ghost use Rattle.c_machine.specs.declared.halt.Halt.TheVariants.{Over};
ghost use Rattle.c_machine.specs.States.{state, Branches};
ghost use Rattle.c_machine.specs.Worth.{worth};

use crate::halt::Halt;
use crate::value::Value;
use c_means::Kind;
use c_memory::Memory;
use plain_data::{Bytes, Event, Events, Finish, Happening, Items, Side, Undefined, World};
use std::alloc::{AllocError, Global};

/// Where a run stands, its memory, and what the function that runs has printed, noted and met since it was called.
#[derive(Drop)]
pub struct Machine {
    pub(crate) alloc: Global,
    pub world: World,
    pub(crate) memory: Memory,
    pub(crate) kind: Kind,
    pub(crate) value: Option<i128>,
    pub(crate) count: u64,
    pub(crate) printed: Bytes,
    pub(crate) events: Events,
    pub(crate) met: Items<u64>,
}

impl Machine {
    /// A machine before the program runs: no object is there, and nothing is printed.
    pub fn new(alloc: Global, world: World) -> Machine
        ensures world { result.world ≡ world }
        ensures state { state result ≡ parts.entered (store.initial (initial_bytes world)) 0 }
    {
        Machine {
            alloc,
            world,
            memory: Memory::new(alloc),
            kind: Kind::Running,
            value: None,
            count: 0,
            printed: Bytes::new(alloc),
            events: Events::new(alloc),
            met: Items::new(alloc),
        }
    }

    /// Notes an event. It fails for want of memory alone.
    pub fn note(&mut self, what: Happening) -> Result<(), AllocError>
        ensures world { self.new.world ≡ self.old.world }
        ensures notes { OnOk result (state self.new ≡ parts.note what (state self.old)) }
    {
        let printed = self.count;
        self.events.push(Event { what, printed })
    }

    /// Prints bytes. It fails for want of memory alone: more bytes than 2^64 have no room.
    pub fn print(&mut self, bytes: Bytes) -> Result<(), AllocError>
        ensures world { self.new.world ≡ self.old.world }
        ensures prints { OnOk result (state self.new ≡ parts.print bytes (state self.old)) }
    {
        let length = bytes.len() as u64;
        match self.count.checked_add(length) {
            Some(count) => {
                self.printed.append(bytes)?;
                self.count = count;
                Ok(())
            }
            None => Err(AllocError),
        }
    }

    /// Notes that a place of the world is met. It fails for want of memory alone.
    pub fn meet(&mut self, place: u64) -> Result<(), AllocError>
        ensures world { self.new.world ≡ self.old.world }
        ensures meets { OnOk result (state self.new ≡ parts.meet place (state self.old)) }
    {
        self.met.push(place)
    }

    /// Ends the run.
    pub fn end(&mut self, finish: Finish) -> Halt
        ensures world { self.new.world ≡ self.old.world }
        ensures over { result ≡ Over }
        ensures ends { state self.new ≡ record (state self.old) { kind = Ended finish } }
    {
        self.kind = Kind::Ended(finish);
        Halt::Over
    }

    /// Ends the run at the token of a step whose behaviour is undefined.
    pub fn stop(&mut self, at: u32, kind: Undefined) -> Halt
        ensures world { self.new.world ≡ self.old.world }
        ensures over { result ≡ Over }
        ensures ends { state self.new ≡ record (state self.old) { kind = Ended (Stopped kind at) } }
    {
        self.end(Finish::Stopped { kind, at })
    }

    /// Notes the side of a branch that a value takes: whether it isn't 0. It fails for want of memory alone.
    pub fn branch(&mut self, at: u32, value: &Value) -> Result<bool, AllocError>
        ensures world { self.new.world ≡ self.old.world }
        ensures branches { Branches result (state self.new) at (worth value.now) (state self.old) }
    {
        if value.scalar() == 0 {
            self.note(Happening::Branch { at, side: Side::No })?;
            return Ok(false);
        }
        self.note(Happening::Branch {
            at,
            side: Side::Yes,
        })?;
        Ok(true)
    }
}
