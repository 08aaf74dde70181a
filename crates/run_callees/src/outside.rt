//! Functions outside (C99 5.1.2.3): the world gives their answers, and they write nothing but what a buffer is filled
//! with.
ghost use Rattle.std.specs.Prelude.{◌≡◌, ◌<◌, ◌+◌, ◌^◌, map, true, false, OnOk, IfOk};
ghost use Rattle.c_memory.specs.Memories.{Holds, initial_bytes};
ghost use Rattle.c_machine.specs.Worth.{worth};
ghost use Rattle.c_means.specs.Units.{world_of};
ghost use Rattle.c_store.specs.Store as store;
ghost use Rattle.core_running.specs.Running.{done};
ghost use Rattle.core_tree.specs.Callees as callees;
ghost use Rattle.core_tree.specs.States.{with_store};
ghost use Rattle.run_callees.specs.Levels.{level_in};

use crate::answers::{answer, meet, stop};
use crate::numbers::address_at;
use c_machine::{Machine, Value};
use c_store::{Object, ObjectKind};
use core_tree::{Fill, OutsideAnswer, Pointee, ValueType};
use plain_data::{Bytes, Undefined, World};
use std::alloc::{AllocError, Global};

/// Makes an object of so many bytes. It fails for want of memory alone.
fn make(place: u64, size: u64, m: &mut Machine) -> Result<(), AllocError>
    ensures world { m.new.world ≡ m.old.world }
    ensures low { OnOk result (place < 2 ^ 32) }
    ensures made { OnOk result (done m.new ≡ with_store (store.make place record { kind = ObjectKind.Outside; size = size } (done m.old).store) (done m.old)) }
{
    if size > u64::from(u32::MAX) || place > u64::from(u32::MAX) {
        return Err(AllocError);
    }
    let kind = ObjectKind::Outside;
    let size = size as u32;
    m.make(place, Object { kind, size })?;
    Ok(())
}

/// A call of a function outside: the bounds on the bytes of a heap object and of a string from outside, the token of
/// the callee's name, the type of the call, and what is answered.
#[derive(Clone, Copy)]
pub(crate) struct Outside {
    pub(crate) alloc: Global,
    pub(crate) heap: u32,
    pub(crate) text: u32,
    pub(crate) at: u32,
    pub(crate) to: ValueType,
    pub(crate) answer: OutsideAnswer,
}

impl Outside {
    /// The object at a place, to which a pointer from outside leads. It fails for want of memory alone.
    fn object(self, pointee: Pointee, place: u64, m: &mut Machine) -> Result<(), AllocError>
        ensures world { m.new.world ≡ m.old.world }
        ensures made { OnOk result (done m.new ≡ with_store (callees.outside_object (level_in m.old.world self.heap self.text)
            pointee place (done m.old).store) (done m.old)) }
    {
        match pointee {
            Pointee::Text => {
                make(place, u64::from(self.text) + 1, m)?;
                m.zero(place * (1 << 32) + u64::from(self.text), 1)?;
                Ok(())
            }
            Pointee::Bytes { size } => {
                make(place, size, m)?;
                Ok(())
            }
        }
    }

    fn pointer(
        self,
        never_null: bool,
        pointee: Pointee,
        place: u64,
        m: &mut Machine,
    ) -> Result<(), AllocError>
        ensures world { m.new.world ≡ m.old.world }
        ensures runs { OnOk result (done m.new ≡ callees.outside_pointer (level_in m.old.world self.heap self.text) self.to
            never_null pointee place (done m.old)) }
    {
        if m.world.word(place) == 0 && !never_null {
            answer(self.to, 0, m);
            return Ok(());
        }
        self.object(pointee, place, m)?;
        answer(self.to, i128::from(place) * (1 << 32), m);
        Ok(())
    }

    /// What the call answers: nothing, a number, or a pointer. It fails for want of memory alone.
    fn answers(self, place: u64, m: &mut Machine) -> Result<(), AllocError>
        ensures world { m.new.world ≡ m.old.world }
        ensures runs { OnOk result (done m.new ≡ callees.outside_answer (level_in m.old.world self.heap self.text) self.to
            self.answer place (done m.old)) }
    {
        match self.answer {
            OutsideAnswer::Nothing => {
                answer(self.to, 0, m);
                Ok(())
            }
            OutsideAnswer::Number => {
                let word = m.world.word(place);
                meet(place, m)?;
                answer(self.to, i128::from(word), m);
                Ok(())
            }
            OutsideAnswer::Pointer {
                never_null,
                pointee,
            } => {
                meet(place, m)?;
                self.pointer(never_null, pointee, place, m)?;
                Ok(())
            }
        }
    }

    /// The first bytes that the world has of the object at a place.
    fn given(self, world: &World, place: u32, count: u32) -> Result<Bytes, AllocError>
        ensures { IfOk result (λ bytes. Holds (initial_bytes world.now) (store.start place) count bytes) }
    {
        let start = u64::from(place) * (1 << 32);
        let mut bytes = Bytes::new(self.alloc);
        'bytes: for i in 0..count {
            bytes.push(world.byte(start + u64::from(i)))?;
        }
        Ok(bytes)
    }

    /// Lays the first bytes of the object at the third place. It fails for want of memory alone.
    fn lay(self, place: u64, address: u64, count: u32, m: &mut Machine) -> Result<(), AllocError>
        ensures world { m.new.world ≡ m.old.world }
        ensures fills { OnOk result (done m.new ≡ with_store (callees.fills_at (world_of m.old.world) place address count (done m.old).store) (done m.old)) }
    {
        if place >= u64::from(u32::MAX) - 2 {
            return Err(AllocError);
        }
        let bytes = self.given(&m.world, place as u32 + 2, count)?;
        m.lay_bytes(address, bytes.as_slice())?;
        Ok(())
    }

    /// How many bytes are filled: the least of the word at the second place, the length and the bound.
    fn count(self, place: u64, length: u64, m: &Machine) -> u32
        requires { place < 2 ^ 63 }
        ensures { result ≡ callees.fill_count (level_in m.now.world self.heap self.text) place length }
    {
        let word = m.world.word(place + 1);
        let most = u64::from(self.heap);
        let bound = if length < most { length } else { most };
        let least = if word < bound { word } else { bound };
        least as u32
    }

    /// A buffer is filled, and the call answers as any function outside.
    fn fill_free(
        self,
        place: u64,
        address: u64,
        count: u32,
        m: &mut Machine,
    ) -> Result<(), AllocError>
        requires { place < 2 ^ 63 }
        ensures world { m.new.world ≡ m.old.world }
        ensures runs { OnOk result (done m.new ≡ callees.filled_by false (level_in m.old.world self.heap self.text) self.at self.to
            self.answer place address count (done m.old)) }
    {
        meet(place + 1, m)?;
        meet(place + 2, m)?;
        if !m.can_access(address, u64::from(count)) {
            stop(self.at, Undefined::Dereference, m);
            return Ok(());
        }
        if !m.can_write(address, u64::from(count)) {
            stop(self.at, Undefined::LiteralWrite, m);
            return Ok(());
        }
        self.lay(place, address, count, m)?;
        self.answers(place, m)?;
        Ok(())
    }

    /// A buffer is filled, and the call answers how many bytes, or -1 with nothing written.
    fn fill_counted(
        self,
        place: u64,
        address: u64,
        count: u32,
        m: &mut Machine,
    ) -> Result<(), AllocError>
        requires { place < 2 ^ 63 }
        ensures world { m.new.world ≡ m.old.world }
        ensures runs { OnOk result (done m.new ≡ callees.filled_by true (level_in m.old.world self.heap self.text) self.at self.to
            self.answer place address count (done m.old)) }
    {
        if m.world.word(place + 3) % 2 == 1 {
            meet(place + 3, m)?;
            answer(self.to, -1, m);
            return Ok(());
        }
        meet(place + 1, m)?;
        meet(place + 2, m)?;
        meet(place + 3, m)?;
        if !m.can_access(address, u64::from(count)) {
            stop(self.at, Undefined::Dereference, m);
            return Ok(());
        }
        if !m.can_write(address, u64::from(count)) {
            stop(self.at, Undefined::LiteralWrite, m);
            return Ok(());
        }
        self.lay(place, address, count, m)?;
        answer(self.to, i128::from(count), m);
        Ok(())
    }

    /// The whole call, whose first place this is: what it fills, and what it answers. It fails for want of memory
    /// alone.
    pub(crate) fn call(
        self,
        fill: &Option<Fill>,
        values: &[Value],
        place: u64,
        m: &mut Machine,
    ) -> Result<(), AllocError>
        requires { place < 2 ^ 63 }
        ensures world { m.new.world ≡ m.old.world }
        ensures runs { OnOk result (done m.new ≡ callees.outside_call (level_in m.old.world self.heap self.text) self.at self.to
            self.answer fill.now (map worth values.now) place (done m.old)) }
    {
        match fill {
            Some(fill) => {
                let address = address_at(values, fill.buffer);
                let length = address_at(values, fill.length);
                let count = self.count(place, length, m);
                if fill.counts {
                    self.fill_counted(place, address, count, m)?;
                    return Ok(());
                }
                self.fill_free(place, address, count, m)?;
                Ok(())
            }
            None => {
                self.answers(place, m)?;
                Ok(())
            }
        }
    }
}
