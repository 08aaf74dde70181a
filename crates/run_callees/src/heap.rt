//! Functions of the C library that have a meaning of their own (C99 7.20.3, 7.20.4).
ghost use Rattle.std.specs.Prelude.{◌≡◌, ◌*◌, map, false, true, OnOk};
ghost use Rattle.c_means.specs.Values.{address};
ghost use Rattle.c_machine.specs.Worth.{worth};
ghost use Rattle.core_running.specs.Running.{done};
ghost use Rattle.core_tree.specs.Callees as callees;
ghost use Rattle.core_tree.specs.Callees.{value_or_zero};
ghost use Rattle.core_tree.specs.States.{finished};
ghost use Rattle.run_callees.specs.Levels.{level_in};

use crate::answers::{answer, finish, meet, stop};
use crate::numbers::{address_at, converted_at, number_at};
use c_machine::{Machine, Value};
use c_store::{Object, ObjectKind};
use core_tree::ValueType;
use plain_data::{Finish, Undefined};
use std::alloc::AllocError;

/// A call of a function that answers one of its arguments. It fails for want of memory alone: no structure is answered
/// that is kept as bytes.
pub(crate) fn identity(
    to: ValueType,
    index: u32,
    values: &[Value],
    m: &mut Machine,
) -> Result<(), AllocError>
    ensures world { m.new.world ≡ m.old.world }
    ensures runs { OnOk result (done m.new ≡ callees.answers to (value_or_zero (map worth values.now) index) (done m.old)) }
{
    match converted_at(to, values, index) {
        Some(value) => {
            m.set_value(Some(value));
            Ok(())
        }
        None => Err(AllocError),
    }
}

/// `exit` (C99 7.20.4.3): its argument was converted to `int`. It fails for want of memory alone.
pub(crate) fn exit(values: &[Value], m: &mut Machine) -> Result<(), AllocError>
    ensures world { m.new.world ≡ m.old.world }
    ensures runs { OnOk result (done m.new ≡ finished (Finish.Exit (value_or_zero (map worth values.now) 0)) (done m.old)) }
{
    let value = number_at(values, 0).ok_or(AllocError)?;
    if value < i128::from(i32::MIN) || value > i128::from(i32::MAX) {
        return Err(AllocError);
    }
    finish(Finish::Exit(value as i32), m);
    Ok(())
}

/// `free` (C99 7.20.3.2): null does nothing, and what is no live heap object's start is undefined.
pub(crate) fn free(at: u32, values: &[Value], m: &mut Machine)
    ensures world { m.new.world ≡ m.old.world }
    ensures runs { done m.new ≡ callees.freed at (address (value_or_zero (map worth values.now) 0)) (done m.old) }
{
    let address = address_at(values, 0);
    if !m.can_free(address) {
        stop(at, Undefined::Free, m);
        return;
    }
    if address != 0 {
        m.end_object(address / (1 << 32));
    }
}

/// A call that asks for a heap object, `malloc` or `calloc` (C99 7.20.3.1, 7.20.3.3): the bound on its bytes, the token
/// of the callee's name, and the type of the call.
#[derive(Clone, Copy)]
pub(crate) struct Heap {
    pub(crate) bound: u32,
    pub(crate) at: u32,
    pub(crate) to: ValueType,
}

impl Heap {
    /// An object of so many bytes at this place, or null where the place says so; more than the bound leaves the
    /// bounds.
    fn object(
        self,
        count: u128,
        zeroes: bool,
        place: u64,
        m: &mut Machine,
    ) -> Result<(), AllocError>
        ensures world { m.new.world ≡ m.old.world }
        ensures runs { OnOk result (done m.new ≡ callees.heap_object (level_in m.old.world self.bound 0) self.at self.to count place zeroes (done m.old)) }
    {
        if count > u128::from(self.bound) {
            finish(Finish::Left { at: self.at }, m);
            return Ok(());
        }
        if m.world.word(place) == 0 {
            meet(place, m)?;
            answer(self.to, 0, m);
            return Ok(());
        }
        if place > u64::from(u32::MAX) {
            return Err(AllocError);
        }
        let kind = ObjectKind::Heap;
        let size = count as u32;
        let start = place * (1 << 32);
        m.make(place, Object { kind, size })?;
        if zeroes {
            m.zero(start, u64::from(size))?;
        }
        meet(place, m)?;
        answer(self.to, i128::from(start), m);
        Ok(())
    }

    /// `malloc`. It fails for want of memory alone.
    pub(crate) fn malloc(
        self,
        values: &[Value],
        place: u64,
        m: &mut Machine,
    ) -> Result<(), AllocError>
        ensures world { m.new.world ≡ m.old.world }
        ensures runs { OnOk result (done m.new ≡ callees.heap_object (level_in m.old.world self.bound 0) self.at self.to
            (address (value_or_zero (map worth values.now) 0)) place false (done m.old)) }
    {
        let count = address_at(values, 0);
        self.object(u128::from(count), false, place, m)?;
        Ok(())
    }

    /// `calloc`: the product is taken as a whole number. It fails for want of memory alone.
    pub(crate) fn calloc(
        self,
        values: &[Value],
        place: u64,
        m: &mut Machine,
    ) -> Result<(), AllocError>
        ensures world { m.new.world ≡ m.old.world }
        ensures runs { OnOk result (done m.new ≡ callees.heap_object (level_in m.old.world self.bound 0) self.at self.to
            (address (value_or_zero (map worth values.now) 0) * address (value_or_zero (map worth values.now) 1)) place true (done m.old)) }
    {
        let count = address_at(values, 0);
        let size = address_at(values, 1);
        self.object(u128::from(count) * u128::from(size), true, place, m)?;
        Ok(())
    }
}
