//! The arguments of `main` (C99 5.1.2.2.1): the count, the array of pointers, and its strings.
ghost use Rattle.std.specs.Prelude.{◌≡◌, ◌<◌, ◌+◌, ◌*◌, suc, OnOk, pos};
ghost use Rattle.c_means.specs.Units.{world_of};
ghost use Rattle.c_store.specs.Store.{start, make, write, zero_range};
ghost use Rattle.c_store.specs.declared.object.ObjectKind.TheVariants.{Outside};
ghost use Rattle.core_tree.specs.Programs as program;
ghost use Rattle.core_tree.specs.States.{plain, with_store};
ghost use Rattle.core_tree.specs.States as states;
ghost use Rattle.core_running.specs.Running.{done};
ghost use Rattle.run_starts.specs.Bounds.{limits_in};

use crate::objects::{make as make_object, meet_all, start_at};
use c_machine::{Machine, Value};
use c_store::ObjectKind;
use code_steps::{address_behind, store, zero};
use core_tree::ValueType;
use plain_data::World;
use std::alloc::AllocError;

/// How many arguments there are, by the word of the place: from one to the bound.
pub fn argument_count(world: &World, most: u32, place: u64) -> u64
    requires { 0 < most }
    ensures { result ≡ program.argument_count (world_of world.now) (limits_in 0 most) place }
{
    1 + world.word(place) % u64::from(most)
}

/// The bytes of an array of so many pointers, and a null pointer behind them.
fn array_size(count: u32) -> u64
    ensures { result ≡ 8 * suc count }
{
    8 * (u64::from(count) + 1)
}

/// The bounds on arguments: how many bytes a string from outside has but for its last, and how many arguments there
/// are at most.
#[derive(Clone, Copy)]
pub struct Arguments {
    pub outside: u32,
    pub most: u32,
}

impl Arguments {
    fn object(&self, place: u64, size: u64, m: &mut Machine) -> Result<(), AllocError>
        ensures world { m.new.world ≡ m.old.world }
        ensures makes { OnOk result (done m.new ≡ program.outside_object place size (done m.old)) }
    {
        if size > u64::from(u32::MAX) {
            return Err(AllocError);
        }
        make_object(place, ObjectKind::Outside, size as u32, m)
    }

    /// A string, whose last byte is 0.
    fn string(&self, place: u64, m: &mut Machine) -> Result<(), AllocError>
        ensures world { m.new.world ≡ m.old.world }
        ensures makes { OnOk result (done m.new ≡ program.zeroes (start place + self.now.outside) 1 (program.outside_object place (suc self.now.outside) (done m.old))) }
    {
        let start = start_at(place)?;
        let last = address_behind(start, u64::from(self.outside))?;
        self.object(place, u64::from(self.outside) + 1, m)?;
        zero(last, 1, m)
    }

    fn strings(&self, place: u64, left: u32, m: &mut Machine) -> Result<(), AllocError>
        ensures world { m.new.world ≡ m.old.world }
        ensures makes { OnOk result (done m.new ≡ program.makes_strings (limits_in self.now.outside self.now.most) place left (done m.old)) }
    {
        if left == 0 {
            return Ok(());
        }
        self.string(place, m)?;
        if place == u64::MAX {
            return Err(AllocError);
        }
        self.strings(place + 1, left - 1, m)
    }

    /// A pointer to the object of a place.
    fn pointer(&self, address: u64, place: u64, m: &mut Machine) -> Result<(), AllocError>
        ensures world { m.new.world ≡ m.old.world }
        ensures points { OnOk result (done m.new ≡ with_store (write 8 address (start place) (done m.old).store) (done m.old)) }
    {
        let start = start_at(place)?;
        store(
            ValueType::Pointer,
            address,
            Value::Number(i128::from(start)),
            m,
        )
    }

    fn pointers(
        &self,
        address: u64,
        place: u64,
        left: u64,
        m: &mut Machine,
    ) -> Result<(), AllocError>
        ensures world { m.new.world ≡ m.old.world }
        ensures points { OnOk result (done m.new ≡ program.points_to address place left (done m.old)) }
    {
        if left == 0 {
            return Ok(());
        }
        self.pointer(address, place, m)?;
        let next = address_behind(address, 8)?;
        if place == u64::MAX {
            return Err(AllocError);
        }
        self.pointers(next, place + 1, left - 1, m)
    }

    /// Makes the strings of the arguments behind the array of the pointers to them, whose last ones are null. It fails
    /// for want of memory alone.
    pub fn make(&self, place: u64, m: &mut Machine) -> Result<(), AllocError>
        requires { 0 < self.now.most }
        ensures world { m.new.world ≡ m.old.world }
        ensures makes { OnOk result (done m.new ≡ program.makes_arguments (world_of m.old.world) (limits_in self.now.outside self.now.most) place (done m.old)) }
    {
        if place > u64::from(u32::MAX) - 2 {
            return Err(AllocError);
        }
        let (array, strings) = (place + 1, place + 2);
        let size = array_size(self.most);
        let count = argument_count(&m.world, self.most, place);
        let start = start_at(array)?;
        self.strings(strings, self.most, m)?;
        self.object(array, size, m)?;
        zero(start, size, m)?;
        self.pointers(start, strings, count, m)
    }
}
