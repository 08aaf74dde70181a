//! Objects that live throughout the run (C99 6.2.4p3).
ghost use Rattle.std.specs.Prelude.{◌≡◌, IfOk, OnOk};
ghost use Rattle.c_store.specs.Store.{start, make as make_object};
ghost use Rattle.core_tree.specs.Programs as program;
ghost use Rattle.core_tree.specs.States.{plain, meet, with_store};
ghost use Rattle.core_running.specs.Running.{done};

use c_machine::Machine;
use c_store::{Object, ObjectKind};
use code_steps::{lay_text, start_of, zero};
use core_tree::{Contents, LastingObject};
use std::alloc::AllocError;

/// Meets a place.
fn meet(place: u64, m: &mut Machine) -> Result<(), AllocError>
    ensures world { m.new.world ≡ m.old.world }
    ensures meets { OnOk result (done m.new ≡ meet plain place (done m.old)) }
{
    m.meet(place)
}

/// Meets places, in order. It fails for want of memory alone.
pub fn meet_all(places: &[u64], m: &mut Machine) -> Result<(), AllocError>
    ensures world { m.new.world ≡ m.old.world }
    ensures meets { OnOk result (done m.new ≡ program.meets_all plain places.now (done m.old)) }
{
    match places.split_first() {
        Some((first, rest)) => {
            meet(*first, m)?;
            meet_all(rest, m)
        }
        None => Ok(()),
    }
}

/// The bytes that an object has before any initializer is evaluated.
fn fill(contents: &Contents, address: u64, size: u32, m: &mut Machine) -> Result<(), AllocError>
    ensures world { m.new.world ≡ m.old.world }
    ensures fills { OnOk result (done m.new ≡ with_store (program.filled_with contents.now address size (done m.old).store) (done m.old)) }
{
    match contents {
        Contents::World => Ok(()),
        Contents::Zero => zero(address, u64::from(size), m),
        Contents::Text(bytes) => lay_text(address, u64::from(size), bytes.as_slice(), m),
    }
}

/// The first address of the object of a place: no place is above those that 32 bits count.
pub(crate) fn start_at(place: u64) -> Result<u64, AllocError>
    ensures { IfOk result (λ a. a ≡ start place) }
{
    if place > u64::from(u32::MAX) {
        return Err(AllocError);
    }
    Ok(start_of(place as u32))
}

/// Makes an object.
pub(crate) fn make(
    place: u64,
    kind: ObjectKind,
    size: u32,
    m: &mut Machine,
) -> Result<(), AllocError>
    ensures world { m.new.world ≡ m.old.world }
    ensures makes { OnOk result (done m.new ≡ with_store (make_object place (record { kind = kind; size = size }) (done m.old).store) (done m.old)) }
{
    m.make(place, Object { kind, size })
}

fn make_one(object: &LastingObject, m: &mut Machine) -> Result<(), AllocError>
    ensures world { m.new.world ≡ m.old.world }
    ensures makes { OnOk result (done m.new ≡ program.makes object.now (done m.old)) }
{
    let start = start_at(object.place)?;
    make(object.place, object.kind, object.size, m)?;
    fill(&object.contents, start, object.size, m)
}

/// Makes objects, in order. It fails for want of memory alone: a place above those that 32 bits count has no object.
pub fn make_all(objects: &[LastingObject], m: &mut Machine) -> Result<(), AllocError>
    ensures world { m.new.world ≡ m.old.world }
    ensures makes { OnOk result (done m.new ≡ program.makes_all objects.now (done m.old)) }
{
    match objects.split_first() {
        Some((first, rest)) => {
            make_one(first, m)?;
            make_all(rest, m)
        }
        None => Ok(()),
    }
}
