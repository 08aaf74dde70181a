//! The objects that items give to their block (C99 6.2.4p5), by their places behind the base.
ghost use Rattle.std.specs.Prelude.{◌≡◌, ◌++◌, OnOk, IfOk};
ghost use Rattle.core_tree.specs.Codes as form;
ghost use Rattle.path_arrows.specs.Objects.{Fit};
ghost use Rattle.path_rooms.specs.Births.{Gives, placed as placed_of, placed_all};
ghost use Rattle.path_rooms.specs.Rooms.{item_of};

use crate::code_rooms::room_of_code;
use crate::sums::sum;
use core_tree::Code;
use path_arrows::Object;
use path_forms::{Calls, Placed, WalkFault};
use plain_data::{Items, Shared};
use std::alloc::{AllocError, Global};

/// Adds the object that code gives to its block, from its first place on.
fn add_object(code: &Code, place: u64, all: &mut Items<Object>) -> Result<(), AllocError>
    ensures { OnOk result ((m : _) → Gives m (form.code code.now) place all.old all.new) }
{
    match code {
        Code::Declare { at, size, .. } => all.push(Object {
            at: *at,
            offset: place,
            size: *size,
        }),
        Code::Label { body, .. } => add_object(body.get(), place, all),
        Code::Case { body, .. } => add_object(body.get(), place, all),
        Code::Default { body } => add_object(body.get(), place, all),
        Code::Nothing { .. } => Ok(()),
        Code::Value { .. } => Ok(()),
        Code::Static { .. } => Ok(()),
        Code::Block { .. } => Ok(()),
        Code::If { .. } => Ok(()),
        Code::Switch { .. } => Ok(()),
        Code::Loop { .. } => Ok(()),
        Code::Repeat { .. } => Ok(()),
        Code::Goto { .. } => Ok(()),
        Code::Continue => Ok(()),
        Code::Break => Ok(()),
        Code::Return { .. } => Ok(()),
    }
}

/// Adds the objects that items give to their block, the first of which has its places from here on.
pub fn add_objects<C: Calls>(
    items: &[Shared<Code>],
    scene: &C,
    place: u64,
    all: &mut Items<Object>,
) -> Result<(), WalkFault>
    ensures { OnOk result (Gives (C.around scene.now).measures (item_of items.now) place all.old all.new) }
{
    match items.split_first() {
        Some((item, rest)) => {
            add_object(item.get(), place, all)?;
            let room = room_of_code(scene, item.get())?;
            let next = sum(place, room)?;
            add_objects(rest, scene, next, all)?;
            Ok(())
        }
        None => Ok(()),
    }
}

/// Whether each object has a place of the room, and fewer than 2^32 bytes; the walk gives up where one hasn't.
pub fn check_fit(objects: &[Object], room: u64) -> Result<(), WalkFault>
    ensures { OnOk result (Fit room objects.now) }
{
    match objects.split_first() {
        Some((object, rest)) => {
            if object.offset >= room || object.size >= 0x1_0000_0000 {
                return Err(WalkFault::Unplaced);
            }
            check_fit(rest, room)?;
            Ok(())
        }
        None => Ok(()),
    }
}

fn placed(object: Object) -> Placed
    ensures { result ≡ placed_of object }
{
    Placed {
        at: object.at,
        offset: object.offset,
    }
}

fn add_placed(objects: &[Object], all: &mut Items<Placed>) -> Result<(), AllocError>
    ensures { OnOk result (all.new ≡ all.old ++ placed_all objects.now) }
{
    match objects.split_first() {
        Some((object, rest)) => {
            let first = placed(*object);
            all.push(first)?;
            add_placed(rest, all)?;
            Ok(())
        }
        None => Ok(()),
    }
}

/// The objects that have names, with these behind them. It fails for want of memory alone.
pub fn with_objects(
    alloc: Global,
    frame: &[Placed],
    objects: &[Object],
) -> Result<Items<Placed>, AllocError>
    ensures { IfOk result (λ ps. ps ≡ frame.now ++ placed_all objects.now) }
{
    let mut all = Items::from_slice(alloc, frame)?;
    add_placed(objects, &mut all)?;
    Ok(all)
}
