//! The objects of a block (C99 6.2.4p5): found before it is entered, made, bound, and ended.
ghost use Rattle.std.specs.Prelude.{◌≡◌, ◌++◌, [], IsFalse, OnOk};
ghost use Rattle.c_store.specs.Store.{set_at};
ghost use Rattle.core_tree.specs.Codes as form;
ghost use Rattle.core_tree.specs.States as states;
ghost use Rattle.core_running.specs.Frames.{env_of};
ghost use Rattle.core_running.specs.Running.{done, Low};
ghost use Rattle.code_steps.specs.Below.{ReachesRoom};
ghost use Rattle.code_steps.specs.Blocks.{made_all, objects_of, item_of};
ghost use Rattle.code_steps.specs.Rooms.{items_room};

use crate::rooms::room_of_code;
use crate::stores::{bear_one, end_one};
use c_machine::Machine;
use core_running::{Frame, Scene};
use core_tree::{Code, Expr};
use plain_data::{Items, Shared};
use std::alloc::AllocError;

/// An automatic object of a block: the offset of its declaration, its place, and how many bytes it has.
#[derive(Clone, Copy)]
pub struct Birth {
    pub at: u32,
    pub place: u64,
    pub size: u64,
}

/// Binds a declaration to the number of its object.
pub fn bind(frame: &mut Frame, at: u32, number: u32) -> Result<(), AllocError>
    ensures { OnOk result (env_of frame.new ≡ set_at at number (env_of frame.old)) }
{
    frame.numbers.insert(at, number)?;
    Ok(())
}

/// Makes objects, in the order of their declarations.
pub fn bear(objects: &[Birth], m: &mut Machine) -> Result<(), AllocError>
    ensures world { m.new.world ≡ m.old.world }
    ensures born { OnOk result (done m.new ≡ states.born states.plain (made_all objects.now) (done m.old)) }
{
    match objects.split_first() {
        Some((object, rest)) => {
            bear_one(object.place, object.size, m)?;
            bear(rest, m)
        }
        None => Ok(()),
    }
}

/// Ends them.
pub fn bury(objects: &[Birth], m: &mut Machine)
    ensures world { m.new.world ≡ m.old.world }
    ensures dead { done m.new ≡ states.dead (made_all objects.now) (done m.old) }
{
    match objects.split_first() {
        Some((object, rest)) => {
            end_one(object.place, m);
            bury(rest, m);
        }
        None => {}
    }
}

/// Whether code gives an object to its block.
fn has_object(code: &Code) -> bool
    ensures { IsFalse result → (s : _) (base : _) → objects_of s (form.code code.now) base ≡ [] }
{
    match code {
        Code::Declare { .. } => true,
        Code::Label { body, .. } => has_object(body.get()),
        Code::Case { body, .. } => has_object(body.get()),
        Code::Default { body } => has_object(body.get()),
        Code::Nothing { .. } => false,
        Code::Value { .. } => false,
        Code::Static { .. } => false,
        Code::Block { .. } => false,
        Code::If { .. } => false,
        Code::Switch { .. } => false,
        Code::Loop { .. } => false,
        Code::Repeat { .. } => false,
        Code::Goto { .. } => false,
        Code::Continue => false,
        Code::Break => false,
        Code::Return { .. } => false,
    }
}

/// Whether items give an object to their block.
fn have_objects(items: &[Shared<Code>]) -> bool
    ensures { IsFalse result → (s : _) (base : _) → objects_of s (item_of items.now) base ≡ [] }
{
    match items.split_first() {
        Some((item, rest)) => {
            if has_object(item.get()) {
                return true;
            }
            have_objects(rest)
        }
        None => false,
    }
}

/// Adds the objects that code gives to its block, from its first place on.
fn add_object(code: &Code, base: u64, all: &mut Items<Birth>) -> Result<(), AllocError>
    ensures { (s : _) → OnOk result (made_all all.new ≡ made_all all.old ++ objects_of s (form.code code.now) base) }
{
    match code {
        Code::Declare { at, size, .. } => all.push(Birth {
            at: *at,
            place: base,
            size: *size,
        }),
        Code::Label { body, .. } => add_object(body.get(), base, all),
        Code::Case { body, .. } => add_object(body.get(), base, all),
        Code::Default { body } => add_object(body.get(), base, all),
        Code::Nothing { .. } => Ok(()),
        Code::Value { .. } => Ok(()),
        Code::Static { .. } => Ok(()),
        Code::Block { .. } => Ok(()),
        Code::If { .. } => Ok(()),
        Code::Switch { .. } => Ok(()),
        Code::Loop { .. } => Ok(()),
        Code::Repeat { .. } => Ok(()),
        Code::Goto { .. } => Ok(()),
        Code::Continue => Ok(()),
        Code::Break => Ok(()),
        Code::Return { .. } => Ok(()),
    }
}

/// Adds the objects that items give to their block: places are counted only up to the last that gives one.
pub fn add_objects<L: Scene, R: Fn(&L, &Expr) -> u64>(
    items: &[Shared<Code>],
    scene: &L,
    room: &R,
    base: u64,
    all: &mut Items<Birth>,
) -> Result<(), AllocError>
    requires rooms { ReachesRoom L.setting R.Fn scene room.now }
    requires low { Low base (items_room (L.setting scene.now) items.now) }
    ensures { OnOk result (made_all all.new ≡ made_all all.old ++ objects_of (L.setting scene.now) (item_of items.now) base) }
{
    match items.split_first() {
        Some((item, rest)) => {
            add_object(item.get(), base, all)?;
            if !have_objects(rest) {
                return Ok(());
            }
            let behind = base + room_of_code(item.get(), scene, room);
            add_objects(rest, scene, room, behind, all)
        }
        None => Ok(()),
    }
}
