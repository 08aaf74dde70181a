//! How many places code takes.
ghost use Rattle.std.specs.Prelude.{◌≡◌, ℕ, IfOk};
ghost use Rattle.path_rooms.specs.Rooms.{option_room, setting_room, settings_room, turns_room, items_room, code_room, loop_room, repeat_room};

use crate::counts::value_room;
use crate::sums::{both, sum, times};
use core_tree::{Code, Expr, Setting};
use path_forms::{Calls, WalkFault};
use plain_data::Shared;

/// An expression that may be missing.
fn room_of_option<C: Calls>(scene: &C, e: &Option<Shared<Expr>>) -> Result<u64, WalkFault>
    ensures { IfOk result (λ n. n ≡ option_room (C.around scene.now).measures e.now) }
{
    match e {
        None => Ok(0),
        Some(e) => value_room(scene, e.get()),
    }
}

fn room_of_setting<C: Calls>(scene: &C, setting: &Setting) -> Result<u64, WalkFault>
    ensures { IfOk result (λ n. n ≡ setting_room (C.around scene.now).measures setting.now) }
{
    match setting {
        Setting::Value { value, .. } => value_room(scene, value.get()),
        Setting::Text { .. } => Ok(0),
    }
}

/// How many places settings take. It fails where 64 bits don't count them.
fn room_of_settings<C: Calls>(scene: &C, settings: &[Setting]) -> Result<u64, WalkFault>
    ensures { IfOk result (λ n. n ≡ settings_room (C.around scene.now).measures settings.now) }
{
    let mut room: u64 = 0;
    for setting in settings {
        let more = room_of_setting(scene, setting)?;
        room = sum(room, more)?;
    }
    Ok(room)
}

/// All turns of a loop, each of which takes so many.
fn room_of_turns<C: Calls>(scene: &C, turn: Result<u64, WalkFault>) -> Result<u64, WalkFault>
    ensures { (n : ℕ) → IfOk turn (λ x. x ≡ n) → IfOk result (λ z. z ≡ turns_room (C.around scene.now).measures n) }
{
    times(scene.turns(), turn)
}

/// How many places a `while` or `for` takes. It fails where 64 bits don't count them.
pub fn room_of_loop<C: Calls>(
    scene: &C,
    test: &Option<Shared<Expr>>,
    step: &Option<Shared<Expr>>,
    body: &Code,
) -> Result<u64, WalkFault>
    ensures { IfOk result (λ n. n ≡ loop_room (C.around scene.now).measures test.now body.now step.now) }
{
    let behind = both(room_of_code(scene, body), room_of_option(scene, step));
    let turn = both(room_of_option(scene, test), behind);
    room_of_turns(scene, turn)
}

/// How many places a `do` takes. It fails where 64 bits don't count them.
pub fn room_of_repeat<C: Calls>(scene: &C, test: &Expr, body: &Code) -> Result<u64, WalkFault>
    ensures { IfOk result (λ n. n ≡ repeat_room (C.around scene.now).measures body.now test.now) }
{
    let turn = both(room_of_code(scene, body), value_room(scene, test));
    room_of_turns(scene, turn)
}

/// How many places code takes. It fails where 64 bits don't count them.
#[cycle(rooms)]
pub fn room_of_code<C: Calls>(scene: &C, code: &Code) -> Result<u64, WalkFault>
    ensures { IfOk result (λ n. n ≡ code_room (C.around scene.now).measures code.now) }
{
    match code {
        Code::Nothing { .. } => Ok(0),
        Code::Value { value, .. } => value_room(scene, value.get()),
        Code::Declare { settings, .. } => both(Ok(1), room_of_settings(scene, settings.as_slice())),
        Code::Static { .. } => Ok(0),
        Code::Block { items, .. } => room_of_items(scene, items.as_slice()),
        Code::Label { body, .. } => room_of_code(scene, body.get()),
        Code::Case { body, .. } => room_of_code(scene, body.get()),
        Code::Default { body } => room_of_code(scene, body.get()),
        Code::If {
            condition,
            positive,
            negative,
            ..
        } => {
            let sides = both(
                room_of_code(scene, positive.get()),
                room_of_code(scene, negative.get()),
            );
            both(value_room(scene, condition.get()), sides)
        }
        Code::Switch { value, items, .. } => both(
            value_room(scene, value.get()),
            room_of_items(scene, items.as_slice()),
        ),
        Code::Loop {
            test,
            step,
            body,
            ..
        } => {
            let behind = both(room_of_code(scene, body.get()), room_of_option(scene, step));
            let turn = both(room_of_option(scene, test), behind);
            room_of_turns(scene, turn)
        }
        Code::Repeat { test, body, .. } => {
            let turn = both(
                room_of_code(scene, body.get()),
                value_room(scene, test.get()),
            );
            room_of_turns(scene, turn)
        }
        Code::Goto { .. } => Ok(0),
        Code::Continue => Ok(0),
        Code::Break => Ok(0),
        Code::Return { value } => room_of_option(scene, value),
    }
}

/// How many places items take, one behind the other. It fails where 64 bits don't count them.
#[cycle(rooms)]
pub fn room_of_items<C: Calls>(scene: &C, items: &[Shared<Code>]) -> Result<u64, WalkFault>
    ensures { IfOk result (λ n. n ≡ items_room (C.around scene.now).measures items.now) }
{
    let mut room: u64 = 0;
    for item in items {
        let more = room_of_code(scene, item.get())?;
        room = sum(room, more)?;
    }
    Ok(room)
}
