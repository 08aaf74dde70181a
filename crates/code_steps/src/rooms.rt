//! How many places code takes that isn't run: the greatest number of 64 bits where it takes more.
ghost use Rattle.std.specs.Prelude.{◌≡◌};
ghost use Rattle.core_running.specs.Below.{value_room, code_room};
ghost use Rattle.code_steps.specs.Below.{capped, ReachesRoom};
ghost use Rattle.code_steps.specs.Rooms.{option_room, setting_room, settings_room, turns_room, items_room};

use core_running::Scene;
use core_tree::{Code, Expr, Setting};
use plain_data::Shared;

/// How many places an expression takes.
pub fn room_of_value<L: Scene, R: Fn(&L, &Expr) -> u64>(e: &Expr, scene: &L, room: &R) -> u64
    requires rooms { ReachesRoom L.setting R.Fn scene room.now }
    ensures { result ≡ capped (value_room (L.setting scene.now) e.now) }
{
    room(scene, e)
}

/// How many places an expression takes that may be missing.
pub fn room_of_option<L: Scene, R: Fn(&L, &Expr) -> u64>(
    e: &Option<Shared<Expr>>,
    scene: &L,
    room: &R,
) -> u64
    requires rooms { ReachesRoom L.setting R.Fn scene room.now }
    ensures { result ≡ capped (option_room (L.setting scene.now) e.now) }
{
    match e {
        None => 0,
        Some(e) => room_of_value(e.get(), scene, room),
    }
}

/// How many places a setting takes.
pub fn room_of_setting<L: Scene, R: Fn(&L, &Expr) -> u64>(
    setting: &Setting,
    scene: &L,
    room: &R,
) -> u64
    requires rooms { ReachesRoom L.setting R.Fn scene room.now }
    ensures { result ≡ capped (setting_room (L.setting scene.now) setting.now) }
{
    match setting {
        Setting::Value { value, .. } => room_of_value(value.get(), scene, room),
        Setting::Text { .. } => 0,
    }
}

/// How many places settings take.
pub fn room_of_settings<L: Scene, R: Fn(&L, &Expr) -> u64>(
    settings: &[Setting],
    scene: &L,
    room: &R,
) -> u64
    requires rooms { ReachesRoom L.setting R.Fn scene room.now }
    ensures { result ≡ capped (settings_room (L.setting scene.now) settings.now) }
{
    let mut all: u64 = 0;
    for setting in settings {
        all = room_of_setting(setting, scene, room).saturating_add(all);
    }
    all
}

/// How many places all turns of a loop take, each of which takes so many.
pub fn room_of_turns<L: Scene>(turn: u64, scene: &L) -> u64
    ensures { result ≡ capped (turns_room (L.setting scene.now) turn) }
{
    turn.saturating_mul(u64::from(scene.turns()) + 1)
}

/// How many places code takes.
#[cycle(rooms)]
pub fn room_of_code<L: Scene, R: Fn(&L, &Expr) -> u64>(code: &Code, scene: &L, room: &R) -> u64
    requires rooms { ReachesRoom L.setting R.Fn scene room.now }
    ensures { result ≡ capped (code_room (L.setting scene.now) code.now) }
{
    match code {
        Code::Nothing { .. } => 0,
        Code::Value { value, .. } => room_of_value(value.get(), scene, room),
        Code::Declare { settings, .. } => {
            room_of_settings(settings.as_slice(), scene, room).saturating_add(1)
        }
        Code::Static { .. } => 0,
        Code::Block { items, .. } => room_of_items(items.as_slice(), scene, room),
        Code::Label { body, .. } => room_of_code(body.get(), scene, room),
        Code::Case { body, .. } => room_of_code(body.get(), scene, room),
        Code::Default { body } => room_of_code(body.get(), scene, room),
        Code::If {
            condition,
            positive,
            negative,
            ..
        } => {
            let sides = room_of_code(positive.get(), scene, room).saturating_add(room_of_code(
                negative.get(),
                scene,
                room,
            ));
            room_of_value(condition.get(), scene, room).saturating_add(sides)
        }
        Code::Switch { value, items, .. } => {
            let body = room_of_items(items.as_slice(), scene, room);
            room_of_value(value.get(), scene, room).saturating_add(body)
        }
        Code::Loop {
            test,
            step,
            body,
            ..
        } => {
            let behind = room_of_code(body.get(), scene, room).saturating_add(room_of_option(
                step, scene, room,
            ));
            let turn = room_of_option(test, scene, room).saturating_add(behind);
            room_of_turns(turn, scene)
        }
        Code::Repeat { test, body, .. } => {
            let turn = room_of_code(body.get(), scene, room).saturating_add(room_of_value(
                test.get(),
                scene,
                room,
            ));
            room_of_turns(turn, scene)
        }
        Code::Goto { .. } => 0,
        Code::Continue => 0,
        Code::Break => 0,
        Code::Return { value } => room_of_option(value, scene, room),
    }
}

/// How many places items take, one behind the other.
#[cycle(rooms)]
pub fn room_of_items<L: Scene, R: Fn(&L, &Expr) -> u64>(
    items: &[Shared<Code>],
    scene: &L,
    room: &R,
) -> u64
    requires rooms { ReachesRoom L.setting R.Fn scene room.now }
    ensures { result ≡ capped (items_room (L.setting scene.now) items.now) }
{
    let mut all: u64 = 0;
    for item in items {
        all = room_of_code(item.get(), scene, room).saturating_add(all);
    }
    all
}
