//! How many places an expression takes, so that those behind it are known where it isn't evaluated.
ghost use Rattle.std.specs.Prelude.{◌≡◌, ◌+◌};
ghost use Rattle.c_means.specs.Calls.{pointers_in, pointer_places};
ghost use Rattle.core_tree.specs.Callees as callees;
ghost use Rattle.core_running.specs.Below as below;
ghost use Rattle.core_running.specs.Running.{Low};
ghost use Rattle.run_values.specs.Places.{capped, rooms_of};

use core_running::Scene;
use core_tree::{Callee, Expr};
use plain_data::Shared;
use printf_text::{Form, Piece};

/// How many places a conversion of a format takes.
fn places_of(form: &Form) -> u64
    ensures { result ≡ pointer_places form.now }
{
    match form {
        Form::Pointer => 1,
        Form::Char => 0,
        Form::Text => 0,
        Form::Signed(_) => 0,
        Form::Unsigned(_, _) => 0,
    }
}

fn pointers(pieces: &[Piece]) -> u64
    ensures { result ≡ capped (pointers_in pieces.now) }
{
    let mut count: u64 = 0;
    for piece in pieces {
        match piece {
            Piece::Literal(_) => {}
            Piece::Converted(conversion) => {
                count = count.saturating_add(places_of(&conversion.form));
            }
        }
    }
    count
}

/// How many places what is called takes, or the greatest number of 64 bits where it takes more.
pub fn callee_room<L: Scene>(scene: &L, callee: &Callee) -> u64
    ensures { result ≡ capped (callees.callee_room callee.now (L.setting scene.now).measures) }
{
    match callee {
        Callee::Body { function } => scene.room(*function),
        Callee::Log { pieces, .. } => pointers(pieces.as_slice()).saturating_add(4),
        Callee::Identity { .. } => 4,
        Callee::Exit => 4,
        Callee::Abort => 4,
        Callee::Malloc => 4,
        Callee::Calloc => 4,
        Callee::Free => 4,
        Callee::Outside { .. } => 4,
    }
}

/// How many places an expression takes, or the greatest number of 64 bits where it takes more.
#[cycle(rooms)]
pub fn value_room<L: Scene>(scene: &L, e: &Expr) -> u64
    ensures { result ≡ capped (below.value_room (L.setting scene.now) e.now) }
{
    match e {
        Expr::Constant { .. } => 0,
        Expr::Fixed { .. } => 0,
        Expr::Local { .. } => 0,
        Expr::Load { address, .. } => value_room(scene, address.get()),
        Expr::Target { operand } => value_room(scene, operand.get()),
        Expr::Pointer { operand } => value_room(scene, operand.get()),
        Expr::Offset { operand, .. } => value_room(scene, operand.get()),
        Expr::Extract { operand, .. } => value_room(scene, operand.get()),
        Expr::Convert { operand, .. } => value_room(scene, operand.get()),
        Expr::Cast { operand, .. } => value_room(scene, operand.get()),
        Expr::Turn { operand, .. } => value_room(scene, operand.get()),
        Expr::Not { operand } => value_room(scene, operand.get()),
        Expr::Operate { left, right, .. } => {
            value_room(scene, left.get()).saturating_add(value_room(scene, right.get()))
        }
        Expr::And { left, right, .. } => {
            value_room(scene, left.get()).saturating_add(value_room(scene, right.get()))
        }
        Expr::Or { left, right, .. } => {
            value_room(scene, left.get()).saturating_add(value_room(scene, right.get()))
        }
        Expr::Choose {
            condition,
            positive,
            negative,
            ..
        } => {
            let arms = value_room(scene, positive.get()).saturating_add(value_room(
                scene,
                negative.get(),
            ));
            value_room(scene, condition.get()).saturating_add(arms)
        }
        Expr::Store { target, value, .. } => {
            value_room(scene, target.get()).saturating_add(value_room(scene, value.get()))
        }
        Expr::Update { target, value, .. } => {
            value_room(scene, target.get()).saturating_add(value_room(scene, value.get()))
        }
        Expr::Step { target, .. } => value_room(scene, target.get()),
        Expr::Comma { first, second } => {
            value_room(scene, first.get()).saturating_add(value_room(scene, second.get()))
        }
        Expr::Call {
            arguments,
            callee,
            ..
        } => all_rooms(scene, arguments.as_slice()).saturating_add(callee_room(scene, callee)),
    }
}

#[cycle(rooms)]
fn all_rooms<L: Scene>(scene: &L, items: &[Shared<Expr>]) -> u64
    ensures { result ≡ capped (rooms_of (L.setting scene.now) items.now) }
{
    let mut room: u64 = 0;
    for item in items {
        room = value_room(scene, item.get()).saturating_add(room);
    }
    room
}

/// The first place behind those of an expression.
pub fn room_behind<L: Scene>(scene: &L, e: &Expr, base: u64) -> u64
    requires { Low base (below.value_room (L.setting scene.now) e.now) }
    ensures { result ≡ base + below.value_room (L.setting scene.now) e.now }
{
    base + value_room(scene, e)
}

/// The first place behind those of what is called.
pub(crate) fn callee_behind<L: Scene>(scene: &L, callee: &Callee, base: u64) -> u64
    requires { Low base (callees.callee_room callee.now (L.setting scene.now).measures) }
    ensures { result ≡ base + callees.callee_room callee.now (L.setting scene.now).measures }
{
    base + callee_room(scene, callee)
}
