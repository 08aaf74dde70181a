//! How many places an expression takes.
ghost use Rattle.std.specs.Prelude.{◌≡◌, ◌+◌, ℕ, IfOk};
ghost use Rattle.c_means.specs.Calls.{pointers_in, pointer_places};
ghost use Rattle.core_tree.specs.Callees as callees;
ghost use Rattle.path_rooms.specs.Rooms.{rooms_of, value_room as value_places};

use crate::sums::{both, sum};
use core_tree::{Callee, Expr};
use path_forms::{Calls, WalkFault};
use plain_data::Shared;
use printf_text::{Form, Piece};

/// How many places a conversion of a format takes.
fn places_of(form: &Form) -> u64
    ensures { result ≡ pointer_places form.now }
{
    match form {
        Form::Pointer => 1,
        Form::Char => 0,
        Form::Text => 0,
        Form::Signed(_) => 0,
        Form::Unsigned(_, _) => 0,
    }
}

fn pointers(pieces: &[Piece]) -> Result<u64, WalkFault>
    ensures { IfOk result (λ n. n ≡ pointers_in pieces.now) }
{
    let mut count: u64 = 0;
    for piece in pieces {
        match piece {
            Piece::Literal(_) => {}
            Piece::Converted(conversion) => {
                count = sum(count, places_of(&conversion.form))?;
            }
        }
    }
    Ok(count)
}

/// How many places what is called takes.
fn callee_room<C: Calls>(scene: &C, callee: &Callee) -> Result<u64, WalkFault>
    ensures { IfOk result (λ n. n ≡ callees.callee_room callee.now (C.around scene.now).measures) }
{
    match callee {
        Callee::Body { function } => scene.room(*function),
        Callee::Log { pieces, .. } => both(Ok(4), pointers(pieces.as_slice())),
        Callee::Identity { .. } => Ok(4),
        Callee::Exit => Ok(4),
        Callee::Abort => Ok(4),
        Callee::Malloc => Ok(4),
        Callee::Calloc => Ok(4),
        Callee::Free => Ok(4),
        Callee::Outside { .. } => Ok(4),
    }
}

/// How many places an expression takes. It fails where 64 bits don't count them.
#[cycle(rooms)]
pub fn value_room<C: Calls>(scene: &C, e: &Expr) -> Result<u64, WalkFault>
    ensures { IfOk result (λ n. n ≡ value_places (C.around scene.now).measures e.now) }
{
    match e {
        Expr::Constant { .. } => Ok(0),
        Expr::Fixed { .. } => Ok(0),
        Expr::Local { .. } => Ok(0),
        Expr::Load { address, .. } => value_room(scene, address.get()),
        Expr::Target { operand } => value_room(scene, operand.get()),
        Expr::Pointer { operand } => value_room(scene, operand.get()),
        Expr::Offset { operand, .. } => value_room(scene, operand.get()),
        Expr::Extract { operand, .. } => value_room(scene, operand.get()),
        Expr::Convert { operand, .. } => value_room(scene, operand.get()),
        Expr::Cast { operand, .. } => value_room(scene, operand.get()),
        Expr::Turn { operand, .. } => value_room(scene, operand.get()),
        Expr::Not { operand } => value_room(scene, operand.get()),
        Expr::Operate { left, right, .. } => {
            both(
                value_room(scene, left.get()),
                value_room(scene, right.get()),
            )
        }
        Expr::And { left, right, .. } => {
            both(
                value_room(scene, left.get()),
                value_room(scene, right.get()),
            )
        }
        Expr::Or { left, right, .. } => {
            both(
                value_room(scene, left.get()),
                value_room(scene, right.get()),
            )
        }
        Expr::Choose {
            condition,
            positive,
            negative,
            ..
        } => {
            let arms = both(
                value_room(scene, positive.get()),
                value_room(scene, negative.get()),
            );
            both(value_room(scene, condition.get()), arms)
        }
        Expr::Store { target, value, .. } => {
            both(
                value_room(scene, target.get()),
                value_room(scene, value.get()),
            )
        }
        Expr::Update { target, value, .. } => {
            both(
                value_room(scene, target.get()),
                value_room(scene, value.get()),
            )
        }
        Expr::Step { target, .. } => value_room(scene, target.get()),
        Expr::Comma { first, second } => {
            both(
                value_room(scene, first.get()),
                value_room(scene, second.get()),
            )
        }
        Expr::Call {
            arguments,
            callee,
            ..
        } => both(
            all_rooms(scene, arguments.as_slice()),
            callee_room(scene, callee),
        ),
    }
}

#[cycle(rooms)]
fn all_rooms<C: Calls>(scene: &C, items: &[Shared<Expr>]) -> Result<u64, WalkFault>
    ensures { IfOk result (λ n. n ≡ rooms_of (C.around scene.now).measures items.now) }
{
    let mut room: u64 = 0;
    for item in items {
        let more = value_room(scene, item.get())?;
        room = sum(room, more)?;
    }
    Ok(room)
}
