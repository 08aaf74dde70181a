//! How many places what is called takes.
ghost use Rattle.std.specs.Prelude.{◌≡◌, ◌+◌, IfOk};
ghost use Rattle.c_means.specs.Calls.{pointers_in, pointer_places};
ghost use Rattle.core_tree.specs.Callees as callees;

use crate::calling::Calls;
use crate::fault::WalkFault;
use core_tree::Callee;
use printf_text::{Form, Piece};

/// A sum of numbers of places. It fails where 64 bits don't do.
fn sum_of(first: u64, second: u64) -> Result<u64, WalkFault>
    ensures { IfOk result (λ n. n ≡ first + second) }
{
    match first.checked_add(second) {
        Some(sum) => Ok(sum),
        None => Err(WalkFault::TooFar),
    }
}

/// How many places a conversion of a format takes.
fn places_of(form: &Form) -> u64
    ensures { result ≡ pointer_places form.now }
{
    match form {
        Form::Pointer => 1,
        Form::Char => 0,
        Form::Text => 0,
        Form::Signed(_) => 0,
        Form::Unsigned(_, _) => 0,
    }
}

fn pointers(pieces: &[Piece]) -> Result<u64, WalkFault>
    ensures { IfOk result (λ n. n ≡ pointers_in pieces.now) }
{
    let mut count: u64 = 0;
    for piece in pieces {
        match piece {
            Piece::Literal(_) => {}
            Piece::Converted(conversion) => {
                count = sum_of(count, places_of(&conversion.form))?;
            }
        }
    }
    Ok(count)
}

/// How many places what is called takes. It fails where 64 bits don't count them.
fn callee_room<C: Calls>(scene: &C, callee: &Callee) -> Result<u64, WalkFault>
    ensures { IfOk result (λ n. n ≡ callees.callee_room callee.now (C.around scene.now).measures) }
{
    match callee {
        Callee::Body { function } => scene.room(*function),
        Callee::Log { pieces, .. } => {
            let count = pointers(pieces.as_slice())?;
            sum_of(4, count)
        }
        Callee::Identity { .. } => Ok(4),
        Callee::Exit => Ok(4),
        Callee::Abort => Ok(4),
        Callee::Malloc => Ok(4),
        Callee::Calloc => Ok(4),
        Callee::Free => Ok(4),
        Callee::Outside { .. } => Ok(4),
    }
}

/// The next place behind those of what is called, which begin at a place. It fails where 64 bits don't count them.
pub fn behind_callee<C: Calls>(scene: &C, callee: &Callee, place: u64) -> Result<u64, WalkFault>
    ensures { IfOk result (λ n. n ≡ place + callees.callee_room callee.now (C.around scene.now).measures) }
{
    let room = callee_room(scene, callee)?;
    sum_of(place, room)
}
