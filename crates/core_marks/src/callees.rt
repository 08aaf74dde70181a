//! What stands at calls, by what is called (C99 6.5.2.2). All fail for want of memory alone.
ghost use Rattle.std.specs.Prelude.{◌≡◌, ◌++◌, OnOk};
ghost use Rattle.core_marks.specs.Marks as marks;

use crate::copying::copy_pieces;
use crate::mark::{Mark, Site};
use core_tree::{Callee, Fill, Watched};
use plain_data::{Items, Undefined};
use printf_text::{Form, Piece};
use std::alloc::{AllocError, Global};

fn is_text(form: Form) -> bool
    ensures { result ≡ marks.is_text form }
{
    match form {
        Form::Text => true,
        Form::Signed(_) | Form::Unsigned(_, _) | Form::Char | Form::Pointer => false,
    }
}

fn is_text_piece(piece: &Piece) -> bool
    ensures { result ≡ marks.is_text_piece piece.now }
{
    match piece {
        Piece::Literal(_) => false,
        Piece::Converted(c) => is_text(c.form),
    }
}

/// Whether a `%s` stands among pieces.
fn reads_text(pieces: &[Piece]) -> bool
    ensures { result ≡ marks.reads_text pieces.now }
{
    pieces.iter().any(|piece| is_text_piece(piece))
}

fn put_stop(at: u32, kind: Undefined, out: &mut Items<Mark>) -> Result<(), AllocError>
    ensures { OnOk result (out.new ≡ out.old ++ marks.one_stop at kind) }
{
    out.push(Mark::Stop { at, kind })?;
    Ok(())
}

fn put_site(
    alloc: Global,
    at: u32,
    pieces: &[Piece],
    watched: &[Watched],
    out: &mut Items<Mark>,
) -> Result<(), AllocError>
    ensures { OnOk result (out.new ≡ out.old ++ marks.site_marks at pieces.now watched.now) }
{
    let pieces = copy_pieces(alloc, pieces)?;
    let watched = Items::from_slice(alloc, watched)?;
    out.push(Mark::Log(Site {
        at,
        pieces,
        watched,
    }))?;
    Ok(())
}

fn put_log(
    alloc: Global,
    at: u32,
    pieces: &[Piece],
    watched: &[Watched],
    out: &mut Items<Mark>,
) -> Result<(), AllocError>
    ensures { OnOk result (out.new ≡ out.old ++ marks.log_marks at pieces.now watched.now) }
{
    put_site(alloc, at, pieces, watched, out)?;
    if reads_text(pieces) {
        put_stop(at, Undefined::Dereference, out)?;
    }
    Ok(())
}

fn put_fill(at: u32, fill: &Option<Fill>, out: &mut Items<Mark>) -> Result<(), AllocError>
    ensures { OnOk result (out.new ≡ out.old ++ marks.fill_marks at fill.now) }
{
    match fill {
        Some(_) => {
            put_stop(at, Undefined::Dereference, out)?;
            put_stop(at, Undefined::LiteralWrite, out)
        }
        None => Ok(()),
    }
}

fn put_mark(mark: Mark, out: &mut Items<Mark>) -> Result<(), AllocError>
    ensures { OnOk result (out.new ≡ out.old ++ marks.one_mark mark) }
{
    out.push(mark)?;
    Ok(())
}

fn put_callee(
    alloc: Global,
    at: u32,
    callee: &Callee,
    out: &mut Items<Mark>,
) -> Result<(), AllocError>
    ensures { OnOk result (out.new ≡ out.old ++ marks.callee_marks at callee.now) }
{
    match callee {
        Callee::Body { function } => {
            let function = *function;
            put_mark(Mark::Body { at, function }, out)
        }
        Callee::Log {
            pieces,
            watched,
            ..
        } => put_log(alloc, at, pieces.as_slice(), watched.as_slice(), out),
        Callee::Exit => put_mark(Mark::Exit { at }, out),
        Callee::Abort => put_mark(Mark::Abort { at }, out),
        Callee::Free => put_stop(at, Undefined::Free, out),
        Callee::Outside { fill, .. } => put_fill(at, fill, out),
        Callee::Identity { .. } | Callee::Malloc | Callee::Calloc => Ok(()),
    }
}

/// A call.
pub(crate) fn put_call(
    alloc: Global,
    at: u32,
    callee: &Callee,
    out: &mut Items<Mark>,
) -> Result<(), AllocError>
    ensures { OnOk result (out.new ≡ out.old ++ marks.call_marks at callee.now) }
{
    put_mark(Mark::Call { at }, out)?;
    put_callee(alloc, at, callee, out)
}
