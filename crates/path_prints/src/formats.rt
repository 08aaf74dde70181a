//! Single pieces of a format.
ghost use Rattle.std.specs.Prelude.{◌≡◌, ◌∷◌, ◌≤◌, [], length, IfOk};
ghost use Rattle.format_match.specs.Splits.{SplitsExactly};
ghost use Rattle.printf_text.specs.Texts.{piece_kinds, size_kinds};
ghost use Rattle.path_prints.specs.Says.{takes_integers as takes_integers_in};

use format_match::{SplitList, splits};
use path_forms::WalkFault;
use plain_data::Bytes;
use printf_text::{Form, Piece, Pieces, Size};
use std::alloc::{AllocError, Global};

/// Whether a piece is bytes that stand for themselves, or converts an integer.
pub(crate) fn takes_integers(piece: &Piece) -> bool
    ensures { result ≡ takes_integers_in piece.now }
{
    match piece {
        Piece::Literal(_) => true,
        Piece::Converted(c) => match c.form {
            Form::Signed(_) | Form::Unsigned(_, _) | Form::Char => true,
            Form::Text | Form::Pointer => false,
        },
    }
}

fn stars(size: Size) -> usize
    ensures { result ≡ length (size_kinds size) }
{
    match size {
        Size::Omitted | Size::Written(_) => 0,
        Size::Star => 1,
    }
}

/// How many arguments a piece takes.
pub(crate) fn wanted(piece: &Piece) -> usize
    ensures { result ≡ length (piece_kinds piece.now) }
{
    match piece {
        Piece::Literal(_) => 0,
        Piece::Converted(c) => stars(c.width) + stars(c.precision) + 1,
    }
}

/// A format of one piece.
fn alone(alloc: Global, piece: &Piece) -> Result<Pieces, AllocError>
    ensures { IfOk result (λ ps. ps ≡ piece.now ∷ []) }
{
    let copy = match piece {
        Piece::Literal(bytes) => Piece::Literal(Bytes::from_slice(alloc, bytes.as_slice())?),
        Piece::Converted(c) => Piece::Converted(*c),
    };
    let mut pieces = Pieces::new(alloc);
    pieces.push(copy)?;
    Ok(pieces)
}

/// All ways in which a piece spells the log from a position on. It fails for want of memory alone.
pub(crate) fn splits_of<'a>(
    alloc: Global,
    piece: &Piece,
    log: &'a [u8],
    from: usize,
) -> Result<SplitList<'a>, WalkFault>
    requires { from ≤ length log.now }
    ensures { IfOk result (λ list. SplitsExactly (piece.now ∷ []) log.now from list) }
{
    let pieces = alone(alloc, piece)?;
    match splits(alloc, &pieces, log, from) {
        Ok(list) => Ok(list),
        Err(_) => Err(WalkFault::Memory),
    }
}
