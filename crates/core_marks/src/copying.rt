//! Copies of the pieces of a format. All fail for want of memory alone.
ghost use Rattle.std.specs.Prelude.{◌≡◌, IfOk};

use plain_data::{Bytes, Items};
use printf_text::{Piece, Pieces};
use std::alloc::{AllocError, Global};

fn copy_piece(alloc: Global, piece: &Piece) -> Result<Piece, AllocError>
    ensures { IfOk result (λ copy. copy ≡ piece.now) }
{
    match piece {
        Piece::Literal(bytes) => {
            let bytes = Bytes::from_slice(alloc, bytes.as_slice())?;
            Ok(Piece::Literal(bytes))
        }
        Piece::Converted(conversion) => Ok(Piece::Converted(*conversion)),
    }
}

pub(crate) fn copy_pieces(alloc: Global, pieces: &[Piece]) -> Result<Pieces, AllocError>
    ensures { IfOk result (λ copy. copy ≡ pieces.now) }
{
    let mut copy = Items::new(alloc);
    'pieces: for piece in pieces {
        let copied = copy_piece(alloc, piece)?;
        copy.push(copied)?;
    }
    Ok(copy)
}
