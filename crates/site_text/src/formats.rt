//! The pieces of a format. All fail for want of memory alone.
ghost use Rattle.std.specs.Prelude.{◌≡◌, IfOk};
ghost use Rattle.c_means.specs.Calls.{pieces_or_none};
ghost use Rattle.printf_text.specs.Pieces.{pieces_of};
ghost use Rattle.site_text.specs.Ends as spec;

use plain_data::Bytes;
use printf_text::{FormatFault, Piece, Pieces, parse_format};
use source_sites::LogFormat;
use std::alloc::{AllocError, Global};

/// The pieces of a format's bytes, none where it has none.
fn pieces_or_none(alloc: Global, bytes: &[u8]) -> Result<Pieces, AllocError>
    ensures { IfOk result (λ pieces. pieces ≡ pieces_or_none (pieces_of bytes.now)) }
{
    match parse_format(alloc, bytes) {
        Ok(pieces) => Ok(pieces),
        Err(FormatFault::Unsupported(_)) => Ok(Pieces::new(alloc)),
        Err(FormatFault::Truncated(_)) => Ok(Pieces::new(alloc)),
        Err(FormatFault::Memory) => Err(AllocError),
    }
}

/// The pieces of a format, with the newline that is added.
pub(crate) fn pieces_in(alloc: Global, format: &LogFormat) -> Result<Pieces, AllocError>
    ensures { IfOk result (λ pieces. pieces ≡ spec.pieces_in format.now) }
{
    let mut pieces = pieces_or_none(alloc, format.bytes.as_slice())?;
    if format.newline {
        pieces.push(Piece::Literal(Bytes::from_slice(alloc, b"\n")?))?;
    }
    Ok(pieces)
}
