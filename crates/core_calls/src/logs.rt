//! Log calls: the pieces of their formats, and the integer types of their arguments.
ghost use Rattle.std.specs.Prelude.{◌≡◌, IfOk};
ghost use Rattle.c_means.specs.Values.{class_in};
ghost use Rattle.c_means.specs.Calls as calls;
ghost use Rattle.elaborate.specs.Callees as callees;
ghost use Rattle.elaborate.specs.Types as types;
ghost use Rattle.core_calls.specs.Calling as spec;

use c_language::{CType, Class, IntegerKind};
use c_means::LogText;
use core_tree::WordType;
use elaborate::word_type;
use plain_data::{Bytes, Items};
use printf_text::{FormatFault, Piece, Pieces, parse_format};
use std::alloc::{AllocError, Global};

/// The pieces of a format; of one that has a fault, as no accepted program's has, there is none.
fn pieces_or_none(alloc: Global, format: &[u8]) -> Result<Pieces, AllocError>
    ensures { IfOk result (λ pieces. pieces ≡ spec.pieces_of_format format.now) }
{
    match parse_format(alloc, format) {
        Ok(pieces) => Ok(pieces),
        Err(FormatFault::Memory) => Err(AllocError),
        Err(FormatFault::Unsupported { .. }) => Ok(Pieces::new(alloc)),
        Err(FormatFault::Truncated { .. }) => Ok(Pieces::new(alloc)),
    }
}

fn literal_at(texts: &[Option<Bytes>], index: u32) -> &[u8]
    ensures { result.now ≡ calls.literal_at texts.now index }
{
    match texts.get(index as usize) {
        Some(Some(bytes)) => bytes.as_slice(),
        _ => b"".as_slice(),
    }
}

/// The pieces of a log call's format, with the newline that its function puts behind, by the texts of the call's
/// arguments that are string literals. It fails for want of memory alone.
pub fn log_pieces(
    alloc: Global,
    text: &LogText,
    texts: &[Option<Bytes>],
) -> Result<Pieces, AllocError>
    ensures { IfOk result (λ pieces. pieces ≡ spec.log_pieces_of text.now texts.now) }
{
    match text {
        LogText::Format { index, newline } => {
            let mut pieces = pieces_or_none(alloc, literal_at(texts, *index))?;
            if *newline {
                let end = Bytes::from_slice(alloc, b"\n".as_slice())?;
                pieces.push(Piece::Literal(end))?;
            }
            Ok(pieces)
        }
        LogText::Text { format } => pieces_or_none(alloc, format.as_slice()),
    }
}

/// How many arguments of a log call stand before those of its format.
pub fn arguments_before(text: &LogText) -> u64
    ensures { result ≡ calls.before_format text.now }
{
    match text {
        LogText::Format { index, .. } => u64::from(*index) + 1,
        LogText::Text { .. } => 0,
    }
}

/// The integer type of an argument; what has none is taken as an `int`.
fn word_of(ctype: &Option<CType>) -> WordType
    ensures { result ≡ types.word_type (calls.kind_or_int (class_in ctype.now)) }
{
    match ctype {
        Some(ctype) => match ctype.class() {
            Class::Integer(kind) => word_type(kind),
            _ => word_type(IntegerKind::Int),
        },
        None => word_type(IntegerKind::Int),
    }
}

/// The integer types of arguments, by the types to which they are converted. It fails for want of memory alone.
pub fn word_types(alloc: Global, ctypes: &[Option<CType>]) -> Result<Items<WordType>, AllocError>
    ensures { IfOk result (λ ts. ts ≡ callees.word_types ctypes.now) }
{
    let mut all = Items::new(alloc);
    for ctype in ctypes {
        all.push(word_of(ctype))?;
    }
    Ok(all)
}
