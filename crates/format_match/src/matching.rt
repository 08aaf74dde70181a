ghost use Rattle.std.specs.Prelude.{◌≡◌, ◌++◌, ◌∷◌, [], ◌≤◌, ◌<◌, ◌+◌, ◌^◌, take, drop, length, map, ℕ, ℤ, List, true, false, ◌==◌, All, OnOk, IfOk};
ghost use Rattle.std.specs.List.{list_any};
ghost use Rattle.printf_text.specs.Texts.{conversion_kinds, conversion_text, kinds, text_of, formed};
ghost use Rattle.printf_text.specs.declared.piece.Flags.{Flags};
ghost use Rattle.printf_text.specs.declared.piece.Arg.{Arg};
ghost use Rattle.format_match.specs.Splits.{begins, conversion_marks, marks, SplitsExactly};
ghost use Rattle.format_match.specs.Ways.{Adds, Describes, AddsAfter, Follows, ends_of, here, followed, kept_ends, kept_here, next_literal, Moves};

use crate::reaching::reach;
use crate::split::{Constraints, Split, SplitList, joined};
use crate::stars::push_conversion;
use plain_data::Bytes;
use printf_text::{Conversion, Piece, Pieces};
use std::alloc::{AllocError, Global};
use thiserror::Error;

/// Why no splits were answered.
#[derive(Clone, Copy, Debug, PartialEq, Eq, Drop, Error)]
pub enum MatchFault {
    /// Memory ran out.
    #[error("out of memory")]
    Memory,
}

/// Whether the second text begins with the first.
pub fn begins(text: &[u8], bytes: &[u8]) -> bool
    ensures { result ≡ begins text.now bytes.now }
{
    if bytes.len() < text.len() {
        return false;
    }
    text == bytes.split_at(text.len()).0
}

/// Puts the splits of one conversion that take so many of the bytes from a position on at the end, where
/// the next bytes follow.
fn push_length<'a>(
    alloc: Global,
    out: &mut SplitList<'a>,
    c: &Conversion,
    next: &[u8],
    rest: &'a [u8],
    from: usize,
    len: usize,
) -> Result<(), AllocError>
    requires within { len ≤ length rest.now }
    requires fits { from + len < 2 ^ 64 }
    ensures { OnOk result (Adds (conversion_kinds c.now) (conversion_marks c.now) (λ args. kept_here next.now (drop len rest.now) (here (conversion_text c.now args) (take len rest.now) (from + len))) out.old out.new) }
{
    let (slice, tail) = rest.split_at(len);
    if !begins(next, tail) {
        return Ok(());
    }
    push_conversion(alloc, out, c, slice, from + len)?;
    Ok(())
}

/// The splits of one conversion from a position on that the next bytes follow.
pub fn conversion_splits<'a>(
    alloc: Global,
    c: &Conversion,
    next: &[u8],
    log: &'a [u8],
    from: usize,
) -> Result<SplitList<'a>, AllocError>
    requires { from ≤ length log.now }
    ensures { IfOk result (λ out. Describes (conversion_kinds c.now) (conversion_marks c.now) (λ args. kept_ends next.now log.now (ends_of (conversion_text c.now args) log.now from)) out) }
{
    let mut out = SplitList::new(alloc);
    let rest = log.split_at(from).1;
    let most = reach(c, rest);
    'lengths: for len in 0..most + 1 {
        push_length(alloc, &mut out, c, next, rest, from, len)?;
    }
    Ok(out)
}

/// Puts a split after another at the end.
fn push_joined<'a>(
    alloc: Global,
    out: &mut SplitList<'a>,
    before: &Split<'a>,
    after: Split<'a>,
) -> Result<(), AllocError>
    ensures { OnOk result (out.new ≡ out.old ++ followed before.now after.entry ∷ []) }
{
    let Split { end, constraints } = after;
    let constraints = joined(alloc, &before.constraints, constraints)?;
    out.push(Split { end, constraints })?;
    Ok(())
}

/// Puts what follows a split by the splits of one conversion at the end.
fn push_followed<'a>(
    alloc: Global,
    out: &mut SplitList<'a>,
    before: &Split<'a>,
    after: SplitList<'a>,
) -> Result<(), AllocError>
    ensures { OnOk result (out.new ≡ out.old ++ map (followed before.now) after.entry) }
{
    'splits: for split in after.into_vec() {
        push_joined(alloc, out, before, split)?;
    }
    Ok(())
}

/// Puts a split, moved on by so many bytes, at the end, where the next bytes follow.
fn push_moved<'a>(
    out: &mut SplitList<'a>,
    before: Split<'a>,
    len: usize,
    next: &[u8],
    log: &[u8],
) -> Result<(), AllocError>
    requires { before.end + len ≤ length log.now }
    ensures { OnOk result (Moves next.now log.now len before.entry out.old out.new) }
{
    let Split { end, constraints } = before;
    let end = end + len;
    if !begins(next, log.split_at(end).1) {
        return Ok(());
    }
    out.push(Split { end, constraints })?;
    Ok(())
}

/// Puts what follows a split by bytes that stand for themselves at the end, where the next bytes follow.
fn push_literal<'a>(
    out: &mut SplitList<'a>,
    before: Split<'a>,
    bytes: &Bytes,
    next: &[u8],
    log: &[u8],
) -> Result<(), AllocError>
    requires { before.end ≤ length log.now }
    ensures { OnOk result (AddsAfter next.now (Piece.Literal bytes.now) log.now before.entry out.old out.new) }
{
    let Split { end, constraints } = before;
    let rest = log.split_at(end).1;
    if !begins(bytes.as_slice(), rest) {
        return Ok(());
    }
    push_moved(out, Split { end, constraints }, bytes.len(), next, log)?;
    Ok(())
}

/// Puts what follows a split by a conversion at the end, where the next bytes follow.
fn push_converted<'a>(
    alloc: Global,
    out: &mut SplitList<'a>,
    before: Split<'a>,
    c: &Conversion,
    next: &[u8],
    log: &'a [u8],
) -> Result<(), AllocError>
    requires { before.end ≤ length log.now }
    ensures { OnOk result (AddsAfter next.now (Piece.Converted c.now) log.now before.entry out.old out.new) }
{
    let after = conversion_splits(alloc, c, next, log, before.end)?;
    push_followed(alloc, out, &before, after)?;
    Ok(())
}

/// Puts what follows a split by one piece at the end, where the next bytes follow.
fn push_piece<'a>(
    alloc: Global,
    out: &mut SplitList<'a>,
    before: Split<'a>,
    piece: &Piece,
    next: &[u8],
    log: &'a [u8],
) -> Result<(), AllocError>
    requires { before.end ≤ length log.now }
    ensures { OnOk result (AddsAfter next.now piece.now log.now before.entry out.old out.new) }
{
    match piece {
        Piece::Literal(bytes) => push_literal(out, before, bytes, next, log),
        Piece::Converted(c) => push_converted(alloc, out, before, c, next, log),
    }
}

/// The splits of pieces that end with this one and that the next bytes follow, from those of the pieces
/// before it.
fn through<'a>(
    alloc: Global,
    before: SplitList<'a>,
    piece: &Piece,
    next: &[u8],
    log: &'a [u8],
) -> Result<SplitList<'a>, AllocError>
    requires { All (λ s. s.end ≤ length log.now) before }
    ensures { IfOk result (λ out. Follows next.now piece.now log.now before.entry out) }
{
    let mut out = SplitList::new(alloc);
    'splits: for split in before.into_vec() {
        push_piece(alloc, &mut out, split, piece, next, log)?;
    }
    Ok(out)
}

/// The bytes of a literal.
fn literal_bytes(piece: &Piece) -> &[u8]
    ensures { result.now ≡ next_literal (piece.now ∷ []) }
{
    match piece {
        Piece::Literal(bytes) => bytes.as_slice(),
        Piece::Converted(_) => b"",
    }
}

/// The bytes that must stand where the piece at an index begins.
fn next_literal(pieces: &[Piece], index: usize) -> &[u8]
    ensures { result.now ≡ next_literal (drop index pieces.now) }
{
    if index >= pieces.len() {
        return b"";
    }
    literal_bytes(&pieces[index])
}

/// The split before all pieces, where the next bytes follow.
fn start<'a>(
    alloc: Global,
    next: &[u8],
    log: &'a [u8],
    from: usize,
) -> Result<SplitList<'a>, AllocError>
    requires { from ≤ length log.now }
    ensures { IfOk result (λ out. Describes [] [] (λ args. kept_ends next.now log.now (ends_of [] log.now from)) out) }
{
    let mut splits = SplitList::new(alloc);
    if !begins(next, log.split_at(from).1) {
        return Ok(splits);
    }
    splits.push(Split {
        end: from,
        constraints: Constraints::new(alloc),
    })?;
    Ok(splits)
}

fn all_splits<'a>(
    alloc: Global,
    pieces: &[Piece],
    log: &'a [u8],
    from: usize,
) -> Result<SplitList<'a>, AllocError>
    requires { from ≤ length log.now }
    ensures { IfOk result (λ out. Describes (kinds pieces.now) (marks pieces.now) (λ args. ends_of (text_of pieces.now args) log.now from) out) }
{
    let first = next_literal(pieces, 0);
    let started = start(alloc, first, log, from)?;
    let mut splits = started;
    'pieces: for index in 0..pieces.len() {
        let next = next_literal(pieces, index + 1);
        splits = through(alloc, splits, &pieces[index], next, log)?;
    }
    Ok(splits)
}

/// All ways in which the pieces of a format spell the log from a position on, with what each says of the
/// arguments. It fails for want of memory alone.
pub fn splits<'a>(
    alloc: Global,
    pieces: &Pieces,
    log: &'a [u8],
    from: usize,
) -> Result<SplitList<'a>, MatchFault>
    requires { from ≤ length log.now }
    ensures { IfOk result (λ list. SplitsExactly pieces.now log.now from list) }
{
    match all_splits(alloc, pieces.as_slice(), log, from) {
        Ok(splits) => Ok(splits),
        Err(_) => Err(MatchFault::Memory),
    }
}
