//! Where a format ends that spells a log from a position on: piece by piece, over the positions that are reached.
ghost use Rattle.std.specs.Prelude.{◌≡◌, ◌≤◌, ◌<◌, ◌+◌, ◌^◌, ◌&&◌, ◌||◌, ℕ, nat_lt, nat_eq, true, false, length, vec_len, slice_index_or, OnOk, IfOk};
ghost use Rattle.positions.specs.Sets.{has, are_before};
ghost use Rattle.format_match.specs.Spelled.{AddsEnds, EndsBehind, EndsExactly, AreWithin, AreBelow, is_printed, may_end, is_plain_text, has_no_sizes, is_text};

use crate::matching::{MatchFault, begins, conversion_splits};
use plain_data::Bytes;
use positions::Positions;
use printf_text::{Conversion, Form, Piece, Pieces, Size};
use std::alloc::{AllocError, Global};

/// Puts the end of bytes that stand for themselves in, where they stand at a position.
fn put_literal_end(
    out: &mut Positions,
    bytes: &Bytes,
    log: &[u8],
    from: usize,
) -> Result<(), AllocError>
    requires { from ≤ length log.now }
    ensures { OnOk result (AddsEnds (Piece.Literal bytes.now) log.now from out.old out.new) }
{
    let rest = log.split_at(from).1;
    if !begins(bytes.as_slice(), rest) {
        return Ok(());
    }
    out.put(from + bytes.len())?;
    Ok(())
}

/// Puts the ends of a conversion that begins at a position in.
fn put_converted_ends(
    alloc: Global,
    out: &mut Positions,
    c: &Conversion,
    log: &[u8],
    from: usize,
) -> Result<(), AllocError>
    requires { from ≤ length log.now }
    ensures { OnOk result (AddsEnds (Piece.Converted c.now) log.now from out.old out.new) }
{
    let splits = conversion_splits(alloc, c, b"", log, from)?;
    'splits: for split in splits.as_slice() {
        out.put(split.end)?;
    }
    Ok(())
}

/// Puts the ends of a piece that begins at a position in.
fn put_ends(
    alloc: Global,
    out: &mut Positions,
    piece: &Piece,
    log: &[u8],
    from: usize,
) -> Result<(), AllocError>
    requires { from ≤ length log.now }
    ensures { OnOk result (AddsEnds piece.now log.now from out.old out.new) }
{
    match piece {
        Piece::Literal(bytes) => put_literal_end(out, bytes, log, from),
        Piece::Converted(c) => put_converted_ends(alloc, out, c, log, from),
    }
}

/// Whether a piece is `%s` without width and precision.
pub(crate) fn is_plain_text(piece: &Piece) -> bool
    ensures { result ≡ is_plain_text piece.now }
{
    match piece {
        Piece::Literal(_) => false,
        Piece::Converted(c) => has_no_sizes(c.width, c.precision) && is_text(c.form),
    }
}

/// Whether neither a width nor a precision is written.
fn has_no_sizes(width: Size, precision: Size) -> bool
    ensures { result ≡ has_no_sizes width precision }
{
    match width {
        Size::Omitted => match precision {
            Size::Omitted => true,
            Size::Written(_) | Size::Star => false,
        },
        Size::Written(_) | Size::Star => false,
    }
}

/// Whether a form is that of texts.
fn is_text(form: Form) -> bool
    ensures { result ≡ is_text form }
{
    match form {
        Form::Text => true,
        Form::Signed(_) | Form::Unsigned(_, _) | Form::Char | Form::Pointer => false,
    }
}

/// Which positions up to the log's end are some of these.
fn marks_of(alloc: Global, before: &Positions, len: usize) -> Result<Vec<bool>, AllocError>
    requires { AreBelow len before.now }
    ensures len { IfOk result (λ marks. vec_len marks ≡ len) }
    ensures marks { IfOk result (λ marks. (y : ℕ) → slice_index_or marks.items y false ≡ has before.now y) }
{
    let mut marks = Vec::new(alloc);
    'positions: for _position in 0..len {
        marks.push(false)?;
    }
    'marked: for position in before.as_slice() {
        marks[*position] = true;
    }
    Ok(marks)
}

/// Whether a byte of the log that a text may hold stands here.
pub(crate) fn is_printed(log: &[u8], at: usize) -> bool
    ensures { result ≡ is_printed log.now at }
{
    at < log.len() && log[at] != 0
}

/// Whether a text that goes on, or begins at a mark, may end here.
fn may_end(goes_on: bool, marks: &[bool], at: usize) -> bool
    requires { at < length marks.now }
    ensures { result ≡ (goes_on || slice_index_or marks.now at false) }
{
    goes_on || marks[at]
}

/// Whether a text that may end here may go on behind.
fn may_go_on(may_end: bool, log: &[u8], at: usize) -> bool
    ensures { result ≡ (may_end && is_printed log.now at) }
{
    may_end && is_printed(log, at)
}

/// Puts a position behind all others, where it is wanted.
pub(crate) fn push_where(ends: &mut Positions, at: usize, wanted: bool) -> Result<(), AllocError>
    requires { are_before at ends.old ≡ true }
    ensures has { OnOk result ((y : ℕ) → has ends.new y ≡ (has ends.old y || (wanted && nat_eq at y))) }
    ensures below { OnOk result (are_before (at + 1) ends.new ≡ true) }
{
    if wanted {
        ends.push(at)?;
    }
    Ok(())
}

/// Where `%s` ends from some of these positions on: at each position up to the first byte 0.
fn texts_behind(alloc: Global, before: &Positions, log: &[u8]) -> Result<Positions, AllocError>
    requires { AreWithin log.now before.now }
    ensures { IfOk result (λ ends. (y : ℕ) → has ends y ≡ (nat_lt y (length log.now + 1) && may_end before.now log.now y)) }
{
    let marks = marks_of(alloc, before, log.len() + 1)?;
    let mut ends = Positions::new(alloc);
    let mut goes_on = false;
    'positions: for at in 0..log.len() + 1 {
        let wanted = may_end(goes_on, marks.as_slice(), at);
        push_where(&mut ends, at, wanted)?;
        goes_on = may_go_on(wanted, log, at);
    }
    Ok(ends)
}

/// Whether one sweep over the log finds where a piece ends: a text that begins somewhere.
fn is_swept(piece: &Piece, before: &Positions) -> bool
    ensures { result ≡ true → is_plain_text piece.now ≡ true }
{
    if before.is_empty() {
        return false;
    }
    is_plain_text(piece)
}

/// Where a piece ends from some of these positions on.
fn behind(
    alloc: Global,
    before: &Positions,
    piece: &Piece,
    log: &[u8],
) -> Result<Positions, AllocError>
    requires { AreWithin log.now before.now }
    ensures { IfOk result (λ ends. EndsBehind piece.now log.now before.now ends) }
{
    if is_swept(piece, before) {
        let ends = texts_behind(alloc, before, log)?;
        return Ok(ends);
    }
    let mut ends = Positions::new(alloc);
    'starts: for from in before.as_slice() {
        put_ends(alloc, &mut ends, piece, log, *from)?;
    }
    Ok(ends)
}

fn all_ends(
    alloc: Global,
    pieces: &[Piece],
    log: &[u8],
    from: usize,
) -> Result<Positions, AllocError>
    requires { from ≤ length log.now }
    ensures { IfOk result (λ ends. EndsExactly pieces.now log.now from ends) }
{
    let mut ends = Positions::one(alloc, from)?;
    'pieces: for piece in pieces {
        ends = behind(alloc, &ends, piece, log)?;
    }
    Ok(ends)
}

/// Exactly the ends that some arguments of the pieces' kinds reach, which spell the log from a position on, in
/// ascending order. It fails for want of memory alone.
pub fn ends(
    alloc: Global,
    pieces: &Pieces,
    log: &[u8],
    from: usize,
) -> Result<Positions, MatchFault>
    requires { from ≤ length log.now }
    ensures { IfOk result (λ ends. EndsExactly pieces.now log.now from ends) }
{
    match all_ends(alloc, pieces.as_slice(), log, from) {
        Ok(ends) => Ok(ends),
        Err(_) => Err(MatchFault::Memory),
    }
}
