//! From which positions a piece leads to marked ones, over all positions of a log at once.
ghost use Rattle.std.specs.Prelude.{◌≡◌, ◌≤◌, ◌<◌, ◌+◌, ◌↔◌, ◌&&◌, ◌||◌, ℕ, true, false, length, vec_len, take, IfOk};
ghost use Rattle.format_match.specs.Beginning.{is_marked, CanBeEmpty, IsPrinted, Leads, LeadExactly};
ghost use Rattle.format_match.specs.Spelled.{plain_text, is_printed};
ghost use Rattle.printf_text.specs.declared.piece.Flags.{Flags};

use crate::ending::{is_plain_text, is_printed};
use crate::matching::begins;
use crate::reaching::reach;
use crate::split::SplitList;
use crate::stars::push_conversion;
use plain_data::Bytes;
use printf_text::{Conversion, Piece};
use std::alloc::{AllocError, Global};

/// Whether a mark stands at a position.
pub fn is_marked(marks: &[bool], at: usize) -> bool
    ensures { result ≡ is_marked marks.now at }
{
    at < marks.len() && marks[at]
}

/// No mark at so many positions.
pub fn no_marks(alloc: Global, len: usize) -> Result<Vec<bool>, AllocError>
    ensures len { IfOk result (λ marks. length marks.items ≡ len) }
    ensures vec { IfOk result (λ marks. vec_len marks ≡ len) }
    ensures none { IfOk result (λ marks. (y : ℕ) → is_marked marks.items y ≡ false) }
{
    let mut marks = Vec::new(alloc);
    'positions: for _position in 0..len {
        marks.push(false)?;
    }
    Ok(marks)
}

/// A mark at each of so many positions.
pub fn all_marks(alloc: Global, len: usize) -> Result<Vec<bool>, AllocError>
    ensures { IfOk result (λ marks. (y : ℕ) → (is_marked marks.items y ≡ true) ↔ (y < len)) }
{
    let mut marks = Vec::new(alloc);
    'positions: for _position in 0..len {
        marks.push(true)?;
    }
    Ok(marks)
}

/// Whether some arguments of the conversion's kinds print these bytes.
fn prints_some(alloc: Global, c: &Conversion, slice: &[u8]) -> Result<bool, AllocError>
    ensures { IfOk result (λ b. (b ≡ true) ↔ IsPrinted c.now slice.now) }
{
    let mut ways = SplitList::new(alloc);
    push_conversion(alloc, &mut ways, c, slice, 0)?;
    Ok(!ways.as_slice().is_empty())
}

/// Whether some arguments of the piece's kinds spell no byte.
pub fn can_be_empty(alloc: Global, piece: &Piece) -> Result<bool, AllocError>
    ensures { IfOk result (λ b. (b ≡ true) ↔ CanBeEmpty piece.now) }
{
    match piece {
        Piece::Literal(bytes) => Ok(bytes.as_slice().is_empty()),
        Piece::Converted(c) => prints_some(alloc, c, b""),
    }
}

/// Whether a conversion prints so many of the bytes, and a mark stands at its end.
fn converts_by(
    alloc: Global,
    c: &Conversion,
    rest: &[u8],
    len: usize,
    marks: &[bool],
    end: usize,
) -> Result<bool, AllocError>
    requires { len ≤ length rest.now }
    ensures { IfOk result (λ b. (b ≡ true) ↔ (is_marked marks.now end ≡ true) × IsPrinted c.now (take len rest.now)) }
{
    if !is_marked(marks, end) {
        return Ok(false);
    }
    let printed = prints_some(alloc, c, rest.split_at(len).0)?;
    Ok(printed)
}

/// Whether a conversion spells so many bytes at least from a position on, and ends at a mark.
fn converts(
    alloc: Global,
    c: &Conversion,
    log: &[u8],
    from: usize,
    least: usize,
    marks: &[bool],
) -> Result<bool, AllocError>
    requires { from ≤ length log.now }
    ensures { IfOk result (λ b. (b ≡ true) ↔ Leads (Piece.Converted c.now) log.now marks.now least from) }
{
    let rest = log.split_at(from).1;
    let most = reach(c, rest);
    'lengths: for len in least..most + 1 {
        if converts_by(alloc, c, rest, len, marks, from + len)? {
            return Ok(true);
        }
    }
    Ok(false)
}

/// Whether bytes that stand for themselves stand at a position, so many at least, and a mark behind them.
fn stands(bytes: &Bytes, log: &[u8], from: usize, least: usize, marks: &[bool]) -> bool
    requires { from ≤ length log.now }
    ensures { (result ≡ true) ↔ Leads (Piece.Literal bytes.now) log.now marks.now least from }
{
    let text = bytes.as_slice();
    if text.len() < least {
        return false;
    }
    if !is_marked(marks, from + text.len()) {
        return false;
    }
    begins(text, log.split_at(from).1)
}

/// Whether a piece spells so many bytes at least from a position on, and ends at a mark.
fn leads(
    alloc: Global,
    piece: &Piece,
    log: &[u8],
    from: usize,
    least: usize,
    marks: &[bool],
) -> Result<bool, AllocError>
    requires { from ≤ length log.now }
    ensures { IfOk result (λ b. (b ≡ true) ↔ Leads piece.now log.now marks.now least from) }
{
    match piece {
        Piece::Literal(bytes) => {
            let leads = stands(bytes, log, from, least, marks);
            Ok(leads)
        }
        Piece::Converted(c) => converts(alloc, c, log, from, least, marks),
    }
}

/// From where a piece leads to a mark.
fn leading_piece(
    alloc: Global,
    piece: &Piece,
    log: &[u8],
    marks: &[bool],
) -> Result<Vec<bool>, AllocError>
    ensures { IfOk result (λ before. LeadExactly piece.now log.now marks.now 0 before.items) }
{
    let mut before = Vec::new(alloc);
    'positions: for from in 0..log.len() + 1 {
        let leads = leads(alloc, piece, log, from, 0, marks)?;
        before.push(leads)?;
    }
    Ok(before)
}

/// Whether a text that begins at a position leads to a mark, where it is known of the next one.
fn text_leads(marks: &[bool], log: &[u8], before: &[bool], at: usize) -> bool
    requires { at < length before.now }
    ensures { result ≡ (is_marked marks.now at || (is_printed log.now at && is_marked before.now (at + 1))) }
{
    is_marked(marks, at) || (is_printed(log, at) && is_marked(before, at + 1))
}

/// From where `%s` leads to a mark.
fn leading_text(alloc: Global, log: &[u8], marks: &[bool]) -> Result<Vec<bool>, AllocError>
    ensures { IfOk result (λ before. (flags : Flags) → LeadExactly (Piece.Converted (plain_text flags)) log.now marks.now 0 before.items) }
{
    let mut before = no_marks(alloc, log.len() + 1)?;
    let mut at = log.len() + 1;
    'positions: while at > 0 {
        at -= 1;
        let leads = text_leads(marks, log, before.as_slice(), at);
        before[at] = leads;
    }
    Ok(before)
}

/// From where a piece leads to a mark.
pub fn leading(
    alloc: Global,
    piece: &Piece,
    log: &[u8],
    marks: &[bool],
) -> Result<Vec<bool>, AllocError>
    ensures { IfOk result (λ before. LeadExactly piece.now log.now marks.now 0 before.items) }
{
    if is_plain_text(piece) {
        let before = leading_text(alloc, log, marks)?;
        return Ok(before);
    }
    leading_piece(alloc, piece, log, marks)
}

/// Whether a text that isn't empty begins at a position and leads to a mark, where it is known of the next one.
fn text_leads_on(log: &[u8], before: &[bool], at: usize) -> bool
    requires { at ≤ length log.now }
    ensures { result ≡ (is_printed log.now at && is_marked before.now (at + 1)) }
{
    is_printed(log, at) && is_marked(before, at + 1)
}

/// Whether a piece spells what isn't empty from a position on, and ends at a mark, where it is known from where it leads
/// to a mark at all.
fn leads_on(
    alloc: Global,
    piece: &Piece,
    log: &[u8],
    from: usize,
    marks: &[bool],
    before: &[bool],
) -> Result<bool, AllocError>
    requires from { from ≤ length log.now }
    requires before { LeadExactly piece.now log.now marks.now 0 before.now }
    ensures { IfOk result (λ b. (b ≡ true) ↔ Leads piece.now log.now marks.now 1 from) }
{
    if is_plain_text(piece) {
        return Ok(text_leads_on(log, before, from));
    }
    if !is_marked(before, from) {
        return Ok(false);
    }
    let leads = leads(alloc, piece, log, from, 1, marks)?;
    Ok(leads)
}

/// From where a piece leads to a mark by what isn't empty, where it is known from where it leads to a mark at all.
pub fn leading_on(
    alloc: Global,
    piece: &Piece,
    log: &[u8],
    marks: &[bool],
    before: &[bool],
) -> Result<Vec<bool>, AllocError>
    requires { LeadExactly piece.now log.now marks.now 0 before.now }
    ensures { IfOk result (λ on. LeadExactly piece.now log.now marks.now 1 on.items) }
{
    let mut on = Vec::new(alloc);
    'positions: for from in 0..log.len() + 1 {
        let leads = leads_on(alloc, piece, log, from, marks, before)?;
        on.push(leads)?;
    }
    Ok(on)
}

/// Whether the first mark stands at a position, or the second where it counts.
fn is_in_either(xs: &[bool], ys: &[bool], counts: bool, at: usize) -> bool
    ensures { result ≡ (is_marked xs.now at || (counts && is_marked ys.now at)) }
{
    is_marked(xs, at) || counts && is_marked(ys, at)
}

/// Marks where the first stand, and the second where they count, up to a position.
pub fn either(
    alloc: Global,
    xs: &[bool],
    ys: &[bool],
    counts: bool,
    len: usize,
) -> Result<Vec<bool>, AllocError>
    ensures { IfOk result (λ all. (y : ℕ) → (is_marked all.items y ≡ true) ↔ (y < len) × ((is_marked xs.now y || (counts && is_marked ys.now y)) ≡ true)) }
{
    let mut all = Vec::new(alloc);
    'positions: for at in 0..len {
        let mark = is_in_either(xs, ys, counts, at);
        all.push(mark)?;
    }
    Ok(all)
}
