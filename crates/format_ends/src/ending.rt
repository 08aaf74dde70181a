//! Where a format can end along one log, from many positions: piece by piece, over the positions that are reached.
ghost use Rattle.std.specs.Prelude.{◌≡◌, ◌≤◌, ◌&&◌, ◌∷◌, [], ◌++◌, ℕ, true, length, IfOk, OnOk};
ghost use Rattle.positions.specs.Sets.{has};
ghost use Rattle.format_match.specs.Spelled.{AreWithin, EndsBehind, EndsExactly, is_plain_text, has_no_sizes};
ghost use Rattle.format_ends.specs.Found.{AreParts, AreTexts, IsPart, IsReadyFor, LeadsTo, positions_of};

use crate::literals::literal_ends;
use crate::parts::{Part, converted_ends, is_text, parts_of};
use crate::texts::{Texts, ends_at_stops, texts_of};
use format_match::MatchFault;
use plain_data::Bytes;
use positions::Positions;
use printf_text::{Conversion, Piece, Pieces, Size};
use std::alloc::{AllocError, Global};

/// The positions that are reached: these, or where texts end that begin at some of them.
#[derive(Drop)]
struct Reached {
    before: Positions,
    text: bool,
}

/// Whether neither a width nor a precision is written.
fn has_no_sizes(width: Size, precision: Size) -> bool
    ensures { result ≡ has_no_sizes width precision }
{
    match width {
        Size::Omitted => match precision {
            Size::Omitted => true,
            Size::Written(_) | Size::Star => false,
        },
        Size::Written(_) | Size::Star => false,
    }
}

/// Whether a conversion is `%s` without width and precision.
fn is_plain_text(c: Conversion) -> bool
    ensures { result ≡ is_plain_text (Piece.Converted c) }
{
    has_no_sizes(c.width, c.precision) && is_text(c.form)
}

/// The positions that are reached, one by one.
fn each(alloc: Global, log: &[u8], texts: &Texts, from: Reached) -> Result<Positions, AllocError>
    requires { AreTexts log.now texts.now }
    ensures { IfOk result (λ ends. (y : ℕ) → has ends y ≡ has (positions_of log.now from) y) }
{
    if from.text {
        let ends = ends_at_stops(alloc, log, texts, &from.before, &texts.all, 0)?;
        return Ok(ends);
    }
    Ok(from.before)
}

/// Where a literal ends that begins at some of these positions.
fn behind_literal(
    alloc: Global,
    log: &[u8],
    texts: &Texts,
    part: &Part,
    bytes: &Bytes,
    from: Reached,
) -> Result<Positions, AllocError>
    requires texts { AreTexts log.now texts.now }
    requires part { IsPart (Piece.Literal bytes.now) log.now part.now }
    requires within { AreWithin log.now (positions_of log.now from) }
    ensures { IfOk result (EndsBehind (Piece.Literal bytes.now) log.now (positions_of log.now from)) }
{
    if from.text {
        let len = bytes.len();
        let ends = ends_at_stops(alloc, log, texts, &from.before, &part.stops, len)?;
        return Ok(ends);
    }
    let ends = literal_ends(alloc, &from.before, bytes, log)?;
    Ok(ends)
}

/// Where a conversion ends that begins at some of these positions.
fn behind_conversion(
    alloc: Global,
    log: &[u8],
    texts: &Texts,
    part: &mut Part,
    c: Conversion,
    from: Reached,
) -> Result<Reached, AllocError>
    requires texts { AreTexts log.now texts.now }
    requires part { IsPart (Piece.Converted c) log.now part.old }
    requires within { AreWithin log.now (positions_of log.now from) }
    ensures ends { IfOk result (LeadsTo (Piece.Converted c) log.now from) }
    ensures part { OnOk result (IsPart (Piece.Converted c) log.now part.new) }
{
    if is_plain_text(c) {
        let before = from.before;
        return Ok(Reached { before, text: true });
    }
    let before = each(alloc, log, texts, from)?;
    let before = converted_ends(alloc, &mut part.known, &before, c, log)?;
    Ok(Reached {
        before,
        text: false,
    })
}

/// Where a piece ends that begins at some of these positions.
fn behind(
    alloc: Global,
    log: &[u8],
    texts: &Texts,
    part: &mut Part,
    piece: &Piece,
    from: Reached,
) -> Result<Reached, AllocError>
    requires texts { AreTexts log.now texts.now }
    requires part { IsPart piece.now log.now part.old }
    requires within { AreWithin log.now (positions_of log.now from) }
    ensures ends { IfOk result (LeadsTo piece.now log.now from) }
    ensures part { OnOk result (IsPart piece.now log.now part.new) }
{
    match piece {
        Piece::Literal(bytes) => {
            let before = behind_literal(alloc, log, texts, part, bytes, from)?;
            Ok(Reached {
                before,
                text: false,
            })
        }
        Piece::Converted(c) => {
            let ends = behind_conversion(alloc, log, texts, part, *c, from)?;
            Ok(ends)
        }
    }
}

fn all_ends(
    alloc: Global,
    texts: &Texts,
    parts: &mut [Part],
    pieces: &[Piece],
    log: &[u8],
    from: usize,
) -> Result<Positions, AllocError>
    requires texts { AreTexts log.now texts.now }
    requires parts { AreParts pieces.now log.now parts.old }
    requires within { from ≤ length log.now }
    ensures ends { IfOk result (EndsExactly pieces.now log.now from) }
    ensures parts { OnOk result (AreParts pieces.now log.now parts.new) }
{
    let before = Positions::one(alloc, from)?;
    let mut reached = Reached {
        before,
        text: false,
    };
    'pieces: for (index, piece) in pieces.iter().enumerate() {
        reached = behind(alloc, log, texts, &mut parts[index], piece, reached)?;
    }
    let ends = each(alloc, log, texts, reached)?;
    Ok(ends)
}

/// A format made ready to be read along one log from many positions: each call is given the pieces and the log for
/// which it was made ready.
#[derive(Drop)]
pub struct FormatEnds {
    texts: Texts,
    parts: Vec<Part>,
}

fn made_ready(alloc: Global, pieces: &[Piece], log: &[u8]) -> Result<FormatEnds, AllocError>
    ensures { IfOk result (IsReadyFor pieces.now log.now) }
{
    let texts = texts_of(alloc, log)?;
    let parts = parts_of(alloc, pieces, log)?;
    Ok(FormatEnds { texts, parts })
}

impl FormatEnds {
    /// Makes a format ready for a log. It fails for want of memory alone.
    pub fn new(alloc: Global, pieces: &Pieces, log: &[u8]) -> Result<FormatEnds, MatchFault>
        ensures { IfOk result (IsReadyFor pieces.now log.now) }
    {
        match made_ready(alloc, pieces.as_slice(), log) {
            Ok(format) => Ok(format),
            Err(_) => Err(MatchFault::Memory),
        }
    }

    /// Exactly the ends that some arguments of the pieces' kinds reach, which spell the log from a position on, in
    /// ascending order. It fails for want of memory alone, and is of no use afterwards.
    pub fn ends(
        &mut self,
        alloc: Global,
        pieces: &Pieces,
        log: &[u8],
        from: usize,
    ) -> Result<Positions, MatchFault>
        requires ready { IsReadyFor pieces.now log.now self.old }
        requires within { from ≤ length log.now }
        ensures ends { IfOk result (EndsExactly pieces.now log.now from) }
        ensures ready { OnOk result (IsReadyFor pieces.now log.now self.new) }
    {
        match all_ends(
            alloc,
            &self.texts,
            self.parts.as_mut_slice(),
            pieces.as_slice(),
            log,
            from,
        ) {
            Ok(ends) => Ok(ends),
            Err(_) => Err(MatchFault::Memory),
        }
    }
}
