//! What is found of a piece along a log. All fail for want of memory alone.
ghost use Rattle.std.specs.Prelude.{◌≡◌, ◌≤◌, ◌∷◌, [], ℕ, List, Some, slice_get, length, option_copied, OnOk, IfOk};
ghost use Rattle.format_match.specs.Spelled.{AddsEnds, AreWithin, EndsBehind, EndsExactly, is_text};
ghost use Rattle.format_ends.specs.Found.{AreParts, IsKept, IsPart, KnowsEnds};

use crate::literals::stops_of;
use format_match::ends;
use plain_data::Items;
use positions::Positions;
use printf_text::{Conversion, Form, Piece, Pieces, Size};
use std::alloc::{AllocError, Global};

/// What is found of a piece along a log: where it stands, if it is a literal, and by position where it ends, if it is a
/// conversion, as far as that was asked for.
#[derive(Drop)]
pub(crate) struct Part {
    pub(crate) stops: Positions,
    pub(crate) known: Items<Option<Positions>>,
}

/// Of so many positions, nothing is known.
fn nothing_known(alloc: Global, len: usize) -> Result<Items<Option<Positions>>, AllocError>
    ensures { IfOk result (λ known. (at : ℕ) (ends : List ℕ) → slice_get known at ≡ Some (Some ends) → ⊥) }
{
    let mut known = Items::new(alloc);
    'positions: for _at in 0..len {
        known.push(None)?;
    }
    Ok(known)
}

/// Whether a form is that of texts.
pub(crate) fn is_text(form: Form) -> bool
    ensures { result ≡ is_text form }
{
    match form {
        Form::Text => true,
        Form::Signed(_) | Form::Unsigned(_, _) | Form::Char | Form::Pointer => false,
    }
}

/// Whether a precision leaves few bytes of a text.
fn is_short(precision: Size) -> bool {
    match precision {
        Size::Written(n) => n <= 16,
        Size::Omitted | Size::Star => false,
    }
}

/// Whether a conversion can have many ends from one position: with any width, or as a text that may be long.
fn has_many_ends(c: Conversion) -> bool {
    match c.width {
        Size::Star => true,
        Size::Omitted | Size::Written(_) => is_text(c.form) && !is_short(c.precision),
    }
}

/// Of how many positions the ends of a conversion are kept: of none where it can have many, which would take memory.
fn kept(c: Conversion, len: usize) -> usize {
    if has_many_ends(c) {
        return 0;
    }
    len
}

/// What is found of a piece, before anything was asked for.
fn part_of(alloc: Global, piece: &Piece, log: &[u8]) -> Result<Part, AllocError>
    ensures { IfOk result (IsPart piece.now log.now) }
{
    match piece {
        Piece::Literal(bytes) => {
            let stops = stops_of(alloc, bytes.as_slice(), log)?;
            let known = Items::new(alloc);
            Ok(Part { stops, known })
        }
        Piece::Converted(c) => {
            let known = nothing_known(alloc, kept(*c, log.len() + 1))?;
            let stops = Positions::new(alloc);
            Ok(Part { stops, known })
        }
    }
}

/// What is found of each piece.
pub(crate) fn parts_of(alloc: Global, pieces: &[Piece], log: &[u8]) -> Result<Vec<Part>, AllocError>
    ensures { IfOk result (λ parts. AreParts pieces.now log.now parts.items) }
{
    let mut parts = Vec::new(alloc);
    'pieces: for piece in pieces {
        parts.push(part_of(alloc, piece, log)?)?;
    }
    Ok(parts)
}

/// Where a conversion ends that begins at a position.
fn read(alloc: Global, c: Conversion, log: &[u8], from: usize) -> Result<Positions, AllocError>
    requires { from ≤ length log.now }
    ensures { IfOk result (EndsExactly (Piece.Converted c ∷ []) log.now from) }
{
    let mut pieces = Pieces::new(alloc);
    pieces.push(Piece::Converted(c))?;
    match ends(alloc, &pieces, log, from) {
        Ok(ends) => Ok(ends),
        Err(_) => Err(AllocError),
    }
}

/// What is known of a position.
fn known_at(known: &Items<Option<Positions>>, at: usize) -> Option<&Positions>
    ensures { (ends : List ℕ) → option_copied result ≡ Some ends → slice_get known.now at ≡ Some (Some ends) }
{
    match known.get(at) {
        Some(Some(ends)) => Some(ends),
        Some(None) => None,
        None => None,
    }
}

/// Keeps where a conversion ends that begins at a position, if such are kept.
fn keep(known: &mut Items<Option<Positions>>, at: usize, ends: Positions)
    ensures { (from : ℕ) (got : List ℕ) → slice_get known.new from ≡ Some (Some got) →
        IsKept known.old at ends from got }
{
    if at < known.len() {
        known.set(at, Some(ends));
    }
}

/// Puts the ends of a conversion that begins at a position in.
fn put_ends(
    alloc: Global,
    known: &mut Items<Option<Positions>>,
    out: &mut Positions,
    c: Conversion,
    log: &[u8],
    from: usize,
) -> Result<(), AllocError>
    requires known { KnowsEnds c log.now known.old }
    requires within { from ≤ length log.now }
    ensures adds { OnOk result (AddsEnds (Piece.Converted c) log.now from out.old out.new) }
    ensures known { OnOk result (KnowsEnds c log.now known.new) }
{
    if let Some(ends) = known_at(known, from) {
        out.put_all(ends)?;
        return Ok(());
    }
    let ends = read(alloc, c, log, from)?;
    out.put_all(&ends)?;
    keep(known, from, ends);
    Ok(())
}

/// Where a conversion ends that begins at some of these positions.
pub(crate) fn converted_ends(
    alloc: Global,
    known: &mut Items<Option<Positions>>,
    before: &Positions,
    c: Conversion,
    log: &[u8],
) -> Result<Positions, AllocError>
    requires known { KnowsEnds c log.now known.old }
    requires within { AreWithin log.now before.now }
    ensures ends { IfOk result (EndsBehind (Piece.Converted c) log.now before.now) }
    ensures known { OnOk result (KnowsEnds c log.now known.new) }
{
    let mut ends = Positions::new(alloc);
    'starts: for from in before.as_slice() {
        put_ends(alloc, known, &mut ends, c, log, *from)?;
    }
    Ok(ends)
}
