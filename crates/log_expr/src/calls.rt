//! Where calls end.
ghost use Rattle.std.specs.Prelude.{◌≡◌, ◌+◌, ◌≤◌, ◌||◌, ℕ, true, length, nat_eq, IfOk, OnOk};
ghost use Rattle.positions.specs.Sets.{has};
ghost use Rattle.printf_text.specs.Texts.{kinds, size_kinds, piece_kinds};
ghost use Rattle.format_match.specs.Spelled.{EndsExactly};
ghost use Rattle.log_expr.specs.Flows.{Wider};
ghost use Rattle.log_expr.specs.Logs.{TextsEnd, AllTextsEnd};

use format_match::{MatchFault, ends};
use positions::Positions;
use printf_text::{Piece, Pieces, Size};
use std::alloc::{AllocError, Global};

/// How many arguments a width or a precision takes.
fn star_count(size: Size) -> usize
    ensures value { result ≡ length (size_kinds size) }
    ensures few { result ≤ 1 }
{
    match size {
        Size::Omitted | Size::Written(_) => 0,
        Size::Star => 1,
    }
}

/// How many arguments a piece takes.
#[tactic(auto, using(crate::proofs::Enough::converted_count))]
fn piece_count(piece: &Piece) -> usize
    ensures { result ≡ length (piece_kinds piece.now) }
{
    match piece {
        Piece::Literal(_) => 0,
        Piece::Converted(c) => star_count(c.width) + star_count(c.precision) + 1,
    }
}

/// Whether so many arguments are enough for pieces.
pub fn are_enough(pieces: &[Piece], count: usize) -> bool
    ensures { result ≡ true → length (kinds pieces.now) ≤ count }
{
    let mut left = count;
    'pieces: for piece in pieces {
        let wanted = piece_count(piece);
        if left < wanted {
            return false;
        }
        left -= wanted;
    }
    true
}

/// Puts a position and all positions of a log in.
fn put_all_positions(log: &[u8], from: usize, to: &mut Positions) -> Result<(), AllocError>
    ensures old { OnOk result (Wider to.old to.new) }
    ensures here { OnOk result (has to.new from ≡ true) }
    ensures all { OnOk result ((y : ℕ) → y ≤ length log.now → has to.new y ≡ true) }
{
    to.put(from)?;
    'positions: for position in 0..log.len() {
        to.put(position)?;
    }
    to.put(log.len())?;
    Ok(())
}

/// The ends of a format from a position of the log on.
fn format_ends(
    alloc: Global,
    pieces: &Pieces,
    log: &[u8],
    from: usize,
) -> Result<Positions, AllocError>
    requires { from ≤ length log.now }
    ensures { IfOk result (λ ends. EndsExactly pieces.now log.now from ends) }
{
    match ends(alloc, pieces, log, from) {
        Ok(found) => Ok(found),
        Err(MatchFault::Memory) => Err(AllocError),
    }
}

/// Puts the ends of a log call's text from a position on in: all positions, where its arguments may be too few.
fn put_text_ends(
    alloc: Global,
    pieces: &Pieces,
    enough: bool,
    log: &[u8],
    from: usize,
    to: &mut Positions,
) -> Result<(), AllocError>
    ensures old { OnOk result (Wider to.old to.new) }
    ensures texts { OnOk result (TextsEnd pieces.now log.now enough from to.new) }
{
    if !enough || from > log.len() {
        put_all_positions(log, from, to)?;
        return Ok(());
    }
    let found = format_ends(alloc, pieces, log, from)?;
    to.put_all(&found)?;
    Ok(())
}

/// The ends of a log call's text from each of these positions on.
pub fn text_ends(
    alloc: Global,
    pieces: &Pieces,
    enough: bool,
    log: &[u8],
    from: &Positions,
) -> Result<Positions, AllocError>
    ensures { IfOk result (λ to. AllTextsEnd pieces.now log.now enough from.now to) }
{
    let mut to = Positions::new(alloc);
    'starts: for start in from.as_slice() {
        put_text_ends(alloc, pieces, enough, log, *start, &mut to)?;
    }
    Ok(to)
}
