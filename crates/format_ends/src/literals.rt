//! Where bytes that stand for themselves stand along a log. All fail for want of memory alone.
ghost use Rattle.std.specs.Prelude.{◌≡◌, ◌≤◌, ◌&&◌, ◌||◌, ℕ, nat_eq, length, OnOk, IfOk};
ghost use Rattle.positions.specs.Sets.{has};
ghost use Rattle.format_match.specs.Splits.{begins};
ghost use Rattle.format_match.specs.Spelled.{AddsEnds, AreWithin, EndsBehind};
ghost use Rattle.format_ends.specs.Reached.{StandExactly};

use plain_data::Bytes;
use positions::Positions;
use printf_text::Piece;
use std::alloc::{AllocError, Global};

/// Whether the second text begins with the first.
fn begins(text: &[u8], bytes: &[u8]) -> bool
    ensures { result ≡ begins text.now bytes.now }
{
    if bytes.len() < text.len() {
        return false;
    }
    text == bytes.split_at(text.len()).0
}

/// Puts a position in, where it is wanted.
pub(crate) fn put_where(
    positions: &mut Positions,
    at: usize,
    wanted: bool,
) -> Result<(), AllocError>
    ensures { OnOk result ((y : ℕ) → has positions.new y ≡ (has positions.old y || (wanted && nat_eq at y))) }
{
    if wanted {
        positions.put(at)?;
    }
    Ok(())
}

/// The positions at which bytes stand.
pub(crate) fn stops_of(alloc: Global, bytes: &[u8], log: &[u8]) -> Result<Positions, AllocError>
    ensures { IfOk result (λ stops. StandExactly bytes.now log.now stops) }
{
    let mut stops = Positions::new(alloc);
    'positions: for at in 0..log.len() + 1 {
        let stands = begins(bytes, log.split_at(at).1);
        put_where(&mut stops, at, stands)?;
    }
    Ok(stops)
}

/// Puts the end of bytes that begin at a position in, where they stand there.
fn put_literal_end(
    out: &mut Positions,
    bytes: &Bytes,
    log: &[u8],
    from: usize,
) -> Result<(), AllocError>
    requires { from ≤ length log.now }
    ensures { OnOk result (AddsEnds (Piece.Literal bytes.now) log.now from out.old out.new) }
{
    let rest = log.split_at(from).1;
    if !begins(bytes.as_slice(), rest) {
        return Ok(());
    }
    out.put(from + bytes.len())?;
    Ok(())
}

/// Where bytes end that begin at some of these positions.
pub(crate) fn literal_ends(
    alloc: Global,
    before: &Positions,
    bytes: &Bytes,
    log: &[u8],
) -> Result<Positions, AllocError>
    requires { AreWithin log.now before.now }
    ensures { IfOk result (λ ends. EndsBehind (Piece.Literal bytes.now) log.now before.now ends) }
{
    let mut ends = Positions::new(alloc);
    'starts: for from in before.as_slice() {
        put_literal_end(&mut ends, bytes, log, *from)?;
    }
    Ok(ends)
}
