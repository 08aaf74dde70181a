//! How far texts reach along a log. All fail for want of memory alone.
ghost use Rattle.std.specs.Prelude.{◌≡◌, ◌≤◌, ◌<◌, ◌+◌, ◌^◌, ◌↔◌, ◌==◌, ℕ, List, suc, true, if◌then◌else◌};
ghost use Rattle.std.specs.Prelude.{length, take, IfOk};
ghost use Rattle.positions.specs.Sets.{has, ascends};
ghost use Rattle.format_match.specs.Spelled.{may_end};
ghost use Rattle.format_ends.specs.Reached.{AreStarts, EndsAtStop, IsPassed, text_start};
ghost use Rattle.format_ends.specs.Found.{AreTexts};

use crate::literals::{put_where, stops_of};
use positions::Positions;
use std::alloc::{AllocError, Global};

/// How far texts reach along a log: by position the first one from which a text reaches it, and all positions.
#[derive(Drop)]
pub(crate) struct Texts {
    pub(crate) starts: Vec<usize>,
    pub(crate) all: Positions,
}

/// The first position from which a text reaches the next, behind a byte at this one.
fn start_behind(byte: u8, at: usize, start: usize) -> usize
    requires { at + 1 < 2 ^ 64 }
    ensures { result ≡ (if byte == 0 then suc at else start) }
{
    if byte == 0 {
        return at + 1;
    }
    start
}

/// By position the first one from which a text reaches it.
fn starts_of(alloc: Global, log: &[u8]) -> Result<Vec<usize>, AllocError>
    ensures { IfOk result (λ starts. AreStarts log.now starts.items) }
{
    let mut starts = Vec::new(alloc);
    let mut start = 0;
    'positions: for at in 0..log.len() {
        starts.push(start)?;
        start = start_behind(log[at], at, start);
    }
    starts.push(start)?;
    Ok(starts)
}

/// How far texts reach along a log.
pub(crate) fn texts_of(alloc: Global, log: &[u8]) -> Result<Texts, AllocError>
    ensures { IfOk result (AreTexts log.now) }
{
    let starts = starts_of(alloc, log)?;
    let all = stops_of(alloc, b"", log)?;
    Ok(Texts { starts, all })
}

/// How many of the positions stand up to a stop, where so many stand up to an earlier one.
fn passed_at(before: &[usize], passed: usize, stop: usize) -> usize
    requires ordered { ascends before.now ≡ true }
    requires within { passed ≤ length before.now }
    requires below { (y : ℕ) → has (take passed before.now) y ≡ true → y ≤ stop }
    ensures { IsPassed before.now stop result }
{
    let mut passed = passed;
    'passed: while passed < before.len() {
        if before[passed] > stop {
            return passed;
        }
        passed += 1;
    }
    passed
}

/// Whether a text reaches a stop from the last of the positions that stand up to it.
fn is_reached(starts: &[usize], before: &[usize], passed: usize, stop: usize) -> bool
    requires ordered { ascends before.now ≡ true }
    requires within { passed ≤ length before.now }
    requires stop { stop < length starts.now }
    ensures { (log : List ℕ) → AreStarts log starts.now → IsPassed before.now stop passed →
        result ≡ may_end before.now log stop }
{
    if passed == 0 {
        return false;
    }
    starts[stop] <= before[passed - 1]
}

/// Where texts that begin at some of these positions end at stops, and so many bytes behind each.
pub(crate) fn ends_at_stops(
    alloc: Global,
    log: &[u8],
    texts: &Texts,
    before: &Positions,
    stops: &Positions,
    len: usize,
) -> Result<Positions, AllocError>
    requires texts { AreTexts log.now texts.now }
    requires within { (stop : ℕ) → has stops.now stop ≡ true → stop + len ≤ length log.now }
    ensures { IfOk result (λ ends. (y : ℕ) → (has ends y ≡ true) ↔ EndsAtStop log.now before.now stops.now len y) }
{
    let starts = texts.starts.as_slice();
    let mut ends = Positions::new(alloc);
    let mut passed = 0;
    'stops: for stop in stops.as_slice() {
        passed = passed_at(before.as_slice(), passed, *stop);
        let wanted = is_reached(starts, before.as_slice(), passed, *stop);
        put_where(&mut ends, *stop + len, wanted)?;
    }
    Ok(ends)
}
