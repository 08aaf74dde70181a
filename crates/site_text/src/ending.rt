//! Where prints of a log call can end along a log, line by line. All fail for want of memory alone.
ghost use Rattle.std.specs.Prelude.{◌≡◌, ◌≤◌, ◌++◌, nat_lt, length, IfOk, OnOk};
ghost use Rattle.std.specs.List.{filter, flat_map};
ghost use Rattle.format_ends.specs.Found.{IsReadyFor};
ghost use Rattle.site_text.specs.Ends as spec;

use crate::formats::pieces_in;
use c_language::Places;
use format_ends::FormatEnds;
use log_text::LogText;
use plain_data::{Bytes, Items};
use printf_text::Pieces;
use report_text::{put_count, put_place};
use source_sites::Site;
use std::alloc::{AllocError, Global};

/// Those of positions that are above a first one, in order.
fn above(alloc: Global, start: usize, positions: &[usize]) -> Result<Items<usize>, AllocError>
    ensures { IfOk result (λ found. found ≡ filter (nat_lt start) positions.now) }
{
    let mut found = Items::new(alloc);
    for position in positions {
        if start < *position {
            found.push(*position)?;
        }
    }
    Ok(found)
}

/// Puts positions, each behind a space.
fn put_positions(text: &mut Bytes, positions: &[usize]) -> Result<(), AllocError>
    ensures { IfOk result (λ _. text.new ≡ text.old ++ flat_map spec.position_text positions.now) }
{
    for position in positions {
        put_count(text, b" ", *position as u64)?;
    }
    Ok(())
}

/// Puts the line on a line of the log in which prints of the log call at an offset can end.
fn put_match(
    text: &mut Bytes,
    places: &Places,
    at: u32,
    number: u64,
    positions: &[usize],
) -> Result<(), AllocError>
    ensures { IfOk result (λ _. text.new ≡ text.old ++ spec.match_line places.now at number positions.now) }
{
    text.extend_from_slice(b"match ")?;
    put_place(text, places, at)?;
    put_count(text, b" line ", number)?;
    text.extend_from_slice(b" ends")?;
    put_positions(text, positions)?;
    text.push(b'\n')
}

/// Puts that line, where prints can end there.
fn put_match_if(
    text: &mut Bytes,
    places: &Places,
    at: u32,
    number: u64,
    positions: &[usize],
) -> Result<(), AllocError>
    ensures { IfOk result (λ _. text.new ≡ text.old ++ spec.match_if places.now at number positions.now) }
{
    if positions.is_empty() {
        return Ok(());
    }
    put_match(text, places, at, number, positions)
}

/// Puts the line on the line of a log that begins at a position, where a print that begins there can end above it.
fn put_line(
    alloc: Global,
    text: &mut Bytes,
    places: &Places,
    log: &LogText,
    at: u32,
    pieces: &Pieces,
    format: &mut FormatEnds,
    number: u64,
    start: usize,
) -> Result<(), AllocError>
    requires ready { IsReadyFor pieces.now log.now format.old }
    requires within { start ≤ length log.now }
    ensures line { let here = spec.IsLineText places.now log.now at pieces.now (number, start) in
        IfOk result (λ _. spec.Adds here text.old text.new) }
    ensures ready { OnOk result (IsReadyFor pieces.now log.now format.new) }
{
    let found = match format.ends(alloc, pieces, log.bytes(), start) {
        Ok(found) => found,
        Err(_) => return Err(AllocError),
    };
    let above = above(alloc, start, found.as_slice())?;
    put_match_if(text, places, at, number, above.as_slice())?;
    Ok(())
}

/// Makes the format of these pieces ready for a log.
fn made_ready(alloc: Global, pieces: &Pieces, log: &LogText) -> Result<FormatEnds, AllocError>
    ensures { IfOk result (IsReadyFor pieces.now log.now) }
{
    match FormatEnds::new(alloc, pieces, log.bytes()) {
        Ok(format) => Ok(format),
        Err(_) => Err(AllocError),
    }
}

/// Puts the lines of a log call of these pieces, in the order of the log's lines.
fn put_each_line(
    alloc: Global,
    text: &mut Bytes,
    places: &Places,
    log: &LogText,
    at: u32,
    pieces: &Pieces,
) -> Result<(), AllocError>
    ensures { IfOk result (λ _. spec.Adds (spec.AreLineTexts places.now log.now at pieces.now) text.old text.new) }
{
    let mut format = made_ready(alloc, pieces, log)?;
    let mut number = 0u64;
    'lines: for start in log.starts() {
        number += 1;
        put_line(
            alloc,
            text,
            places,
            log,
            at,
            pieces,
            &mut format,
            number,
            *start as usize,
        )?;
    }
    Ok(())
}

/// Puts the lines of a log call, in the order of the log's lines.
pub(crate) fn put_matches(
    alloc: Global,
    text: &mut Bytes,
    places: &Places,
    log: &LogText,
    site: &Site,
) -> Result<(), AllocError>
    ensures { IfOk result (λ _. spec.Adds (spec.IsSiteText places.now log.now site.now) text.old text.new) }
{
    let pieces = pieces_in(alloc, &site.format)?;
    put_each_line(alloc, text, places, log, site.at, &pieces)
}
