//! The lines of a log in which prints of a site can begin, and their facts. All fail for want of memory alone.
ghost use Rattle.std.specs.Prelude.{◌≡◌, ℕ, length, slice_get, IfOk, OnOk};
ghost use Rattle.plain_data.specs.declared.fact.Fact.TheVariants as fact;
ghost use Rattle.program_facts.specs.Entries as entries;
ghost use Rattle.program_facts.specs.Prints as prints;

use crate::entries::{number_of, put_entry};
use crate::fault::FactFault;
use core_marks::Site;
use core_tree::Watched as Variable;
use format_match::starts;
use log_text::LogText;
use plain_data::{Fact, Facts, Items};
use positions::Positions;
use std::alloc::{AllocError, Global};

/// The line of each position of a log, by the position.
pub(crate) fn line_table(alloc: Global, log: &LogText) -> Result<Items<usize>, AllocError>
    ensures { IfOk result (λ table. table ≡ prints.line_table log.now (length log.now)) }
{
    let count = log.bytes().len();
    let mut table = Items::new(alloc);
    'positions: for position in 0..count {
        let line = log.line_of(position);
        table.push(line)?;
    }
    Ok(table)
}

/// Puts the line of a position in, where it has one.
fn put_line(lines: &mut Positions, table: &[usize], start: &usize) -> Result<(), AllocError>
    ensures { OnOk result (prints.PutsLine (slice_get table.now start.now) lines.old lines.new) }
{
    match table.get(*start) {
        Some(line) => {
            lines.put(*line)?;
            Ok(())
        }
        None => Ok(()),
    }
}

/// The lines of positions, each once, in ascending order.
fn lines_of(alloc: Global, table: &[usize], starts: &[usize]) -> Result<Positions, AllocError>
    ensures { IfOk result (λ lines. (k : ℕ) → prints.IsAmongLines table.now starts.now k lines) }
{
    let mut lines = Positions::new(alloc);
    'starts: for start in starts {
        put_line(&mut lines, table, start)?;
    }
    Ok(lines)
}

/// Puts the fact of a print in a line at the end.
fn put_print(out: &mut Facts, at: u32, shown: &[Variable], line: &usize) -> Result<(), AllocError>
    ensures { OnOk result (out.new ≡ entries.with_fact out.old (fact.Print at line.now) shown.now) }
{
    let line = number_of(*line)?;
    put_entry(out, Fact::Print { at, line }, shown)
}

/// Puts the facts of prints of a site in lines at the end.
fn put_line_prints(
    out: &mut Facts,
    at: u32,
    shown: &[Variable],
    lines: &[usize],
) -> Result<(), AllocError>
    ensures { OnOk result (out.new ≡ entries.with_all out.old (prints.print_entries at shown.now lines.now)) }
{
    'lines: for line in lines {
        put_print(out, at, shown, line)?;
    }
    Ok(())
}

/// Puts the facts of prints of a site at the end, by line: those in which some arguments make it spell a stretch of the
/// log that begins there and isn't empty.
pub(crate) fn put_prints(
    alloc: Global,
    log: &LogText,
    table: &[usize],
    site: &Site,
    out: &mut Facts,
) -> Result<(), FactFault>
    requires { table.now ≡ prints.line_table log.now (length log.now) }
    ensures { OnOk result (prints.PutsPrints log.now site.now out.old out.new) }
{
    let starts = starts(alloc, &site.pieces, log.bytes())?;
    let lines = lines_of(alloc, table, starts.as_slice())?;
    put_line_prints(out, site.at, site.watched.as_slice(), lines.as_slice())?;
    Ok(())
}
