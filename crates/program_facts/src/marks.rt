//! The facts of what stands at tokens.
ghost use Rattle.std.specs.Prelude.{◌≡◌, false, length, OnOk, MatchOption};
ghost use Rattle.program_facts.specs.Entries as entries;
ghost use Rattle.program_facts.specs.Listing as spec;
ghost use Rattle.program_facts.specs.Prints.{line_table};

use crate::entries::{put_branch_lines, put_call_lines, put_fact};
use crate::fault::FactFault;
use crate::prints::put_prints;
use core_marks::{Mark, Site};
use core_tree::Function;
use log_text::LogText;
use plain_data::{Fact, Facts, Side, Undefined};
use std::alloc::{AllocError, Global};

/// What facts are listed by: the functions by number, the log with the line of each position, and the last line in
/// which branches and calls are listed, 0 where they aren't listed by line.
#[derive(Clone, Copy)]
pub(crate) struct Listing<'a> {
    pub functions: &'a [Function],
    pub log: &'a LogText,
    pub table: &'a [usize],
    pub last: u32,
    pub ghost table_is: { table.now ≡ line_table log.now (length log.now) },
}

/// Whether a value of the function of a number can be missing where it is used.
pub(crate) fn may_miss(functions: &[Function], number: u32) -> bool
    ensures { result ≡ spec.may_miss functions.now number }
{
    match functions.get(number as usize) {
        Some(function) => function.may_miss,
        None => false,
    }
}

/// A side of a branch, in all lines and then in each.
fn put_branch(out: &mut Facts, at: u32, side: Side, last: u32) -> Result<(), AllocError>
    ensures { OnOk result (out.new ≡ entries.with_all out.old (spec.branch_entries at side last)) }
{
    put_fact(out, Fact::Branch { at, side })?;
    put_branch_lines(out, at, side, last)
}

/// A call, in all lines and then in each.
fn put_call(out: &mut Facts, at: u32, last: u32) -> Result<(), AllocError>
    ensures { OnOk result (out.new ≡ entries.with_all out.old (spec.call_entries at last)) }
{
    put_fact(out, Fact::Call { at })?;
    put_call_lines(out, at, last)
}

/// A kind of undefined behaviour at a token.
fn put_stop(out: &mut Facts, at: u32, kind: Undefined) -> Result<(), AllocError>
    ensures { OnOk result (out.new ≡ entries.with_all out.old (spec.stop_entries at kind)) }
{
    put_fact(out, Fact::StopAt { kind, at })
}

/// A call by body, of whose function a value can be missing.
fn put_missing(out: &mut Facts, at: u32, misses: bool) -> Result<(), AllocError>
    ensures { OnOk result (out.new ≡ entries.with_all out.old (spec.missing_entries at misses)) }
{
    if misses {
        put_stop(out, at, Undefined::MissingValue)?;
    }
    Ok(())
}

/// The log call that a mark is, if it is one.
fn site_of(mark: &Mark) -> Option<&Site>
    ensures { MatchOption result (spec.is_log mark.now ≡ false) (λ site. mark.now ≡ Mark.Log site.now) }
{
    match mark {
        Mark::Log(site) => Some(site),
        _ => None,
    }
}

/// Puts the facts of a mark other than a log call's at the end.
fn put_plain(listing: &Listing<'_>, mark: &Mark, out: &mut Facts) -> Result<(), AllocError>
    ensures { OnOk result (out.new ≡ entries.with_all out.old (spec.plain_entries listing.now.functions.now listing.now.last mark.now)) }
{
    match mark {
        Mark::Branch { at, side } => put_branch(out, *at, *side, listing.last),
        Mark::Call { at } => put_call(out, *at, listing.last),
        Mark::Body { at, function } => {
            let misses = may_miss(listing.functions, *function);
            put_missing(out, *at, misses)
        }
        Mark::Stop { at, kind } => put_stop(out, *at, *kind),
        Mark::Log(_) | Mark::Exit { .. } | Mark::Abort { .. } => Ok(()),
    }
}

/// Puts the facts of a mark at the end.
#[tactic(auto, using(crate::proofs::Gathering::puts_plain, crate::proofs::Gathering::puts_prints))]
fn put_mark(
    alloc: Global,
    listing: &Listing<'_>,
    mark: &Mark,
    out: &mut Facts,
) -> Result<(), FactFault>
    ensures { OnOk result (spec.PutsMark listing.now.functions.now listing.now.log.now listing.now.last mark.now out.old out.new) }
{
    match site_of(mark) {
        Some(site) => {
            put_prints(alloc, listing.log, listing.table, site, out)?;
            Ok(())
        }
        None => {
            put_plain(listing, mark, out)?;
            Ok(())
        }
    }
}

/// Puts the facts of marks at the end, in order.
pub(crate) fn put_marks(
    alloc: Global,
    listing: &Listing<'_>,
    marks: &[Mark],
    out: &mut Facts,
) -> Result<(), FactFault>
    ensures { OnOk result (spec.PutsMarks listing.now.functions.now listing.now.log.now listing.now.last marks.now out.old out.new) }
{
    'marks: for mark in marks {
        put_mark(alloc, listing, mark, out)?;
    }
    Ok(())
}
