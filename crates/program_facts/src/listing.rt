//! The facts of a program along a log.
ghost use Rattle.std.specs.Prelude.{◌≡◌, IfOk};
ghost use Rattle.program_facts.specs.Entries as entries;
ghost use Rattle.program_facts.specs.Listing as spec;

use crate::endings::put_ends;
use crate::entries::number_of;
use crate::fault::FactFault;
use crate::marks::{Listing, put_marks};
use crate::prints::line_table;
use core_marks::{in_order, library_marks, source_marks};
use core_tree::Core;
use log_text::LogText;
use plain_data::{Facts, Items};
use std::alloc::{AllocError, Global};

fn no_facts(alloc: Global) -> Facts
    ensures { result ≡ entries.no_facts }
{
    Facts {
        facts: Items::new(alloc),
        watched: Items::new(alloc),
    }
}

/// The last line in which branches and calls are listed: that behind the log's last, or none.
fn last_line(log: &LogText, by_line: bool) -> Result<u32, AllocError>
    ensures { IfOk result (λ last. last ≡ spec.last_line by_line log.now) }
{
    if by_line {
        return match log.line_count().checked_add(1) {
            Some(last) => number_of(last),
            None => Err(AllocError),
        };
    }
    Ok(0)
}

/// The facts of a program along a log and the watched variables of its print facts, both in the order of a report; with
/// lines, each side of a branch and each call is followed by the same for each line, the log's end being a line of its
/// own. It fails for want of memory alone, and where a number would pass the greatest of 32 bits.
pub fn facts_of(
    alloc: Global,
    core: &Core,
    log: &LogText,
    by_line: bool,
) -> Result<Facts, FactFault>
    ensures { IfOk result (λ facts. spec.AreFactsOf core.now log.now by_line facts) }
{
    let functions = core.functions.as_slice();
    let source = source_marks(alloc, core)?;
    let library = library_marks(alloc, core, source.as_slice())?;
    let marks = in_order(source)?;
    let table = line_table(alloc, log)?;
    let last = last_line(log, by_line)?;
    let listing = Listing {
        functions,
        log,
        table: table.as_slice(),
        last,
    };
    let found = marks.as_slice();
    let reached = library.as_slice();
    let mut facts = no_facts(alloc);
    put_marks(alloc, &listing, found, &mut facts)?;
    put_ends(functions, found, reached, &mut facts)?;
    Ok(facts)
}
