//! The facts without a token: how a run ends. All fail for want of memory alone.
ghost use Rattle.std.specs.Prelude.{◌≡◌, ◌∷◌, ◌||◌, OnOk};
ghost use Rattle.std.specs.List.{list_any};
ghost use Rattle.plain_data.specs.declared.fact.Fact.TheVariants as fact;
ghost use Rattle.program_facts.specs.Entries as entries;
ghost use Rattle.program_facts.specs.Listing as spec;

use crate::entries::put_fact;
use crate::marks::may_miss;
use core_marks::{Mark, kind_number};
use core_tree::Function;
use plain_data::{Fact, Facts, Undefined};
use std::alloc::AllocError;

const KINDS: [Undefined; 9] = [
    Undefined::Overflow,
    Undefined::ZeroDivisor,
    Undefined::Shift,
    Undefined::PointerRange,
    Undefined::Dereference,
    Undefined::LiteralWrite,
    Undefined::Free,
    Undefined::PointerOrder,
    Undefined::MissingValue,
];

fn is_exit(mark: &Mark) -> bool
    ensures { result ≡ spec.is_exit mark.now }
{
    match mark {
        Mark::Exit { .. } => true,
        _ => false,
    }
}

fn is_abort(mark: &Mark) -> bool
    ensures { result ≡ spec.is_abort mark.now }
{
    match mark {
        Mark::Abort { .. } => true,
        _ => false,
    }
}

fn any_exit(marks: &[Mark]) -> bool
    ensures { result ≡ list_any spec.is_exit marks.now }
{
    marks.iter().any(|mark| is_exit(mark))
}

fn any_abort(marks: &[Mark]) -> bool
    ensures { result ≡ list_any spec.is_abort marks.now }
{
    marks.iter().any(|mark| is_abort(mark))
}

/// Whether a mark lists a kind of undefined behaviour.
fn lists(functions: &[Function], kind: Undefined, mark: &Mark) -> bool
    ensures { result ≡ spec.lists functions.now kind mark.now }
{
    match mark {
        Mark::Stop { kind: met, .. } => kind_number(*met) == kind_number(kind),
        Mark::Body { function, .. } => {
            kind_number(Undefined::MissingValue) == kind_number(kind)
                && may_miss(functions, *function)
        }
        _ => false,
    }
}

fn any_lists(functions: &[Function], kind: Undefined, marks: &[Mark]) -> bool
    ensures { result ≡ list_any (λ m. spec.lists functions.now kind m) marks.now }
{
    marks.iter().any(|mark| lists(functions, kind, mark))
}

/// Puts a fact at the end, where it is wanted.
fn put_if(out: &mut Facts, wanted: bool, fact: Fact) -> Result<(), AllocError>
    ensures { OnOk result (out.new ≡ entries.with_all out.old (spec.entry_if wanted (entries.plain fact))) }
{
    if wanted {
        put_fact(out, fact)?;
    }
    Ok(())
}

/// Puts the kinds of undefined behaviour that are listed somewhere at the end.
fn put_kinds(
    functions: &[Function],
    source: &[Mark],
    library: &[Mark],
    kinds: &[Undefined],
    out: &mut Facts,
) -> Result<(), AllocError>
    ensures { OnOk result (out.new ≡ entries.with_all out.old (spec.kind_entries functions.now source.now library.now kinds.now)) }
{
    match kinds.split_first() {
        Some((kind, rest)) => {
            let kind = *kind;
            let wanted = any_lists(functions, kind, source) || any_lists(functions, kind, library);
            put_if(out, wanted, Fact::StopOf { kind })?;
            put_kinds(functions, source, library, rest, out)
        }
        None => Ok(()),
    }
}

/// Puts the facts without a token at the end, for what stands at the tokens of the functions of a source, and of those
/// of the library that it reaches.
pub(crate) fn put_ends(
    functions: &[Function],
    source: &[Mark],
    library: &[Mark],
    out: &mut Facts,
) -> Result<(), AllocError>
    ensures { OnOk result (out.new ≡ entries.with_all out.old (spec.end_entries functions.now source.now library.now)) }
{
    put_fact(out, Fact::Returned)?;
    put_if(out, any_exit(source), Fact::Exited)?;
    put_if(out, any_abort(source), Fact::Aborted)?;
    put_kinds(functions, source, library, &KINDS, out)
}
