//! Facts put one behind the other, with the variables that they watch. All fail for want of memory alone.
ghost use Rattle.std.specs.Prelude.{◌≡◌, ◌++◌, ◌∷◌, [], slice_get, IfOk, OnOk};
ghost use Rattle.plain_data.specs.declared.fact.Fact.TheVariants as fact;
ghost use Rattle.program_facts.specs.Entries as entries;

use core_tree::Watched as Variable;
use plain_data::{Fact, Facts, Items, Side, Watched};
use std::alloc::AllocError;

/// Puts a variable that the print fact of this number watches at the end, if there is one at the index.
fn put_variable(
    number: u32,
    shown: &[Variable],
    index: usize,
    out: &mut Items<Watched>,
) -> Result<(), AllocError>
    ensures { OnOk result (entries.PutsVariable number (slice_get shown.now index) out.old out.new) }
{
    match shown.get(index) {
        Some(variable) => {
            out.push(Watched {
                fact: number,
                object: variable.at,
            })?;
            Ok(())
        }
        None => Ok(()),
    }
}

/// Puts the variables that the print fact of this number watches at the end.
fn put_variables(
    number: u32,
    shown: &[Variable],
    out: &mut Items<Watched>,
) -> Result<(), AllocError>
    ensures { OnOk result (out.new ≡ out.old ++ entries.all_watched number shown.now) }
{
    'variables: for index in 0..shown.len() {
        put_variable(number, shown, index, out)?;
    }
    Ok(())
}

/// A count as a number of 32 bits.
pub(crate) fn number_of(count: usize) -> Result<u32, AllocError>
    ensures { IfOk result (λ n. n ≡ count) }
{
    match u32::try_from(count) {
        Ok(n) => Ok(n),
        Err(_) => Err(AllocError),
    }
}

/// Puts a fact at the end, with the variables that it watches.
pub(crate) fn put_entry(out: &mut Facts, fact: Fact, shown: &[Variable]) -> Result<(), AllocError>
    ensures { OnOk result (out.new ≡ entries.with_fact out.old fact shown.now) }
{
    out.facts.push(fact)?;
    let number = number_of(out.facts.len())?;
    put_variables(number, shown, &mut out.watched)
}

/// Puts a fact at the end that watches no variable.
pub(crate) fn put_fact(out: &mut Facts, fact: Fact) -> Result<(), AllocError>
    ensures { OnOk result (out.new ≡ entries.with_all out.old (entries.plain fact ∷ [])) }
{
    put_entry(out, fact, &[])
}

/// Puts the facts of a branch's side in each line up to the last.
pub(crate) fn put_branch_lines(
    out: &mut Facts,
    at: u32,
    side: Side,
    last: u32,
) -> Result<(), AllocError>
    ensures { OnOk result (out.new ≡ entries.with_all out.old (entries.each_line (λ line. fact.BranchIn at side line) last)) }
{
    'lines: for index in 0..last {
        let line = index + 1;
        put_fact(out, Fact::BranchIn { at, side, line })?;
    }
    Ok(())
}

/// Puts the facts of a call in each line up to the last.
pub(crate) fn put_call_lines(out: &mut Facts, at: u32, last: u32) -> Result<(), AllocError>
    ensures { OnOk result (out.new ≡ entries.with_all out.old (entries.each_line (λ line. fact.CallIn at line) last)) }
{
    'lines: for index in 0..last {
        let line = index + 1;
        put_fact(out, Fact::CallIn { at, line })?;
    }
    Ok(())
}
