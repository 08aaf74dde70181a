//! The literals of questions on values, by the watched variable and the value.
ghost use Rattle.std.specs.Prelude.{◌≡◌, ◌≤◌, ◌<◌, length, suc, None, Some, IfOk, IfSome, slice_get};
ghost use Rattle.bitvectors.specs.Reads.{IfNone};
ghost use Rattle.bitvectors.specs.Blasts.{IsReady};
ghost use Rattle.path_states.specs.States.{AreStates};
ghost use Rattle.query_core.specs.Claims.{HasMade, IsFoundAt, is_of, other_at};

use crate::fault::AskFault;
use bitvectors::{Blasted, More, go_on_reads};
use run_formula::{RunFormula, Watch};
use std::alloc::Global;
use term_bank::Bank;

/// The literal that is true where some print saw another value than this of a watched variable: the clauses that define
/// it, which stand behind a query's own, and its bits.
#[derive(Drop)]
pub(crate) struct Other {
    /// The watched variable, by its number from 1.
    pub(crate) watch: u32,
    pub(crate) value: i128,
    pub(crate) more: More,
}

/// Whether a literal is that of a watched variable and a value.
fn is_other_of(other: &Other, watch: u32, value: &i128) -> bool
    ensures { result ≡ is_of other.now watch value.now }
{
    other.watch == watch && other.value == *value
}

/// The index of the literal of a watched variable and a value.
pub(crate) fn index_of(others: &[Other], watch: u32, value: &i128) -> Option<usize>
    ensures found { IfSome result (IsFoundAt others.now watch value.now) }
    ensures none { IfNone result (other_at others.now watch value.now ≡ None) }
{
    'others: for index in 0..others.len() {
        if is_other_of(&others[index], watch, value) {
            return Some(index);
        }
    }
    None
}

/// The literal at an index.
pub(crate) fn other_at_index(others: &[Other], index: usize) -> &Other
    requires { index < length others.now }
    ensures { slice_get others.now index ≡ Some result.now }
{
    &others[index]
}

/// The watched variable of a number, from 1.
fn watch_numbered(watches: &[Watch], number: u32) -> Watch
    requires from { 1 ≤ number }
    requires to { number ≤ length watches.now }
    ensures { (m : _) → number ≡ suc m → slice_get watches.now m ≡ Some result }
{
    watches[number as usize - 1]
}

/// The literal of a watched variable and a value, none where what it stands for isn't plain, and the bank, in which it
/// is a term.
#[derive(Drop)]
pub(crate) struct Made {
    pub(crate) other: Option<Other>,
    pub(crate) bank: Bank,
}

/// Makes the literal of a watched variable and a value.
pub(crate) fn made_other(
    alloc: Global,
    formula: &RunFormula,
    blasted: &Blasted,
    mut bank: Bank,
    watch: u32,
    value: &i128,
) -> Result<Made, AskFault>
    requires from { 1 ≤ watch }
    requires to { watch ≤ length formula.now.watches }
    requires ends { AreStates bank formula.now.states }
    requires ready { IsReady bank blasted.now }
    ensures { IfOk result (HasMade bank formula.now blasted.now watch value.now) }
{
    let seen = watch_numbered(formula.watches.as_slice(), watch);
    let node = formula.saw_other(alloc, &mut bank, seen, value)?;
    let _ = bank.len();
    match go_on_reads(alloc, &mut bank, blasted, &[node])? {
        None => Ok(Made { other: None, bank }),
        Some(more) => {
            let value = *value;
            // Never so: by the test proofs learn the range of what stands behind a reference.
            if value < i128::MIN || value > i128::MAX {
                return Err(AskFault::Memory);
            }
            let other = Some(Other { watch, value, more });
            Ok(Made { other, bank })
        }
    }
}
