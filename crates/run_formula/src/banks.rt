//! What is known of a bank of terms.
ghost use Rattle.term_bank.specs.Banks.{IsBank};

use term_bank::Bank;

/// The bank keeps its invariant, which proofs learn here.
pub(crate) fn keeps_bank(bank: &Bank)
    ensures { IsBank bank.now }
{
    let _ = bank.len();
}
