//! The places of a call, behind the base.
ghost use Rattle.std.specs.Prelude.{IfOk};
ghost use Rattle.c_store.specs.Store.{start};
ghost use Rattle.path_calls.specs.Places.{Tells};

use plain_data::Width;
use term_bank::{Bank, BankFault, Node, WordOperator};

/// The number of the place that is so many places behind the base. It fails for want of memory alone.
pub(crate) fn place_number(bank: &mut Bank, place: u64) -> Result<Node, BankFault>
    ensures { IfOk result (λ n. Tells bank.old bank.new place (λ p. p) n) }
{
    let base = bank.base()?;
    let more = bank.word(place, Width::W64)?;
    let node = bank.binary(WordOperator::Add, Width::W64, base, more)?;
    Ok(node)
}

/// The first address of the object that has this place. It fails for want of memory alone.
pub(crate) fn first_address(bank: &mut Bank, place: u64) -> Result<Node, BankFault>
    ensures { IfOk result (λ n. Tells bank.old bank.new place start n) }
{
    let number = place_number(bank, place)?;
    let bits = bank.word(32, Width::W64)?;
    let node = bank.binary(WordOperator::Shl, Width::W64, number, bits)?;
    Ok(node)
}
