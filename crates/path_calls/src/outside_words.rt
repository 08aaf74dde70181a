//! Words that the world gives at places.
ghost use Rattle.std.specs.Prelude.{IfOk};
ghost use Rattle.path_calls.specs.Outside.{AsksAt};

use path_numbers::ADDRESS;
use path_states::Number;
use plain_data::Width;
use term_bank::{Bank, BankFault, WordOperator};

/// The world's word at the place that is so many places behind the base. It fails for want of memory alone.
pub fn outside_word(bank: &mut Bank, place: u64) -> Result<Number, BankFault>
    ensures { IfOk result (λ x. AsksAt bank.old bank.new place x) }
{
    let base = bank.base()?;
    let more = bank.word(place, Width::W64)?;
    let at = bank.binary(WordOperator::Add, Width::W64, base, more)?;
    let node = bank.world_word(Width::W64, at)?;
    Ok(Number {
        node,
        word: ADDRESS,
    })
}
