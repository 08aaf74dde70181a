//! The integers that a format's conversions take.
ghost use Rattle.std.specs.Prelude.{◌≡◌, drop, OnOk};
ghost use Rattle.path_states.specs.States.{AreNumbers};
ghost use Rattle.path_prints.specs.Arguments.{Speaks};

use core_tree::WordType;
use path_numbers::in_width;
use path_states::Number;
use plain_data::Items;
use term_bank::{Bank, BankFault};

/// Puts the arguments at the end, each in its type, as far as there are types.
pub(crate) fn speak(
    bank: &mut Bank,
    types: &[WordType],
    arguments: &[Number],
    out: &mut Items<Number>,
) -> Result<(), BankFault>
    requires arguments { AreNumbers bank.old arguments.now }
    requires out { AreNumbers bank.old out.old }
    ensures { OnOk result (Speaks bank.old bank.new types.now arguments.now out.old out.new) }
{
    let Some((word, more)) = types.split_first() else {
        return Ok(());
    };
    let Some((number, others)) = arguments.split_first() else {
        return Ok(());
    };
    let node = in_width(bank, *number, word.width)?;
    out.push(Number { node, word: *word })?;
    speak(bank, more, others, out)?;
    Ok(())
}

/// The numbers behind so many.
pub(crate) fn behind(numbers: &[Number], count: u64) -> &[Number]
    ensures { result.now ≡ drop count numbers.now }
{
    let count = count as usize;
    if count > numbers.len() {
        return numbers.split_at(numbers.len()).1;
    }
    numbers.split_at(count).1
}
