ghost use Rattle.std.specs.Prelude.{◌≡◌, IfOk, unsigned_abs};
ghost use Rattle.plain_data.specs.declared.width.Width.TheVariants.{W64};
ghost use Rattle.path_states.specs.States.{IsNumber, number_in};
ghost use Rattle.path_numbers.specs.Answers.{Worded};

use path_numbers::in_width;
use path_states::Number;
use plain_data::Width;
use term_bank::{Bank, BankFault, Node, Sort, WordOperator, WordTest};

/// The node of the address that a number is: a number that is negative is taken without its sign. It fails for want of
/// memory alone.
pub fn natural(bank: &mut Bank, number: Number) -> Result<Node, BankFault>
    requires { IsNumber bank.old number }
    ensures { IfOk result (λ n. Worded bank.old bank.new W64 n (λ v. unsigned_abs (number_in v number))) }
{
    let node = in_width(bank, number, Width::W64)?;
    if !number.word.is_signed {
        return Ok(node);
    }
    let zero = bank.word(0, Width::W64)?;
    let negative = bank.test(WordTest::SignedBelow, Width::W64, node, zero)?;
    let opposite = bank.binary(WordOperator::Sub, Width::W64, zero, node)?;
    let natural = bank.choose(Sort::Word(Width::W64), negative, opposite, node)?;
    Ok(natural)
}
