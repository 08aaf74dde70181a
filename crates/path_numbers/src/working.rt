ghost use Rattle.std.specs.Prelude.{IfOk, Ok};
ghost use Rattle.plain_data.specs.Words.{word as word_of};
ghost use Rattle.core_tree.specs.Numbers.{turned as turned_in, worked as worked_in, value_of_word};
ghost use Rattle.term_bank.specs.Values.{result_of};
ghost use Rattle.path_states.specs.States.{IsNumber, number_in};
ghost use Rattle.path_numbers.specs.Answers.{Answers};

use crate::comparing::{is_equal, is_less, is_not_less, is_unequal};
use crate::conversions::{constant, wrapped};
use crate::divisions::{quotient, remainder};
use crate::operators::{difference, operands, product, sum};
use crate::shifts::{shifted_left, shifted_right};
use crate::tested::{Tested, sure};
use core_tree::{Arithmetic, Turning, WordType};
use path_states::Number;
use term_bank::{Bank, BankFault, WordOperator};

/// An operator on the words of two numbers that has no undefined behaviour.
fn on_words(
    bank: &mut Bank,
    word: WordType,
    operator: WordOperator,
    left: Number,
    right: Number,
) -> Result<Tested, BankFault>
    requires left { IsNumber bank.old left }
    requires right { IsNumber bank.old right }
    ensures { IfOk result (λ t. Answers bank.old bank.new t (λ v. Ok (value_of_word word (result_of operator word.width
        (word_of word.width (number_in v left)) (word_of word.width (number_in v right)))))) }
{
    let words = operands(bank, word.width, left, right)?;
    let node = bank.binary(operator, word.width, words.left, words.right)?;
    Ok(sure(Number { node, word }))
}

/// An operator on two numbers in an integer type (C99 6.5.5 to 6.5.12): its value, and where it is undefined. It fails
/// for want of memory alone.
#[tactic(auto, unfolding(term_bank::specs::Values::result_of))]
pub fn worked(
    bank: &mut Bank,
    operator: Arithmetic,
    word: WordType,
    left: Number,
    right: Number,
) -> Result<Tested, BankFault>
    requires left { IsNumber bank.old left }
    requires right { IsNumber bank.old right }
    ensures { IfOk result (λ t. Answers bank.old bank.new t
        (λ v. worked_in operator word (number_in v left) (number_in v right))) }
{
    match operator {
        Arithmetic::Multiply => product(bank, word, left, right),
        Arithmetic::Divide => quotient(bank, word, left, right),
        Arithmetic::Remainder => remainder(bank, word, left, right),
        Arithmetic::Add => sum(bank, word, left, right),
        Arithmetic::Subtract => difference(bank, word, left, right),
        Arithmetic::ShiftLeft => shifted_left(bank, word, left, right),
        Arithmetic::ShiftRight => shifted_right(bank, word, left, right),
        Arithmetic::Less => is_less(bank, word, left, right),
        Arithmetic::Greater => is_less(bank, word, right, left),
        Arithmetic::LessEqual => is_not_less(bank, word, right, left),
        Arithmetic::GreaterEqual => is_not_less(bank, word, left, right),
        Arithmetic::Equal => is_equal(bank, word, left, right),
        Arithmetic::NotEqual => is_unequal(bank, word, left, right),
        Arithmetic::BitAnd => on_words(bank, word, WordOperator::And, left, right),
        Arithmetic::BitXor => on_words(bank, word, WordOperator::Xor, left, right),
        Arithmetic::BitOr => on_words(bank, word, WordOperator::Or, left, right),
    }
}

/// A unary operator on a number in an integer type (C99 6.5.3.3). It fails for want of memory alone.
pub fn turned(
    bank: &mut Bank,
    operator: Turning,
    word: WordType,
    number: Number,
) -> Result<Tested, BankFault>
    requires { IsNumber bank.old number }
    ensures { IfOk result (λ t. Answers bank.old bank.new t (λ v. turned_in operator word (number_in v number))) }
{
    match operator {
        Turning::Plus => {
            let number = wrapped(bank, number, word)?;
            Ok(sure(number))
        }
        Turning::Minus => {
            let zero = constant(bank, 0)?;
            let negative = difference(bank, word, zero, number)?;
            Ok(negative)
        }
        Turning::Complement => {
            let ones = constant(bank, -1)?;
            let other = on_words(bank, word, WordOperator::Sub, ones, number)?;
            Ok(other)
        }
    }
}
