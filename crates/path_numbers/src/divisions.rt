ghost use Rattle.std.specs.Prelude.{◌≡◌, IfOk};
ghost use Rattle.core_tree.specs.Numbers.{worked as worked_in};
ghost use Rattle.core_tree.specs.declared.types.Arithmetic.TheVariants as o;
ghost use Rattle.term_bank.specs.Terms.{IsTerm};
ghost use Rattle.term_bank.specs.declared.sort.Sort.TheVariants.{Word};
ghost use Rattle.path_states.specs.States.{IsNumber, number_in};
ghost use Rattle.path_numbers.specs.Answers.{Answers, by_sign, divides_in};

use crate::operators::{Words, operands, signed_fault};
use crate::tested::{Fault, Tested};
use core_tree::WordType;
use path_states::Number;
use plain_data::Undefined;
use term_bank::{Bank, BankFault, WordOperator, WordTest};

/// The operator of a signed type, or that of an unsigned one.
pub(crate) fn operator_of(
    word: WordType,
    signed: WordOperator,
    unsigned: WordOperator,
) -> WordOperator
    ensures { result ≡ by_sign word.is_signed signed unsigned }
{
    if word.is_signed { signed } else { unsigned }
}

/// An operator on two words of which the second may be 0.
fn divided(
    bank: &mut Bank,
    word: WordType,
    operator: WordOperator,
    words: Words,
) -> Result<Tested, BankFault>
    requires left { IsTerm bank.old (Word word.width) words.left }
    requires right { IsTerm bank.old (Word word.width) words.right }
    ensures { IfOk result (λ t. Answers bank.old bank.new t (divides_in word operator words.left words.right)) }
{
    let zero = bank.word(0, word.width)?;
    let truth = bank.test(WordTest::Equal, word.width, words.right, zero)?;
    let second = signed_fault(bank, word, Undefined::Overflow, WordTest::DivOver, words)?;
    let node = bank.binary(operator, word.width, words.left, words.right)?;
    Ok(Tested {
        number: Number { node, word },
        first: Some(Fault {
            truth,
            kind: Undefined::ZeroDivisor,
        }),
        second,
    })
}

/// `/`, toward zero (C99 6.5.5). It fails for want of memory alone.
pub fn quotient(
    bank: &mut Bank,
    word: WordType,
    left: Number,
    right: Number,
) -> Result<Tested, BankFault>
    requires left { IsNumber bank.old left }
    requires right { IsNumber bank.old right }
    ensures { IfOk result (λ t. Answers bank.old bank.new t
        (λ v. worked_in o.Divide word (number_in v left) (number_in v right))) }
{
    let words = operands(bank, word.width, left, right)?;
    let operator = operator_of(word, WordOperator::Sdiv, WordOperator::Udiv);
    let quotient = divided(bank, word, operator, words)?;
    Ok(quotient)
}

/// `%`, what the quotient leaves (C99 6.5.5). It fails for want of memory alone.
pub fn remainder(
    bank: &mut Bank,
    word: WordType,
    left: Number,
    right: Number,
) -> Result<Tested, BankFault>
    requires left { IsNumber bank.old left }
    requires right { IsNumber bank.old right }
    ensures { IfOk result (λ t. Answers bank.old bank.new t
        (λ v. worked_in o.Remainder word (number_in v left) (number_in v right))) }
{
    let words = operands(bank, word.width, left, right)?;
    let operator = operator_of(word, WordOperator::Srem, WordOperator::Urem);
    let remainder = divided(bank, word, operator, words)?;
    Ok(remainder)
}
