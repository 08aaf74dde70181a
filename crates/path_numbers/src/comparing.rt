ghost use Rattle.std.specs.Prelude.{◌≡◌, IfOk, Ok, not};
ghost use Rattle.c_language.specs.Integers.{number_of};
ghost use Rattle.core_tree.specs.Numbers.{precedes, differs, worked as worked_in};
ghost use Rattle.core_tree.specs.declared.types.Arithmetic.TheVariants as o;
ghost use Rattle.term_bank.specs.Terms.{IsTerm};
ghost use Rattle.term_bank.specs.declared.sort.Sort.TheVariants.{Truth};
ghost use Rattle.path_states.specs.States.{IsNumber, number_in};
ghost use Rattle.path_numbers.specs.Answers.{Answers, Truthful, test_by_sign};

use crate::conversions::flag;
use crate::operators::operands;
use crate::tested::{Tested, sure};
use core_tree::WordType;
use path_states::Number;
use term_bank::{Bank, BankFault, Node, WordTest};

fn test_of(word: WordType, signed: WordTest, unsigned: WordTest) -> WordTest
    ensures { result ≡ test_by_sign word.is_signed signed unsigned }
{
    if word.is_signed { signed } else { unsigned }
}

/// Whether one number is less than another one, in an integer type (C99 6.5.8). It fails for want of memory alone.
pub fn less(bank: &mut Bank, word: WordType, left: Number, right: Number) -> Result<Node, BankFault>
    requires left { IsNumber bank.old left }
    requires right { IsNumber bank.old right }
    ensures { IfOk result (λ n. Truthful bank.old bank.new n
        (λ v. precedes word (number_in v left) (number_in v right))) }
{
    let words = operands(bank, word.width, left, right)?;
    let test = test_of(word, WordTest::SignedBelow, WordTest::Below);
    let less = bank.test(test, word.width, words.left, words.right)?;
    Ok(less)
}

/// Whether two numbers differ in an integer type (C99 6.5.9). It fails for want of memory alone.
pub fn unequal(
    bank: &mut Bank,
    word: WordType,
    left: Number,
    right: Number,
) -> Result<Node, BankFault>
    requires left { IsNumber bank.old left }
    requires right { IsNumber bank.old right }
    ensures { IfOk result (λ n. Truthful bank.old bank.new n
        (λ v. differs word (number_in v left) (number_in v right))) }
{
    let words = operands(bank, word.width, left, right)?;
    let equal = bank.test(WordTest::Equal, word.width, words.left, words.right)?;
    let unequal = bank.not(equal)?;
    Ok(unequal)
}

/// The number 1 where a truth is true, else 0.
fn told(bank: &mut Bank, truth: Node) -> Result<Tested, BankFault>
    requires { IsTerm bank.old Truth truth }
    ensures { IfOk result (λ t. Answers bank.old bank.new t (λ v. Ok (number_of (v truth.index).truth))) }
{
    let number = flag(bank, truth)?;
    Ok(sure(number))
}

/// The number 1 where a truth is false, else 0.
fn denied(bank: &mut Bank, truth: Node) -> Result<Tested, BankFault>
    requires { IsTerm bank.old Truth truth }
    ensures { IfOk result (λ t. Answers bank.old bank.new t (λ v. Ok (number_of (not (v truth.index).truth)))) }
{
    let other = bank.not(truth)?;
    let number = flag(bank, other)?;
    Ok(sure(number))
}

/// `<` and `>`, whose operands change places. It fails for want of memory alone.
pub fn is_less(
    bank: &mut Bank,
    word: WordType,
    left: Number,
    right: Number,
) -> Result<Tested, BankFault>
    requires left { IsNumber bank.old left }
    requires right { IsNumber bank.old right }
    ensures { IfOk result (λ t. Answers bank.old bank.new t
        (λ v. worked_in o.Less word (number_in v left) (number_in v right))) }
{
    let truth = less(bank, word, left, right)?;
    let answer = told(bank, truth)?;
    Ok(answer)
}

/// `>=` and `<=`, whose operands change places. It fails for want of memory alone.
pub fn is_not_less(
    bank: &mut Bank,
    word: WordType,
    left: Number,
    right: Number,
) -> Result<Tested, BankFault>
    requires left { IsNumber bank.old left }
    requires right { IsNumber bank.old right }
    ensures { IfOk result (λ t. Answers bank.old bank.new t
        (λ v. worked_in o.GreaterEqual word (number_in v left) (number_in v right))) }
{
    let truth = less(bank, word, left, right)?;
    let answer = denied(bank, truth)?;
    Ok(answer)
}

/// `==`. It fails for want of memory alone.
pub fn is_equal(
    bank: &mut Bank,
    word: WordType,
    left: Number,
    right: Number,
) -> Result<Tested, BankFault>
    requires left { IsNumber bank.old left }
    requires right { IsNumber bank.old right }
    ensures { IfOk result (λ t. Answers bank.old bank.new t
        (λ v. worked_in o.Equal word (number_in v left) (number_in v right))) }
{
    let truth = unequal(bank, word, left, right)?;
    let answer = denied(bank, truth)?;
    Ok(answer)
}

/// `!=`. It fails for want of memory alone.
pub fn is_unequal(
    bank: &mut Bank,
    word: WordType,
    left: Number,
    right: Number,
) -> Result<Tested, BankFault>
    requires left { IsNumber bank.old left }
    requires right { IsNumber bank.old right }
    ensures { IfOk result (λ t. Answers bank.old bank.new t
        (λ v. worked_in o.NotEqual word (number_in v left) (number_in v right))) }
{
    let truth = unequal(bank, word, left, right)?;
    let answer = told(bank, truth)?;
    Ok(answer)
}
