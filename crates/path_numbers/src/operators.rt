ghost use Rattle.std.specs.Prelude.{◌≡◌, IfOk, cond, false, Ok, Err, not, nat_eq, ◌||◌, ◌&&◌};
ghost use Rattle.plain_data.specs.declared.run.Undefined.TheVariants.{Overflow};
ghost use Rattle.plain_data.specs.Words.{word as word_of};
ghost use Rattle.core_tree.specs.Numbers.{exact as exact_in, value_of_word, wrapped as wrapped_to, worked as worked_in};
ghost use Rattle.core_tree.specs.declared.types.Arithmetic.TheVariants as o;
ghost use Rattle.term_bank.specs.Terms.{IsTerm};
ghost use Rattle.term_bank.specs.Values.{result_of, outcome_of};
ghost use Rattle.term_bank.specs.declared.sort.Sort.TheVariants.{Truth, Word};
ghost use Rattle.path_states.specs.States.{IsNumber, number_in};
ghost use Rattle.path_numbers.specs.Answers.{Answers, Faulty, AreWords, faults_in, fits_in};

use crate::conversions::{in_width, keeps_bank};
use crate::tested::{Fault, Tested};
use core_tree::WordType;
use path_states::Number;
use plain_data::{Undefined, Width};
use term_bank::{Bank, BankFault, Node, WordOperator, WordTest};

/// Two operands' words of one width.
#[derive(Clone, Copy)]
pub(crate) struct Words {
    pub(crate) left: Node,
    pub(crate) right: Node,
}

/// The words of both operands, of this width.
pub(crate) fn operands(
    bank: &mut Bank,
    width: Width,
    left: Number,
    right: Number,
) -> Result<Words, BankFault>
    requires left { IsNumber bank.old left }
    requires right { IsNumber bank.old right }
    ensures { IfOk result (λ w. AreWords bank.old bank.new width w
        (λ v. word_of width (number_in v left)) (λ v. word_of width (number_in v right))) }
{
    let left = in_width(bank, left, width)?;
    let right = in_width(bank, right, width)?;
    Ok(Words { left, right })
}

/// A fault of a signed type, where a test of the words says so (C99 6.5p5).
pub(crate) fn signed_fault(
    bank: &mut Bank,
    word: WordType,
    kind: Undefined,
    test: WordTest,
    words: Words,
) -> Result<Option<Fault>, BankFault>
    requires left { IsTerm bank.old (Word word.width) words.left }
    requires right { IsTerm bank.old (Word word.width) words.right }
    ensures { IfOk result (λ f. Faulty bank.old bank.new f (faults_in word kind test words.left words.right)) }
{
    if !word.is_signed {
        keeps_bank(bank);
        return Ok(None);
    }
    let truth = bank.test(test, word.width, words.left, words.right)?;
    Ok(Some(Fault { truth, kind }))
}

/// An operator's result, whose overflow a test tells.
fn fitting(
    bank: &mut Bank,
    word: WordType,
    operator: WordOperator,
    test: WordTest,
    words: Words,
) -> Result<Tested, BankFault>
    requires left { IsTerm bank.old (Word word.width) words.left }
    requires right { IsTerm bank.old (Word word.width) words.right }
    ensures { IfOk result (λ t. Answers bank.old bank.new t (fits_in word operator test words.left words.right)) }
{
    let first = signed_fault(bank, word, Undefined::Overflow, test, words)?;
    let node = bank.binary(operator, word.width, words.left, words.right)?;
    Ok(Tested {
        number: Number { node, word },
        first,
        second: None,
    })
}

/// `+` (C99 6.5.6). It fails for want of memory alone.
pub fn sum(
    bank: &mut Bank,
    word: WordType,
    left: Number,
    right: Number,
) -> Result<Tested, BankFault>
    requires left { IsNumber bank.old left }
    requires right { IsNumber bank.old right }
    ensures { IfOk result (λ t. Answers bank.old bank.new t
        (λ v. worked_in o.Add word (number_in v left) (number_in v right))) }
{
    let words = operands(bank, word.width, left, right)?;
    let sum = fitting(bank, word, WordOperator::Add, WordTest::AddOver, words)?;
    Ok(sum)
}

/// `-` (C99 6.5.6). It fails for want of memory alone.
pub fn difference(
    bank: &mut Bank,
    word: WordType,
    left: Number,
    right: Number,
) -> Result<Tested, BankFault>
    requires left { IsNumber bank.old left }
    requires right { IsNumber bank.old right }
    ensures { IfOk result (λ t. Answers bank.old bank.new t
        (λ v. worked_in o.Subtract word (number_in v left) (number_in v right))) }
{
    let words = operands(bank, word.width, left, right)?;
    let difference = fitting(bank, word, WordOperator::Sub, WordTest::SubOver, words)?;
    Ok(difference)
}

/// `*` (C99 6.5.5). It fails for want of memory alone.
pub fn product(
    bank: &mut Bank,
    word: WordType,
    left: Number,
    right: Number,
) -> Result<Tested, BankFault>
    requires left { IsNumber bank.old left }
    requires right { IsNumber bank.old right }
    ensures { IfOk result (λ t. Answers bank.old bank.new t
        (λ v. worked_in o.Multiply word (number_in v left) (number_in v right))) }
{
    let words = operands(bank, word.width, left, right)?;
    let product = fitting(bank, word, WordOperator::Mul, WordTest::MulOver, words)?;
    Ok(product)
}
