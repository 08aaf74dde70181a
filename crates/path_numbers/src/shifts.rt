ghost use Rattle.std.specs.Prelude.{IfOk};
ghost use Rattle.core_tree.specs.Numbers.{is_far, worked as worked_in};
ghost use Rattle.core_tree.specs.declared.types.Arithmetic.TheVariants as o;
ghost use Rattle.path_states.specs.States.{IsNumber, number_in};
ghost use Rattle.path_numbers.specs.Answers.{Answers, Truthful};

use crate::divisions::operator_of;
use crate::operators::{operands, signed_fault};
use crate::tested::{Fault, Tested};
use core_tree::WordType;
use path_states::Number;
use plain_data::Undefined;
use term_bank::{Bank, BankFault, Node, WordOperator, WordTest};

/// Whether a shift's count is negative or not below the width (C99 6.5.7p3).
fn far(bank: &mut Bank, word: WordType, by: Number) -> Result<Node, BankFault>
    requires { IsNumber bank.old by }
    ensures { IfOk result (λ n. Truthful bank.old bank.new n (λ v. is_far word (number_in v by))) }
{
    let width = by.word.width;
    let bits = bank.word(u64::from(word.width.bits()), width)?;
    let near = bank.test(WordTest::Below, width, by.node, bits)?;
    let far = bank.not(near)?;
    Ok(far)
}

/// `<<` (C99 6.5.7p4). It fails for want of memory alone.
pub fn shifted_left(
    bank: &mut Bank,
    word: WordType,
    left: Number,
    by: Number,
) -> Result<Tested, BankFault>
    requires left { IsNumber bank.old left }
    requires by { IsNumber bank.old by }
    ensures { IfOk result (λ t. Answers bank.old bank.new t
        (λ v. worked_in o.ShiftLeft word (number_in v left) (number_in v by))) }
{
    let truth = far(bank, word, by)?;
    let words = operands(bank, word.width, left, by)?;
    let second = signed_fault(bank, word, Undefined::Shift, WordTest::ShlOver, words)?;
    let node = bank.binary(WordOperator::Shl, word.width, words.left, words.right)?;
    Ok(Tested {
        number: Number { node, word },
        first: Some(Fault {
            truth,
            kind: Undefined::Shift,
        }),
        second,
    })
}

/// `>>`, which copies the sign bit (C99 6.5.7p5). It fails for want of memory alone.
pub fn shifted_right(
    bank: &mut Bank,
    word: WordType,
    left: Number,
    by: Number,
) -> Result<Tested, BankFault>
    requires left { IsNumber bank.old left }
    requires by { IsNumber bank.old by }
    ensures { IfOk result (λ t. Answers bank.old bank.new t
        (λ v. worked_in o.ShiftRight word (number_in v left) (number_in v by))) }
{
    let truth = far(bank, word, by)?;
    let words = operands(bank, word.width, left, by)?;
    let operator = operator_of(word, WordOperator::Ashr, WordOperator::Lshr);
    let node = bank.binary(operator, word.width, words.left, words.right)?;
    Ok(Tested {
        number: Number { node, word },
        first: Some(Fault {
            truth,
            kind: Undefined::Shift,
        }),
        second: None,
    })
}
