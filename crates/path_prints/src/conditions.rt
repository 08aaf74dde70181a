//! What a split says of integers, as a truth.
ghost use Rattle.std.specs.Prelude.{IfOk};
ghost use Rattle.plain_data.specs.Words.{word as word_of};
ghost use Rattle.plain_data.specs.declared.width.Width.TheVariants.{W64};
ghost use Rattle.format_match.specs.Splits.{meets as meets_in, meet_all as meet_all_in};
ghost use Rattle.format_match.specs.declared.split.Constraint.TheVariants.{Equal, Between};
ghost use Rattle.path_states.specs.States.{AreNumbers, IsNumber};
ghost use Rattle.path_numbers.specs.Answers.{Truthful, Worded};
ghost use Rattle.path_prints.specs.Arguments.{arg_in, args_in};

use format_match::Constraint;
use path_numbers::{INT, in_width, wrapped};
use path_states::Number;
use plain_data::{Width, wrap};
use term_bank::{Bank, BankFault, Connective, Node, WordTest};

/// Whether an integer has these bits, converted to an unsigned type of a width.
fn has_bits(bank: &mut Bank, number: Number, bits: u64, width: Width) -> Result<Node, BankFault>
    requires { IsNumber bank.old number }
    ensures { IfOk result (λ n. Truthful bank.old bank.new n (λ v. meets_in (Equal bits width) (arg_in v number))) }
{
    if wrap(i128::from(bits), width) != bits {
        let never = bank.truth(false)?;
        return Ok(never);
    }
    let word = in_width(bank, number, width)?;
    let wanted = bank.word(bits, width)?;
    let equal = bank.test(WordTest::Equal, width, word, wanted)?;
    Ok(equal)
}

/// A number as a word of 64 bits.
fn signed_word(bank: &mut Bank, value: i64) -> Result<Node, BankFault>
    ensures { IfOk result (λ n. Worded bank.old bank.new W64 n (λ v. word_of W64 value)) }
{
    let node = bank.word(wrap(i128::from(value), Width::W64), Width::W64)?;
    Ok(node)
}

/// Whether an integer, converted to `int`, is one of these and those between them.
fn is_between(bank: &mut Bank, number: Number, low: i64, high: i64) -> Result<Node, BankFault>
    requires { IsNumber bank.old number }
    ensures { IfOk result (λ n. Truthful bank.old bank.new n (λ v. meets_in (Between low high) (arg_in v number))) }
{
    let int = wrapped(bank, number, INT)?;
    let word = in_width(bank, int, Width::W64)?;
    let least = signed_word(bank, low)?;
    let most = signed_word(bank, high)?;
    let below = bank.test(WordTest::SignedBelow, Width::W64, word, least)?;
    let above = bank.test(WordTest::SignedBelow, Width::W64, most, word)?;
    let outside = bank.connect(Connective::Or, below, above)?;
    let within = bank.not(outside)?;
    Ok(within)
}

/// Whether an integer meets a constraint. It fails for want of memory alone.
fn meets(bank: &mut Bank, constraint: &Constraint<'_>, number: Number) -> Result<Node, BankFault>
    requires { IsNumber bank.old number }
    ensures { IfOk result (λ n. Truthful bank.old bank.new n (λ v. meets_in constraint.now (arg_in v number))) }
{
    match constraint {
        Constraint::Equal { bits, width } => {
            let equal = has_bits(bank, number, *bits, *width)?;
            Ok(equal)
        }
        Constraint::Between { low, high } => {
            let within = is_between(bank, number, *low, *high)?;
            Ok(within)
        }
        Constraint::Text { .. } | Constraint::Null | Constraint::Shown { .. } => {
            let never = bank.truth(false)?;
            Ok(never)
        }
    }
}

/// Whether integers meet a constraint each. It fails for want of memory alone.
pub(crate) fn meet_all(
    bank: &mut Bank,
    constraints: &[Constraint<'_>],
    arguments: &[Number],
) -> Result<Node, BankFault>
    requires { AreNumbers bank.old arguments.now }
    ensures { IfOk result (λ n. Truthful bank.old bank.new n (λ v. meet_all_in constraints.now (args_in v
        arguments.now))) }
{
    let Some((constraint, others)) = constraints.split_first() else {
        let truth = bank.truth(arguments.is_empty())?;
        return Ok(truth);
    };
    let Some((number, more)) = arguments.split_first() else {
        let never = bank.truth(false)?;
        return Ok(never);
    };
    let first = meets(bank, constraint, *number)?;
    let rest = meet_all(bank, others, more)?;
    let both = bank.connect(Connective::And, first, rest)?;
    Ok(both)
}
