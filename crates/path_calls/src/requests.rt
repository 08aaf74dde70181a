//! How many bytes a call asks the heap for.
ghost use Rattle.std.specs.Prelude.{IfOk, cond, false, not, nat_eq, nat_lt, ◌*◌};
ghost use Rattle.plain_data.specs.declared.width.Width.TheVariants.{W64};
ghost use Rattle.c_means.specs.Values.{address as address_of};
ghost use Rattle.term_bank.specs.Terms.{IsTerm};
ghost use Rattle.term_bank.specs.declared.sort.Sort.TheVariants.{Word};
ghost use Rattle.path_states.specs.States.{IsNumber, number_in};
ghost use Rattle.path_numbers.specs.Answers.{Truthful};
ghost use Rattle.path_calls.specs.Allocations.{Requests, product_exceeds as product_above};

use path_numbers::address;
use path_states::Number;
use plain_data::Width;
use term_bank::{Bank, BankFault, Connective, Node, WordOperator, WordTest};

/// So many bytes of a new object, and whether they are more than the bound; where they are, the word says nothing.
#[derive(Clone, Copy)]
pub(crate) struct Request {
    pub size: Node,
    pub exceeds: Node,
}

/// Whether a word of 64 bits is 0. It fails for want of memory alone.
pub(crate) fn is_zero(bank: &mut Bank, word: Node) -> Result<Node, BankFault>
    requires { IsTerm bank.old (Word W64) word }
    ensures { IfOk result (λ n. Truthful bank.old bank.new n (λ v. nat_eq (v word.index).word 0)) }
{
    let zero = bank.word(0, Width::W64)?;
    let node = bank.test(WordTest::Equal, Width::W64, word, zero)?;
    Ok(node)
}

/// Whether a word of 64 bits is above a bound.
fn word_exceeds(bank: &mut Bank, most: u32, word: Node) -> Result<Node, BankFault>
    requires { IsTerm bank.old (Word W64) word }
    ensures { IfOk result (λ n. Truthful bank.old bank.new n (λ v. nat_lt most (v word.index).word)) }
{
    let bound = bank.word(u64::from(most), Width::W64)?;
    let node = bank.test(WordTest::Below, Width::W64, bound, word)?;
    Ok(node)
}

/// Whether a factor is above a bound, and the other one isn't 0.
fn factor_exceeds(bank: &mut Bank, most: u32, factor: Node, other: Node) -> Result<Node, BankFault>
    requires factor { IsTerm bank.old (Word W64) factor }
    requires other { IsTerm bank.old (Word W64) other }
    ensures { IfOk result (λ n. Truthful bank.old bank.new n
        (λ v. cond (nat_lt most (v factor.index).word) (not (nat_eq (v other.index).word 0)) false)) }
{
    let above = word_exceeds(bank, most, factor)?;
    let none = is_zero(bank, other)?;
    let some = bank.not(none)?;
    let node = bank.connect(Connective::And, above, some)?;
    Ok(node)
}

/// Whether two factors, or the word of their product, are above a bound.
fn product_exceeds(
    bank: &mut Bank,
    most: u32,
    left: Node,
    right: Node,
    product: Node,
) -> Result<Node, BankFault>
    requires left { IsTerm bank.old (Word W64) left }
    requires right { IsTerm bank.old (Word W64) right }
    requires product { IsTerm bank.old (Word W64) product }
    ensures { IfOk result (λ n. Truthful bank.old bank.new n
        (λ v. product_above most (v left.index).word (v right.index).word (v product.index).word)) }
{
    let one = factor_exceeds(bank, most, left, right)?;
    let other = factor_exceeds(bank, most, right, left)?;
    let factors = bank.connect(Connective::Or, one, other)?;
    let word = word_exceeds(bank, most, product)?;
    let node = bank.connect(Connective::Or, factors, word)?;
    Ok(node)
}

/// So many bytes. It fails for want of memory alone.
pub(crate) fn request_bytes(bank: &mut Bank, most: u32, count: Number) -> Result<Request, BankFault>
    requires { IsNumber bank.old count }
    ensures { IfOk result (λ x. Requests bank.old bank.new most x (λ v. address_of (number_in v count))) }
{
    let size = address(bank, count)?;
    let exceeds = word_exceeds(bank, most, size)?;
    Ok(Request { size, exceeds })
}

/// So many elements of so many bytes each. It fails for want of memory alone.
pub(crate) fn request_array(
    bank: &mut Bank,
    most: u32,
    count: Number,
    size: Number,
) -> Result<Request, BankFault>
    requires count { IsNumber bank.old count }
    requires size { IsNumber bank.old size }
    ensures { IfOk result (λ x. Requests bank.old bank.new most x
        (λ v. address_of (number_in v count) * address_of (number_in v size))) }
{
    let left = address(bank, count)?;
    let right = address(bank, size)?;
    let product = bank.binary(WordOperator::Mul, Width::W64, left, right)?;
    let exceeds = product_exceeds(bank, most, left, right, product)?;
    Ok(Request {
        size: product,
        exceeds,
    })
}
