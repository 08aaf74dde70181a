//! The numbers that prints see, one at a time.
ghost use Rattle.std.specs.Prelude.{◌≡◌, ◌↔◌, ◌<◌, ◌≤◌, ◌-◌, ◌^◌, Some, true, slice_get, IfOk, IfSome, MatchOption};
ghost use Rattle.plain_data.specs.Words.{bits as bits_of};
ghost use Rattle.term_bank.specs.Banks.{IsBank};
ghost use Rattle.term_bank.specs.Values.{number};
ghost use Rattle.term_bank.specs.declared.shape.Shape.TheVariants as shape;
ghost use Rattle.run_formula.specs.Watched.{AreSeen, IsAt, IsSeen, SaysSo, seen_in};

use crate::banks::keeps_bank;
use plain_data::{Items, Width, to_signed, wrap};
use std::alloc::Global;
use term_bank::{Bank, BankFault, Node, Shape, Sort, WordTest};

/// A number that a print sees: a word of an integer type.
#[derive(Clone, Copy)]
pub struct Seen {
    /// How many bits the word has.
    pub width: Width,
    /// Whether it is read with its sign.
    pub is_signed: bool,
    /// The number of the word's node.
    pub word: u32,
}

/// The last of some numbers, and the node of those before it.
#[derive(Clone, Copy)]
struct Last {
    seen: Seen,
    before: u32,
}

/// The last of a node's numbers, where its shape shows one.
fn last_of(bank: &Bank, numbers: u32) -> Option<Last>
    ensures { IfSome result (λ l. slice_get bank.now numbers ≡
        Some (shape.NumberBehind l.before l.seen.width l.seen.is_signed l.seen.word)) }
{
    match bank.shape(numbers) {
        Some(
            Shape::NumberBehind {
                numbers: before,
                width,
                is_signed,
                word,
            },
        ) => Some(Last {
            seen: Seen {
                width,
                is_signed,
                word,
            },
            before,
        }),
        _ => None,
    }
}

/// Whether a node's shape shows that it has no numbers.
fn has_none(bank: &Bank, numbers: u32) -> bool
    ensures { result ≡ true → slice_get bank.now numbers ≡ Some shape.NoNumbers }
{
    match bank.shape(numbers) {
        Some(Shape::NoNumbers) => true,
        _ => false,
    }
}

/// The numbers of a node, the last one first. It fails for want of memory, and where shapes don't show them.
fn numbers_of(alloc: Global, bank: &Bank, numbers: u32) -> Result<Items<Seen>, BankFault>
    ensures { IfOk result (AreSeen bank.now numbers) }
{
    keeps_bank(bank);
    let mut all = Items::new(alloc);
    let mut at = numbers;
    'numbers: while let Some(last) = last_of(bank, at) {
        all.push(last.seen)?;
        at = last.before;
    }
    if !has_none(bank, at) {
        return Err(BankFault::Memory);
    }
    Ok(all)
}

/// How far from the end the place is, where so many numbers are.
fn from_end(len: usize, place: u32) -> Option<usize>
    ensures { MatchOption result (len ≤ place) (λ index. (place < len) × (index ≡ len - 1 - place)) }
{
    let place = place as usize;
    if place < len {
        return Some(len - 1 - place);
    }
    None
}

/// The number at a place among those of a node.
pub(crate) fn number_at(
    alloc: Global,
    bank: &Bank,
    numbers: u32,
    place: u32,
) -> Result<Option<Seen>, BankFault>
    ensures { IfOk result (IsAt bank.now numbers place) }
{
    let all = numbers_of(alloc, bank, numbers)?;
    let seen = all.as_slice();
    match from_end(seen.len(), place) {
        None => Ok(None),
        Some(index) => {
            let one = seen[index];
            Ok(Some(one))
        }
    }
}

/// Whether a word is this value in an integer type.
fn is_value(word: u64, width: Width, is_signed: bool, value: &i128) -> bool
    requires { word < 2 ^ bits_of width }
    ensures { (result ≡ true) ↔ (number is_signed width word ≡ value.now) }
{
    if is_signed {
        return i128::from(to_signed(word, width)) == *value;
    }
    i128::from(word) == *value
}

/// Whether a number is another than this.
fn is_other(bank: &mut Bank, seen: Seen, value: &i128) -> Result<Node, BankFault>
    requires { IsSeen bank.old seen }
    ensures { IfOk result (SaysSo bank.old bank.new (λ v. seen_in v seen ≡ value.now → ⊥)) }
{
    keeps_bank(bank);
    let word = wrap(*value, seen.width);
    if !is_value(word, seen.width, seen.is_signed, value) {
        let always = bank.truth(true)?;
        return Ok(always);
    }
    let one = Node {
        index: seen.word,
        sort: Sort::Word(seen.width),
    };
    let other = bank.word(word, seen.width)?;
    let equal = bank.test(WordTest::Equal, seen.width, one, other)?;
    let unequal = bank.not(equal)?;
    Ok(unequal)
}

/// Whether the number at a place among those of a node is another than this; where there is none, it is.
pub(crate) fn sees_other(
    alloc: Global,
    bank: &mut Bank,
    numbers: u32,
    place: u32,
    value: &i128,
) -> Result<Node, BankFault>
    ensures { IfOk result (SaysSo bank.old bank.new (λ v. slice_get (v numbers).numbers place ≡ Some value.now → ⊥)) }
{
    match number_at(alloc, bank, numbers, place)? {
        None => {
            let always = bank.truth(true)?;
            Ok(always)
        }
        Some(seen) => {
            let other = is_other(bank, seen, value)?;
            Ok(other)
        }
    }
}
