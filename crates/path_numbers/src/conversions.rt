ghost use Rattle.std.specs.Prelude.{◌≡◌, ◌≤ℤ◌, ℕ, ℤ, pos, negsuc, ◌-◌, ◌^◌, IfOk, not, true};
ghost use Rattle.plain_data.specs.Words.{word as word_of};
ghost use Rattle.plain_data.specs.declared.width.Width.TheVariants.{W64};
ghost use Rattle.c_language.specs.Integers.{is_zero, number_of};
ghost use Rattle.c_means.specs.Values.{address as address_of};
ghost use Rattle.core_tree.specs.Numbers.{is_in, wrapped as wrapped_to, converted_to};
ghost use Rattle.term_bank.specs.Banks.{IsBank};
ghost use Rattle.term_bank.specs.Terms.{IsTerm};
ghost use Rattle.term_bank.specs.declared.sort.Sort.TheVariants.{Truth};
ghost use Rattle.path_states.specs.States.{IsNumber, number_in};
ghost use Rattle.path_numbers.specs.Answers.{Numbered, Truthful, Worded, extension_of};

use core_tree::{ValueType, WordType};
use path_states::Number;
use plain_data::{Width, wrap};
use term_bank::{Bank, BankFault, Extension, Node, Sort, WordTest};

/// The type `int`.
pub const INT: WordType = WordType {
    width: Width::W32,
    is_signed: true,
};

/// The type of addresses.
pub const ADDRESS: WordType = WordType {
    width: Width::W64,
    is_signed: false,
};

/// An integer type that has a value: `int`, else the narrower one of 64 bits.
fn word_type_for(value: i128) -> WordType
    requires least { negsuc (2 ^ 63 - 1) ≤ℤ value }
    requires most { value ≤ℤ pos (2 ^ 64 - 1) }
    ensures { is_in result value ≡ true }
{
    let is_int = -0x8000_0000 <= value && value <= 0x7fff_ffff;
    WordType {
        width: if is_int { Width::W32 } else { Width::W64 },
        is_signed: is_int || value <= 0x7fff_ffff_ffff_ffff,
    }
}

/// A number that is the same in every environment. It fails for want of memory alone.
pub fn constant(bank: &mut Bank, value: i128) -> Result<Number, BankFault>
    requires least { negsuc (2 ^ 63 - 1) ≤ℤ value }
    requires most { value ≤ℤ pos (2 ^ 64 - 1) }
    ensures { IfOk result (λ x. Numbered bank.old bank.new x (λ v. value)) }
{
    let word = word_type_for(value);
    let node = bank.word(wrap(value, word.width), word.width)?;
    Ok(Number { node, word })
}

/// How a word of an integer type is read.
fn extension(word: WordType) -> Extension
    ensures { result ≡ extension_of word.is_signed }
{
    if word.is_signed {
        Extension::Sign
    } else {
        Extension::Zero
    }
}

/// The bank keeps its invariant, which proofs learn here.
pub(crate) fn keeps_bank(bank: &Bank)
    ensures { IsBank bank.now }
{
    let _ = bank.len();
}

/// The node of a number's word of this width: the number modulo 2^N (C99 6.3.1.3). It fails for want of memory alone.
pub fn in_width(bank: &mut Bank, number: Number, width: Width) -> Result<Node, BankFault>
    requires { IsNumber bank.old number }
    ensures { IfOk result (λ n. Worded bank.old bank.new width n (λ v. word_of width (number_in v number))) }
{
    let from = number.word.width;
    if from == width {
        keeps_bank(bank);
        return Ok(number.node);
    }
    let node = bank.convert(extension(number.word), from, width, number.node)?;
    Ok(node)
}

/// A number in an integer type (C99 6.3.1.3). It fails for want of memory alone.
pub fn wrapped(bank: &mut Bank, number: Number, word: WordType) -> Result<Number, BankFault>
    requires { IsNumber bank.old number }
    ensures { IfOk result (λ x. Numbered bank.old bank.new x (λ v. wrapped_to word (number_in v number))) }
{
    let node = in_width(bank, number, word.width)?;
    Ok(Number { node, word })
}

/// The node of a pointer's address. It fails for want of memory alone.
pub fn address(bank: &mut Bank, number: Number) -> Result<Node, BankFault>
    requires { IsNumber bank.old number }
    ensures { IfOk result (λ n. Worded bank.old bank.new W64 n (λ v. address_of (number_in v number))) }
{
    in_width(bank, number, Width::W64)
}

/// Whether a number isn't 0. It fails for want of memory alone.
pub fn truth(bank: &mut Bank, number: Number) -> Result<Node, BankFault>
    requires { IsNumber bank.old number }
    ensures { IfOk result (λ n. Truthful bank.old bank.new n (λ v. not (is_zero (number_in v number)))) }
{
    let width = number.word.width;
    let zero = bank.word(0, width)?;
    let equal = bank.test(WordTest::Equal, width, number.node, zero)?;
    let other = bank.not(equal)?;
    Ok(other)
}

/// The number 1 where a truth is true, else 0, as an `int`. It fails for want of memory alone.
pub fn flag(bank: &mut Bank, truth: Node) -> Result<Number, BankFault>
    requires { IsTerm bank.old Truth truth }
    ensures { IfOk result (λ x. Numbered bank.old bank.new x (λ v. number_of (v truth.index).truth)) }
{
    let one = bank.word(1, Width::W32)?;
    let zero = bank.word(0, Width::W32)?;
    let node = bank.choose(Sort::Word(Width::W32), truth, one, zero)?;
    Ok(Number { node, word: INT })
}

/// Conversion, as by a cast or an assignment (C99 6.3.1.2, 6.3.1.3, 6.3.2.2, 6.3.2.3). It fails for want of memory
/// alone.
pub fn converted(bank: &mut Bank, number: Number, to: ValueType) -> Result<Number, BankFault>
    requires { IsNumber bank.old number }
    ensures { IfOk result (λ x. Numbered bank.old bank.new x (λ v. converted_to to (number_in v number))) }
{
    match to {
        ValueType::Void => constant(bank, 0),
        ValueType::Truth => {
            let truth = truth(bank, number)?;
            let number = flag(bank, truth)?;
            Ok(number)
        }
        ValueType::Word(word) => wrapped(bank, number, word),
        ValueType::Pointer => {
            let node = address(bank, number)?;
            Ok(Number {
                node,
                word: ADDRESS,
            })
        }
        ValueType::Block { .. } => {
            keeps_bank(bank);
            Ok(number)
        }
    }
}
