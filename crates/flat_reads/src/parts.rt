ghost use Rattle.std.specs.Prelude.{◌≡◌, ◌∷◌, [], nat_lt, ◌<◌, ◌^◌};
ghost use Rattle.plain_data.specs.Words.{bits};
ghost use Rattle.plain_data.specs.declared.width.Width.TheVariants.{W8, W64};
ghost use Rattle.term_bank.specs.Memories.{behind as behind_of, distance as distance_of};
ghost use Rattle.term_bank.specs.Shapes.{IsNode, word};
ghost use Rattle.term_bank.specs.Banks.{IsBank};
ghost use Rattle.term_bank.specs.Terms.{IsTerm};
ghost use Rattle.term_bank.specs.Values.{of_truth, of_word, converted, result_of};
ghost use Rattle.term_bank.specs.declared.shape.Extension.TheVariants as extension;
ghost use Rattle.term_bank.specs.declared.sort.Sort.TheVariants.{Truth, Word};
ghost use Rattle.flat_reads.specs.Flats.{Gives};
ghost use Rattle.flat_reads.specs.Parts.{moved, octet_of};

use plain_data::Width;
use term_bank::{Bank, BankFault, Extension, Node, Shape, Sort, WordOperator, WordTest};

/// A constant word.
pub(crate) fn constant(bank: &mut Bank, value: u64, width: Width) -> Result<Node, BankFault>
    requires { value < 2 ^ bits width }
    ensures { Gives bank.old bank.new [] (Word width) (λ _. of_word value) result }
{
    bank.add(Shape::Constant { bits: value, width })
}

/// How far an address is behind another, round the end of the address space.
pub(crate) fn distance(bank: &mut Bank, from: u32, address: u32) -> Result<Node, BankFault>
    requires from { IsNode bank.old (word W64 from) }
    requires address { IsNode bank.old (word W64 address) }
    ensures { Gives bank.old bank.new (word W64 from ∷ (word W64 address ∷ [])) (Word W64)
        (λ v. of_word (distance_of (v from).word (v address).word)) result }
{
    bank.add(Shape::Binary {
        operator: WordOperator::Sub,
        width: Width::W64,
        left: address,
        right: from,
    })
}

/// The address that is so many behind another.
pub(crate) fn behind(bank: &mut Bank, from: u32, far: u32) -> Result<Node, BankFault>
    requires from { IsNode bank.old (word W64 from) }
    requires far { IsNode bank.old (word W64 far) }
    ensures { Gives bank.old bank.new (word W64 from ∷ (word W64 far ∷ [])) (Word W64)
        (λ v. of_word (behind_of (v from).word (v far).word)) result }
{
    bank.add(Shape::Binary {
        operator: WordOperator::Add,
        width: Width::W64,
        left: from,
        right: far,
    })
}

/// Whether a distance is below a length.
pub(crate) fn inside(bank: &mut Bank, far: u32, length: u32) -> Result<Node, BankFault>
    requires far { IsNode bank.old (word W64 far) }
    requires length { IsNode bank.old (word W64 length) }
    ensures { Gives bank.old bank.new (word W64 far ∷ (word W64 length ∷ [])) Truth
        (λ v. of_truth (nat_lt (v far).word (v length).word)) result }
{
    bank.add(Shape::Test {
        test: WordTest::Below,
        width: Width::W64,
        left: far,
        right: length,
    })
}

/// A word as one of another width, as an unsigned word.
pub(crate) fn converted_to(
    bank: &mut Bank,
    from: Width,
    to: Width,
    operand: u32,
) -> Result<Node, BankFault>
    requires { IsNode bank.old (word from operand) }
    ensures { Gives bank.old bank.new (word from operand ∷ []) (Word to)
        (λ v. of_word (converted extension.Zero from to (v operand).word)) result }
{
    bank.add(Shape::Convert {
        extension: Extension::Zero,
        from,
        to,
        operand,
    })
}

/// An operator on two words.
pub(crate) fn binary(
    bank: &mut Bank,
    operator: WordOperator,
    width: Width,
    left: u32,
    right: u32,
) -> Result<Node, BankFault>
    requires left { IsNode bank.old (word width left) }
    requires right { IsNode bank.old (word width right) }
    ensures { Gives bank.old bank.new (word width left ∷ (word width right ∷ [])) (Word width)
        (λ v. of_word (result_of operator width (v left).word (v right).word)) result }
{
    bank.add(Shape::Binary {
        operator,
        width,
        left,
        right,
    })
}

/// The octet of a word of more than one that is so many behind its first.
fn shifted_octet(bank: &mut Bank, value: u32, width: Width, far: Node) -> Result<Node, BankFault>
    requires value { IsNode bank.old (word width value) }
    requires far { IsTerm bank.old (Word W64) far }
    ensures { Gives bank.old bank.new (word width value ∷ (word W64 far.index ∷ [])) (Word W8)
        (λ v. of_word (moved width (v value).word (v far.index).word)) result }
{
    let three = constant(bank, 3, Width::W64)?;
    let shift = binary(bank, WordOperator::Shl, Width::W64, far.index, three.index)?;
    let by = converted_to(bank, Width::W64, width, shift.index)?;
    let low = binary(bank, WordOperator::Lshr, width, value, by.index)?;
    converted_to(bank, width, Width::W8, low.index)
}

/// The octet of a word that is so many behind its first.
pub(crate) fn octet(bank: &mut Bank, value: u32, width: Width, far: Node) -> Result<Node, BankFault>
    requires bank { IsBank bank.old }
    requires value { IsNode bank.old (word width value) }
    requires far { IsTerm bank.old (Word W64) far }
    ensures { Gives bank.old bank.new (word width value ∷ (word W64 far.index ∷ [])) (Word W8)
        (λ v. of_word (octet_of width (v value).word (v far.index).word)) result }
{
    match width {
        Width::W8 => Ok(Node {
            index: value,
            sort: Sort::Word(Width::W8),
        }),
        _ => shifted_octet(bank, value, width, far),
    }
}
