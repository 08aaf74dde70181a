//! What is told of an object that a question asks for, by its number.
ghost use Rattle.std.specs.Prelude.{◌≡◌, ◌∷◌, ◌++◌, ◌+◌, ◌||◌, [], None, Some, not, nat_eq, nat_le};
ghost use Rattle.plain_data.specs.declared.width.Width.TheVariants.{W64};
ghost use Rattle.c_store.specs.Store.{object_of, offset_of};
ghost use Rattle.c_store.specs.Access.{reaches};
ghost use Rattle.term_bank.specs.Banks.{IsBank};
ghost use Rattle.term_bank.specs.Memories.{number_of};
ghost use Rattle.term_bank.specs.Shapes.{Each, IsNode, truth, word};
ghost use Rattle.term_bank.specs.Terms.{IsTerm};
ghost use Rattle.term_bank.specs.Values.{of_truth, of_word};
ghost use Rattle.term_bank.specs.declared.sort.Sort.TheVariants.{Truth, Word};
ghost use Rattle.flat_reads.specs.Flats.{Gives};
ghost use Rattle.flat_reads.specs.Objects.{asked_of, object_in, operands, sort_in, told};

use crate::parts::{binary, constant, distance, inside};
use c_store::ObjectKind;
use plain_data::Width;
use term_bank::{Bank, BankFault, Connective, Node, Shape, Sort, WordOperator, WordTest};

/// What is asked of the object of a number, whatever memory it is asked of.
#[derive(Clone, Copy, PartialEq, Eq)]
pub enum ObjectQuestion {
    /// Whether so many bytes from an address on are of its object, and it lives.
    Live { address: u32, length: u32 },
    /// Whether it lives and is of this kind.
    Kind { kind: ObjectKind, object: u32 },
    /// Its size in bytes, 0 where it doesn't live.
    Size { object: u32 },
}

impl ObjectQuestion {
    /// The question as a shape, of a memory.
    pub(crate) fn of(self, memory: u32) -> Shape
        ensures { result ≡ asked_of memory self }
    {
        match self {
            ObjectQuestion::Live { address, length } => Shape::IsLive {
                memory,
                address,
                length,
            },
            ObjectQuestion::Kind { kind, object } => Shape::HasKind {
                kind,
                memory,
                object,
            },
            ObjectQuestion::Size { object } => Shape::ObjectSize { memory, object },
        }
    }
}

/// The number of the object that an address belongs to.
fn object_number(bank: &mut Bank, address: u32) -> Result<Node, BankFault>
    requires { IsNode bank.old (word W64 address) }
    ensures { Gives bank.old bank.new (word W64 address ∷ []) (Word W64)
        (λ v. of_word (object_of (v address).word)) result }
{
    let by = constant(bank, 32, Width::W64)?;
    binary(bank, WordOperator::Lshr, Width::W64, address, by.index)
}

/// How far an address is behind its object's first byte.
fn offset(bank: &mut Bank, address: u32) -> Result<Node, BankFault>
    requires { IsNode bank.old (word W64 address) }
    ensures { Gives bank.old bank.new (word W64 address ∷ []) (Word W64)
        (λ v. of_word (offset_of (v address).word)) result }
{
    let mask = constant(bank, 0xffff_ffff, Width::W64)?;
    binary(bank, WordOperator::And, Width::W64, address, mask.index)
}

/// Whether two truths are both false.
fn neither(bank: &mut Bank, left: u32, right: u32) -> Result<Node, BankFault>
    requires left { IsNode bank.old (truth left) }
    requires right { IsNode bank.old (truth right) }
    ensures { Gives bank.old bank.new (truth left ∷ (truth right ∷ [])) Truth
        (λ v. of_truth (not ((v left).truth || (v right).truth))) result }
{
    let either = bank.add(Shape::Connect {
        connective: Connective::Or,
        left,
        right,
    })?;
    bank.add(Shape::Not(either.index))
}

/// Whether so many bytes from an offset on are among those of an object of this size. No sum is taken that could go
/// round.
fn fits(bank: &mut Bank, offset: u32, length: u32, size: u32) -> Result<Node, BankFault>
    requires bank { IsBank bank.old }
    requires offset { IsNode bank.old (word W64 offset) }
    requires length { IsNode bank.old (word W64 length) }
    requires size { IsNode bank.old (word W64 size) }
    ensures { Gives bank.old bank.new (word W64 offset ∷ (word W64 length ∷ (word W64 size ∷ []))) Truth
        (λ v. of_truth (nat_le ((v offset).word + (v length).word) (v size).word)) result }
{
    let outside = inside(bank, size, offset)?;
    let room = distance(bank, offset, size)?;
    let short = inside(bank, room.index, length)?;
    neither(bank, outside.index, short.index)
}

/// Whether so many bytes from an address on are of its object, which has this size.
fn reached(bank: &mut Bank, address: u32, length: u32, size: u32) -> Result<Node, BankFault>
    requires bank { IsBank bank.old }
    requires address { IsNode bank.old (word W64 address) }
    requires length { IsNode bank.old (word W64 length) }
    requires size { IsNode bank.old (word W64 size) }
    ensures { Gives bank.old bank.new (word W64 address ∷ (word W64 length ∷ (word W64 size ∷ []))) Truth
        (λ v. of_truth (nat_le (offset_of (v address).word + (v length).word) (v size).word)) result }
{
    let offset = offset(bank, address)?;
    fits(bank, offset.index, length, size)
}

/// Whether two kinds are one.
fn is_kind(kind: ObjectKind, other: ObjectKind) -> bool
    ensures { result ≡ nat_eq (number_of kind) (number_of other) }
{
    kind == other
}

/// The number of the object that a question asks for.
fn number(bank: &mut Bank, question: ObjectQuestion) -> Result<Node, BankFault>
    requires bank { IsBank bank.old }
    requires operands { Each (IsNode bank.old) (operands question) }
    ensures { Gives bank.old bank.new (operands question) (Word W64) (λ v. of_word (object_in v question)) result }
{
    match question {
        ObjectQuestion::Live { address, .. } => object_number(bank, address),
        ObjectQuestion::Kind { object, .. } => Ok(Node {
            index: object,
            sort: Sort::Word(Width::W64),
        }),
        ObjectQuestion::Size { object } => Ok(Node {
            index: object,
            sort: Sort::Word(Width::W64),
        }),
    }
}

/// Whether a question asks for the object of a number.
pub(crate) fn asks_for(
    bank: &mut Bank,
    question: ObjectQuestion,
    object: u32,
) -> Result<Node, BankFault>
    requires bank { IsBank bank.old }
    requires operands { Each (IsNode bank.old) (operands question) }
    requires object { IsNode bank.old (word W64 object) }
    ensures { Gives bank.old bank.new (word W64 object ∷ operands question) Truth
        (λ v. of_truth (nat_eq (object_in v question) (v object).word)) result }
{
    let number = number(bank, question)?;
    bank.add(Shape::Test {
        test: WordTest::Equal,
        width: Width::W64,
        left: number.index,
        right: object,
    })
}

/// What is told of an object of this kind and size.
pub(crate) fn told_of(
    bank: &mut Bank,
    question: ObjectQuestion,
    kind: ObjectKind,
    size: u32,
) -> Result<Node, BankFault>
    requires bank { IsBank bank.old }
    requires operands { Each (IsNode bank.old) (operands question) }
    requires size { IsNode bank.old (word W64 size) }
    ensures { Gives bank.old bank.new (word W64 size ∷ operands question) (sort_in question)
        (λ v. told v question (Some (record { kind = kind; size = (v size).word }))) result }
{
    match question {
        ObjectQuestion::Live { address, length } => reached(bank, address, length, size),
        ObjectQuestion::Kind { kind: wanted, .. } => bank.add(Shape::Flag(is_kind(wanted, kind))),
        ObjectQuestion::Size { .. } => Ok(Node {
            index: size,
            sort: Sort::Word(Width::W64),
        }),
    }
}

/// What is told where no object of the number lives.
pub(crate) fn told_of_none(bank: &mut Bank, question: ObjectQuestion) -> Result<Node, BankFault>
    ensures { Gives bank.old bank.new [] (sort_in question) (λ v. told v question None) result }
{
    match question {
        ObjectQuestion::Live { .. } => bank.add(Shape::Flag(false)),
        ObjectQuestion::Kind { .. } => bank.add(Shape::Flag(false)),
        ObjectQuestion::Size { .. } => constant(bank, 0, Width::W64),
    }
}
