ghost use Rattle.std.specs.Prelude.{nat_eq, not, ◌&&◌};
ghost use Rattle.plain_data.specs.declared.width.Width.TheVariants.{W64};
ghost use Rattle.c_store.specs.Store.{object_of, offset_of};
ghost use Rattle.c_store.specs.Access.{can_access as may_access, can_write as may_write, can_free as may_free};
ghost use Rattle.c_store.specs.Access.{in_one_object as are_in_one_object, is_live as live_in, is_literal, is_heap};
ghost use Rattle.term_bank.specs.Memories.{has_kind as kind_in};
ghost use Rattle.term_bank.specs.Terms.{IsTerm};
ghost use Rattle.term_bank.specs.Values.{of_truth, of_word};
ghost use Rattle.term_bank.specs.declared.sort.Sort.TheVariants.{Truth, Word, Memory};
ghost use Rattle.mem_terms.specs.Truths.{Gives};

use crate::memory::{has_kind, is_live};
use c_store::ObjectKind;
use plain_data::Width;
use term_bank::{Bank, BankFault, Connective, Node, WordOperator, WordTest};

/// The number of the object that an address belongs to.
pub fn object_number(bank: &mut Bank, address: Node) -> Result<Node, BankFault>
    requires { IsTerm bank.old (Word W64) address }
    ensures { Gives bank.old bank.new (Word W64) (λ v. of_word (object_of (v address.index).word)) result }
{
    let by = bank.word(32, Width::W64)?;
    bank.binary(WordOperator::Lshr, Width::W64, address, by)
}

/// How far an address is behind its object's first byte.
pub fn offset(bank: &mut Bank, address: Node) -> Result<Node, BankFault>
    requires { IsTerm bank.old (Word W64) address }
    ensures { Gives bank.old bank.new (Word W64) (λ v. of_word (offset_of (v address.index).word)) result }
{
    let mask = bank.word(0xffff_ffff, Width::W64)?;
    bank.binary(WordOperator::And, Width::W64, address, mask)
}

/// Whether a word of 64 bits is 0.
fn is_zero(bank: &mut Bank, word: Node) -> Result<Node, BankFault>
    requires { IsTerm bank.old (Word W64) word }
    ensures { Gives bank.old bank.new Truth (λ v. of_truth (nat_eq (v word.index).word 0)) result }
{
    let zero = bank.word(0, Width::W64)?;
    bank.test(WordTest::Equal, Width::W64, word, zero)
}

/// Whether an address is its object's first.
fn is_start(bank: &mut Bank, address: Node) -> Result<Node, BankFault>
    requires { IsTerm bank.old (Word W64) address }
    ensures { Gives bank.old bank.new Truth
        (λ v. of_truth (nat_eq (offset_of (v address.index).word) 0)) result }
{
    let behind = offset(bank, address)?;
    is_zero(bank, behind)
}

/// Whether an address belongs to a live object of a kind.
fn kind_at(
    bank: &mut Bank,
    memory: Node,
    kind: ObjectKind,
    address: Node,
) -> Result<Node, BankFault>
    requires memory { IsTerm bank.old Memory memory }
    requires address { IsTerm bank.old (Word W64) address }
    ensures { Gives bank.old bank.new Truth
        (λ v. of_truth (kind_in kind ((v memory.index).store.objects (object_of (v address.index).word)))) result }
{
    let object = object_number(bank, address)?;
    has_kind(bank, memory, kind, object)
}

/// Whether an address is in, or one past, a live object.
fn in_object(bank: &mut Bank, memory: Node, address: Node) -> Result<Node, BankFault>
    requires memory { IsTerm bank.old Memory memory }
    requires address { IsTerm bank.old (Word W64) address }
    ensures { Gives bank.old bank.new Truth
        (λ v. of_truth (live_in (v memory.index).store (v address.index).word 0)) result }
{
    let nothing = bank.word(0, Width::W64)?;
    is_live(bank, memory, address, nothing)
}

/// Whether two addresses are each in, or one past, a live object.
fn in_objects(bank: &mut Bank, memory: Node, left: Node, right: Node) -> Result<Node, BankFault>
    requires memory { IsTerm bank.old Memory memory }
    requires left { IsTerm bank.old (Word W64) left }
    requires right { IsTerm bank.old (Word W64) right }
    ensures { Gives bank.old bank.new Truth
        (λ v. of_truth (live_in (v memory.index).store (v left.index).word 0
        && live_in (v memory.index).store (v right.index).word 0)) result }
{
    let one = in_object(bank, memory, left)?;
    let other = in_object(bank, memory, right)?;
    bank.connect(Connective::And, one, other)
}

/// Whether two addresses belong to objects of one number.
fn of_one_number(bank: &mut Bank, left: Node, right: Node) -> Result<Node, BankFault>
    requires left { IsTerm bank.old (Word W64) left }
    requires right { IsTerm bank.old (Word W64) right }
    ensures { Gives bank.old bank.new Truth
        (λ v. of_truth (nat_eq (object_of (v left.index).word) (object_of (v right.index).word))) result }
{
    let one = object_number(bank, left)?;
    let other = object_number(bank, right)?;
    bank.test(WordTest::Equal, Width::W64, one, other)
}

/// Whether so many bytes at an address may be accessed: each is of one live object (C99 6.5.3.2p4).
pub fn can_access(
    bank: &mut Bank,
    memory: Node,
    address: Node,
    length: Node,
) -> Result<Node, BankFault>
    requires memory { IsTerm bank.old Memory memory }
    requires address { IsTerm bank.old (Word W64) address }
    requires length { IsTerm bank.old (Word W64) length }
    ensures { Gives bank.old bank.new Truth
        (λ v. of_truth (may_access (v memory.index).store (v address.index).word (v length.index).word)) result }
{
    let nothing = is_zero(bank, length)?;
    let live = is_live(bank, memory, address, length)?;
    bank.connect(Connective::Or, nothing, live)
}

/// Whether an address belongs to no string literal.
fn no_literal(bank: &mut Bank, memory: Node, address: Node) -> Result<Node, BankFault>
    requires memory { IsTerm bank.old Memory memory }
    requires address { IsTerm bank.old (Word W64) address }
    ensures { Gives bank.old bank.new Truth
        (λ v. of_truth (not (is_literal ((v memory.index).store.objects (object_of (v address.index).word))))) result }
{
    let literal = kind_at(bank, memory, ObjectKind::Literal, address)?;
    bank.not(literal)
}

/// Whether so many bytes at an address may be written: none is of a string literal (C99 6.4.5p6).
pub fn can_write(
    bank: &mut Bank,
    memory: Node,
    address: Node,
    length: Node,
) -> Result<Node, BankFault>
    requires memory { IsTerm bank.old Memory memory }
    requires address { IsTerm bank.old (Word W64) address }
    requires length { IsTerm bank.old (Word W64) length }
    ensures { Gives bank.old bank.new Truth
        (λ v. of_truth (may_write (v memory.index).store (v address.index).word (v length.index).word)) result }
{
    let nothing = is_zero(bank, length)?;
    let other = no_literal(bank, memory, address)?;
    bank.connect(Connective::Or, nothing, other)
}

/// Whether an address is the first of a live object that was allocated.
fn is_allocated(bank: &mut Bank, memory: Node, address: Node) -> Result<Node, BankFault>
    requires memory { IsTerm bank.old Memory memory }
    requires address { IsTerm bank.old (Word W64) address }
    ensures { Gives bank.old bank.new Truth
        (λ v. of_truth (is_heap ((v memory.index).store.objects (object_of (v address.index).word))
        && nat_eq (offset_of (v address.index).word) 0)) result }
{
    let heap = kind_at(bank, memory, ObjectKind::Heap, address)?;
    let first = is_start(bank, address)?;
    bank.connect(Connective::And, heap, first)
}

/// Whether an address may be freed: it is null, or the first byte of a live object that was allocated (C99 7.20.3.2).
pub fn can_free(bank: &mut Bank, memory: Node, address: Node) -> Result<Node, BankFault>
    requires memory { IsTerm bank.old Memory memory }
    requires address { IsTerm bank.old (Word W64) address }
    ensures { Gives bank.old bank.new Truth
        (λ v. of_truth (may_free (v memory.index).store (v address.index).word)) result }
{
    let null = is_zero(bank, address)?;
    let allocated = is_allocated(bank, memory, address)?;
    bank.connect(Connective::Or, null, allocated)
}

/// Whether two addresses are both in, or one past, one live object (C99 6.5.6p8, 6.5.8p5).
pub fn in_one_object(
    bank: &mut Bank,
    memory: Node,
    left: Node,
    right: Node,
) -> Result<Node, BankFault>
    requires memory { IsTerm bank.old Memory memory }
    requires left { IsTerm bank.old (Word W64) left }
    requires right { IsTerm bank.old (Word W64) right }
    ensures { Gives bank.old bank.new Truth
        (λ v. of_truth (are_in_one_object (v memory.index).store (v left.index).word (v right.index).word)) result }
{
    let both = in_objects(bank, memory, left, right)?;
    let same = of_one_number(bank, left, right)?;
    bank.connect(Connective::And, both, same)
}
