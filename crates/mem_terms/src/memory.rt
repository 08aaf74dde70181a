ghost use Rattle.plain_data.specs.declared.width.Width.TheVariants.{W64};
ghost use Rattle.term_bank.specs.Terms.{IsTerm, Makes};
ghost use Rattle.term_bank.specs.declared.sort.Sort.TheVariants.{Truth, Word, Memory};
ghost use Rattle.term_bank.specs.declared.shape.Shape.TheVariants.{Initial, Write, ZeroRange, CopyRange, Made, Ended};
ghost use Rattle.term_bank.specs.declared.shape.Shape.TheVariants.{Read, ObjectSize, IsLive, HasKind, Choose};

use crate::passing::seen;
use c_store::ObjectKind;
use plain_data::Width;
use term_bank::{Bank, BankFault, Node, Shape, Sort};

/// The memory that holds the world's initial bytes, with no object.
pub fn initial(bank: &mut Bank) -> Result<Node, BankFault>
    ensures { Makes bank.old bank.new Initial result }
{
    bank.add(Shape::Initial)
}

/// The memory in which a word of this width was written at an address, little endian.
pub fn write(
    bank: &mut Bank,
    memory: Node,
    address: Node,
    width: Width,
    value: Node,
) -> Result<Node, BankFault>
    requires memory { IsTerm bank.old Memory memory }
    requires address { IsTerm bank.old (Word W64) address }
    requires value { IsTerm bank.old (Word width) value }
    ensures { Makes bank.old bank.new (Write width memory.index address.index value.index) result }
{
    bank.add(Shape::Write {
        width,
        memory: memory.index,
        address: address.index,
        value: value.index,
    })
}

/// The memory in which so many bytes from an address on are 0.
pub fn zero_range(
    bank: &mut Bank,
    memory: Node,
    from: Node,
    length: Node,
) -> Result<Node, BankFault>
    requires memory { IsTerm bank.old Memory memory }
    requires from { IsTerm bank.old (Word W64) from }
    requires length { IsTerm bank.old (Word W64) length }
    ensures { Makes bank.old bank.new (ZeroRange memory.index from.index length.index) result }
{
    bank.add(Shape::ZeroRange {
        memory: memory.index,
        from: from.index,
        length: length.index,
    })
}

/// The memory in which so many bytes from `to` on are those that `source` has from `from` on, however the two overlap.
pub fn copy_range(
    bank: &mut Bank,
    memory: Node,
    to: Node,
    source: Node,
    from: Node,
    length: Node,
) -> Result<Node, BankFault>
    requires memory { IsTerm bank.old Memory memory }
    requires to { IsTerm bank.old (Word W64) to }
    requires source { IsTerm bank.old Memory source }
    requires from { IsTerm bank.old (Word W64) from }
    requires length { IsTerm bank.old (Word W64) length }
    ensures { Makes bank.old bank.new (CopyRange memory.index to.index source.index from.index length.index) result }
{
    bank.add(Shape::CopyRange {
        memory: memory.index,
        to: to.index,
        source: source.index,
        from: from.index,
        length: length.index,
    })
}

/// The word at an address, little endian. Changes that constants tell to be beside it are passed over, and a word
/// that was written there last is the answer.
pub fn read(bank: &mut Bank, memory: Node, address: Node, width: Width) -> Result<Node, BankFault>
    requires memory { IsTerm bank.old Memory memory }
    requires address { IsTerm bank.old (Word W64) address }
    ensures { Makes bank.old bank.new (Read width memory.index address.index) result }
{
    let seen = seen(bank, memory, address, width);
    match bank.shape(seen.index) {
        Some(
            Shape::Write {
                width: written,
                address: to,
                value,
                ..
            },
        ) if written == width && to == address.index => Ok(Node {
            index: value,
            sort: Sort::Word(width),
        }),
        _ => bank.add(Shape::Read {
            width,
            memory: seen.index,
            address: address.index,
        }),
    }
}

/// The memory in which an object lives.
pub fn made(
    bank: &mut Bank,
    memory: Node,
    kind: ObjectKind,
    object: Node,
    size: Node,
) -> Result<Node, BankFault>
    requires memory { IsTerm bank.old Memory memory }
    requires object { IsTerm bank.old (Word W64) object }
    requires size { IsTerm bank.old (Word W64) size }
    ensures { Makes bank.old bank.new (Made kind memory.index object.index size.index) result }
{
    bank.add(Shape::Made {
        kind,
        memory: memory.index,
        object: object.index,
        size: size.index,
    })
}

/// The memory in which an object's life has ended.
pub fn ended(bank: &mut Bank, memory: Node, object: Node) -> Result<Node, BankFault>
    requires memory { IsTerm bank.old Memory memory }
    requires object { IsTerm bank.old (Word W64) object }
    ensures { Makes bank.old bank.new (Ended memory.index object.index) result }
{
    bank.add(Shape::Ended {
        memory: memory.index,
        object: object.index,
    })
}

/// An object's size in bytes, 0 where none of this number lives.
pub fn object_size(bank: &mut Bank, memory: Node, object: Node) -> Result<Node, BankFault>
    requires memory { IsTerm bank.old Memory memory }
    requires object { IsTerm bank.old (Word W64) object }
    ensures { Makes bank.old bank.new (ObjectSize memory.index object.index) result }
{
    bank.add(Shape::ObjectSize {
        memory: memory.index,
        object: object.index,
    })
}

/// Whether so many bytes from an address on are of one live object.
pub fn is_live(
    bank: &mut Bank,
    memory: Node,
    address: Node,
    length: Node,
) -> Result<Node, BankFault>
    requires memory { IsTerm bank.old Memory memory }
    requires address { IsTerm bank.old (Word W64) address }
    requires length { IsTerm bank.old (Word W64) length }
    ensures { Makes bank.old bank.new (IsLive memory.index address.index length.index) result }
{
    bank.add(Shape::IsLive {
        memory: memory.index,
        address: address.index,
        length: length.index,
    })
}

/// Whether a live object of this kind has this number.
pub fn has_kind(
    bank: &mut Bank,
    memory: Node,
    kind: ObjectKind,
    object: Node,
) -> Result<Node, BankFault>
    requires memory { IsTerm bank.old Memory memory }
    requires object { IsTerm bank.old (Word W64) object }
    ensures { Makes bank.old bank.new (HasKind kind memory.index object.index) result }
{
    bank.add(Shape::HasKind {
        kind,
        memory: memory.index,
        object: object.index,
    })
}

/// Of two nodes of one sort, the first where the condition is true.
pub fn choose(bank: &mut Bank, condition: Node, yes: Node, no: Node) -> Result<Node, BankFault>
    requires condition { IsTerm bank.old Truth condition }
    requires yes { IsTerm bank.old yes.sort yes }
    requires no { IsTerm bank.old yes.sort no }
    ensures { Makes bank.old bank.new (Choose yes.sort condition.index yes.index no.index) result }
{
    bank.choose(yes.sort, condition, yes, no)
}
