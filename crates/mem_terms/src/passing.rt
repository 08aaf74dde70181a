ghost use Rattle.std.specs.Prelude.{◌≡◌, ◌≤◌, IsTrue, IfSome};
ghost use Rattle.plain_data.specs.declared.width.Width.TheVariants.{W64};
ghost use Rattle.term_bank.specs.Memories.{octets as octets_of};
ghost use Rattle.term_bank.specs.Shapes.{IsNode, memory as memory_node, word};
ghost use Rattle.term_bank.specs.Terms.{IsTerm};
ghost use Rattle.term_bank.specs.Under.{IsUnder};
ghost use Rattle.term_bank.specs.declared.sort.Sort.TheVariants.{Word, Memory};
ghost use Rattle.mem_terms.specs.Reads.{IsApart, AreApart, IsBefore, ReadsAlike};

use plain_data::Width;
use term_bank::{Bank, Node, Shape, Sort};

/// How many bytes a word has.
pub fn octets(width: Width) -> u64
    ensures { result ≡ octets_of width }
{
    match width {
        Width::W8 => 1,
        Width::W16 => 2,
        Width::W32 => 4,
        Width::W64 => 8,
    }
}

/// Whether so many addresses from one on and from another on share none, below the end of the address space.
fn is_apart(from: u64, length: u64, other: u64, count: u64) -> bool
    ensures { IsTrue result → IsApart from length other count }
{
    match (from.checked_add(length), other.checked_add(count)) {
        (Some(end), Some(other_end)) => other_end <= from || end <= other,
        _ => false,
    }
}

/// Whether constants tell that a range and a word's bytes are apart.
fn are_apart(bank: &Bank, from: u32, length: u64, other: u32, width: Width) -> bool
    requires from { IsNode bank.now (word W64 from) }
    requires other { IsNode bank.now (word W64 other) }
    ensures { IsTrue result → AreApart bank.now from length other (octets_of width) }
{
    match (
        bank.constant(from, Width::W64),
        bank.constant(other, Width::W64),
    ) {
        (Some(a), Some(b)) => is_apart(a, length, b, octets(width)),
        _ => false,
    }
}

/// The memory before the last change, where that doesn't reach a word's bytes at an address.
fn before(bank: &Bank, memory: u32, address: Node, width: Width) -> Option<u32>
    requires memory { IsNode bank.now (memory_node memory) }
    requires address { IsTerm bank.now (Word W64) address }
    ensures { IfSome result (IsBefore bank.now (octets_of width) address memory) }
{
    match bank.shape(memory) {
        Some(
            Shape::Write {
                width: written,
                memory: old,
                address: to,
                ..
            },
        ) if are_apart(bank, to, octets(written), address.index, width) => Some(old),
        Some(Shape::Made { memory: old, .. }) => Some(old),
        Some(Shape::Ended { memory: old, .. }) => Some(old),
        _ => None,
    }
}

/// The earliest memory in which a word's bytes at an address are those of the memory: changes are passed over that
/// constants tell to be beside them.
pub fn seen(bank: &Bank, memory: Node, address: Node, width: Width) -> Node
    requires memory { IsTerm bank.now Memory memory }
    requires address { IsTerm bank.now (Word W64) address }
    ensures node { IsTerm bank.now Memory result }
    ensures alike { ReadsAlike bank.now (octets_of width) address memory.index result.index }
    ensures most { result.index ≤ memory.index }
    ensures under { IsUnder bank.now memory.index result.index }
{
    let mut index = memory.index;
    'changes: while let Some(old) = before(bank, index, address, width) {
        index = old;
    }
    Node {
        index,
        sort: Sort::Memory,
    }
}
