ghost use Rattle.std.specs.Prelude.{◌≡◌, ◌∷◌, ◌++◌, [], IfOk, OnOk, Some, slice_get};
ghost use Rattle.term_bank.specs.Banks.{IsBank};
ghost use Rattle.term_bank.specs.Shapes.{Each, IsNode};
ghost use Rattle.term_bank.specs.Values.{Grows};
ghost use Rattle.flat_reads.specs.Flats.{IsFlatOver};
ghost use Rattle.flat_reads.specs.Tables.{IsAgreement, IsFlat, IsRow, Lists, IsTable, Stands, is_listed};
ghost use Rattle.term_bank.specs.Under.{IsOnly};

use crate::flatten::flat_roots;
use plain_data::{Items, Width};
use std::alloc::Global;
use term_bank::{Bank, BankFault, Node, Shape, Sort, WordTest, nodes_under};

/// A byte of the initial memory: a row of the table.
#[derive(Clone, Copy, PartialEq, Eq)]
pub struct Row {
    /// The row's number.
    pub row: u32,
    /// The number of the address's node.
    pub address: u32,
    /// The number of the byte's node.
    pub byte: u32,
}

/// Terms without reads.
#[derive(Drop)]
pub struct Flat {
    /// The nodes that stand for the roots, in order.
    pub roots: Items<Node>,
    /// The bytes of the initial memory that stand under them.
    pub table: Items<Row>,
    /// Truths, one for each two rows: where their addresses are equal, their bytes are.
    pub constraints: Items<Node>,
}

/// Whether two rows have one byte if they have one address.
fn agreement(bank: &mut Bank, one: Row, other: Row) -> Result<Node, BankFault>
    requires bank { IsBank bank.old }
    requires one { Stands bank.old one }
    requires other { Stands bank.old other }
    ensures node { IfOk result (IsAgreement bank.new one other) }
    ensures grows { Grows bank.old bank.new }
    ensures bank { IsBank bank.new }
{
    let same = bank.add(Shape::Test {
        test: WordTest::Equal,
        width: Width::W64,
        left: one.address,
        right: other.address,
    })?;
    let bytes = bank.add(Shape::Test {
        test: WordTest::Equal,
        width: Width::W8,
        left: one.byte,
        right: other.byte,
    })?;
    let yes = bank.add(Shape::Flag(true))?;
    bank.add(Shape::Choose {
        sort: Sort::Truth,
        condition: same.index,
        yes: bytes.index,
        no: yes.index,
    })
}

/// Constrains a row by each of the rows before it.
fn constrain(
    bank: &mut Bank,
    table: &[Row],
    row: Row,
    constraints: &mut Items<Node>,
) -> Result<(), BankFault>
    requires bank { IsBank bank.old }
    requires rows { (i : _) → (x : _) → slice_get table.now i ≡ Some x → Stands bank.old x }
    requires row { Stands bank.old row }
    ensures table { OnOk result ((ps : _) → IsTable bank.old ps table.now constraints.old → IsRow bank.old ps row →
        IsTable bank.new ps (table.now ++ row ∷ []) constraints.new) }
    ensures grows { Grows bank.old bank.new }
    ensures bank { IsBank bank.new }
{
    for other in table {
        let node = agreement(bank, *other, row)?;
        constraints.push(node)?;
    }
    Ok(())
}

/// Puts a node into the table if it is a byte of the initial memory.
fn add_row(
    bank: &mut Bank,
    number: u32,
    table: &mut Items<Row>,
    constraints: &mut Items<Node>,
) -> Result<(), BankFault>
    requires bank { IsBank bank.old }
    requires rows { (i : _) → (x : _) → slice_get table.old i ≡ Some x → Stands bank.old x }
    ensures table { OnOk result ((ps : _) → IsFlatOver bank.old ps number →
        IsTable bank.old ps table.old constraints.old → IsTable bank.new ps table.new constraints.new) }
    ensures listed { OnOk result (Lists bank.old number table.old table.new) }
    ensures grows { Grows bank.old bank.new }
    ensures bank { IsBank bank.new }
{
    if let Some(Shape::InitialByte { row, address }) = bank.shape(number) {
        let row = Row {
            row,
            address,
            byte: number,
        };
        constrain(bank, table.as_slice(), row, constraints)?;
        table.push(row)?;
    }
    Ok(())
}

/// Puts all bytes of the initial memory that stand under nodes into the table.
fn add_rows(
    alloc: Global,
    bank: &mut Bank,
    nodes: &[Node],
    table: &mut Items<Row>,
    constraints: &mut Items<Node>,
) -> Result<(), BankFault>
    requires bank { IsBank bank.old }
    requires nodes { Each (IsNode bank.old) nodes.now }
    requires table { IsTable bank.old nodes.now table.old constraints.old }
    ensures table { OnOk result (IsTable bank.new nodes.now table.new constraints.new) }
    ensures listed { OnOk result (Each (λ n. IsOnly (is_listed table.new) bank.new n.index) nodes.now) }
    ensures grows { Grows bank.old bank.new }
    ensures bank { IsBank bank.new }
{
    let mut numbers = nodes_under(alloc, bank, nodes)?;
    'rows: while let Some(number) = numbers.pop() {
        add_row(bank, number, table, constraints)?;
    }
    Ok(())
}

/// Terms without reads and questions for objects but of the entry memory: each byte that is read is a choice among those
/// that were written and bytes of the initial memory, which stand in a table, and what is told of an object a choice
/// among those that were made. The time is that of the nodes under the roots, and of the bytes and objects that are asked
/// of their memories; each two rows take a constraint.
pub fn flatten_reads(alloc: Global, bank: &mut Bank, roots: &[Node]) -> Result<Flat, BankFault>
    requires bank { IsBank bank.old }
    requires roots { Each (IsNode bank.old) roots.now }
    ensures flat { IfOk result (IsFlat bank.new roots.now) }
    ensures grows { Grows bank.old bank.new }
    ensures bank { IsBank bank.new }
{
    let flat = flat_roots(alloc, bank, roots)?;
    let mut table = Items::new(alloc);
    let mut constraints = Items::new(alloc);
    add_rows(alloc, bank, flat.as_slice(), &mut table, &mut constraints)?;
    Ok(Flat {
        roots: flat,
        table,
        constraints,
    })
}
