ghost use Rattle.std.specs.Prelude.{◌≡◌, IfOk, OnOk, Some, slice_get};
ghost use Rattle.term_bank.specs.Banks.{IsBank};
ghost use Rattle.term_bank.specs.Shapes.{Each, IsNode, parts};
ghost use Rattle.term_bank.specs.Under.{Adds, IsCut, numbers_of};

use crate::bank::{Bank, BankFault};
use crate::shape::Shape;
use crate::sort::Node;
use plain_data::Items;
use std::alloc::{AllocError, Global};
use std::collections::BTreeSet;

/// Puts numbers into a set.
fn add_all(numbers: &[u32], set: &mut BTreeSet<u32>) -> Result<(), AllocError>
    ensures { OnOk result (Adds set.old set.new numbers.now) }
{
    for number in numbers {
        set.insert(*number)?;
    }
    Ok(())
}

/// Puts the numbers of a shape's parts into a set.
fn add_parts(shape: Shape, set: &mut BTreeSet<u32>) -> Result<(), AllocError>
    ensures { OnOk result (Adds set.old set.new (numbers_of (parts shape))) }
{
    match shape {
        Shape::Flag(_)
        | Shape::Constant { .. }
        | Shape::Parameter { .. }
        | Shape::Base
        | Shape::Entry
        | Shape::Initial
        | Shape::NoEvents
        | Shape::NoNumbers => Ok(()),
        Shape::WorldWord { place: a, .. }
        | Shape::InitialByte { address: a, .. }
        | Shape::Convert { operand: a, .. }
        | Shape::Not(a)
        | Shape::BranchEvent { events: a, .. }
        | Shape::CallEvent { events: a, .. } => add_all(&[a], set),
        Shape::Binary {
            left: a,
            right: b,
            ..
        }
        | Shape::Test {
            left: a,
            right: b,
            ..
        }
        | Shape::Connect {
            left: a,
            right: b,
            ..
        }
        | Shape::Ended {
            memory: a,
            object: b,
        }
        | Shape::Read {
            memory: a,
            address: b,
            ..
        }
        | Shape::ObjectSize {
            memory: a,
            object: b,
        }
        | Shape::HasKind {
            memory: a,
            object: b,
            ..
        }
        | Shape::PrintEvent {
            events: a,
            seen: b,
            ..
        }
        | Shape::EventsBehind {
            first: a,
            second: b,
        }
        | Shape::NumberBehind {
            numbers: a,
            word: b,
            ..
        } => add_all(&[a, b], set),
        Shape::Choose {
            condition: a,
            yes: b,
            no: c,
            ..
        }
        | Shape::Write {
            memory: a,
            address: b,
            value: c,
            ..
        }
        | Shape::ZeroRange {
            memory: a,
            from: b,
            length: c,
        }
        | Shape::Made {
            memory: a,
            object: b,
            size: c,
            ..
        }
        | Shape::IsLive {
            memory: a,
            address: b,
            length: c,
        } => add_all(&[a, b, c], set),
        Shape::CopyRange {
            memory,
            to,
            source,
            from,
            length,
        } => add_all(&[memory, to, source, from, length], set),
    }
}

/// Puts the numbers of nodes into a set.
fn add_nodes(nodes: &[Node], set: &mut BTreeSet<u32>) -> Result<(), AllocError>
    ensures { OnOk result (Adds set.old set.new (numbers_of nodes.now)) }
{
    for node in nodes {
        set.insert(node.index)?;
    }
    Ok(())
}

/// Puts the numbers of a node's parts into a set.
fn add_parts_of(bank: &Bank, number: u32, set: &mut BTreeSet<u32>) -> Result<(), AllocError>
    ensures parts { (shape : _) → slice_get bank.now number ≡ Some shape →
        OnOk result (Adds set.old set.new (numbers_of (parts shape))) }
    ensures bank { IsBank bank.now }
{
    match bank.shape(number) {
        Some(shape) => add_parts(shape, set),
        None => Ok(()),
    }
}

/// The roots and what stands under them: each node's number once, the greatest first, so that the parts of a node
/// stand behind it. It takes no time for nodes that don't stand under the roots.
pub fn nodes_under(alloc: Global, bank: &Bank, roots: &[Node]) -> Result<Items<u32>, AllocError>
    requires { Each (IsNode bank.now) roots.now }
    ensures { IfOk result (IsCut bank.now roots.now) }
{
    let mut pending: BTreeSet<u32> = BTreeSet::new(alloc);
    add_nodes(roots, &mut pending)?;
    let mut numbers = Items::new(alloc);
    'nodes: while let Some(number) = pending.pop_last() {
        add_parts_of(bank, number, &mut pending)?;
        numbers.push(number)?;
    }
    Ok(numbers)
}
