//! The clauses of nodes.
ghost use Rattle.std.specs.Prelude.{IfOk, OnOk};
ghost use Rattle.term_bank.specs.Banks.{IsBank};
ghost use Rattle.term_bank.specs.Shapes.{Each, IsNode};
ghost use Rattle.bitvectors.specs.Blasts.{HasWidth};

use anyhow::{Result, anyhow};
use bitvectors::{Blasted, blast_reads};
use plain_data::Items;
use std::alloc::Global;
use std::mem::drop;
use term_bank::{Bank, Node};

/// Puts the node of a number at the end.
fn push_node(bank: &Bank, nodes: &mut Items<Node>, number: u32) -> Result<()>
    requires { Each (IsNode bank.now) nodes.old }
    ensures { OnOk result (Each (IsNode bank.now) nodes.new) }
{
    match bank.shape(number) {
        Some(shape) => {
            nodes.push(Node {
                index: number,
                sort: shape.sort(),
            })?;
            Ok(())
        }
        None => Err(anyhow!("no such node")),
    }
}

/// The nodes of numbers.
fn nodes_of(alloc: Global, bank: &Bank, numbers: &[u32]) -> Result<Items<Node>>
    ensures { IfOk result (Each (IsNode bank.now)) }
{
    let mut nodes = Items::new(alloc);
    'numbers: for number in numbers {
        push_node(bank, &mut nodes, *number)?;
    }
    Ok(nodes)
}

/// The bank keeps its invariant, which proofs learn here.
fn keeps_bank(bank: &Bank)
    ensures { IsBank bank.now }
{
    let _ = bank.len();
}

/// The clauses of the nodes of these numbers.
pub fn blast_nodes(alloc: Global, bank: &mut Bank, numbers: &[u32]) -> Result<Blasted>
    ensures words { IfOk result (λ b. HasWidth 64 b.inputs.words) }
    ensures bytes { IfOk result (λ b. HasWidth 8 b.inputs.bytes) }
{
    let nodes = nodes_of(alloc, bank, numbers)?;
    keeps_bank(bank);
    let blasted = blast_reads(alloc, bank, nodes.as_slice());
    drop(nodes);
    match blasted? {
        Some(blasted) => Ok(blasted),
        None => Err(anyhow!("a node depends on more than the world")),
    }
}
