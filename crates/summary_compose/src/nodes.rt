//! The nodes of states.
ghost use Rattle.std.specs.Prelude.{◌≡◌, ◌++◌, OnOk, IfOk};
ghost use Rattle.summary_compose.specs.Renaming.{each_of, number_node, maybe_node, kind_node, state_nodes};

use path_states::{Number, State, StateKind};
use plain_data::Items;
use std::alloc::{AllocError, Global};
use term_bank::Node;

fn put_numbers(numbers: &[Number], nodes: &mut Items<Node>) -> Result<(), AllocError>
    ensures { OnOk result (nodes.new ≡ nodes.old ++ each_of number_node numbers.now) }
{
    for number in numbers {
        nodes.push(number.node)?;
    }
    Ok(())
}

fn put_maybe(number: Option<Number>, nodes: &mut Items<Node>) -> Result<(), AllocError>
    ensures { OnOk result (nodes.new ≡ nodes.old ++ maybe_node number) }
{
    if let Some(number) = number {
        nodes.push(number.node)?;
    }
    Ok(())
}

fn put_kind(kind: &StateKind, nodes: &mut Items<Node>) -> Result<(), AllocError>
    ensures { OnOk result (nodes.new ≡ nodes.old ++ kind_node kind.now) }
{
    if let StateKind::Exited(status) = kind {
        nodes.push(status.node)?;
    }
    Ok(())
}

fn put_state(state: &State, nodes: &mut Items<Node>) -> Result<(), AllocError>
    ensures { OnOk result (nodes.new ≡ nodes.old ++ state_nodes state.now) }
{
    nodes.push(state.guard)?;
    nodes.push(state.memory)?;
    nodes.push(state.events)?;
    put_kind(&state.kind, nodes)?;
    put_maybe(state.value, nodes)?;
    put_numbers(state.operands.as_slice(), nodes)?;
    Ok(())
}

/// The nodes of states, in order.
pub(crate) fn nodes_of(alloc: Global, states: &[State]) -> Result<Items<Node>, AllocError>
    ensures { IfOk result (λ ns. ns ≡ each_of state_nodes states.now) }
{
    let mut nodes = Items::new(alloc);
    for state in states {
        put_state(state, &mut nodes)?;
    }
    Ok(nodes)
}
