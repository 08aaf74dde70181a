//! States whose nodes are those that stand for others.
ghost use Rattle.std.specs.Prelude.{◌≡◌, List, map, IfOk};
ghost use Rattle.std.specs.Option.{option_map};
ghost use Rattle.term_bank.specs.declared.shape.Shape.{Shape as ShapeType};
ghost use Rattle.term_bank.specs.declared.binding.Binding.{Binding as BindingType};
ghost use Rattle.term_bank.specs.Bindings.{HasImage};
ghost use Rattle.term_bank.specs.Images.{AreImages, image_at};
ghost use Rattle.summary_compose.specs.Renaming.{other_number, other_kind, other_state, Pictures};

use path_states::{Number, State, StateKind, copy_kind};
use plain_data::Items;
use std::alloc::{AllocError, Global};
use std::collections::HashMap;
use term_bank::{Node, set_image};

/// The node that stands for a node, itself where none does.
pub(crate) fn image(images: &HashMap<u32, Node>, node: Node) -> Node
    ensures { result ≡ image_at images.now node }
{
    match images.get(&node.index) {
        Some(other) => *other,
        None => node,
    }
}

fn number_image(images: &HashMap<u32, Node>, number: Number) -> Number
    ensures { result ≡ other_number (image_at images.now) number }
{
    Number {
        node: image(images, number.node),
        word: number.word,
    }
}

fn maybe_image(images: &HashMap<u32, Node>, number: Option<Number>) -> Option<Number>
    ensures { result ≡ option_map (other_number (image_at images.now)) number }
{
    match number {
        Some(number) => Some(number_image(images, number)),
        None => None,
    }
}

fn number_images(
    alloc: Global,
    images: &HashMap<u32, Node>,
    numbers: &[Number],
) -> Result<Items<Number>, AllocError>
    ensures { IfOk result (λ xs. xs ≡ map (other_number (image_at images.now)) numbers.now) }
{
    let mut all = Items::new(alloc);
    for number in numbers {
        all.push(number_image(images, *number))?;
    }
    Ok(all)
}

fn kind_image(images: &HashMap<u32, Node>, kind: &StateKind) -> Result<StateKind, AllocError>
    ensures { IfOk result (λ k. k ≡ other_kind (image_at images.now) kind.now) }
{
    match kind {
        StateKind::Known(known) => {
            let known = copy_kind(known)?;
            Ok(StateKind::Known(known))
        }
        StateKind::Exited(status) => Ok(StateKind::Exited(number_image(images, *status))),
    }
}

fn state_image(
    alloc: Global,
    images: &HashMap<u32, Node>,
    state: &State,
) -> Result<State, AllocError>
    ensures { IfOk result (λ s. s ≡ other_state (image_at images.now) state.now) }
{
    let kind = kind_image(images, &state.kind)?;
    let operands = number_images(alloc, images, state.operands.as_slice())?;
    Ok(State {
        guard: image(images, state.guard),
        kind,
        value: maybe_image(images, state.value),
        position: state.position,
        memory: image(images, state.memory),
        events: image(images, state.events),
        operands,
    })
}

/// The states over the nodes that stand for theirs.
pub(crate) fn state_images(
    alloc: Global,
    images: &HashMap<u32, Node>,
    states: &[State],
) -> Result<Items<State>, AllocError>
    ensures { IfOk result (λ ss. ss ≡ map (other_state (image_at images.now)) states.now) }
{
    let mut all = Items::new(alloc);
    for state in states {
        let other = state_image(alloc, images, state)?;
        all.push(other)?;
    }
    Ok(all)
}

/// A table of the nodes that stand for roots, in the same order.
pub(crate) fn table_of(
    alloc: Global,
    roots: &[Node],
    nodes: &[Node],
) -> Result<HashMap<u32, Node>, AllocError>
    ensures { IfOk result (λ images. (old new : List ShapeType) (put : BindingType) → AreImages (HasImage old new
        put) roots.now nodes.now
        → Pictures old new put (image_at images) roots.now) }
{
    let mut images = HashMap::new(alloc);
    let count = roots.len().min(nodes.len());
    for index in 0..count {
        set_image(&mut images, roots[index].index, nodes[index])?;
    }
    Ok(images)
}
