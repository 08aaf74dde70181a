ghost use Rattle.std.specs.Prelude.{◌≡◌, ◌∷◌, [], IfOk};

use crate::kinds::{StateKind, copy_state_kind};
use core_tree::WordType;
use plain_data::Items;
use std::alloc::{AllocError, Global};
use term_bank::Node;

/// A number of an integer type: the word of a node of its width.
#[derive(Clone, Copy, PartialEq, Eq)]
pub struct Number {
    pub node: Node,
    pub word: WordType,
}

/// Where runs stand in those worlds in which the guard is true: the kind of state, the value that a `return` gave, the
/// position in the log, the memory, what happened, and the operands that an expression waits for, the last one on top.
pub struct State {
    pub guard: Node,
    pub kind: StateKind,
    pub value: Option<Number>,
    pub position: usize,
    pub memory: Node,
    pub events: Node,
    pub operands: Items<Number>,
}

/// By hand, so that a call stands in place of all its parts wherever a value is let go.
impl Drop for State {
    fn drop(self) {
        let State {
            guard,
            kind,
            value,
            position,
            memory,
            events,
            operands,
        } = self;
    }
}

/// What states become in an expression: those that go on, and those in which the run has ended.
#[derive(Drop)]
pub struct Walked {
    pub going: Items<State>,
    pub ended: Items<State>,
}

impl State {
    /// A copy of the state.
    pub fn copy(&self, alloc: Global) -> Result<State, AllocError>
        ensures { IfOk result (λ s. s ≡ self.now) }
    {
        let kind = copy_state_kind(&self.kind)?;
        let operands = Items::from_slice(alloc, self.operands.as_slice())?;
        Ok(State {
            guard: self.guard,
            kind,
            value: self.value,
            position: self.position,
            memory: self.memory,
            events: self.events,
            operands,
        })
    }
}

/// The state alone.
pub fn alone(alloc: Global, state: State) -> Result<Items<State>, AllocError>
    ensures { IfOk result (λ ts. ts ≡ state ∷ []) }
{
    let mut states = Items::new(alloc);
    states.push(state)?;
    Ok(states)
}

/// No state.
pub fn settled(alloc: Global) -> Walked
    ensures { result ≡ record { going = []; ended = [] } }
{
    Walked {
        going: Items::new(alloc),
        ended: Items::new(alloc),
    }
}
