//! Bodies of functions (C99 6.5.2.2p4, 6.9.1): the parameters' objects, the block, and the way back.
ghost use Rattle.std.specs.Prelude.{◌≡◌, ◌∷◌, [], ℕ, List, IfOk, OnOk, Some};
ghost use Rattle.core_tree.specs.Numbers.{size_of as bytes_of};
ghost use Rattle.term_bank.specs.declared.shape.Shape.{Shape as ShapeType};
ghost use Rattle.term_bank.specs.declared.sort.Sort.TheVariants.{Memory};
ghost use Rattle.term_bank.specs.Terms.{IsTerm};
ghost use Rattle.path_forms.specs.Calling.{Stays};
ghost use Rattle.path_states.specs.States.{AreNumbers, AreStates};
ghost use Rattle.path_states.specs.Ways.{Goes};
ghost use Rattle.path_codes.specs.Bodies.{Frames, holding, PassesOne, Passes, WalksBody, Embodies};

use crate::below::Coded;
use crate::storing::store;
use crate::walking::walk_items;
use c_means::Kind;
use core_tree::{Function, Parameter, ValueType};
use path_arrows::{Object, Point, arrive, bear, bury, pass};
use path_forms::{Calls, Placed, WalkFault};
use path_rooms::{check_fit, sum, with_objects};
use path_states::{Number, State, StateKind, alone, join};
use plain_data::{Items, Width};
use std::alloc::{AllocError, Global};
use term_bank::{Bank, Node};

/// How many bytes a value of a type takes.
fn size_of(stored: ValueType) -> u64
    ensures { result ≡ bytes_of stored }
{
    match stored {
        ValueType::Void => 0,
        ValueType::Truth => 1,
        ValueType::Word(word) => match word.width {
            Width::W8 => 1,
            Width::W16 => 2,
            Width::W32 => 4,
            Width::W64 => 8,
        },
        ValueType::Pointer => 8,
        ValueType::Block { bytes } => bytes,
    }
}

/// Adds the parameters' objects, the first of which has a place behind the base.
fn add_parameters(
    parameters: &[Parameter],
    offset: u64,
    all: &mut Items<Object>,
) -> Result<(), WalkFault>
    ensures { OnOk result (Frames parameters.now offset all.old all.new) }
{
    match parameters.split_first() {
        Some((parameter, rest)) => {
            let size = size_of(parameter.stored);
            all.push(Object {
                at: parameter.at,
                offset,
                size,
            })?;
            let next = sum(offset, 1)?;
            add_parameters(rest, next, all)?;
            Ok(())
        }
        None => Ok(()),
    }
}

/// The same states, each with this number as its only operand. It fails for want of memory alone.
fn hold(alloc: Global, number: Number, states: &[State]) -> Result<Items<State>, AllocError>
    ensures { IfOk result (λ ts. (room : ℕ) (a : List ShapeType) → AreStates a states.now → AreNumbers a (number ∷ [])
        → Goes room a a states.now ts (holding number)) }
{
    let mut all = Items::new(alloc);
    for state in states {
        let mut next = state.copy(alloc)?;
        next.operands = Items::new(alloc);
        next.operands.push(number)?;
        all.push(next)?;
    }
    Ok(all)
}

/// An argument is converted and stored in its parameter's object; `more` are those behind it.
fn pass_one(
    alloc: Global,
    bank: &mut Bank,
    room: u64,
    stored: ValueType,
    argument: Number,
    more: &[Number],
    offset: u64,
    states: Items<State>,
) -> Result<Items<State>, WalkFault>
    requires states { AreStates bank.old states }
    requires arguments { AreNumbers bank.old (argument ∷ more.now) }
    ensures { IfOk result (λ ts. PassesOne room stored argument offset more.now bank.old bank.new states ts) }
{
    let held = hold(alloc, argument, states.as_slice())?;
    let set = store(alloc, bank, room, offset, 0, stored, held)?;
    Ok(set)
}

/// The arguments are converted and stored in the parameters' objects, the first of which has this place behind the
/// base.
fn pass_all(
    alloc: Global,
    bank: &mut Bank,
    room: u64,
    parameters: &[Parameter],
    arguments: &[Number],
    offset: u64,
    states: Items<State>,
) -> Result<Items<State>, WalkFault>
    requires states { AreStates bank.old states }
    requires arguments { AreNumbers bank.old arguments.now }
    ensures { IfOk result (λ ts. Passes room parameters.now arguments.now offset bank.old bank.new states ts) }
{
    match parameters.split_first() {
        Some((parameter, rest)) => match arguments.split_first() {
            Some((argument, more)) => {
                let stored = parameter.stored;
                let set = pass_one(alloc, bank, room, stored, *argument, more, offset, states)?;
                let next = sum(offset, 1)?;
                let all = pass_all(alloc, bank, room, rest, more, next, set)?;
                Ok(all)
            }
            None => {
                let all = pass(alloc, states.as_slice())?;
                Ok(all)
            }
        },
        None => {
            let all = pass(alloc, states.as_slice())?;
            Ok(all)
        }
    }
}

/// What a function's body makes of states with which it begins.
fn walk_function<C: Calls>(
    alloc: Global,
    scene: &C,
    room: u64,
    height: u32,
    function: &Function,
    arguments: &[Number],
    bank: &mut Bank,
    states: &[State],
) -> Result<Items<State>, WalkFault>
    requires ready { Stays (C.ready scene.now) bank.old }
    requires states { AreStates bank.old states.now }
    requires arguments { AreNumbers bank.old arguments.now }
    ensures { IfOk result (λ ts. WalksBody (C.around scene.now) room function.now arguments.now bank.old bank.new
        states.now ts) }
{
    let parameters = function.parameters.as_slice();
    let mut objects = Items::new(alloc);
    add_parameters(parameters, 0, &mut objects)?;
    check_fit(objects.as_slice(), room)?;
    let none: Items<Placed> = Items::new(alloc);
    let frame = with_objects(alloc, none.as_slice(), objects.as_slice())?;
    let born = bear(alloc, bank, objects.as_slice(), states)?;
    let given = pass_all(alloc, bank, room, parameters, arguments, 0, born)?;
    let Coded { states: ran, .. } = walk_items(
        alloc,
        scene,
        room,
        height,
        frame.as_slice(),
        function.items.as_slice(),
        parameters.len() as u64,
        bank,
        given.as_slice(),
    )?;
    let dead = bury(alloc, bank, objects.as_slice(), ran.as_slice())?;
    let back = arrive(alloc, &Point::Back, dead.as_slice())?;
    let all = join(alloc, bank, back.as_slice())?;
    Ok(all)
}

/// The states that a function's body makes of one in which the function begins, from a memory and a position in the
/// log: its parameters' objects have the first places, its room's, and the arguments are stored there.
pub fn walk_body<C: Calls>(
    alloc: Global,
    scene: &C,
    room: u64,
    height: u32,
    function: &Function,
    arguments: &[Number],
    memory: Node,
    position: usize,
    bank: &mut Bank,
) -> Result<Items<State>, WalkFault>
    requires ready { Stays (C.ready scene.now) bank.old }
    requires memory { IsTerm bank.old Memory memory }
    requires arguments { AreNumbers bank.old arguments.now }
    ensures { IfOk result (λ ts. Embodies (C.around scene.now) room function.now arguments.now memory position
        bank.old bank.new ts) }
{
    let guard = bank.truth(true)?;
    let events = bank.no_events()?;
    let entry = State {
        guard,
        kind: StateKind::Known(Kind::Running),
        value: None,
        position,
        memory,
        events,
        operands: Items::new(alloc),
    };
    let states = alone(alloc, entry)?;
    let ended = walk_function(
        alloc,
        scene,
        room,
        height,
        function,
        arguments,
        bank,
        states.as_slice(),
    )?;
    Ok(ended)
}
