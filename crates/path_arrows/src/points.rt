//! Where a run on its way arrives.
ghost use Rattle.std.specs.Prelude.{◌≡◌, ℕ, List, IfOk, Some};
ghost use Rattle.c_means.specs.Items as arriving;
ghost use Rattle.c_means.specs.Runs.{comes_back};
ghost use Rattle.core_tree.specs.States.{arrive as arrives};
ghost use Rattle.term_bank.specs.declared.shape.Shape.{Shape as ShapeType};
ghost use Rattle.path_states.specs.States.{AreStates};
ghost use Rattle.path_states.specs.Ways.{Goes};
ghost use Rattle.path_arrows.specs.Arrows.{by_arrow};
ghost use Rattle.path_arrows.specs.Points.{at_point, state_kind_at};

use c_language::Name;
use c_means::Kind;
use path_states::{State, StateKind};
use plain_data::Items;
use std::alloc::{AllocError, Global};

/// A point at which a run arrives that may be what it was looking for.
#[derive(Drop)]
pub enum Point {
    Label { name: Name },
    Case { value: i128 },
    Default,
    /// Behind a loop: `break` ends there (C99 6.8.6.3p2).
    BehindLoop,
    /// At the end of a loop's body: `continue` ends there (C99 6.8.6.2p2).
    EndOfTurn,
    /// Behind a `switch` (C99 6.8.4.2p5, 6.8.6.3p2).
    BehindSwitch,
    /// Where a call comes back.
    Back,
}

fn at_label(name: &[u8], kind: &Kind) -> Result<Kind, AllocError>
    ensures { IfOk result (λ k. k ≡ arriving.at_label name.now kind.now) }
{
    match kind {
        Kind::Running => Ok(Kind::Running),
        Kind::Breaking => Ok(Kind::Breaking),
        Kind::Continuing => Ok(Kind::Continuing),
        Kind::Returning => Ok(Kind::Returning),
        Kind::Going { label } => {
            if label.get().as_slice() == name {
                return Ok(Kind::Running);
            }
            let label = label.clone()?;
            Ok(Kind::Going { label })
        }
        Kind::Choosing { value } => Ok(Kind::Choosing { value: *value }),
        Kind::Defaulting => Ok(Kind::Defaulting),
        Kind::Ended(finish) => Ok(Kind::Ended(*finish)),
    }
}

fn at_case(value: i128, kind: &Kind) -> Result<Kind, AllocError>
    ensures { IfOk result (λ k. k ≡ arriving.at_case (Some value) kind.now) }
{
    match kind {
        Kind::Running => Ok(Kind::Running),
        Kind::Breaking => Ok(Kind::Breaking),
        Kind::Continuing => Ok(Kind::Continuing),
        Kind::Returning => Ok(Kind::Returning),
        Kind::Going { label } => {
            let label = label.clone()?;
            Ok(Kind::Going { label })
        }
        Kind::Choosing { value: wanted } => {
            if *wanted == value {
                return Ok(Kind::Running);
            }
            Ok(Kind::Choosing { value: *wanted })
        }
        Kind::Defaulting => Ok(Kind::Defaulting),
        Kind::Ended(finish) => Ok(Kind::Ended(*finish)),
    }
}

fn at_default(kind: &Kind) -> Result<Kind, AllocError>
    ensures { IfOk result (λ k. k ≡ arriving.at_default kind.now) }
{
    match kind {
        Kind::Running => Ok(Kind::Running),
        Kind::Breaking => Ok(Kind::Breaking),
        Kind::Continuing => Ok(Kind::Continuing),
        Kind::Returning => Ok(Kind::Returning),
        Kind::Going { label } => {
            let label = label.clone()?;
            Ok(Kind::Going { label })
        }
        Kind::Choosing { value } => Ok(Kind::Choosing { value: *value }),
        Kind::Defaulting => Ok(Kind::Running),
        Kind::Ended(finish) => Ok(Kind::Ended(*finish)),
    }
}

fn behind_loop(kind: &Kind) -> Result<Kind, AllocError>
    ensures { IfOk result (λ k. k ≡ arriving.past_break kind.now) }
{
    match kind {
        Kind::Running => Ok(Kind::Running),
        Kind::Breaking => Ok(Kind::Running),
        Kind::Continuing => Ok(Kind::Continuing),
        Kind::Returning => Ok(Kind::Returning),
        Kind::Going { label } => {
            let label = label.clone()?;
            Ok(Kind::Going { label })
        }
        Kind::Choosing { value } => Ok(Kind::Choosing { value: *value }),
        Kind::Defaulting => Ok(Kind::Defaulting),
        Kind::Ended(finish) => Ok(Kind::Ended(*finish)),
    }
}

fn end_of_turn(kind: &Kind) -> Result<Kind, AllocError>
    ensures { IfOk result (λ k. k ≡ arriving.past_continue kind.now) }
{
    match kind {
        Kind::Running => Ok(Kind::Running),
        Kind::Breaking => Ok(Kind::Breaking),
        Kind::Continuing => Ok(Kind::Running),
        Kind::Returning => Ok(Kind::Returning),
        Kind::Going { label } => {
            let label = label.clone()?;
            Ok(Kind::Going { label })
        }
        Kind::Choosing { value } => Ok(Kind::Choosing { value: *value }),
        Kind::Defaulting => Ok(Kind::Defaulting),
        Kind::Ended(finish) => Ok(Kind::Ended(*finish)),
    }
}

fn behind_switch(kind: &Kind) -> Result<Kind, AllocError>
    ensures { IfOk result (λ k. k ≡ arriving.past_switch kind.now) }
{
    match kind {
        Kind::Running => Ok(Kind::Running),
        Kind::Breaking => Ok(Kind::Running),
        Kind::Continuing => Ok(Kind::Continuing),
        Kind::Returning => Ok(Kind::Returning),
        Kind::Going { label } => {
            let label = label.clone()?;
            Ok(Kind::Going { label })
        }
        Kind::Choosing { value } => Ok(Kind::Choosing { value: *value }),
        Kind::Defaulting => Ok(Kind::Running),
        Kind::Ended(finish) => Ok(Kind::Ended(*finish)),
    }
}

fn back(kind: &Kind) -> Result<Kind, AllocError>
    ensures { IfOk result (λ k. k ≡ comes_back kind.now) }
{
    match kind {
        Kind::Running => Ok(Kind::Running),
        Kind::Breaking => Ok(Kind::Running),
        Kind::Continuing => Ok(Kind::Running),
        Kind::Returning => Ok(Kind::Running),
        Kind::Going { .. } => Ok(Kind::Running),
        Kind::Choosing { .. } => Ok(Kind::Running),
        Kind::Defaulting => Ok(Kind::Running),
        Kind::Ended(finish) => Ok(Kind::Ended(*finish)),
    }
}

/// What a run's kind is behind a point. It fails for want of memory alone.
fn kind_at(point: &Point, kind: &Kind) -> Result<Kind, AllocError>
    ensures { IfOk result (λ k. k ≡ at_point point.now kind.now) }
{
    match point {
        Point::Label { name } => {
            let kind = at_label(name.get().as_slice(), kind)?;
            Ok(kind)
        }
        Point::Case { value } => {
            let kind = at_case(*value, kind)?;
            Ok(kind)
        }
        Point::Default => {
            let kind = at_default(kind)?;
            Ok(kind)
        }
        Point::BehindLoop => {
            let kind = behind_loop(kind)?;
            Ok(kind)
        }
        Point::EndOfTurn => {
            let kind = end_of_turn(kind)?;
            Ok(kind)
        }
        Point::BehindSwitch => {
            let kind = behind_switch(kind)?;
            Ok(kind)
        }
        Point::Back => {
            let kind = back(kind)?;
            Ok(kind)
        }
    }
}

/// What a state's kind is behind a point. It fails for want of memory alone.
fn state_kind_behind(point: &Point, kind: &StateKind) -> Result<StateKind, AllocError>
    ensures { IfOk result (λ k. k ≡ state_kind_at point.now kind.now) }
{
    match kind {
        StateKind::Known(known) => {
            let kind = kind_at(point, known)?;
            Ok(StateKind::Known(kind))
        }
        StateKind::Exited(status) => Ok(StateKind::Exited(*status)),
    }
}

/// The states behind a point, which have no operands. It fails for want of memory alone.
pub fn arrive(alloc: Global, point: &Point, states: &[State]) -> Result<Items<State>, AllocError>
    ensures { IfOk result (λ ts. (room : ℕ) (a : List ShapeType) → AreStates a states.now
        → Goes room a a states.now ts (by_arrow (λ e d. Some (arrives (at_point point.now) d)))) }
{
    let mut all = Items::new(alloc);
    for state in states {
        let kind = state_kind_behind(point, &state.kind)?;
        let mut next = state.copy(alloc)?;
        next.kind = kind;
        next.operands = Items::new(alloc);
        all.push(next)?;
    }
    Ok(all)
}
