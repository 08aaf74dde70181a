ghost use Rattle.std.specs.Prelude.{◌≡◌, true, IfOk};
ghost use Rattle.c_means.specs.declared.kind.Kind.TheVariants as k;
ghost use Rattle.path_states.specs.declared.kinds.StateKind.TheVariants as standing;

use crate::state::Number;
use c_means::Kind;
use plain_data::Finish;
use std::alloc::AllocError;

/// The kind of state that runs stand in: one that is known, or ended by `exit` with a number of the world as its status.
#[derive(Drop)]
pub enum StateKind {
    Known(Kind),
    Exited(Number),
}

/// A copy of a kind, whose label is shared.
pub fn copy_kind(kind: &Kind) -> Result<Kind, AllocError>
    ensures { IfOk result (λ k. k ≡ kind.now) }
{
    match kind {
        Kind::Running => Ok(Kind::Running),
        Kind::Breaking => Ok(Kind::Breaking),
        Kind::Continuing => Ok(Kind::Continuing),
        Kind::Returning => Ok(Kind::Returning),
        Kind::Going { label } => {
            let label = label.clone()?;
            Ok(Kind::Going { label })
        }
        Kind::Choosing { value } => Ok(Kind::Choosing { value: *value }),
        Kind::Defaulting => Ok(Kind::Defaulting),
        Kind::Ended(finish) => Ok(Kind::Ended(*finish)),
    }
}

/// A copy of a state's kind.
pub fn copy_state_kind(kind: &StateKind) -> Result<StateKind, AllocError>
    ensures { IfOk result (λ k. k ≡ kind.now) }
{
    match kind {
        StateKind::Known(known) => {
            let known = copy_kind(known)?;
            Ok(StateKind::Known(known))
        }
        StateKind::Exited(status) => Ok(StateKind::Exited(*status)),
    }
}

fn goes_to(kind: &Kind, name: &[u8]) -> bool
    ensures { result ≡ true → kind.now ≡ k.Going name.now }
{
    match kind {
        Kind::Going { label } => label.get().as_slice() == name,
        _ => false,
    }
}

fn chooses(kind: &Kind, value: i128) -> bool
    ensures { result ≡ true → kind.now ≡ k.Choosing value }
{
    match kind {
        Kind::Choosing { value: wanted } => *wanted == value,
        _ => false,
    }
}

fn ends_by(kind: &Kind, finish: Finish) -> bool
    ensures { result ≡ true → kind.now ≡ k.Ended finish }
{
    match kind {
        Kind::Ended(other) => *other == finish,
        _ => false,
    }
}

fn is_same_known(first: &Kind, second: &Kind) -> bool
    ensures { result ≡ true → first.now ≡ second.now }
{
    match second {
        Kind::Running => matches!(first, Kind::Running),
        Kind::Breaking => matches!(first, Kind::Breaking),
        Kind::Continuing => matches!(first, Kind::Continuing),
        Kind::Returning => matches!(first, Kind::Returning),
        Kind::Going { label } => goes_to(first, label.get().as_slice()),
        Kind::Choosing { value } => chooses(first, *value),
        Kind::Defaulting => matches!(first, Kind::Defaulting),
        Kind::Ended(finish) => ends_by(first, *finish),
    }
}

fn is_known(kind: &StateKind, known: &Kind) -> bool
    ensures { result ≡ true → kind.now ≡ standing.Known known.now }
{
    match kind {
        StateKind::Known(other) => is_same_known(other, known),
        StateKind::Exited(_) => false,
    }
}

fn is_exited(kind: &StateKind, status: Number) -> bool
    ensures { result ≡ true → kind.now ≡ standing.Exited status }
{
    match kind {
        StateKind::Known(_) => false,
        StateKind::Exited(other) => *other == status,
    }
}

/// Whether two kinds are one: of exits those with one number.
pub(crate) fn is_same_kind(first: &StateKind, second: &StateKind) -> bool
    ensures { result ≡ true → first.now ≡ second.now }
{
    match second {
        StateKind::Known(known) => is_known(first, known),
        StateKind::Exited(status) => is_exited(first, *status),
    }
}
