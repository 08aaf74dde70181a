//! What is asked of a run along a log.
ghost use Rattle.std.specs.Prelude.{◌≡◌, ◌↔◌, ℤ, Option, true};
ghost use Rattle.log_text.specs.Shown.{StaysIn};
ghost use Rattle.c_means.specs.Runs.{finish_of as end_of};
ghost use Rattle.term_bank.specs.Values.{Values as ValuesType};
ghost use Rattle.path_states.specs.States.{kind_in};
ghost use Rattle.run_formula.specs.Questions.{EndsSo, SameEnd};

use c_means::Kind;
use path_states::StateKind;
use plain_data::{Fact, Finish};
use run_facts::{aborts, exits, returns, stops_at, stops_by};

/// What is asked of a run along a log.
#[derive(Clone, Copy)]
pub enum Question {
    /// Whether it is at the log's end, within the bounds.
    Fits,
    /// Whether it left the bounds.
    Left,
    /// Whether a fact holds on it.
    Holds(Fact),
}

fn known_finish(kind: &Kind) -> Finish
    ensures { (value : Option ℤ) → SameEnd result (end_of kind.now value) }
{
    match kind {
        Kind::Ended(finish) => *finish,
        _ => Finish::Return(0),
    }
}

/// The end of a run of this kind; a run that has not ended returns from `main`, with whatever value, and `exit` is with
/// whatever status.
pub(crate) fn finish_of(kind: &StateKind) -> Finish
    ensures { (v : ValuesType) (value : Option ℤ) → SameEnd result (end_of (kind_in v kind.now) value) }
{
    match kind {
        StateKind::Known(known) => known_finish(known),
        StateKind::Exited(_) => Finish::Exit(0),
    }
}

/// Whether a fact of a run's end holds on one that ends so; a fact of another kind doesn't.
pub(crate) fn ends_so(finish: Finish, fact: &Fact) -> bool
    ensures { (result ≡ true) ↔ EndsSo fact.now finish }
{
    match *fact {
        Fact::StopAt { kind, at } => stops_at(finish, kind, at),
        Fact::Returned => returns(finish),
        Fact::Exited => exits(finish),
        Fact::Aborted => aborts(finish),
        Fact::StopOf { kind } => stops_by(finish, kind),
        _ => false,
    }
}
