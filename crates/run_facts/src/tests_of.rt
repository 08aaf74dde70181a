//! Tests of single happenings and ends.
ghost use Rattle.std.specs.Prelude.{◌≡◌, ◌↔◌, true};
ghost use Rattle.plain_data.specs.declared.run.Finish.{Finish as FinishType};
ghost use Rattle.log_text.specs.Lines.{line_of};
ghost use Rattle.log_text.specs.Shown as spec;

use log_text::LogText;
use plain_data::{Event, Finish, Happening, Side, Undefined};

/// Whether two sides of a branch are the same.
pub fn same_side(side: Side, wanted: Side) -> bool
    ensures { (result ≡ true) ↔ (side ≡ wanted) }
{
    side == wanted
}

pub(crate) fn same_kind(kind: Undefined, wanted: Undefined) -> bool
    ensures { (result ≡ true) ↔ (kind ≡ wanted) }
{
    kind == wanted
}

pub(crate) fn is_branch(what: &Happening, at: u32, side: Side) -> bool
    ensures { (result ≡ true) ↔ spec.IsBranch at side what.now }
{
    match what {
        Happening::Branch {
            at: met,
            side: taken,
        } => *met == at && same_side(*taken, side),
        _ => false,
    }
}

pub(crate) fn is_call(what: &Happening, at: u32) -> bool
    ensures { (result ≡ true) ↔ spec.IsCall at what.now }
{
    match what {
        Happening::Call { at: met } => *met == at,
        _ => false,
    }
}

pub(crate) fn is_print(what: &Happening, at: u32) -> bool
    ensures { (result ≡ true) ↔ spec.IsPrint at what.now }
{
    match what {
        Happening::Print { at: met, .. } => *met == at,
        _ => false,
    }
}

/// Whether a print saw this value in this place of its watched variables.
pub(crate) fn saw(what: &Happening, place: usize, value: i128) -> bool
    ensures { (result ≡ true) ↔ spec.Saw place value what.now }
{
    match what {
        Happening::Print { seen, .. } => match seen.get(place) {
            Some(number) => *number == value,
            None => false,
        },
        _ => false,
    }
}

pub(crate) fn begins_in(log: &LogText, line: u32, event: &Event) -> bool
    ensures { (result ≡ true) ↔ spec.BeginsIn log.now line event.now }
{
    log.line_of(event.printed as usize) == line as usize
}

/// Whether a run that ends so stays within its bounds.
pub fn stays_in(finish: Finish) -> bool
    ensures { (result ≡ true) ↔ spec.StaysIn finish }
{
    match finish {
        Finish::Left { .. } => false,
        _ => true,
    }
}

/// Whether `main` returns.
pub fn returns(finish: Finish) -> bool
    ensures { (result ≡ true) ↔ spec.Returns finish }
{
    match finish {
        Finish::Return(_) => true,
        _ => false,
    }
}

/// Whether `exit` ends the run.
pub fn exits(finish: Finish) -> bool
    ensures { (result ≡ true) ↔ spec.Exits finish }
{
    match finish {
        Finish::Exit(_) => true,
        _ => false,
    }
}

/// Whether `abort` ends the run.
pub fn aborts(finish: Finish) -> bool
    ensures { (result ≡ true) ↔ (finish ≡ FinishType.Abort) }
{
    match finish {
        Finish::Abort => true,
        _ => false,
    }
}

/// Whether the run ends by undefined behaviour of this kind at this token.
pub fn stops_at(finish: Finish, kind: Undefined, at: u32) -> bool
    ensures { (result ≡ true) ↔ (finish ≡ FinishType.Stopped kind at) }
{
    match finish {
        Finish::Stopped {
            kind: met,
            at: place,
        } => same_kind(met, kind) && place == at,
        _ => false,
    }
}

/// Whether the run ends by undefined behaviour of this kind.
pub fn stops_by(finish: Finish, kind: Undefined) -> bool
    ensures { (result ≡ true) ↔ spec.StopsBy kind finish }
{
    match finish {
        Finish::Stopped { kind: met, .. } => same_kind(met, kind),
        _ => false,
    }
}
