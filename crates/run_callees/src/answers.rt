//! Answers of calls (C99 6.5.2.2p5), and the ends of runs.
ghost use Rattle.std.specs.Prelude.{◌≡◌, ◌+◌, ◌<◌, ◌^◌, pos, OnOk};
ghost use Rattle.core_running.specs.Running.{done};
ghost use Rattle.core_tree.specs.Callees as callees;
ghost use Rattle.core_tree.specs.States as states;
ghost use Rattle.core_tree.specs.States.{plain, printing};
ghost use Rattle.run_callees.specs.Printing.{with_out};

use crate::numbers::{converted, int_type, wrapped};
use c_machine::Machine;
use core_tree::ValueType;
use plain_data::{Bytes, Finish, Happening, Numbers, Undefined};
use std::alloc::AllocError;

/// Answers a number, converted to the type of the call.
pub(crate) fn answer(to: ValueType, value: i128, m: &mut Machine)
    ensures world { m.new.world ≡ m.old.world }
    ensures answers { done m.new ≡ callees.answers to value (done m.old) }
{
    m.set_value(Some(converted(to, value)));
}

/// Answers a count, converted to `int` first.
pub(crate) fn answer_count(to: ValueType, count: u64, m: &mut Machine)
    ensures world { m.new.world ≡ m.old.world }
    ensures answers { done m.new ≡ callees.answers_int to (pos count) (done m.old) }
{
    answer(to, wrapped(int_type(), i128::from(count)), m);
}

/// Ends the run.
pub(crate) fn finish(finish: Finish, m: &mut Machine)
    ensures world { m.new.world ≡ m.old.world }
    ensures ends { done m.new ≡ states.finished finish (done m.old) }
{
    let _over = m.end(finish);
}

/// Ends the run at the token of a call whose behaviour is undefined.
pub(crate) fn stop(at: u32, kind: Undefined, m: &mut Machine)
    ensures world { m.new.world ≡ m.old.world }
    ensures ends { done m.new ≡ states.finished (Finish.Stopped kind at) (done m.old) }
{
    let _over = m.stop(at, kind);
}

/// Notes that a place of the world is met. It fails for want of memory alone.
pub(crate) fn meet(place: u64, m: &mut Machine) -> Result<(), AllocError>
    ensures world { m.new.world ≡ m.old.world }
    ensures meets { OnOk result (done m.new ≡ states.meet plain place (done m.old)) }
{
    m.meet(place)
}

/// Notes that so many places from one on are met. It fails for want of memory alone.
#[tactic(auto, using(crate::proofs::Meeting::met_all))]
pub(crate) fn meet_all(place: u64, count: u64, m: &mut Machine) -> Result<(), AllocError>
    requires { place + count < 2 ^ 64 }
    ensures world { m.new.world ≡ m.old.world }
    ensures meets { OnOk result (done m.new ≡ states.meets plain place count (done m.old)) }
{
    if count == 0 {
        return Ok(());
    }
    meet(place, m)?;
    meet_all(place + 1, count - 1, m)?;
    Ok(())
}

/// Prints bytes. It fails for want of memory alone.
pub(crate) fn print(bytes: Bytes, m: &mut Machine) -> Result<(), AllocError>
    ensures world { m.new.world ≡ m.old.world }
    ensures prints { OnOk result (done m.new ≡ with_out (printing bytes (done m.old).out) (done m.old)) }
{
    m.print(bytes)
}

/// Notes that a log call prints: nothing printed is no event. It fails for want of memory alone.
#[tactic(auto, using(crate::proofs::Printing::noted_none, crate::proofs::Printing::noted_some))]
pub(crate) fn note_print(
    at: u32,
    length: u64,
    seen: Numbers,
    m: &mut Machine,
) -> Result<(), AllocError>
    ensures world { m.new.world ≡ m.old.world }
    ensures notes { OnOk result (done m.new ≡ callees.print_noted plain at length seen (done m.old)) }
{
    if length == 0 {
        return Ok(());
    }
    m.note(Happening::Print { at, length, seen })?;
    Ok(())
}
