//! Steps of the machine, by the core's states.
ghost use Rattle.std.specs.Prelude.{◌≡◌, OnOk};
ghost use Rattle.plain_data.specs.declared.run.Finish.TheVariants.{Stopped};
ghost use Rattle.c_machine.specs.declared.halt.Halt.TheVariants.{Over};
ghost use Rattle.c_machine.specs.Worth.{worth};
ghost use Rattle.core_tree.specs.States as core;
ghost use Rattle.core_tree.specs.Values as values;
ghost use Rattle.core_running.specs.Running.{done};
ghost use Rattle.run_values.specs.Steps.{Runs, Branches};

use c_machine::{Halt, Machine, Value};
use core_tree::ValueType;
use plain_data::{Finish, Happening, Side, Undefined};
use std::alloc::AllocError;

/// Notes an event. It fails for want of memory alone.
pub fn note(m: &mut Machine, what: Happening) -> Result<(), AllocError>
    ensures world { m.new.world ≡ m.old.world }
    ensures notes { OnOk result (done m.new ≡ core.note core.plain what (done m.old)) }
{
    m.note(what)?;
    Ok(())
}

/// Ends the run.
pub fn end(m: &mut Machine, finish: Finish) -> Halt
    ensures world { m.new.world ≡ m.old.world }
    ensures over { result ≡ Over }
    ensures ends { done m.new ≡ core.finished finish (done m.old) }
{
    m.end(finish)
}

/// Ends the run at the token of a step whose behaviour is undefined.
pub fn stop(m: &mut Machine, at: u32, kind: Undefined) -> Halt
    ensures world { m.new.world ≡ m.old.world }
    ensures over { result ≡ Over }
    ensures ends { done m.new ≡ core.finished (Stopped kind at) (done m.old) }
{
    m.stop(at, kind)
}

/// Notes the side of a branch that a value takes: whether it isn't 0. It fails for want of memory alone.
pub fn branch(m: &mut Machine, at: u32, value: &Value) -> Result<bool, AllocError>
    ensures world { m.new.world ≡ m.old.world }
    ensures branches { Branches result (done m.new) at (worth value.now) (done m.old) }
{
    if value.is_zero() {
        note(m, Happening::Branch { at, side: Side::No })?;
        return Ok(false);
    }
    note(
        m,
        Happening::Branch {
            at,
            side: Side::Yes,
        },
    )?;
    Ok(true)
}

/// The answer of an operator, or the end at its token.
pub fn or_stop(m: &mut Machine, at: u32, answer: Result<i128, Undefined>) -> Result<i128, Halt>
    ensures world { m.new.world ≡ m.old.world }
    ensures runs { Runs result (done m.new) (core.or_stop at answer (done m.old)) }
{
    match answer {
        Ok(number) => Ok(number),
        Err(kind) => Err(stop(m, at, kind)),
    }
}

/// The value of a call, which must have given one where it is used (C99 6.9.1p12).
pub(crate) fn needed(
    m: &mut Machine,
    is_used: bool,
    at: u32,
    value_type: ValueType,
    value: Option<i128>,
) -> Result<i128, Halt>
    ensures world { m.new.world ≡ m.old.world }
    ensures runs { Runs result (done m.new) (values.needed is_used at value_type value (done m.old)) }
{
    match value {
        Some(value) => Ok(value),
        None if !is_used => Ok(0),
        None => match value_type {
            ValueType::Void => Ok(0),
            ValueType::Truth => Err(stop(m, at, Undefined::MissingValue)),
            ValueType::Word(_) => Err(stop(m, at, Undefined::MissingValue)),
            ValueType::Pointer => Err(stop(m, at, Undefined::MissingValue)),
            ValueType::Block { .. } => Err(stop(m, at, Undefined::MissingValue)),
        },
    }
}
