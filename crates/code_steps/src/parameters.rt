//! Parameters (C99 6.9.1p9, p10): their objects, the arguments that are stored in them, and the way back.
ghost use Rattle.std.specs.Prelude.{◌≡◌, ◌++◌, map, IfOk, OnOk};
ghost use Rattle.c_means.specs.Items.{known};
ghost use Rattle.c_means.specs.Statements.{no_env};
ghost use Rattle.c_machine.specs.Worth.{worth};
ghost use Rattle.core_tree.specs.Programs as program;
ghost use Rattle.core_running.specs.Frames.{env_of};
ghost use Rattle.core_running.specs.Running.{done};
ghost use Rattle.code_steps.specs.Blocks.{made_all};

use crate::objects::{Birth, bind};
use crate::stores::{address_behind, size_in, store};
use c_machine::{Machine, Value};
use c_means::Kind;
use core_running::Frame;
use core_tree::Parameter;
use plain_data::Items;
use std::alloc::{AllocError, Global};
use std::collections::BTreeMap;

/// Adds the parameters' objects, which have the first places. It fails for want of memory alone.
pub fn add_parameters(
    parameters: &[Parameter],
    base: u64,
    all: &mut Items<Birth>,
) -> Result<(), AllocError>
    ensures { OnOk result (made_all all.new ≡ made_all all.old ++ program.frame base parameters.now) }
{
    match parameters.split_first() {
        Some((parameter, rest)) => {
            all.push(Birth {
                at: parameter.at,
                place: base,
                size: size_in(parameter.stored),
            })?;
            let next = address_behind(base, 1)?;
            add_parameters(rest, next, all)
        }
        None => Ok(()),
    }
}

/// Binds declarations to the numbers of their objects. It fails for want of memory alone: no place has a number beyond
/// 32 bits.
pub fn bind_all(objects: &[Birth], frame: &mut Frame) -> Result<(), AllocError>
    ensures { OnOk result (env_of frame.new ≡ known (made_all objects.now) (env_of frame.old)) }
{
    match objects.split_first() {
        Some((object, rest)) => {
            if object.place > u64::from(u32::MAX) {
                return Err(AllocError);
            }
            bind(frame, object.at, object.place as u32)?;
            bind_all(rest, frame)
        }
        None => Ok(()),
    }
}

/// A copy of a value. It fails for want of memory alone.
fn copied(value: &Value) -> Result<Value, AllocError>
    ensures { IfOk result (λ copy. worth copy ≡ worth value.now) }
{
    match value {
        Value::Number(number) => Ok(Value::Number(*number)),
        Value::Bytes(bytes) => Ok(Value::Bytes(bytes.clone()?)),
    }
}

/// Stores the arguments, each converted to the type of its parameter. It fails for want of memory alone: no place has a
/// number beyond 32 bits.
pub fn pass(
    parameters: &[Parameter],
    values: &[Value],
    base: u64,
    m: &mut Machine,
) -> Result<(), AllocError>
    ensures world { m.new.world ≡ m.old.world }
    ensures passes { OnOk result (done m.new ≡ program.passed base parameters.now (map worth values.now) (done m.old)) }
{
    match (parameters.split_first(), values.split_first()) {
        (Some((parameter, rest)), Some((value, more))) => {
            if base > u64::from(u32::MAX) {
                return Err(AllocError);
            }
            store(parameter.stored, base * (1 << 32), copied(value)?, m)?;
            pass(rest, more, base + 1, m)
        }
        (Some(_), None) => Ok(()),
        (None, _) => Ok(()),
    }
}

/// Behind `return`, or at the `}`, the call comes back; what ended stays so.
pub fn come_back(m: &mut Machine)
    ensures world { m.new.world ≡ m.old.world }
    ensures comes { done m.new ≡ program.back (done m.old) }
{
    if !matches!(m.kind(), Kind::Ended(_)) {
        m.turn_to(Kind::Running);
    }
}

/// A frame without objects. It takes no memory.
pub fn no_objects(alloc: Global) -> Frame
    ensures { env_of result ≡ no_env }
{
    Frame {
        numbers: BTreeMap::new(alloc),
    }
}
