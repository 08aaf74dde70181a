//! Objects read and written, and operators on two values, of which some are pointers (C99 6.3.2.1, 6.5.6, 6.5.8, 6.5.9,
//! 6.5.16).
ghost use Rattle.std.specs.Prelude.{◌≡◌, neg_ℤ};
ghost use Rattle.c_machine.specs.Worth.{worth};
ghost use Rattle.core_tree.specs.Memory as core;
ghost use Rattle.core_tree.specs.Numbers.{in_order};
ghost use Rattle.core_running.specs.Running.{done, RunsWorth};
ghost use Rattle.run_values.specs.Steps.{Runs};

use crate::numbers::{class_of, number_in, size_of, worked};
use crate::steps::or_stop;
use c_machine::{Halt, Machine, Value};
use core_tree::{Access, Operator, Relation};

/// The value of what stands at an address. It fails for want of memory, and where an access that is tested reaches a
/// byte of no live object: then the run ends.
pub fn load(m: &mut Machine, access: Access, address: u64) -> Result<Value, Halt>
    ensures world { m.new.world ≡ m.old.world }
    ensures runs { RunsWorth result (done m.new) (core.load access address (done m.old)) }
{
    let class = class_of(access.stored);
    let size = size_of(access.stored);
    m.load(class, size, access.at, !access.is_tested, address)
}

/// Converts a value and stores it at an address, by the operator that stands at `at`; what was stored is answered.
pub fn put(
    m: &mut Machine,
    at: u32,
    access: Access,
    address: u64,
    value: Value,
) -> Result<Value, Halt>
    ensures world { m.new.world ≡ m.old.world }
    ensures runs { RunsWorth result (done m.new) (core.put at access address (worth value) (done m.old)) }
{
    let class = class_of(access.stored);
    let size = size_of(access.stored);
    m.put(
        class,
        size,
        access.at,
        at,
        !access.is_tested,
        address,
        value,
    )
}

fn moved(m: &mut Machine, at: u32, size: u64, count: i128, address: u64) -> Result<i128, Halt>
    ensures world { m.new.world ≡ m.old.world }
    ensures runs { Runs result (done m.new) (core.moved at size count address (done m.old)) }
{
    m.moved(at, size, count, address)
}

fn moved_back(m: &mut Machine, at: u32, size: u64, count: i128, address: u64) -> Result<i128, Halt>
    ensures world { m.new.world ≡ m.old.world }
    ensures runs { Runs result (done m.new) (core.moved at size (neg_ℤ count) address (done m.old)) }
{
    m.moved_back(at, size, count, address)
}

fn apart(m: &mut Machine, at: u32, size: u64, one: u64, other: u64) -> Result<i128, Halt>
    ensures world { m.new.world ≡ m.old.world }
    ensures runs { Runs result (done m.new) (core.apart at size one other (done m.old)) }
{
    m.apart(at, size, one, other)
}

fn is_in_order(relation: Relation, one: u64, other: u64) -> bool
    ensures { result ≡ in_order relation one other }
{
    match relation {
        Relation::Less => one < other,
        Relation::Greater => other < one,
        Relation::LessEqual => one <= other,
        Relation::GreaterEqual => other <= one,
    }
}

fn ordered(m: &mut Machine, at: u32, relation: Relation, one: u64, other: u64) -> Result<i128, Halt>
    ensures world { m.new.world ≡ m.old.world }
    ensures runs { Runs result (done m.new) (core.ordered at relation one other (done m.old)) }
{
    m.ordered(at, one, other, is_in_order(relation, one, other))
}

/// An operator on two values. A structure is no operand of one: that is answered as want of memory.
fn number_of(
    m: &mut Machine,
    at: u32,
    operator: Operator,
    x: &Value,
    y: &Value,
) -> Result<i128, Halt>
    ensures world { m.new.world ≡ m.old.world }
    ensures runs { Runs result (done m.new) (core.operated at operator (worth x.now) (worth y.now) (done m.old)) }
{
    match operator {
        Operator::Numbers(arithmetic, word) => {
            let answer = worked(arithmetic, word, number_in(x)?, number_in(y)?);
            or_stop(m, at, answer)
        }
        Operator::Forward { size } => moved(m, at, size, number_in(y)?, x.address()),
        Operator::ForwardBy { size } => moved(m, at, size, number_in(x)?, y.address()),
        Operator::Back { size } => moved_back(m, at, size, number_in(y)?, x.address()),
        Operator::Distance { size } => apart(m, at, size, x.address(), y.address()),
        Operator::Order(relation) => ordered(m, at, relation, x.address(), y.address()),
        Operator::Same => Ok(i128::from(x.address() == y.address())),
        Operator::Different => Ok(i128::from(x.address() != y.address())),
    }
}

/// An operator on two values. A structure is no operand of one: that is answered as want of memory.
pub fn operated(
    m: &mut Machine,
    at: u32,
    operator: Operator,
    x: &Value,
    y: &Value,
) -> Result<Value, Halt>
    ensures world { m.new.world ≡ m.old.world }
    ensures runs { RunsWorth result (done m.new) (core.operated at operator (worth x.now) (worth y.now) (done m.old)) }
{
    let number = number_of(m, at, operator, x, y)?;
    Ok(Value::Number(number))
}
