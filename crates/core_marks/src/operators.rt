//! The kinds of undefined behaviour of operators and accesses (C99 6.5). All fail for want of memory alone.
ghost use Rattle.std.specs.Prelude.{◌≡◌, ◌++◌, OnOk};
ghost use Rattle.plain_data.specs.declared.run.Side.TheVariants as side;
ghost use Rattle.core_marks.specs.Kinds as kinds;
ghost use Rattle.core_marks.specs.Marks as marks;

use crate::mark::Mark;
use core_tree::{Access, Arithmetic, Operator, Turning, WordType};
use plain_data::{Items, Side, Undefined};
use std::alloc::AllocError;

/// Puts a kind of undefined behaviour at the end.
fn put_kind(at: u32, kind: Undefined, out: &mut Items<Mark>) -> Result<(), AllocError>
    ensures { OnOk result (out.new ≡ out.old ++ marks.stops at (kinds.only kind)) }
{
    out.push(Mark::Stop { at, kind })?;
    Ok(())
}

/// A signed result may leave its type.
fn put_overflow(at: u32, word: WordType, out: &mut Items<Mark>) -> Result<(), AllocError>
    ensures { OnOk result (out.new ≡ out.old ++ marks.stops at (kinds.overflow_kinds word)) }
{
    if word.is_signed {
        put_kind(at, Undefined::Overflow, out)?;
    }
    Ok(())
}

fn put_division(at: u32, word: WordType, out: &mut Items<Mark>) -> Result<(), AllocError>
    ensures { OnOk result (out.new ≡ out.old ++ marks.stops at (kinds.division_kinds word)) }
{
    if word.is_signed {
        put_kind(at, Undefined::Overflow, out)?;
    }
    put_kind(at, Undefined::ZeroDivisor, out)
}

fn put_arithmetic(
    at: u32,
    arithmetic: Arithmetic,
    word: WordType,
    out: &mut Items<Mark>,
) -> Result<(), AllocError>
    ensures { OnOk result (out.new ≡ out.old ++ marks.stops at (kinds.arithmetic_kinds arithmetic word)) }
{
    match arithmetic {
        Arithmetic::Multiply | Arithmetic::Add | Arithmetic::Subtract => put_overflow(
            at, word, out,
        ),
        Arithmetic::Divide | Arithmetic::Remainder => put_division(at, word, out),
        Arithmetic::ShiftLeft | Arithmetic::ShiftRight => put_kind(at, Undefined::Shift, out),
        Arithmetic::Less
        | Arithmetic::Greater
        | Arithmetic::LessEqual
        | Arithmetic::GreaterEqual
        | Arithmetic::Equal
        | Arithmetic::NotEqual
        | Arithmetic::BitAnd
        | Arithmetic::BitXor
        | Arithmetic::BitOr => Ok(()),
    }
}

/// The kinds of an operator on two operands.
pub(crate) fn put_operator(
    at: u32,
    operator: Operator,
    out: &mut Items<Mark>,
) -> Result<(), AllocError>
    ensures { OnOk result (out.new ≡ out.old ++ marks.stops at (kinds.operator_kinds operator)) }
{
    match operator {
        Operator::Numbers(arithmetic, word) => put_arithmetic(at, arithmetic, word, out),
        Operator::Forward { .. } | Operator::ForwardBy { .. } | Operator::Back { .. } => {
            put_kind(at, Undefined::PointerRange, out)
        }
        Operator::Distance { .. } | Operator::Order(_) => {
            put_kind(at, Undefined::PointerOrder, out)
        }
        Operator::Same | Operator::Different => Ok(()),
    }
}

/// The kinds of an operator, of which a constant expression has none.
pub(crate) fn put_operator_unless(
    at: u32,
    operator: Operator,
    is_constant: bool,
    out: &mut Items<Mark>,
) -> Result<(), AllocError>
    ensures { OnOk result (out.new ≡ out.old ++ marks.stops at (kinds.unless is_constant (kinds.operator_kinds operator))) }
{
    if is_constant {
        return Ok(());
    }
    put_operator(at, operator, out)
}

fn put_turning(
    at: u32,
    operator: Turning,
    word: WordType,
    out: &mut Items<Mark>,
) -> Result<(), AllocError>
    ensures { OnOk result (out.new ≡ out.old ++ marks.stops at (kinds.turning_kinds operator word)) }
{
    match operator {
        Turning::Minus => put_overflow(at, word, out),
        Turning::Plus | Turning::Complement => Ok(()),
    }
}

/// The kinds of a unary operator, of which a constant expression has none.
pub(crate) fn put_turning_unless(
    at: u32,
    operator: Turning,
    word: WordType,
    is_constant: bool,
    out: &mut Items<Mark>,
) -> Result<(), AllocError>
    ensures { OnOk result (out.new ≡ out.old ++ marks.stops at (kinds.unless is_constant (kinds.turning_kinds operator word))) }
{
    if is_constant {
        return Ok(());
    }
    put_turning(at, operator, word, out)
}

/// An object is read.
pub(crate) fn put_read(access: &Access, out: &mut Items<Mark>) -> Result<(), AllocError>
    ensures { OnOk result (out.new ≡ out.old ++ marks.read_marks access.now) }
{
    if access.is_tested {
        put_kind(access.at, Undefined::Dereference, out)?;
    }
    Ok(())
}

/// An object is written, by the operator at a token.
pub(crate) fn put_written(at: u32, access: &Access, out: &mut Items<Mark>) -> Result<(), AllocError>
    ensures { OnOk result (out.new ≡ out.old ++ marks.write_marks at access.now) }
{
    if access.is_tested {
        put_kind(access.at, Undefined::Dereference, out)?;
        put_kind(at, Undefined::LiteralWrite, out)?;
    }
    Ok(())
}

/// A side of a branch.
pub(crate) fn put_side(at: u32, side: Side, out: &mut Items<Mark>) -> Result<(), AllocError>
    ensures { OnOk result (out.new ≡ out.old ++ marks.one_side at side) }
{
    out.push(Mark::Branch { at, side })?;
    Ok(())
}

/// Both sides of a condition.
pub(crate) fn put_sides(at: u32, out: &mut Items<Mark>) -> Result<(), AllocError>
    ensures { OnOk result (out.new ≡ out.old ++ marks.sides at) }
{
    put_side(at, Side::Yes, out)?;
    put_side(at, Side::No, out)
}

fn put_case(at: u32, value: &i128, out: &mut Items<Mark>) -> Result<(), AllocError>
    ensures { OnOk result (out.new ≡ out.old ++ marks.one_side at (side.Case value.now)) }
{
    put_side(at, Side::Case(*value), out)
}

/// The sides of a `switch`: its cases, in order.
fn put_cases(at: u32, cases: &[i128], out: &mut Items<Mark>) -> Result<(), AllocError>
    ensures { OnOk result (out.new ≡ out.old ++ marks.case_marks at cases.now) }
{
    'cases: for value in cases {
        put_case(at, value, out)?;
    }
    Ok(())
}

/// The sides of a `switch`: its cases, in order, and that none is equal.
pub(crate) fn put_switch(at: u32, cases: &[i128], out: &mut Items<Mark>) -> Result<(), AllocError>
    ensures { OnOk result (out.new ≡ out.old ++ marks.switch_marks at cases.now) }
{
    put_cases(at, cases, out)?;
    put_side(at, Side::Otherwise, out)
}
