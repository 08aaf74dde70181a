//! Binary operators over values (C99 6.5.5 to 6.5.14).
ghost use Rattle.std.specs.Prelude.{◌≡◌, IfOk};
ghost use Rattle.c_language.specs.Types as types;
ghost use Rattle.c_language.specs.Typing as spec;

use crate::values::{INCOMPLETE, an_integer, has_size, some_value};
use c_language::{BinaryOperator, CType, Class, IntegerKind, Rule, Shown, Tables};
use plain_data::Undefined;
use std::alloc::{AllocError, Global};

/// What an operator makes of two numbers, brought to the type in which it works; `&&` and `||` take them as they are.
pub fn worked(
    operator: BinaryOperator,
    kind: IntegerKind,
    x: i128,
    y: i128,
) -> Result<i128, Undefined>
    ensures { result ≡ spec.worked operator kind x y }
{
    match operator {
        BinaryOperator::Multiply => kind.product(x, y),
        BinaryOperator::Divide => kind.quotient(x, y),
        BinaryOperator::Remainder => kind.remainder(x, y),
        BinaryOperator::Add => kind.sum(x, y),
        BinaryOperator::Subtract => kind.difference(x, y),
        BinaryOperator::ShiftLeft => kind.shifted_left(x, y),
        BinaryOperator::ShiftRight => kind.shifted_right(x, y),
        BinaryOperator::Less => Ok(kind.less(x, y)),
        BinaryOperator::Greater => Ok(kind.less(y, x)),
        BinaryOperator::LessEqual => Ok(kind.less_equal(x, y)),
        BinaryOperator::GreaterEqual => Ok(kind.less_equal(y, x)),
        BinaryOperator::Equal => Ok(kind.equal(x, y)),
        BinaryOperator::NotEqual => Ok(kind.unequal(x, y)),
        BinaryOperator::BitAnd => Ok(kind.bits_and(x, y)),
        BinaryOperator::BitXor => Ok(kind.bits_xor(x, y)),
        BinaryOperator::BitOr => Ok(kind.bits_or(x, y)),
        BinaryOperator::LogicalAnd => Ok(i128::from(x != 0 && y != 0)),
        BinaryOperator::LogicalOr => Ok(i128::from(x != 0 || y != 0)),
    }
}

fn worked_on(
    operator: BinaryOperator,
    kind: IntegerKind,
    x: Option<i128>,
    y: Option<i128>,
) -> Option<i128>
    ensures { result ≡ spec.worked_on operator kind x y }
{
    match (x, y) {
        (Some(x), Some(y)) => match worked(operator, kind, x, y) {
            Ok(z) => Some(z),
            Err(_) => None,
        },
        _ => None,
    }
}

fn arithmetic(alloc: Global, operator: BinaryOperator, x: &Shown, y: &Shown) -> Result<Shown, Rule>
    ensures { result ≡ spec.arithmetic operator x.now y.now }
{
    match (x.ctype.kind(), y.ctype.kind()) {
        (Some(a), Some(b)) => {
            let kind = a.usual(b);
            Ok(an_integer(alloc, kind, worked_on(operator, kind, x.value, y.value)))
        }
        _ => Err(Rule::TypeMismatch),
    }
}

fn shift(alloc: Global, operator: BinaryOperator, x: &Shown, y: &Shown) -> Result<Shown, Rule>
    ensures { result ≡ spec.shift operator x.now y.now }
{
    match (x.ctype.kind(), y.ctype.kind()) {
        (Some(a), Some(_)) => {
            let kind = a.promoted();
            Ok(an_integer(alloc, kind, worked_on(operator, kind, x.value, y.value)))
        }
        _ => Err(Rule::TypeMismatch),
    }
}

pub(crate) fn is_scalar(ctype: &CType) -> bool
    ensures { result ≡ types.is_scalar ctype.now }
{
    ctype.class().is_scalar()
}

pub(crate) fn is_integer(ctype: &CType) -> bool
    ensures { result ≡ types.is_integer ctype.now }
{
    ctype.class().is_integer()
}

pub(crate) fn is_pointer(ctype: &CType) -> bool
    ensures { result ≡ types.is_pointer ctype.now }
{
    matches!(ctype.class(), Class::Pointer)
}

fn compared_values(
    operator: BinaryOperator,
    x: &Shown,
    y: &Shown,
    left: Option<IntegerKind>,
    right: Option<IntegerKind>,
) -> Option<i128>
    ensures { result ≡ spec.compared_values operator x.now y.now left right }
{
    match (left, right) {
        (Some(a), Some(b)) => worked_on(operator, a.usual(b), x.value, y.value),
        _ => None,
    }
}

fn comparison(alloc: Global, operator: BinaryOperator, x: &Shown, y: &Shown) -> Result<Shown, Rule>
    ensures { result ≡ spec.comparison operator x.now y.now }
{
    if is_scalar(&x.ctype) && is_scalar(&y.ctype) {
        let value = compared_values(operator, x, y, x.ctype.kind(), y.ctype.kind());
        Ok(an_integer(alloc, IntegerKind::Int, value))
    } else {
        Err(Rule::TypeMismatch)
    }
}

fn logical(alloc: Global, operator: BinaryOperator, x: &Shown, y: &Shown) -> Result<Shown, Rule>
    ensures { result ≡ spec.logical operator x.now y.now }
{
    if is_scalar(&x.ctype) && is_scalar(&y.ctype) {
        let value = worked_on(operator, IntegerKind::Int, x.value, y.value);
        Ok(an_integer(alloc, IntegerKind::Int, value))
    } else {
        Err(Rule::TypeMismatch)
    }
}

fn moved_to(
    alloc: Global,
    tables: &Tables,
    x: &Shown,
    target: Option<CType>,
) -> Result<Result<Shown, Rule>, AllocError>
    ensures { IfOk result (λ j. j ≡ spec.moved_to tables.now x.now target) }
{
    match target {
        Some(target) => {
            if has_size(tables, &target) {
                Ok(Ok(some_value(x.ctype.duplicate(alloc)?)))
            } else {
                Ok(Err(INCOMPLETE))
            }
        }
        None => Ok(Err(Rule::TypeMismatch)),
    }
}

/// A pointer that moves by elements. It fails for want of memory alone.
pub(crate) fn moved(
    alloc: Global,
    tables: &Tables,
    x: &Shown,
) -> Result<Result<Shown, Rule>, AllocError>
    ensures { IfOk result (λ j. j ≡ spec.moved tables.now x.now) }
{
    let target = x.ctype.target(alloc)?;
    moved_to(alloc, tables, x, target)
}

/// The operator `+` (C99 6.5.6). It fails for want of memory alone.
pub(crate) fn addition(
    alloc: Global,
    tables: &Tables,
    x: &Shown,
    y: &Shown,
) -> Result<Result<Shown, Rule>, AllocError>
    ensures { IfOk result (λ j. j ≡ spec.addition tables.now x.now y.now) }
{
    match (is_pointer(&x.ctype), is_pointer(&y.ctype)) {
        (true, false) if is_integer(&y.ctype) => moved(alloc, tables, x),
        (false, true) if is_integer(&x.ctype) => moved(alloc, tables, y),
        (false, false) => Ok(arithmetic(alloc, BinaryOperator::Add, x, y)),
        _ => Ok(Err(Rule::TypeMismatch)),
    }
}

fn distance(
    alloc: Global,
    tables: &Tables,
    x: &Shown,
    y: &Shown,
) -> Result<Result<Shown, Rule>, AllocError>
    ensures { IfOk result (λ j. j ≡ spec.as_distance (spec.moved tables.now x.now) (spec.moved tables.now y.now)) }
{
    match moved(alloc, tables, x)? {
        Err(rule) => Ok(Err(rule)),
        Ok(_) => match moved(alloc, tables, y)? {
            Err(rule) => Ok(Err(rule)),
            Ok(_) => Ok(Ok(an_integer(alloc, IntegerKind::Long, None))),
        },
    }
}

fn subtraction(
    alloc: Global,
    tables: &Tables,
    x: &Shown,
    y: &Shown,
) -> Result<Result<Shown, Rule>, AllocError>
    ensures { IfOk result (λ j. j ≡ spec.subtraction tables.now x.now y.now) }
{
    match (is_pointer(&x.ctype), is_pointer(&y.ctype)) {
        (true, true) => distance(alloc, tables, x, y),
        (true, false) if is_integer(&y.ctype) => moved(alloc, tables, x),
        (false, false) => Ok(arithmetic(alloc, BinaryOperator::Subtract, x, y)),
        _ => Ok(Err(Rule::TypeMismatch)),
    }
}

/// A binary operator over values. It fails for want of memory alone.
pub(crate) fn operated(
    alloc: Global,
    tables: &Tables,
    operator: BinaryOperator,
    x: &Shown,
    y: &Shown,
) -> Result<Result<Shown, Rule>, AllocError>
    ensures { IfOk result (λ j. j ≡ spec.operated tables.now operator x.now y.now) }
{
    match operator {
        BinaryOperator::Multiply => Ok(arithmetic(alloc, operator, x, y)),
        BinaryOperator::Divide => Ok(arithmetic(alloc, operator, x, y)),
        BinaryOperator::Remainder => Ok(arithmetic(alloc, operator, x, y)),
        BinaryOperator::Add => addition(alloc, tables, x, y),
        BinaryOperator::Subtract => subtraction(alloc, tables, x, y),
        BinaryOperator::ShiftLeft => Ok(shift(alloc, operator, x, y)),
        BinaryOperator::ShiftRight => Ok(shift(alloc, operator, x, y)),
        BinaryOperator::Less => Ok(comparison(alloc, operator, x, y)),
        BinaryOperator::Greater => Ok(comparison(alloc, operator, x, y)),
        BinaryOperator::LessEqual => Ok(comparison(alloc, operator, x, y)),
        BinaryOperator::GreaterEqual => Ok(comparison(alloc, operator, x, y)),
        BinaryOperator::Equal => Ok(comparison(alloc, operator, x, y)),
        BinaryOperator::NotEqual => Ok(comparison(alloc, operator, x, y)),
        BinaryOperator::BitAnd => Ok(arithmetic(alloc, operator, x, y)),
        BinaryOperator::BitXor => Ok(arithmetic(alloc, operator, x, y)),
        BinaryOperator::BitOr => Ok(arithmetic(alloc, operator, x, y)),
        BinaryOperator::LogicalAnd => Ok(logical(alloc, operator, x, y)),
        BinaryOperator::LogicalOr => Ok(logical(alloc, operator, x, y)),
    }
}
