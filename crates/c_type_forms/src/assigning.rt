//! Casts, choices, assignment, and `++` and `--` (C99 6.5.2.4, 6.5.3.1, 6.5.4, 6.5.15, 6.5.16).
ghost use Rattle.std.specs.Prelude.{◌≡◌, IfOk};
ghost use Rattle.c_language.specs.Types as types;
ghost use Rattle.c_language.specs.Typing as spec;

use crate::operators::{is_integer, is_pointer, is_scalar, moved};
use crate::turning::{is_void, on_modifiable, unqualified_type};
use crate::values::{an_integer, is_zero_value, some_value};
use c_language::{BinaryOperator, CType, Class, IntegerKind, Qualifiers, Rule, Shown, Tables};
use std::alloc::{AllocError, Global};

// ---- steps

fn moved_plainly(
    alloc: Global,
    tables: &Tables,
    x: &Shown,
) -> Result<Result<Shown, Rule>, AllocError>
    ensures { IfOk result (λ j. j ≡ spec.moved_plainly tables.now x.now) }
{
    let plain = some_value(unqualified_type(alloc, x)?);
    moved(alloc, tables, &plain)
}

fn stepped_in(alloc: Global, tables: &Tables, x: &Shown) -> Result<Result<Shown, Rule>, AllocError>
    ensures { IfOk result (λ j. j ≡ spec.stepped_in tables.now (types.class_of x.now.ctype) x.now) }
{
    match x.ctype.class() {
        Class::Integer(_) => Ok(Ok(some_value(unqualified_type(alloc, x)?))),
        Class::Pointer => moved_plainly(alloc, tables, x),
        Class::Array => Ok(Err(Rule::TypeMismatch)),
        Class::Function => Ok(Err(Rule::TypeMismatch)),
        Class::Void => Ok(Err(Rule::TypeMismatch)),
        Class::Floating => Ok(Err(Rule::FloatUsed)),
        Class::Aggregate(_) => Ok(Err(Rule::TypeMismatch)),
        Class::Opaque => Ok(Err(Rule::TypeMismatch)),
    }
}

/// The operators `++` and `--`. It fails for want of memory alone.
pub(crate) fn stepped(
    alloc: Global,
    tables: &Tables,
    x: &Shown,
) -> Result<Result<Shown, Rule>, AllocError>
    ensures { IfOk result (λ j. j ≡ spec.stepped tables.now x.now) }
{
    let judged = stepped_in(alloc, tables, x)?;
    Ok(on_modifiable(x, judged))
}

// ---- assignment

/// Whether both are the number of one structure or union.
pub fn same_aggregate(left: Option<u32>, right: Option<u32>) -> bool
    ensures { result ≡ spec.same_aggregate left right }
{
    match (left, right) {
        (Some(m), Some(n)) => m == n,
        _ => false,
    }
}

/// Whether a value of one type may be assigned to an object of another (C99 6.5.16.1p1).
pub fn is_assignable(to: &CType, from: &CType) -> bool
    ensures { result ≡ spec.is_assignable to.now from.now }
{
    (is_scalar(to) && is_scalar(from)) || same_aggregate(to.aggregate(), from.aggregate())
}

/// A simple assignment. It fails for want of memory alone.
pub(crate) fn assigned(
    alloc: Global,
    x: &Shown,
    y: &Shown,
) -> Result<Result<Shown, Rule>, AllocError>
    ensures { IfOk result (λ j. j ≡ spec.assigned x.now y.now) }
{
    if is_assignable(&x.ctype, &y.ctype) {
        let shown = some_value(unqualified_type(alloc, x)?);
        Ok(on_modifiable(x, Ok(shown)))
    } else {
        Ok(on_modifiable(x, Err(Rule::TypeMismatch)))
    }
}

fn compound_of(
    alloc: Global,
    tables: &Tables,
    operator: BinaryOperator,
    x: &Shown,
    y: &Shown,
) -> Result<Result<Shown, Rule>, AllocError>
    ensures { IfOk result (λ j. j ≡ spec.compound_of tables.now operator (types.is_pointer x.now.ctype) x.now y.now) }
{
    if is_pointer(&x.ctype) {
        match operator {
            BinaryOperator::Add if is_integer(&y.ctype) => moved_plainly(alloc, tables, x),
            BinaryOperator::Subtract if is_integer(&y.ctype) => moved_plainly(alloc, tables, x),
            _ => Ok(Err(Rule::TypeMismatch)),
        }
    } else {
        match (x.ctype.kind(), y.ctype.kind()) {
            (Some(_), Some(_)) => Ok(Ok(some_value(unqualified_type(alloc, x)?))),
            _ => Ok(Err(Rule::TypeMismatch)),
        }
    }
}

/// A compound assignment. It fails for want of memory alone.
pub(crate) fn compound(
    alloc: Global,
    tables: &Tables,
    operator: BinaryOperator,
    x: &Shown,
    y: &Shown,
) -> Result<Result<Shown, Rule>, AllocError>
    ensures { IfOk result (λ j. j ≡ spec.compound tables.now operator x.now y.now) }
{
    let judged = compound_of(alloc, tables, operator, x, y)?;
    Ok(on_modifiable(x, judged))
}

// ---- casts

fn cast_value(
    to: Option<IntegerKind>,
    from: Option<IntegerKind>,
    value: Option<i128>,
) -> Option<i128>
    ensures { result ≡ spec.cast_value to from value }
{
    match (to, from, value) {
        (Some(to), Some(_), Some(value)) => Some(to.convert(value)),
        _ => None,
    }
}

fn is_plain_void_pointer_to(target: Option<CType>) -> bool
    ensures { result ≡ spec.is_plain_void_pointer_to target }
{
    match target {
        Some(target) => {
            let qualifiers = target.qualifiers();
            is_void(&target) && !qualifiers.is_const && !qualifiers.is_volatile
        }
        None => false,
    }
}

fn keeps_null(alloc: Global, to: &CType, x: &Shown) -> Result<bool, AllocError>
    ensures { IfOk result (λ b. b ≡ spec.keeps_null to.now x.now) }
{
    let is_plain = is_plain_void_pointer_to(to.target(alloc)?);
    Ok(is_zero_value(x.value) && is_plain)
}

fn cast_shown(alloc: Global, to: &CType, x: &Shown) -> Result<Shown, AllocError>
    ensures { IfOk result (λ y. y ≡ spec.cast_shown to.now x.now) }
{
    let value = cast_value(to.kind(), x.ctype.kind(), x.value);
    let keeps = keeps_null(alloc, to, x)?;
    Ok(Shown {
        ctype: to.duplicate(alloc)?.requalified(Qualifiers::NONE),
        value,
        is_null: is_zero_value(value) || keeps,
        is_lvalue: false,
        is_literal: false,
        designates: None,
    })
}

/// A value cast to a type. It fails for want of memory alone.
pub(crate) fn cast_to(
    alloc: Global,
    to: &CType,
    x: &Shown,
) -> Result<Result<Shown, Rule>, AllocError>
    ensures { IfOk result (λ j. j ≡ spec.cast_to to.now x.now) }
{
    if is_void(to) || (is_scalar(to) && is_scalar(&x.ctype)) {
        Ok(Ok(cast_shown(alloc, to, x)?))
    } else {
        Ok(Err(Rule::TypeMismatch))
    }
}

// ---- choices

fn with_target_qualifiers(alloc: Global, target: CType, other: &CType) -> Result<CType, AllocError>
    ensures { IfOk result (λ t. t ≡ spec.with_target_qualifiers target other.now) }
{
    target
        .qualified(other.qualifiers())
        .pointer(alloc, Qualifiers::NONE)
}

fn joined_targets(
    alloc: Global,
    x: &Shown,
    y: &Shown,
    left: CType,
    right: CType,
) -> Result<CType, AllocError>
    ensures { IfOk result (λ t. t ≡ spec.joined_targets x.now y.now left right) }
{
    if x.is_null {
        return y.ctype.duplicate(alloc);
    }
    if y.is_null {
        return x.ctype.duplicate(alloc);
    }
    if !is_void(&left) && is_void(&right) {
        return with_target_qualifiers(alloc, right, &left);
    }
    with_target_qualifiers(alloc, left, &right)
}

fn joined_pointers(alloc: Global, x: &Shown, y: &Shown) -> Result<Result<Shown, Rule>, AllocError>
    ensures { IfOk result (λ j. j ≡ spec.joined_pointers x.now y.now (types.target_of x.now.ctype) (types.target_of y.now.ctype)) }
{
    let left = x.ctype.target(alloc)?;
    let right = y.ctype.target(alloc)?;
    match (left, right) {
        (Some(left), Some(right)) => {
            Ok(Ok(some_value(joined_targets(alloc, x, y, left, right)?)))
        }
        (Some(_), None) => Ok(Ok(some_value(x.ctype.duplicate(alloc)?))),
        (None, Some(_)) => Ok(Ok(some_value(y.ctype.duplicate(alloc)?))),
        (None, None) => Ok(Err(Rule::TypeMismatch)),
    }
}

fn chosen(condition: Option<i128>, x: Option<i128>, y: Option<i128>) -> Option<i128>
    ensures { result ≡ spec.chosen condition x y }
{
    match (condition, x, y) {
        (Some(condition), Some(x), Some(y)) => Some(if condition == 0 { y } else { x }),
        _ => None,
    }
}

fn chosen_as(kind: IntegerKind, value: Option<i128>) -> Option<i128>
    ensures { result ≡ spec.chosen_as kind value }
{
    match value {
        Some(value) => Some(kind.convert(value)),
        None => None,
    }
}

fn joined_others(alloc: Global, x: &Shown, y: &Shown) -> Result<Result<Shown, Rule>, AllocError>
    ensures { IfOk result (λ j. j ≡ spec.joined_others x.now y.now) }
{
    let both_void = is_void(&x.ctype) && is_void(&y.ctype);
    if both_void || same_aggregate(x.ctype.aggregate(), y.ctype.aggregate()) {
        Ok(Ok(some_value(x.ctype.duplicate(alloc)?)))
    } else {
        Ok(Err(Rule::TypeMismatch))
    }
}

fn joined_kinds(
    alloc: Global,
    condition: Option<i128>,
    x: &Shown,
    y: &Shown,
) -> Result<Result<Shown, Rule>, AllocError>
    ensures { IfOk result (λ j. j ≡ spec.joined_kinds condition x.now y.now (types.kind_of x.now.ctype) (types.kind_of y.now.ctype)) }
{
    match (x.ctype.kind(), y.ctype.kind()) {
        (Some(a), Some(b)) => {
            let kind = a.usual(b);
            let value = chosen_as(kind, chosen(condition, x.value, y.value));
            Ok(Ok(an_integer(alloc, kind, value)))
        }
        (None, None) if !(is_pointer(&x.ctype) && is_pointer(&y.ctype)) => {
            joined_others(alloc, x, y)
        }
        _ => joined_pointers(alloc, x, y),
    }
}

/// The conditional operator over values. It fails for want of memory alone.
pub(crate) fn choice_of(
    alloc: Global,
    condition: &Shown,
    x: &Shown,
    y: &Shown,
) -> Result<Result<Shown, Rule>, AllocError>
    ensures { IfOk result (λ j. j ≡ spec.choice_of condition.now x.now y.now) }
{
    if is_scalar(&condition.ctype) {
        joined_kinds(alloc, condition.value, x, y)
    } else {
        Ok(Err(Rule::TypeMismatch))
    }
}
