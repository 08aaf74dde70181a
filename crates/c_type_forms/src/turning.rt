//! Unary operators, `sizeof` and casts (C99 6.5.2.4, 6.5.3, 6.5.4).
ghost use Rattle.std.specs.Prelude.{◌≡◌, IfOk};
ghost use Rattle.c_language.specs.Types as types;
ghost use Rattle.c_language.specs.Typing as spec;

use crate::operators::{is_scalar, moved};
use crate::values::{INCOMPLETE, TOO_LARGE, an_integer, an_object, is_zero_value, some_value};
use c_language::{CType, Class, IntegerKind, Qualifiers, Rule, Shown, Tables, UnaryOperator};
use plain_data::Undefined;
use std::alloc::{AllocError, Global};

/// Whether this is a function type.
pub fn is_function(ctype: &CType) -> bool
    ensures { result ≡ types.is_function ctype.now }
{
    matches!(ctype.class(), Class::Function)
}

/// Whether this is an array type.
pub fn is_array(ctype: &CType) -> bool
    ensures { result ≡ types.is_array ctype.now }
{
    matches!(ctype.class(), Class::Array)
}

/// Whether this is `void`, qualified or not.
pub fn is_void(ctype: &CType) -> bool
    ensures { result ≡ types.is_void ctype.now }
{
    matches!(ctype.class(), Class::Void)
}

fn is_const(ctype: &CType) -> bool
    ensures { result ≡ types.is_const ctype.now }
{
    ctype.qualifiers().is_const
}

/// The address of an lvalue or a function. It fails for want of memory alone.
pub(crate) fn address(alloc: Global, x: &Shown) -> Result<Result<Shown, Rule>, AllocError>
    ensures { IfOk result (λ j. j ≡ spec.address x.now) }
{
    if x.is_lvalue || is_function(&x.ctype) {
        Ok(Ok(some_value(x.ctype.pointer(alloc, Qualifiers::NONE)?)))
    } else {
        Ok(Err(Rule::TypeMismatch))
    }
}

fn target_shown(target: CType) -> Shown
    ensures { result ≡ spec.target_shown target }
{
    if is_function(&target) {
        some_value(target)
    } else {
        an_object(target)
    }
}

/// What a pointer points to. It fails for want of memory alone.
pub(crate) fn indirection(alloc: Global, x: &Shown) -> Result<Result<Shown, Rule>, AllocError>
    ensures { IfOk result (λ j. j ≡ spec.indirection x.now) }
{
    match x.ctype.target(alloc)? {
        Some(target) => Ok(Ok(target_shown(target))),
        None => Ok(Err(Rule::TypeMismatch)),
    }
}

/// What an operator makes of a number, brought to the promoted type; `!` takes it as it is.
pub fn turned(operator: UnaryOperator, kind: IntegerKind, value: i128) -> Result<i128, Undefined>
    ensures { result ≡ spec.turned operator kind value }
{
    match operator {
        UnaryOperator::Plus => Ok(kind.convert(value)),
        UnaryOperator::Minus => kind.negation(value),
        UnaryOperator::Complement => Ok(kind.complement(value)),
        UnaryOperator::Not => Ok(i128::from(value == 0)),
        UnaryOperator::Address => Ok(value),
        UnaryOperator::Indirection => Ok(value),
        UnaryOperator::Increment => Ok(value),
        UnaryOperator::Decrement => Ok(value),
    }
}

fn turned_on(operator: UnaryOperator, kind: IntegerKind, value: Option<i128>) -> Option<i128>
    ensures { result ≡ spec.turned_on operator kind value }
{
    match value {
        Some(value) => match turned(operator, kind, value) {
            Ok(z) => Some(z),
            Err(_) => None,
        },
        None => None,
    }
}

/// The operators `+`, `-` and `~` over a value.
pub(crate) fn promoted_by(alloc: Global, operator: UnaryOperator, x: &Shown) -> Result<Shown, Rule>
    ensures { result ≡ spec.promoted_by operator x.now }
{
    match x.ctype.kind() {
        Some(kind) => {
            let kind = kind.promoted();
            Ok(an_integer(alloc, kind, turned_on(operator, kind, x.value)))
        }
        None => Err(Rule::TypeMismatch),
    }
}

/// The operator `!` over a value.
pub(crate) fn negated(alloc: Global, x: &Shown) -> Result<Shown, Rule>
    ensures { result ≡ spec.negated x.now }
{
    if is_scalar(&x.ctype) {
        let value = turned_on(UnaryOperator::Not, IntegerKind::Int, x.value);
        Ok(an_integer(alloc, IntegerKind::Int, value))
    } else {
        Err(Rule::TypeMismatch)
    }
}

fn is_modifiable(x: &Shown) -> bool
    ensures { result ≡ spec.is_modifiable x.now }
{
    x.is_lvalue && !is_array(&x.ctype) && !is_function(&x.ctype) && !is_const(&x.ctype)
}

fn or_not_modifiable(x: &Shown) -> Rule
    ensures { result ≡ spec.or_not_modifiable x.now }
{
    if is_array(&x.ctype) || is_function(&x.ctype) {
        Rule::NotModifiable
    } else {
        Rule::TypeMismatch
    }
}

/// What is said of a target, or that it can't be modified.
pub(crate) fn on_modifiable(x: &Shown, judged: Result<Shown, Rule>) -> Result<Shown, Rule>
    ensures { result ≡ spec.on_modifiable x.now judged }
{
    match judged {
        Err(Rule::TypeMismatch) => Err(or_not_modifiable(x)),
        judged => {
            if is_modifiable(x) {
                judged
            } else {
                Err(Rule::NotModifiable)
            }
        }
    }
}

/// A copy of what a node shows, as a target without qualifiers. It fails for want of memory alone.
pub(crate) fn unqualified_type(alloc: Global, x: &Shown) -> Result<CType, AllocError>
    ensures { IfOk result (λ t. t ≡ types.unqualified_version x.now.ctype) }
{
    Ok(x.ctype.duplicate(alloc)?.requalified(Qualifiers::NONE))
}

/// The size of a type as `sizeof` gives it.
pub(crate) fn size_in(alloc: Global, tables: &Tables, ctype: &CType) -> Result<Shown, Rule>
    ensures { result ≡ spec.size_in tables.now ctype.now }
{
    if tables.is_too_large(ctype) {
        return Err(TOO_LARGE);
    }
    match tables.size_of(ctype) {
        Some(size) => Ok(an_integer(alloc, IntegerKind::UnsignedLong, Some(i128::from(size)))),
        None => Err(INCOMPLETE),
    }
}
