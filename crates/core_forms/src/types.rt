//! Types of values of parts.
ghost use Rattle.std.specs.Prelude.{◌≡◌, Some, IfOk};
ghost use Rattle.c_language.specs.Typing.{type_in};
ghost use Rattle.c_means.specs.Operators.{kind_in, target_in};
ghost use Rattle.c_means.specs.Values as values;
ghost use Rattle.c_means.specs.Values.{class_in, bytes_of};
ghost use Rattle.core_forms.specs.Nodes as nodes;

use c_language::{CType, Class, IntegerKind, Tables, Told};
use core_tree::ValueType;
use elaborate::{OperandType, value_type};
use std::alloc::{AllocError, Global};

/// Whether an expression is an integer constant expression (C99 6.6p6), in which no undefined kind is listed.
pub(crate) fn is_constant(told: &Told) -> bool
    ensures { result ≡ nodes.is_constant told.now }
{
    match &told.shown {
        Some(shown) => shown.value.is_some(),
        None => false,
    }
}

/// The class of the type that an expression has.
pub(crate) fn class_of(told: &Told) -> Class
    ensures { result ≡ class_in (type_in told.now.shown) }
{
    match &told.shown {
        Some(shown) => shown.ctype.class(),
        None => Class::Void,
    }
}

/// The bytes of an object, by its type's class and size.
fn bytes_as(class: Class, size: Option<u64>) -> u64
    ensures { result ≡ values.bytes_as class size }
{
    match class {
        Class::Integer(kind) => kind.bytes(),
        Class::Pointer => 8,
        Class::Void => 0,
        Class::Array => size.unwrap_or(0),
        Class::Function => size.unwrap_or(0),
        Class::Floating => size.unwrap_or(0),
        Class::Aggregate(_) => size.unwrap_or(0),
        Class::Opaque => size.unwrap_or(0),
    }
}

/// The bytes of an object of the type that an expression has.
pub(crate) fn bytes_in(tables: &Tables, told: &Told) -> u64
    ensures { result ≡ bytes_of tables.now (type_in told.now.shown) }
{
    match &told.shown {
        Some(shown) => bytes_as(shown.ctype.class(), tables.size_of(&shown.ctype)),
        None => 0,
    }
}

/// The integer kind of the type that an expression has.
pub(crate) fn kind_of(told: &Told) -> Option<IntegerKind>
    ensures { result ≡ kind_in (type_in told.now.shown) }
{
    match &told.shown {
        Some(shown) => shown.ctype.kind(),
        None => None,
    }
}

/// The type of the core of a value of a type.
pub fn type_as(tables: &Tables, ctype: &Option<CType>) -> ValueType
    ensures { result ≡ nodes.type_as tables.now ctype.now }
{
    match ctype {
        Some(ctype) => {
            let class = ctype.class();
            value_type(class, bytes_as(class, tables.size_of(ctype)))
        }
        None => ValueType::Void,
    }
}

/// The type of the core of an expression's value.
pub(crate) fn type_of(tables: &Tables, told: &Told) -> ValueType
    ensures { result ≡ nodes.type_by tables.now told.now }
{
    value_type(class_of(told), bytes_in(tables, told))
}

/// The type in which an integer or a pointer is stored.
pub(crate) fn scalar_type(told: &Told) -> Option<ValueType>
    ensures { result ≡ nodes.scalar_by told.now }
{
    let class = class_of(told);
    match class {
        Class::Integer(_) => Some(value_type(class, 0)),
        Class::Pointer => Some(ValueType::Pointer),
        Class::Aggregate(_) => None,
        Class::Array => None,
        Class::Function => None,
        Class::Void => None,
        Class::Floating => None,
        Class::Opaque => None,
    }
}

/// The bytes of what a pointer type points to: none where it is no pointer type.
fn element_bytes(alloc: Global, tables: &Tables, ctype: &CType) -> Result<u64, AllocError>
    ensures { IfOk result (λ n. n ≡ bytes_of tables.now (target_in (Some ctype.now))) }
{
    match ctype.target(alloc)? {
        Some(target) => Ok(bytes_as(target.class(), tables.size_of(&target))),
        None => Ok(0),
    }
}

/// What an operator is to know of an operand, whose types are told as they are used. It fails for want of memory alone.
pub(crate) fn operand_type(
    alloc: Global,
    tables: &Tables,
    told: &Told,
) -> Result<OperandType, AllocError>
    ensures { IfOk result (λ x. x ≡ nodes.operand_by tables.now told.now) }
{
    match &told.shown {
        Some(shown) => {
            let element = element_bytes(alloc, tables, &shown.ctype)?;
            Ok(OperandType {
                kind: shown.ctype.kind(),
                element,
            })
        }
        None => {
            Ok(OperandType {
                kind: None,
                element: 0,
            })
        }
    }
}
