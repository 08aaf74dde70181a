//! The names that are declared, with their types. A line `NAME: TYPE` stands for an object or a function, `typedef
//! NAME: TYPE` for a typedef name, `NAME = VALUE` for an enumeration constant, and `NAME: faulty` for a name of which
//! nothing is known. Behind the type of an object stands ` = TYPE VALUE` where its initializer is a constant
//! expression, and ` of TYPE` where that is `sizeof` of a type name; nothing where the declaration breaks a rule.

use crate::spelling::put_type;
use crate::text::{put, put_name, put_value};
use c_language::{Expr, TypeName};
use c_types::{CType, Entry, Means, Names, Shown, Tables, Told, TypeFault, layout, typed};
use plain_data::Bytes;
use std::alloc::{AllocError, Global};

fn put_typed_name(
    tables: &Tables,
    entry: &Entry,
    ctype: &CType,
    text: &mut Bytes,
) -> Result<(), AllocError> {
    put_name(text, &entry.name)?;
    put(text, ": ")?;
    put_type(tables, ctype, text)
}

/// Puts what a name means at the end.
pub fn put_meaning(tables: &Tables, entry: &Entry, text: &mut Bytes) -> Result<(), AllocError> {
    match &entry.means {
        Means::Object { ctype, .. } => put_typed_name(tables, entry, ctype.get(), text),
        Means::Function { ctype, .. } => put_typed_name(tables, entry, ctype.get(), text),
        Means::Typedef { ctype } => {
            put(text, "typedef ")?;
            put_typed_name(tables, entry, ctype.get(), text)
        }
        Means::Constant { value } => {
            put_name(text, &entry.name)?;
            put(text, " = ")?;
            put_value(text, i128::from(*value))
        }
        Means::Faulty => {
            put_name(text, &entry.name)?;
            put(text, ": faulty")
        }
    }
}

/// Puts the type and the value of a constant expression at the end, and answers whether it is one.
fn put_shown(tables: &Tables, shown: &Shown, text: &mut Bytes) -> Result<bool, AllocError> {
    match shown.value {
        Some(value) => {
            put(text, " = ")?;
            put_type(tables, &shown.ctype, text)?;
            put(text, " ")?;
            put_value(text, value)?;
            Ok(true)
        }
        None => Ok(false),
    }
}

fn put_told(tables: &Tables, told: &Told, text: &mut Bytes) -> Result<bool, AllocError> {
    match &told.shown {
        Some(shown) => put_shown(tables, shown, text),
        None => Ok(false),
    }
}

fn put_expression(
    alloc: Global,
    value: &Expr,
    names: &mut Names,
    text: &mut Bytes,
) -> Result<bool, AllocError> {
    match typed(alloc, value, names) {
        Ok(told) => put_told(names.tables(), &told, text),
        Err(failed) => Err(failed),
    }
}

fn put_layout(
    alloc: Global,
    name: &TypeName,
    names: &mut Names,
    text: &mut Bytes,
) -> Result<(), AllocError> {
    put(text, " of ")?;
    match layout(alloc, name, names) {
        Ok(ctype) => put_type(names.tables(), &ctype, text),
        Err(TypeFault::Memory) => Err(AllocError),
        Err(_) => put(text, "?"),
    }
}

/// Puts what a constant expression is at the end, and the type that it asks the size of.
pub fn put_value_of(
    alloc: Global,
    value: &Expr,
    names: &mut Names,
    text: &mut Bytes,
) -> Result<(), AllocError> {
    let is_constant = put_expression(alloc, value, names, text)?;
    match value {
        Expr::SizeofType { type_name, .. } if is_constant => {
            put_layout(alloc, type_name.get(), names, text)
        }
        _ => Ok(()),
    }
}
