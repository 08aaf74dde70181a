//! What is noted of an expression, and of one node over its parts.

ghost use Rattle.std.specs.Prelude.{◌≡◌, ◌++◌, IfOk, is_some};
ghost use Rattle.c_language.specs.Typing as typing;
ghost use Rattle.c_means.specs.Notes as told;
ghost use Rattle.c_notes.specs.Tellings as spec;

use crate::calls::CallNote;
use c_language::{Class, Name, Shown, Told};
use c_type_forms::{is_array, is_function};
use plain_data::{Bytes, Items, both_ok};
use std::alloc::{AllocError, Global};

/// What is noted of an expression: its bytes where it is a string literal (through parentheses, and calls of identity
/// functions); all calls in it, and the functions that are called where it is evaluated; whether it is an lvalue or
/// function at a constant address, and whether its value is an address constant (C99 6.6p9) or an integer constant
/// (C99 6.6p6).
#[derive(Drop)]
pub struct ExprNotes {
    pub text: Option<Bytes>,
    pub calls: Items<CallNote>,
    pub called: Items<Name>,
    pub is_place: bool,
    pub is_address: bool,
    pub is_constant: bool,
}

/// What an expression says to the types, and what is noted of it.
#[derive(Drop)]
pub struct NotedExpr {
    pub told: Told,
    pub notes: ExprNotes,
}

pub(crate) fn joined<T: Drop>(first: Items<T>, second: Items<T>) -> Result<Items<T>, AllocError>
    ensures { IfOk result (λ items. items ≡ first ++ second) }
{
    let mut items = first;
    items.append(second)?;
    Ok(items)
}

pub(crate) fn is_constant(shown: &Option<Shown>) -> bool
    ensures { result ≡ is_some (typing.value_in shown.now) }
{
    match shown {
        None => false,
        Some(shown) => shown.value.is_some(),
    }
}

/// Whether an lvalue of this type at a constant address is an address constant itself.
fn is_address_type(shown: &Option<Shown>) -> bool
    ensures { result ≡ told.is_address_in (typing.type_in shown.now) }
{
    match shown {
        None => false,
        Some(shown) => is_array(&shown.ctype) || is_function(&shown.ctype),
    }
}

pub(crate) fn is_pointer(shown: &Option<Shown>) -> bool
    ensures { result ≡ told.is_static_pointer (typing.type_in shown.now) }
{
    match shown {
        None => false,
        Some(shown) => matches!(shown.ctype.class(), Class::Pointer),
    }
}

/// What a node without parts notes. It takes no memory.
pub(crate) fn nothing_noted(alloc: Global) -> ExprNotes
    ensures { result ≡ spec.nothing_noted }
{
    ExprNotes {
        text: None,
        calls: Items::new(alloc),
        called: Items::new(alloc),
        is_place: false,
        is_address: false,
        is_constant: false,
    }
}

/// What two parts note together. It fails for want of memory alone.
pub(crate) fn both(first: ExprNotes, second: ExprNotes) -> Result<ExprNotes, AllocError>
    ensures { IfOk result (λ n. n ≡ spec.both first second) }
{
    let calls = joined(first.calls, second.calls);
    let (calls, called) = both_ok(calls, joined(first.called, second.called))?;
    Ok(ExprNotes {
        text: None,
        calls,
        called,
        is_place: false,
        is_address: false,
        is_constant: false,
    })
}

/// An lvalue or function; `fixed` tells that its address is constant.
pub(crate) fn as_place(fixed: bool, told: Told, notes: ExprNotes) -> NotedExpr
    ensures { result ≡ record { told = told; notes = spec.as_place fixed told.shown notes } }
{
    let is_address = fixed && is_address_type(&told.shown);
    let is_constant = is_constant(&told.shown);
    let ExprNotes { calls, called, .. } = notes;
    NotedExpr {
        told,
        notes: ExprNotes {
            text: None,
            calls,
            called,
            is_place: fixed,
            is_address,
            is_constant,
        },
    }
}

/// A value; `fixed` tells that it is an address constant.
pub(crate) fn as_value(fixed: bool, told: Told, notes: ExprNotes) -> NotedExpr
    ensures { result ≡ record { told = told; notes = spec.as_value fixed told.shown notes } }
{
    let is_constant = is_constant(&told.shown);
    let ExprNotes { calls, called, .. } = notes;
    NotedExpr {
        told,
        notes: ExprNotes {
            text: None,
            calls,
            called,
            is_place: false,
            is_address: fixed,
            is_constant,
        },
    }
}

/// Whether a sum is an address constant: that of an address and a constant.
pub(crate) fn is_moved(first: &ExprNotes, second: &ExprNotes) -> bool
    ensures { result ≡ spec.is_moved first.now second.now }
{
    (first.is_address && second.is_constant) || (first.is_constant && second.is_address)
}

/// Whether a static object may be initialised with it: with an integer constant, or an address constant (C99 6.7.8p4).
pub fn is_static(notes: &ExprNotes) -> bool
    ensures { result ≡ spec.is_static notes.now }
{
    notes.is_constant || notes.is_address
}
