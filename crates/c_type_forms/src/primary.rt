//! Primary expressions (C99 6.5.1), apart from the look-up of a name.
ghost use Rattle.std.specs.Prelude.{◌≡◌, suc, [], IfOk};
ghost use Rattle.std.specs.Option.{option_copied};
ghost use Rattle.c_language.specs.Scopes.{Scope};
ghost use Rattle.c_language.specs.Typing.{typed_in};
ghost use Rattle.c_language.specs.Typing as spec;

use crate::told::{node, refused, typeless};
use crate::values::{TOO_LARGE, an_integer, an_object, some_value};
use c_language::{
    Base, CType, Entry, IntegerConstant, IntegerKind, Means, Name, Rule, Shown, Tables, Told,
};
use plain_data::{Bytes, Items, Shared};
use std::alloc::{AllocError, Global};
use std::slice;

/// An integer constant. It fails for want of memory alone.
pub fn integer_constant(
    alloc: Global,
    at: u32,
    constant: &IntegerConstant,
) -> Result<Told, AllocError>
    ensures { IfOk result (λ x. x ≡ spec.integer_told at constant.now) }
{
    let kind = IntegerKind::of_constant(constant.integer_type);
    let shown = an_integer(alloc, kind, Some(i128::from(constant.value)));
    node(at, Ok(shown), Items::new(alloc))
}

/// A character constant. It fails for want of memory alone.
pub fn character_constant(alloc: Global, at: u32, value: i32) -> Result<Told, AllocError>
    ensures { IfOk result (λ x. x ≡ spec.character_told at value) }
{
    let shown = an_integer(alloc, IntegerKind::Int, Some(i128::from(value)));
    node(at, Ok(shown), Items::new(alloc))
}

/// A floating constant. It fails for want of memory alone.
pub fn floating_constant(alloc: Global, at: u32) -> Result<Told, AllocError>
    ensures { IfOk result (λ x. x ≡ spec.floating_told at) }
{
    refused(at, Rule::FloatUsed, Items::new(alloc))
}

fn entry_shown(x: Shown, entry: Shared<Entry>) -> Shown
    ensures { result ≡ spec.entry_shown entry x }
{
    let Shown {
        ctype,
        value,
        is_null,
        is_lvalue,
        is_literal,
        ..
    } = x;
    Shown {
        ctype,
        value,
        is_null,
        is_lvalue,
        is_literal,
        designates: Some(entry),
    }
}

fn named_as(alloc: Global, at: u32, entry: &Shared<Entry>) -> Result<Told, AllocError>
    ensures { IfOk result (λ x. x ≡ spec.named_as at entry.now entry.now.means) }
{
    match &entry.get().means {
        Means::Object { ctype, .. } => {
            let shown = an_object(ctype.get().duplicate(alloc)?);
            node(
                at,
                Ok(entry_shown(shown, entry.clone()?)),
                Items::new(alloc),
            )
        }
        Means::Function { ctype, .. } => {
            let shown = some_value(ctype.get().duplicate(alloc)?);
            node(
                at,
                Ok(entry_shown(shown, entry.clone()?)),
                Items::new(alloc),
            )
        }
        Means::Typedef { .. } => refused(at, Rule::Undeclared, Items::new(alloc)),
        Means::Constant { value } => {
            let shown = an_integer(alloc, IntegerKind::Int, Some(i128::from(*value)));
            node(
                at,
                Ok(entry_shown(shown, entry.clone()?)),
                Items::new(alloc),
            )
        }
        Means::Faulty => Ok(typeless(at, Items::new(alloc))),
    }
}

/// A name, by its declaration in force. It fails for want of memory alone.
pub fn identifier(alloc: Global, at: u32, entry: Option<&Shared<Entry>>) -> Result<Told, AllocError>
    ensures { IfOk result (λ x. x ≡ spec.named_told at (option_copied entry.entry)) }
{
    match entry {
        Some(entry) => named_as(alloc, at, entry),
        None => refused(at, Rule::Undeclared, Items::new(alloc)),
    }
}

/// How many bytes an array of string literals has (C99 6.4.5p5): from 2^64 there is no memory for them.
fn literal_bytes(pieces: &[Shared<Bytes>]) -> Result<u64, AllocError>
    ensures { IfOk result (λ bytes. bytes ≡ suc (spec.total pieces.now)) }
{
    let mut bytes: u64 = 1;
    for piece in pieces {
        bytes = match bytes.checked_add(piece.get().len() as u64) {
            Some(bytes) => bytes,
            None => return Err(AllocError),
        };
    }
    Ok(bytes)
}

fn within_limit(tables: &Tables, x: Shown) -> Result<Shown, Rule>
    ensures { result ≡ spec.within_limit tables.now x }
{
    if tables.is_too_large(&x.ctype) {
        Err(TOO_LARGE)
    } else {
        Ok(x)
    }
}

/// Adjacent string literals (C99 6.4.5). It fails for want of memory alone.
pub fn string_literal(
    alloc: Global,
    tables: &Tables,
    at: u32,
    pieces: &[Shared<Bytes>],
) -> Result<Told, AllocError>
    ensures { IfOk result (λ x. x ≡ spec.node at (spec.literal_shown tables.now pieces.now) []) }
{
    let bytes = literal_bytes(pieces)?;
    let character = CType::basic(alloc, Base::Integer(IntegerKind::Char));
    let shown = Shown {
        ctype: character.array(alloc, Some(bytes))?,
        value: None,
        is_null: false,
        is_lvalue: true,
        is_literal: true,
        designates: None,
    };
    node(at, within_limit(tables, shown), Items::new(alloc))
}

/// `__func__` in a function of this name, or outside of any (C99 6.4.2.2). It fails for want of memory alone.
pub fn function_name(
    alloc: Global,
    tables: &Tables,
    at: u32,
    function: &Option<Name>,
) -> Result<Told, AllocError>
    ensures { (scope : Scope) → scope.tables ≡ tables.now → IfOk result (λ x. typed_in x scope ≡ spec.function_name at function.now scope) }
{
    match function {
        Some(name) => string_literal(alloc, tables, at, slice::from_ref(name)),
        None => refused(at, Rule::Undeclared, Items::new(alloc)),
    }
}
