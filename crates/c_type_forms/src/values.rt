//! What nodes show, and the values of lvalues, arrays and functions (C99 6.3.2.1).
ghost use Rattle.std.specs.Prelude.{◌≡◌, IfOk};
ghost use Rattle.c_language.specs.Layouts.{is_sized};
ghost use Rattle.c_language.specs.Compatible.{decayed};
ghost use Rattle.c_language.specs.Typing as spec;

use c_language::{Base, CType, Class, IntegerKind, LayoutRule, Qualifiers, Rule, Shown, Tables};
use std::alloc::{AllocError, Global};

/// The rule that a type without size breaks where one is wanted.
pub(crate) const INCOMPLETE: Rule = Rule::Layout(LayoutRule::Incomplete);

/// The rule that a type of too many bytes breaks.
pub(crate) const TOO_LARGE: Rule = Rule::Layout(LayoutRule::ObjectTooLarge);

/// A value that isn't constant.
pub(crate) fn some_value(ctype: CType) -> Shown
    ensures { result ≡ spec.some_value ctype }
{
    Shown {
        ctype,
        value: None,
        is_null: false,
        is_lvalue: false,
        is_literal: false,
        designates: None,
    }
}

/// An object.
pub(crate) fn an_object(ctype: CType) -> Shown
    ensures { result ≡ spec.an_object ctype }
{
    Shown {
        ctype,
        value: None,
        is_null: false,
        is_lvalue: true,
        is_literal: false,
        designates: None,
    }
}

pub(crate) fn is_zero_value(value: Option<i128>) -> bool
    ensures { result ≡ spec.null_where value }
{
    match value {
        Some(z) => z == 0,
        None => false,
    }
}

/// A value of an integer type, constant or not.
pub(crate) fn an_integer(alloc: Global, kind: IntegerKind, value: Option<i128>) -> Shown
    ensures { result ≡ spec.an_integer kind value }
{
    Shown {
        ctype: CType::basic(alloc, Base::Integer(kind)),
        value,
        is_null: is_zero_value(value),
        is_lvalue: false,
        is_literal: false,
        designates: None,
    }
}

/// Whether the size of the type is known.
pub fn has_size(tables: &Tables, ctype: &CType) -> bool
    ensures { result ≡ is_sized tables.now ctype.now }
{
    match tables.size_of(ctype) {
        Some(_) => true,
        None => false,
    }
}

fn value_of_array(alloc: Global, x: Shown) -> Result<Result<Shown, Rule>, AllocError>
    ensures { IfOk result (λ j. j ≡ spec.value_of_array x) }
{
    let Shown {
        ctype,
        is_lvalue,
        ..
    } = x;
    if is_lvalue {
        Ok(Ok(some_value(ctype.decayed(alloc)?)))
    } else {
        Ok(Err(Rule::TypeMismatch))
    }
}

fn value_of_function(alloc: Global, x: Shown) -> Result<Shown, AllocError>
    ensures { IfOk result (λ y. y ≡ spec.some_value (decayed x.ctype)) }
{
    let Shown { ctype, .. } = x;
    Ok(some_value(ctype.decayed(alloc)?))
}

fn value_where(is_known: bool, x: Shown) -> Result<Shown, Rule>
    ensures { result ≡ spec.value_where is_known x }
{
    let Shown {
        ctype,
        value,
        is_null,
        is_literal,
        designates,
        ..
    } = x;
    if is_known {
        Ok(Shown {
            ctype: ctype.requalified(Qualifiers::NONE),
            value,
            is_null,
            is_lvalue: false,
            is_literal,
            designates,
        })
    } else {
        Err(INCOMPLETE)
    }
}

/// What a node is as a value. It fails for want of memory alone.
pub(crate) fn value_of(
    alloc: Global,
    tables: &Tables,
    x: Shown,
) -> Result<Result<Shown, Rule>, AllocError>
    ensures { IfOk result (λ j. j ≡ spec.value_of tables.now x) }
{
    match x.ctype.class() {
        Class::Array => value_of_array(alloc, x),
        Class::Function => Ok(Ok(value_of_function(alloc, x)?)),
        Class::Aggregate(_) => {
            let is_known = has_size(tables, &x.ctype);
            Ok(value_where(is_known, x))
        }
        Class::Opaque => Ok(value_where(false, x)),
        Class::Void => Ok(value_where(true, x)),
        Class::Integer(_) => Ok(value_where(true, x)),
        Class::Floating => Ok(value_where(true, x)),
        Class::Pointer => Ok(value_where(true, x)),
    }
}
