//! Forms of expressions and of declarators over parts each of which may have failed. A form fails where one of its parts did, and else for
//! want of memory alone.
ghost use Rattle.std.specs.Prelude.{◌≡◌, ◌++◌, IfOk, IsOkAnd};
ghost use Rattle.c_language.specs.Typing as spec;
ghost use Rattle.c_language.specs.Declares as declares;
ghost use Rattle.c_language.specs.Scopes as scopes;
ghost use Rattle.c_declares.specs.Views.{formed_in, counted_in, listed_in};

use crate::arguments::Arguments;
use crate::forms;
use c_declares::{Counted, Formed, Listed, TypeSaid};
use c_language::{ArrayWord, BinaryOperator, Prototype, Qualifier, Shown, Told};
use c_type_scope::Scope;
use plain_data::both_ok;
use std::alloc::{AllocError, Global};

/// A part as a value.
pub(crate) fn value(
    alloc: Global,
    scope: &Scope,
    x: Result<Told, AllocError>,
) -> Result<Told, AllocError>
    ensures { IfOk result (λ y. IsOkAnd x (λ x. y ≡ spec.used_told scope.now.tables x)) }
{
    let x = x?;
    forms::value(alloc, scope, x)
}

/// A subscript, of which the array is a value already.
pub(crate) fn subscript(
    alloc: Global,
    scope: &Scope,
    at: u32,
    x: Result<Told, AllocError>,
    y: Result<Told, AllocError>,
) -> Result<Told, AllocError>
    ensures { IfOk result (λ z. IsOkAnd x (λ x. IsOkAnd y (λ y. spec.typed_in z scope.now ≡ spec.over_two at (spec.typed_in x scope.now)
        (spec.used (spec.typed_in y scope.now)) (spec.element scope.now.tables)))) }
{
    let (x, y) = both_ok(x, y)?;
    forms::subscript(alloc, scope, at, x, y)
}

/// A call of what stands at `callee`.
pub(crate) fn call(
    alloc: Global,
    scope: &Scope,
    at: u32,
    callee: u32,
    shown: Option<Shown>,
    arguments: Result<Arguments, AllocError>,
) -> Result<Told, AllocError>
    ensures { IfOk result (λ z. IsOkAnd arguments (λ xs. spec.typed_in z scope.now ≡ spec.call at callee shown xs scope.now)) }
{
    let arguments = arguments?;
    forms::call(alloc, scope, at, callee, shown, arguments)
}

/// A binary operator, of which the left operand is a value already.
pub(crate) fn binary(
    alloc: Global,
    scope: &Scope,
    at: u32,
    operator: BinaryOperator,
    x: Result<Told, AllocError>,
    y: Result<Told, AllocError>,
) -> Result<Told, AllocError>
    ensures { IfOk result (λ z. IsOkAnd x (λ x. IsOkAnd y (λ y. spec.typed_in z scope.now ≡ spec.over_two at (spec.typed_in x scope.now)
        (spec.used (spec.typed_in y scope.now)) (spec.operated scope.now.tables operator)))) }
{
    let (x, y) = both_ok(x, y)?;
    forms::binary(alloc, scope, at, operator, x, y)
}

/// A cast of a value to a named type.
pub(crate) fn cast(
    alloc: Global,
    scope: &Scope,
    at: u32,
    to: Result<TypeSaid, AllocError>,
    x: Result<Told, AllocError>,
) -> Result<Told, AllocError>
    ensures { IfOk result (λ z. IsOkAnd to (λ to. IsOkAnd x (λ x. spec.typed_in z scope.now ≡ spec.cast at to.ctype to.faults
        (spec.typed_in x scope.now)))) }
{
    let (to, x) = both_ok(to, x)?;
    forms::cast(alloc, scope, at, to, x)
}

/// The conditional operator, of which the condition and the first choice are values already.
pub(crate) fn choice(
    alloc: Global,
    scope: &Scope,
    at: u32,
    condition: Result<Told, AllocError>,
    x: Result<Told, AllocError>,
    y: Result<Told, AllocError>,
) -> Result<Told, AllocError>
    ensures { IfOk result (λ z. IsOkAnd condition (λ c. IsOkAnd x (λ x. IsOkAnd y (λ y. z ≡ spec.choice_over at c.shown x.shown
        (spec.used_told scope.now.tables y).shown (c.faults ++ x.faults ++ (spec.used_told scope.now.tables y).faults))))) }
{
    let (condition, choices) = both_ok(condition, both_ok(x, y))?;
    let (x, y) = choices;
    forms::choice(alloc, scope, at, condition, x, y)
}

/// An assignment to a target as it stands.
pub(crate) fn assignment(
    alloc: Global,
    scope: &Scope,
    at: u32,
    operator: Option<BinaryOperator>,
    x: Result<Told, AllocError>,
    y: Result<Told, AllocError>,
) -> Result<Told, AllocError>
    ensures { IfOk result (λ z. IsOkAnd x (λ x. IsOkAnd y (λ y. spec.typed_in z scope.now ≡ spec.assignment at operator
        (spec.typed_in x scope.now) (spec.typed_in y scope.now)))) }
{
    let (x, y) = both_ok(x, y)?;
    forms::assignment(alloc, scope, at, operator, x, y)
}

/// The comma operator over operands as they stand.
pub(crate) fn comma(
    alloc: Global,
    scope: &Scope,
    at: u32,
    x: Result<Told, AllocError>,
    y: Result<Told, AllocError>,
) -> Result<Told, AllocError>
    ensures { IfOk result (λ z. IsOkAnd x (λ x. IsOkAnd y (λ y. spec.typed_in z scope.now ≡ spec.comma at (spec.typed_in x scope.now)
        (spec.typed_in y scope.now)))) }
{
    let (x, y) = both_ok(x, y)?;
    forms::comma(alloc, scope, at, x, y)
}

/// A pointer (C99 6.7.5.1) to what the inner declarator says.
pub(crate) fn pointer(
    qualifiers: &[Qualifier],
    inner: Result<Formed, AllocError>,
) -> Result<Formed, AllocError>
    ensures { (s : scopes.Scope) → IfOk result (λ y. IsOkAnd inner (λ x. formed_in y s ≡ declares.to_pointer qualifiers.now
        (formed_in x s))) }
{
    let mut formed = inner?;
    formed.add_pointer(qualifiers)?;
    Ok(formed)
}

/// An array (C99 6.7.5.2) of what the inner declarator says.
pub(crate) fn array(
    words: &[ArrayWord],
    inner: Result<Formed, AllocError>,
    length: Result<Counted, AllocError>,
) -> Result<Formed, AllocError>
    ensures { (before : scopes.Scope) (s : scopes.Scope) → IfOk result (λ y. IsOkAnd inner (λ x. IsOkAnd length (λ n. formed_in y s ≡
        declares.to_array (declares.qualifiers_among words.now) (formed_in x before) (counted_in n s)))) }
{
    let parts = both_ok(inner, length)?;
    let (inner, length) = parts;
    let mut formed = inner;
    formed.add_array(words, length)?;
    Ok(formed)
}

/// A function (C99 6.7.5.3) that answers what the inner declarator says.
pub(crate) fn function(
    alloc: Global,
    prototype: Prototype,
    inner: Result<Formed, AllocError>,
    listed: Result<Listed, AllocError>,
    scope: &mut Scope,
) -> Result<Formed, AllocError>
    ensures { (before : scopes.Scope) → IfOk result (λ y. IsOkAnd inner (λ x. IsOkAnd listed (λ l. formed_in y scope.new ≡
        declares.to_function prototype (formed_in x before) (listed_in l scope.old)))) }
{
    let parts = both_ok(inner, listed)?;
    let (inner, listed) = parts;
    let mut formed = inner;
    formed.add_function(alloc, prototype, listed, scope)?;
    Ok(formed)
}
