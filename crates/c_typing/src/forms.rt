//! Forms of expressions over parts of which the last is taken as it stands behind the scope that it leaves.
ghost use Rattle.std.specs.Prelude.{◌≡◌, ◌++◌, [], IfOk};
ghost use Rattle.c_language.specs.Typing as spec;
ghost use Rattle.c_language.specs.Scopes as scopes;

use crate::arguments::Arguments;
use c_declares::TypeSaid;
use c_language::{BinaryOperator, Name, Shown, Told, UnaryOperator};
use c_type_forms as forms;
use c_type_scope::Scope;
use plain_data::{Bytes, Shared};
use std::alloc::{AllocError, Global};

/// A character constant. It fails for want of memory alone.
pub fn character_constant(alloc: Global, at: u32, value: &i32) -> Result<Told, AllocError>
    ensures { IfOk result (λ x. x ≡ spec.character_told at value.now) }
{
    forms::character_constant(alloc, at, *value)
}

/// A name, by its declaration in force. It fails for want of memory alone.
pub fn identifier(alloc: Global, scope: &Scope, at: u32, name: &Name) -> Result<Told, AllocError>
    ensures { IfOk result (λ x. x ≡ spec.named_told at (scopes.look_up scope.now name.now)) }
{
    forms::identifier(alloc, at, scope.look_up(name.get().as_slice()))
}

/// A part as a value. It fails for want of memory alone.
pub fn value(alloc: Global, scope: &Scope, x: Told) -> Result<Told, AllocError>
    ensures { IfOk result (λ y. y ≡ spec.used_told scope.now.tables x) }
{
    forms::used(alloc, scope.tables(), x)
}

/// A subscript, of which the array is a value already. It fails for want of memory alone.
pub fn subscript(
    alloc: Global,
    scope: &Scope,
    at: u32,
    x: Told,
    y: Told,
) -> Result<Told, AllocError>
    ensures { IfOk result (λ z. spec.typed_in z scope.now ≡ spec.over_two at (spec.typed_in x scope.now) (spec.used (spec.typed_in y scope.now)) (spec.element scope.now.tables)) }
{
    let y = forms::used(alloc, scope.tables(), y)?;
    forms::subscript(alloc, scope.tables(), at, x, y)
}

/// A call of what stands at `callee`. It fails for want of memory alone.
pub fn call(
    alloc: Global,
    scope: &Scope,
    at: u32,
    callee: u32,
    shown: Option<Shown>,
    arguments: Arguments,
) -> Result<Told, AllocError>
    ensures { IfOk result (λ z. spec.typed_in z scope.now ≡ spec.call at callee shown arguments scope.now) }
{
    let Arguments { all, faults } = arguments;
    forms::call(alloc, scope.tables(), at, callee, shown, all, faults)
}

/// A member of an object. It fails for want of memory alone.
pub fn member(
    alloc: Global,
    scope: &Scope,
    at: u32,
    name: &Name,
    x: Told,
) -> Result<Told, AllocError>
    ensures { IfOk result (λ z. spec.typed_in z scope.now ≡ spec.member at name.now (spec.typed_in x scope.now)) }
{
    forms::member(alloc, scope.tables(), at, name, x)
}

/// A member of what a value points to. It fails for want of memory alone.
pub fn arrow(
    alloc: Global,
    scope: &Scope,
    at: u32,
    name: &Name,
    x: Told,
) -> Result<Told, AllocError>
    ensures { IfOk result (λ z. spec.typed_in z scope.now ≡ spec.arrow at name.now (spec.typed_in x scope.now)) }
{
    let x = forms::used(alloc, scope.tables(), x)?;
    forms::arrow(alloc, scope.tables(), at, name, x)
}

/// A postfix operator over its operand as it stands. It fails for want of memory alone.
pub fn postfix(alloc: Global, scope: &Scope, at: u32, x: Told) -> Result<Told, AllocError>
    ensures { IfOk result (λ z. spec.typed_in z scope.now ≡ spec.postfix at (spec.typed_in x scope.now)) }
{
    forms::postfix(alloc, scope.tables(), at, x)
}

/// A unary operator over its operand as it stands. It fails for want of memory alone.
pub fn unary(
    alloc: Global,
    scope: &Scope,
    at: u32,
    operator: UnaryOperator,
    x: Told,
) -> Result<Told, AllocError>
    ensures { IfOk result (λ z. spec.typed_in z scope.now ≡ spec.unary at operator (spec.typed_in x scope.now)) }
{
    let x = forms::operand(alloc, scope.tables(), operator, x)?;
    forms::unary(alloc, scope.tables(), at, operator, x)
}

/// The size of an expression's type. It fails for want of memory alone.
pub fn size_of_expression(
    alloc: Global,
    scope: &Scope,
    at: u32,
    x: Told,
) -> Result<Told, AllocError>
    ensures { IfOk result (λ z. spec.typed_in z scope.now ≡ spec.size_of_expression at (spec.typed_in x scope.now)) }
{
    forms::size_of_expression(alloc, scope.tables(), at, x)
}

/// The size of a named type. It fails for want of memory alone.
pub fn size_of_type(
    alloc: Global,
    scope: &Scope,
    at: u32,
    named: TypeSaid,
) -> Result<Told, AllocError>
    ensures { IfOk result (λ z. spec.typed_in z scope.now ≡ spec.size_of_type at named.ctype named.faults scope.now) }
{
    let TypeSaid { ctype, faults } = named;
    forms::size_of_type(alloc, scope.tables(), at, ctype, faults)
}

/// A binary operator, of which the left operand is a value already. It fails for want of memory alone.
pub fn binary(
    alloc: Global,
    scope: &Scope,
    at: u32,
    operator: BinaryOperator,
    x: Told,
    y: Told,
) -> Result<Told, AllocError>
    ensures { IfOk result (λ z. spec.typed_in z scope.now ≡ spec.over_two at (spec.typed_in x scope.now) (spec.used (spec.typed_in y scope.now)) (spec.operated scope.now.tables operator)) }
{
    let y = forms::used(alloc, scope.tables(), y)?;
    forms::binary(alloc, scope.tables(), at, operator, x, y)
}

/// A cast of a value to a named type. It fails for want of memory alone.
pub fn cast(
    alloc: Global,
    scope: &Scope,
    at: u32,
    to: TypeSaid,
    x: Told,
) -> Result<Told, AllocError>
    ensures { IfOk result (λ z. spec.typed_in z scope.now ≡ spec.cast at to.ctype to.faults (spec.typed_in x scope.now)) }
{
    let TypeSaid { ctype, faults } = to;
    let x = forms::used(alloc, scope.tables(), x)?;
    forms::cast(alloc, at, ctype, faults, x)
}

/// The conditional operator, of which the condition and the first choice are values already. It fails for want of memory
/// alone.
pub fn choice(
    alloc: Global,
    scope: &Scope,
    at: u32,
    condition: Told,
    x: Told,
    y: Told,
) -> Result<Told, AllocError>
    ensures { IfOk result (λ z. z ≡ spec.choice_over at condition.shown x.shown (spec.used_told scope.now.tables y).shown (condition.faults ++ x.faults ++ (spec.used_told scope.now.tables y).faults)) }
{
    let y = forms::used(alloc, scope.tables(), y)?;
    forms::choice(alloc, at, condition, x, y)
}

/// An assignment to a target as it stands. It fails for want of memory alone.
pub fn assignment(
    alloc: Global,
    scope: &Scope,
    at: u32,
    operator: Option<BinaryOperator>,
    x: Told,
    y: Told,
) -> Result<Told, AllocError>
    ensures { IfOk result (λ z. spec.typed_in z scope.now ≡ spec.assignment at operator (spec.typed_in x scope.now) (spec.typed_in y scope.now)) }
{
    let y = forms::used(alloc, scope.tables(), y)?;
    forms::assignment(alloc, scope.tables(), at, operator, x, y)
}

/// The comma operator over operands as they stand. It fails for want of memory alone.
pub fn comma(alloc: Global, scope: &Scope, at: u32, x: Told, y: Told) -> Result<Told, AllocError>
    ensures { IfOk result (λ z. spec.typed_in z scope.now ≡ spec.comma at (spec.typed_in x scope.now) (spec.typed_in y scope.now)) }
{
    let y = forms::used(alloc, scope.tables(), y)?;
    forms::comma(at, x, y)
}

/// Adjacent string literals. It fails for want of memory alone.
pub fn string_literal(
    alloc: Global,
    scope: &Scope,
    at: u32,
    pieces: &[Shared<Bytes>],
) -> Result<Told, AllocError>
    ensures { IfOk result (λ z. z ≡ spec.node at (spec.literal_shown scope.now.tables pieces.now) []) }
{
    forms::string_literal(alloc, scope.tables(), at, pieces)
}

/// `__func__`, in the body of a function or outside of any. It fails for want of memory alone.
pub fn function_name(alloc: Global, scope: &Scope, at: u32) -> Result<Told, AllocError>
    ensures { IfOk result (λ z. spec.typed_in z scope.now ≡ spec.function_name at scope.now.function scope.now) }
{
    forms::function_name(alloc, scope.tables(), at, scope.function())
}
