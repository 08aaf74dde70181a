//! Forms of expressions over what was found of their parts, of which the last is taken as it stands in the names in
//! force behind it. A form fails where one of its parts did, and else for want of memory alone.
ghost use Rattle.std.specs.Prelude.{◌≡◌, ◌++◌, None, Some, IfOk, IsOkAnd, OnOk};
ghost use Rattle.c_language.specs.Scopes as scopes;
ghost use Rattle.c_language.specs.Typing as says;
ghost use Rattle.c_language.specs.Typing.{typed_in};
ghost use Rattle.std.specs.Option.{option_copied};
ghost use Rattle.core_tree.specs.declared.expr.Expr.TheVariants as expr;
ghost use Rattle.core_forms.specs.Nodes.{a_value};
ghost use Rattle.c_means.specs.Expressions as form;
ghost use Rattle.c_means.specs.Parts.{Part};
ghost use Rattle.elaborate.specs.Means.{Numbering};
ghost use Rattle.core_forms.specs.Built.{IsBuilt, IsDiscarded, IsUsed};
ghost use Rattle.core_exprs.specs.Found.{IsFoundOf, Makes, OverOne, OverTwo};

use crate::callees::Callees;
use crate::found::{Found, plain};
use c_declares::TypeSaid;
use c_language::{BinaryOperator, Entry, IntegerConstant, Name, PostfixOperator, Told};
use c_type_scope::Scope;
use core_forms::{Built, Used};
use plain_data::{Bytes, Shared, both_ok};
use std::alloc::{AllocError, Global};

/// An integer constant (C99 6.4.4.1). It fails for want of memory alone.
pub(crate) fn integer_constant(
    alloc: Global,
    at: u32,
    constant: &IntegerConstant,
) -> Result<Found, AllocError>
    ensures { (n : Numbering) (s : scopes.Scope) → IfOk result (λ x. IsFoundOf n x (form.integer_constant at constant.now s) s) }
{
    let x = core_forms::integer_constant(alloc, at, constant)?;
    Ok(plain(x))
}

/// A constant of floating type (C99 6.4.4.2) breaks a rule, and isn't run. It fails for want of memory alone.
pub(crate) fn floating_constant(alloc: Global, at: u32) -> Result<Found, AllocError>
    ensures { (n : Numbering) (s : scopes.Scope) → IfOk result (λ x. IsFoundOf n x (form.floating_constant at s) s) }
{
    let x = core_forms::floating_constant(alloc, at)?;
    Ok(plain(x))
}

/// A character constant as a part. It fails for want of memory alone.
fn character(alloc: Global, at: u32, value: &i32) -> Result<Built, AllocError>
    ensures { IfOk result (λ x. x ≡ a_value (says.character_told at value.now) (expr.Constant value.now)) }
{
    core_forms::character_constant(alloc, at, *value)
}

/// A character constant (C99 6.4.4.4). It fails for want of memory alone.
pub(crate) fn character_constant(alloc: Global, at: u32, value: &i32) -> Result<Found, AllocError>
    ensures { (n : Numbering) (s : scopes.Scope) → IfOk result (λ x. IsFoundOf n x (form.character_constant at value.now s) s) }
{
    let x = character(alloc, at, value)?;
    Ok(plain(x))
}

/// Puts adjacent pieces of a string literal behind others. It fails for want of memory alone.
fn put_pieces(text: &mut Bytes, pieces: &[Shared<Bytes>]) -> Result<(), AllocError>
    ensures { OnOk result (text.new ≡ text.old ++ form.joined pieces.now) }
{
    match pieces.split_first() {
        Some((piece, pieces)) => {
            text.extend_from_slice(piece.get().as_slice())?;
            put_pieces(text, pieces)
        }
        None => Ok(()),
    }
}

/// The bytes of adjacent string literals. It fails for want of memory alone.
fn joined(alloc: Global, pieces: &[Shared<Bytes>]) -> Result<Bytes, AllocError>
    ensures { IfOk result (λ x. x ≡ form.joined pieces.now) }
{
    let mut text = Bytes::new(alloc);
    put_pieces(&mut text, pieces)?;
    Ok(text)
}

/// Adjacent string literals (C99 6.4.5). It fails for want of memory alone.
pub(crate) fn string_literal<C: Callees>(
    alloc: Global,
    callees: &C,
    scope: &Scope,
    at: u32,
    pieces: &[Shared<Bytes>],
) -> Result<Found, AllocError>
    ensures { IfOk result (λ x. IsFoundOf (C.numbering callees.now) x (form.string_literal at pieces.now scope.now) scope.now) }
{
    let text = joined(alloc, pieces)?;
    let built = core_forms::string_literal(alloc, callees, scope.tables(), at, pieces)?;
    Ok(Found {
        built,
        text: Some(text),
    })
}

/// `__func__` (C99 6.4.2.2), in the body of a function or outside of any.
pub(crate) fn function_name<C: Callees>(
    alloc: Global,
    callees: &C,
    scope: &Scope,
    at: u32,
) -> Result<Found, AllocError>
    ensures { IfOk result (λ x. IsFoundOf (C.numbering callees.now) x (form.function_name at scope.now.function scope.now) scope.now) }
{
    let x = core_forms::function_name(alloc, callees, scope.tables(), at, scope.function())?;
    Ok(plain(x))
}

/// The declaration of a name that is in force.
fn declared<'a>(scope: &'a Scope, name: &Name) -> Option<&'a Shared<Entry>>
    ensures { option_copied result ≡ scopes.look_up scope.now name.now }
{
    scope.look_up(name.get().as_slice())
}

/// A name, by its declaration in force (C99 6.5.1p2).
pub(crate) fn identifier<C: Callees>(
    alloc: Global,
    callees: &C,
    scope: &Scope,
    at: u32,
    name: &Name,
) -> Result<Found, AllocError>
    ensures { IfOk result (λ x. IsFoundOf (C.numbering callees.now) x (form.identifier at scope.now (scopes.look_up scope.now name.now)) scope.now) }
{
    let x = core_forms::identifier(alloc, callees, at, declared(scope, name))?;
    Ok(plain(x))
}

/// A part whose value is used.
pub(crate) fn used(
    alloc: Global,
    scope: &Scope,
    x: Result<Found, AllocError>,
) -> Result<Used, AllocError>
    ensures { (n : Numbering) → Makes n scope.now (IsUsed n) x result }
{
    let x = x?;
    let Found { built, .. } = x;
    core_forms::operand(alloc, scope.tables(), built)
}

/// A part whose value isn't used.
pub(crate) fn unused(
    alloc: Global,
    scope: &Scope,
    x: Result<Found, AllocError>,
) -> Result<Used, AllocError>
    ensures { (n : Numbering) → Makes n scope.now (IsDiscarded n) x result }
{
    let x = x?;
    let Found { built, .. } = x;
    core_forms::discarded(alloc, scope.tables(), built)
}

/// A subscript (C99 6.5.2.1).
pub(crate) fn subscript(
    alloc: Global,
    scope: &Scope,
    at: u32,
    x: Result<Used, AllocError>,
    y: Result<Found, AllocError>,
) -> Result<Found, AllocError>
    ensures { (n : Numbering) → OverTwo n scope.now (IsUsed n) (form.subscript at) x y result }
{
    let parts = both_ok(x, y)?;
    let (x, y) = parts;
    let tables = scope.tables();
    let Found { built, .. } = y;
    let y = core_forms::operand(alloc, tables, built)?;
    let z = core_forms::subscript(alloc, tables, at, x, y)?;
    Ok(plain(z))
}

/// A member of an object or of a value (C99 6.5.2.3p3).
pub(crate) fn member(
    alloc: Global,
    scope: &Scope,
    at: u32,
    name: &Name,
    x: Result<Found, AllocError>,
) -> Result<Found, AllocError>
    ensures { (n : Numbering) → OverOne n scope.now (form.member at name.now) x result }
{
    let x = x?;
    let Found { built, .. } = x;
    let z = core_forms::member(alloc, scope.tables(), at, name, built)?;
    Ok(plain(z))
}

/// A member of what a value points to (C99 6.5.2.3p4).
pub(crate) fn arrow(
    alloc: Global,
    scope: &Scope,
    at: u32,
    name: &Name,
    x: Result<Found, AllocError>,
) -> Result<Found, AllocError>
    ensures { (n : Numbering) → OverOne n scope.now (form.arrow at name.now) x result }
{
    let tables = scope.tables();
    let x = x?;
    let Found { built, .. } = x;
    let u = core_forms::operand(alloc, tables, built)?;
    let z = core_forms::arrow(alloc, tables, at, name, u)?;
    Ok(plain(z))
}

/// `++` or `--` behind its operand (C99 6.5.2.4).
pub(crate) fn postfix(
    alloc: Global,
    scope: &Scope,
    at: u32,
    operator: PostfixOperator,
    x: Result<Found, AllocError>,
) -> Result<Found, AllocError>
    ensures { (n : Numbering) → OverOne n scope.now (form.postfix at operator) x result }
{
    let x = x?;
    let Found { built, .. } = x;
    let z = core_forms::postfix(alloc, scope.tables(), at, operator, built)?;
    Ok(plain(z))
}

/// The size of an expression's type, which isn't evaluated (C99 6.5.3.4p2). It fails for want of memory alone.
pub(crate) fn size_of_expression(
    alloc: Global,
    scope: &Scope,
    at: u32,
    x: Result<Told, AllocError>,
) -> Result<Found, AllocError>
    ensures { (n : Numbering) (p : Part) → IfOk result (λ z. IsOkAnd x (λ x.
        typed_in x scope.now ≡ p.typed → IsFoundOf n z (form.size_of_expression at p) scope.now)) }
{
    let x = x?;
    let z = core_forms::size_of_expression(alloc, scope.tables(), at, x)?;
    Ok(plain(z))
}

/// The size of a named type. It fails for want of memory alone.
pub(crate) fn size_of_type(
    alloc: Global,
    scope: &Scope,
    at: u32,
    named: Result<TypeSaid, AllocError>,
) -> Result<Found, AllocError>
    ensures { (n : Numbering) → IfOk result (λ z. IsOkAnd named (λ t.
        IsFoundOf n z (form.size_of_type at t.ctype t.faults scope.now) scope.now)) }
{
    let named = named?;
    let TypeSaid { ctype, faults } = named;
    let z = core_forms::size_of_type(alloc, scope.tables(), at, ctype, faults)?;
    Ok(plain(z))
}

/// A cast to a named type (C99 6.5.4).
pub(crate) fn cast(
    alloc: Global,
    scope: &Scope,
    at: u32,
    to: Result<TypeSaid, AllocError>,
    x: Result<Found, AllocError>,
) -> Result<Found, AllocError>
    ensures { (n : Numbering) (p : Part) → IfOk result (λ z. IsOkAnd to (λ to. IsOkAnd x (λ x.
        IsFoundOf n x p scope.now → IsFoundOf n z (form.cast at to.ctype to.faults p) scope.now))) }
{
    let parts = both_ok(to, x)?;
    let (to, x) = parts;
    let TypeSaid { ctype, faults } = to;
    let Found { built, .. } = x;
    let u = core_forms::cast_operand(alloc, scope.tables(), &ctype, built)?;
    let z = core_forms::cast(alloc, at, ctype, faults, u)?;
    Ok(plain(z))
}

/// A binary operator (C99 6.5.5 to 6.5.14).
pub(crate) fn binary(
    alloc: Global,
    scope: &Scope,
    at: u32,
    operator: BinaryOperator,
    x: Result<Used, AllocError>,
    y: Result<Found, AllocError>,
) -> Result<Found, AllocError>
    ensures { (n : Numbering) → OverTwo n scope.now (IsUsed n) (form.binary at operator) x y result }
{
    let parts = both_ok(x, y)?;
    let (x, y) = parts;
    let tables = scope.tables();
    let Found { built, .. } = y;
    let y = core_forms::operand(alloc, tables, built)?;
    let z = core_forms::binary(alloc, tables, at, operator, x, y)?;
    Ok(plain(z))
}

/// The conditional operator (C99 6.5.15).
pub(crate) fn choice(
    alloc: Global,
    scope: &Scope,
    at: u32,
    condition: Result<Used, AllocError>,
    x: Result<Used, AllocError>,
    y: Result<Found, AllocError>,
) -> Result<Found, AllocError>
    ensures { (n : Numbering) (r p q : Part) → IfOk result (λ z. IsOkAnd condition (λ c. IsOkAnd x (λ x. IsOkAnd y (λ y.
        IsUsed n c r → IsUsed n x p → IsFoundOf n y q scope.now → IsFoundOf n z (form.choice at r p q) scope.now)))) }
{
    let choices = both_ok(x, y);
    let parts = both_ok(condition, choices)?;
    let (condition, choices) = parts;
    let (x, y) = choices;
    let tables = scope.tables();
    let Found { built, .. } = y;
    let y = core_forms::operand(alloc, tables, built)?;
    let z = core_forms::choice(alloc, tables, at, condition, x, y)?;
    Ok(plain(z))
}

/// `target = value` (C99 6.5.16.1).
fn simple(alloc: Global, scope: &Scope, at: u32, x: Built, y: Found) -> Result<Found, AllocError>
    ensures { (n : Numbering) (p q : Part) → IsBuilt n x p → IsFoundOf n y q scope.now →
        IfOk result (λ z. IsFoundOf n z (form.assignment at None p q) scope.now) }
{
    let Found { built, .. } = y;
    let tables = scope.tables();
    let y = core_forms::operand(alloc, tables, built)?;
    let z = core_forms::simple(alloc, tables, at, x, y)?;
    Ok(plain(z))
}

/// `target op= value` (C99 6.5.16.2).
fn compound(
    alloc: Global,
    scope: &Scope,
    at: u32,
    operator: BinaryOperator,
    x: Built,
    y: Found,
) -> Result<Found, AllocError>
    ensures { (n : Numbering) (p q : Part) → IsBuilt n x p → IsFoundOf n y q scope.now →
        IfOk result (λ z. IsFoundOf n z (form.assignment at (Some operator) p q) scope.now) }
{
    let Found { built, .. } = y;
    let tables = scope.tables();
    let y = core_forms::operand(alloc, tables, built)?;
    let z = core_forms::compound(alloc, tables, at, operator, x, y)?;
    Ok(plain(z))
}

/// An assignment to what has an address (C99 6.5.16).
pub(crate) fn assignment(
    alloc: Global,
    scope: &Scope,
    at: u32,
    operator: Option<BinaryOperator>,
    x: Result<Found, AllocError>,
    y: Result<Found, AllocError>,
) -> Result<Found, AllocError>
    ensures { (n : Numbering) → OverTwo n scope.now (λ x. IsBuilt n x.built) (form.assignment at operator) x y result }
{
    let parts = both_ok(x, y)?;
    let (x, y) = parts;
    let Found { built, .. } = x;
    if let Some(operator) = operator {
        return compound(alloc, scope, at, operator, built, y);
    }
    simple(alloc, scope, at, built, y)
}

/// The comma operator (C99 6.5.17), of which the left operand isn't used.
pub(crate) fn comma(
    alloc: Global,
    scope: &Scope,
    at: u32,
    x: Result<Used, AllocError>,
    y: Result<Found, AllocError>,
) -> Result<Found, AllocError>
    ensures { (n : Numbering) → OverTwo n scope.now (IsDiscarded n) (form.comma at) x y result }
{
    let parts = both_ok(x, y)?;
    let (x, y) = parts;
    let Found { built, .. } = y;
    let y = core_forms::operand(alloc, scope.tables(), built)?;
    let z = core_forms::comma(alloc, at, x, y)?;
    Ok(plain(z))
}
