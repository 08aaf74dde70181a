//! Forms of expressions over parts and what is noted of them (C99 6.5): what each says to the types, and its notes.

ghost use Rattle.std.specs.Prelude.{◌≡◌, ◌++◌, IfOk, IsOkAnd, OnOk};
ghost use Rattle.c_language.specs.Typing as typing;
ghost use Rattle.c_language.specs.Scopes as scopes;
ghost use Rattle.c_means.specs.Expressions.{joined as joined_};
ghost use Rattle.c_means.specs.Notes as told;
ghost use Rattle.c_notes.specs.Tellings as spec;
ghost use Rattle.c_notes.specs.Relations.{IsForm};

use crate::notes::{
    ExprNotes, NotedExpr, as_place, as_value, both, is_moved, is_pointer, is_static, nothing_noted,
};
use c_declares::TypeSaid;
use c_language::{BinaryOperator, Duration, Means, Name, Told, UnaryOperator};
use c_type_scope::Scope;
use c_typing as forms;
use plain_data::{Bytes, Items, Shared, both_ok};
use std::alloc::{AllocError, Global};

/// A node without parts that is a value. It fails where what it says did.
pub(crate) fn leaf(alloc: Global, told: Result<Told, AllocError>) -> Result<NotedExpr, AllocError>
    ensures { IfOk result (λ z. IsOkAnd told (λ t. z ≡ record { told = t; notes = spec.leaf t.shown })) }
{
    Ok(as_value(false, told?, nothing_noted(alloc)))
}

/// Adjacent string literals, of which each array lives throughout the run. It fails for want of memory alone.
pub(crate) fn literal(
    alloc: Global,
    told: Result<Told, AllocError>,
    pieces: &[Shared<Bytes>],
) -> Result<NotedExpr, AllocError>
    ensures { IfOk result (λ z. IsOkAnd told (λ t. z ≡ record { told = t; notes = spec.literal (joined_ pieces.now) t.shown })) }
{
    let (told, text) = both_ok(told, text_of(alloc, pieces))?;
    let NotedExpr { told, notes } = as_place(true, told, nothing_noted(alloc));
    let ExprNotes {
        calls,
        called,
        is_place,
        is_address,
        is_constant,
        ..
    } = notes;
    let notes = ExprNotes {
        text: Some(text),
        calls,
        called,
        is_place,
        is_address,
        is_constant,
    };
    Ok(NotedExpr { told, notes })
}

fn text_of(alloc: Global, pieces: &[Shared<Bytes>]) -> Result<Bytes, AllocError>
    ensures { IfOk result (λ bytes. bytes ≡ joined_ pieces.now) }
{
    let mut text = Bytes::new(alloc);
    for piece in pieces {
        add_bytes(&mut text, piece.get().as_slice())?;
    }
    Ok(text)
}

pub(crate) fn add_bytes(text: &mut Bytes, bytes: &[u8]) -> Result<(), AllocError>
    ensures { OnOk result (text.new ≡ text.old ++ bytes.now) }
{
    for byte in bytes {
        text.push(*byte)?;
    }
    Ok(())
}

/// A name, or `__func__`; `fixed` tells that its address is constant. It fails where what it says did.
pub(crate) fn placed_leaf(
    alloc: Global,
    fixed: bool,
    told: Result<Told, AllocError>,
) -> Result<NotedExpr, AllocError>
    ensures { IfOk result (λ z. IsOkAnd told (λ t. z ≡ record { told = t; notes = spec.placed_leaf fixed t.shown })) }
{
    Ok(as_place(fixed, told?, nothing_noted(alloc)))
}

fn is_fixed(means: &Means) -> bool
    ensures { result ≡ told.is_fixed means.now }
{
    match means {
        Means::Object { duration, .. } => match *duration {
            Duration::Static => true,
            Duration::Automatic => false,
        },
        Means::Function { .. } => true,
        Means::Typedef { .. } => false,
        Means::Constant { .. } => false,
        Means::Faulty => false,
    }
}

/// Whether a name is of an object that lives throughout the run, or of a function.
pub(crate) fn is_fixed_name(scope: &Scope, name: &Name) -> bool
    ensures { result ≡ told.is_fixed_name (scopes.look_up scope.now name.now) }
{
    match scope.look_up(name.get().as_slice()) {
        None => false,
        Some(entry) => is_fixed(&entry.get().means),
    }
}

/// A part as a value, with the same notes. It fails for want of memory alone.
pub(crate) fn value(
    alloc: Global,
    scope: &Scope,
    part: Result<NotedExpr, AllocError>,
) -> Result<NotedExpr, AllocError>
    ensures { IfOk result (λ y. IsOkAnd part (λ x. y ≡ record x { told = typing.used_told scope.now.tables x.told })) }
{
    let NotedExpr { told, notes } = part?;
    let told = forms::value(alloc, scope, told)?;
    Ok(NotedExpr { told, notes })
}

/// A subscript, of which the array is a value already. It fails for want of memory alone.
pub(crate) fn subscript(
    alloc: Global,
    scope: &Scope,
    at: u32,
    array: Result<NotedExpr, AllocError>,
    index: Result<NotedExpr, AllocError>,
) -> Result<NotedExpr, AllocError>
    ensures { IfOk result (λ z. IsOkAnd array (λ x. IsOkAnd index (λ y. IsForm (typing.over_two at (typing.typed_in x.told scope.now) (typing.used (typing.typed_in y.told scope.now)) (typing.element scope.now.tables)) (λ shown. spec.subscript shown x.notes y.notes) z scope.now))) }
{
    let (x, y) = both_ok(array, index)?;
    let fixed = is_moved(&x.notes, &y.notes);
    let told = forms::subscript(alloc, scope, at, x.told, y.told);
    let (told, notes) = both_ok(told, both(x.notes, y.notes))?;
    Ok(as_place(fixed, told, notes))
}

/// A member of an object. It fails for want of memory alone.
pub(crate) fn member(
    alloc: Global,
    scope: &Scope,
    at: u32,
    name: &Name,
    object: Result<NotedExpr, AllocError>,
) -> Result<NotedExpr, AllocError>
    ensures { IfOk result (λ z. IsOkAnd object (λ x. IsForm (typing.member at name.now (typing.typed_in x.told scope.now)) (λ shown. spec.member shown x.notes) z scope.now)) }
{
    let x = object?;
    let fixed = x.notes.is_place;
    let told = forms::member(alloc, scope, at, name, x.told)?;
    Ok(as_place(fixed, told, x.notes))
}

/// A member of what a value points to. It fails for want of memory alone.
pub(crate) fn arrow(
    alloc: Global,
    scope: &Scope,
    at: u32,
    name: &Name,
    pointer: Result<NotedExpr, AllocError>,
) -> Result<NotedExpr, AllocError>
    ensures { IfOk result (λ z. IsOkAnd pointer (λ x. IsForm (typing.arrow at name.now (typing.typed_in x.told scope.now)) (λ shown. spec.arrow shown x.notes) z scope.now)) }
{
    let x = pointer?;
    let fixed = x.notes.is_address;
    let told = forms::arrow(alloc, scope, at, name, x.told)?;
    Ok(as_place(fixed, told, x.notes))
}

/// A postfix operator over its operand as it stands. It fails for want of memory alone.
pub(crate) fn postfix(
    alloc: Global,
    scope: &Scope,
    at: u32,
    operand: Result<NotedExpr, AllocError>,
) -> Result<NotedExpr, AllocError>
    ensures { IfOk result (λ z. IsOkAnd operand (λ x. IsForm (typing.postfix at (typing.typed_in x.told scope.now)) (λ shown. spec.one_value shown x.notes) z scope.now)) }
{
    let x = operand?;
    let told = forms::postfix(alloc, scope, at, x.told)?;
    Ok(as_value(false, told, x.notes))
}

fn unary_notes(operator: UnaryOperator, told: Told, notes: ExprNotes) -> NotedExpr
    ensures { result ≡ record { told = told; notes = spec.unary operator told.shown notes } }
{
    match operator {
        UnaryOperator::Address => {
            let fixed = notes.is_place;
            as_value(fixed, told, notes)
        }
        UnaryOperator::Indirection => {
            let fixed = notes.is_address;
            as_place(fixed, told, notes)
        }
        UnaryOperator::Plus => as_value(false, told, notes),
        UnaryOperator::Minus => as_value(false, told, notes),
        UnaryOperator::Complement => as_value(false, told, notes),
        UnaryOperator::Not => as_value(false, told, notes),
        UnaryOperator::Increment => as_value(false, told, notes),
        UnaryOperator::Decrement => as_value(false, told, notes),
    }
}

/// A unary operator over its operand as it stands. It fails for want of memory alone.
pub(crate) fn unary(
    alloc: Global,
    scope: &Scope,
    at: u32,
    operator: UnaryOperator,
    operand: Result<NotedExpr, AllocError>,
) -> Result<NotedExpr, AllocError>
    ensures { IfOk result (λ z. IsOkAnd operand (λ x. IsForm (typing.unary at operator (typing.typed_in x.told scope.now)) (λ shown. spec.unary operator shown x.notes) z scope.now)) }
{
    let x = operand?;
    let told = forms::unary(alloc, scope, at, operator, x.told)?;
    Ok(unary_notes(operator, told, x.notes))
}

/// The size of an expression's type: the expression isn't evaluated. It fails for want of memory alone.
pub(crate) fn size_of_expression(
    alloc: Global,
    scope: &Scope,
    at: u32,
    operand: Result<NotedExpr, AllocError>,
) -> Result<NotedExpr, AllocError>
    ensures { IfOk result (λ z. IsOkAnd operand (λ x. IsForm (typing.size_of_expression at (typing.typed_in x.told scope.now)) (λ shown. spec.unevaluated shown x.notes) z scope.now)) }
{
    let x = operand?;
    let told = forms::size_of_expression(alloc, scope, at, x.told)?;
    let mut notes = x.notes;
    notes.called = Items::new(alloc);
    Ok(as_value(false, told, notes))
}

/// Whether a sum or difference of address and constant is an address constant.
fn is_fixed_by(operator: BinaryOperator, x: &ExprNotes, y: &ExprNotes) -> bool
    ensures { result ≡ spec.fixed_by operator x.now y.now }
{
    match operator {
        BinaryOperator::Add => is_moved(x, y),
        BinaryOperator::Subtract => x.is_address && y.is_constant,
        BinaryOperator::Multiply => false,
        BinaryOperator::Divide => false,
        BinaryOperator::Remainder => false,
        BinaryOperator::ShiftLeft => false,
        BinaryOperator::ShiftRight => false,
        BinaryOperator::Less => false,
        BinaryOperator::Greater => false,
        BinaryOperator::LessEqual => false,
        BinaryOperator::GreaterEqual => false,
        BinaryOperator::Equal => false,
        BinaryOperator::NotEqual => false,
        BinaryOperator::BitAnd => false,
        BinaryOperator::BitXor => false,
        BinaryOperator::BitOr => false,
        BinaryOperator::LogicalAnd => false,
        BinaryOperator::LogicalOr => false,
    }
}

/// A binary operator, of which the left operand is a value already. It fails for want of memory alone.
pub(crate) fn binary(
    alloc: Global,
    scope: &Scope,
    at: u32,
    operator: BinaryOperator,
    left: Result<NotedExpr, AllocError>,
    right: Result<NotedExpr, AllocError>,
) -> Result<NotedExpr, AllocError>
    ensures { IfOk result (λ z. IsOkAnd left (λ x. IsOkAnd right (λ y. IsForm (typing.over_two at (typing.typed_in x.told scope.now) (typing.used (typing.typed_in y.told scope.now)) (typing.operated scope.now.tables operator)) (λ shown. spec.binary operator shown x.notes y.notes) z scope.now))) }
{
    let (x, y) = both_ok(left, right)?;
    let fixed = is_fixed_by(operator, &x.notes, &y.notes);
    let told = forms::binary(alloc, scope, at, operator, x.told, y.told);
    let (told, notes) = both_ok(told, both(x.notes, y.notes))?;
    Ok(as_value(fixed, told, notes))
}

/// A cast of a value to a named type. It fails for want of memory alone.
pub(crate) fn cast(
    alloc: Global,
    scope: &Scope,
    at: u32,
    named: Result<TypeSaid, AllocError>,
    operand: Result<NotedExpr, AllocError>,
) -> Result<NotedExpr, AllocError>
    ensures { IfOk result (λ z. IsOkAnd named (λ to. IsOkAnd operand (λ x. IsForm (typing.cast at to.ctype to.faults (typing.typed_in x.told scope.now)) (λ shown. spec.cast shown x.notes) z scope.now))) }
{
    let (to, x) = both_ok(named, operand)?;
    let fixed = is_static(&x.notes);
    let told = forms::cast(alloc, scope, at, to, x.told)?;
    let fixed = fixed && is_pointer(&told.shown);
    Ok(as_value(fixed, told, x.notes))
}

/// An assignment to a target as it stands. It fails for want of memory alone.
pub(crate) fn assignment(
    alloc: Global,
    scope: &Scope,
    at: u32,
    operator: Option<BinaryOperator>,
    target: Result<NotedExpr, AllocError>,
    value: Result<NotedExpr, AllocError>,
) -> Result<NotedExpr, AllocError>
    ensures { IfOk result (λ z. IsOkAnd target (λ x. IsOkAnd value (λ y. IsForm (typing.assignment at operator (typing.typed_in x.told scope.now) (typing.typed_in y.told scope.now)) (λ shown. spec.two_values shown x.notes y.notes) z scope.now))) }
{
    let (x, y) = both_ok(target, value)?;
    let told = forms::assignment(alloc, scope, at, operator, x.told, y.told);
    let (told, notes) = both_ok(told, both(x.notes, y.notes))?;
    Ok(as_value(false, told, notes))
}

/// The comma operator over operands as they stand. It fails for want of memory alone.
pub(crate) fn comma(
    alloc: Global,
    scope: &Scope,
    at: u32,
    left: Result<NotedExpr, AllocError>,
    right: Result<NotedExpr, AllocError>,
) -> Result<NotedExpr, AllocError>
    ensures { IfOk result (λ z. IsOkAnd left (λ x. IsOkAnd right (λ y. IsForm (typing.comma at (typing.typed_in x.told scope.now) (typing.typed_in y.told scope.now)) (λ shown. spec.two_values shown x.notes y.notes) z scope.now))) }
{
    let (x, y) = both_ok(left, right)?;
    let told = forms::comma(alloc, scope, at, x.told, y.told);
    let (told, notes) = both_ok(told, both(x.notes, y.notes))?;
    Ok(as_value(false, told, notes))
}

/// The size of a named type. It fails for want of memory alone.
pub(crate) fn size_of_type(
    alloc: Global,
    scope: &Scope,
    at: u32,
    named: Result<TypeSaid, AllocError>,
) -> Result<NotedExpr, AllocError>
    ensures { IfOk result (λ z. IsOkAnd named (λ k. IsForm (typing.size_of_type at k.ctype k.faults scope.now) (λ shown. spec.leaf shown) z scope.now)) }
{
    let told = forms::size_of_type(alloc, scope, at, named?)?;
    Ok(as_value(false, told, nothing_noted(alloc)))
}

fn all_three(first: ExprNotes, second: ExprNotes, third: ExprNotes) -> Result<ExprNotes, AllocError>
    ensures { IfOk result (λ n. n ≡ spec.both (spec.both first second) third) }
{
    let notes = both(first, second)?;
    both(notes, third)
}

/// The conditional operator, of which the condition and the first choice are values already. It fails for want of
/// memory alone.
pub(crate) fn choice(
    alloc: Global,
    scope: &Scope,
    at: u32,
    condition: Result<NotedExpr, AllocError>,
    positive: Result<NotedExpr, AllocError>,
    negative: Result<NotedExpr, AllocError>,
) -> Result<NotedExpr, AllocError>
    ensures { IfOk result (λ z. IsOkAnd condition (λ c. IsOkAnd positive (λ x. IsOkAnd negative (λ y. (z.told ≡ typing.choice_over at c.told.shown x.told.shown (typing.used_told scope.now.tables y.told).shown (c.told.faults ++ x.told.faults ++ (typing.used_told scope.now.tables y.told).faults)) × (z.notes ≡ spec.choice z.told.shown c.notes x.notes y.notes))))) }
{
    let (c, choices) = both_ok(condition, both_ok(positive, negative))?;
    let (x, y) = choices;
    let fixed = c.notes.is_constant && is_static(&x.notes) && is_static(&y.notes);
    let told = forms::choice(alloc, scope, at, c.told, x.told, y.told);
    let (told, notes) = both_ok(told, all_three(c.notes, x.notes, y.notes))?;
    Ok(as_value(fixed, told, notes))
}
