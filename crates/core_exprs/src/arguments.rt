//! The arguments of a call in the core, one behind the other (C99 6.5.2.2).
ghost use Rattle.std.specs.Prelude.{◌≡◌, ◌++◌, ◌∷◌, [], List, IfOk, OnOk};
ghost use Rattle.c_language.specs.declared.scope.Fault as fault;
ghost use Rattle.c_language.specs.Typing.{type_in};
ghost use Rattle.c_means.specs.Expressions as form;
ghost use Rattle.c_means.specs.Parts.{Part};
ghost use Rattle.elaborate.specs.Means.{Numbering};
ghost use Rattle.core_exprs.specs.Found.{IsFoundOf};
ghost use Rattle.core_exprs.specs.Passing.{ArePassed, and_used, none_passed, types_passed};
ghost use Rattle.core_exprs.specs.Passing as spec;

use crate::found::Found;
use c_language::{Base, CType, Derivation, Fault, Tables, Told};
use c_type_scope::Scope;
use c_typing::{Arguments, and_argument, no_arguments};
use core_forms::{Used, converted, operand};
use core_tree::Expr;
use plain_data::{Bytes, Items, Shared};
use std::alloc::{AllocError, Global};

/// What was found of arguments so far, from left to right: what they say together behind the faults of the callee, the
/// types of their values, the bytes of those that are string literals, and their values in the core.
#[derive(Drop)]
pub struct Passing {
    pub arguments: Arguments,
    pub types: Items<Option<CType>>,
    pub texts: Items<Option<Bytes>>,
    pub values: Items<Shared<Expr>>,
}

/// The type that an expression has.
pub(crate) fn type_again(alloc: Global, told: &Told) -> Result<Option<CType>, AllocError>
    ensures { IfOk result (λ t. t ≡ type_in told.now.shown) }
{
    match &told.shown {
        Some(shown) => Ok(Some(shown.ctype.duplicate(alloc)?)),
        None => Ok(None),
    }
}

/// No arguments, behind the faults of the callee. It takes no memory.
pub(crate) fn nothing_passed(alloc: Global, faults: Items<Fault>) -> Passing
    ensures { result ≡ none_passed faults }
{
    Passing {
        arguments: no_arguments(alloc, faults),
        types: Items::new(alloc),
        texts: Items::new(alloc),
        values: Items::new(alloc),
    }
}

/// One more value. It fails for want of memory alone.
fn with_value(
    alloc: Global,
    before: Passing,
    x: Used,
    text: Option<Bytes>,
) -> Result<Passing, AllocError>
    ensures { IfOk result (λ y. y ≡ and_used before x text) }
{
    let Passing {
        arguments,
        mut types,
        mut texts,
        mut values,
    } = before;
    let Used { told, value } = x;
    types.push(type_again(alloc, &told)?)?;
    texts.push(text)?;
    values.push(value)?;
    Ok(Passing {
        arguments: and_argument(arguments, told)?,
        types,
        texts,
        values,
    })
}

/// One more argument, in the names in force behind it.
pub(crate) fn and_passed(
    alloc: Global,
    scope: &Scope,
    before: Passing,
    x: Found,
) -> Result<Passing, AllocError>
    ensures { (n : Numbering) (faults : List fault.Fault) (ps : List Part) (p : Part) → ArePassed n faults ps before → IsFoundOf n x p scope.now →
        IfOk result (λ y. ArePassed n faults (ps ++ p ∷ []) y) }
{
    let Found { built, text } = x;
    let u = operand(alloc, scope.tables(), built)?;
    let all = with_value(alloc, before, u, text)?;
    Ok(all)
}

/// The type to which an argument without a parameter is converted (C99 6.5.2.2p6).
fn promoted_type(alloc: Global, ctype: &Option<CType>) -> Result<Option<CType>, AllocError>
    ensures { IfOk result (λ t. t ≡ form.promoted_type ctype.now) }
{
    match ctype {
        Some(ctype) => match ctype.kind() {
            Some(kind) => Ok(Some(CType::basic(alloc, Base::Integer(kind.promoted())))),
            None => Ok(Some(ctype.duplicate(alloc)?)),
        },
        None => Ok(None),
    }
}

/// The types of the parameters that a function's type declares.
pub(crate) fn parameters_of<'a>(tables: &'a Tables, function: &CType) -> &'a [CType]
    ensures { result.now ≡ form.parameters_from tables.now function.now.derivations }
{
    match function.derivations.as_slice().first() {
        Some(Derivation::Function(number)) => match tables.signatures.get(*number as usize) {
            Some(signature) => signature.parameters.as_slice(),
            None => &[],
        },
        _ => &[],
    }
}

/// Puts the types to which arguments are converted behind others (C99 6.5.2.2p4, p6, p7). It fails for want of memory
/// alone.
pub(crate) fn put_types(
    alloc: Global,
    all: &mut Items<Option<CType>>,
    types: &[Option<CType>],
    parameters: &[CType],
) -> Result<(), AllocError>
    ensures { OnOk result (all.new ≡ all.old ++ types_passed types.now parameters.now) }
{
    match (types.split_first(), parameters.split_first()) {
        (Some((_, types)), Some((parameter, parameters))) => {
            all.push(Some(parameter.duplicate(alloc)?))?;
            put_types(alloc, all, types, parameters)
        }
        (Some((ctype, types)), None) => {
            all.push(promoted_type(alloc, ctype)?)?;
            put_types(alloc, all, types, parameters)
        }
        (None, _) => Ok(()),
    }
}

/// Puts values, converted to types, behind others. It fails for want of memory alone.
pub(crate) fn put_converted(
    alloc: Global,
    tables: &Tables,
    all: &mut Items<Shared<Expr>>,
    types: &[Option<CType>],
    values: &[Shared<Expr>],
) -> Result<(), AllocError>
    ensures { OnOk result (all.new ≡ all.old ++ spec.all_converted tables.now types.now values.now) }
{
    match (types.split_first(), values.split_first()) {
        (Some((ctype, types)), Some((value, values))) => {
            all.push(converted(alloc, tables, ctype, value.clone()?)?)?;
            put_converted(alloc, tables, all, types, values)
        }
        _ => Ok(()),
    }
}
