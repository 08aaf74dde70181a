//! Constant expressions (C99 6.6), and the types that type names name (C99 6.7.6).

ghost use Rattle.std.specs.Prelude.{◌≡◌};
ghost use Rattle.c_language.specs.Scopes.{empty};
ghost use Rattle.c_language.specs.Typing as typing;
ghost use Rattle.c_language.specs.Declares.{faults_in};
ghost use Rattle.c_language.specs.Trees as trees;
ghost use Rattle.c_declares.specs.Views.{type_said_in};
ghost use Rattle.c_types.specs.Causes as causes;

use crate::faults::TypeFault;
use c_declares::TypeSaid;
use c_language::{CType, Expr, Fault, LayoutRule, Rule, Told, TypeName};
use c_type_scope::Scope;
use c_typing::{type_name, typed};
use std::alloc::Global;

/// The cause that a rule is, where it is one on sizes or constants.
fn cause_of(rule: Rule) -> Option<LayoutRule>
    ensures { result ≡ causes.first_cause (typing.fault_at 0 rule) }
{
    match rule {
        Rule::Layout(cause) => Some(cause),
        Rule::Undeclared => None,
        Rule::TypeMismatch => None,
        Rule::NotModifiable => None,
        Rule::FloatUsed => None,
        Rule::IndirectCall => None,
        Rule::StructByValue => None,
        Rule::BitField => None,
        Rule::DuplicateDefinition => None,
    }
}

/// The first rule on sizes or constants that is broken.
#[tactic(auto, using(crate::proofs::First::first_found, crate::proofs::First::first_next))]
fn first_cause(faults: &[Fault]) -> Option<LayoutRule>
    ensures { result ≡ causes.first_cause faults.now }
{
    for fault in faults {
        match cause_of(fault.rule) {
            Some(cause) => return Some(cause),
            None => {}
        }
    }
    None
}

fn fault_of(cause: Option<LayoutRule>) -> TypeFault
    ensures { result ≡ causes.fault_of cause }
{
    match cause {
        Some(LayoutRule::Incomplete) => TypeFault::Incomplete,
        Some(LayoutRule::ObjectTooLarge) => TypeFault::ObjectTooLarge,
        Some(LayoutRule::NotConstant) => TypeFault::NotConstant,
        None => TypeFault::Unknown,
    }
}

/// The value that an expression shows, or why it has none.
#[tactic(auto, using(crate::proofs::First::cause_found, crate::proofs::First::cause_missing))]
fn constant(told: &Told) -> Result<i128, TypeFault>
    ensures { result ≡ causes.answered (causes.with_cause (typing.const_value (typing.typed_in told.now empty))) }
{
    let value = match &told.shown {
        Some(shown) => shown.value,
        None => None,
    };
    match value {
        Some(value) => Ok(value),
        None => match first_cause(told.faults.as_slice()) {
            Some(cause) => Err(fault_of(Some(cause))),
            None => Err(TypeFault::NotConstant),
        },
    }
}

/// The value of a constant expression (C99 6.6), in a scope in which the tags and enumerators that it declares are in
/// force behind it. Where it has no value, the first rule on sizes or constants that it breaks is the cause; where it
/// breaks none, it isn't constant. Beside these answers there is want of memory alone.
pub fn const_value(alloc: Global, expr: &Expr, scope: &mut Scope) -> Result<i128, TypeFault>
    ensures value { causes.OrMemory result (causes.answered (causes.with_cause (typing.const_value (trees.typed expr.now scope.old)))) }
    ensures scope { causes.Behind result scope.new (trees.typed expr.now scope.old).after }
{
    match typed(alloc, expr, scope) {
        Ok(told) => constant(&told),
        Err(_) => Err(TypeFault::Memory),
    }
}

/// The type of a type name whose parts break no rule on sizes or constants, or why there is none.
fn formed(ctype: Option<Result<CType, Rule>>) -> Result<CType, TypeFault>
    ensures { result ≡ causes.answered (causes.named_as (causes.first_cause (faults_in 0 ctype)) ctype) }
{
    match ctype {
        Some(Ok(ctype)) => Ok(ctype),
        Some(Err(rule)) => Err(fault_of(cause_of(rule))),
        None => Err(TypeFault::Unknown),
    }
}

/// The type of a type name, or why there is none.
#[tactic(auto, using(crate::proofs::First::cause_first, crate::proofs::First::cause_then))]
fn known_type(named: TypeSaid) -> Result<CType, TypeFault>
    ensures { result ≡ causes.answered (causes.layout_of (type_said_in named empty)) }
{
    let TypeSaid { ctype, faults } = named;
    match first_cause(faults.as_slice()) {
        Some(cause) => Err(fault_of(Some(cause))),
        None => formed(ctype),
    }
}

/// The type that a type name names (C99 6.7.6), in a scope in which the tags and enumerators that it declares are in
/// force behind it. There is none where a rule on sizes or constants is broken, the first of which is the cause, and
/// `Unknown` where none is and another rule leaves no type. Beside these answers there is want of memory alone.
pub fn layout(alloc: Global, name: &TypeName, scope: &mut Scope) -> Result<CType, TypeFault>
    ensures value { causes.OrMemory result (causes.answered (causes.layout_of (trees.type_name_says name.now scope.old))) }
    ensures scope { causes.Behind result scope.new (trees.type_name_says name.now scope.old).after }
{
    match type_name(alloc, name, scope) {
        Ok(named) => known_type(named),
        Err(_) => Err(TypeFault::Memory),
    }
}
