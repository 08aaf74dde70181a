//! The types that functions of the C library have, compared with every pointer taken as one to void and without
//! qualifiers; and the functions that have a meaning of their own where they have their type (C99 7.20.3, 7.20.4).

ghost use Rattle.std.specs.Prelude.{◌≡◌, [], Option, Some, IfOk, slice_get};
ghost use Rattle.c_language.specs.declared.ctype.IntegerKind.TheVariants as int_;
ghost use Rattle.c_language.specs.Types.{returned_of};
ghost use Rattle.c_means.specs.Rules as rules;
ghost use Rattle.c_checks.specs.Takings as spec;

use crate::main_function::{is_int, plain_kind};
use c_language::{Base, CType, Derivation, IntegerKind, Means, Prototype, Tables};
use std::alloc::{AllocError, Global};

/// A type as such functions have it.
#[derive(Clone, Copy, PartialEq, Eq)]
pub enum PlainType {
    Void,
    /// A pointer to anything.
    Pointer,
    Int,
    UnsignedLong,
}

fn is_void_type(ctype: &CType) -> bool
    ensures { result ≡ rules.same_plain (rules.plain_type ctype.now) (Some rules.PlainVoid) }
{
    match ctype.derivations.as_slice().first() {
        Some(Derivation::Pointer(_)) => false,
        Some(Derivation::Array(_)) => false,
        Some(Derivation::Function(_)) => false,
        None => match ctype.base {
            Base::Void => true,
            Base::Integer(_) => false,
            Base::Floating(_) => false,
            Base::VaList => false,
            Base::Enumerated(_) => false,
            Base::Aggregate(_) => false,
        },
    }
}

fn is_pointer_type(ctype: &CType) -> bool
    ensures { result ≡ rules.same_plain (rules.plain_type ctype.now) (Some rules.PlainPointer) }
{
    match ctype.derivations.as_slice().first() {
        Some(Derivation::Pointer(_)) => true,
        Some(Derivation::Array(_)) => false,
        Some(Derivation::Function(_)) => false,
        None => match ctype.base {
            Base::Void => false,
            Base::Integer(_) => false,
            Base::Floating(_) => false,
            Base::VaList => false,
            Base::Enumerated(_) => false,
            Base::Aggregate(_) => false,
        },
    }
}

fn is_unsigned_long_kind(kind: IntegerKind) -> bool
    ensures { result ≡ rules.same_kind kind int_.UnsignedLong }
{
    match kind {
        IntegerKind::Bool => false,
        IntegerKind::Char => false,
        IntegerKind::SignedChar => false,
        IntegerKind::UnsignedChar => false,
        IntegerKind::Short => false,
        IntegerKind::UnsignedShort => false,
        IntegerKind::Int => false,
        IntegerKind::UnsignedInt => false,
        IntegerKind::Long => false,
        IntegerKind::UnsignedLong => true,
        IntegerKind::LongLong => false,
        IntegerKind::UnsignedLongLong => false,
    }
}

#[tactic(auto, using(crate::proofs::Plain::unsigned_long_is))]
fn is_unsigned_long(ctype: &CType) -> bool
    ensures { result ≡ rules.same_plain (rules.plain_type ctype.now) (Some (rules.PlainInteger int_.UnsignedLong)) }
{
    match plain_kind(ctype) {
        None => false,
        Some(kind) => is_unsigned_long_kind(kind),
    }
}

fn is_plain(ctype: &CType, wanted: PlainType) -> bool
    ensures { result ≡ rules.same_plain (rules.plain_type ctype.now) (Some (spec.as_plain wanted)) }
{
    match wanted {
        PlainType::Void => is_void_type(ctype),
        PlainType::Pointer => is_pointer_type(ctype),
        PlainType::Int => is_int(ctype),
        PlainType::UnsignedLong => is_unsigned_long(ctype),
    }
}

fn none_left(rest: &[PlainType]) -> bool
    ensures { result ≡ rules.all_same [] (spec.all_plain rest.now) }
{
    match rest.split_first() {
        None => true,
        Some(_) => false,
    }
}

fn are_plain(types: &[CType], wanted: &[PlainType]) -> bool
    ensures { result ≡ rules.all_same (rules.plain_all types.now) (spec.all_plain wanted.now) }
{
    let mut rest = wanted;
    for ctype in types {
        match rest.split_first() {
            None => return false,
            Some((first, more)) => {
                if !is_plain(ctype, *first) {
                    return false;
                }
                rest = more;
            }
        }
    }
    none_left(rest)
}

fn has_parameters(
    tables: &Tables,
    number: u32,
    wanted: &[PlainType],
    returns: bool,
    to: PlainType,
) -> bool
    ensures { (r : Option rules.Plain) → returns ≡ rules.same_plain r (Some (spec.as_plain to)) → result ≡ rules.same_taking (rules.taking_by r (slice_get tables.now.signatures number)) (Some (spec.taking to wanted.now)) }
{
    match tables.signatures.get(number as usize) {
        None => false,
        Some(signature) => match signature.prototype {
            Prototype::Fixed => returns && are_plain(signature.parameters.as_slice(), wanted),
            Prototype::Variadic => false,
            Prototype::Unspecified => false,
            Prototype::EmptyDefinition => false,
        },
    }
}

fn returns_plain(alloc: Global, ctype: &CType, wanted: PlainType) -> Result<bool, AllocError>
    ensures { IfOk result (λ b. b ≡ rules.same_plain (rules.plain_result (returned_of ctype.now)) (Some (spec.as_plain wanted))) }
{
    match ctype.returned(alloc)? {
        None => Ok(false),
        Some(returned) => Ok(is_plain(&returned, wanted)),
    }
}

/// Whether a type is that of a function with a prototype of these parameters that returns this. It fails for want of
/// memory alone.
pub fn is_function_of(
    alloc: Global,
    tables: &Tables,
    ctype: &CType,
    to: PlainType,
    wanted: &[PlainType],
) -> Result<bool, AllocError>
    ensures { IfOk result (λ b. b ≡ rules.same_taking (rules.taking_of tables.now ctype.now) (Some (spec.taking to wanted.now))) }
{
    let returns = returns_plain(alloc, ctype, to)?;
    match ctype.derivations.as_slice().first() {
        Some(Derivation::Function(number)) => {
            Ok(has_parameters(tables, *number, wanted, returns, to))
        }
        Some(Derivation::Pointer(_)) => Ok(false),
        Some(Derivation::Array(_)) => Ok(false),
        None => Ok(false),
    }
}

/// Whether what a name means is a function of this type. It fails for want of memory alone.
pub fn means_function_of(
    alloc: Global,
    tables: &Tables,
    means: &Means,
    to: PlainType,
    wanted: &[PlainType],
) -> Result<bool, AllocError>
    ensures { IfOk result (λ b. b ≡ rules.same_taking (rules.declared_taking tables.now means.now) (Some (spec.taking to wanted.now))) }
{
    match means {
        Means::Function { ctype, .. } => is_function_of(alloc, tables, ctype.get(), to, wanted),
        Means::Object { .. } => Ok(false),
        Means::Typedef { .. } => Ok(false),
        Means::Constant { .. } => Ok(false),
        Means::Faulty => Ok(false),
    }
}
