//! What a program wants of `main` (C99 5.1.2.2.1p1): `int main(void)`, `int main()` or `int main(int, char **)`.

ghost use Rattle.std.specs.Prelude.{◌≡◌, ◌∷◌, IfOk, slice_get};
ghost use Rattle.c_language.specs.Types.{returned_of};
ghost use Rattle.c_language.specs.declared.ctype.IntegerKind.TheVariants as int_;
ghost use Rattle.c_means.specs.Rules.{plain_type, plain_result, same_kind};
ghost use Rattle.c_means.specs.Checks as checks;
ghost use Rattle.c_checks.specs.PlainTypes as spec;

use c_language::{Base, CType, Derivation, IntegerKind, Means, Prototype, Tables};
use std::alloc::{AllocError, Global};

fn is_int_kind(kind: IntegerKind) -> bool
    ensures { result ≡ same_kind kind int_.Int }
{
    match kind {
        IntegerKind::Bool => false,
        IntegerKind::Char => false,
        IntegerKind::SignedChar => false,
        IntegerKind::UnsignedChar => false,
        IntegerKind::Short => false,
        IntegerKind::UnsignedShort => false,
        IntegerKind::Int => true,
        IntegerKind::UnsignedInt => false,
        IntegerKind::Long => false,
        IntegerKind::UnsignedLong => false,
        IntegerKind::LongLong => false,
        IntegerKind::UnsignedLongLong => false,
    }
}

fn is_char_kind(kind: IntegerKind) -> bool
    ensures { result ≡ same_kind kind int_.Char }
{
    match kind {
        IntegerKind::Bool => false,
        IntegerKind::Char => true,
        IntegerKind::SignedChar => false,
        IntegerKind::UnsignedChar => false,
        IntegerKind::Short => false,
        IntegerKind::UnsignedShort => false,
        IntegerKind::Int => false,
        IntegerKind::UnsignedInt => false,
        IntegerKind::Long => false,
        IntegerKind::UnsignedLong => false,
        IntegerKind::LongLong => false,
        IntegerKind::UnsignedLongLong => false,
    }
}

/// The integer type other than an enumerated one that this is.
pub(crate) fn plain_kind(ctype: &CType) -> Option<IntegerKind>
    ensures { result ≡ spec.plain_kind ctype.now }
{
    match ctype.derivations.as_slice().first() {
        Some(Derivation::Pointer(_)) => None,
        Some(Derivation::Array(_)) => None,
        Some(Derivation::Function(_)) => None,
        None => match ctype.base {
            Base::Integer(kind) => Some(kind),
            Base::Void => None,
            Base::Floating(_) => None,
            Base::VaList => None,
            Base::Enumerated(_) => None,
            Base::Aggregate(_) => None,
        },
    }
}

#[tactic(auto, using(crate::proofs::Plain::int_is))]
pub(crate) fn is_int(ctype: &CType) -> bool
    ensures { result ≡ checks.is_int (plain_type ctype.now) }
{
    match plain_kind(ctype) {
        None => false,
        Some(kind) => is_int_kind(kind),
    }
}

#[tactic(auto, using(crate::proofs::Plain::char_is))]
fn is_char(ctype: &CType) -> bool
    ensures { result ≡ checks.is_char ctype.now }
{
    match plain_kind(ctype) {
        None => false,
        Some(kind) => is_char_kind(kind),
    }
}

fn is_char_pointer(alloc: Global, ctype: &CType) -> Result<bool, AllocError>
    ensures { IfOk result (λ b. b ≡ checks.is_char_pointer ctype.now) }
{
    match ctype.target(alloc)? {
        None => Ok(false),
        Some(target) => Ok(is_char(&target)),
    }
}

fn is_strings(alloc: Global, ctype: &CType) -> Result<bool, AllocError>
    ensures { IfOk result (λ b. b ≡ checks.is_strings ctype.now) }
{
    match ctype.target(alloc)? {
        None => Ok(false),
        Some(target) => is_char_pointer(alloc, &target),
    }
}

fn are_two(alloc: Global, first: &CType, rest: &[CType]) -> Result<bool, AllocError>
    ensures { IfOk result (λ b. b ≡ checks.are_main_parameters (first.now ∷ rest.now)) }
{
    match rest.split_first() {
        None => Ok(false),
        Some((second, more)) => {
            if more.is_empty() && is_int(first) {
                is_strings(alloc, second)
            } else {
                Ok(false)
            }
        }
    }
}

fn are_main_parameters(alloc: Global, parameters: &[CType]) -> Result<bool, AllocError>
    ensures { IfOk result (λ b. b ≡ checks.are_main_parameters parameters.now) }
{
    match parameters.split_first() {
        None => Ok(true),
        Some((first, rest)) => are_two(alloc, first, rest),
    }
}

fn is_main_prototype(prototype: Prototype) -> bool
    ensures { result ≡ checks.is_main_prototype prototype }
{
    match prototype {
        Prototype::Fixed => true,
        Prototype::EmptyDefinition => true,
        Prototype::Unspecified => true,
        Prototype::Variadic => false,
    }
}

fn is_main_signature(alloc: Global, tables: &Tables, number: u32) -> Result<bool, AllocError>
    ensures { IfOk result (λ b. b ≡ checks.is_main_signature (slice_get tables.now.signatures number)) }
{
    match tables.signatures.get(number as usize) {
        None => Ok(false),
        Some(signature) => {
            if is_main_prototype(signature.prototype) {
                are_main_parameters(alloc, signature.parameters.as_slice())
            } else {
                Ok(false)
            }
        }
    }
}

fn returns_int(alloc: Global, ctype: &CType) -> Result<bool, AllocError>
    ensures { IfOk result (λ b. b ≡ checks.is_int (plain_result (returned_of ctype.now))) }
{
    match ctype.returned(alloc)? {
        None => Ok(false),
        Some(returned) => Ok(is_int(&returned)),
    }
}

fn is_main_from(
    alloc: Global,
    tables: &Tables,
    derivations: &[Derivation],
) -> Result<bool, AllocError>
    ensures { IfOk result (λ b. b ≡ checks.is_main_from tables.now derivations.now) }
{
    match derivations.first() {
        Some(Derivation::Function(number)) => is_main_signature(alloc, tables, *number),
        Some(Derivation::Pointer(_)) => Ok(false),
        Some(Derivation::Array(_)) => Ok(false),
        None => Ok(false),
    }
}

fn is_main_type(alloc: Global, tables: &Tables, ctype: &CType) -> Result<bool, AllocError>
    ensures { IfOk result (λ b. b ≡ checks.is_main_type tables.now ctype.now) }
{
    if returns_int(alloc, ctype)? {
        is_main_from(alloc, tables, ctype.derivations.as_slice())
    } else {
        Ok(false)
    }
}

/// Whether what `main` means, by the tables of its definition, is a function that a program may begin with (C99
/// 5.1.2.2.1p1). It fails for want of memory alone.
pub fn is_main(alloc: Global, tables: &Tables, means: &Means) -> Result<bool, AllocError>
    ensures { IfOk result (λ b. b ≡ checks.is_main_means tables.now means.now) }
{
    match means {
        Means::Function { ctype, .. } => is_main_type(alloc, tables, ctype.get()),
        Means::Object { .. } => Ok(false),
        Means::Typedef { .. } => Ok(false),
        Means::Constant { .. } => Ok(false),
        Means::Faulty => Ok(false),
    }
}
