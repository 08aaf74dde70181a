//! Types made of the derivations that a declarator says (C99 6.7.5), and the rules that they may break.

ghost use Rattle.std.specs.Prelude.{◌≡◌, IfOk};
ghost use Rattle.c_language.specs.Types.{rest_of, is_function};
ghost use Rattle.c_language.specs.Layouts.{is_sized};
ghost use Rattle.c_language.specs.Compatible.{adjusted};
ghost use Rattle.c_language.specs.Declares as spec;

use c_language::{CType, Class, Derivation, LayoutRule, Qualifiers, Rule, Tables};
use plain_data::Items;
use std::alloc::{AllocError, Global};

/// The rule that a type without size breaks where one is wanted.
pub(crate) const INCOMPLETE: Rule = Rule::Layout(LayoutRule::Incomplete);

/// The rule that a type of too many bytes breaks.
pub(crate) const TOO_LARGE: Rule = Rule::Layout(LayoutRule::ObjectTooLarge);

/// The rule that an expression breaks that isn't constant, or is below 0 where it counts elements.
pub(crate) const NOT_CONSTANT: Rule = Rule::Layout(LayoutRule::NotConstant);

fn is_array_in(derivations: &[Derivation]) -> bool
    ensures { result ≡ spec.is_array_in derivations.now }
{
    match derivations.split_first() {
        Some((Derivation::Array(_), _)) => true,
        Some((Derivation::Pointer(_), _)) => false,
        Some((Derivation::Function(_), _)) => false,
        None => false,
    }
}

fn is_function_in(derivations: &[Derivation]) -> bool
    ensures { result ≡ spec.is_function_in derivations.now }
{
    match derivations.split_first() {
        Some((Derivation::Function(_), _)) => true,
        Some((Derivation::Pointer(_), _)) => false,
        Some((Derivation::Array(_), _)) => false,
        None => false,
    }
}

/// Whether there is an array of functions, or a function that returns an array or a function (C99 6.7.5.2p1, 6.7.5.3p1).
fn mismatched(derivations: &[Derivation]) -> bool
    ensures { result ≡ spec.mismatched derivations.now }
{
    match derivations.split_first() {
        None => false,
        Some((Derivation::Pointer(_), rest)) => mismatched(rest),
        Some((Derivation::Array(_), rest)) => is_function_in(rest) || mismatched(rest),
        Some((Derivation::Function(_), rest)) => {
            is_array_in(rest) || is_function_in(rest) || mismatched(rest)
        }
    }
}

/// What is left of a type without its outer derivations. It fails for want of memory alone.
fn without_outer(alloc: Global, ctype: &CType, rest: &[Derivation]) -> Result<CType, AllocError>
    ensures { IfOk result (λ t. t ≡ rest_of ctype.now rest.now) }
{
    Ok(CType {
        derivations: Items::from_slice(alloc, rest)?,
        base: ctype.base,
        qualifiers: ctype.qualifiers,
    })
}

/// Whether the size of the type is known.
pub(crate) fn has_size(tables: &Tables, ctype: &CType) -> bool
    ensures { result ≡ is_sized tables.now ctype.now }
{
    match tables.size_of(ctype) {
        Some(_) => true,
        None => false,
    }
}

/// Whether it is a function type.
pub(crate) fn is_function_type(ctype: &CType) -> bool
    ensures { result ≡ is_function ctype.now }
{
    matches!(ctype.class(), Class::Function)
}

/// Whether an element of an array has neither a size nor an opaque type. It fails for want of memory alone.
fn lacks_elements(
    alloc: Global,
    tables: &Tables,
    ctype: &CType,
    derivations: &[Derivation],
) -> Result<bool, AllocError>
    ensures { IfOk result (λ lacks. lacks ≡ spec.lacks_elements tables.now ctype.now derivations.now) }
{
    match derivations.split_first() {
        None => Ok(false),
        Some((Derivation::Pointer(_), rest)) => lacks_elements(alloc, tables, ctype, rest),
        Some((Derivation::Function(_), rest)) => lacks_elements(alloc, tables, ctype, rest),
        Some((Derivation::Array(_), rest)) => {
            let element = without_outer(alloc, ctype, rest)?;
            let is_element = has_size(tables, &element) || tables.is_opaque(&element);
            if is_element {
                lacks_elements(alloc, tables, ctype, rest)
            } else {
                Ok(true)
            }
        }
    }
}

/// A type, or the rule that it breaks as it is formed. It fails for want of memory alone.
fn formed_as(
    alloc: Global,
    tables: &Tables,
    ctype: CType,
) -> Result<Result<CType, Rule>, AllocError>
    ensures { IfOk result (λ t. t ≡ spec.or_rule ctype (spec.formed_rule tables.now ctype)) }
{
    if mismatched(ctype.derivations.as_slice()) {
        Ok(Err(Rule::TypeMismatch))
    } else if lacks_elements(alloc, tables, &ctype, ctype.derivations.as_slice())? {
        Ok(Err(INCOMPLETE))
    } else if tables.is_too_large(&ctype) {
        Ok(Err(TOO_LARGE))
    } else {
        Ok(Ok(ctype))
    }
}

/// A type where it is known, or the rule that it breaks. It fails for want of memory alone.
pub fn formed_type(
    alloc: Global,
    tables: &Tables,
    ctype: Option<CType>,
) -> Result<Option<Result<CType, Rule>>, AllocError>
    ensures { IfOk result (λ t. t ≡ spec.formed_type tables.now ctype) }
{
    match ctype {
        None => Ok(None),
        Some(ctype) => Ok(Some(formed_as(alloc, tables, ctype)?)),
    }
}

/// A parameter's type, or the rule that it breaks: of array or function type it is a pointer (C99 6.7.5.3p7, p8). It fails
/// for want of memory alone.
fn adjusted_as(
    alloc: Global,
    tables: &Tables,
    brackets: Qualifiers,
    ctype: CType,
) -> Result<Result<CType, Rule>, AllocError>
    ensures { IfOk result (λ t. t ≡ spec.or_rule (adjusted brackets ctype) (spec.adjusted_rule tables.now ctype (adjusted brackets ctype))) }
{
    if mismatched(ctype.derivations.as_slice()) {
        return Ok(Err(Rule::TypeMismatch));
    }
    if lacks_elements(alloc, tables, &ctype, ctype.derivations.as_slice())? {
        return Ok(Err(INCOMPLETE));
    }
    let adjusted = ctype.adjusted(alloc, brackets)?;
    if tables.is_too_large(&adjusted) {
        Ok(Err(TOO_LARGE))
    } else {
        Ok(Ok(adjusted))
    }
}

/// A parameter's type where it is known, or the rule that it breaks. It fails for want of memory alone.
pub(crate) fn adjusted_type(
    alloc: Global,
    tables: &Tables,
    brackets: Qualifiers,
    ctype: Option<CType>,
) -> Result<Option<Result<CType, Rule>>, AllocError>
    ensures { IfOk result (λ t. t ≡ spec.adjusted_type tables.now brackets ctype) }
{
    match ctype {
        None => Ok(None),
        Some(ctype) => Ok(Some(adjusted_as(alloc, tables, brackets, ctype)?)),
    }
}

/// The derivations in front of a type's own, where both are known. It fails for want of memory alone.
pub fn derived_from(
    derivations: Option<Items<Derivation>>,
    ctype: &Option<CType>,
) -> Result<Option<CType>, AllocError>
    ensures { IfOk result (λ t. t ≡ spec.derived_from derivations ctype.now) }
{
    match (derivations, ctype) {
        (Some(derivations), Some(ctype)) => {
            let mut derivations = derivations;
            derivations.extend_from_slice(ctype.derivations.as_slice())?;
            Ok(Some(CType {
                derivations,
                base: ctype.base,
                qualifiers: ctype.qualifiers,
            }))
        }
        _ => Ok(None),
    }
}
