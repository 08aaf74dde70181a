//! What an expression initialises as a whole (C99 6.7.8p11 to p14), and the rules that it breaks.

ghost use Rattle.std.specs.Prelude.{◌≡◌, ◌++◌, IfOk};
ghost use Rattle.c_language.specs.Scopes as scopes;
ghost use Rattle.c_language.specs.Typing.{type_in, typed_in};
ghost use Rattle.c_language.specs.Initials as spec;

use c_language::{CType, Derivation, Fault, Rule, Shown, Told};
use c_type_forms::{is_array, is_assignable, is_floating, joined, one_fault, same_aggregate, used};
use c_type_scope::Scope;
use plain_data::Items;
use std::alloc::{AllocError, Global};

fn is_byte_type(ctype: &Option<CType>) -> bool
    ensures { result ≡ spec.is_byte_type ctype.now }
{
    match ctype {
        None => false,
        Some(ctype) => match ctype.kind() {
            None => false,
            Some(kind) => kind.bytes() == 1,
        },
    }
}

fn is_literal(shown: &Option<Shown>) -> bool
    ensures { result ≡ spec.is_literal_in shown.now }
{
    match shown {
        None => false,
        Some(shown) => shown.is_literal,
    }
}

/// Whether a string literal initialises a whole array of characters (C99 6.7.8p14). It fails for want of memory alone.
pub(crate) fn is_text_of(alloc: Global, ctype: &CType, told: &Told) -> Result<bool, AllocError>
    ensures { IfOk result (λ b. b ≡ spec.is_text_of ctype.now (typed_in told.now scopes.empty)) }
{
    if is_literal(&told.shown) {
        let element = ctype.element(alloc)?;
        Ok(is_byte_type(&element))
    } else {
        Ok(false)
    }
}

fn is_same(ctype: &CType, shown: &Option<Shown>) -> bool
    ensures { result ≡ spec.same_in ctype.now (type_in shown.now) }
{
    match shown {
        None => false,
        Some(shown) => same_aggregate(ctype.aggregate(), shown.ctype.aggregate()),
    }
}

/// Whether an expression of its structure or union type, or a literal, initialises a whole object (C99 6.7.8p13, p14).
/// It fails for want of memory alone.
pub(crate) fn is_whole_of(alloc: Global, ctype: &CType, told: &Told) -> Result<bool, AllocError>
    ensures { IfOk result (λ b. b ≡ spec.is_whole_of ctype.now (typed_in told.now scopes.empty)) }
{
    let is_text = is_text_of(alloc, ctype, told)?;
    Ok(is_text || is_same(ctype, &told.shown))
}

/// Whether an object has no parts.
pub(crate) fn is_scalar_part(ctype: &CType) -> bool
    ensures { result ≡ spec.is_scalar_part ctype.now }
{
    if is_array(ctype) {
        return false;
    }
    match ctype.aggregate() {
        None => true,
        Some(_) => false,
    }
}

/// The length of an array type, else 0.
pub(crate) fn length_of(shown: &Option<Shown>) -> u64
    ensures { result ≡ spec.length_of_type (type_in shown.now) }
{
    match shown {
        None => 0,
        Some(shown) => match shown.ctype.derivations.as_slice().split_first() {
            Some((Derivation::Array(Some(length)), _)) => *length,
            _ => 0,
        },
    }
}

/// Whether a literal of so many bytes has room: the zero behind it needs none (C99 6.7.8p14).
fn text_fits(derivations: &[Derivation], bytes: u64) -> bool
    ensures { result ≡ spec.text_fits derivations.now bytes }
{
    match derivations.split_first() {
        Some((Derivation::Array(Some(length)), _)) => bytes <= length.saturating_add(1),
        _ => true,
    }
}

fn text_faults(alloc: Global, ctype: &CType, told: &Told) -> Result<Items<Fault>, AllocError>
    ensures { IfOk result (λ faults. faults ≡ spec.text_faults ctype.now (typed_in told.now scopes.empty)) }
{
    if text_fits(ctype.derivations.as_slice(), length_of(&told.shown)) {
        Ok(Items::new(alloc))
    } else {
        one_fault(alloc, told.at, Rule::TypeMismatch)
    }
}

fn value_faults_as(
    alloc: Global,
    ctype: &CType,
    at: u32,
    shown: &Option<Shown>,
) -> Result<Items<Fault>, AllocError>
    ensures { IfOk result (λ faults. faults ≡ spec.value_faults_as ctype.now at (type_in shown.now)) }
{
    match shown {
        None => Ok(Items::new(alloc)),
        Some(shown) => {
            if is_floating(ctype) {
                one_fault(alloc, at, Rule::FloatUsed)
            } else if is_assignable(ctype, &shown.ctype) {
                Ok(Items::new(alloc))
            } else {
                one_fault(alloc, at, Rule::TypeMismatch)
            }
        }
    }
}

fn value_faults(
    alloc: Global,
    scope: &Scope,
    ctype: &CType,
    told: Told,
) -> Result<Items<Fault>, AllocError>
    ensures { IfOk result (λ faults. faults ≡ spec.value_faults ctype.now (typed_in told scope.now)) }
{
    let at = told.at;
    let told = used(alloc, scope.tables(), told)?;
    let more = value_faults_as(alloc, ctype, at, &told.shown)?;
    joined(told.faults, more)
}

/// The rules that an expression breaks where it initialises an object of the type, its own among them: a value is
/// converted as in an assignment (C99 6.7.8p11). It fails for want of memory alone.
pub(crate) fn part_faults(
    alloc: Global,
    scope: &Scope,
    ctype: &CType,
    told: Told,
) -> Result<Items<Fault>, AllocError>
    ensures { IfOk result (λ faults. faults ≡ spec.part_faults ctype.now (typed_in told scope.now)) }
{
    if is_text_of(alloc, ctype, &told)? {
        let more = text_faults(alloc, ctype, &told)?;
        joined(told.faults, more)
    } else {
        value_faults(alloc, scope, ctype, told)
    }
}
