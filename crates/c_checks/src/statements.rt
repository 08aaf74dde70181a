//! The rules of statements over what their expressions say (C99 6.8.1, 6.8.4 to 6.8.6).

ghost use Rattle.std.specs.Prelude.{◌≡◌, Bool, IfOk};
ghost use Rattle.c_language.specs.Typing as typing;
ghost use Rattle.c_means.specs.Items as items;
ghost use Rattle.c_means.specs.Statements as statements;
ghost use Rattle.c_means.specs.declared.breach.BrokenRule.TheVariants as broken;
ghost use Rattle.c_checks.specs.Refusals.{least_of};
ghost use Rattle.c_checks.specs.Rules as spec;

use crate::order::{least_fault, lesser};
use c_language::{CType, IntegerKind, LayoutRule, Rule, Shown, Told};
use c_means::{Breach, BrokenRule};
use c_type_forms::{is_assignable, is_floating, is_void, used};
use c_type_scope::Scope;
use std::alloc::{AllocError, Global};

/// A jump, a label or a case that may not stand where it does.
pub fn misplaced_if(wrong: bool, at: u32) -> Option<Breach>
    ensures { result ≡ least_of (items.breach_if wrong at broken.BadGoto) }
{
    if wrong {
        Some(Breach {
            at,
            rule: BrokenRule::BadGoto,
        })
    } else {
        None
    }
}

pub(crate) fn mismatch_if(wrong: bool, at: u32) -> Option<Breach>
    ensures { result ≡ least_of (items.breach_if wrong at spec.mismatch) }
{
    if wrong {
        Some(Breach {
            at,
            rule: BrokenRule::Typing(Rule::TypeMismatch),
        })
    } else {
        None
    }
}

// ---- conditions

fn condition_fault(at: u32, shown: &Option<Shown>) -> Option<Breach>
    ensures { result ≡ least_of (items.typing (typing.condition_faults_of at shown.now)) }
{
    match shown {
        None => None,
        Some(shown) => {
            if shown.ctype.class().is_scalar() {
                None
            } else {
                mismatch_if(true, at)
            }
        }
    }
}

/// What a condition breaks, which is a scalar (C99 6.8.4.1p1, 6.8.5p2), by the offset of its statement's keyword. It
/// fails for want of memory alone.
#[tactic(auto, using(crate::proofs::Least::of_faults))]
pub fn condition(
    alloc: Global,
    scope: &Scope,
    at: u32,
    told: Told,
) -> Result<Option<Breach>, AllocError>
    ensures { IfOk result (λ b. b ≡ least_of (spec.condition_breaches at (typing.typed_in told scope.now))) }
{
    let told = used(alloc, scope.tables(), told)?;
    let inside = least_fault(told.faults.as_slice());
    Ok(lesser(inside, condition_fault(at, &told.shown)))
}

// ---- `switch`

/// What is said of the value of a `switch`: the refusal of what it breaks, and the type in which the cases are
/// compared.
#[derive(Drop)]
pub struct SwitchSaid {
    pub breach: Option<Breach>,
    pub kind: IntegerKind,
}

fn integer_fault(at: u32, shown: &Option<Shown>) -> Option<Breach>
    ensures { result ≡ least_of (statements.integer_fault at (typing.type_in shown.now)) }
{
    match shown {
        None => None,
        Some(shown) => mismatch_if(!shown.ctype.class().is_integer(), at),
    }
}

fn compared_in(shown: &Option<Shown>) -> IntegerKind
    ensures { result ≡ spec.kind_of_value (typing.type_in shown.now) }
{
    match shown {
        None => IntegerKind::Int,
        Some(shown) => match shown.ctype.kind() {
            None => IntegerKind::Int,
            Some(kind) => kind.promoted(),
        },
    }
}

/// What the value of a `switch` says (C99 6.8.4.2p1, p5), by the offset of the keyword. It fails for want of memory
/// alone.
#[tactic(auto, using(crate::proofs::Least::of_both))]
pub fn switch_value(
    alloc: Global,
    scope: &Scope,
    at: u32,
    told: Told,
) -> Result<SwitchSaid, AllocError>
    ensures breach { IfOk result (λ x. x.breach ≡ least_of (spec.switch_breaches at (typing.typed_in told scope.now))) }
    ensures kind { IfOk result (λ x. x.kind ≡ spec.switch_kind (typing.typed_in told scope.now)) }
{
    let told = used(alloc, scope.tables(), told)?;
    let inside = least_fault(told.faults.as_slice());
    Ok(SwitchSaid {
        breach: lesser(inside, integer_fault(at, &told.shown)),
        kind: compared_in(&told.shown),
    })
}

fn constant_fault(at: u32, shown: &Option<Shown>) -> Option<Breach>
    ensures { result ≡ least_of (items.typing (typing.not_constant_of at shown.now)) }
{
    match shown {
        None => None,
        Some(shown) => match shown.value {
            Some(_) => None,
            None => Some(Breach {
                at,
                rule: BrokenRule::Typing(Rule::Layout(LayoutRule::NotConstant)),
            }),
        },
    }
}

/// What `default` breaks, where a `switch` chooses in this type in whose block it stands (C99 6.8.1p2).
pub fn default_label(at: u32, chooses: Option<IntegerKind>) -> Option<Breach>
    ensures { result ≡ least_of (spec.default_breaches at chooses) }
{
    match chooses {
        None => misplaced_if(true, at),
        Some(_) => None,
    }
}

/// What a case breaks, whose value is constant (C99 6.8.1p2, 6.8.4.2p3), by the offset of the keyword.
#[tactic(auto, using(crate::proofs::Least::of_both, crate::proofs::Least::of_faults))]
pub fn case_label(at: u32, told: &Told, chooses: Option<IntegerKind>) -> Option<Breach>
    ensures { result ≡ least_of (spec.case_breaches at told.now chooses) }
{
    let inside = least_fault(told.faults.as_slice());
    let value = lesser(inside, constant_fault(told.at, &told.shown));
    lesser(value, default_label(at, chooses))
}

/// The value of a case, in the type in which its `switch` compares (C99 6.8.4.2p5).
pub fn case_value(chooses: Option<IntegerKind>, told: &Told) -> Option<i128>
    ensures { result ≡ statements.case_value chooses (typing.value_in told.now.shown) }
{
    let value = match &told.shown {
        None => None,
        Some(shown) => shown.value,
    };
    match chooses {
        None => value,
        Some(kind) => match value {
            None => None,
            Some(value) => Some(kind.convert(value)),
        },
    }
}

// ---- `return`

/// What `return` without an expression breaks (C99 6.8.6.4p1), in a function that returns this type.
pub fn bare_return(at: u32, result_: &Option<CType>) -> Option<Breach>
    ensures { result ≡ least_of (spec.bare_return_breaches at result_.now) }
{
    match result_ {
        None => None,
        Some(ctype) => mismatch_if(!is_void(ctype), at),
    }
}

fn return_rule(at: u32, to: &CType, from: &CType) -> Option<Breach>
    ensures { result ≡ least_of (statements.return_rule at to.now from.now) }
{
    if is_floating(to) {
        Some(Breach {
            at,
            rule: BrokenRule::Typing(Rule::FloatUsed),
        })
    } else {
        mismatch_if(is_void(to) || !is_assignable(to, from), at)
    }
}

fn return_fault(at: u32, to: &Option<CType>, shown: &Option<Shown>) -> Option<Breach>
    ensures { result ≡ least_of (statements.return_breaches at to.now (typing.type_in shown.now)) }
{
    match to {
        None => None,
        Some(to) => match shown {
            None => None,
            Some(shown) => return_rule(at, to, &shown.ctype),
        },
    }
}

/// What `return` with an expression breaks (C99 6.8.6.4p1, p3), in a function that returns this type. It fails for
/// want of memory alone.
#[tactic(auto, using(crate::proofs::Least::of_both))]
pub fn return_value(
    alloc: Global,
    scope: &Scope,
    at: u32,
    to: &Option<CType>,
    told: Told,
) -> Result<Option<Breach>, AllocError>
    ensures { IfOk result (λ b. b ≡ least_of (spec.return_value_breaches at to.now (typing.typed_in told scope.now))) }
{
    let told = used(alloc, scope.tables(), told)?;
    let inside = least_fault(told.faults.as_slice());
    Ok(lesser(inside, return_fault(at, to, &told.shown)))
}
