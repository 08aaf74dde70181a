//! Calls (C99 6.5.2.2).
ghost use Rattle.std.specs.Prelude.{◌≡◌, List, Some, None, IfOk};
ghost use Rattle.elaborate.specs.Means.{Numbering};
ghost use Rattle.c_means.specs.Expressions as form;
ghost use Rattle.c_means.specs.Parts.{Part};
ghost use Rattle.core_exprs.specs.Found.{IsCallAt, IsFoundOf};
ghost use Rattle.core_exprs.specs.Passing.{ArePassed, all_converted, types_passed};

use crate::arguments::{Passing, parameters_of, put_converted, put_types, type_again};
use crate::callees::Callees;
use crate::found::{Found, plain};
use crate::site::Site;
use c_language::{CType, Entry, Shown, Told};
use c_type_scope::Scope;
use c_typing::{Arguments, call as call_told};
use core_forms::{Built, Call, Node, left, type_as};
use core_tree::Expr;
use plain_data::{Bytes, Items, Shared};
use std::alloc::{AllocError, Global};

/// The declaration of the name that is called: a call of what is no name breaks a rule (C99 6.5.2.2p1). It fails for
/// want of memory alone.
fn designated(shown: &Shown) -> Result<Option<Shared<Entry>>, AllocError>
    ensures { IfOk result (λ e. e ≡ shown.now.designates) }
{
    match &shown.designates {
        Some(entry) => Ok(Some(entry.clone()?)),
        None => Ok(None),
    }
}

/// The types to which arguments are converted. It fails for want of memory alone.
fn passed_types(
    alloc: Global,
    scope: &Scope,
    function: &CType,
    types: &Items<Option<CType>>,
) -> Result<Items<Option<CType>>, AllocError>
    ensures { IfOk result (λ ts. ts ≡ types_passed types.now (form.parameters_from scope.now.tables function.now.derivations)) }
{
    let mut all = Items::new(alloc);
    let parameters = parameters_of(scope.tables(), function);
    put_types(alloc, &mut all, types.as_slice(), parameters)?;
    Ok(all)
}

/// Arguments, converted. It fails for want of memory alone.
fn passed_values(
    alloc: Global,
    scope: &Scope,
    types: &Items<Option<CType>>,
    values: &Items<Shared<Expr>>,
) -> Result<Items<Shared<Expr>>, AllocError>
    ensures { IfOk result (λ es. es ≡ all_converted scope.now.tables types.now values.now) }
{
    let mut all = Items::new(alloc);
    let tables = scope.tables();
    put_converted(alloc, tables, &mut all, types.as_slice(), values.as_slice())?;
    Ok(all)
}

/// The bytes of what an identity function hands on, where it is a string literal. It fails for want of memory alone.
fn handed_on<C: Callees>(
    alloc: Global,
    callees: &C,
    site: &Site,
) -> Result<Option<Bytes>, AllocError>
    ensures { IfOk result (λ t. t ≡ form.text_at ((C.numbering callees.now).identity site.now.callee.name) site.now.texts) }
{
    match callees.identity(&site.callee.get().name) {
        Some(index) => match site.texts.get(index as usize) {
            Some(Some(bytes)) => Ok(Some(Bytes::from_slice(alloc, bytes.as_slice())?)),
            Some(None) => Ok(None),
            None => Ok(None),
        },
        None => Ok(None),
    }
}

/// A call of what is told of it, at a site, with its arguments as they are converted.
fn call_at<C: Callees>(
    alloc: Global,
    callees: &C,
    scope: &Scope,
    told: Told,
    site: Site,
    arguments: Items<Shared<Expr>>,
) -> Result<Found, AllocError>
    ensures { IfOk result (λ x. IsCallAt (C.numbering callees.now) scope.now told site arguments x) }
{
    let callee = callees.callee(alloc, &site, scope)?;
    let answer = type_as(scope.tables(), &site.ctype);
    let text = handed_on(alloc, callees, &site)?;
    let call = Call {
        at: site.at,
        arguments,
        callee,
        answer,
    };
    let built = Built {
        told,
        rooted: false,
        node: Node::Call(call),
    };
    Ok(Found { built, text })
}

/// A call of what is no name, behind its arguments: it breaks a rule, and isn't run. It fails for want of memory alone.
fn uncalled(
    alloc: Global,
    scope: &Scope,
    at: u32,
    name: u32,
    shown: Option<Shown>,
    xs: Passing,
) -> Result<Found, AllocError>
    ensures { (n : Numbering) (f : Part) (ps : List Part) → f.typed.at ≡ name → f.typed.shown ≡ shown → form.designated shown ≡ None → ArePassed n f.typed.faults ps xs →
        IfOk result (λ x. IsFoundOf n x (form.call at f ps scope.now) scope.now) }
{
    let Passing { arguments, .. } = xs;
    let told = call_told(alloc, scope, at, name, shown, arguments)?;
    let built = left(alloc, told)?;
    Ok(plain(built))
}

/// A call of the function of this declaration, by its name. It fails for want of memory alone.
fn called<C: Callees>(
    alloc: Global,
    callees: &C,
    scope: &Scope,
    at: u32,
    name: u32,
    function: Shown,
    callee: Shared<Entry>,
    xs: Passing,
) -> Result<Found, AllocError>
    ensures { (f : Part) (ps : List Part) → f.typed.at ≡ name → f.typed.shown ≡ Some function → function.designates ≡ Some callee → ArePassed (C.numbering callees.now) f.typed.faults ps xs →
        IfOk result (λ x. IsFoundOf (C.numbering callees.now) x (form.call at f ps scope.now) scope.now) }
{
    let Passing {
        arguments,
        types,
        texts,
        values,
    } = xs;
    let types = passed_types(alloc, scope, &function.ctype, &types)?;
    let values = passed_values(alloc, scope, &types, &values)?;
    let told = call_told(alloc, scope, at, name, Some(function), arguments)?;
    let ctype = type_again(alloc, &told)?;
    let site = Site {
        at: name,
        callee,
        ctype,
        types,
        texts,
    };
    call_at(alloc, callees, scope, told, site, values)
}

/// A call of what shows this, behind its arguments. It fails for want of memory alone.
fn call_of<C: Callees>(
    alloc: Global,
    callees: &C,
    scope: &Scope,
    at: u32,
    name: u32,
    function: Shown,
    xs: Passing,
) -> Result<Found, AllocError>
    ensures { (f : Part) (ps : List Part) → f.typed.at ≡ name → f.typed.shown ≡ Some function → ArePassed (C.numbering callees.now) f.typed.faults ps xs →
        IfOk result (λ x. IsFoundOf (C.numbering callees.now) x (form.call at f ps scope.now) scope.now) }
{
    match designated(&function)? {
        Some(callee) => called(alloc, callees, scope, at, name, function, callee, xs),
        None => uncalled(alloc, scope, at, name, Some(function), xs),
    }
}

/// A call of what stands at `name`, behind its arguments, in the names in force behind them. It fails for want of
/// memory alone.
pub(crate) fn call<C: Callees>(
    alloc: Global,
    callees: &C,
    scope: &Scope,
    at: u32,
    name: u32,
    shown: Option<Shown>,
    xs: Passing,
) -> Result<Found, AllocError>
    ensures { (f : Part) (ps : List Part) → f.typed.at ≡ name → f.typed.shown ≡ shown → ArePassed (C.numbering callees.now) f.typed.faults ps xs →
        IfOk result (λ x. IsFoundOf (C.numbering callees.now) x (form.call at f ps scope.now) scope.now) }
{
    match shown {
        Some(function) => call_of(alloc, callees, scope, at, name, function, xs),
        None => uncalled(alloc, scope, at, name, None, xs),
    }
}
