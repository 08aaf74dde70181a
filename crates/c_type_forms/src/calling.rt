//! Calls (C99 6.5.2.2).
ghost use Rattle.std.specs.Prelude.{◌≡◌, ◌++◌, slice_get, IfOk};
ghost use Rattle.c_language.specs.Types as types;
ghost use Rattle.c_language.specs.Typing as spec;

use crate::told::{joined, typeless};
use crate::turning::is_function;
use crate::values::some_value;
use c_language::{
    Argument, CType, Called, Class, Derivation, Fault, Prototype, Qualifiers, Rule, Shown, Tables,
    Told,
};
use plain_data::Items;
use std::alloc::{AllocError, Global};

/// One broken rule. It fails for want of memory alone.
pub fn one_fault(alloc: Global, at: u32, rule: Rule) -> Result<Items<Fault>, AllocError>
    ensures { IfOk result (λ faults. faults ≡ spec.fault_at at rule) }
{
    let mut faults = Items::new(alloc);
    faults.push(Fault { at, rule })?;
    Ok(faults)
}

fn structure_given(number: u32, to: Class) -> Rule
    ensures { result ≡ spec.structure_given number to }
{
    match to {
        Class::Aggregate(other) if other == number => Rule::StructByValue,
        _ => Rule::TypeMismatch,
    }
}

fn argument_fault(
    alloc: Global,
    callee: u32,
    at: u32,
    from: Class,
    to: Class,
) -> Result<Items<Fault>, AllocError>
    ensures { IfOk result (λ faults. faults ≡ spec.argument_fault callee at from to) }
{
    match (from, to) {
        (Class::Aggregate(number), _) => one_fault(alloc, callee, structure_given(number, to)),
        (Class::Void, _) => one_fault(alloc, callee, Rule::TypeMismatch),
        (_, Class::Floating) => one_fault(alloc, at, Rule::FloatUsed),
        (_, Class::Integer(_)) => Ok(Items::new(alloc)),
        (_, Class::Pointer) => Ok(Items::new(alloc)),
        _ => one_fault(alloc, callee, Rule::TypeMismatch),
    }
}

fn loose_fault(alloc: Global, callee: u32, from: Class) -> Result<Items<Fault>, AllocError>
    ensures { IfOk result (λ faults. faults ≡ spec.loose_fault callee from) }
{
    match from {
        Class::Aggregate(_) => one_fault(alloc, callee, Rule::StructByValue),
        Class::Void => one_fault(alloc, callee, Rule::TypeMismatch),
        Class::Integer(_) => Ok(Items::new(alloc)),
        Class::Floating => Ok(Items::new(alloc)),
        Class::Pointer => Ok(Items::new(alloc)),
        Class::Array => Ok(Items::new(alloc)),
        Class::Function => Ok(Items::new(alloc)),
        Class::Opaque => Ok(Items::new(alloc)),
    }
}

fn result_faults(alloc: Global, callee: u32, class: Class) -> Result<Items<Fault>, AllocError>
    ensures { IfOk result (λ faults. faults ≡ spec.result_faults callee class) }
{
    match class {
        Class::Aggregate(_) => one_fault(alloc, callee, Rule::StructByValue),
        Class::Floating => one_fault(alloc, callee, Rule::FloatUsed),
        Class::Opaque => one_fault(alloc, callee, Rule::StructByValue),
        Class::Void => Ok(Items::new(alloc)),
        Class::Integer(_) => Ok(Items::new(alloc)),
        Class::Pointer => Ok(Items::new(alloc)),
        Class::Array => Ok(Items::new(alloc)),
        Class::Function => Ok(Items::new(alloc)),
    }
}

fn loose_faults(
    alloc: Global,
    callee: u32,
    arguments: &[Argument],
) -> Result<Items<Fault>, AllocError>
    ensures { IfOk result (λ faults. faults ≡ spec.loose_faults callee arguments.now) }
{
    match arguments.split_first() {
        Some((first, rest)) => {
            let faults = loose_fault(alloc, callee, first.class)?;
            joined(faults, loose_faults(alloc, callee, rest)?)
        }
        None => Ok(Items::new(alloc)),
    }
}

fn surplus_faults(
    alloc: Global,
    callee: u32,
    prototype: Prototype,
    arguments: &[Argument],
) -> Result<Items<Fault>, AllocError>
    ensures { IfOk result (λ faults. faults ≡ spec.surplus_faults callee prototype arguments.now) }
{
    match (arguments.split_first(), prototype) {
        (None, _) => Ok(Items::new(alloc)),
        (Some(_), Prototype::Fixed) => one_fault(alloc, callee, Rule::TypeMismatch),
        (Some(_), Prototype::Variadic) => loose_faults(alloc, callee, arguments),
        (Some(_), Prototype::Unspecified) => loose_faults(alloc, callee, arguments),
        (Some(_), Prototype::EmptyDefinition) => loose_faults(alloc, callee, arguments),
    }
}

fn argument_faults(
    alloc: Global,
    callee: u32,
    prototype: Prototype,
    parameters: &[CType],
    arguments: &[Argument],
) -> Result<Items<Fault>, AllocError>
    ensures { IfOk result (λ faults. faults ≡ spec.argument_faults callee prototype parameters.now arguments.now) }
{
    match (parameters.split_first(), arguments.split_first()) {
        (None, _) => surplus_faults(alloc, callee, prototype, arguments),
        (Some(_), None) => one_fault(alloc, callee, Rule::TypeMismatch),
        (Some((parameter, parameters)), Some((first, rest))) => {
            let faults = argument_fault(alloc, callee, first.at, first.class, parameter.class())?;
            joined(
                faults,
                argument_faults(alloc, callee, prototype, parameters, rest)?,
            )
        }
    }
}

fn signature_faults(
    alloc: Global,
    callee: u32,
    tables: &Tables,
    number: u32,
    arguments: &[Argument],
) -> Result<Items<Fault>, AllocError>
    ensures { IfOk result (λ faults. faults ≡ spec.signature_faults callee (slice_get tables.now.signatures number) arguments.now) }
{
    match tables.signatures.get(number as usize) {
        Some(signature) => argument_faults(
            alloc,
            callee,
            signature.prototype,
            signature.parameters.as_slice(),
            arguments,
        ),
        None => Ok(Items::new(alloc)),
    }
}

fn broken(alloc: Global, at: u32, rule: Rule) -> Result<Called, AllocError>
    ensures { IfOk result (λ c. c ≡ spec.broken at rule) }
{
    Ok(Called {
        ctype: None,
        faults: one_fault(alloc, at, rule)?,
    })
}

fn called_with(faults: Items<Fault>, ctype: CType) -> Called
    ensures { result ≡ spec.called_with faults ctype }
{
    let returned = match faults.as_slice().first() {
        Some(_) => None,
        None => Some(ctype.requalified(Qualifiers::NONE)),
    };
    Called {
        ctype: returned,
        faults,
    }
}

fn called_by_signature(
    alloc: Global,
    tables: &Tables,
    callee: u32,
    number: u32,
    returned: CType,
    arguments: &[Argument],
) -> Result<Called, AllocError>
    ensures { IfOk result (λ c. c ≡ spec.called_with (spec.signature_faults callee (slice_get tables.now.signatures number) arguments.now ++ spec.result_faults callee (types.class_of returned)) returned) }
{
    let first = signature_faults(alloc, callee, tables, number, arguments)?;
    let second = result_faults(alloc, callee, returned.class())?;
    Ok(called_with(joined(first, second)?, returned))
}

fn called_directly(
    alloc: Global,
    tables: &Tables,
    callee: u32,
    ctype: &CType,
    arguments: &[Argument],
) -> Result<Called, AllocError>
    ensures { IfOk result (λ c. c ≡ spec.called_directly tables.now callee ctype.now.derivations (types.returned_of ctype.now) arguments.now) }
{
    let returned = ctype.returned(alloc)?;
    match (ctype.derivations.as_slice().split_first(), returned) {
        (Some((Derivation::Function(number), _)), Some(returned)) => {
            called_by_signature(alloc, tables, callee, *number, returned, arguments)
        }
        _ => broken(alloc, callee, Rule::TypeMismatch),
    }
}

/// A call of a function through a pointer.
fn called_through(
    alloc: Global,
    tables: &Tables,
    place: u32,
    function: &CType,
    arguments: &[Argument],
) -> Result<Called, AllocError>
    ensures { IfOk result (λ c. c ≡ spec.called_through tables.now place function.now arguments.now) }
{
    let called = called_directly(alloc, tables, place, function, arguments)?;
    let indirect = one_fault(alloc, place, Rule::IndirectCall)?;
    Ok(Called {
        ctype: None,
        faults: joined(called.faults, indirect)?,
    })
}

/// A call of what a value points to.
fn called_by_value(
    alloc: Global,
    tables: &Tables,
    place: u32,
    target: Option<CType>,
    arguments: &[Argument],
) -> Result<Called, AllocError>
    ensures { IfOk result (λ c. c ≡ spec.called_by_value tables.now place target arguments.now) }
{
    match target {
        Some(target) if is_function(&target) => {
            called_through(alloc, tables, place, &target, arguments)
        }
        _ => broken(alloc, place, Rule::TypeMismatch),
    }
}

fn called_as(
    alloc: Global,
    tables: &Tables,
    at: u32,
    callee: u32,
    f: &Shown,
    arguments: &[Argument],
) -> Result<Called, AllocError>
    ensures { IfOk result (λ c. c ≡ spec.called_as tables.now at callee (spec.is_named f.now.designates) (types.is_function f.now.ctype) f.now.ctype arguments.now) }
{
    let is_named = f.designates.is_some();
    match (is_named, is_function(&f.ctype)) {
        (true, true) => called_directly(alloc, tables, callee, &f.ctype, arguments),
        (false, true) => called_through(alloc, tables, at, &f.ctype, arguments),
        (_, false) => {
            let place = if is_named { callee } else { at };
            let target = f.ctype.target(alloc)?;
            called_by_value(alloc, tables, place, target, arguments)
        }
    }
}

fn called_shown(ctype: Option<CType>) -> Option<Shown>
    ensures { result ≡ spec.called_shown ctype }
{
    match ctype {
        Some(ctype) => Some(some_value(ctype)),
        None => None,
    }
}

fn call_of(at: u32, faults: Items<Fault>, called: Called) -> Result<Told, AllocError>
    ensures { IfOk result (λ x. x ≡ spec.call_of at faults called) }
{
    let Called {
        ctype,
        faults: more,
    } = called;
    Ok(Told {
        at,
        shown: called_shown(ctype),
        faults: joined(faults, more)?,
    })
}

/// A call of what stands at `callee`. It fails for want of memory alone.
pub fn call(
    alloc: Global,
    tables: &Tables,
    at: u32,
    callee: u32,
    f: Option<Shown>,
    arguments: Option<Items<Argument>>,
    faults: Items<Fault>,
) -> Result<Told, AllocError>
    ensures { IfOk result (λ x. x ≡ spec.call_over tables.now at callee f arguments faults) }
{
    match (f, arguments) {
        (Some(f), Some(arguments)) => {
            let called = called_as(alloc, tables, at, callee, &f, arguments.as_slice())?;
            call_of(at, faults, called)
        }
        _ => Ok(typeless(at, faults)),
    }
}
