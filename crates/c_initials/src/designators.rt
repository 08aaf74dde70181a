//! Designators (C99 6.7.8p6, p7, p17, p18).

ghost use Rattle.std.specs.Prelude.{◌≡◌, [], map, IfOk};
ghost use Rattle.c_language.specs.declared.expr.Expr.{Expr};
ghost use Rattle.c_language.specs.Scopes as scopes;
ghost use Rattle.c_language.specs.Typing as typing;
ghost use Rattle.c_language.specs.Initials as spec;
ghost use Rattle.c_language.specs.Trees as trees;
ghost use Rattle.c_language.specs.Units as units;
ghost use Rattle.c_initials.specs.Filled.{filling_in, below, element_in, value_next};

use crate::filling::Filling;
use crate::frames::{Frame, Frames};
use crate::parts::{part_at, sized_members};
use c_language::{
    CType, Derivation, Designator, Fault, LayoutRule, Member, Name, Rule, Shown, Told,
};
use c_type_forms::one_fault;
use c_type_scope::Scope;
use c_typing::typed;
use plain_data::Items;
use std::alloc::{AllocError, Global};

/// The number of the first member of a name, from 0.
fn number_among(members: &[Member], name: &Name) -> Option<u64>
    ensures { result ≡ spec.member_number 0 name.now members.now }
{
    for (i, member) in members.iter().enumerate() {
        if member.name.get().as_slice() == name.get().as_slice() {
            return Some(i as u64);
        }
    }
    None
}

/// A designator that names nothing. It fails for want of memory alone.
fn names_nothing(alloc: Global, at: u32, filling: Filling) -> Result<Filling, AllocError>
    ensures { (scope : scopes.Scope) → IfOk result (λ z. filling_in z scope ≡ spec.names_nothing at (filling_in filling scope)) }
{
    let mut filling = filling;
    filling.frames = Frames::new(alloc);
    filling.faults.push(Fault {
        at,
        rule: Rule::TypeMismatch,
    })?;
    Ok(filling)
}

/// The part of a number of the innermost frame is next. It fails for want of memory alone.
fn at_number(
    alloc: Global,
    at: u32,
    number: Option<u64>,
    filling: Filling,
) -> Result<Filling, AllocError>
    ensures { (scope : scopes.Scope) → IfOk result (λ z. filling_in z scope ≡ spec.at_number at number filling.frames (filling_in filling scope)) }
{
    match number {
        None => names_nothing(alloc, at, filling),
        Some(next) => {
            let mut filling = filling;
            match filling.frames.pop() {
                None => names_nothing(alloc, at, filling),
                Some(frame) => filling.within(Frame {
                    whole: frame.whole,
                    next,
                }),
            }
        }
    }
}

fn to_member(
    alloc: Global,
    scope: &Scope,
    at: u32,
    name: &Name,
    filling: Filling,
) -> Result<Filling, AllocError>
    ensures { IfOk result (λ z. filling_in z scope.now ≡ spec.to_member at name.now filling.frames (filling_in filling scope.now)) }
{
    match filling.frames.innermost() {
        None => Ok(filling),
        Some(frame) => {
            let members = scope.tables().members_of(frame.whole.get().ctype.get());
            let number = number_among(sized_members(scope.tables(), members), name);
            at_number(alloc, at, number, filling)
        }
    }
}

/// The number of an element of an array: up to 2^64 - 1 where its length isn't known.
fn element_number(ctype: &CType, value: i128) -> Option<u64>
    ensures { result ≡ element_in ctype.now.derivations value }
{
    match ctype.derivations.as_slice().split_first() {
        Some((Derivation::Array(length), _)) => number_below(*length, value),
        Some((Derivation::Pointer(_), _)) => None,
        Some((Derivation::Function(_), _)) => None,
        None => None,
    }
}

fn number_below(length: Option<u64>, value: i128) -> Option<u64>
    ensures { result ≡ below length value }
{
    if value < 0 {
        return None;
    }
    match length {
        None => Some(u64::try_from(value).unwrap_or(u64::MAX)),
        Some(length) => {
            if value < i128::from(length) {
                Some(value as u64)
            } else {
                None
            }
        }
    }
}

fn not_constant_value(
    alloc: Global,
    at: u32,
    value: Option<i128>,
) -> Result<Items<Fault>, AllocError>
    ensures { IfOk result (λ faults. faults ≡ typing.not_constant_value at value) }
{
    match value {
        None => one_fault(alloc, at, Rule::Layout(LayoutRule::NotConstant)),
        Some(_) => Ok(Items::new(alloc)),
    }
}

fn not_constant(alloc: Global, at: u32, shown: &Option<Shown>) -> Result<Items<Fault>, AllocError>
    ensures { IfOk result (λ faults. faults ≡ typing.not_constant_of at shown.now) }
{
    match shown {
        None => Ok(Items::new(alloc)),
        Some(shown) => not_constant_value(alloc, at, shown.value),
    }
}

fn to_value(
    alloc: Global,
    scope: &Scope,
    at: u32,
    value: i128,
    filling: Filling,
) -> Result<Filling, AllocError>
    ensures { IfOk result (λ z. filling_in z scope.now ≡ value_next at value filling.frames (filling_in filling scope.now)) }
{
    match filling.frames.innermost() {
        None => Ok(filling),
        Some(frame) => {
            let number = element_number(frame.whole.get().ctype.get(), value);
            at_number(alloc, at, number, filling)
        }
    }
}

#[tactic(auto, using(crate::proofs::Elements::value_named))]
fn to_constant(
    alloc: Global,
    scope: &Scope,
    at: u32,
    shown: &Option<Shown>,
    filling: Filling,
) -> Result<Filling, AllocError>
    ensures { IfOk result (λ z. filling_in z scope.now ≡ spec.to_constant at (typing.type_in shown.now) (typing.value_in shown.now) filling.frames (filling_in filling scope.now)) }
{
    match shown {
        None => Ok(nowhere(alloc, filling)),
        Some(shown) => match shown.value {
            None => Ok(nowhere(alloc, filling)),
            Some(value) => to_value(alloc, scope, at, value, filling),
        },
    }
}

fn nowhere(alloc: Global, filling: Filling) -> Filling
    ensures { result ≡ record filling { frames = [] } }
{
    let mut filling = filling;
    filling.frames = Frames::new(alloc);
    filling
}

fn to_element(
    alloc: Global,
    scope: &Scope,
    at: u32,
    told: Told,
    filling: Filling,
) -> Result<Filling, AllocError>
    ensures { IfOk result (λ z. filling_in z scope.now ≡ spec.to_element at (typing.typed_in told scope.now) (filling_in filling scopes.empty)) }
{
    let Told {
        at: token,
        shown,
        faults,
    } = told;
    let more = not_constant(alloc, token, &shown)?;
    let mut filling = filling;
    filling.faults.append(faults)?;
    filling.faults.append(more)?;
    to_constant(alloc, scope, at, &shown, filling)
}

fn designates(
    alloc: Global,
    designator: &Designator,
    filling: Filling,
    scope: &mut Scope,
) -> Result<Filling, AllocError>
    ensures { IfOk result (λ z. filling_in z scope.new ≡ spec.designates {E = Expr} trees.typed (units.designated designator.now) (filling_in filling scope.old)) }
{
    match designator {
        Designator::Member { at, member } => to_member(alloc, scope, *at, member, filling),
        Designator::Element { at, index } => {
            let told = typed(alloc, index.get(), scope)?;
            to_element(alloc, scope, *at, told, filling)
        }
    }
}

/// A further designator goes into the part that those before it name. It fails for want of memory alone.
fn goes_into(alloc: Global, scope: &Scope, filling: Filling) -> Result<Filling, AllocError>
    ensures { IfOk result (λ z. filling_in z scope.now ≡ spec.goes_into filling.frames (filling_in filling scope.now)) }
{
    let mut filling = filling;
    match filling.frames.pop() {
        None => Ok(filling),
        Some(frame) => {
            let part = part_at(alloc, scope.tables(), &frame.whole, frame.next)?;
            let filling = filling.within(frame.stepped(scope.tables()))?;
            filling.within(Frame::started(part))
        }
    }
}

fn designated_further(
    alloc: Global,
    designators: &[Designator],
    filling: Filling,
    scope: &mut Scope,
) -> Result<Filling, AllocError>
    ensures { IfOk result (λ z. filling_in z scope.new ≡ spec.designated_further {E = Expr} trees.typed (map units.designated designators.now) (filling_in filling scope.old)) }
{
    let mut filling = filling;
    for designator in designators {
        let within = goes_into(alloc, scope, filling)?;
        filling = designates(alloc, designator, within, scope)?;
    }
    Ok(filling)
}

/// Designators, which begin at the object of the closest braces. It fails for want of memory alone.
pub fn designated_by(
    alloc: Global,
    designators: &[Designator],
    filling: Filling,
    scope: &mut Scope,
) -> Result<Filling, AllocError>
    ensures { IfOk result (λ z. filling_in z scope.new ≡ spec.designated_by {E = Expr} trees.typed (map units.designated designators.now) (filling_in filling scope.old)) }
{
    match designators.split_first() {
        None => Ok(filling),
        Some((first, rest)) => {
            let mut filling = filling;
            filling.frames.keep_outermost();
            let filling = designates(alloc, first, filling, scope)?;
            designated_further(alloc, rest, filling, scope)
        }
    }
}
