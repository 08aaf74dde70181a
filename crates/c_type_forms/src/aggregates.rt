//! Subscripts and members (C99 6.5.2.1, 6.5.2.3).
ghost use Rattle.std.specs.Prelude.{◌≡◌, IfOk};
ghost use Rattle.std.specs.Option.{option_copied};
ghost use Rattle.c_language.specs.Types as types;
ghost use Rattle.c_language.specs.Layouts.{member_named};
ghost use Rattle.c_language.specs.Typing as spec;

use crate::operators::addition;
use crate::turning::indirection;
use crate::values::{INCOMPLETE, an_object};
use c_language::{Content, Member, Name, OpaqueCause, Qualifiers, Rule, Shown, Tables};
use std::alloc::{AllocError, Global};

/// The target of a sum. It fails for want of memory alone.
pub(crate) fn element(
    alloc: Global,
    tables: &Tables,
    x: &Shown,
    y: &Shown,
) -> Result<Result<Shown, Rule>, AllocError>
    ensures { IfOk result (λ j. j ≡ spec.element tables.now x.now y.now) }
{
    match addition(alloc, tables, x, y)? {
        Ok(sum) => indirection(alloc, &sum),
        Err(rule) => Ok(Err(rule)),
    }
}

fn named<'a>(members: &'a [Member], name: &Name) -> Option<&'a Member>
    ensures { option_copied result ≡ member_named name.now members.now }
{
    for member in members {
        if member.name.get().as_slice() == name.get().as_slice() {
            return Some(member);
        }
    }
    None
}

fn member_shown(
    alloc: Global,
    qualifiers: Qualifiers,
    is_lvalue: bool,
    member: &Member,
) -> Result<Shown, AllocError>
    ensures { IfOk result (λ x. x ≡ spec.member_shown qualifiers is_lvalue member.now) }
{
    let ctype = member.ctype.duplicate(alloc)?.qualified(qualifiers);
    Ok(Shown {
        ctype,
        value: None,
        is_null: false,
        is_lvalue,
        is_literal: false,
        designates: None,
    })
}

fn member_among(
    alloc: Global,
    qualifiers: Qualifiers,
    is_lvalue: bool,
    name: &Name,
    members: &[Member],
) -> Result<Result<Shown, Rule>, AllocError>
    ensures { IfOk result (λ j. j ≡ spec.found_member qualifiers is_lvalue (member_named name.now members.now)) }
{
    match named(members, name) {
        Some(member) => Ok(Ok(member_shown(alloc, qualifiers, is_lvalue, member)?)),
        None => Ok(Err(Rule::TypeMismatch)),
    }
}

fn member_of_content(
    alloc: Global,
    qualifiers: Qualifiers,
    is_lvalue: bool,
    name: &Name,
    content: &Content,
) -> Result<Result<Shown, Rule>, AllocError>
    ensures { IfOk result (λ j. j ≡ spec.member_of_content qualifiers is_lvalue name.now content.now) }
{
    match content {
        Content::Incomplete => Ok(Err(INCOMPLETE)),
        Content::Opaque(OpaqueCause::BitField) => Ok(Err(Rule::BitField)),
        Content::Opaque(OpaqueCause::Other) => Ok(Err(INCOMPLETE)),
        Content::Complete(layout) => {
            member_among(
                alloc,
                qualifiers,
                is_lvalue,
                name,
                layout.members.as_slice(),
            )
        }
    }
}

fn member_in(
    alloc: Global,
    tables: &Tables,
    qualifiers: Qualifiers,
    is_lvalue: bool,
    name: &Name,
    number: Option<u32>,
) -> Result<Result<Shown, Rule>, AllocError>
    ensures { IfOk result (λ j. j ≡ spec.member_in tables.now qualifiers is_lvalue name.now number) }
{
    match number {
        Some(number) => match tables.aggregates.get(number as usize) {
            Some(aggregate) => {
                member_of_content(alloc, qualifiers, is_lvalue, name, &aggregate.content)
            }
            None => Ok(Err(INCOMPLETE)),
        },
        None => Ok(Err(Rule::TypeMismatch)),
    }
}

/// A member of an object. It fails for want of memory alone.
pub(crate) fn member_shown_of(
    alloc: Global,
    tables: &Tables,
    name: &Name,
    x: &Shown,
) -> Result<Result<Shown, Rule>, AllocError>
    ensures { IfOk result (λ j. j ≡ spec.member_shown_of tables.now name.now x.now) }
{
    member_in(
        alloc,
        tables,
        x.ctype.qualifiers(),
        x.is_lvalue,
        name,
        x.ctype.aggregate(),
    )
}

/// A member of what a pointer points to. It fails for want of memory alone.
pub(crate) fn pointed_member(
    alloc: Global,
    tables: &Tables,
    name: &Name,
    x: &Shown,
) -> Result<Result<Shown, Rule>, AllocError>
    ensures { IfOk result (λ j. j ≡ spec.pointed_member tables.now name.now x.now) }
{
    match x.ctype.target(alloc)? {
        Some(target) => member_shown_of(alloc, tables, name, &an_object(target)),
        None => Ok(Err(Rule::TypeMismatch)),
    }
}
