//! The parts of objects (C99 6.7.8p17, p20).

ghost use Rattle.std.specs.Prelude.{◌≡◌, ◌+◌, ◌*◌, ◌||◌, IfOk, length, slice_get};
ghost use Rattle.c_language.specs.Types.{aggregate_of, element_of};
ghost use Rattle.c_language.specs.Layouts as layouts;
ghost use Rattle.c_language.specs.Initials as spec;

use c_language::{AggregateForm, CType, Class, Derivation, Member, Tables};
use c_type_forms::has_size;
use plain_data::Shared;
use std::alloc::{AllocError, Global};
use std::marker::Model;

/// The count of bytes ends here: no object may have more than 1,048,576.
const MOST: u64 = 4_294_967_295;

/// A part of an object: its type, and where it begins in the whole, in bytes up to 2^32 - 1.
#[derive(Drop)]
pub struct Part {
    pub ctype: Shared<CType>,
    pub offset: u64,
}

impl Model for Part {
    ghost use Rattle.c_language.specs.Initials as spec;

    ghost Value = { spec.Part };

    ghost view = { λ p. record { type = p.ctype; offset = p.offset } };
}

impl Part {
    /// A whole object. It fails for want of memory alone.
    pub fn whole(alloc: Global, ctype: Shared<CType>) -> Result<Shared<Part>, AllocError>
        ensures { IfOk result (λ p. p ≡ record { type = ctype; offset = 0 }) }
    {
        Shared::new(alloc, Part { ctype, offset: 0 })
    }
}

fn counted(bytes: u128) -> u64
    ensures { result ≡ layouts.counted bytes }
{
    if bytes < u128::from(MOST) {
        bytes as u64
    } else {
        MOST
    }
}

fn element_offset(offset: u64, index: u64, size: u64) -> u64
    ensures { result ≡ layouts.counted (offset + index * size) }
{
    let bytes = counted(u128::from(index) * u128::from(size));
    counted(u128::from(offset) + u128::from(bytes))
}

fn is_laid(tables: &Tables, member: &Member) -> bool
    ensures { result ≡ (layouts.is_sized tables.now member.now.ctype || layouts.is_opaque tables.now member.now.ctype) }
{
    has_size(tables, &member.ctype) || tables.is_opaque(&member.ctype)
}

/// The members that can be initialised: those before a flexible array (C99 6.7.2.1p16).
pub(crate) fn sized_members<'a>(tables: &Tables, members: &'a [Member]) -> &'a [Member]
    ensures { result.now ≡ spec.sized_members tables.now members.now }
{
    for (i, member) in members.iter().enumerate() {
        if !is_laid(tables, member) {
            return members.split_at(i).0;
        }
    }
    members
}

#[tactic(auto, using(crate::proofs::Tabled::form_found, crate::proofs::Tabled::form_missing))]
fn form_of(tables: &Tables, number: Option<u32>) -> AggregateForm
    ensures { result ≡ spec.form_of_number tables.now number }
{
    match number {
        None => AggregateForm::Structure,
        Some(number) => match tables.aggregates.get(number as usize) {
            Some(aggregate) => aggregate.form,
            None => AggregateForm::Structure,
        },
    }
}

/// How many members can be initialised.
fn member_count(tables: &Tables, ctype: &CType) -> u64
    ensures { result ≡ length (spec.sized_members tables.now (layouts.members_of tables.now ctype.now)) }
{
    sized_members(tables, tables.members_of(ctype)).len() as u64
}

/// The number of the part behind one, up to 2^64 - 1: behind a member of a union no part is left (C99 6.7.8p17).
pub(crate) fn behind(tables: &Tables, ctype: &CType, index: u64) -> u64
    ensures { result ≡ spec.behind tables.now ctype.now index }
{
    match ctype.class() {
        Class::Aggregate(_) => match form_of(tables, ctype.aggregate()) {
            AggregateForm::Structure => index.saturating_add(1),
            AggregateForm::Union => member_count(tables, ctype),
        },
        _ => index.saturating_add(1),
    }
}

/// Whether an object of the type has a part of this number, from 0: in an array of unknown length always, in a scalar
/// the scalar itself.
pub(crate) fn has_part(tables: &Tables, ctype: &CType, index: u64) -> bool
    ensures { result ≡ spec.has_part tables.now ctype.now index }
{
    match ctype.class() {
        Class::Array => match ctype.derivations.as_slice().split_first() {
            Some((Derivation::Array(Some(length)), _)) => index < *length,
            _ => true,
        },
        Class::Aggregate(_) => index < member_count(tables, ctype),
        _ => index == 0,
    }
}

fn element_part(
    alloc: Global,
    tables: &Tables,
    whole: &Shared<Part>,
    index: u64,
) -> Result<Shared<Part>, AllocError>
    ensures { IfOk result (λ p. p ≡ spec.element_part tables.now whole.now (element_of whole.now.type) index) }
{
    match whole.get().ctype.get().element(alloc)? {
        None => whole.clone(),
        Some(ctype) => {
            let size = match tables.size_of(&ctype) {
                Some(size) => size,
                None => 0,
            };
            let offset = element_offset(whole.get().offset, index, size);
            let ctype = Shared::new(alloc, ctype)?;
            Shared::new(alloc, Part { ctype, offset })
        }
    }
}

fn member_part(
    alloc: Global,
    tables: &Tables,
    whole: &Shared<Part>,
    index: u64,
) -> Result<Shared<Part>, AllocError>
    ensures { IfOk result (λ p. p ≡ spec.member_part whole.now (slice_get (layouts.members_of tables.now whole.now.type) index)) }
{
    match tables
        .members_of(whole.get().ctype.get())
        .get(index as usize)
    {
        None => whole.clone(),
        Some(member) => {
            let offset = counted(u128::from(whole.get().offset) + u128::from(member.offset));
            let ctype = Shared::new(alloc, member.ctype.duplicate(alloc)?)?;
            Shared::new(alloc, Part { ctype, offset })
        }
    }
}

/// The part of this number: the object itself where it has no parts. It fails for want of memory alone.
pub(crate) fn part_at(
    alloc: Global,
    tables: &Tables,
    whole: &Shared<Part>,
    index: u64,
) -> Result<Shared<Part>, AllocError>
    ensures { IfOk result (λ p. p ≡ spec.part_at tables.now whole.now index) }
{
    match whole.get().ctype.get().class() {
        Class::Array => element_part(alloc, tables, whole, index),
        Class::Aggregate(_) => member_part(alloc, tables, whole, index),
        _ => whole.clone(),
    }
}
