//! Sizes, alignments and where members lie (C99 6.5.3.4, 6.7.2.1). Bytes are counted up to 2^32 - 1: no object may
//! have more than 1,048,576, so a type at the count's end is too large in any case.
ghost use Rattle.std.specs.Prelude.{◌≡◌, ◌++◌, OnOk, OnErr, IfOk};
ghost use Rattle.std.specs.Option.{option_copied};
ghost use Rattle.c_language.specs.Types.{content_of, is_listed};
ghost use Rattle.c_language.specs.Layouts as spec;

use crate::Name;
use crate::ctype::{Base, CType, Derivation, Domain, FloatingKind, IntegerKind, RealKind};
use crate::tables::{AggregateForm, Content, Layout, Member, Tables};
use plain_data::Items;
use std::alloc::{AllocError, Global};

/// The count's end.
const MOST: u64 = 4_294_967_295;

/// How many bytes an object may have.
pub const OBJECT_LIMIT: u64 = 1_048_576;

/// How many bytes a pointer takes, and to how many it is aligned.
const POINTER_BYTES: u64 = 8;

/// How many bytes an object takes, and to how many it is aligned.
#[derive(Clone, Copy, PartialEq, Eq)]
pub struct Extent {
    pub size: u64,
    pub align: u64,
}

fn counted(bytes: u128) -> u64
    ensures { result ≡ spec.counted bytes }
{
    if bytes < u128::from(MOST) {
        bytes as u64
    } else {
        MOST
    }
}

impl RealKind {
    /// How many bytes an object of the type takes, and to how many it is aligned.
    pub fn bytes(self) -> u64
        ensures { result ≡ spec.real_bytes self }
    {
        match self {
            RealKind::Float => 4,
            RealKind::Double => 8,
            RealKind::LongDouble => 16,
            RealKind::Float32 => 4,
            RealKind::Float64 => 8,
            RealKind::Float32x => 8,
            RealKind::Float64x => 16,
            RealKind::Float128 => 16,
        }
    }
}

impl FloatingKind {
    /// How many bytes an object of the type takes.
    pub fn size(self) -> u64
        ensures { result ≡ spec.floating_size self }
    {
        match self.domain {
            Domain::Real => self.real.bytes(),
            Domain::Complex => 2 * self.real.bytes(),
            Domain::Imaginary => self.real.bytes(),
        }
    }
}

impl Tables {
    /// What is known of the members of a structure or union; a number that isn't in the table has none.
    fn size_at(&self, number: u32) -> Option<u64>
        ensures { result ≡ spec.size_in (content_of self.now number) }
    {
        match self.aggregates.get(number as usize) {
            Some(aggregate) => match &aggregate.content {
                Content::Incomplete => None,
                Content::Opaque(_) => None,
                Content::Complete(layout) => Some(layout.size),
            },
            None => None,
        }
    }

    fn align_at(&self, number: u32) -> Option<u64>
        ensures { result ≡ spec.align_in (content_of self.now number) }
    {
        match self.aggregates.get(number as usize) {
            Some(aggregate) => match &aggregate.content {
                Content::Incomplete => None,
                Content::Opaque(_) => None,
                Content::Complete(layout) => Some(layout.align),
            },
            None => None,
        }
    }

    /// Whether the list of enumerators of an enumerated type has ended.
    pub fn is_listed(&self, number: u32) -> bool
        ensures { result ≡ is_listed self.now number }
    {
        match self.enumerations.get(number as usize) {
            Some(enumeration) => enumeration.is_complete,
            None => false,
        }
    }

    fn enumerated_size(&self, number: u32) -> Option<u64>
        ensures { result ≡ spec.enumerated_size (is_listed self.now number) }
    {
        if self.is_listed(number) {
            Some(IntegerKind::Int.bytes())
        } else {
            None
        }
    }

    fn base_size(&self, base: Base) -> Option<u64>
        ensures { result ≡ spec.base_size self.now base }
    {
        match base {
            Base::Void => None,
            Base::Integer(kind) => Some(kind.bytes()),
            Base::Floating(kind) => Some(kind.size()),
            Base::VaList => None,
            Base::Enumerated(number) => self.enumerated_size(number),
            Base::Aggregate(number) => self.size_at(number),
        }
    }

    fn base_align(&self, base: Base) -> Option<u64>
        ensures { result ≡ spec.base_align self.now base }
    {
        match base {
            Base::Void => None,
            Base::Integer(kind) => Some(kind.bytes()),
            Base::Floating(kind) => Some(kind.real.bytes()),
            Base::VaList => None,
            Base::Enumerated(number) => self.enumerated_size(number),
            Base::Aggregate(number) => self.align_at(number),
        }
    }

    fn size_from(&self, base: Base, derivations: &[Derivation]) -> Option<u64>
        ensures { result ≡ spec.size_from self.now base derivations.now }
    {
        match derivations.split_first() {
            None => self.base_size(base),
            Some((Derivation::Pointer(_), _)) => Some(POINTER_BYTES),
            Some((Derivation::Array(length), rest)) => array_size(
                *length,
                self.size_from(base, rest),
            ),
            Some((Derivation::Function(_), _)) => None,
        }
    }

    fn align_from(&self, base: Base, derivations: &[Derivation]) -> Option<u64>
        ensures { result ≡ spec.align_from self.now base derivations.now }
    {
        match derivations.split_first() {
            None => self.base_align(base),
            Some((Derivation::Pointer(_), _)) => Some(POINTER_BYTES),
            Some((Derivation::Array(None), _)) => None,
            Some((Derivation::Array(Some(_)), rest)) => self.align_from(base, rest),
            Some((Derivation::Function(_), _)) => None,
        }
    }

    /// How many bytes an object of the type takes (C99 6.5.3.4): none exactly where the type is incomplete, opaque or
    /// a function type.
    pub fn size_of(&self, ctype: &CType) -> Option<u64>
        ensures { result ≡ spec.size_of self.now ctype.now }
    {
        self.size_from(ctype.base, ctype.derivations.as_slice())
    }

    /// To how many bytes an object of the type is aligned: none exactly where `size_of` has none.
    pub fn align_of(&self, ctype: &CType) -> Option<u64>
        ensures { result ≡ spec.align_of self.now ctype.now }
    {
        self.align_from(ctype.base, ctype.derivations.as_slice())
    }

    fn extent_of(&self, ctype: &CType) -> Option<Extent>
        ensures { result ≡ spec.extent_of self.now ctype.now }
    {
        extent_with(self.size_of(ctype), self.align_of(ctype))
    }

    /// The room that a member of the type takes: none exactly where the type is incomplete, opaque or a function type,
    /// and no array of an unknown number of elements of which each has a size. Such a flexible array member takes no
    /// room, and is aligned as its elements are (C99 6.7.2.1p16).
    pub fn member_extent(&self, ctype: &CType) -> Option<Extent>
        ensures { result ≡ spec.member_extent self.now ctype.now }
    {
        match ctype.derivations.as_slice().split_first() {
            Some((Derivation::Array(None), rest)) => extent_with(
                Some(0),
                self.align_from(ctype.base, rest),
            ),
            Some((Derivation::Array(Some(_)), _)) => self.extent_of(ctype),
            Some((Derivation::Pointer(_), _)) => self.extent_of(ctype),
            Some((Derivation::Function(_), _)) => self.extent_of(ctype),
            None => self.extent_of(ctype),
        }
    }

    /// Whether no size is known of the type, though it has no further declaration to wait for: the list of variable
    /// arguments, a structure or union of which no layout is known, or an array of these.
    pub fn is_opaque(&self, ctype: &CType) -> bool
        ensures { result ≡ spec.is_opaque self.now ctype.now }
    {
        self.is_opaque_from(ctype.base, ctype.derivations.as_slice())
    }

    fn is_opaque_from(&self, base: Base, derivations: &[Derivation]) -> bool
        ensures { result ≡ spec.is_opaque_from self.now base derivations.now }
    {
        match derivations.split_first() {
            None => self.is_opaque_base(base),
            Some((Derivation::Pointer(_), _)) => false,
            Some((Derivation::Array(_), rest)) => self.is_opaque_from(base, rest),
            Some((Derivation::Function(_), _)) => false,
        }
    }

    fn is_opaque_base(&self, base: Base) -> bool
        ensures { result ≡ spec.is_opaque_base self.now base }
    {
        match base {
            Base::Void => false,
            Base::Integer(_) => false,
            Base::Floating(_) => false,
            Base::VaList => true,
            Base::Enumerated(_) => false,
            Base::Aggregate(number) => self.is_opaque_at(number),
        }
    }

    fn is_opaque_at(&self, number: u32) -> bool
        ensures { result ≡ spec.is_opaque_content (content_of self.now number) }
    {
        match self.aggregates.get(number as usize) {
            Some(aggregate) => matches!(&aggregate.content, Content::Opaque(_)),
            None => false,
        }
    }

    /// Whether the type, or one from which it is derived, has more than 1,048,576 bytes.
    pub fn is_too_large(&self, ctype: &CType) -> bool
        ensures { result ≡ spec.is_too_large self.now ctype.now }
    {
        self.is_too_large_from(ctype.base, ctype.derivations.as_slice())
    }

    fn is_too_large_from(&self, base: Base, derivations: &[Derivation]) -> bool
        ensures { result ≡ spec.is_too_large_from self.now base derivations.now }
    {
        match derivations.split_first() {
            Some((_, rest)) => {
                is_above_limit(self.size_from(base, derivations))
                    || self.is_too_large_from(base, rest)
            }
            None => is_above_limit(self.base_size(base)),
        }
    }

    fn members_at(&self, number: u32) -> &[Member]
        ensures { result.now ≡ spec.members_in (content_of self.now number) }
    {
        match self.aggregates.get(number as usize) {
            Some(aggregate) => match &aggregate.content {
                Content::Incomplete => &[],
                Content::Opaque(_) => &[],
                Content::Complete(layout) => layout.members.as_slice(),
            },
            None => &[],
        }
    }

    /// The members of a complete structure or union, in order; of another type none.
    pub fn members_of(&self, ctype: &CType) -> &[Member]
        ensures { result.now ≡ spec.members_of self.now ctype.now }
    {
        match ctype.aggregate() {
            Some(number) => self.members_at(number),
            None => &[],
        }
    }

    /// The member that a name names, the first of them (C99 6.5.2.3).
    pub fn member_of(&self, ctype: &CType, name: &Name) -> Option<&Member>
        ensures { option_copied result ≡ spec.member_of self.now ctype.now name.now }
    {
        member_named(self.members_of(ctype), name)
    }

    /// The offset of a member by its number, from 0: none where the type is no complete structure or union, or has no
    /// such member.
    pub fn offset_of(&self, ctype: &CType, member: u32) -> Option<u64>
        ensures { result ≡ spec.offset_of self.now ctype.now member }
    {
        match self.members_of(ctype).get(member as usize) {
            Some(member) => Some(member.offset),
            None => None,
        }
    }
}

fn member_named<'a>(members: &'a [Member], name: &Name) -> Option<&'a Member>
    ensures { option_copied result ≡ spec.member_named name.now members.now }
{
    for member in members {
        if member.name.get().as_slice() == name.get().as_slice() {
            return Some(member);
        }
    }
    None
}

fn is_above_limit(size: Option<u64>) -> bool
    ensures { result ≡ spec.is_above_limit size }
{
    match size {
        Some(bytes) => OBJECT_LIMIT < bytes,
        None => false,
    }
}

fn extent_with(size: Option<u64>, align: Option<u64>) -> Option<Extent>
    ensures { result ≡ spec.extent_with size align }
{
    match (size, align) {
        (Some(size), Some(align)) => Some(Extent { size, align }),
        (Some(_), None) => None,
        (None, _) => None,
    }
}

fn aligned(offset: u64, align: u64) -> u128
    ensures { result ≡ spec.aligned offset align }
{
    let over = match offset.checked_rem(align) {
        Some(over) => over,
        None => offset,
    };
    if over == 0 {
        u128::from(offset)
    } else {
        u128::from(offset) + u128::from(align.saturating_sub(over))
    }
}

impl Layout {
    /// The layout of no members: 0 bytes, aligned to 1. It takes no memory.
    pub fn new(alloc: Global) -> Layout
        ensures { result ≡ spec.no_members }
    {
        Layout {
            size: 0,
            align: 1,
            members: Items::new(alloc),
        }
    }

    /// Places the next member: in a structure behind those before it, in a union at the beginning (C99 6.7.2.1p13,
    /// p14). It fails for want of memory alone.
    pub fn place(
        &mut self,
        form: AggregateForm,
        extent: Extent,
        name: Name,
        ctype: CType,
    ) -> Result<(), AllocError>
        ensures ok { OnOk result (self.new ≡ spec.placed form self.old extent name ctype) }
        ensures err { OnErr result (self.new ≡ self.old) }
    {
        let (offset, end) = match form {
            AggregateForm::Structure => {
                let offset = counted(aligned(self.size, extent.align));
                (
                    offset,
                    counted(u128::from(offset) + u128::from(extent.size)),
                )
            }
            AggregateForm::Union => (0, self.size.max(extent.size)),
        };
        let member = Member {
            name,
            offset,
            ctype,
        };
        self.members.push(member)?;
        self.size = end;
        self.align = self.align.max(extent.align);
        Ok(())
    }

    /// Rounds the size up to the alignment, behind the last member (C99 6.7.2.1p15).
    pub fn finish(&mut self)
        ensures { self.new ≡ spec.finished self.old }
    {
        self.size = counted(aligned(self.size, self.align));
    }
}

fn array_size(length: Option<u64>, element: Option<u64>) -> Option<u64>
    ensures { result ≡ spec.array_size length element }
{
    match (length, element) {
        (Some(n), Some(size)) => Some(counted(u128::from(n) * u128::from(size))),
        (Some(_), None) => None,
        (None, _) => None,
    }
}
