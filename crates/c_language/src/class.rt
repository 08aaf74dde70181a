//! The classes of types (C99 6.2.5), their parts and their qualifiers.
ghost use Rattle.std.specs.Prelude.{◌≡◌, ◌∷◌, ◌≤◌, length, IfOk};
ghost use Rattle.c_language.specs.Types as spec;
ghost use Rattle.c_language.specs.Compatible.{adjusted, decayed};
ghost use Rattle.c_language.specs.Layouts.{member_type};

use crate::ctype::{Base, CType, Derivation, IntegerKind, Qualifiers};
use crate::tables::Member;
use plain_data::Items;
use std::alloc::{AllocError, Global};

/// Where a type belongs, whatever its qualifiers (C99 6.2.5).
#[derive(Clone, Copy, PartialEq, Eq)]
pub enum Class {
    Void,
    /// An integer type; an enumerated type is one, with the range of `int`.
    Integer(IntegerKind),
    Floating,
    Pointer,
    Array,
    Function,
    /// A structure or union, complete or not, by its number.
    Aggregate(u32),
    /// `__builtin_va_list`.
    Opaque,
}

impl Class {
    /// An integer type (C99 6.2.5p17).
    pub fn is_integer(self) -> bool
        ensures { result ≡ spec.is_integer_class self }
    {
        matches!(self, Class::Integer(_))
    }

    /// An integer or floating type (C99 6.2.5p18).
    pub fn is_arithmetic(self) -> bool
        ensures { result ≡ spec.is_arithmetic_class self }
    {
        matches!(self, Class::Integer(_) | Class::Floating)
    }

    /// The integer type of the number by which a scalar converts: a pointer's is its 64-bit number (C99 6.3.2.3p5,
    /// p6). A floating type has none.
    pub fn number_kind(self) -> Option<IntegerKind>
        ensures { result ≡ spec.number_kind_in self }
    {
        match self {
            Class::Integer(kind) => Some(kind),
            Class::Pointer => Some(IntegerKind::UnsignedLong),
            _ => None,
        }
    }

    /// An arithmetic type or a pointer type (C99 6.2.5p21).
    pub fn is_scalar(self) -> bool
        ensures { result ≡ spec.is_scalar_class self }
    {
        matches!(self, Class::Integer(_) | Class::Floating | Class::Pointer)
    }
}

impl Qualifiers {
    /// No qualifier.
    pub const NONE: Qualifiers = Qualifiers {
        is_const: false,
        is_volatile: false,
        is_restrict: false,
    };

    /// The qualifiers that stand in one list or the other.
    pub fn with(self, other: Qualifiers) -> Qualifiers
        ensures { result ≡ spec.with_both self other }
    {
        Qualifiers {
            is_const: self.is_const || other.is_const,
            is_volatile: self.is_volatile || other.is_volatile,
            is_restrict: self.is_restrict || other.is_restrict,
        }
    }
}

impl Base {
    fn class(self) -> Class
        ensures { result ≡ spec.class_of_base self }
    {
        match self {
            Base::Void => Class::Void,
            Base::Integer(kind) => Class::Integer(kind),
            Base::Floating(_) => Class::Floating,
            Base::VaList => Class::Opaque,
            Base::Enumerated(_) => Class::Integer(IntegerKind::Int),
            Base::Aggregate(number) => Class::Aggregate(number),
        }
    }
}

/// How many derivations stand before the first that makes no array.
fn arrays_in(derivations: &[Derivation]) -> usize
    ensures value { result ≡ spec.arrays_in derivations.now }
    ensures within { result ≤ length derivations.now }
{
    match derivations.split_first() {
        Some((Derivation::Array(_), rest)) => 1 + arrays_in(rest),
        Some((Derivation::Pointer(_), _)) => 0,
        Some((Derivation::Function(_), _)) => 0,
        None => 0,
    }
}

impl CType {
    /// A type that isn't derived from another, without qualifiers. It takes no memory.
    pub fn basic(alloc: Global, base: Base) -> CType
        ensures { result ≡ spec.basic base }
    {
        CType {
            derivations: Items::new(alloc),
            base,
            qualifiers: Qualifiers::NONE,
        }
    }

    /// One more value of the same type. It fails for want of memory alone.
    pub fn duplicate(&self, alloc: Global) -> Result<CType, AllocError>
        ensures { IfOk result (λ t. t ≡ self.now) }
    {
        let derivations = Items::from_slice(alloc, self.derivations.as_slice())?;
        Ok(CType {
            derivations,
            base: self.base,
            qualifiers: self.qualifiers,
        })
    }

    fn derived(&self, alloc: Global, first: Derivation) -> Result<CType, AllocError>
        ensures { IfOk result (λ t. t ≡ record self.now { derivations = first ∷ self.now.derivations }) }
    {
        let mut derivations = Items::new(alloc);
        derivations.push(first)?;
        derivations.extend_from_slice(self.derivations.as_slice())?;
        Ok(CType {
            derivations,
            base: self.base,
            qualifiers: self.qualifiers,
        })
    }

    /// A pointer with these qualifiers to this type (C99 6.7.5.1). It fails for want of memory alone.
    pub fn pointer(&self, alloc: Global, qualifiers: Qualifiers) -> Result<CType, AllocError>
        ensures { IfOk result (λ t. t ≡ spec.pointer qualifiers self.now) }
    {
        self.derived(alloc, Derivation::Pointer(qualifiers))
    }

    /// An array of this type (C99 6.7.5.2). It fails for want of memory alone.
    pub fn array(&self, alloc: Global, length: Option<u64>) -> Result<CType, AllocError>
        ensures { IfOk result (λ t. t ≡ spec.array length self.now) }
    {
        self.derived(alloc, Derivation::Array(length))
    }

    /// A function that returns this type, with the signature of this number (C99 6.7.5.3). It fails for want of memory
    /// alone.
    pub fn function(&self, alloc: Global, signature: u32) -> Result<CType, AllocError>
        ensures { IfOk result (λ t. t ≡ spec.function signature self.now) }
    {
        self.derived(alloc, Derivation::Function(signature))
    }

    /// Where the type belongs.
    pub fn class(&self) -> Class
        ensures { result ≡ spec.class_of self.now }
    {
        match self.derivations.as_slice().first() {
            None => self.base.class(),
            Some(Derivation::Pointer(_)) => Class::Pointer,
            Some(Derivation::Array(_)) => Class::Array,
            Some(Derivation::Function(_)) => Class::Function,
        }
    }

    /// The integer type that this is, with an enumerated type taken as `int`.
    pub fn kind(&self) -> Option<IntegerKind>
        ensures { result ≡ spec.kind_of self.now }
    {
        match self.class() {
            Class::Integer(kind) => Some(kind),
            _ => None,
        }
    }

    /// The number of the structure or union that this is.
    pub fn aggregate(&self) -> Option<u32>
        ensures { result ≡ spec.aggregate_of self.now }
    {
        match self.class() {
            Class::Aggregate(number) => Some(number),
            _ => None,
        }
    }

    fn rest_of(&self, alloc: Global, rest: &[Derivation]) -> Result<CType, AllocError>
        ensures { IfOk result (λ t. t ≡ spec.rest_of self.now rest.now) }
    {
        Ok(CType {
            derivations: Items::from_slice(alloc, rest)?,
            base: self.base,
            qualifiers: self.qualifiers,
        })
    }

    /// The type that this one points to, where it is a pointer. It fails for want of memory alone.
    pub fn target(&self, alloc: Global) -> Result<Option<CType>, AllocError>
        ensures { IfOk result (λ t. t ≡ spec.target_of self.now) }
    {
        match self.derivations.as_slice().split_first() {
            Some((Derivation::Pointer(_), rest)) => Ok(Some(self.rest_of(alloc, rest)?)),
            Some((Derivation::Array(_), _)) => Ok(None),
            Some((Derivation::Function(_), _)) => Ok(None),
            None => Ok(None),
        }
    }

    /// The type of the elements, where this is an array. It fails for want of memory alone.
    pub fn element(&self, alloc: Global) -> Result<Option<CType>, AllocError>
        ensures { IfOk result (λ t. t ≡ spec.element_of self.now) }
    {
        match self.derivations.as_slice().split_first() {
            Some((Derivation::Array(_), rest)) => Ok(Some(self.rest_of(alloc, rest)?)),
            Some((Derivation::Pointer(_), _)) => Ok(None),
            Some((Derivation::Function(_), _)) => Ok(None),
            None => Ok(None),
        }
    }

    /// The type that is returned, where this is a function. It fails for want of memory alone.
    pub fn returned(&self, alloc: Global) -> Result<Option<CType>, AllocError>
        ensures { IfOk result (λ t. t ≡ spec.returned_of self.now) }
    {
        match self.derivations.as_slice().split_first() {
            Some((Derivation::Function(_), rest)) => Ok(Some(self.rest_of(alloc, rest)?)),
            Some((Derivation::Pointer(_), _)) => Ok(None),
            Some((Derivation::Array(_), _)) => Ok(None),
            None => Ok(None),
        }
    }

    /// The qualifiers of the type: of an array those of its elements (C99 6.7.3p8).
    #[tactic(auto, using(crate::proofs::Qualified::qualifiers_found))]
    pub fn qualifiers(&self) -> Qualifiers
        ensures { result ≡ spec.qualifiers_of self.now }
    {
        match self.derivations.get(arrays_in(self.derivations.as_slice())) {
            None => self.qualifiers,
            Some(Derivation::Pointer(qualifiers)) => *qualifiers,
            Some(Derivation::Array(_)) => Qualifiers::NONE,
            Some(Derivation::Function(_)) => Qualifiers::NONE,
        }
    }

    /// The version of the type that has these qualifiers and no other (C99 6.2.5p26).
    #[tactic(auto, using(crate::proofs::Qualified::requalified_found))]
    pub fn requalified(self, qualifiers: Qualifiers) -> CType
        ensures { result ≡ spec.requalified qualifiers self }
    {
        let mut ctype = self;
        let index = arrays_in(ctype.derivations.as_slice());
        match ctype.derivations.get(index) {
            None => ctype.qualifiers = qualifiers,
            Some(Derivation::Pointer(_)) => ctype
                .derivations
                .set(index, Derivation::Pointer(qualifiers)),
            Some(Derivation::Array(_)) => {}
            Some(Derivation::Function(_)) => {}
        }
        ctype
    }

    /// The so qualified version of the type, which keeps the qualifiers that it has (C99 6.7.3p4).
    pub fn qualified(self, qualifiers: Qualifiers) -> CType
        ensures { result ≡ spec.qualified qualifiers self }
    {
        let all = qualifiers.with(self.qualifiers());
        self.requalified(all)
    }

    /// The type of a member of this type, which has the qualifiers of the whole too (C99 6.5.2.3p3). It fails for want
    /// of memory alone.
    pub fn member_type(&self, alloc: Global, member: &Member) -> Result<CType, AllocError>
        ensures { IfOk result (λ t. t ≡ member_type self.now member.now) }
    {
        let ctype = member.ctype.duplicate(alloc)?;
        Ok(ctype.qualified(self.qualifiers()))
    }

    /// The type of a parameter that is declared with this type, where an array's brackets have these qualifiers (C99
    /// 6.7.5.3p7, p8). It fails for want of memory alone.
    pub fn adjusted(self, alloc: Global, brackets: Qualifiers) -> Result<CType, AllocError>
        ensures { IfOk result (λ t. t ≡ adjusted brackets self) }
    {
        match self.class() {
            Class::Array => {
                let mut ctype = self;
                ctype.derivations.set(0, Derivation::Pointer(brackets));
                Ok(ctype)
            }
            Class::Function => self.pointer(alloc, Qualifiers::NONE),
            _ => Ok(self),
        }
    }

    /// The type of a value of this type where it is used: an array is a pointer to its first element, a function a
    /// pointer to it (C99 6.3.2.1p3, p4). It fails for want of memory alone.
    pub fn decayed(self, alloc: Global) -> Result<CType, AllocError>
        ensures { IfOk result (λ t. t ≡ decayed self) }
    {
        self.adjusted(alloc, Qualifiers::NONE)
    }
}
