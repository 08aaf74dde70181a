//! Types (C99 6.2.5), as plain data without recursion.

use plain_data::Items;

/// An integer type other than an enumerated type (C99 6.2.5p4 to p6, p15). Plain `char` is a type of its own, and so
/// are `long` and `long long`, though some of these have one size and sign.
#[derive(Clone, Copy, PartialEq, Eq)]
pub enum IntegerKind {
    Bool,
    Char,
    SignedChar,
    UnsignedChar,
    Short,
    UnsignedShort,
    Int,
    UnsignedInt,
    Long,
    UnsignedLong,
    LongLong,
    UnsignedLongLong,
}

/// A real floating type (C99 6.2.5p10), or one of TS 18661-3, which are types of their own.
#[derive(Clone, Copy, PartialEq, Eq)]
pub enum RealKind {
    Float,
    Double,
    LongDouble,
    Float32,
    Float64,
    Float32x,
    Float64x,
    Float128,
}

/// Which numbers a floating type has (C99 6.2.5p10 to p11, G.2).
#[derive(Clone, Copy, PartialEq, Eq)]
pub enum Domain {
    Real,
    Complex,
    Imaginary,
}

/// A floating type: a real type, or the complex or imaginary type that corresponds to one.
#[derive(Clone, Copy, PartialEq, Eq)]
pub struct FloatingKind {
    pub real: RealKind,
    pub domain: Domain,
}

/// The qualifiers of a type (C99 6.7.3); each may be written any number of times.
#[derive(Clone, Copy, PartialEq, Eq)]
pub struct Qualifiers {
    pub is_const: bool,
    pub is_volatile: bool,
    pub is_restrict: bool,
}

/// What a type's derivations begin with. A structure or union, and an enumerated type, is itself by its declaration:
/// its number in the table of its kind.
#[derive(Clone, Copy, PartialEq, Eq)]
pub enum Base {
    Void,
    Integer(IntegerKind),
    Floating(FloatingKind),
    /// `__builtin_va_list`, of which nothing is known.
    VaList,
    /// The number of an enumerated type (C99 6.7.2.2).
    Enumerated(u32),
    /// The number of a structure or union (C99 6.7.2.1).
    Aggregate(u32),
}

/// One step of a derivation (C99 6.2.5p20).
#[derive(Clone, Copy, PartialEq, Eq)]
pub enum Derivation {
    /// A pointer with these qualifiers to what is left.
    Pointer(Qualifiers),
    /// An array of what is left: of so many elements, or of an unknown number.
    Array(Option<u64>),
    /// A function that returns what is left; the number of its parameters' signature.
    Function(u32),
}

/// A type: its derivations, the outermost first, the type that they begin with, and the qualifiers of this one. So an
/// array is qualified as its elements are (C99 6.7.3p8), and a pointer has its qualifiers in its own derivation.
///
/// Equal values are the same type. The same type has equal values where no function is among its derivations: two
/// function types of equal parameters may have two signatures. An enumerated type isn't the same type as `int`, though
/// the two are compatible (C99 6.7.2.2p4).
#[derive(Drop)]
pub struct CType {
    pub derivations: Items<Derivation>,
    pub base: Base,
    pub qualifiers: Qualifiers,
}
