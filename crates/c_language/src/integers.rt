//! Integer types: ranges, ranks, promotion, the usual conversions, and conversion of values (C99 6.2.6, 6.3.1).
ghost use Rattle.std.specs.Prelude.{◌≡◌, ◌<◌, ◌^◌, ◌-◌, ◌≤ℤ◌, pos, negsuc, true, false};
ghost use Rattle.plain_data.specs.Words.{word};
ghost use Rattle.c_language.specs.Integers as spec;

use crate::IntegerType;
use crate::ctype::IntegerKind;
use plain_data::{Width, to_signed, wrap};

impl IntegerKind {
    /// The width of an object of the type (C99 6.2.6.2).
    pub fn width(self) -> Width
        ensures { result ≡ spec.width_of self }
    {
        match self {
            IntegerKind::Bool => Width::W8,
            IntegerKind::Char => Width::W8,
            IntegerKind::SignedChar => Width::W8,
            IntegerKind::UnsignedChar => Width::W8,
            IntegerKind::Short => Width::W16,
            IntegerKind::UnsignedShort => Width::W16,
            IntegerKind::Int => Width::W32,
            IntegerKind::UnsignedInt => Width::W32,
            IntegerKind::Long => Width::W64,
            IntegerKind::UnsignedLong => Width::W64,
            IntegerKind::LongLong => Width::W64,
            IntegerKind::UnsignedLongLong => Width::W64,
        }
    }

    /// How many bytes an object of the type takes, and to how many it is aligned.
    pub fn bytes(self) -> u64
        ensures { result ≡ spec.bytes_of self }
    {
        match self.width() {
            Width::W8 => 1,
            Width::W16 => 2,
            Width::W32 => 4,
            Width::W64 => 8,
        }
    }

    /// Whether the type has negative values.
    pub fn is_signed(self) -> bool
        ensures { result ≡ spec.is_signed self }
    {
        match self {
            IntegerKind::Bool => false,
            IntegerKind::Char => true,
            IntegerKind::SignedChar => true,
            IntegerKind::UnsignedChar => false,
            IntegerKind::Short => true,
            IntegerKind::UnsignedShort => false,
            IntegerKind::Int => true,
            IntegerKind::UnsignedInt => false,
            IntegerKind::Long => true,
            IntegerKind::UnsignedLong => false,
            IntegerKind::LongLong => true,
            IntegerKind::UnsignedLongLong => false,
        }
    }

    /// The least value of the type (C99 5.2.4.2.1).
    pub fn least(self) -> i128
        ensures { result ≡ spec.least_of self }
    {
        match self {
            IntegerKind::Char => -0x80,
            IntegerKind::SignedChar => -0x80,
            IntegerKind::Short => -0x8000,
            IntegerKind::Int => -0x8000_0000,
            IntegerKind::Long => -0x8000_0000_0000_0000,
            IntegerKind::LongLong => -0x8000_0000_0000_0000,
            IntegerKind::Bool => 0,
            IntegerKind::UnsignedChar => 0,
            IntegerKind::UnsignedShort => 0,
            IntegerKind::UnsignedInt => 0,
            IntegerKind::UnsignedLong => 0,
            IntegerKind::UnsignedLongLong => 0,
        }
    }

    /// The greatest value of the type (C99 5.2.4.2.1).
    pub fn greatest(self) -> i128
        ensures { result ≡ spec.greatest_of self }
    {
        match self {
            IntegerKind::Bool => 1,
            IntegerKind::Char => 0x7f,
            IntegerKind::SignedChar => 0x7f,
            IntegerKind::UnsignedChar => 0xff,
            IntegerKind::Short => 0x7fff,
            IntegerKind::UnsignedShort => 0xffff,
            IntegerKind::Int => 0x7fff_ffff,
            IntegerKind::UnsignedInt => 0xffff_ffff,
            IntegerKind::Long => 0x7fff_ffff_ffff_ffff,
            IntegerKind::UnsignedLong => 0xffff_ffff_ffff_ffff,
            IntegerKind::LongLong => 0x7fff_ffff_ffff_ffff,
            IntegerKind::UnsignedLongLong => 0xffff_ffff_ffff_ffff,
        }
    }

    /// Whether a number is a value of the type.
    pub fn has(self, value: i128) -> bool
        ensures { result ≡ spec.is_in self value }
    {
        self.least() <= value && value <= self.greatest()
    }

    /// Whether each value of another type is one of this type.
    pub fn represents(self, other: IntegerKind) -> bool
        ensures { result ≡ spec.represents self other }
    {
        self.least() <= other.least() && other.greatest() <= self.greatest()
    }

    /// The conversion rank (C99 6.3.1.1p1), counted from that of `_Bool`.
    pub fn rank(self) -> u8
        ensures { result ≡ spec.rank_of self }
    {
        match self {
            IntegerKind::Bool => 0,
            IntegerKind::Char => 1,
            IntegerKind::SignedChar => 1,
            IntegerKind::UnsignedChar => 1,
            IntegerKind::Short => 2,
            IntegerKind::UnsignedShort => 2,
            IntegerKind::Int => 3,
            IntegerKind::UnsignedInt => 3,
            IntegerKind::Long => 4,
            IntegerKind::UnsignedLong => 4,
            IntegerKind::LongLong => 5,
            IntegerKind::UnsignedLongLong => 5,
        }
    }

    /// The type after the integer promotions (C99 6.3.1.1p2).
    pub fn promoted(self) -> IntegerKind
        ensures { result ≡ spec.promoted self }
    {
        match self {
            IntegerKind::Bool => IntegerKind::Int,
            IntegerKind::Char => IntegerKind::Int,
            IntegerKind::SignedChar => IntegerKind::Int,
            IntegerKind::UnsignedChar => IntegerKind::Int,
            IntegerKind::Short => IntegerKind::Int,
            IntegerKind::UnsignedShort => IntegerKind::Int,
            IntegerKind::Int => IntegerKind::Int,
            IntegerKind::UnsignedInt => IntegerKind::UnsignedInt,
            IntegerKind::Long => IntegerKind::Long,
            IntegerKind::UnsignedLong => IntegerKind::UnsignedLong,
            IntegerKind::LongLong => IntegerKind::LongLong,
            IntegerKind::UnsignedLongLong => IntegerKind::UnsignedLongLong,
        }
    }

    /// The unsigned type that corresponds to this one (C99 6.2.5p6).
    pub fn to_unsigned(self) -> IntegerKind
        ensures { result ≡ spec.unsigned_of self }
    {
        match self {
            IntegerKind::Bool => IntegerKind::Bool,
            IntegerKind::Char => IntegerKind::UnsignedChar,
            IntegerKind::SignedChar => IntegerKind::UnsignedChar,
            IntegerKind::UnsignedChar => IntegerKind::UnsignedChar,
            IntegerKind::Short => IntegerKind::UnsignedShort,
            IntegerKind::UnsignedShort => IntegerKind::UnsignedShort,
            IntegerKind::Int => IntegerKind::UnsignedInt,
            IntegerKind::UnsignedInt => IntegerKind::UnsignedInt,
            IntegerKind::Long => IntegerKind::UnsignedLong,
            IntegerKind::UnsignedLong => IntegerKind::UnsignedLong,
            IntegerKind::LongLong => IntegerKind::UnsignedLongLong,
            IntegerKind::UnsignedLongLong => IntegerKind::UnsignedLongLong,
        }
    }

    /// The common type of two integer types (C99 6.3.1.8).
    pub fn usual(self, other: IntegerKind) -> IntegerKind
        ensures { result ≡ spec.usual self other }
    {
        common(self.promoted(), other.promoted())
    }

    /// The type of an integer constant, which the lexer took from its list (C99 6.4.4.1).
    pub fn of_constant(integer_type: IntegerType) -> IntegerKind
        ensures { result ≡ spec.of_constant integer_type }
    {
        match integer_type {
            IntegerType::Int => IntegerKind::Int,
            IntegerType::Unsigned => IntegerKind::UnsignedInt,
            IntegerType::Long => IntegerKind::Long,
            IntegerType::UnsignedLong => IntegerKind::UnsignedLong,
            IntegerType::LongLong => IntegerKind::LongLong,
            IntegerType::UnsignedLongLong => IntegerKind::UnsignedLongLong,
        }
    }

    /// The value that a word, the N bits of an object, is in the type (C99 6.2.6.2); a `_Bool` of another word than 0
    /// is 1.
    pub fn value_of_word(self, word: u64) -> i128
        requires { word < 2 ^ spec.bits_of self }
        ensures value { result ≡ spec.value_of_word self word }
        ensures low { negsuc (2 ^ 63 - 1) ≤ℤ result }
        ensures high { result ≤ℤ pos (2 ^ 64 - 1) }
        ensures signed { spec.is_signed self ≡ true → result ≤ℤ pos (2 ^ 63 - 1) }
        ensures unsigned { spec.is_signed self ≡ false → pos 0 ≤ℤ result }
    {
        if matches!(self, IntegerKind::Bool) {
            i128::from(word != 0)
        } else if self.is_signed() {
            i128::from(to_signed(word, self.width()))
        } else {
            i128::from(word)
        }
    }

    /// What `convert` answers, with the bounds of all types, for the operators.
    #[tactic(auto, unfolding(crate::specs::Integers::converted))]
    pub(crate) fn operand(self, value: i128) -> i128
        ensures value { result ≡ spec.converted self value }
        ensures low { negsuc (2 ^ 63 - 1) ≤ℤ result }
        ensures high { result ≤ℤ pos (2 ^ 64 - 1) }
        ensures signed { spec.is_signed self ≡ true → result ≤ℤ pos (2 ^ 63 - 1) }
        ensures unsigned { spec.is_signed self ≡ false → pos 0 ≤ℤ result }
    {
        if matches!(self, IntegerKind::Bool) {
            i128::from(value != 0)
        } else {
            self.value_of_word(wrap(value, self.width()))
        }
    }

    /// The value of the type to which a number is converted (C99 6.3.1.2, 6.3.1.3): modulo 2^N, or for `_Bool` whether
    /// it isn't 0. A value of the type is itself.
    #[tactic(auto, using(crate::proofs::Values::converted_same, crate::proofs::Values::converted_within))]
    pub fn convert(self, value: i128) -> i128
        ensures value { result ≡ spec.converted self value }
        ensures same { spec.is_in self value ≡ true → result ≡ value }
        ensures within { spec.is_in self result ≡ true }
    {
        self.operand(value)
    }
}

fn higher(a: IntegerKind, b: IntegerKind) -> IntegerKind
    ensures { result ≡ spec.higher a b }
{
    if a.rank() < b.rank() { b } else { a }
}

fn mixed(signed: IntegerKind, unsigned: IntegerKind) -> IntegerKind
    ensures { result ≡ spec.mixed signed unsigned }
{
    if signed.rank() <= unsigned.rank() {
        unsigned
    } else if signed.represents(unsigned) {
        signed
    } else {
        signed.to_unsigned()
    }
}

fn common(a: IntegerKind, b: IntegerKind) -> IntegerKind
    ensures { result ≡ spec.common a b }
{
    match (a.is_signed(), b.is_signed()) {
        (true, false) => mixed(a, b),
        (false, true) => mixed(b, a),
        _ => higher(a, b),
    }
}
