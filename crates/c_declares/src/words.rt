//! Type specifiers that are words (C99 6.7.2p2): which type they name together, in any order.

ghost use Rattle.std.specs.Prelude.{◌≡◌, ◌∷◌, cond, MatchOption};
ghost use Rattle.std.specs.List.{list_any, count_by};
ghost use Rattle.c_language.specs.Types.{basic};
ghost use Rattle.c_language.specs.Declares as spec;

use c_language::{Base, CType, Domain, FloatingKind, IntegerKind, RealKind, TypeWord};
use std::alloc::Global;

fn has_char(words: &[TypeWord]) -> bool
    ensures { result ≡ list_any spec.is_char words.now }
{
    words.iter().any(|word| matches!(word, TypeWord::Char))
}

fn has_short(words: &[TypeWord]) -> bool
    ensures { result ≡ list_any spec.is_short words.now }
{
    words.iter().any(|word| matches!(word, TypeWord::Short))
}

fn has_long(words: &[TypeWord]) -> bool
    ensures { result ≡ list_any spec.is_long words.now }
{
    words.iter().any(|word| matches!(word, TypeWord::Long))
}

fn has_signed(words: &[TypeWord]) -> bool
    ensures { result ≡ list_any spec.is_signed words.now }
{
    words.iter().any(|word| matches!(word, TypeWord::Signed))
}

fn has_unsigned(words: &[TypeWord]) -> bool
    ensures { result ≡ list_any spec.is_unsigned words.now }
{
    words.iter().any(|word| matches!(word, TypeWord::Unsigned))
}

fn has_complex(words: &[TypeWord]) -> bool
    ensures { result ≡ list_any spec.is_complex words.now }
{
    words.iter().any(|word| matches!(word, TypeWord::Complex))
}

fn has_imaginary(words: &[TypeWord]) -> bool
    ensures { result ≡ list_any spec.is_imaginary words.now }
{
    words.iter().any(|word| matches!(word, TypeWord::Imaginary))
}

/// How often `long` stands.
fn longs(words: &[TypeWord]) -> usize
    ensures { result ≡ count_by spec.is_long words.now }
{
    words
        .iter()
        .filter(|word| matches!(word, TypeWord::Long))
        .count()
}

/// `char`, `signed char`, `unsigned char`.
fn char_kind(signed: bool, unsigned: bool) -> IntegerKind
    ensures { result ≡ spec.char_kind signed unsigned }
{
    if unsigned {
        IntegerKind::UnsignedChar
    } else if signed {
        IntegerKind::SignedChar
    } else {
        IntegerKind::Char
    }
}

fn short_kind(unsigned: bool) -> IntegerKind
    ensures { result ≡ spec.short_kind unsigned }
{
    if unsigned {
        IntegerKind::UnsignedShort
    } else {
        IntegerKind::Short
    }
}

/// `int`, `long`, `long long`, by how often `long` stands.
fn wide_kind(longs: usize) -> IntegerKind
    ensures { result ≡ spec.wide_kind longs }
{
    match longs {
        0 => IntegerKind::Int,
        1 => IntegerKind::Long,
        _ => IntegerKind::LongLong,
    }
}

fn unsigned_wide_kind(longs: usize) -> IntegerKind
    ensures { result ≡ spec.unsigned_wide_kind longs }
{
    match longs {
        0 => IntegerKind::UnsignedInt,
        1 => IntegerKind::UnsignedLong,
        _ => IntegerKind::UnsignedLongLong,
    }
}

/// The integer type of words: whether `char`, `signed`, `unsigned` and `short` stand, and how often `long`.
fn kind_by(
    is_char: bool,
    is_signed: bool,
    is_unsigned: bool,
    is_short: bool,
    longs: usize,
) -> IntegerKind
    ensures { result ≡ cond is_char (spec.char_kind is_signed is_unsigned) (cond is_short (spec.short_kind is_unsigned) (cond is_unsigned (spec.unsigned_wide_kind longs) (spec.wide_kind longs))) }
{
    if is_char {
        char_kind(is_signed, is_unsigned)
    } else if is_short {
        short_kind(is_unsigned)
    } else if is_unsigned {
        unsigned_wide_kind(longs)
    } else {
        wide_kind(longs)
    }
}

fn integer_kind(words: &[TypeWord]) -> IntegerKind
    ensures { result ≡ spec.integer_kind words.now }
{
    kind_by(
        has_char(words),
        has_signed(words),
        has_unsigned(words),
        has_short(words),
        longs(words),
    )
}

fn domain_by(is_complex: bool, is_imaginary: bool) -> Domain
    ensures { result ≡ cond is_complex Domain.Complex (cond is_imaginary Domain.Imaginary Domain.Real) }
{
    if is_complex {
        Domain::Complex
    } else if is_imaginary {
        Domain::Imaginary
    } else {
        Domain::Real
    }
}

fn domain_of(words: &[TypeWord]) -> Domain
    ensures { result ≡ spec.domain_of words.now }
{
    domain_by(has_complex(words), has_imaginary(words))
}

fn double_kind(long: bool) -> RealKind
    ensures { result ≡ spec.double_kind long }
{
    if long {
        RealKind::LongDouble
    } else {
        RealKind::Double
    }
}

fn long_or_double(words: &[TypeWord]) -> RealKind
    ensures { result ≡ spec.double_kind (spec.has spec.is_long words.now) }
{
    double_kind(has_long(words))
}

fn floating(words: &[TypeWord], real: RealKind) -> Base
    ensures { basic result ≡ spec.a_floating words.now real }
{
    Base::Floating(FloatingKind {
        real,
        domain: domain_of(words),
    })
}

/// The type of a word that is no part of an integer type's name.
fn whole(words: &[TypeWord], word: TypeWord) -> Option<Base>
    ensures { MatchOption result ((rest : _) → spec.type_by words.now (word ∷ rest) ≡ spec.type_by words.now rest) (λ base. (rest : _) → spec.type_by words.now (word ∷ rest) ≡ basic base) }
{
    match word {
        TypeWord::Void => Some(Base::Void),
        TypeWord::Bool => Some(Base::Integer(IntegerKind::Bool)),
        TypeWord::VaList => Some(Base::VaList),
        TypeWord::Float => Some(floating(words, RealKind::Float)),
        TypeWord::Double => Some(floating(words, long_or_double(words))),
        TypeWord::Float32 => Some(floating(words, RealKind::Float32)),
        TypeWord::Float64 => Some(floating(words, RealKind::Float64)),
        TypeWord::Float32x => Some(floating(words, RealKind::Float32x)),
        TypeWord::Float64x => Some(floating(words, RealKind::Float64x)),
        TypeWord::Float128 => Some(floating(words, RealKind::Float128)),
        TypeWord::Char => None,
        TypeWord::Short => None,
        TypeWord::Int => None,
        TypeWord::Long => None,
        TypeWord::Signed => None,
        TypeWord::Unsigned => None,
        TypeWord::Complex => None,
        TypeWord::Imaginary => None,
    }
}

/// The type that all words name. It takes no memory.
pub(crate) fn type_of_words(alloc: Global, words: &[TypeWord]) -> CType
    ensures { result ≡ spec.type_of_words words.now }
{
    for word in words {
        match whole(words, *word) {
            Some(base) => return CType::basic(alloc, base),
            None => {}
        }
    }
    CType::basic(alloc, Base::Integer(integer_kind(words)))
}
