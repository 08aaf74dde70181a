//! Which operator or word a token is.
ghost use Rattle.std.specs.Prelude.{◌≡◌, ◌≤◌, ◌<◌};
ghost use Rattle.c_grammar.specs.Operators as spec;
ghost use Rattle.c_grammar.specs.Spelling.{rank_of as rank_spec, operand_rank as operand_rank_spec};

use c_language::{
    AggregateKind, ArrayWord, BinaryOperator, Keyword, Punctuator, Qualifier, Specifier,
    StorageClass, TypeWord, UnaryOperator,
};

/// An operator between two operands.
#[derive(Clone, Copy, PartialEq, Eq)]
pub enum Infix {
    Binary(BinaryOperator),
    Assign(Option<BinaryOperator>),
}

/// The unary operator that a punctuator is before an operand (C99 6.5.3).
pub fn unary_of(mark: Punctuator) -> Option<UnaryOperator>
    ensures { result ≡ spec.unary_of mark }
{
    match mark {
        Punctuator::Ampersand => Some(UnaryOperator::Address),
        Punctuator::Star => Some(UnaryOperator::Indirection),
        Punctuator::Plus => Some(UnaryOperator::Plus),
        Punctuator::Minus => Some(UnaryOperator::Minus),
        Punctuator::Tilde => Some(UnaryOperator::Complement),
        Punctuator::Exclamation => Some(UnaryOperator::Not),
        Punctuator::PlusPlus => Some(UnaryOperator::Increment),
        Punctuator::MinusMinus => Some(UnaryOperator::Decrement),
        _ => None,
    }
}

/// The operator between two operands that a punctuator is (C99 6.5.5 to 6.5.16).
pub fn infix_of(mark: Punctuator) -> Option<Infix>
    ensures { result ≡ spec.infix_of mark }
{
    match mark {
        Punctuator::Star => Some(Infix::Binary(BinaryOperator::Multiply)),
        Punctuator::Slash => Some(Infix::Binary(BinaryOperator::Divide)),
        Punctuator::Percent => Some(Infix::Binary(BinaryOperator::Remainder)),
        Punctuator::Plus => Some(Infix::Binary(BinaryOperator::Add)),
        Punctuator::Minus => Some(Infix::Binary(BinaryOperator::Subtract)),
        Punctuator::ShiftLeft => Some(Infix::Binary(BinaryOperator::ShiftLeft)),
        Punctuator::ShiftRight => Some(Infix::Binary(BinaryOperator::ShiftRight)),
        Punctuator::Less => Some(Infix::Binary(BinaryOperator::Less)),
        Punctuator::Greater => Some(Infix::Binary(BinaryOperator::Greater)),
        Punctuator::LessEqual => Some(Infix::Binary(BinaryOperator::LessEqual)),
        Punctuator::GreaterEqual => Some(Infix::Binary(BinaryOperator::GreaterEqual)),
        Punctuator::EqualEqual => Some(Infix::Binary(BinaryOperator::Equal)),
        Punctuator::ExclamationEqual => Some(Infix::Binary(BinaryOperator::NotEqual)),
        Punctuator::Ampersand => Some(Infix::Binary(BinaryOperator::BitAnd)),
        Punctuator::Caret => Some(Infix::Binary(BinaryOperator::BitXor)),
        Punctuator::Bar => Some(Infix::Binary(BinaryOperator::BitOr)),
        Punctuator::AmpersandAmpersand => Some(Infix::Binary(BinaryOperator::LogicalAnd)),
        Punctuator::BarBar => Some(Infix::Binary(BinaryOperator::LogicalOr)),
        _ => assignment_of(mark),
    }
}

fn assignment_of(mark: Punctuator) -> Option<Infix>
    ensures { result ≡ spec.assignment_of mark }
{
    match mark {
        Punctuator::Equal => Some(Infix::Assign(None)),
        Punctuator::StarEqual => Some(Infix::Assign(Some(BinaryOperator::Multiply))),
        Punctuator::SlashEqual => Some(Infix::Assign(Some(BinaryOperator::Divide))),
        Punctuator::PercentEqual => Some(Infix::Assign(Some(BinaryOperator::Remainder))),
        Punctuator::PlusEqual => Some(Infix::Assign(Some(BinaryOperator::Add))),
        Punctuator::MinusEqual => Some(Infix::Assign(Some(BinaryOperator::Subtract))),
        Punctuator::ShiftLeftEqual => Some(Infix::Assign(Some(BinaryOperator::ShiftLeft))),
        Punctuator::ShiftRightEqual => Some(Infix::Assign(Some(BinaryOperator::ShiftRight))),
        Punctuator::AmpersandEqual => Some(Infix::Assign(Some(BinaryOperator::BitAnd))),
        Punctuator::CaretEqual => Some(Infix::Assign(Some(BinaryOperator::BitXor))),
        Punctuator::BarEqual => Some(Infix::Assign(Some(BinaryOperator::BitOr))),
        _ => None,
    }
}

/// How loosely a binary operator binds: from `*`, 4, to `||`, 13.
pub fn rank_of(operator: BinaryOperator) -> u32
    ensures rank { result ≡ rank_spec operator }
    ensures least { 3 < result }
    ensures most { result < 14 }
{
    match operator {
        BinaryOperator::Multiply | BinaryOperator::Divide | BinaryOperator::Remainder => 4,
        BinaryOperator::Add | BinaryOperator::Subtract => 5,
        BinaryOperator::ShiftLeft | BinaryOperator::ShiftRight => 6,
        BinaryOperator::Less
        | BinaryOperator::Greater
        | BinaryOperator::LessEqual
        | BinaryOperator::GreaterEqual => 7,
        BinaryOperator::Equal | BinaryOperator::NotEqual => 8,
        BinaryOperator::BitAnd => 9,
        BinaryOperator::BitXor => 10,
        BinaryOperator::BitOr => 11,
        BinaryOperator::LogicalAnd => 12,
        BinaryOperator::LogicalOr => 13,
    }
}

/// How loosely the operand of a unary operator may bind.
pub fn operand_rank(operator: UnaryOperator) -> u32
    ensures rank { result ≡ operand_rank_spec operator }
    ensures most { result ≤ 3 }
{
    match operator {
        UnaryOperator::Increment | UnaryOperator::Decrement => 2,
        _ => 3,
    }
}

/// How loosely the operator binds that a punctuator is behind an operand; 17 where it is none.
pub fn binding_of(mark: Punctuator) -> u32
    ensures { result ≡ spec.binding_of mark }
{
    match mark {
        Punctuator::LeftBracket
        | Punctuator::LeftParen
        | Punctuator::Dot
        | Punctuator::Arrow
        | Punctuator::PlusPlus
        | Punctuator::MinusMinus => 1,
        Punctuator::Question => 14,
        Punctuator::Comma => 16,
        _ => match infix_of(mark) {
            Some(Infix::Binary(operator)) => rank_of(operator),
            Some(Infix::Assign(_)) => 15,
            None => 17,
        },
    }
}

/// The qualifier that a keyword is (C99 6.7.3).
pub fn qualifier_of(keyword: Keyword) -> Option<Qualifier>
    ensures { result ≡ spec.qualifier_of keyword }
{
    match keyword {
        Keyword::Const => Some(Qualifier::Const),
        Keyword::Restrict => Some(Qualifier::Restrict),
        Keyword::Volatile => Some(Qualifier::Volatile),
        _ => None,
    }
}

/// The word between an array declarator's brackets that a keyword is (C99 6.7.5.2).
pub fn array_word_of(keyword: Keyword) -> Option<ArrayWord>
    ensures { result ≡ spec.array_word_of keyword }
{
    match keyword {
        Keyword::Static => Some(ArrayWord::Static),
        _ => match qualifier_of(keyword) {
            Some(qualifier) => Some(ArrayWord::Qualifier(qualifier)),
            None => None,
        },
    }
}

/// Whether a keyword begins a structure or a union (C99 6.7.2.1).
pub fn aggregate_of(keyword: Keyword) -> Option<AggregateKind>
    ensures { result ≡ spec.aggregate_of keyword }
{
    match keyword {
        Keyword::Struct => Some(AggregateKind::Struct),
        Keyword::Union => Some(AggregateKind::Union),
        _ => None,
    }
}

/// The storage class that a keyword is (C99 6.7.1).
pub fn class_of(keyword: Keyword) -> Option<StorageClass>
    ensures { result ≡ spec.class_of keyword }
{
    match keyword {
        Keyword::Typedef => Some(StorageClass::Typedef),
        Keyword::Extern => Some(StorageClass::Extern),
        Keyword::Static => Some(StorageClass::Static),
        Keyword::Auto => Some(StorageClass::Auto),
        Keyword::Register => Some(StorageClass::Register),
        _ => None,
    }
}

/// The type specifier that a keyword is by itself (C99 6.7.2).
pub fn type_word_of(keyword: Keyword) -> Option<TypeWord>
    ensures { result ≡ spec.type_word_of keyword }
{
    match keyword {
        Keyword::Void => Some(TypeWord::Void),
        Keyword::Char => Some(TypeWord::Char),
        Keyword::Short => Some(TypeWord::Short),
        Keyword::Int => Some(TypeWord::Int),
        Keyword::Long => Some(TypeWord::Long),
        Keyword::Float => Some(TypeWord::Float),
        Keyword::Double => Some(TypeWord::Double),
        Keyword::Signed => Some(TypeWord::Signed),
        Keyword::Unsigned => Some(TypeWord::Unsigned),
        Keyword::Bool => Some(TypeWord::Bool),
        Keyword::Complex => Some(TypeWord::Complex),
        Keyword::Imaginary => Some(TypeWord::Imaginary),
        Keyword::Float32 => Some(TypeWord::Float32),
        Keyword::Float64 => Some(TypeWord::Float64),
        Keyword::Float32x => Some(TypeWord::Float32x),
        Keyword::Float64x => Some(TypeWord::Float64x),
        Keyword::Float128 => Some(TypeWord::Float128),
        Keyword::VaList => Some(TypeWord::VaList),
        _ => None,
    }
}

/// The declaration specifier that a keyword at an offset is by itself (C99 6.7).
pub fn word_specifier(at: u32, keyword: Keyword) -> Option<Specifier>
    ensures { result ≡ spec.word_specifier at keyword }
{
    if keyword == Keyword::Inline {
        return Some(Specifier::Inline { at });
    }
    if let Some(class) = class_of(keyword) {
        return Some(Specifier::Storage { at, class });
    }
    if let Some(qualifier) = qualifier_of(keyword) {
        return Some(Specifier::Qualifier { at, qualifier });
    }
    match type_word_of(keyword) {
        Some(word) => Some(Specifier::Word { at, word }),
        None => None,
    }
}
