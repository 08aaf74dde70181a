//! How the words and operators of the tree are spelled.
use c_language::{
    AggregateKind, ArrayWord, BinaryOperator, IntegerType, PostfixOperator, Qualifier,
    StorageClass, TypeWord, UnaryOperator,
};

pub fn unary(operator: UnaryOperator) -> &'static str {
    match operator {
        UnaryOperator::Address => "&",
        UnaryOperator::Indirection => "*",
        UnaryOperator::Plus => "+",
        UnaryOperator::Minus => "-",
        UnaryOperator::Complement => "~",
        UnaryOperator::Not => "!",
        UnaryOperator::Increment => "++",
        UnaryOperator::Decrement => "--",
    }
}

pub fn postfix(operator: PostfixOperator) -> &'static str {
    match operator {
        PostfixOperator::Increment => "++",
        PostfixOperator::Decrement => "--",
    }
}

pub fn binary(operator: BinaryOperator) -> &'static str {
    match operator {
        BinaryOperator::Multiply => "*",
        BinaryOperator::Divide => "/",
        BinaryOperator::Remainder => "%",
        BinaryOperator::Add => "+",
        BinaryOperator::Subtract => "-",
        BinaryOperator::ShiftLeft => "<<",
        BinaryOperator::ShiftRight => ">>",
        BinaryOperator::Less => "<",
        BinaryOperator::Greater => ">",
        BinaryOperator::LessEqual => "<=",
        BinaryOperator::GreaterEqual => ">=",
        BinaryOperator::Equal => "==",
        BinaryOperator::NotEqual => "!=",
        BinaryOperator::BitAnd => "&",
        BinaryOperator::BitXor => "^",
        BinaryOperator::BitOr => "|",
        BinaryOperator::LogicalAnd => "&&",
        BinaryOperator::LogicalOr => "||",
    }
}

pub fn storage(class: StorageClass) -> &'static str {
    match class {
        StorageClass::Typedef => "typedef",
        StorageClass::Extern => "extern",
        StorageClass::Static => "static",
        StorageClass::Auto => "auto",
        StorageClass::Register => "register",
    }
}

pub fn qualifier(qualifier: Qualifier) -> &'static str {
    match qualifier {
        Qualifier::Const => "const",
        Qualifier::Restrict => "restrict",
        Qualifier::Volatile => "volatile",
    }
}

pub fn array_word(word: ArrayWord) -> &'static str {
    match word {
        ArrayWord::Qualifier(word) => qualifier(word),
        ArrayWord::Static => "static",
    }
}

pub fn type_word(word: TypeWord) -> &'static str {
    match word {
        TypeWord::Void => "void",
        TypeWord::Char => "char",
        TypeWord::Short => "short",
        TypeWord::Int => "int",
        TypeWord::Long => "long",
        TypeWord::Float => "float",
        TypeWord::Double => "double",
        TypeWord::Signed => "signed",
        TypeWord::Unsigned => "unsigned",
        TypeWord::Bool => "_Bool",
        TypeWord::Complex => "_Complex",
        TypeWord::Imaginary => "_Imaginary",
        TypeWord::Float32 => "_Float32",
        TypeWord::Float64 => "_Float64",
        TypeWord::Float32x => "_Float32x",
        TypeWord::Float64x => "_Float64x",
        TypeWord::Float128 => "_Float128",
        TypeWord::VaList => "__builtin_va_list",
    }
}

pub fn aggregate(kind: AggregateKind) -> &'static str {
    match kind {
        AggregateKind::Struct => "struct",
        AggregateKind::Union => "union",
    }
}

/// The type of an integer constant, where it isn't `int`.
pub fn integer_type(integer_type: IntegerType) -> Option<&'static str> {
    match integer_type {
        IntegerType::Int => None,
        IntegerType::Unsigned => Some("unsigned"),
        IntegerType::Long => Some("long"),
        IntegerType::UnsignedLong => Some("unsigned-long"),
        IntegerType::LongLong => Some("long-long"),
        IntegerType::UnsignedLongLong => Some("unsigned-long-long"),
    }
}
