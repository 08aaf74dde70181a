//! Expressions (C99 6.5), and the types that stand in them (C99 6.7).

use crate::{IntegerConstant, Name};
use plain_data::{Bytes, Items, Shared};

/// A unary operator (C99 6.5.3).
#[derive(Clone, Copy, PartialEq, Eq)]
pub enum UnaryOperator {
    Address,
    Indirection,
    Plus,
    Minus,
    Complement,
    Not,
    Increment,
    Decrement,
}

/// A postfix operator without operand of its own (C99 6.5.2.4).
#[derive(Clone, Copy, PartialEq, Eq)]
pub enum PostfixOperator {
    Increment,
    Decrement,
}

/// A binary operator (C99 6.5.5 to 6.5.14).
#[derive(Clone, Copy, PartialEq, Eq)]
pub enum BinaryOperator {
    Multiply,
    Divide,
    Remainder,
    Add,
    Subtract,
    ShiftLeft,
    ShiftRight,
    Less,
    Greater,
    LessEqual,
    GreaterEqual,
    Equal,
    NotEqual,
    BitAnd,
    BitXor,
    BitOr,
    LogicalAnd,
    LogicalOr,
}

/// A storage-class specifier (C99 6.7.1).
#[derive(Clone, Copy, PartialEq, Eq)]
pub enum StorageClass {
    Typedef,
    Extern,
    Static,
    Auto,
    Register,
}

/// A type qualifier (C99 6.7.3).
#[derive(Clone, Copy, PartialEq, Eq)]
pub enum Qualifier {
    Const,
    Restrict,
    Volatile,
}

/// A type specifier that is one word (C99 6.7.2), a floating type of TS 18661-3, or the opaque type of variable
/// argument lists.
#[derive(Clone, Copy, PartialEq, Eq)]
pub enum TypeWord {
    Void,
    Char,
    Short,
    Int,
    Long,
    Float,
    Double,
    Signed,
    Unsigned,
    Bool,
    Complex,
    Imaginary,
    Float32,
    Float64,
    Float32x,
    Float64x,
    Float128,
    VaList,
}

/// Whether a type with members is a structure or a union (C99 6.7.2.1).
#[derive(Clone, Copy, PartialEq, Eq)]
pub enum AggregateKind {
    Struct,
    Union,
}

/// A word between the brackets of an array declarator (C99 6.7.5.2).
#[derive(Clone, Copy, PartialEq, Eq)]
pub enum ArrayWord {
    Qualifier(Qualifier),
    Static,
}

/// The tag of a structure, union or enumeration (C99 6.7.2.3), by the byte offset of its own token.
#[derive(Drop)]
pub struct TagName {
    pub at: u32,
    pub name: Name,
}

/// An expression. Each `at` is the byte offset of a token: of the operator, of `[`, of the `(` of a call, of
/// `sizeof`, of the `(` of a cast or of a group, and else of the expression's only or first token.
#[cycle(syntax)]
#[derive(Drop)]
pub enum Expr {
    /// An integer constant (C99 6.4.4.1).
    Integer {
        at: u32,
        constant: IntegerConstant,
    },
    /// A floating constant (C99 6.4.4.2), whose value no rule uses.
    Floating {
        at: u32,
    },
    /// A character constant (C99 6.4.4.4), by its value.
    Character {
        at: u32,
        value: i32,
    },
    /// Adjacent string literals (C99 6.4.5), each by the bytes that it stands for; there is one at least.
    StringLiteral {
        at: u32,
        pieces: Items<Shared<Bytes>>,
    },
    /// `__func__` (C99 6.4.2.2).
    FunctionName {
        at: u32,
    },
    /// A name of an object, a function or an enumeration constant (C99 6.5.1).
    Identifier {
        at: u32,
        name: Name,
    },
    /// An expression in parentheses (C99 6.5.1).
    Parenthesized {
        at: u32,
        inner: Shared<Expr>,
    },
    /// `array[index]` (C99 6.5.2.1).
    Subscript {
        at: u32,
        array: Shared<Expr>,
        index: Shared<Expr>,
    },
    /// `callee(arguments)` (C99 6.5.2.2).
    Call {
        at: u32,
        callee: Shared<Expr>,
        arguments: Items<Shared<Expr>>,
    },
    /// `object.member` (C99 6.5.2.3).
    Member {
        at: u32,
        object: Shared<Expr>,
        member: Name,
    },
    /// `pointer->member` (C99 6.5.2.3).
    Arrow {
        at: u32,
        pointer: Shared<Expr>,
        member: Name,
    },
    /// `operand++` or `operand--` (C99 6.5.2.4).
    Postfix {
        at: u32,
        operator: PostfixOperator,
        operand: Shared<Expr>,
    },
    /// A unary operator and its operand (C99 6.5.3.1 to 6.5.3.3).
    Unary {
        at: u32,
        operator: UnaryOperator,
        operand: Shared<Expr>,
    },
    /// `sizeof operand` (C99 6.5.3.4).
    SizeofExpr {
        at: u32,
        operand: Shared<Expr>,
    },
    /// `sizeof (type)` (C99 6.5.3.4).
    SizeofType {
        at: u32,
        type_name: Shared<TypeName>,
    },
    /// `(type)operand` (C99 6.5.4).
    Cast {
        at: u32,
        type_name: Shared<TypeName>,
        operand: Shared<Expr>,
    },
    /// A binary operator and its operands (C99 6.5.5 to 6.5.14).
    Binary {
        at: u32,
        operator: BinaryOperator,
        left: Shared<Expr>,
        right: Shared<Expr>,
    },
    /// `condition ? positive : negative` (C99 6.5.15).
    Conditional {
        at: u32,
        condition: Shared<Expr>,
        positive: Shared<Expr>,
        negative: Shared<Expr>,
    },
    /// `target = value` or, with an operator, `target op= value` (C99 6.5.16).
    Assign {
        at: u32,
        operator: Option<BinaryOperator>,
        target: Shared<Expr>,
        value: Shared<Expr>,
    },
    /// `left, right` (C99 6.5.17).
    Comma {
        at: u32,
        left: Shared<Expr>,
        right: Shared<Expr>,
    },
}

/// A type name (C99 6.7.6): the declarator is without a name, and `Omitted` where there is none.
#[cycle(syntax)]
#[derive(Drop)]
pub struct TypeName {
    pub specifiers: Items<Shared<Specifier>>,
    pub declarator: Shared<Declarator>,
}

/// A declaration specifier (C99 6.7 to 6.7.4). Each `at` is the byte offset of its first token.
#[cycle(syntax)]
#[derive(Drop)]
pub enum Specifier {
    Storage {
        at: u32,
        class: StorageClass,
    },
    Qualifier {
        at: u32,
        qualifier: Qualifier,
    },
    Inline {
        at: u32,
    },
    Word {
        at: u32,
        word: TypeWord,
    },
    /// A typedef name (C99 6.7.7).
    Typedef {
        at: u32,
        name: Name,
    },
    /// `struct tag` or `union tag` without members (C99 6.7.2.3).
    Tag {
        at: u32,
        kind: AggregateKind,
        tag: TagName,
    },
    /// A structure or union with its members (C99 6.7.2.1).
    Aggregate {
        at: u32,
        kind: AggregateKind,
        tag: Option<TagName>,
        members: Items<Shared<MemberDeclaration>>,
    },
    /// `enum tag` without enumerators (C99 6.7.2.3).
    EnumTag {
        at: u32,
        tag: TagName,
    },
    /// An enumeration with its enumerators, one at least (C99 6.7.2.2), and whether a comma follows the last.
    Enumeration {
        at: u32,
        tag: Option<TagName>,
        enumerators: Items<Shared<Enumerator>>,
        trailing: bool,
    },
}

/// A declaration of members (C99 6.7.2.1).
#[cycle(syntax)]
#[derive(Drop)]
pub struct MemberDeclaration {
    pub specifiers: Items<Shared<Specifier>>,
    pub fields: Items<Shared<Field>>,
}

/// What a member declaration says of one member (C99 6.7.2.1).
#[cycle(syntax)]
#[derive(Drop)]
pub enum Field {
    Plain {
        declarator: Shared<Declarator>,
    },
    /// A bit-field, by the offset of its `:`; one without a name has no declarator.
    Bits {
        at: u32,
        declarator: Option<Shared<Declarator>>,
        width: Shared<Expr>,
    },
}

/// An enumeration constant's name, by its offset, and its value where one is given (C99 6.7.2.2).
#[cycle(syntax)]
#[derive(Drop)]
pub struct Enumerator {
    pub at: u32,
    pub name: Name,
    pub value: Option<Shared<Expr>>,
}

/// What a declaration says of one name (C99 6.7.5), or of a type without one (C99 6.7.6). Each `at` is the
/// byte offset of the name, of `*`, of the `(` of a group or of parameters, or of `[`; each `inner` is the declarator
/// that stands nearer to the name.
#[cycle(syntax)]
#[derive(Drop)]
pub enum Declarator {
    /// The name that is declared.
    Name {
        at: u32,
        name: Name,
    },
    /// Where an abstract declarator has no name.
    Omitted,
    /// A declarator in parentheses.
    Grouped {
        at: u32,
        inner: Shared<Declarator>,
    },
    /// A pointer (C99 6.7.5.1).
    Pointer {
        at: u32,
        qualifiers: Items<Qualifier>,
        inner: Shared<Declarator>,
    },
    /// An array (C99 6.7.5.2).
    Array {
        at: u32,
        inner: Shared<Declarator>,
        words: Items<ArrayWord>,
        length: Option<Shared<Expr>>,
    },
    /// A function (C99 6.7.5.3); it has no prototype where it has no parameters.
    Function {
        at: u32,
        inner: Shared<Declarator>,
        parameters: Items<Shared<Parameter>>,
        variadic: bool,
    },
}

/// A parameter (C99 6.7.5.3): the declarator may be without a name.
#[cycle(syntax)]
#[derive(Drop)]
pub struct Parameter {
    pub specifiers: Items<Shared<Specifier>>,
    pub declarator: Shared<Declarator>,
}
