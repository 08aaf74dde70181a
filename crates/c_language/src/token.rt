ghost use Rattle.std.specs.Prelude.{◌≡◌, slice_get};
ghost use Rattle.std.specs.Option.{option_copied};

use plain_data::{Bytes, Items, Shared};

/// An identifier's bytes. Equal names of one source share one allocation.
pub type Name = Shared<Bytes>;

/// Where a byte stands: a file by its number among the source's file names, and the physical line and
/// the byte's position in it, both counted from 1.
#[derive(Clone, Copy, PartialEq, Eq)]
pub struct Place {
    pub file: u32,
    pub line: u32,
    pub column: u32,
}

/// A keyword (C99 6.4.1), however it is spelled, a floating type name of TS 18661-3, or the opaque type of
/// variable argument lists.
#[derive(Clone, Copy, Debug, PartialEq, Eq)]
pub enum Keyword {
    Auto,
    Break,
    Case,
    Char,
    Const,
    Continue,
    Default,
    Do,
    Double,
    Else,
    Enum,
    Extern,
    Float,
    For,
    Goto,
    If,
    Inline,
    Int,
    Long,
    Register,
    Restrict,
    Return,
    Short,
    Signed,
    Sizeof,
    Static,
    Struct,
    Switch,
    Typedef,
    Union,
    Unsigned,
    Void,
    Volatile,
    While,
    Bool,
    Complex,
    Imaginary,
    /// The keyword of GNU C that names an assembler symbol.
    Asm,
    Float32,
    Float64,
    Float32x,
    Float64x,
    Float128,
    /// `__builtin_va_list`.
    VaList,
}

/// A punctuator (C99 6.4.6), however it is spelled.
#[derive(Clone, Copy, Debug, PartialEq, Eq)]
pub enum Punctuator {
    LeftBracket,
    RightBracket,
    LeftParen,
    RightParen,
    LeftBrace,
    RightBrace,
    Dot,
    Arrow,
    PlusPlus,
    MinusMinus,
    Ampersand,
    Star,
    Plus,
    Minus,
    Tilde,
    Exclamation,
    Slash,
    Percent,
    ShiftLeft,
    ShiftRight,
    Less,
    Greater,
    LessEqual,
    GreaterEqual,
    EqualEqual,
    ExclamationEqual,
    Caret,
    Bar,
    AmpersandAmpersand,
    BarBar,
    Question,
    Colon,
    Semicolon,
    Ellipsis,
    Equal,
    StarEqual,
    SlashEqual,
    PercentEqual,
    PlusEqual,
    MinusEqual,
    ShiftLeftEqual,
    ShiftRightEqual,
    AmpersandEqual,
    CaretEqual,
    BarEqual,
    Comma,
    Hash,
    HashHash,
}

/// The types that an integer constant may have (C99 6.4.4.1).
#[derive(Clone, Copy, Debug, PartialEq, Eq)]
pub enum IntegerType {
    Int,
    Unsigned,
    Long,
    UnsignedLong,
    LongLong,
    UnsignedLongLong,
}

/// What an integer constant says (C99 6.4.4.1).
#[derive(Clone, Copy, PartialEq, Eq)]
pub struct IntegerConstant {
    pub value: u64,
    pub integer_type: IntegerType,
}

/// What a token means.
#[derive(PartialEq, Drop)]
pub enum TokenKind {
    Identifier(Name),
    Keyword(Keyword),
    Punctuator(Punctuator),
    Integer(IntegerConstant),
    /// A floating constant (C99 6.4.4.2), whose value no rule uses.
    Floating,
    /// A character constant's value, of type int.
    Character(i32),
    /// The bytes of one string literal, without the ending NUL.
    StringLiteral(Shared<Bytes>),
    /// A character constant with the prefix `L`, which no rule uses.
    WideCharacter,
    /// A string literal with the prefix `L`, which no rule uses.
    WideString,
    /// `__func__`.
    FunctionName,
}

/// A token: what it means, the bytes that it takes of the source, from `start` to before `end`, and
/// where it stands.
#[derive(PartialEq, Drop)]
pub struct Token {
    pub kind: TokenKind,
    pub start: u32,
    pub end: u32,
    pub place: Place,
}

/// A source's tokens in order, and the names of its files: the source's own, and then the name of each
/// line marker.
#[derive(Drop)]
pub struct Tokens {
    pub files: Items<Name>,
    pub tokens: Items<Token>,
}

impl Tokens {
    /// The tokens in order.
    pub fn as_slice(&self) -> &[Token]
        ensures { result.now ≡ self.now.tokens }
    {
        self.tokens.as_slice()
    }

    /// The name of the file that has this number in a token's place.
    pub fn file(&self, number: u32) -> Option<&[u8]>
        ensures { option_copied result ≡ slice_get self.now.files number }
    {
        match self.files.get(number as usize) {
            Some(name) => Some(name.get().as_slice()),
            None => None,
        }
    }
}

/// Where a byte stands: the name of its file, its physical line, and its position in that line, both
/// counted from 1.
#[derive(PartialEq, Drop)]
pub struct Spot {
    pub file: Bytes,
    pub line: u32,
    pub column: u32,
}
