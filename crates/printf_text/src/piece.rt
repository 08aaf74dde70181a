use plain_data::{Bytes, Items, Width};

/// The flags of a conversion (C99 7.19.6.1p6).
#[derive(Clone, Copy, PartialEq, Eq)]
pub struct Flags {
    /// `-`: the text stands at the field's left.
    pub left: bool,
    /// `+`: a signed number that isn't negative has a `+`.
    pub plus: bool,
    /// A space: a signed number that isn't negative has a space, unless it has a `+`.
    pub space: bool,
    /// `#`: an octal number begins with 0, and a hexadecimal one other than 0 with `0x` or `0X`.
    pub alternate: bool,
    /// `0`: zeros in place of spaces fill the field.
    pub zero: bool,
}

/// A field's width, or a precision.
#[derive(Clone, Copy, PartialEq, Eq)]
pub enum Size {
    /// None is written.
    Omitted,
    /// The number that is written.
    Written(u32),
    /// `*`: the next argument, converted to `int`.
    Star,
}

/// How an unsigned number is written.
#[derive(Clone, Copy, PartialEq, Eq)]
pub enum Radix {
    /// `u`.
    Decimal,
    /// `o`.
    Octal,
    /// `x`.
    LowerHex,
    /// `X`.
    UpperHex,
}

/// What a conversion makes of its argument.
#[derive(Clone, Copy, PartialEq, Eq)]
pub enum Form {
    /// `d` or `i`, of the width that the length gives.
    Signed(Width),
    /// `u`, `o`, `x` or `X`, of the width that the length gives.
    Unsigned(Radix, Width),
    /// `c`.
    Char,
    /// `s`.
    Text,
    /// `p`.
    Pointer,
}

/// A conversion specification other than `%%`.
#[derive(Clone, Copy, PartialEq, Eq)]
pub struct Conversion {
    /// The flags.
    pub flags: Flags,
    /// The least number of bytes.
    pub width: Size,
    /// The least number of digits, or the greatest number of a text's bytes.
    pub precision: Size,
    /// What is made of the argument.
    pub form: Form,
}

/// A part of a format.
#[derive(Drop)]
pub enum Piece {
    /// Bytes that stand for themselves; `%%` is the byte `%`.
    Literal(Bytes),
    /// A conversion of arguments.
    Converted(Conversion),
}

/// The parts of a format, in order.
pub type Pieces = Items<Piece>;

/// An argument of a format.
#[derive(Drop)]
pub enum Arg {
    /// An integer: its bits, and the type that it has.
    Word {
        /// The bits, below 2^N.
        bits: u64,
        /// How many bits the type has.
        width: Width,
        /// Whether the type is signed.
        signed: bool,
    },
    /// A text, which holds no byte 0: what stands before the first one in memory, or as much of it
    /// as the precision asks for.
    Text(Bytes),
    /// A null pointer.
    Null,
    /// A pointer that isn't null, by the number that is printed for it, which isn't 0.
    Shown(u64),
}

/// The arguments of a format, in order.
pub type Args = Items<Arg>;
