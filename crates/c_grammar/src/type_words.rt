//! Which type specifiers may stand together (C99 6.7.2).
ghost use Rattle.std.specs.Prelude.{◌≡◌};
ghost use Rattle.c_grammar.specs.TypeWords as spec;

use c_language::TypeWord;

/// What a declaration specifier says of the type.
#[derive(Clone, Copy, PartialEq, Eq)]
pub enum TypeKind {
    /// Nothing: it is a storage class, a qualifier or `inline`.
    NoType,
    /// It is a word, which may stand with others.
    Word(TypeWord),
    /// It is a structure, a union, an enumeration or a typedef name.
    Whole,
}

/// How many type specifiers of each group stand together, each counted up to 3.
#[derive(Clone, Copy, PartialEq, Eq)]
pub struct TypeWords {
    /// Types that stand alone: `void`, `_Bool`, `__builtin_va_list`, and what is no word.
    pub alone: u32,
    pub char: u32,
    pub short: u32,
    pub int: u32,
    pub long: u32,
    /// `signed` and `unsigned`.
    pub sign: u32,
    pub float: u32,
    pub double: u32,
    /// `_Complex` and `_Imaginary`.
    pub complex: u32,
    /// `_Float32`, which a C library's headers declare as `float` where the compiler has none.
    pub float32: u32,
    /// `_Float64` and `_Float32x`, which they declare as `double`.
    pub float64: u32,
    /// `_Float64x`, which they declare as `long double`.
    pub float64x: u32,
    pub float128: u32,
}

fn more(count: u32) -> u32
    ensures { result ≡ spec.more count }
{
    if count < 3 { count + 1 } else { 3 }
}

impl TypeWords {
    /// None.
    pub fn new() -> TypeWords
        ensures { result ≡ spec.none }
    {
        TypeWords {
            alone: 0,
            char: 0,
            short: 0,
            int: 0,
            long: 0,
            sign: 0,
            float: 0,
            double: 0,
            complex: 0,
            float32: 0,
            float64: 0,
            float64x: 0,
            float128: 0,
        }
    }

    /// These, and one more.
    pub fn with(self, kind: TypeKind) -> TypeWords
        ensures { result ≡ spec.with_kind self kind }
    {
        let mut words = self;
        match kind {
            TypeKind::NoType => {}
            TypeKind::Whole => words.alone = more(words.alone),
            TypeKind::Word(word) => match word {
                TypeWord::Void | TypeWord::Bool | TypeWord::VaList => words.alone = more(
                    words.alone,
                ),
                TypeWord::Char => words.char = more(words.char),
                TypeWord::Short => words.short = more(words.short),
                TypeWord::Int => words.int = more(words.int),
                TypeWord::Long => words.long = more(words.long),
                TypeWord::Signed | TypeWord::Unsigned => words.sign = more(words.sign),
                TypeWord::Double => words.double = more(words.double),
                TypeWord::Complex | TypeWord::Imaginary => words.complex = more(words.complex),
                TypeWord::Float => words.float = more(words.float),
                TypeWord::Float32 => words.float32 = more(words.float32),
                TypeWord::Float64 | TypeWord::Float32x => words.float64 = more(words.float64),
                TypeWord::Float64x => words.float64x = more(words.float64x),
                TypeWord::Float128 => words.float128 = more(words.float128),
            },
        }
        words
    }

    /// Whether they are one type.
    pub fn is_allowed(&self) -> bool
        ensures { result ≡ spec.is_allowed self.now }
    {
        self.is_integer() || self.is_whole() || self.is_char() || self.is_floating()
    }

    fn has_no_integer(&self) -> bool
        ensures { result ≡ spec.has_no_integer self.now }
    {
        self.char == 0 && self.short == 0 && self.int == 0 && self.sign == 0
    }

    fn has_no_interchange(&self) -> bool
        ensures { result ≡ spec.has_no_interchange self.now }
    {
        self.float32 == 0 && self.float64 == 0 && self.float64x == 0 && self.float128 == 0
    }

    fn has_no_floating(&self) -> bool
        ensures { result ≡ spec.has_no_floating self.now }
    {
        self.float == 0 && self.double == 0 && self.complex == 0 && self.has_no_interchange()
    }

    fn is_integer(&self) -> bool
        ensures { result ≡ spec.is_integer self.now }
    {
        self.alone == 0
            && self.char == 0
            && self.has_no_floating()
            && self.sign <= 1
            && self.int <= 1
            && ((self.short <= 1 && self.long == 0) || (self.short == 0 && self.long <= 2))
            && !(self.sign == 0 && self.int == 0 && self.short == 0 && self.long == 0)
    }

    fn is_whole(&self) -> bool
        ensures { result ≡ spec.is_whole self.now }
    {
        self.alone == 1 && self.has_no_integer() && self.long == 0 && self.has_no_floating()
    }

    fn is_char(&self) -> bool
        ensures { result ≡ spec.is_char self.now }
    {
        self.char == 1
            && self.sign <= 1
            && self.alone == 0
            && self.short == 0
            && self.int == 0
            && self.long == 0
            && self.has_no_floating()
    }

    /// `float`, `double` or `long double`.
    fn is_standard(&self) -> bool
        ensures { result ≡ spec.is_standard self.now }
    {
        self.has_no_interchange()
            && ((self.float == 1 && self.double == 0 && self.long == 0)
                || (self.float == 0 && self.double == 1 && self.long <= 1))
    }

    /// One type of TS 18661-3.
    fn is_interchange(&self) -> bool
        ensures { result ≡ spec.is_interchange self.now }
    {
        let counts = (self.float32, self.float64, self.float64x, self.float128);
        self.float == 0
            && self.double == 0
            && self.long == 0
            && (counts == (1, 0, 0, 0)
                || counts == (0, 1, 0, 0)
                || counts == (0, 0, 1, 0)
                || counts == (0, 0, 0, 1))
    }

    /// A type of TS 18661-3 beside the type that a C library's headers declare it as.
    fn is_declared(&self) -> bool
        ensures { result ≡ spec.is_declared self.now }
    {
        let real = (self.float, self.double, self.long);
        let named = (self.float32, self.float64, self.float64x);
        self.complex == 0
            && self.float128 == 0
            && ((real == (1, 0, 0) && named == (1, 0, 0))
                || (real == (0, 1, 0) && named == (0, 1, 0))
                || (real == (0, 1, 1) && named == (0, 0, 1)))
    }

    fn is_floating(&self) -> bool
        ensures { result ≡ spec.is_floating self.now }
    {
        self.alone == 0
            && self.has_no_integer()
            && ((self.complex <= 1 && (self.is_standard() || self.is_interchange()))
                || self.is_declared())
    }
}
