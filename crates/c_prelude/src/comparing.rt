//! The steps of the functions that look at texts: their parameters, the statements of their bodies, and the words of
//! their own types.

use crate::step::Step;
use c_language::{BinaryOperator, TypeWord, UnaryOperator};

/// `unsigned long strlen(const char *s) { unsigned long n = 0; while (s[n]) n++; return n; }`
pub(crate) const STRLEN: [Step; 23] = [
    Step::Const { at: 21 },
    Step::Word {
        at: 27,
        word: TypeWord::Char,
    },
    Step::Parameter {
        star: Some(32),
        at: 33,
        letter: b's',
    },
    Step::Begin,
    Step::Integer { at: 56, value: 0 },
    Step::Word {
        at: 38,
        word: TypeWord::Unsigned,
    },
    Step::Word {
        at: 47,
        word: TypeWord::Long,
    },
    Step::Declared {
        star: None,
        at: 52,
        letter: b'n',
        is_initialised: true,
    },
    Step::Next,
    Step::Variable {
        at: 72,
        letter: b'n',
    },
    Step::Increment { at: 73 },
    Step::Value { at: 75 },
    Step::Variable {
        at: 66,
        letter: b's',
    },
    Step::Variable {
        at: 68,
        letter: b'n',
    },
    Step::Subscript { at: 67 },
    Step::While { at: 59 },
    Step::Next,
    Step::Variable {
        at: 84,
        letter: b'n',
    },
    Step::Return { at: 77 },
    Step::Next,
    Step::Block { at: 36 },
    Step::Word {
        at: 0,
        word: TypeWord::Unsigned,
    },
    Step::Word {
        at: 9,
        word: TypeWord::Long,
    },
];

/// `int strcmp(const char *a, const char *b) { unsigned long i = 0; while (a[i] && a[i] == b[i]) i++; return
/// (unsigned char)a[i] - (unsigned char)b[i]; }`
pub(crate) const STRCMP: [Step; 45] = [
    Step::Const { at: 100 },
    Step::Word {
        at: 106,
        word: TypeWord::Char,
    },
    Step::Parameter {
        star: Some(111),
        at: 112,
        letter: b'a',
    },
    Step::Const { at: 115 },
    Step::Word {
        at: 121,
        word: TypeWord::Char,
    },
    Step::Parameter {
        star: Some(126),
        at: 127,
        letter: b'b',
    },
    Step::Begin,
    Step::Integer { at: 150, value: 0 },
    Step::Word {
        at: 132,
        word: TypeWord::Unsigned,
    },
    Step::Word {
        at: 141,
        word: TypeWord::Long,
    },
    Step::Declared {
        star: None,
        at: 146,
        letter: b'i',
        is_initialised: true,
    },
    Step::Next,
    Step::Variable {
        at: 182,
        letter: b'i',
    },
    Step::Increment { at: 183 },
    Step::Value { at: 185 },
    Step::Variable {
        at: 160,
        letter: b'a',
    },
    Step::Variable {
        at: 162,
        letter: b'i',
    },
    Step::Subscript { at: 161 },
    Step::Variable {
        at: 168,
        letter: b'a',
    },
    Step::Variable {
        at: 170,
        letter: b'i',
    },
    Step::Subscript { at: 169 },
    Step::Variable {
        at: 176,
        letter: b'b',
    },
    Step::Variable {
        at: 178,
        letter: b'i',
    },
    Step::Subscript { at: 177 },
    Step::Binary {
        at: 173,
        operator: BinaryOperator::Equal,
    },
    Step::Binary {
        at: 165,
        operator: BinaryOperator::LogicalAnd,
    },
    Step::While { at: 153 },
    Step::Next,
    Step::Word {
        at: 195,
        word: TypeWord::Unsigned,
    },
    Step::Word {
        at: 204,
        word: TypeWord::Char,
    },
    Step::Variable {
        at: 209,
        letter: b'a',
    },
    Step::Variable {
        at: 211,
        letter: b'i',
    },
    Step::Subscript { at: 210 },
    Step::Cast {
        at: 194,
        star: None,
    },
    Step::Word {
        at: 217,
        word: TypeWord::Unsigned,
    },
    Step::Word {
        at: 226,
        word: TypeWord::Char,
    },
    Step::Variable {
        at: 231,
        letter: b'b',
    },
    Step::Variable {
        at: 233,
        letter: b'i',
    },
    Step::Subscript { at: 232 },
    Step::Cast {
        at: 216,
        star: None,
    },
    Step::Binary {
        at: 214,
        operator: BinaryOperator::Subtract,
    },
    Step::Return { at: 187 },
    Step::Next,
    Step::Block { at: 130 },
    Step::Word {
        at: 89,
        word: TypeWord::Int,
    },
];

/// `int strncmp(const char *a, const char *b, unsigned long n) { unsigned long i = 0; while (i < n && a[i] && a[i]
/// == b[i]) i++; if (i == n) return 0; return (unsigned char)a[i] - (unsigned char)b[i]; }`
pub(crate) const STRNCMP: [Step; 59] = [
    Step::Const { at: 251 },
    Step::Word {
        at: 257,
        word: TypeWord::Char,
    },
    Step::Parameter {
        star: Some(262),
        at: 263,
        letter: b'a',
    },
    Step::Const { at: 266 },
    Step::Word {
        at: 272,
        word: TypeWord::Char,
    },
    Step::Parameter {
        star: Some(277),
        at: 278,
        letter: b'b',
    },
    Step::Word {
        at: 281,
        word: TypeWord::Unsigned,
    },
    Step::Word {
        at: 290,
        word: TypeWord::Long,
    },
    Step::Parameter {
        star: None,
        at: 295,
        letter: b'n',
    },
    Step::Begin,
    Step::Integer { at: 318, value: 0 },
    Step::Word {
        at: 300,
        word: TypeWord::Unsigned,
    },
    Step::Word {
        at: 309,
        word: TypeWord::Long,
    },
    Step::Declared {
        star: None,
        at: 314,
        letter: b'i',
        is_initialised: true,
    },
    Step::Next,
    Step::Variable {
        at: 359,
        letter: b'i',
    },
    Step::Increment { at: 360 },
    Step::Value { at: 362 },
    Step::Variable {
        at: 328,
        letter: b'i',
    },
    Step::Variable {
        at: 332,
        letter: b'n',
    },
    Step::Binary {
        at: 330,
        operator: BinaryOperator::Less,
    },
    Step::Variable {
        at: 337,
        letter: b'a',
    },
    Step::Variable {
        at: 339,
        letter: b'i',
    },
    Step::Subscript { at: 338 },
    Step::Binary {
        at: 334,
        operator: BinaryOperator::LogicalAnd,
    },
    Step::Variable {
        at: 345,
        letter: b'a',
    },
    Step::Variable {
        at: 347,
        letter: b'i',
    },
    Step::Subscript { at: 346 },
    Step::Variable {
        at: 353,
        letter: b'b',
    },
    Step::Variable {
        at: 355,
        letter: b'i',
    },
    Step::Subscript { at: 354 },
    Step::Binary {
        at: 350,
        operator: BinaryOperator::Equal,
    },
    Step::Binary {
        at: 342,
        operator: BinaryOperator::LogicalAnd,
    },
    Step::While { at: 321 },
    Step::Next,
    Step::Integer { at: 383, value: 0 },
    Step::Return { at: 376 },
    Step::Variable {
        at: 368,
        letter: b'i',
    },
    Step::Variable {
        at: 373,
        letter: b'n',
    },
    Step::Binary {
        at: 370,
        operator: BinaryOperator::Equal,
    },
    Step::If {
        at: 364,
        has_else: false,
    },
    Step::Next,
    Step::Word {
        at: 394,
        word: TypeWord::Unsigned,
    },
    Step::Word {
        at: 403,
        word: TypeWord::Char,
    },
    Step::Variable {
        at: 408,
        letter: b'a',
    },
    Step::Variable {
        at: 410,
        letter: b'i',
    },
    Step::Subscript { at: 409 },
    Step::Cast {
        at: 393,
        star: None,
    },
    Step::Word {
        at: 416,
        word: TypeWord::Unsigned,
    },
    Step::Word {
        at: 425,
        word: TypeWord::Char,
    },
    Step::Variable {
        at: 430,
        letter: b'b',
    },
    Step::Variable {
        at: 432,
        letter: b'i',
    },
    Step::Subscript { at: 431 },
    Step::Cast {
        at: 415,
        star: None,
    },
    Step::Binary {
        at: 413,
        operator: BinaryOperator::Subtract,
    },
    Step::Return { at: 386 },
    Step::Next,
    Step::Block { at: 298 },
    Step::Word {
        at: 239,
        word: TypeWord::Int,
    },
];

/// `char *strchr(const char *s, int c) { while (*s != (char)c) { if (!*s) return 0; s++; } return (char *)s; }`
pub(crate) const STRCHR: [Step; 34] = [
    Step::Const { at: 451 },
    Step::Word {
        at: 457,
        word: TypeWord::Char,
    },
    Step::Parameter {
        star: Some(462),
        at: 463,
        letter: b's',
    },
    Step::Word {
        at: 466,
        word: TypeWord::Int,
    },
    Step::Parameter {
        star: None,
        at: 470,
        letter: b'c',
    },
    Step::Begin,
    Step::Begin,
    Step::Integer { at: 515, value: 0 },
    Step::Return { at: 508 },
    Step::Variable {
        at: 505,
        letter: b's',
    },
    Step::Unary {
        at: 504,
        operator: UnaryOperator::Indirection,
    },
    Step::Unary {
        at: 503,
        operator: UnaryOperator::Not,
    },
    Step::If {
        at: 499,
        has_else: false,
    },
    Step::Next,
    Step::Variable {
        at: 518,
        letter: b's',
    },
    Step::Increment { at: 519 },
    Step::Value { at: 521 },
    Step::Next,
    Step::Block { at: 497 },
    Step::Variable {
        at: 483,
        letter: b's',
    },
    Step::Unary {
        at: 482,
        operator: UnaryOperator::Indirection,
    },
    Step::Word {
        at: 489,
        word: TypeWord::Char,
    },
    Step::Variable {
        at: 494,
        letter: b'c',
    },
    Step::Cast {
        at: 488,
        star: None,
    },
    Step::Binary {
        at: 485,
        operator: BinaryOperator::NotEqual,
    },
    Step::While { at: 475 },
    Step::Next,
    Step::Word {
        at: 533,
        word: TypeWord::Char,
    },
    Step::Variable {
        at: 540,
        letter: b's',
    },
    Step::Cast {
        at: 532,
        star: Some(538),
    },
    Step::Return { at: 525 },
    Step::Next,
    Step::Block { at: 473 },
    Step::Word {
        at: 438,
        word: TypeWord::Char,
    },
];
