//! The names of what statements make.

use plain_data::Width;
use term_bank::{Connective, Extension, WordOperator, WordTest};

/// What a statement makes. Behind its name stand numbers: bits of words, values, and statements.
#[derive(Clone, Copy)]
pub enum Form {
    /// `const BITS VALUE`.
    Constant,
    /// `word BITS PLACE`: the world's word at a place.
    WorldWord,
    /// `read BITS ADDRESS`: the word that the world's initial bytes spell at an address.
    InitialWord,
    /// An operator's name, and `BITS LEFT RIGHT`.
    Binary(WordOperator),
    /// A test's name, and `BITS LEFT RIGHT`.
    Test(WordTest),
    /// `zext` or `sext`, and `FROM TO WORD`.
    Convert(Extension),
    /// `not TRUTH`.
    Not,
    /// `both` or `either`, and `LEFT RIGHT`.
    Connect(Connective),
    /// `choose TRUTH THEN ELSE`.
    Choose,
}

/// The width of so many bits.
pub fn width_of(bits: u64) -> Option<Width> {
    match bits {
        8 => Some(Width::W8),
        16 => Some(Width::W16),
        32 => Some(Width::W32),
        64 => Some(Width::W64),
        _ => None,
    }
}

fn arithmetic_named(name: &str) -> Option<WordOperator> {
    match name {
        "add" => Some(WordOperator::Add),
        "sub" => Some(WordOperator::Sub),
        "mul" => Some(WordOperator::Mul),
        "udiv" => Some(WordOperator::Udiv),
        "urem" => Some(WordOperator::Urem),
        "sdiv" => Some(WordOperator::Sdiv),
        "srem" => Some(WordOperator::Srem),
        _ => None,
    }
}

fn bitwise_named(name: &str) -> Option<WordOperator> {
    match name {
        "and" => Some(WordOperator::And),
        "or" => Some(WordOperator::Or),
        "xor" => Some(WordOperator::Xor),
        "shl" => Some(WordOperator::Shl),
        "lshr" => Some(WordOperator::Lshr),
        "ashr" => Some(WordOperator::Ashr),
        _ => None,
    }
}

fn test_named(name: &str) -> Option<WordTest> {
    match name {
        "eq" => Some(WordTest::Equal),
        "ult" => Some(WordTest::Below),
        "slt" => Some(WordTest::SignedBelow),
        "add_over" => Some(WordTest::AddOver),
        "sub_over" => Some(WordTest::SubOver),
        "mul_over" => Some(WordTest::MulOver),
        "div_over" => Some(WordTest::DivOver),
        "shl_over" => Some(WordTest::ShlOver),
        _ => None,
    }
}

fn other_named(name: &str) -> Option<Form> {
    match name {
        "const" => Some(Form::Constant),
        "word" => Some(Form::WorldWord),
        "read" => Some(Form::InitialWord),
        "zext" => Some(Form::Convert(Extension::Zero)),
        "sext" => Some(Form::Convert(Extension::Sign)),
        "not" => Some(Form::Not),
        "both" => Some(Form::Connect(Connective::And)),
        "either" => Some(Form::Connect(Connective::Or)),
        "choose" => Some(Form::Choose),
        _ => None,
    }
}

/// What the statements of a name make.
pub fn form_named(name: &str) -> Option<Form> {
    if let Some(operator) = arithmetic_named(name) {
        return Some(Form::Binary(operator));
    }
    if let Some(operator) = bitwise_named(name) {
        return Some(Form::Binary(operator));
    }
    if let Some(test) = test_named(name) {
        return Some(Form::Test(test));
    }
    other_named(name)
}
