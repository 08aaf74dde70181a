//! The steps of the function that reads a number: its parameter, the statements of its body, and the words of its own
//! type.

use crate::step::Step;
use c_language::{BinaryOperator, TypeWord, UnaryOperator};

/// `int atoi(const char *s) { int v = 0; int g = 1; while (*s == ' ' || (*s >= 9 && *s <= 13)) s++; if (*s == '-')
/// { g = -1; s++; } else if (*s == '+') s++; while (*s >= '0' && *s <= '9') { v = v * 10 + g * (*s - '0'); s++; }
/// return v; }`
pub(crate) const ATOI: [Step; 95] = [
    Step::Const { at: 1100 },
    Step::Word {
        at: 1106,
        word: TypeWord::Char,
    },
    Step::Parameter {
        star: Some(1111),
        at: 1112,
        letter: b's',
    },
    Step::Begin,
    Step::Integer { at: 1125, value: 0 },
    Step::Word {
        at: 1117,
        word: TypeWord::Int,
    },
    Step::Declared {
        star: None,
        at: 1121,
        letter: b'v',
        is_initialised: true,
    },
    Step::Next,
    Step::Integer { at: 1136, value: 1 },
    Step::Word {
        at: 1128,
        word: TypeWord::Int,
    },
    Step::Declared {
        star: None,
        at: 1132,
        letter: b'g',
        is_initialised: true,
    },
    Step::Next,
    Step::Variable {
        at: 1182,
        letter: b's',
    },
    Step::Increment { at: 1183 },
    Step::Value { at: 1185 },
    Step::Variable {
        at: 1147,
        letter: b's',
    },
    Step::Unary {
        at: 1146,
        operator: UnaryOperator::Indirection,
    },
    Step::Character {
        at: 1152,
        value: 32,
    },
    Step::Binary {
        at: 1149,
        operator: BinaryOperator::Equal,
    },
    Step::Variable {
        at: 1161,
        letter: b's',
    },
    Step::Unary {
        at: 1160,
        operator: UnaryOperator::Indirection,
    },
    Step::Integer { at: 1166, value: 9 },
    Step::Binary {
        at: 1163,
        operator: BinaryOperator::GreaterEqual,
    },
    Step::Variable {
        at: 1172,
        letter: b's',
    },
    Step::Unary {
        at: 1171,
        operator: UnaryOperator::Indirection,
    },
    Step::Integer {
        at: 1177,
        value: 13,
    },
    Step::Binary {
        at: 1174,
        operator: BinaryOperator::LessEqual,
    },
    Step::Binary {
        at: 1168,
        operator: BinaryOperator::LogicalAnd,
    },
    Step::Group { at: 1159 },
    Step::Binary {
        at: 1156,
        operator: BinaryOperator::LogicalOr,
    },
    Step::While { at: 1139 },
    Step::Next,
    Step::Begin,
    Step::Variable {
        at: 1204,
        letter: b'g',
    },
    Step::Integer { at: 1209, value: 1 },
    Step::Unary {
        at: 1208,
        operator: UnaryOperator::Minus,
    },
    Step::Assign { at: 1206 },
    Step::Value { at: 1210 },
    Step::Next,
    Step::Variable {
        at: 1212,
        letter: b's',
    },
    Step::Increment { at: 1213 },
    Step::Value { at: 1215 },
    Step::Next,
    Step::Block { at: 1202 },
    Step::Variable {
        at: 1239,
        letter: b's',
    },
    Step::Increment { at: 1240 },
    Step::Value { at: 1242 },
    Step::Variable {
        at: 1229,
        letter: b's',
    },
    Step::Unary {
        at: 1228,
        operator: UnaryOperator::Indirection,
    },
    Step::Character {
        at: 1234,
        value: 43,
    },
    Step::Binary {
        at: 1231,
        operator: BinaryOperator::Equal,
    },
    Step::If {
        at: 1224,
        has_else: false,
    },
    Step::Variable {
        at: 1192,
        letter: b's',
    },
    Step::Unary {
        at: 1191,
        operator: UnaryOperator::Indirection,
    },
    Step::Character {
        at: 1197,
        value: 45,
    },
    Step::Binary {
        at: 1194,
        operator: BinaryOperator::Equal,
    },
    Step::If {
        at: 1187,
        has_else: true,
    },
    Step::Next,
    Step::Begin,
    Step::Variable {
        at: 1277,
        letter: b'v',
    },
    Step::Variable {
        at: 1281,
        letter: b'v',
    },
    Step::Integer {
        at: 1285,
        value: 10,
    },
    Step::Binary {
        at: 1283,
        operator: BinaryOperator::Multiply,
    },
    Step::Variable {
        at: 1290,
        letter: b'g',
    },
    Step::Variable {
        at: 1296,
        letter: b's',
    },
    Step::Unary {
        at: 1295,
        operator: UnaryOperator::Indirection,
    },
    Step::Character {
        at: 1300,
        value: 48,
    },
    Step::Binary {
        at: 1298,
        operator: BinaryOperator::Subtract,
    },
    Step::Group { at: 1294 },
    Step::Binary {
        at: 1292,
        operator: BinaryOperator::Multiply,
    },
    Step::Binary {
        at: 1288,
        operator: BinaryOperator::Add,
    },
    Step::Assign { at: 1279 },
    Step::Value { at: 1304 },
    Step::Next,
    Step::Variable {
        at: 1306,
        letter: b's',
    },
    Step::Increment { at: 1307 },
    Step::Value { at: 1309 },
    Step::Next,
    Step::Block { at: 1275 },
    Step::Variable {
        at: 1252,
        letter: b's',
    },
    Step::Unary {
        at: 1251,
        operator: UnaryOperator::Indirection,
    },
    Step::Character {
        at: 1257,
        value: 48,
    },
    Step::Binary {
        at: 1254,
        operator: BinaryOperator::GreaterEqual,
    },
    Step::Variable {
        at: 1265,
        letter: b's',
    },
    Step::Unary {
        at: 1264,
        operator: UnaryOperator::Indirection,
    },
    Step::Character {
        at: 1270,
        value: 57,
    },
    Step::Binary {
        at: 1267,
        operator: BinaryOperator::LessEqual,
    },
    Step::Binary {
        at: 1261,
        operator: BinaryOperator::LogicalAnd,
    },
    Step::While { at: 1244 },
    Step::Next,
    Step::Variable {
        at: 1320,
        letter: b'v',
    },
    Step::Return { at: 1313 },
    Step::Next,
    Step::Block { at: 1115 },
    Step::Word {
        at: 1091,
        word: TypeWord::Int,
    },
];
