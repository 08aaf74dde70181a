//! The steps of the functions that write bytes: their parameters, the statements of their bodies, and the words of
//! their own types.

use crate::step::Step;
use c_language::{BinaryOperator, TypeWord};

/// `char *strcpy(char *d, const char *s) { unsigned long i = 0; while ((d[i] = s[i])) i++; return d; }`
pub(crate) const STRCPY: [Step; 29] = [
    Step::Word {
        at: 558,
        word: TypeWord::Char,
    },
    Step::Parameter {
        star: Some(563),
        at: 564,
        letter: b'd',
    },
    Step::Const { at: 567 },
    Step::Word {
        at: 573,
        word: TypeWord::Char,
    },
    Step::Parameter {
        star: Some(578),
        at: 579,
        letter: b's',
    },
    Step::Begin,
    Step::Integer { at: 602, value: 0 },
    Step::Word {
        at: 584,
        word: TypeWord::Unsigned,
    },
    Step::Word {
        at: 593,
        word: TypeWord::Long,
    },
    Step::Declared {
        star: None,
        at: 598,
        letter: b'i',
        is_initialised: true,
    },
    Step::Next,
    Step::Variable {
        at: 627,
        letter: b'i',
    },
    Step::Increment { at: 628 },
    Step::Value { at: 630 },
    Step::Variable {
        at: 613,
        letter: b'd',
    },
    Step::Variable {
        at: 615,
        letter: b'i',
    },
    Step::Subscript { at: 614 },
    Step::Variable {
        at: 620,
        letter: b's',
    },
    Step::Variable {
        at: 622,
        letter: b'i',
    },
    Step::Subscript { at: 621 },
    Step::Assign { at: 618 },
    Step::Group { at: 612 },
    Step::While { at: 605 },
    Step::Next,
    Step::Variable {
        at: 639,
        letter: b'd',
    },
    Step::Return { at: 632 },
    Step::Next,
    Step::Block { at: 582 },
    Step::Word {
        at: 545,
        word: TypeWord::Char,
    },
];

/// `char *strcat(char *d, const char *s) { unsigned long n = 0; unsigned long i = 0; while (d[n]) n++; while ((d[n
/// + i] = s[i])) i++; return d; }`
pub(crate) const STRCAT: [Step; 44] = [
    Step::Word {
        at: 657,
        word: TypeWord::Char,
    },
    Step::Parameter {
        star: Some(662),
        at: 663,
        letter: b'd',
    },
    Step::Const { at: 666 },
    Step::Word {
        at: 672,
        word: TypeWord::Char,
    },
    Step::Parameter {
        star: Some(677),
        at: 678,
        letter: b's',
    },
    Step::Begin,
    Step::Integer { at: 701, value: 0 },
    Step::Word {
        at: 683,
        word: TypeWord::Unsigned,
    },
    Step::Word {
        at: 692,
        word: TypeWord::Long,
    },
    Step::Declared {
        star: None,
        at: 697,
        letter: b'n',
        is_initialised: true,
    },
    Step::Next,
    Step::Integer { at: 722, value: 0 },
    Step::Word {
        at: 704,
        word: TypeWord::Unsigned,
    },
    Step::Word {
        at: 713,
        word: TypeWord::Long,
    },
    Step::Declared {
        star: None,
        at: 718,
        letter: b'i',
        is_initialised: true,
    },
    Step::Next,
    Step::Variable {
        at: 738,
        letter: b'n',
    },
    Step::Increment { at: 739 },
    Step::Value { at: 741 },
    Step::Variable {
        at: 732,
        letter: b'd',
    },
    Step::Variable {
        at: 734,
        letter: b'n',
    },
    Step::Subscript { at: 733 },
    Step::While { at: 725 },
    Step::Next,
    Step::Variable {
        at: 769,
        letter: b'i',
    },
    Step::Increment { at: 770 },
    Step::Value { at: 772 },
    Step::Variable {
        at: 751,
        letter: b'd',
    },
    Step::Variable {
        at: 753,
        letter: b'n',
    },
    Step::Variable {
        at: 757,
        letter: b'i',
    },
    Step::Binary {
        at: 755,
        operator: BinaryOperator::Add,
    },
    Step::Subscript { at: 752 },
    Step::Variable {
        at: 762,
        letter: b's',
    },
    Step::Variable {
        at: 764,
        letter: b'i',
    },
    Step::Subscript { at: 763 },
    Step::Assign { at: 760 },
    Step::Group { at: 750 },
    Step::While { at: 743 },
    Step::Next,
    Step::Variable {
        at: 781,
        letter: b'd',
    },
    Step::Return { at: 774 },
    Step::Next,
    Step::Block { at: 681 },
    Step::Word {
        at: 644,
        word: TypeWord::Char,
    },
];

/// `void *memset(void *d, int c, unsigned long n) { unsigned char *p = d; unsigned long i; for (i = 0; i < n; i++)
/// p[i] = c; return d; }`
pub(crate) const MEMSET: [Step; 38] = [
    Step::Word {
        at: 799,
        word: TypeWord::Void,
    },
    Step::Parameter {
        star: Some(804),
        at: 805,
        letter: b'd',
    },
    Step::Word {
        at: 808,
        word: TypeWord::Int,
    },
    Step::Parameter {
        star: None,
        at: 812,
        letter: b'c',
    },
    Step::Word {
        at: 815,
        word: TypeWord::Unsigned,
    },
    Step::Word {
        at: 824,
        word: TypeWord::Long,
    },
    Step::Parameter {
        star: None,
        at: 829,
        letter: b'n',
    },
    Step::Begin,
    Step::Variable {
        at: 853,
        letter: b'd',
    },
    Step::Word {
        at: 834,
        word: TypeWord::Unsigned,
    },
    Step::Word {
        at: 843,
        word: TypeWord::Char,
    },
    Step::Declared {
        star: Some(848),
        at: 849,
        letter: b'p',
        is_initialised: true,
    },
    Step::Next,
    Step::Word {
        at: 856,
        word: TypeWord::Unsigned,
    },
    Step::Word {
        at: 865,
        word: TypeWord::Long,
    },
    Step::Declared {
        star: None,
        at: 870,
        letter: b'i',
        is_initialised: false,
    },
    Step::Next,
    Step::Variable {
        at: 897,
        letter: b'p',
    },
    Step::Variable {
        at: 899,
        letter: b'i',
    },
    Step::Subscript { at: 898 },
    Step::Variable {
        at: 904,
        letter: b'c',
    },
    Step::Assign { at: 902 },
    Step::Value { at: 905 },
    Step::Variable {
        at: 878,
        letter: b'i',
    },
    Step::Integer { at: 882, value: 0 },
    Step::Assign { at: 880 },
    Step::Variable {
        at: 885,
        letter: b'i',
    },
    Step::Variable {
        at: 889,
        letter: b'n',
    },
    Step::Binary {
        at: 887,
        operator: BinaryOperator::Less,
    },
    Step::Variable {
        at: 892,
        letter: b'i',
    },
    Step::Increment { at: 893 },
    Step::For { at: 873 },
    Step::Next,
    Step::Variable {
        at: 914,
        letter: b'd',
    },
    Step::Return { at: 907 },
    Step::Next,
    Step::Block { at: 832 },
    Step::Word {
        at: 786,
        word: TypeWord::Void,
    },
];

/// `void *memcpy(void *d, const void *s, unsigned long n) { unsigned char *p = d; const unsigned char *q = s;
/// unsigned long i; for (i = 0; i < n; i++) p[i] = q[i]; return d; }`
pub(crate) const MEMCPY: [Step; 47] = [
    Step::Word {
        at: 932,
        word: TypeWord::Void,
    },
    Step::Parameter {
        star: Some(937),
        at: 938,
        letter: b'd',
    },
    Step::Const { at: 941 },
    Step::Word {
        at: 947,
        word: TypeWord::Void,
    },
    Step::Parameter {
        star: Some(952),
        at: 953,
        letter: b's',
    },
    Step::Word {
        at: 956,
        word: TypeWord::Unsigned,
    },
    Step::Word {
        at: 965,
        word: TypeWord::Long,
    },
    Step::Parameter {
        star: None,
        at: 970,
        letter: b'n',
    },
    Step::Begin,
    Step::Variable {
        at: 994,
        letter: b'd',
    },
    Step::Word {
        at: 975,
        word: TypeWord::Unsigned,
    },
    Step::Word {
        at: 984,
        word: TypeWord::Char,
    },
    Step::Declared {
        star: Some(989),
        at: 990,
        letter: b'p',
        is_initialised: true,
    },
    Step::Next,
    Step::Variable {
        at: 1022,
        letter: b's',
    },
    Step::Const { at: 997 },
    Step::Word {
        at: 1003,
        word: TypeWord::Unsigned,
    },
    Step::Word {
        at: 1012,
        word: TypeWord::Char,
    },
    Step::Declared {
        star: Some(1017),
        at: 1018,
        letter: b'q',
        is_initialised: true,
    },
    Step::Next,
    Step::Word {
        at: 1025,
        word: TypeWord::Unsigned,
    },
    Step::Word {
        at: 1034,
        word: TypeWord::Long,
    },
    Step::Declared {
        star: None,
        at: 1039,
        letter: b'i',
        is_initialised: false,
    },
    Step::Next,
    Step::Variable {
        at: 1066,
        letter: b'p',
    },
    Step::Variable {
        at: 1068,
        letter: b'i',
    },
    Step::Subscript { at: 1067 },
    Step::Variable {
        at: 1073,
        letter: b'q',
    },
    Step::Variable {
        at: 1075,
        letter: b'i',
    },
    Step::Subscript { at: 1074 },
    Step::Assign { at: 1071 },
    Step::Value { at: 1077 },
    Step::Variable {
        at: 1047,
        letter: b'i',
    },
    Step::Integer { at: 1051, value: 0 },
    Step::Assign { at: 1049 },
    Step::Variable {
        at: 1054,
        letter: b'i',
    },
    Step::Variable {
        at: 1058,
        letter: b'n',
    },
    Step::Binary {
        at: 1056,
        operator: BinaryOperator::Less,
    },
    Step::Variable {
        at: 1061,
        letter: b'i',
    },
    Step::Increment { at: 1062 },
    Step::For { at: 1042 },
    Step::Next,
    Step::Variable {
        at: 1086,
        letter: b'd',
    },
    Step::Return { at: 1079 },
    Step::Next,
    Step::Block { at: 973 },
    Step::Word {
        at: 919,
        word: TypeWord::Void,
    },
];
