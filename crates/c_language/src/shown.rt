//! What a node of an expression says of itself.

use crate::scope::{Entry, Fault};
use crate::{CType, Class};
use plain_data::{Items, Shared};

/// What a node says of itself where it breaks no rule: its type as written, its value where it is constant, and
/// whether it
/// is a null pointer constant (C99 6.3.2.3p3), an lvalue (C99 6.3.2.1p1) and a string literal. `designates` is the
/// declaration of the name that it is, parentheses apart.
#[derive(Drop)]
pub struct Shown {
    pub ctype: CType,
    pub value: Option<i128>,
    pub is_null: bool,
    pub is_lvalue: bool,
    pub is_literal: bool,
    pub designates: Option<Shared<Entry>>,
}

/// An argument of a call, as a value (C99 6.5.2.2p4): its own token, and where its type belongs.
#[derive(Clone, Copy, PartialEq, Eq)]
pub struct Argument {
    pub at: u32,
    pub class: Class,
}

/// What an expression says, apart from the scope behind it: its own token, parentheses apart; what it shows, where
/// neither
/// it nor a part breaks a rule; and the rules that it and its parts break, in order.
#[derive(Drop)]
pub struct Told {
    pub at: u32,
    pub shown: Option<Shown>,
    pub faults: Items<Fault>,
}

/// What is said of a call besides its parts: the type of its result, where no rule is broken (C99 6.5.2.2).
#[derive(Drop)]
pub struct Called {
    pub ctype: Option<CType>,
    pub faults: Items<Fault>,
}
