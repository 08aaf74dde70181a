//! Marks in the order of their tokens.
ghost use Rattle.std.specs.Prelude.{◌≡◌, IfOk};
ghost use Rattle.core_marks.specs.Order as order;

use crate::mark::Mark;
use plain_data::{Items, Undefined};
use std::alloc::AllocError;

/// Where a mark stands among others: by its token, and at one token by what it says.
#[derive(Clone, Copy, PartialEq, Eq, PartialOrd, Ord)]
pub(crate) struct Rank {
    at: u32,
    class: u32,
}

/// The number of a kind of undefined behaviour, from 1.
pub fn kind_number(kind: Undefined) -> u32
    ensures { result ≡ order.kind_number kind }
{
    match kind {
        Undefined::Overflow => 1,
        Undefined::ZeroDivisor => 2,
        Undefined::Shift => 3,
        Undefined::PointerRange => 4,
        Undefined::Dereference => 5,
        Undefined::LiteralWrite => 6,
        Undefined::Free => 7,
        Undefined::PointerOrder => 8,
        Undefined::MissingValue => 9,
    }
}

fn at_of(mark: &Mark) -> u32
    ensures { result ≡ order.at_of mark.now }
{
    match mark {
        Mark::Branch { at, .. } => *at,
        Mark::Call { at } => *at,
        Mark::Body { at, .. } => *at,
        Mark::Log(site) => site.at,
        Mark::Exit { at } => *at,
        Mark::Abort { at } => *at,
        Mark::Stop { at, .. } => *at,
    }
}

fn class_of(mark: &Mark) -> u32
    ensures { result ≡ order.class_of mark.now }
{
    match mark {
        Mark::Branch { .. } => 0,
        Mark::Call { .. } => 1,
        Mark::Log(_) => 2,
        Mark::Exit { .. } => 2,
        Mark::Abort { .. } => 2,
        Mark::Stop { kind, .. } => 2 + kind_number(*kind),
        Mark::Body { .. } => 2 + kind_number(Undefined::MissingValue),
    }
}

fn rank_of(mark: &Mark) -> Rank
    ensures { result ≡ order.rank_of mark.now }
{
    Rank {
        at: at_of(mark),
        class: class_of(mark),
    }
}

/// Marks in the order of their tokens. It fails for want of memory alone.
pub fn in_order(marks: Items<Mark>) -> Result<Items<Mark>, AllocError>
    ensures { IfOk result (λ ordered. order.IsInOrder marks ordered) }
{
    let mut items = marks.into_vec();
    items.sort_by_key(|mark| rank_of(mark))?;
    Ok(Items::from_vec(items))
}
