//! A `Vec` and an `Rc` that contracts see as what they hold, so that trees and lists made of them
//! are plain data to every layer; lists of lists in one piece of memory; parts that may have failed;
//! machine words; and worlds, runs and facts.
#![tactic(auto)]

mod bounds;
mod bytes;
mod fact;
mod items;
mod parts;
mod rows;
mod run;
mod shared;
mod width;
mod words;
mod world;

pub use bounds::Bounds;
pub use bytes::{Bytes, Numbers};
pub use fact::{Fact, Facts, Watched};
pub use items::Items;
pub use parts::both_ok;
pub use rows::Rows;
pub use run::{Event, Events, Finish, Happening, Run, Side, Undefined};
pub use shared::Shared;
pub use width::Width;
pub use words::{
    add, add_over, ashr, div_over, lshr, mul, mul_over, sdiv, shl, shl_over, slt, srem, sub,
    sub_over, to_signed, udiv, ult, urem, wrap,
};
pub use world::{World, WorldFault};
