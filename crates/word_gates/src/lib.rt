//! Machine words as lists of bits, the lowest first, and their operators as gates.
#![tactic(auto)]

mod arithmetic;
mod comparing;
mod operators;
mod quotients;
mod shifts;
mod sums;
mod wires;
mod words;

pub use arithmetic::{add, multiply, subtract};
pub use comparing::{at_most, equal, is_zero};
pub use operators::{BitOperator, bitwise, choose, complement};
pub use quotients::{Division, divide};
pub use shifts::{shift_left, shift_right};
pub use sums::{Sum, add_with_carry};
pub use wires::{moved_down, moved_up, repeated, resize, shifted_in};
pub use words::{constant, input};
