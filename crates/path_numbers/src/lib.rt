//! Numbers of the core as terms: conversions, and operators with the undefined behaviour that they may meet.
#![tactic(auto)]

mod comparing;
mod conversions;
mod divisions;
mod operators;
mod shifts;
mod tested;
mod working;

pub use conversions::{ADDRESS, INT, address, constant, converted, flag, in_width, truth, wrapped};
pub use tested::{Fault, Tested};
pub use working::{turned, worked};
