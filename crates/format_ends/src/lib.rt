//! Where a format can end along one log, from many positions: what is found of its pieces is kept from one position to
//! the next.
#![tactic(auto)]

mod ending;
mod literals;
mod parts;
mod texts;

pub use ending::FormatEnds;
