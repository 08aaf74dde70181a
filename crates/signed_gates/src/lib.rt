//! Operators and tests of signed words, conversions, and shifts by words, as gates. Widths are those of machine words.
#![tactic(auto)]

mod conversions;
mod division;
mod overflow;
mod shifting;
mod signs;

pub use conversions::{sign_extended, zero_extended};
pub use division::{signed_quotient, signed_remainder};
pub use overflow::{
    add_overflows, divide_overflows, multiply_overflows, shift_overflows, subtract_overflows,
};
pub use shifting::{arithmetic_shift, logical_shift, shift_up};
pub use signs::{below, signed_below};
