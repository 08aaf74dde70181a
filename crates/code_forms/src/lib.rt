//! The core of each form of statement and of declaration, over what its parts are in the core.
#![tactic(auto)]

mod blocks;
mod iteration;
mod jumps;
mod labeled;
mod objects;
mod selection;
mod steps;
mod types;

pub use blocks::{Content, compound, substatement};
pub use iteration::{do_loop, for_block, for_turns, while_loop};
pub use jumps::{bare_return, break_out, continue_loop, goto_label, value_return};
pub use labeled::{case_label, case_value, default_label, label};
pub use objects::{automatic_object, lasting_object, text_setting, value_setting};
pub use selection::{compared_kind, if_else, switch};
pub use steps::{declaration, effect, empty, first_part};
pub use types::{bytes_of, stored_type};
