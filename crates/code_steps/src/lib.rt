//! The steps by which code of the core runs on the machine, where no part of it is run: where a run on its way arrives,
//! what is stored, which case is chosen, which objects live, and how many places code takes.
#![tactic(auto)]

mod cases;
mod control;
mod objects;
mod parameters;
mod rooms;
mod stores;

pub use cases::choose_in;
pub use control::{
    at_case, at_default, at_label, give, go_to, jump, leave_at, past_break, past_continue,
    past_switch,
};
pub use objects::{Birth, add_objects, bear, bind, bury};
pub use parameters::{add_parameters, bind_all, come_back, no_objects, pass};
pub use rooms::{
    room_of_code, room_of_items, room_of_option, room_of_setting, room_of_settings, room_of_turns,
    room_of_value,
};
pub use stores::{
    address_behind, bear_one, branch, end_one, lay_text, size_in, start_of, store, wrapped_in, zero,
};
