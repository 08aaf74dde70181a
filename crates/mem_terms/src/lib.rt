//! Terms of memory, the truths that undefined behaviour of memory asks of one, and reads.
#![tactic(auto)]

mod access;
mod memory;
mod passing;

pub use access::{can_access, can_free, can_write, in_one_object, object_number, offset};
pub use memory::{
    choose, copy_range, ended, has_kind, initial, is_live, made, object_size, read, write,
    zero_range,
};
pub use passing::{octets, seen};
