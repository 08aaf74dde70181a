//! What of a source isn't read yet where it is diagnosed.
#![tactic(auto)]

mod forms;
mod needed;

pub use forms::has_unread;
pub use needed::kept;
