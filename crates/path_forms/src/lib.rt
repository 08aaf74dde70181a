//! What each form of the core's expressions makes of states, once its parts are walked.
#![tactic(auto)]

mod access;
mod called;
mod calling;
mod fault;
mod forms;
mod frame;
mod rooms;
mod sides;

pub use access::check_access;
pub use called::call_each;
pub use calling::{CallSite, Calls};
pub use fault::WalkFault;
pub use forms::{constant, fixed, leaf, local, operate, raise, recall};
pub use frame::{Placed, place_of};
pub use rooms::behind_callee;
pub use sides::{Waiting, change, close_and, close_or, meet_waiting, take_no, take_yes};
