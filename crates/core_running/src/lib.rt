//! What it is to run a part of the core on the machine: where it runs, and what is known of what runs its parts.
#![tactic(auto)]

mod found;
mod frame;
mod scene;

pub use found::Found;
pub use frame::Frame;
pub use scene::Scene;
