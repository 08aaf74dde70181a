//! The texts of worlds, written and read exactly.
#![tactic(auto)]

mod entry;
mod fault;
mod lines;
mod reading;
mod saying;
mod stage;
mod text;
mod version;
mod writing;

pub use fault::CertFault;
pub use reading::read_world;
pub use writing::write_world;

#[cfg(test)]
mod tests;
