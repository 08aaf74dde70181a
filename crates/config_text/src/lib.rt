//! Configurations: JSON texts that say what is known of functions, and set bounds.
#![tactic(auto)]

mod building;
mod checking;
mod config;
mod keys;
mod reading;

pub use config::{Config, ConfigFault};
pub use reading::{default_config, read_config};
