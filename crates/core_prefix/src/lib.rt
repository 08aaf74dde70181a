//! The functions of a core behind the last one that is needed are cut off it.
#![tactic(auto)]

mod codes;
mod cutting;
#[cfg(test)]
mod tests;
mod values;

pub use cutting::cut;
