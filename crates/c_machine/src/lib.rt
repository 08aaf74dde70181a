//! The machine that runs expressions of C: a state of the definition, kept as data, with one call for each operation
//! that the definition names.
#![tactic(auto, unfolding(crate::specs::States::state))]

mod calls;
mod control;
mod halt;
mod lives;
mod machine;
mod objects;
mod operand;
mod operators;
mod pointers;
mod ranges;
mod value;

pub use calls::Caller;
pub use halt::Halt;
pub use machine::Machine;
pub use objects::bytes_as;
pub use operand::Operand;
pub use value::Value;
