//! The core language: programs of C with every type found, and their meaning as definitions.
#![tactic(auto)]

mod code;
mod expr;
mod program;
mod types;

pub use code::{Code, Setting};
pub use expr::{Callee, Expr, Fill, Holder, OutsideAnswer, Pointee, Watched};
pub use program::{Contents, Core, Function, LastingObject, LastingSetting, Parameter};
pub use types::{Access, Answered, Arithmetic, Operator, Relation, Turning, ValueType, WordType};
