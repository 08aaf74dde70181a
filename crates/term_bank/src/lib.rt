//! Terms over truths, machine words and memories, each shape of which stands once in a bank.
#![tactic(auto)]

mod bank;
mod binding;
mod build;
mod fold;
mod known;
mod shape;
mod sort;
mod under;

pub use bank::{Bank, BankFault};
pub use binding::{Binding, images_of, over, set_image};
pub use shape::{Connective, Extension, Shape, WordOperator, WordTest};
pub use sort::{Node, Sort};
pub use under::nodes_under;
