//! Tables of inputs that are looked up by words: rows whose keys have one value have one value too.
#![tactic(auto)]

mod agreement;
mod keys;
mod row;
mod table;

pub use row::Row;
pub use table::Table;
