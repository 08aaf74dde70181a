//! What is noted of statements (C99 6.8) and of the bodies of functions (C99 6.9.1), as code: the broken rule that
//! comes first, the calls in them, and the objects and names with linkage that they declare. One walk finds it
//! together with what their parts say to the types; it fails for want of memory alone.
#![tactic(auto)]

mod bodies;
mod context;
mod gathering;
mod pieces;
mod statements;

pub use bodies::body_notes;
pub use context::Context;
pub use statements::{content_notes, statement_notes};
