//! What is noted of expressions besides what they say to the types (`c_means`), as code: the calls in them, the
//! functions that they call, and whether they are address constants (C99 6.6p9). One recursion finds it together with
//! what they say; it fails for want of memory alone.
#![tactic(auto)]

mod arguments;
mod calling;
mod calls;
mod forms;
mod notes;
mod passed;
mod prelude;
mod trees;

pub use arguments::ArgumentNotes;
pub use calls::{CallNote, LogFormat, call_note};
pub use notes::{ExprNotes, NotedExpr, is_static};
pub use prelude::prelude_parameters;
pub use trees::noted;
