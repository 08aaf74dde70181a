//! Reading a source token by token: the place reached, the names in scope there, what comes next, and what of a
//! parser's decisions rests on that alone (C99 6.2.1, 6.4, 6.5, 6.7, 6.9.1).
#![tactic(auto)]

mod cursor;
mod fault;
mod limits;
mod ranks;
mod scopes;
mod tokens;
mod words;

pub use cursor::{Cursor, Source};
pub use fault::ParseFault;
pub use limits::most_height;
pub use ranks::right_rank;
pub use scopes::may_omit;
pub use tokens::{front, is_at_end, rest, start_of};
