//! All ways in which a printf format spells a log from a position on, with what each says of the
//! arguments (C99 7.19.6.1 read backwards).
#![tactic(auto)]

mod ending;
mod forms;
mod marking;
mod matching;
mod reaching;
mod reading;
mod split;
mod stars;
mod starting;
mod way;

pub use ending::ends;
pub use matching::{MatchFault, splits};
pub use split::{Constraint, Constraints, Split, SplitList, Stretch};
pub use starting::starts;
