//! What is noted of initializers and declarations besides what they say to the types (`c_means`), as code: the broken
//! rule that comes first, the calls in them, and the objects and names with linkage that they declare. One walk finds
//! it together with what they say; it fails for want of memory alone.
#![tactic(auto)]

mod declarations;
mod hearing;
mod initials;
mod items;
mod sizes;

pub use declarations::declaration_notes;
pub use hearing::{Source, heard};
pub use initials::{FilledNotes, InitialNotes, filled_notes};
pub use items::{ItemNotes, LastingNote, both, breaking, nothing_noted};
