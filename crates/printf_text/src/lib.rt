//! printf formats, and the texts that they make of arguments (C99 7.19.6.1).
#![tactic(auto)]

mod kind;
mod parse;
mod piece;
mod printing;

pub use kind::{Kind, Kinds, have_kinds, kinds};
pub use parse::{FormatFault, parse_format};
pub use piece::{Arg, Args, Conversion, Flags, Form, Piece, Pieces, Radix, Size};
pub use printing::{TextFault, text, write_formed};
