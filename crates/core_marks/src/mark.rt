//! What stands at a token.

use core_tree::Watched;
use plain_data::{Items, Side, Undefined};
use printf_text::Pieces;

/// A log call: the byte offset of the callee's name, the pieces of the format with the newline that is added, and the
/// variables that a print shows, in order.
#[derive(Drop)]
pub struct Site {
    pub at: u32,
    pub pieces: Pieces,
    pub watched: Items<Watched>,
}

/// What stands at a token, by its byte offset: of a call at the callee's name.
#[derive(Drop)]
pub enum Mark {
    /// A branch can take this side.
    Branch { at: u32, side: Side },
    /// A call.
    Call { at: u32 },
    /// What is called is the function of this number, by its body.
    Body { at: u32, function: u32 },
    /// It is a log call.
    Log(Site),
    /// It is `exit`.
    Exit { at: u32 },
    /// It is `abort`.
    Abort { at: u32 },
    /// A run can end here by undefined behaviour of this kind.
    Stop { at: u32, kind: Undefined },
}
