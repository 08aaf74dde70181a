//! Walking over a source, piece by piece.

ghost use Rattle.std.specs.Prelude.{◌≡◌, ℕ, List, ◌<◌, ◌≤◌, ◌+◌, ◌*◌, ◌^◌, length, take, drop, true};
ghost use Rattle.c_lexer.specs.Class.{Text};
ghost use Rattle.c_lexer.specs.Piece.{piece_at, IsNamedWithin};
ghost use Rattle.c_lexer.specs.Division.{fresh_after};
ghost use Rattle.c_lexer.specs.Places.{moved, spot_after, beginning, located};
ghost use Rattle.c_lexer.specs.Walks as spec;

use crate::piece::{Lexeme, piece_at};

/// A place, with the name of its file.
#[derive(Clone, Copy)]
pub struct Here<'a> {
    pub file: &'a [u8],
    pub line: u32,
    pub column: u32,
}

/// What is left of a source, and where it begins.
#[derive(Clone, Copy)]
pub struct Walk<'a> {
    pub rest: &'a [u8],
    /// The offset of the first byte that is left.
    pub at: u32,
    /// Whether only white space and comments stand before it on its line.
    pub fresh: bool,
    pub here: Here<'a>,
}

/// The line and the column after some bytes (C99 5.1.1.2, 6.10.4).
pub fn past_bytes(mut line: u32, mut column: u32, bytes: &[u8]) -> (u32, u32)
    requires line_fits { line + length bytes.now < 2 ^ 32 }
    requires column_fits { column + length bytes.now < 2 ^ 32 }
    ensures value { (file : Text) → moved (spec.spot file line column) bytes.now ≡ spec.spot file result.0 result.1 }
    ensures line { result.0 ≤ line + length bytes.now }
    ensures column { result.1 ≤ column + length bytes.now }
{
    for b in bytes {
        if *b == b'\n' {
            line += 1;
            column = 1;
        } else {
            column += 1;
        }
    }
    (line, column)
}

/// The place after a piece (C99 6.10.4).
fn past_piece<'a>(here: Here<'a>, lexeme: Lexeme, text: &'a [u8]) -> Here<'a>
    requires some { 0 < length text.now }
    requires line_fits { here.line + length text.now < 2 ^ 32 }
    requires column_fits { here.column + length text.now < 2 ^ 32 }
    requires named { IsNamedWithin (lexeme, length text.now) }
    ensures value { spec.spot_of result ≡ spot_after (spec.spot_of here.entry) (lexeme, text.now) }
    ensures line { (bound : ℕ) → here.entry.line ≤ bound → 2 * 10 ^ 9 ≤ bound → result.line ≤ bound + length text.now }
    ensures column { result.column ≤ here.entry.column + length text.now }
{
    match lexeme {
        Lexeme::Newline => Here {
            file: here.file,
            line: here.line + 1,
            column: 1,
        },
        Lexeme::Comment | Lexeme::Ignored => {
            let (line, column) = past_bytes(here.line, here.column, text);
            Here {
                file: here.file,
                line,
                column,
            }
        }
        Lexeme::Marker { line, from, to } => Here {
            file: &text[from..to],
            line,
            column: 1,
        },
        _ => Here {
            file: here.file,
            line: here.line,
            column: here.column + text.len() as u32,
        },
    }
}

/// Whether a `#` behind a piece would begin a directive (C99 6.10).
fn fresh_after(fresh: bool, lexeme: Lexeme) -> bool
    ensures { result ≡ fresh_after fresh lexeme }
{
    match lexeme {
        Lexeme::Blank | Lexeme::Comment => fresh,
        Lexeme::Newline | Lexeme::Marker { .. } | Lexeme::Ignored => true,
        _ => false,
    }
}

impl<'a> Walk<'a> {
    /// A whole source.
    pub fn new(name: &'a [u8], bytes: &'a [u8]) -> Walk<'a>
        requires { length bytes.now ≤ 8388608 }
        ensures rest { result.rest.now ≡ bytes.now }
        ensures at { result.at ≡ 0 }
        ensures fresh { result.fresh ≡ true }
        ensures here { spec.spot_of result.here ≡ beginning name.now }
        ensures small { spec.IsSmall result }
    {
        Walk {
            rest: bytes,
            at: 0,
            fresh: true,
            here: Here {
                file: name,
                line: 1,
                column: 1,
            },
        }
    }

    /// Takes the next piece (C99 6.4): what it is, and its bytes.
    pub fn step(&mut self) -> (Lexeme, &'a [u8])
        requires some { 0 < length self.old.rest.now }
        requires small { spec.IsSmall self.old }
        ensures piece { spec.IsNext self.old result.0 result.1.now self.new }
        ensures small { spec.IsSmall self.new }
        ensures named { IsNamedWithin (result.0, length result.1.now) }
    {
        let (lexeme, len) = piece_at(self.fresh, self.rest);
        let text = &self.rest[..len];
        self.rest = &self.rest[len..];
        self.at += len as u32;
        self.fresh = fresh_after(self.fresh, lexeme);
        self.here = past_piece(self.here, lexeme, text);
        (lexeme, text)
    }
}

/// Where the byte at an offset stands, or the end of the source (C99 6.10.4).
pub fn here_at<'a>(name: &'a [u8], bytes: &'a [u8], at: u32) -> Here<'a>
    requires short { length bytes.now ≤ 8388608 }
    requires within { at ≤ length bytes.now }
    ensures { spec.spot_of result ≡ located name.now bytes.now at }
{
    let mut walk = Walk::new(name, bytes);
    'pieces: while !walk.rest.is_empty() {
        let before = walk;
        let (_, text) = walk.step();
        if at < walk.at {
            let (line, column) = past_bytes(
                before.here.line,
                before.here.column,
                &text[..(at - before.at) as usize],
            );
            return Here {
                file: before.here.file,
                line,
                column,
            };
        }
    }
    walk.here
}
