ghost use Rattle.std.specs.Prelude.{◌≡◌, ◌++◌, IfOk};

use plain_data::{Items, Width};
use std::alloc::{AllocError, Global};
use std::marker::Model;

/// A stretch of a log, which is shared with the log.
#[derive(Drop)]
pub struct Stretch<'a> {
    bytes: &'a [u8],
}

impl<'a> Model for Stretch<'a> {
    ghost use Rattle.std.specs.Prelude.{ℕ, List};

    ghost Value = { List ℕ };

    ghost view = { λ s. s.bytes.now };
}

impl<'a> Stretch<'a> {
    /// These bytes of a log.
    pub fn of(bytes: &'a [u8]) -> Stretch<'a>
        ensures { result ≡ bytes.now }
    {
        Stretch { bytes }
    }

    /// The bytes.
    pub fn as_slice(&self) -> &'a [u8]
        ensures { result.now ≡ self.now }
    {
        self.bytes
    }
}

/// What a split says of one argument.
#[derive(Drop)]
pub enum Constraint<'a> {
    /// An integer that has these bits, converted to an unsigned type of the width.
    Equal {
        /// The bits, below 2^N.
        bits: u64,
        /// The width of the type.
        width: Width,
    },
    /// The integer of a `*` that is from `low` to `high`, converted to `int`.
    Between {
        /// The least number.
        low: i64,
        /// The greatest number.
        high: i64,
    },
    /// A text that begins with these bytes.
    Text {
        /// The bytes.
        bytes: Stretch<'a>,
        /// Whether the text is these bytes.
        ended: bool,
    },
    /// A null pointer.
    Null,
    /// A pointer that is shown by this number.
    Shown {
        /// The number.
        word: u64,
    },
}

/// A constraint for each argument, in order.
pub type Constraints<'a> = Items<Constraint<'a>>;

/// One way to spell a stretch of a log.
#[derive(Drop)]
pub struct Split<'a> {
    /// The position after the stretch.
    pub end: usize,
    /// What the arguments are.
    pub constraints: Constraints<'a>,
}

/// Splits, in no particular order.
pub type SplitList<'a> = Items<Split<'a>>;

impl<'a> Constraint<'a> {
    /// A copy, whose text is the same stretch of the log.
    pub fn copy(&self) -> Constraint<'a>
        ensures { result ≡ self.now }
    {
        match self {
            Constraint::Equal { bits, width } => Constraint::Equal {
                bits: *bits,
                width: *width,
            },
            Constraint::Between { low, high } => Constraint::Between {
                low: *low,
                high: *high,
            },
            Constraint::Text { bytes, ended } => Constraint::Text {
                bytes: Stretch::of(bytes.as_slice()),
                ended: *ended,
            },
            Constraint::Null => Constraint::Null,
            Constraint::Shown { word } => Constraint::Shown { word: *word },
        }
    }
}

/// Copies of constraints, and then others. It fails for want of memory alone.
pub fn joined<'a>(
    alloc: Global,
    front: &Constraints<'a>,
    back: Constraints<'a>,
) -> Result<Constraints<'a>, AllocError>
    ensures { IfOk result (λ all. all ≡ front.now ++ back.entry) }
{
    let mut all = Constraints::new(alloc);
    for constraint in front.as_slice() {
        all.push(constraint.copy())?;
    }
    all.append(back)?;
    Ok(all)
}
