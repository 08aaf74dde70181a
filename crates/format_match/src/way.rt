ghost use Rattle.std.specs.Prelude.{◌≡◌, ◌++◌, ◌∷◌, [], OnOk, IfOk};
ghost use Rattle.format_match.specs.Ways.{range_constraints, sizes_constraints};

use crate::split::{Constraint, Constraints, Split, SplitList};
use std::alloc::{AllocError, Global};

/// The numbers from `low` to `high`, as values of a `*`.
#[derive(Clone, Copy)]
pub struct Range {
    /// The least number.
    pub low: i64,
    /// The greatest number.
    pub high: i64,
}

/// A width or a precision that holds.
#[derive(Clone, Copy)]
pub struct Amount {
    /// The number.
    pub value: i64,
    /// Where a `*` gives it, the numbers that print the same.
    pub range: Option<Range>,
}

/// A width, and a precision that is below 0 where there is none.
#[derive(Clone, Copy)]
pub struct Sizes {
    /// The width.
    pub width: Amount,
    /// The precision.
    pub precision: Amount,
}

/// Puts a range's constraint at the end.
fn push_range<'a>(out: &mut Constraints<'a>, range: Option<Range>) -> Result<(), AllocError>
    ensures { OnOk result (out.new ≡ out.old ++ range_constraints range) }
{
    if let Some(Range { low, high }) = range {
        out.push(Constraint::Between { low, high })?;
    }
    Ok(())
}

/// Puts the split of a conversion at the end, from what it says of the converted argument.
pub fn push_way<'a>(
    alloc: Global,
    out: &mut SplitList<'a>,
    sizes: Sizes,
    end: usize,
    constraint: Constraint<'a>,
) -> Result<(), AllocError>
    ensures { OnOk result (out.new ≡ out.old ++ record { end = end; constraints = sizes_constraints sizes constraint.entry } ∷ []) }
{
    let mut constraints = Constraints::new(alloc);
    push_range(&mut constraints, sizes.width.range)?;
    push_range(&mut constraints, sizes.precision.range)?;
    constraints.push(constraint)?;
    out.push(Split { end, constraints })
}
