//! Where a run stands between two steps.

use c_language::Name;
use plain_data::Finish;

/// Where a run stands: an expression begins while it is running, and leaves it so, or ended. A statement that is
/// jumped out of, or over, leaves a run on its way to where it goes on (C99 6.8.6, 6.8.4.2).
#[derive(Drop)]
pub enum Kind {
    /// What comes next runs.
    Running,
    /// On the way out of the innermost loop or `switch` (C99 6.8.6.3).
    Breaking,
    /// On the way to the end of the innermost loop's body (C99 6.8.6.2).
    Continuing,
    /// On the way out of the function (C99 6.8.6.4).
    Returning,
    /// On the way to a label (C99 6.8.6.1).
    Going { label: Name },
    /// On the way to the `case` of this value (C99 6.8.4.2).
    Choosing { value: i128 },
    /// On the way to `default` (C99 6.8.4.2).
    Defaulting,
    /// The whole run has ended.
    Ended(Finish),
}
