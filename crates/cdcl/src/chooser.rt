ghost use Rattle.std.specs.Prelude.{◌≤◌, ℕ};
ghost use Rattle.cdcl.specs.Ranks.{IsUnset, IsFirst};

use crate::scores::Scores;

/// How a solver chooses the variable that it decides next.
pub trait Chooser {
    /// Names an open variable, where some variable is open.
    fn pick(&self, scores: &Scores) -> u32
        requires { (v : ℕ) × IsUnset scores.now.unset v }
        ensures { IsUnset scores.now.unset result };
}

/// The open variable with the greatest activity (`Scores::activity`, the marks with older conflicts counting for less),
/// and of these the one with the least number.
#[derive(Clone, Copy)]
pub struct MostMarked;

impl Chooser for MostMarked {
    fn pick(&self, scores: &Scores) -> u32
        requires { (v : ℕ) × IsUnset scores.now.unset v }
        ensures open { IsUnset scores.now.unset result }
        ensures first { IsFirst scores.now.unset scores.now.activities result }
    {
        scores.first().unwrap_or(0)
    }
}

/// The open variable with the least number. It goes through the variables up to that one.
#[derive(Clone, Copy)]
pub struct LeastOpen;

impl Chooser for LeastOpen {
    fn pick(&self, scores: &Scores) -> u32
        requires { (v : ℕ) × IsUnset scores.now.unset v }
        ensures open { IsUnset scores.now.unset result }
        ensures least { (v : ℕ) → IsUnset scores.now.unset v → result ≤ v }
    {
        for index in 0..scores.count() {
            if scores.is_open(index + 1) {
                return index + 1;
            }
        }
        0
    }
}
