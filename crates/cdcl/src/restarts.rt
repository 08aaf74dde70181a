/// When a search goes back to level 0: after so many conflicts as the next number of the sequence 1, 1, 2, 1, 1, 2, 4, ..
/// says, in hundreds (Luby, Sinclair and Zuckerman, "Optimal speedup of Las Vegas algorithms", 1993, by Knuth's reluctant
/// doubling).
#[derive(Clone, Copy)]
pub struct Restarts {
    turn: u32,
    length: u32,
    met: u32,
}

impl Restarts {
    /// How many conflicts the sequence's unit stands for.
    const UNIT: u32 = 100;

    /// No conflict was met.
    pub fn new() -> Restarts {
        Restarts {
            turn: 1,
            length: 1,
            met: 0,
        }
    }

    /// Notes a conflict, and answers whether the search is to go back.
    pub fn note(&mut self) -> bool {
        self.met = self.met.saturating_add(1);
        if self.met < self.length.saturating_mul(Restarts::UNIT) {
            return false;
        }
        self.met = 0;
        if self.turn & self.turn.wrapping_neg() == self.length {
            self.turn = self.turn.wrapping_add(1);
            self.length = 1;
        } else {
            self.length = self.length.saturating_mul(2);
        }
        true
    }
}
