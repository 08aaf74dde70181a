ghost use Rattle.std.specs.Prelude.{◌≡◌, ◌<◌, ◌≤◌, ◌^◌, ◌+◌, ◌*◌};
ghost use Rattle.cnf_core.specs.Literal.{Literal, negated, code_of};

use std::fmt;
use std::marker::Model;

/// A variable from 1 to 2147483647 or its negation, in four bytes.
#[derive(Clone, Copy)]
pub struct Lit {
    code: u32,
}

impl Model for Lit {
    ghost use Rattle.std.specs.Prelude.{◌≤◌};
    ghost use Rattle.cnf_core.specs.Literal.{Literal, literal_of, code_of, code_of-literal_of};

    ghost Value = { Literal };

    ghost view = { λ l. literal_of l.code };

    ghost invariant = { λ l. 2 ≤ l.code };

    ghost inverse = { λ d. record { code = code_of d } };

    ghost inverse_ok = { λ a h i. record { code = code_of-literal_of a.code i } };
}

impl Lit {
    /// The greatest variable.
    pub const MAX_VARIABLE: u32 = 0x7fff_ffff;

    /// The variable, or its negation where `positive` is false.
    pub fn new(variable: u32, positive: bool) -> Lit
        requires from_one { 1 ≤ variable }
        requires below { variable < 2 ^ 31 }
        ensures { result ≡ record { variable = variable; positive = positive } }
    {
        Lit {
            code: 2 * variable + !positive as u32,
        }
    }

    /// The literal's variable.
    pub fn variable(self) -> u32
        ensures value { result ≡ self.variable }
        ensures from_one { 1 ≤ result }
        ensures below { result < 2 ^ 31 }
    {
        self.code >> 1
    }

    /// Whether the literal is its variable, and not the negation.
    pub fn is_positive(self) -> bool
        ensures { result ≡ self.positive }
    {
        self.code & 1 == 0
    }

    /// The literal of the same variable that holds where this one doesn't.
    pub fn negated(self) -> Lit
        ensures { result ≡ negated self }
    {
        Lit {
            code: self.code ^ 1,
        }
    }

    /// A number of its own for each literal, from 2 on: twice the variable, and one more for a negation.
    pub fn code(self) -> u32
        ensures { result ≡ code_of self }
    {
        self.code
    }
}

impl PartialEq for Lit {
    ghost use Rattle.cnf_core.specs.Literal.{same};
    ghost use Rattle.cnf_core.specs.Equality.{same-partial_equivalence};

    ghost eq = { same };

    ghost laws = { same-partial_equivalence };

    fn eq(&self, other: &Lit) -> bool {
        self.code == other.code
    }
}

impl Eq for Lit {
    ghost use Rattle.cnf_core.specs.Equality.{same-equivalence};

    ghost laws = { same-equivalence };
}

/// Writes the variable's number, after a minus for a negation, as in the DIMACS format.
impl fmt::Display for Lit {
    fn fmt<W: fmt::Write>(&self, f: &mut fmt::Formatter<W>) -> fmt::Result {
        let variable = self.variable();
        if self.is_positive() {
            write!(f, "{variable}")
        } else {
            write!(f, "-{variable}")
        }
    }
}
