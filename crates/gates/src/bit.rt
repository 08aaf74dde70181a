ghost use Rattle.std.specs.Prelude.{◌≡◌};
ghost use Rattle.gates.specs.Nets.{opposite};

use cnf_core::Lit;

/// A truth value: one that is known, or that of a literal.
#[derive(Clone, Copy)]
pub enum Bit {
    /// It is this in every model.
    Known(bool),
    /// It is the literal's.
    Unknown(Lit),
}

impl Bit {
    /// The other truth value. It takes no clause.
    pub fn negated(self) -> Bit
        ensures { result ≡ opposite self }
    {
        match self {
            Bit::Known(value) => Bit::Known(!value),
            Bit::Unknown(literal) => Bit::Unknown(literal.negated()),
        }
    }
}
