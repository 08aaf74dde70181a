ghost use Rattle.std.specs.Prelude.{◌≡◌};
ghost use Rattle.plain_data.specs.Words.{bits};

/// How many bits a machine word has.
#[derive(Clone, Copy, PartialEq, Eq, Hash)]
pub enum Width {
    /// A byte, as `char` and `_Bool` have.
    W8,
    /// Two bytes, as `short` has.
    W16,
    /// Four bytes, as `int` has.
    W32,
    /// Eight bytes, as `long` and pointers have.
    W64,
}

impl Width {
    /// The number of bits.
    pub fn bits(self) -> u32
        ensures { result ≡ bits self }
    {
        match self {
            Width::W8 => 8,
            Width::W16 => 16,
            Width::W32 => 32,
            Width::W64 => 64,
        }
    }
}
