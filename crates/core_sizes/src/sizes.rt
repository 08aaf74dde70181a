//! What the size of a part asks of the function that it stands in.
ghost use Rattle.std.specs.Prelude.{◌≡◌};
ghost use Rattle.core_sizes.specs.Nodes.{capped};
ghost use Rattle.core_tree.specs.States.{Measures};

/// What a function runs in, as far as its size asks for it.
pub trait Sizes {
    ghost measures: { Self → Measures };

    /// How many turns its loops take.
    fn turns(&self) -> u32
        ensures { result ≡ (measures self.now).turns };

    /// How many nodes the function of this number unrolls to where it is called, or the greatest number of 64 bits
    /// where it has more.
    fn size(&self, function: u32) -> u64
        ensures { result ≡ capped ((measures self.now).size function) };
}
