//! Where a function runs.
ghost use Rattle.std.specs.Prelude.{◌≡◌};
ghost use Rattle.log_expr.specs.Below.{Site};

/// Where a function runs, as far as its ends ask for it.
pub trait Stage {
    ghost site: { Self → Site };

    /// The log.
    fn log(&self) -> &[u8]
        ensures { result.now ≡ (site self.now).whole.log };

    /// How many turns its loops take.
    fn turns(&self) -> u32
        ensures { result ≡ (site self.now).turns };

    /// How many levels are left for its calls.
    fn left(&self) -> u32
        ensures { result ≡ (site self.now).left };
}
