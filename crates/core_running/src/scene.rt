//! What a function runs in.
ghost use Rattle.std.specs.Prelude.{◌≡◌};
ghost use Rattle.core_running.specs.Settings.{Setting};

/// What a function of the core runs in, as far as its code and expressions ask for it.
pub trait Scene {
    ghost setting: { Self → Setting };

    /// How many turns its loops take.
    fn turns(&self) -> u32
        ensures { result ≡ (setting self.now).measures.turns };

    /// How many places a call of the function of this number takes besides those of its arguments.
    fn room(&self, function: u32) -> u64
        ensures { result ≡ (setting self.now).measures.room function };

    /// The greatest number of bytes of a heap object.
    fn heap(&self) -> u32
        ensures { result ≡ (setting self.now).limits.heap };

    /// How many bytes a string from outside has, but for its last.
    fn outside(&self) -> u32
        ensures { result ≡ (setting self.now).limits.outside };
}
