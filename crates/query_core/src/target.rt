/// What is asked of the runs that fit a log; a number is a fact's, or a watched variable's, from 1.
#[derive(Clone, Copy)]
pub enum Target {
    /// Whether a run fits.
    Fits,
    /// Whether a run fits on which the fact holds.
    Having(u32),
    /// Whether a run fits on which the fact doesn't hold.
    Lacking(u32),
    /// Whether a run fits on which some print saw another value than this of the watched variable.
    Other { watch: u32, value: i128 },
}
