//! The bits of what a query is asked.
ghost use Rattle.std.specs.Prelude.{◌≡◌};
ghost use Rattle.query_core.specs.Claims.{first_bit, root_bit, asked_bit};

use crate::target::Target;
use gates::Bit;
use plain_data::Rows;

/// The first bit of a word.
fn leading_bit(word: &[Bit]) -> Bit
    ensures { result ≡ first_bit word.now }
{
    if word.is_empty() {
        return Bit::Known(false);
    }
    word[0]
}

/// The bit of the root at an index.
pub(crate) fn bit_of_root(roots: &Rows<Bit>, index: usize) -> Bit
    ensures { result ≡ root_bit roots.now index }
{
    if index < roots.len() {
        let bit = leading_bit(roots.row(index));
        return bit;
    }
    Bit::Known(false)
}

/// The bit that is true where a run that fits is as it is asked for; a question on a value has none among the roots.
pub(crate) fn bit_of_target(roots: &Rows<Bit>, target: Target) -> Bit
    ensures { result ≡ asked_bit roots.now target }
{
    match target {
        Target::Fits => Bit::Known(true),
        Target::Having(number) => {
            let bit = bit_of_root(roots, number as usize);
            bit
        }
        Target::Lacking(number) => {
            let bit = bit_of_root(roots, number as usize);
            bit.negated()
        }
        Target::Other { .. } => Bit::Known(false),
    }
}
