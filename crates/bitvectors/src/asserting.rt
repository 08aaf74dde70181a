ghost use Rattle.std.specs.Prelude.{◌≡◌, ◌++◌, OnOk};
ghost use Rattle.bitvectors.specs.Blasts.{asserted, all_asserted};

use cnf_core::Formula;
use gates::Bit;
use std::alloc::AllocError;

/// Puts a clause at the end that is true where a bit is. It takes none where the bit is known to be true.
fn assert_bit(formula: &mut Formula, bit: &Bit) -> Result<(), AllocError>
    ensures { OnOk result (formula.new ≡ formula.old ++ asserted bit.now) }
{
    match bit {
        Bit::Known(true) => Ok(()),
        Bit::Known(false) => {
            formula.push(&[])?;
            Ok(())
        }
        Bit::Unknown(literal) => {
            formula.push(&[*literal])?;
            Ok(())
        }
    }
}

/// Puts clauses at the end that are true where each bit is.
pub(crate) fn assert_all(formula: &mut Formula, bits: &[Bit]) -> Result<(), AllocError>
    ensures { OnOk result (formula.new ≡ formula.old ++ all_asserted bits.now) }
{
    'bits: for index in 0..bits.len() {
        assert_bit(formula, &bits[index])?;
    }
    Ok(())
}
