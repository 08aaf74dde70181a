ghost use Rattle.std.specs.Prelude.{◌≡◌, cond, length, nat_eq, true, false, IsTrue, IfOk, OnOk};
ghost use Rattle.gates.specs.declared.bit.Bit.TheVariants.{Known};
ghost use Rattle.gates.specs.Nets.{IsBit, IsGate, bit_holds};
ghost use Rattle.word_gates.specs.Spelling.{AreBits, spelled};
ghost use Rattle.input_tables.specs.Rows.{Constrains, IsRow, Member};

use crate::row::Row;
use gates::{Bit, BlastFault, Gates};
use plain_data::Items;
use word_gates::equal;

/// Whether a bit is known to be false.
fn is_false(bit: &Bit) -> bool
    ensures { IsTrue result → bit.now ≡ Known false }
{
    match bit {
        Bit::Known(value) => !*value,
        Bit::Unknown(_) => false,
    }
}

/// Whether two rows have one value if a bit is true.
fn alike_if(gates: &mut Gates, same: Bit, one: &Row, other: &Row) -> Result<Bit, BlastFault>
    requires same { IsBit gates.old same }
    requires one { IsRow gates.old (length other.now.value) one.now }
    requires other { IsRow gates.old (length other.now.value) other.now }
    ensures { IfOk result (IsGate gates.old gates.new (λ v.
        cond (bit_holds v same) (nat_eq (spelled v one.now.value) (spelled v other.now.value)) true)) }
{
    let alike = equal(gates, one.value.as_slice(), other.value.as_slice())?;
    let agree = gates.choose(same, alike, Bit::Known(true))?;
    Ok(agree)
}

/// Whether two rows have one value if they have one key. It takes no clause where the keys are known to differ.
fn agreement(gates: &mut Gates, one: &Row, other: &Row) -> Result<Bit, BlastFault>
    requires one { IsRow gates.old (length other.now.value) one.now }
    requires other { IsRow gates.old (length other.now.value) other.now }
    ensures { IfOk result (IsGate gates.old gates.new (λ v.
        cond (nat_eq (spelled v one.now.key) (spelled v other.now.key))
        (nat_eq (spelled v one.now.value) (spelled v other.now.value)) true)) }
{
    let same = equal(gates, one.key.as_slice(), other.key.as_slice())?;
    if is_false(&same) {
        return Ok(Bit::Known(true));
    }
    let agree = alike_if(gates, same, one, other)?;
    Ok(agree)
}

/// Puts the conditions on a row and each of others at the end: where they have one key, they have one value.
pub(crate) fn constrain(
    gates: &mut Gates,
    rows: &[Row],
    row: &Row,
    conditions: &mut Items<Bit>,
) -> Result<(), BlastFault>
    requires rows { (x : _) → Member x rows.now → IsRow gates.old (length row.now.value) x }
    requires row { IsRow gates.old (length row.now.value) row.now }
    requires conditions { AreBits gates.old conditions.old }
    ensures { OnOk result (Constrains gates.old gates.new rows.now row.now conditions.old conditions.new) }
{
    'rows: for index in 0..rows.len() {
        let condition = agreement(gates, &rows[index], row)?;
        conditions.push(condition)?;
    }
    Ok(())
}
