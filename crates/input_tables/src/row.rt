ghost use Rattle.std.specs.Prelude.{◌≡◌, ◌<◌, length, slice_get, Some, IfOk};
ghost use Rattle.gates.specs.Nets.{IsBit};
ghost use Rattle.word_gates.specs.Spelling.{AreBits};
ghost use Rattle.input_tables.specs.Rows.{IsNewRow};

use gates::{Bit, BlastFault, Gates};
use plain_data::Items;
use std::alloc::{AllocError, Global};
use word_gates::input;

/// Inputs that stand for what is found at a key.
#[derive(Drop)]
pub struct Row {
    /// A word of 64 bits.
    pub key: Items<Bit>,
    /// The inputs.
    pub value: Items<Bit>,
}

/// The same bits.
pub(crate) fn copied(gates: &Gates, bits: &[Bit]) -> Result<Items<Bit>, BlastFault>
    ensures { IfOk result (λ copy. copy ≡ bits.now) }
{
    let mut copy = gates.no_bits();
    copy.extend_from_slice(bits)?;
    Ok(copy)
}

/// The same row, in memory of its own.
fn copied_row(alloc: Global, row: &Row) -> Result<Row, AllocError>
    ensures { IfOk result (λ copy. copy ≡ row.now) }
{
    let key = Items::from_slice(alloc, row.key.as_slice())?;
    let value = Items::from_slice(alloc, row.value.as_slice())?;
    Ok(Row { key, value })
}

/// The same rows, in memory of their own.
pub(crate) fn copied_rows(alloc: Global, rows: &[Row]) -> Result<Items<Row>, AllocError>
    ensures { IfOk result (λ copy. copy ≡ rows.now) }
{
    let mut copy = Items::new(alloc);
    'rows: for index in 0..rows.len() {
        let row = copied_row(alloc, &rows[index])?;
        copy.push(row)?;
    }
    Ok(copy)
}

/// A row of new inputs, so many.
pub(crate) fn new_row(gates: &mut Gates, key: &[Bit], bits: u32) -> Result<Row, BlastFault>
    ensures { IfOk result (IsNewRow gates.old gates.new key.now bits) }
{
    let value = input(gates, bits)?;
    let copy = copied(gates, key)?;
    Ok(Row { key: copy, value })
}

/// The value of the row at a place.
pub(crate) fn value_at(rows: &[Row], place: usize) -> &[Bit]
    requires { place < length rows.now }
    ensures { (row : _) → slice_get rows.now place ≡ Some row → result.now ≡ row.value }
{
    rows[place].value.as_slice()
}
