ghost use Rattle.std.specs.Prelude.{◌≡◌, ◌<◌, ◌≤◌, ◌*◌, ◌^◌, true, length, IfOk, OnOk};
ghost use Rattle.plain_data.specs.Worlds.{Sets};
ghost use Rattle.cnf_core.specs.Truth.{formula_holds, value_of};
ghost use Rattle.gates.specs.Nets.{bit_holds};
ghost use Rattle.word_gates.specs.Spelling.{number, spelled};
ghost use Rattle.input_tables.specs.Rows.{Member};
ghost use Rattle.bitvectors.specs.Blasts.{HasWidth, HasWidths, IsBlasted, SetsRows, Shows};
ghost use Rattle.bitvectors.specs.declared.blasting.Blasted.{Blasted as BlastedType};

use crate::blasting::Blasted;
use crate::inputs::Inputs;
use cnf_core::Assignment;
use gates::{Bit, BlastFault};
use input_tables::Row;
use plain_data::World;
use std::alloc::Global;

/// A bit's value.
fn holds(bit: &Bit, values: &Assignment) -> bool
    ensures { result ≡ bit_holds (value_of values.now) bit.now }
{
    match bit {
        Bit::Known(value) => *value,
        Bit::Unknown(literal) => values.holds(*literal),
    }
}

/// What a bit is worth at a place.
fn part(bit: &Bit, place: usize, values: &Assignment) -> u64
    requires { place < 64 }
    ensures { result ≡ 2 ^ place * number (bit_holds (value_of values.now) bit.now) }
{
    if holds(bit, values) { 1 << place } else { 0 }
}

/// The number that a word spells.
fn number_of(word: &[Bit], values: &Assignment) -> u64
    requires { length word.now ≤ 64 }
    ensures { result ≡ spelled (value_of values.now) word.now }
{
    let mut number = 0;
    'bits: for index in 0..word.len() {
        let more = part(&word[index], index, values);
        number += more;
    }
    number
}

/// Sets a world's word by a row.
fn set_word(world: &mut World, row: &Row, values: &Assignment) -> Result<(), BlastFault>
    requires { HasWidths 64 row.now }
    ensures words { OnOk result (Sets world.old.words world.new.words
        (spelled (value_of values.now) row.now.key) (spelled (value_of values.now) row.now.value)) }
    ensures bytes { world.new.bytes ≡ world.old.bytes }
{
    let key = number_of(row.key.as_slice(), values);
    let value = number_of(row.value.as_slice(), values);
    match world.set_word(key, value) {
        Ok(()) => Ok(()),
        Err(_) => Err(BlastFault::Memory),
    }
}

/// Sets a world's initial byte by a row.
fn set_byte(world: &mut World, row: &Row, values: &Assignment) -> Result<(), BlastFault>
    requires { HasWidths 8 row.now }
    ensures bytes { OnOk result (Sets world.old.bytes world.new.bytes
        (spelled (value_of values.now) row.now.key) (spelled (value_of values.now) row.now.value)) }
    ensures words { world.new.words ≡ world.old.words }
{
    let key = number_of(row.key.as_slice(), values);
    let value = number_of(row.value.as_slice(), values) as u8;
    match world.set_byte(key, value) {
        Ok(()) => Ok(()),
        Err(_) => Err(BlastFault::Memory),
    }
}

/// Sets a world's words by rows.
fn set_words(world: &mut World, rows: &[Row], values: &Assignment) -> Result<(), BlastFault>
    requires { (x : _) → Member x rows.now → HasWidths 64 x }
    ensures words { OnOk result (SetsRows (value_of values.now) world.old.words world.new.words rows.now) }
    ensures bytes { world.new.bytes ≡ world.old.bytes }
{
    'rows: for index in 0..rows.len() {
        set_word(world, &rows[index], values)?;
    }
    Ok(())
}

/// Sets a world's initial bytes by rows.
fn set_bytes(world: &mut World, rows: &[Row], values: &Assignment) -> Result<(), BlastFault>
    requires { (x : _) → Member x rows.now → HasWidths 8 x }
    ensures bytes { OnOk result (SetsRows (value_of values.now) world.old.bytes world.new.bytes rows.now) }
    ensures words { world.new.words ≡ world.old.words }
{
    'rows: for index in 0..rows.len() {
        set_byte(world, &rows[index], values)?;
    }
    Ok(())
}

impl Inputs {
    /// The world that a model of a formula with these inputs stands for: on it, whatever the roots are, they have the
    /// values that their bits spell.
    pub fn decode(&self, alloc: Global, values: &Assignment) -> Result<World, BlastFault>
        requires words { HasWidth 64 self.now.words }
        requires bytes { HasWidth 8 self.now.bytes }
        ensures { IfOk result (λ world. (blasted : BlastedType) → blasted.inputs ≡ self.now → (shapes : _) → (roots : _) →
            IsBlasted shapes roots blasted → formula_holds (value_of values.now) blasted.formula ≡ true →
            Shows shapes roots blasted (value_of values.now) world) }
    {
        let mut world = World::new(alloc);
        set_words(&mut world, self.words.fixed.as_slice(), values)?;
        set_words(&mut world, self.words.free.as_slice(), values)?;
        set_bytes(&mut world, self.bytes.fixed.as_slice(), values)?;
        set_bytes(&mut world, self.bytes.free.as_slice(), values)?;
        Ok(world)
    }
}

impl Blasted {
    /// The world that a model stands for (`Inputs::decode`).
    pub fn decode(&self, alloc: Global, values: &Assignment) -> Result<World, BlastFault>
        requires words { HasWidth 64 self.now.inputs.words }
        requires bytes { HasWidth 8 self.now.inputs.bytes }
        ensures { IfOk result (λ world. (shapes : _) → (roots : _) → IsBlasted shapes roots self.now →
            formula_holds (value_of values.now) self.now.formula ≡ true →
            Shows shapes roots self.now (value_of values.now) world) }
    {
        let world = self.inputs.decode(alloc, values)?;
        Ok(world)
    }
}
