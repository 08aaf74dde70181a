//! The texts of worlds.
ghost use Rattle.std.specs.Prelude.{◌≡◌, ◌++◌, codes, IfOk};
ghost use Rattle.std.specs.List.{flat_map};
ghost use Rattle.report_text.specs.WorldTexts as spec;

use crate::numbers::put_count;
use plain_data::{Bytes, World};
use std::alloc::AllocError;

fn put_entry(text: &mut Bytes, head: &[u8], key: u64, value: u64) -> Result<(), AllocError>
    ensures { IfOk result (λ _. text.new ≡ text.old ++ spec.entry_line head.now (key, value)) }
{
    put_count(text, head, key)?;
    put_count(text, b" ", value)?;
    text.push(b'\n')
}

fn put_words(text: &mut Bytes, world: &World) -> Result<(), AllocError>
    ensures { IfOk result (λ _. text.new ≡ text.old ++ flat_map (spec.entry_line (codes "w ")) world.now.words) }
{
    for (place, word) in world.words() {
        put_entry(text, b"w ", *place, *word)?;
    }
    Ok(())
}

fn put_bytes(text: &mut Bytes, world: &World) -> Result<(), AllocError>
    ensures { IfOk result (λ _. text.new ≡ text.old ++ flat_map (spec.entry_line (codes "b ")) world.now.bytes) }
{
    for (address, byte) in world.bytes() {
        put_entry(text, b"b ", *address, u64::from(*byte))?;
    }
    Ok(())
}

fn put_world(text: &mut Bytes, number: u64, world: &World) -> Result<(), AllocError>
    ensures { IfOk result (λ _. text.new ≡ text.old ++ spec.world_text number world.now) }
{
    put_count(text, b"world ", number)?;
    text.push(b'\n')?;
    put_words(text, world)?;
    put_bytes(text, world)
}

/// Puts the worlds, numbered from 1, at the end of a text. It fails for want of memory alone.
pub(crate) fn put_worlds(text: &mut Bytes, worlds: &[World]) -> Result<(), AllocError>
    ensures { IfOk result (λ _. text.new ≡ text.old ++ spec.world_texts 1 worlds.now) }
{
    let mut number = 0u64;
    for world in worlds {
        number += 1;
        put_world(text, number, world)?;
    }
    Ok(())
}
