ghost use Rattle.std.specs.Prelude.{◌≡◌, ◌++◌, [], if◌then◌else◌, IfOk, IfErr};
ghost use Rattle.std.specs.List.{flat_map};
ghost use Rattle.cert_text.specs.WorldTexts as spec;

use crate::fault::CertFault;
use crate::text::put_entry;
use plain_data::{Bytes, Items, World};
use std::alloc::{AllocError, Global};

/// Puts the line of a word at the end of a text, where its place is one.
fn put_word(text: &mut Bytes, place: u64, word: u64) -> Result<(), AllocError>
    ensures { IfOk result (λ _. text.new ≡ text.old ++ (if spec.has_line (place, word) then spec.word_line (place, word) else [])) }
{
    if 1 <= place && place <= 4_294_967_295 {
        return put_entry(text, b'w', place, word);
    }
    Ok(())
}

fn put_words(text: &mut Bytes, world: &World) -> Result<(), AllocError>
    ensures { IfOk result (λ _. text.new ≡ text.old ++ flat_map (λ e. if spec.has_line e then spec.word_line e else []) world.now.words) }
{
    for (place, word) in world.words() {
        put_word(text, *place, *word)?;
    }
    Ok(())
}

fn put_bytes(text: &mut Bytes, world: &World) -> Result<(), AllocError>
    ensures { IfOk result (λ _. text.new ≡ text.old ++ flat_map spec.byte_line world.now.bytes) }
{
    for (address, byte) in world.bytes() {
        put_entry(text, b'b', *address, u64::from(*byte))?;
    }
    Ok(())
}

fn put_world(text: &mut Bytes, world: &World) -> Result<(), AllocError>
    ensures { IfOk result (λ _. text.new ≡ text.old ++ spec.world_text world.now) }
{
    text.extend_from_slice(b"sherlog world 1\n")?;
    put_words(text, world)?;
    put_bytes(text, world)?;
    text.extend_from_slice(b"end\n")?;
    Ok(())
}

/// The text of a world. A word whose place is outside 1 to 4294967295 has no line. It fails for want
/// of memory alone.
pub fn write_world(alloc: Global, world: &World) -> Result<Bytes, CertFault>
    ensures ok { IfOk result (λ bytes. bytes ≡ spec.world_text world.now) }
    ensures err { IfErr result (λ fault. fault ≡ CertFault.Memory) }
{
    let mut text = Items::new(alloc);
    match put_world(&mut text, world) {
        Ok(()) => Ok(text),
        Err(_) => Err(CertFault::Memory),
    }
}
