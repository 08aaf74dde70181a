ghost use Rattle.std.specs.Prelude.{◌≡◌, IfOk};
ghost use Rattle.cert_text.specs.WorldSteps as spec;

use crate::text::put_entry;
use plain_data::Items;
use std::alloc::{AllocError, Global};

/// A key, and what stands there.
#[derive(Clone, Copy, PartialEq, Eq)]
pub(crate) struct Entry {
    pub(crate) key: u64,
    pub(crate) value: u64,
}

/// A number with one more digit, up to the greatest word.
fn entry_with(entry: Entry, byte: u8) -> Entry
    ensures { result ≡ spec.entry_with entry byte }
{
    match byte {
        b' ' => Entry {
            key: entry.value,
            value: 0,
        },
        b'0'..=b'9' => Entry {
            key: entry.key,
            value: entry
                .value
                .saturating_mul(10)
                .saturating_add(u64::from(byte - b'0')),
        },
        _ => entry,
    }
}

/// The only entry whose line the bytes may be.
pub(crate) fn entry_in(line: &[u8]) -> Entry
    ensures { result ≡ spec.entry_in line.now }
{
    let mut entry = Entry { key: 0, value: 0 };
    'bytes: for byte in line {
        entry = entry_with(entry, *byte);
    }
    entry
}

/// Whether the bytes are the entry's line.
pub(crate) fn spells(
    alloc: Global,
    letter: u8,
    entry: Entry,
    line: &[u8],
) -> Result<bool, AllocError>
    ensures { IfOk result (λ b. b ≡ spec.spells letter entry line.now) }
{
    let mut text = Items::new(alloc);
    put_entry(&mut text, letter, entry.key, entry.value)?;
    Ok(line == text.as_slice())
}
