ghost use Rattle.std.specs.Prelude.{◌≡◌, IfOk};
ghost use Rattle.cert_text.specs.WorldSteps as spec;

use crate::entry::{Entry, entry_in, spells};
use std::alloc::{AllocError, Global};

/// What a line of a world says.
#[derive(Clone, Copy, PartialEq, Eq)]
pub(crate) enum Said {
    Head,
    Word(u32, u64),
    Byte(u64, u8),
    End,
}

fn is_word(entry: Entry) -> bool
    ensures { result ≡ spec.is_word entry }
{
    1 <= entry.key && entry.key <= 4_294_967_295 && 1 <= entry.value
}

fn is_byte(entry: Entry) -> bool
    ensures { result ≡ spec.is_byte entry }
{
    1 <= entry.value && entry.value <= 255
}

/// The word or byte that the line gives, where it is the entry's line.
#[tactic(auto, unfolding(crate::specs::WorldSteps::entry_said))]
fn entry_said(alloc: Global, entry: Entry, line: &[u8]) -> Result<Option<Said>, AllocError>
    ensures { IfOk result (λ said. said ≡ spec.entry_said entry line.now) }
{
    if spells(alloc, b'w', entry, line)? {
        if is_word(entry) {
            return Ok(Some(Said::Word(entry.key as u32, entry.value)));
        }
        return Ok(None);
    }
    if spells(alloc, b'b', entry, line)? && is_byte(entry) {
        return Ok(Some(Said::Byte(entry.key, entry.value as u8)));
    }
    Ok(None)
}

/// What a line says, if anything.
#[tactic(auto, unfolding(crate::specs::WorldSteps::said_by))]
pub(crate) fn said_by(alloc: Global, line: &[u8]) -> Result<Option<Said>, AllocError>
    ensures { IfOk result (λ said. said ≡ spec.said_by line.now) }
{
    if line == b"sherlog world 1\n".as_slice() {
        return Ok(Some(Said::Head));
    }
    if line == b"end\n".as_slice() {
        return Ok(Some(Said::End));
    }
    entry_said(alloc, entry_in(line), line)
}
