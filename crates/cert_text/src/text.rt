//! Texts that grow at their end.
ghost use Rattle.std.specs.Prelude.{◌≡◌, ◌++◌, IfOk};
ghost use Rattle.std.specs.Fmt.{decimal};
ghost use Rattle.cert_text.specs.WorldTexts.{entry_line};

use plain_data::Bytes;
use std::alloc::AllocError;

/// Puts a number at the end of a text, in decimal.
fn put_number(text: &mut Bytes, number: u64) -> Result<(), AllocError>
    ensures { IfOk result (λ _. text.new ≡ text.old ++ decimal number) }
{
    let last = b'0' + (number % 10) as u8;
    if number < 10 {
        return text.push(last);
    }
    put_number(text, number / 10)?;
    text.push(last)
}

/// Puts the line of an entry at the end of a text.
pub(crate) fn put_entry(
    text: &mut Bytes,
    letter: u8,
    key: u64,
    value: u64,
) -> Result<(), AllocError>
    ensures { IfOk result (λ _. text.new ≡ text.old ++ entry_line letter (key, value)) }
{
    text.push(letter)?;
    text.push(b' ')?;
    put_number(text, key)?;
    text.push(b' ')?;
    put_number(text, value)?;
    text.push(b'\n')
}
