//! Numbers in decimal.
ghost use Rattle.std.specs.Prelude.{◌≡◌, ◌++◌, IfOk};
ghost use Rattle.std.specs.Fmt.{decimal, signed_decimal};
ghost use Rattle.report_text.specs.Numbers.{count_text};

use plain_data::Bytes;
use std::alloc::AllocError;

/// Puts a number at the end of a text, in decimal. It fails for want of memory alone.
pub(crate) fn put_number(text: &mut Bytes, number: u128) -> Result<(), AllocError>
    ensures { IfOk result (λ _. text.new ≡ text.old ++ decimal number) }
{
    let last = b'0' + (number % 10) as u8;
    if number < 10 {
        return text.push(last);
    }
    put_number(text, number / 10)?;
    text.push(last)
}

/// Puts a number that may be negative at the end of a text, in decimal. It fails for want of memory alone.
pub(crate) fn put_signed(text: &mut Bytes, number: i128) -> Result<(), AllocError>
    ensures { IfOk result (λ _. text.new ≡ text.old ++ signed_decimal number) }
{
    if number < 0 {
        text.push(b'-')?;
    }
    put_number(text, number.unsigned_abs())
}

/// Puts a number behind its head at the end of a text. It fails for want of memory alone.
#[tactic(auto, unfolding(crate::specs::Numbers::count_text))]
pub fn put_count(text: &mut Bytes, head: &[u8], count: u64) -> Result<(), AllocError>
    ensures { IfOk result (λ _. text.new ≡ text.old ++ count_text head.now count) }
{
    text.extend_from_slice(head)?;
    put_number(text, u128::from(count))
}
