ghost use Rattle.std.specs.Prelude.{◌≡◌, ◌↔◌, IsTrue, ◌||◌, ◌==◌, nat_lt, length, slice_index};
ghost use Rattle.std.specs.List.{list_all};
ghost use Rattle.std.specs.Char.{is_ascii_digit};
ghost use Rattle.cert_text.specs.Lines.{lines_of};
ghost use Rattle.cert_text.specs.WorldTexts as spec;

use crate::lines::line_len;

/// Whether the bytes are one byte, or begin with no zero.
fn begins_number(bytes: &[u8]) -> bool
    ensures { result ≡ (length bytes.now == 1 || nat_lt 48 (slice_index bytes.now 0)) }
{
    match bytes {
        [] => false,
        [_] => true,
        [first, ..] => *first > b'0',
    }
}

fn are_digits(bytes: &[u8]) -> bool
    ensures { result ≡ list_all is_ascii_digit bytes.now }
{
    bytes.iter().all(|b| b.is_ascii_digit())
}

/// Whether the bytes are a number without leading zeros.
fn is_numeral(bytes: &[u8]) -> bool
    ensures { result ≡ spec.is_numeral bytes.now }
{
    begins_number(bytes) && are_digits(bytes)
}

/// Whether a line names a version other than 1.
fn is_other_version(line: &[u8]) -> bool
    ensures { IsTrue result ↔ spec.IsOtherVersion line.now }
{
    let Some(tail) = line.strip_prefix(b"sherlog world ") else {
        return false;
    };
    let Some(number) = tail.strip_suffix(b"\n") else {
        return false;
    };
    is_numeral(number) && number != b"1".as_slice()
}

/// Whether the first line does.
pub(crate) fn names_other_version(bytes: &[u8]) -> bool
    ensures { IsTrue result ↔ spec.NamesOtherVersion (lines_of bytes.now) }
{
    is_other_version(&bytes[..line_len(bytes)])
}
