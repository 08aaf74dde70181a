ghost use Rattle.std.specs.Prelude.{◌≡◌, ◌∷◌, []};
ghost use Rattle.std.specs.List.{list_all};
ghost use Rattle.std.specs.Char.{is_ascii_digit};
ghost use Rattle.sl_config.specs.Words as spec;

fn are_digits(word: &[u8]) -> bool
    ensures { result ≡ list_all is_ascii_digit word.now }
{
    word.iter().all(|b| b.is_ascii_digit())
}

fn is_number(word: &[u8]) -> bool
    ensures { result ≡ spec.is_number word.now }
{
    1 <= word.len() && word.len() <= 9 && are_digits(word)
}

fn value_with(value: u32, byte: u8) -> u32
    ensures { result ≡ spec.value_after value (byte ∷ []) }
{
    value
        .saturating_mul(10)
        .saturating_add(u32::from(byte.saturating_sub(b'0')))
}

fn value_of(word: &[u8]) -> u32
    ensures { result ≡ spec.value_after 0 word.now }
{
    let mut value = 0u32;
    'bytes: for byte in word {
        value = value_with(value, *byte);
    }
    value
}

/// One to nine digits with a value in the range.
pub(crate) fn number_in(low: u32, high: u32, word: &[u8]) -> Option<u32>
    ensures { result ≡ spec.number_in low high word.now }
{
    if !is_number(word) {
        return None;
    }
    let value = value_of(word);
    if low <= value && value <= high {
        Some(value)
    } else {
        None
    }
}
