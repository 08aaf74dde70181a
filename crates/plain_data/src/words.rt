ghost use Rattle.std.specs.Prelude.{◌≡◌, ◌≢◌, ◌-◌, ◌%◌, ◌^◌, ◌<◌, ◌/◌, ◌↔◌, IsTrue, pos};
ghost use Rattle.plain_data.specs.Words.{bits, word, signed, is_signed, add, sub, mul, sdiv, srem, shl, lshr, ashr, add_over, sub_over, mul_over, shl_over, ult, slt, IsLeastByMinusOne};

use crate::Width;

/// A number's lowest bits.
fn low(value: u128, width: Width) -> u64
    ensures { result ≡ value % 2 ^ bits width }
{
    match width {
        Width::W8 => (value % 0x100) as u64,
        Width::W16 => (value % 0x1_0000) as u64,
        Width::W32 => (value % 0x1_0000_0000) as u64,
        Width::W64 => (value % 0x1_0000_0000_0000_0000) as u64,
    }
}

/// 2 to the number of bits.
fn modulus(width: Width) -> u128
    ensures { result ≡ 2 ^ bits width }
{
    match width {
        Width::W8 => 0x100,
        Width::W16 => 0x1_0000,
        Width::W32 => 0x1_0000_0000,
        Width::W64 => 0x1_0000_0000_0000_0000,
    }
}

/// The greatest number of a signed type, 2^(N-1) - 1.
fn greatest(width: Width) -> i64
    ensures { result ≡ pos (2 ^ (bits width - 1) - 1) }
{
    match width {
        Width::W8 => 0x7f,
        Width::W16 => 0x7fff,
        Width::W32 => 0x7fff_ffff,
        Width::W64 => 0x7fff_ffff_ffff_ffff,
    }
}

/// Whether a number is in the signed type of a width.
fn fits(value: i128, width: Width) -> bool
    ensures { result ≡ is_signed width value }
{
    let most = i128::from(greatest(width));
    -1 - most <= value && value <= most
}

/// The number modulo 2^N (C99 6.3.1.3).
pub fn wrap(value: i128, width: Width) -> u64
    ensures value { result ≡ word width value }
    ensures within { result < 2 ^ bits width }
{
    match width {
        Width::W8 => value.rem_euclid(0x100) as u64,
        Width::W16 => value.rem_euclid(0x1_0000) as u64,
        Width::W32 => value.rem_euclid(0x1_0000_0000) as u64,
        Width::W64 => value.rem_euclid(0x1_0000_0000_0000_0000) as u64,
    }
}

/// The number that a word is in two's complement (C99 6.2.6.2).
pub fn to_signed(a: u64, width: Width) -> i64
    requires { a < 2 ^ bits width }
    ensures { result ≡ signed width a }
{
    match width {
        Width::W8 if a < 0x80 => a as i64,
        Width::W8 => a as i64 - 0x100,
        Width::W16 if a < 0x8000 => a as i64,
        Width::W16 => a as i64 - 0x1_0000,
        Width::W32 if a < 0x8000_0000 => a as i64,
        Width::W32 => a as i64 - 0x1_0000_0000,
        Width::W64 => a.cast_signed(),
    }
}

/// `a + b` modulo 2^N.
pub fn add(a: u64, b: u64, width: Width) -> u64
    requires a_in { a < 2 ^ bits width }
    requires b_in { b < 2 ^ bits width }
    ensures value { result ≡ add width a b }
    ensures within { result < 2 ^ bits width }
{
    low(u128::from(a) + u128::from(b), width)
}

/// `a - b` modulo 2^N.
pub fn sub(a: u64, b: u64, width: Width) -> u64
    requires a_in { a < 2 ^ bits width }
    requires b_in { b < 2 ^ bits width }
    ensures value { result ≡ sub width a b }
    ensures within { result < 2 ^ bits width }
{
    low(u128::from(a) + (modulus(width) - u128::from(b)), width)
}

/// `a * b` modulo 2^N.
pub fn mul(a: u64, b: u64, width: Width) -> u64
    requires a_in { a < 2 ^ bits width }
    requires b_in { b < 2 ^ bits width }
    ensures value { result ≡ mul width a b }
    ensures within { result < 2 ^ bits width }
{
    low(u128::from(a) * u128::from(b), width)
}

/// `a / b` of unsigned words.
pub fn udiv(a: u64, b: u64, width: Width) -> u64
    requires a_in { a < 2 ^ bits width }
    requires b_in { b < 2 ^ bits width }
    requires divisor { b ≢ 0 }
    ensures value { result ≡ a / b }
    ensures within { result < 2 ^ bits width }
{
    a / b
}

/// `a % b` of unsigned words.
pub fn urem(a: u64, b: u64, width: Width) -> u64
    requires a_in { a < 2 ^ bits width }
    requires b_in { b < 2 ^ bits width }
    requires divisor { b ≢ 0 }
    ensures value { result ≡ a % b }
    ensures within { result < 2 ^ bits width }
{
    a % b
}

/// Whether signed `a / b` leaves the type: the least number by -1 (C99 6.5.5).
pub fn div_over(a: u64, b: u64, width: Width) -> bool
    requires a_in { a < 2 ^ bits width }
    requires b_in { b < 2 ^ bits width }
    ensures { IsTrue result ↔ IsLeastByMinusOne width a b }
{
    let modulus = modulus(width);
    u128::from(a) == modulus / 2 && u128::from(b) == modulus - 1
}

/// `a / b` of signed words, toward zero (C99 6.5.5).
pub fn sdiv(a: u64, b: u64, width: Width) -> u64
    requires a_in { a < 2 ^ bits width }
    requires b_in { b < 2 ^ bits width }
    requires divisor { b ≢ 0 }
    requires quotient { ¬ IsLeastByMinusOne width a b }
    ensures value { result ≡ sdiv width a b }
    ensures within { result < 2 ^ bits width }
{
    wrap(i128::from(to_signed(a, width) / to_signed(b, width)), width)
}

/// `a % b` of signed words, with the sign of `a` (C99 6.5.5).
pub fn srem(a: u64, b: u64, width: Width) -> u64
    requires a_in { a < 2 ^ bits width }
    requires b_in { b < 2 ^ bits width }
    requires divisor { b ≢ 0 }
    requires quotient { ¬ IsLeastByMinusOne width a b }
    ensures value { result ≡ srem width a b }
    ensures within { result < 2 ^ bits width }
{
    wrap(i128::from(to_signed(a, width) % to_signed(b, width)), width)
}

/// `a << by` modulo 2^N.
pub fn shl(a: u64, by: u32, width: Width) -> u64
    requires a_in { a < 2 ^ bits width }
    requires by_in { by < bits width }
    ensures value { result ≡ shl width a by }
    ensures within { result < 2 ^ bits width }
{
    low(u128::from(a) << by, width)
}

/// `a >> by` of an unsigned word.
pub fn lshr(a: u64, by: u32, width: Width) -> u64
    requires a_in { a < 2 ^ bits width }
    requires by_in { by < bits width }
    ensures value { result ≡ lshr a by }
    ensures within { result < 2 ^ bits width }
{
    a >> by
}

/// `a >> by` of a signed word, which copies the sign bit.
pub fn ashr(a: u64, by: u32, width: Width) -> u64
    requires a_in { a < 2 ^ bits width }
    requires by_in { by < bits width }
    ensures value { result ≡ ashr width a by }
    ensures within { result < 2 ^ bits width }
{
    wrap(i128::from(to_signed(a, width) >> by), width)
}

/// Whether signed `a + b` leaves the type.
pub fn add_over(a: u64, b: u64, width: Width) -> bool
    requires a_in { a < 2 ^ bits width }
    requires b_in { b < 2 ^ bits width }
    ensures { result ≡ add_over width a b }
{
    !fits(
        i128::from(to_signed(a, width)) + i128::from(to_signed(b, width)),
        width,
    )
}

/// Whether signed `a - b` leaves the type.
pub fn sub_over(a: u64, b: u64, width: Width) -> bool
    requires a_in { a < 2 ^ bits width }
    requires b_in { b < 2 ^ bits width }
    ensures { result ≡ sub_over width a b }
{
    !fits(
        i128::from(to_signed(a, width)) - i128::from(to_signed(b, width)),
        width,
    )
}

/// Whether signed `a * b` leaves the type.
pub fn mul_over(a: u64, b: u64, width: Width) -> bool
    requires a_in { a < 2 ^ bits width }
    requires b_in { b < 2 ^ bits width }
    ensures { result ≡ mul_over width a b }
{
    !fits(
        i128::from(to_signed(a, width)) * i128::from(to_signed(b, width)),
        width,
    )
}

/// Whether signed `a << by` is undefined (C99 6.5.7): `by` isn't below the width, `a` is negative,
/// or the result leaves the type.
pub fn shl_over(a: u64, by: u32, width: Width) -> bool
    requires { a < 2 ^ bits width }
    ensures { result ≡ shl_over width a by }
{
    if by >= width.bits() {
        return true;
    }
    let value = i128::from(to_signed(a, width));
    value < 0 || !fits(value << by, width)
}

/// `a < b` of unsigned words.
pub fn ult(a: u64, b: u64, width: Width) -> bool
    requires a_in { a < 2 ^ bits width }
    requires b_in { b < 2 ^ bits width }
    ensures { result ≡ ult a b }
{
    a < b
}

/// `a < b` of signed words.
pub fn slt(a: u64, b: u64, width: Width) -> bool
    requires a_in { a < 2 ^ bits width }
    requires b_in { b < 2 ^ bits width }
    ensures { result ≡ slt width a b }
{
    to_signed(a, width) < to_signed(b, width)
}
