ghost use Rattle.std.specs.Prelude.{◌≡◌, ◌≢◌, ◌≤◌, ◌<◌, ◌-◌, ℕ, List, Option, Some, None, Ok, Err, IfOk, IfErr, MatchResult, MatchOption, SomeIff, length, All, IsTrue, true};
ghost use Rattle.printf_text.specs.declared.piece.Size.{Size};
ghost use Rattle.std.specs.List.{prefix_len};
ghost use Rattle.printf_text.specs.Pieces.{taken, has_accepted_parts, number_or, star_or_number, precision_after, specified, run, after_run, after, is_flag, is_digit, is_plain, flags_of, decimal, width_at, precision_at, length_at, form_of, is_accepted, is_in_limit, conversion_at, specification_at, step_of, format_text, pieces_of};

use crate::piece::{Conversion, Flags, Form, Piece, Pieces, Radix, Size};
use plain_data::{Bytes, Width};
use std::alloc::Global;
use thiserror::Error;

/// Why a format has no pieces.
#[derive(Clone, Copy, Debug, PartialEq, Eq, Drop, Error)]
pub enum FormatFault {
    /// The conversion whose `%` has this offset isn't of an accepted form, or is one too many.
    #[error("unsupported conversion at byte {0}")]
    Unsupported(usize),
    /// The format ends inside the conversion whose `%` has this offset.
    #[error("conversion cut off at byte {0}")]
    Truncated(usize),
    /// Memory ran out.
    #[error("out of memory")]
    Memory,
}

/// What follows a `%`.
#[derive(Clone, Copy)]
pub enum Reading {
    /// The format's end.
    Cut,
    /// No accepted form.
    Refused,
    /// A second `%`.
    Percent,
    /// A conversion.
    Accepted(Conversion),
}

/// The greatest number of conversions in a format, `%%` among them.
const MAX_CONVERSIONS: u32 = 64;

/// The greatest width and precision that may be written.
const MAX_SIZE: u32 = 65_536;

/// What follows a byte, where the text begins with it.
fn after(c: u8, bytes: &[u8]) -> Option<&[u8]>
    ensures { MatchOption result (after c bytes.now ≡ None) (λ rest. after c bytes.now ≡ Some rest.now) }
{
    match bytes {
        [first, rest @ ..] if *first == c => Some(rest),
        _ => None,
    }
}

/// Whether a byte is a flag.
fn is_flag(b: u8) -> bool
    ensures { result ≡ is_flag b }
{
    b == b'-' || b == b'+' || b == b' ' || b == b'#' || b == b'0'
}

/// Whether a byte is a decimal digit.
fn is_digit(b: u8) -> bool
    ensures { result ≡ is_digit b }
{
    b.is_ascii_digit()
}

/// How many flags a text begins with.
fn flags_len(bytes: &[u8]) -> usize
    ensures { result ≡ prefix_len is_flag bytes.now }
{
    bytes.iter().take_while(|b| is_flag(**b)).count()
}

/// How many digits a text begins with.
fn digits_len(bytes: &[u8]) -> usize
    ensures { result ≡ prefix_len is_digit bytes.now }
{
    bytes.iter().take_while(|b| is_digit(**b)).count()
}

/// How many bytes other than `%` a text begins with.
fn plain_len(bytes: &[u8]) -> usize
    ensures { result ≡ prefix_len is_plain bytes.now }
{
    bytes.iter().take_while(|b| **b != b'%').count()
}

/// The set of flags that bytes write.
fn flags_of(run: &[u8]) -> Flags
    ensures { result ≡ flags_of run.now }
{
    Flags {
        left: run.contains(&b'-'),
        plus: run.contains(&b'+'),
        space: run.contains(&b' '),
        alternate: run.contains(&b'#'),
        zero: run.contains(&b'0'),
    }
}

/// The flags that a text begins with, and what follows them.
fn read_flags(bytes: &[u8]) -> (Flags, &[u8])
    ensures flags { result.0 ≡ flags_of (run is_flag bytes.now) }
    ensures rest { result.1.now ≡ after_run is_flag bytes.now }
{
    let (run, rest) = bytes.split_at(flags_len(bytes));
    (flags_of(run), rest)
}

/// The number that digits write, unless it is above the limit.
fn decimal(digits: &[u8]) -> Option<u32>
    requires { All (λ b. IsTrue (is_digit b)) digits.now }
    ensures { SomeIff result (decimal digits.now ≤ 65536) (decimal digits.now) }
{
    let mut value = 0;
    for digit in digits {
        value = value * 10 + u32::from(*digit - b'0');
        if value > MAX_SIZE {
            return None;
        }
    }
    Some(value)
}

/// The number that a text begins with, or `none` where it begins with no digit, and what follows.
fn read_number(none: Size, bytes: &[u8]) -> (Option<Size>, &[u8])
    requires { is_in_limit none ≡ true }
    ensures size { result.0 ≡ taken (number_or none (run is_digit bytes.now)) }
    ensures rest { result.1.now ≡ after_run is_digit bytes.now }
{
    let (digits, rest) = bytes.split_at(digits_len(bytes));
    if digits.is_empty() {
        return (Some(none), rest);
    }
    (decimal(digits).map(Size::Written), rest)
}

/// `*` or a number, and what follows.
fn read_size(none: Size, bytes: &[u8]) -> (Option<Size>, &[u8])
    requires { is_in_limit none ≡ true }
    ensures size { result.0 ≡ taken (star_or_number none bytes.now (after 42 bytes.now)).part }
    ensures rest { result.1.now ≡ (star_or_number none bytes.now (after 42 bytes.now)).rest }
{
    match after(b'*', bytes) {
        Some(rest) => (Some(Size::Star), rest),
        None => read_number(none, bytes),
    }
}

/// A precision, and what follows it.
fn read_precision(bytes: &[u8]) -> (Option<Size>, &[u8])
    ensures size { result.0 ≡ taken (precision_at bytes.now).part }
    ensures rest { result.1.now ≡ (precision_at bytes.now).rest }
{
    match after(b'.', bytes) {
        Some(rest) => read_size(Size::Written(0), rest),
        None => (Some(Size::Omitted), bytes),
    }
}

/// The width that a length gives, and what follows it.
fn read_length(bytes: &[u8]) -> (Option<Width>, &[u8])
    ensures length { result.0 ≡ (length_at bytes.now).part }
    ensures rest { result.1.now ≡ (length_at bytes.now).rest }
{
    match bytes {
        [b'h', b'h', rest @ ..] => (Some(Width::W8), rest),
        [b'h', rest @ ..] => (Some(Width::W16), rest),
        [b'l', b'l', rest @ ..] => (Some(Width::W64), rest),
        [b'l' | b'j' | b'z' | b't', rest @ ..] => (Some(Width::W64), rest),
        _ => (None, bytes),
    }
}

/// What a specifier's letter says, where it may have this length.
fn form_of(size: Option<Width>, letter: u8) -> Option<Form>
    ensures { result ≡ form_of size letter }
{
    let width = size.unwrap_or(Width::W32);
    match letter {
        b'd' | b'i' => Some(Form::Signed(width)),
        b'u' => Some(Form::Unsigned(Radix::Decimal, width)),
        b'o' => Some(Form::Unsigned(Radix::Octal, width)),
        b'x' => Some(Form::Unsigned(Radix::LowerHex, width)),
        b'X' => Some(Form::Unsigned(Radix::UpperHex, width)),
        b'c' if size.is_none() => Some(Form::Char),
        b's' if size.is_none() => Some(Form::Text),
        b'p' if size.is_none() => Some(Form::Pointer),
        _ => None,
    }
}

/// Whether a conversion is of an accepted form, but for the numbers that it writes.
fn has_accepted_parts(c: &Conversion) -> bool
    ensures { result ≡ has_accepted_parts c.now }
{
    let (alternates, fills, cuts) = match c.form {
        Form::Signed(_) | Form::Unsigned(Radix::Decimal, _) => (false, true, true),
        Form::Unsigned(_, _) => (true, true, true),
        Form::Text => (false, false, true),
        Form::Char | Form::Pointer => (false, false, false),
    };
    (alternates || !c.flags.alternate)
        && (fills || !c.flags.zero)
        && (cuts || c.precision == Size::Omitted)
}

/// A conversion and what follows it, by what follows its `%`.
fn read_specification(bytes: &[u8]) -> (Reading, &[u8])
    ensures reading { result.0 ≡ (specification_at bytes.now).part }
    ensures rest { result.1.now ≡ (specification_at bytes.now).rest }
{
    let (flags, bytes) = read_flags(bytes);
    let (width, bytes) = read_size(Size::Omitted, bytes);
    let (precision, bytes) = read_precision(bytes);
    let (size, bytes) = read_length(bytes);
    let [letter, rest @ ..] = bytes else {
        return (Reading::Cut, bytes);
    };
    (
        accepted(flags, width, precision, form_of(size, *letter)),
        rest,
    )
}

/// The conversion of these parts, where it is of an accepted form.
fn accepted(
    flags: Flags,
    width: Option<Size>,
    precision: Option<Size>,
    form: Option<Form>,
) -> Reading
    ensures { (w p : Size) → width ≡ taken w → precision ≡ taken p → result ≡ specified flags w p form }
{
    if let (Some(width), Some(precision), Some(form)) = (width, precision, form) {
        let conversion = Conversion {
            flags,
            width,
            precision,
            form,
        };
        if has_accepted_parts(&conversion) {
            return Reading::Accepted(conversion);
        }
    }
    Reading::Refused
}

/// What follows a `%`, and what follows that.
fn read_conversion(bytes: &[u8]) -> (Reading, &[u8])
    ensures reading { result.0 ≡ (conversion_at bytes.now).part }
    ensures rest { result.1.now ≡ (conversion_at bytes.now).rest }
{
    match after(b'%', bytes) {
        Some(rest) => (Reading::Percent, rest),
        None => read_specification(bytes),
    }
}

/// A piece, how many conversions may follow it, and what follows it.
#[derive(Drop)]
struct Step<'a> {
    piece: Piece,
    left: u32,
    rest: &'a [u8],
}

/// The first piece of a text that stands at this offset, where so many conversions may come.
fn first_piece<'a>(
    alloc: Global,
    left: u32,
    at: usize,
    bytes: &'a [u8],
) -> Result<Step<'a>, FormatFault>
    ensures ok { IfOk result (λ s. step_of left at bytes.now ≡ Ok (record { piece = s.piece; left = s.left; rest = s.rest.now })) }
    ensures fault { IfErr result (λ e. e ≢ FormatFault.Memory → step_of left at bytes.now ≡ Err e) }
{
    let Some(spec) = after(b'%', bytes) else {
        let (plain, rest) = bytes.split_at(plain_len(bytes));
        let piece = Piece::Literal(literal(alloc, plain)?);
        return Ok(Step { piece, left, rest });
    };
    let (reading, rest) = read_conversion(spec);
    let piece = match reading {
        Reading::Cut => return Err(FormatFault::Truncated(at)),
        Reading::Refused => return Err(FormatFault::Unsupported(at)),
        Reading::Percent => Piece::Literal(literal(alloc, b"%")?),
        Reading::Accepted(conversion) => Piece::Converted(conversion),
    };
    if left == 0 {
        return Err(FormatFault::Unsupported(at));
    }
    let left = left - 1;
    Ok(Step { piece, left, rest })
}

/// A copy of the bytes of a literal.
fn literal(alloc: Global, bytes: &[u8]) -> Result<Bytes, FormatFault>
    ensures ok { IfOk result (λ copy. copy ≡ bytes.now) }
    ensures fault { IfErr result (λ e. e ≡ FormatFault.Memory) }
{
    match Bytes::from_slice(alloc, bytes) {
        Ok(copy) => Ok(copy),
        Err(_) => Err(FormatFault::Memory),
    }
}

/// How many bytes stand before the first byte 0.
fn text_len(bytes: &[u8]) -> usize
    ensures { result ≡ length (format_text bytes.now) }
{
    bytes.iter().take_while(|b| **b != 0).count()
}

/// The pieces of a format, which ends before its first byte 0.
///
/// Read are the flags `- + space # 0`, a width and a precision as digits or `*`, the lengths
/// `hh h l ll j z t` and the conversions `d i u o x X c s p %` (C99 7.19.6.1). A conversion that the
/// format's end cuts off is `Truncated`. `Unsupported` is the 65th conversion, and one of another
/// form: `#` elsewhere than on `o x X`, `0` on `c s p`, a precision on `c p`, a length on `c s p`,
/// anything between the two `%` of `%%`, a written width or precision above 65,536, another letter.
pub fn parse_format(alloc: Global, bytes: &[u8]) -> Result<Pieces, FormatFault>
    ensures ok { IfOk result (λ pieces. pieces_of bytes.now ≡ Ok pieces) }
    ensures fault { IfErr result (λ e. e ≢ FormatFault.Memory → pieces_of bytes.now ≡ Err e) }
{
    let text = &bytes[..text_len(bytes)];
    let mut pieces = Pieces::new(alloc);
    let mut left = MAX_CONVERSIONS;
    let mut rest = text;
    'pieces: while !rest.is_empty() {
        let at = text.len() - rest.len();
        let step = match first_piece(alloc, left, at, rest) {
            Ok(step) => step,
            Err(fault) => return Err(fault),
        };
        match pieces.push(step.piece) {
            Ok(()) => {}
            Err(_) => return Err(FormatFault::Memory),
        }
        left = step.left;
        rest = step.rest;
    }
    Ok(pieces)
}
