ghost use Rattle.std.specs.Prelude.{◌≡◌, ◌++◌, ◌≤◌, ◌<◌, ◌^◌, ◌||◌, ◌-◌, pos, negsuc, unsigned_abs, map, drop, replicate, length, Ok, IfOk, OnOk};
ghost use Rattle.std.specs.Int.{is_negative};
ghost use Rattle.plain_data.specs.Words.{bits, word, signed};
ghost use Rattle.std.specs.Int.Digits.{digits_of};
ghost use Rattle.printf_text.specs.Written.{parts_of};
ghost use Rattle.printf_text.specs.Texts.{piece_text, fills_zeros, HasNoLeadingZero, marked, in_field, digits_wanted, conversion_kinds, HasKind, HaveKinds, BeginsWithKinds, kinds, piece_kinds, size_kinds, form_kind, number_of, size_of, base, digit, sign_of, prefix_of, signed_parts, unsigned_parts, plain, pointer_parts, text_bytes, cut, formed, conversion_text, text_of};

use crate::kind::Kind;
use crate::piece::{Arg, Args, Conversion, Flags, Form, Piece, Pieces, Radix, Size};
use plain_data::{Bytes, Width, to_signed, wrap};
use std::alloc::{AllocError, Global};
use thiserror::Error;

/// Why no text was made.
#[derive(Clone, Copy, Debug, PartialEq, Eq, Drop, Error)]
pub enum TextFault {
    /// Memory ran out.
    #[error("out of memory")]
    Memory,
}

/// An integer argument's number.
fn number_of(arg: &Arg) -> i128
    requires { HasKind Kind.Integer arg.now }
    ensures { result ≡ number_of arg.now }
{
    match arg {
        Arg::Word {
            bits,
            width,
            signed: true,
        } => i128::from(to_signed(*bits, *width)),
        Arg::Word { bits, .. } => i128::from(*bits),
        _ => 0,
    }
}

/// An integer argument, converted to an unsigned type of this width.
fn word_of(arg: &Arg, width: Width) -> u64
    requires { HasKind Kind.Integer arg.now }
    ensures value { result ≡ word width (number_of arg.now) }
    ensures within { result < 2 ^ bits width }
{
    wrap(number_of(arg), width)
}

/// An integer argument, converted to a signed type of this width.
fn signed_of(arg: &Arg, width: Width) -> i64
    requires { HasKind Kind.Integer arg.now }
    ensures { result ≡ signed width (word width (number_of arg.now)) }
{
    to_signed(word_of(arg, width), width)
}

/// A width or a precision, or `none` where it is omitted, and the arguments after it.
fn size_of(none: i64, size: Size, args: &[Arg]) -> (i64, &[Arg])
    requires { BeginsWithKinds (size_kinds size) args.now }
    ensures value { result.0 ≡ size_of none size args.now }
    ensures rest { result.1.now ≡ drop (length (size_kinds size)) args.now }
{
    match (size, args) {
        (Size::Omitted, _) => (none, args),
        (Size::Written(n), _) => (i64::from(n), args),
        (Size::Star, [arg, rest @ ..]) => (signed_of(arg, Width::W32), rest),
        (Size::Star, []) => unreachable!(),
    }
}

/// The number of digits of the greatest word in the least base, 8.
const MAX_DIGITS: usize = 22;

/// The character of a digit.
fn digit(radix: Radix, d: u8) -> u8
    requires { d < 16 }
    ensures { result ≡ digit radix d }
{
    match radix {
        _ if d < 10 => b'0' + d,
        Radix::UpperHex => b'A' + (d - 10),
        _ => b'a' + (d - 10),
    }
}

/// The base of a radix.
fn base(radix: Radix) -> u64
    ensures { result ≡ base radix }
{
    match radix {
        Radix::Decimal => 10,
        Radix::Octal => 8,
        Radix::LowerHex | Radix::UpperHex => 16,
    }
}

/// Writes a number's digits at the end of a buffer, and answers where they begin. 0 has none.
fn write_digits(buffer: &mut [u8], radix: Radix, n: u64) -> usize
    requires { length buffer.old ≡ MAX_DIGITS }
    ensures within { result ≤ MAX_DIGITS }
    ensures digits { drop result buffer.new ≡ map (digit radix) (digits_of (base radix) n) }
{
    let base = base(radix);
    let mut at = MAX_DIGITS;
    let mut n = n;
    'digits: while n > 0 {
        at -= 1;
        buffer[at] = digit(radix, (n % base) as u8);
        n /= base;
    }
    at
}

/// Puts copies of a byte at the end.
fn fill(out: &mut Bytes, byte: u8, count: u64) -> Result<(), AllocError>
    ensures { OnOk result (out.new ≡ out.old ++ replicate count byte) }
{
    for _i in 0..count {
        out.push(byte)?;
    }
    Ok(())
}

/// The parts of a converted argument's text: so many zeros stand before the digits.
#[derive(Clone, Copy)]
struct Parts<'a> {
    sign: &'a [u8],
    prefix: &'a [u8],
    zeros: u64,
    digits: &'a [u8],
}

/// Where a text stands in its field.
#[derive(Clone, Copy)]
struct Field {
    left: bool,
    zeros: bool,
    width: u64,
}

/// The field that a width and a precision give.
fn field_of(flags: Flags, width: i64, precision: i64) -> Field
    ensures left { result.left ≡ flags.left || is_negative width }
    ensures zeros { result.zeros ≡ fills_zeros flags precision }
    ensures width { result.width ≡ unsigned_abs width }
{
    Field {
        left: flags.left || width < 0,
        zeros: flags.zero && precision < 0,
        width: width.unsigned_abs(),
    }
}

/// Puts the parts in their field at the end: spaces after them, zeros before the digits, or spaces
/// before them.
fn write_parts(out: &mut Bytes, field: Field, parts: Parts<'_>) -> Result<(), AllocError>
    ensures { OnOk result (out.new ≡ out.old ++ in_field field.left field.zeros field.width (parts_of parts.entry)) }
{
    let missing = field
        .width
        .saturating_sub(parts.sign.len() as u64)
        .saturating_sub(parts.prefix.len() as u64)
        .saturating_sub(parts.zeros)
        .saturating_sub(parts.digits.len() as u64);
    if !field.left && !field.zeros {
        fill(out, b' ', missing)?;
    }
    out.extend_from_slice(parts.sign)?;
    out.extend_from_slice(parts.prefix)?;
    if !field.left && field.zeros {
        fill(out, b'0', missing)?;
    }
    fill(out, b'0', parts.zeros)?;
    out.extend_from_slice(parts.digits)?;
    if field.left {
        fill(out, b' ', missing)?;
    }
    Ok(())
}

/// Bytes that stand as they are.
fn plain(digits: &[u8]) -> Parts<'_>
    ensures { parts_of result ≡ plain digits.now }
{
    Parts {
        sign: b"",
        prefix: b"",
        zeros: 0,
        digits,
    }
}

/// How many zeros a precision puts before digits.
fn missing_zeros(precision: i64, digits: &[u8]) -> u64
    ensures { result ≡ digits_wanted precision - length digits.now }
{
    let wanted = if precision < 0 { 1 } else { precision as u64 };
    wanted.saturating_sub(digits.len() as u64)
}

/// The parts of a signed number, whose digits these are.
fn signed_parts<'a>(flags: Flags, precision: i64, value: i64, digits: &'a [u8]) -> Parts<'a>
    requires { digits.now ≡ map (digit Radix.Decimal) (digits_of 10 (unsigned_abs value)) }
    ensures { parts_of result ≡ signed_parts flags precision value }
{
    let sign: &[u8] = if value < 0 {
        b"-"
    } else if flags.plus {
        b"+"
    } else if flags.space {
        b" "
    } else {
        b""
    };
    Parts {
        sign,
        prefix: b"",
        zeros: missing_zeros(precision, digits),
        digits,
    }
}

/// The prefix that `#` puts before a number.
fn prefix_of(flags: Flags, radix: Radix, n: u64) -> &'static [u8]
    ensures { result.now ≡ prefix_of flags radix n }
{
    if !flags.alternate || n == 0 {
        return b"";
    }
    match radix {
        Radix::LowerHex => b"0x",
        Radix::UpperHex => b"0X",
        Radix::Decimal | Radix::Octal => b"",
    }
}

/// How many zeros stand before digits where `#` may add one.
fn marked_zeros(flags: Flags, radix: Radix, zeros: u64, digits: &[u8]) -> u64
    requires { HasNoLeadingZero digits.now }
    ensures { replicate result 48 ++ digits.now ≡ marked flags radix (replicate zeros 48 ++ digits.now) }
{
    if flags.alternate && radix == Radix::Octal && zeros == 0 {
        return 1;
    }
    zeros
}

/// The parts of an unsigned number, whose digits these are.
fn unsigned_parts<'a>(
    flags: Flags,
    radix: Radix,
    precision: i64,
    n: u64,
    digits: &'a [u8],
) -> Parts<'a>
    requires { digits.now ≡ map (digit radix) (digits_of (base radix) n) }
    ensures { parts_of result ≡ unsigned_parts flags radix precision n }
{
    let zeros = missing_zeros(precision, digits);
    Parts {
        sign: b"",
        prefix: prefix_of(flags, radix, n),
        zeros: marked_zeros(flags, radix, zeros, digits),
        digits,
    }
}

/// Puts a signed number's text at the end.
fn write_signed(
    out: &mut Bytes,
    field: Field,
    flags: Flags,
    precision: i64,
    value: i64,
) -> Result<(), AllocError>
    ensures { OnOk result (out.new ≡ out.old ++ in_field field.left field.zeros field.width (signed_parts flags precision value)) }
{
    let mut buffer = [0; MAX_DIGITS];
    let start = write_digits(&mut buffer, Radix::Decimal, value.unsigned_abs());
    write_parts(
        out,
        field,
        signed_parts(flags, precision, value, &buffer[start..]),
    )
}

/// Puts an unsigned number's text at the end.
fn write_unsigned(
    out: &mut Bytes,
    field: Field,
    flags: Flags,
    radix: Radix,
    precision: i64,
    n: u64,
) -> Result<(), AllocError>
    ensures { OnOk result (out.new ≡ out.old ++ in_field field.left field.zeros field.width (unsigned_parts flags radix precision n)) }
{
    let mut buffer = [0; MAX_DIGITS];
    let start = write_digits(&mut buffer, radix, n);
    write_parts(
        out,
        field,
        unsigned_parts(flags, radix, precision, n, &buffer[start..]),
    )
}

/// Puts a pointer's text at the end.
fn write_pointer(out: &mut Bytes, field: Field, arg: &Arg) -> Result<(), AllocError>
    requires { HasKind Kind.Pointer arg.now }
    ensures { OnOk result (out.new ≡ out.old ++ in_field field.left field.zeros field.width (pointer_parts arg.now)) }
{
    let Arg::Shown(n) = arg else {
        return write_parts(out, field, plain(b"(nil)"));
    };
    let mut buffer = [0; MAX_DIGITS];
    let start = write_digits(&mut buffer, Radix::LowerHex, *n);
    let parts = Parts {
        sign: b"",
        prefix: b"0x",
        zeros: missing_zeros(1, &buffer[start..]),
        digits: &buffer[start..],
    };
    write_parts(out, field, parts)
}

/// The bytes of a text argument that a precision leaves.
fn cut_text(precision: i64, arg: &Arg) -> &[u8]
    requires { HasKind Kind.Text arg.now }
    ensures { result.now ≡ cut precision (text_bytes arg.now) }
{
    let Arg::Text(bytes) = arg else {
        return b"";
    };
    let bytes = bytes.as_slice();
    if precision < 0 || bytes.len() as u64 <= precision as u64 {
        return bytes;
    }
    &bytes[..precision as usize]
}

/// Puts a converted argument's text at the end, with the width and precision that hold. It fails for
/// want of memory alone.
pub fn write_formed(
    out: &mut Bytes,
    flags: Flags,
    form: Form,
    width: i64,
    precision: i64,
    arg: &Arg,
) -> Result<(), AllocError>
    requires { HasKind (form_kind form) arg.now }
    ensures { OnOk result (out.new ≡ out.old ++ formed flags form width precision arg.now) }
{
    let field = field_of(flags, width, precision);
    match form {
        Form::Signed(size) => { write_signed(out, field, flags, precision, signed_of(arg, size)) }
        Form::Unsigned(radix, size) => {
            write_unsigned(out, field, flags, radix, precision, word_of(arg, size))
        }
        Form::Char => {
            let byte = word_of(arg, Width::W8) as u8;
            write_parts(out, field, plain(&[byte]))
        }
        Form::Text => write_parts(out, field, plain(cut_text(precision, arg))),
        Form::Pointer => write_pointer(out, field, arg),
    }
}

/// Puts a conversion's text at the end, and answers the arguments after its own.
fn write_conversion<'a>(
    out: &mut Bytes,
    c: &Conversion,
    args: &'a [Arg],
) -> Result<&'a [Arg], AllocError>
    requires { BeginsWithKinds (conversion_kinds c.now) args.now }
    ensures text { OnOk result (out.new ≡ out.old ++ conversion_text c.now args.now) }
    ensures rest { IfOk result (λ rest. rest.now ≡ drop (length (conversion_kinds c.now)) args.now) }
{
    let (width, args) = size_of(0, c.width, args);
    let (precision, args) = size_of(-1, c.precision, args);
    let [arg, rest @ ..] = args else {
        unreachable!()
    };
    write_formed(out, c.flags, c.form, width, precision, arg)?;
    Ok(rest)
}

/// Puts a piece's text at the end, and answers the arguments after its own.
fn write_piece<'a>(out: &mut Bytes, piece: &Piece, args: &'a [Arg]) -> Result<&'a [Arg], AllocError>
    requires { BeginsWithKinds (piece_kinds piece.now) args.now }
    ensures text { OnOk result (out.new ≡ out.old ++ piece_text piece.now args.now) }
    ensures rest { IfOk result (λ rest. rest.now ≡ drop (length (piece_kinds piece.now)) args.now) }
{
    match piece {
        Piece::Literal(bytes) => {
            out.extend_from_slice(bytes.as_slice())?;
            Ok(args)
        }
        Piece::Converted(c) => write_conversion(out, c, args),
    }
}

/// The text that pieces make of their arguments, one for each kind that the pieces ask for
/// (C99 7.19.6.1). It fails for want of memory alone.
pub fn text(alloc: Global, pieces: &Pieces, args: &Args) -> Result<Bytes, TextFault>
    requires { HaveKinds (kinds pieces.now) args.now }
    ensures { IfOk result (λ bytes. bytes ≡ text_of pieces.now args.now) }
{
    match written(alloc, pieces, args) {
        Ok(bytes) => Ok(bytes),
        Err(_) => Err(TextFault::Memory),
    }
}

/// The text of pieces.
fn written(alloc: Global, pieces: &Pieces, args: &Args) -> Result<Bytes, AllocError>
    requires { HaveKinds (kinds pieces.now) args.now }
    ensures { IfOk result (λ bytes. bytes ≡ text_of pieces.now args.now) }
{
    let mut out = Bytes::new(alloc);
    let mut rest = args.as_slice();
    for piece in pieces.as_slice() {
        rest = write_piece(&mut out, piece, rest)?;
    }
    Ok(out)
}
