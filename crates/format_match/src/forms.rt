ghost use Rattle.std.specs.Prelude.{◌≡◌, ◌++◌, ◌∷◌, [], ◌<◌, ◌≤◌, ◌-◌, ◌+◌, length, OnOk, IfOk, IfSome, MatchOption, IsTrue, nat_lt, unsigned_abs, ◌==◌, ◌&&◌, take, drop, if◌then◌else◌};
ghost use Rattle.std.specs.Int.{is_negative};
ghost use Rattle.std.specs.List.{list_all};
ghost use Rattle.std.specs.Option.{option_copied};
ghost use Rattle.std.specs.Str.{bytes_eq};
ghost use Rattle.printf_text.specs.Texts.{HasKind, form_kind, formed};
ghost use Rattle.format_match.specs.Ways.{Adds, AreHeld, sizes_kinds, sizes_marks, sized_ends, formed_end, null_end, shown_end, unpadded, text_ended, padded_end};
ghost use Rattle.format_match.specs.Reading.{is_integer, form_width};

use crate::reading::{form_width, pads_right, pointer_read, word_read};
use crate::split::{Constraint, SplitList, Stretch};
use crate::way::{Sizes, push_way};
use plain_data::Bytes;
use printf_text::{Arg, Flags, Form, write_formed};
use std::alloc::{AllocError, Global};

/// Whether a field is wider than the bytes.
fn is_wider(width: i64, slice: &[u8]) -> bool
    ensures { result ≡ nat_lt (length slice.now) (unsigned_abs width) }
{
    width.unsigned_abs() > slice.len() as u64
}

/// Whether an argument prints the bytes.
fn prints(
    alloc: Global,
    flags: Flags,
    form: Form,
    sizes: Sizes,
    arg: &Arg,
    slice: &[u8],
) -> Result<bool, AllocError>
    requires { HasKind (form_kind form) arg.now }
    ensures { IfOk result (λ b. b ≡ bytes_eq (formed flags form sizes.width.value sizes.precision.value arg.now) slice.now) }
{
    let mut out = Bytes::new(alloc);
    write_formed(
        &mut out,
        flags,
        form,
        sizes.width.value,
        sizes.precision.value,
        arg,
    )?;
    Ok(out.as_slice() == slice)
}

/// Puts the way in which an integer prints the bytes at the end, if there is one.
fn push_integer<'a>(
    alloc: Global,
    out: &mut SplitList<'a>,
    flags: Flags,
    form: Form,
    sizes: Sizes,
    slice: &'a [u8],
    end: usize,
) -> Result<(), AllocError>
    requires integer { IsTrue (is_integer form) }
    requires held { AreHeld sizes }
    ensures { OnOk result (Adds (sizes_kinds sizes form) (sizes_marks sizes) (sized_ends sizes (formed_end flags form sizes slice.now end)) out.old out.new) }
{
    let bits = word_read(flags, form, sizes, slice);
    let width = form_width(form);
    let arg = Arg::Word {
        bits,
        width,
        signed: false,
    };
    if !prints(alloc, flags, form, sizes, &arg, slice)? {
        return Ok(());
    }
    push_way(alloc, out, sizes, end, Constraint::Equal { bits, width })?;
    Ok(())
}

/// Puts the way in which a null pointer prints the bytes at the end, if it does.
fn push_null<'a>(
    alloc: Global,
    out: &mut SplitList<'a>,
    flags: Flags,
    sizes: Sizes,
    slice: &'a [u8],
    end: usize,
) -> Result<(), AllocError>
    requires { AreHeld sizes }
    ensures { OnOk result (Adds (sizes_kinds sizes Form.Pointer) (sizes_marks sizes) (sized_ends sizes (null_end flags sizes slice.now end)) out.old out.new) }
{
    if prints(alloc, flags, Form::Pointer, sizes, &Arg::Null, slice)? {
        push_way(alloc, out, sizes, end, Constraint::Null)?;
    }
    Ok(())
}

/// Puts the way in which a shown pointer prints the bytes at the end, if there is one.
fn push_shown<'a>(
    alloc: Global,
    out: &mut SplitList<'a>,
    flags: Flags,
    sizes: Sizes,
    slice: &'a [u8],
    end: usize,
) -> Result<(), AllocError>
    requires { AreHeld sizes }
    ensures { OnOk result (Adds (sizes_kinds sizes Form.Pointer) (sizes_marks sizes) (sized_ends sizes (shown_end flags sizes slice.now end)) out.old out.new) }
{
    let word = pointer_read(slice);
    if word == 0 {
        return Ok(());
    }
    if prints(alloc, flags, Form::Pointer, sizes, &Arg::Shown(word), slice)? {
        push_way(alloc, out, sizes, end, Constraint::Shown { word })?;
    }
    Ok(())
}

/// Puts the ways in which pointers print the bytes at the end.
fn push_pointers<'a>(
    alloc: Global,
    out: &mut SplitList<'a>,
    flags: Flags,
    sizes: Sizes,
    slice: &'a [u8],
    end: usize,
) -> Result<(), AllocError>
    requires { AreHeld sizes }
    ensures { OnOk result (Adds (sizes_kinds sizes Form.Pointer) (sizes_marks sizes) (sized_ends sizes (formed_end flags Form.Pointer sizes slice.now end)) out.old out.new) }
{
    push_null(alloc, out, flags, sizes, slice, end)?;
    push_shown(alloc, out, flags, sizes, slice, end)?;
    Ok(())
}

/// Whether bytes are all this one.
fn all_are(bytes: &[u8], byte: u8) -> bool
    ensures { result ≡ list_all (λ b. b == byte) bytes.now }
{
    bytes.iter().all(|b| *b == byte)
}

/// The byte that stands before a text in its field.
fn fill_byte(flags: Flags, precision: i64) -> u8
    ensures { result ≡ (if flags.zero && is_negative precision then 48 else 32) }
{
    if flags.zero && precision < 0 {
        b'0'
    } else {
        b' '
    }
}

/// How many bytes a text of this length lacks to fill its field.
fn missing(width: i64, len: usize) -> u64
    ensures { result ≡ unsigned_abs width - len }
{
    width.unsigned_abs().saturating_sub(len as u64)
}

/// What stands before padding of spaces, which begins at `len`.
fn before_spaces(slice: &[u8], len: usize) -> Option<&[u8]>
    requires { len ≤ length slice.now }
    ensures { option_copied result ≡ (if list_all (λ b. b == 32) (drop len slice.now) then Some (take len slice.now) else None) }
{
    let (text, pad) = slice.split_at(len);
    if all_are(pad, b' ') { Some(text) } else { None }
}

/// What stands after padding of this length and byte.
fn after_fill(slice: &[u8], padding: usize, byte: u8) -> Option<&[u8]>
    requires { padding ≤ length slice.now }
    ensures { option_copied result ≡ (if list_all (λ b. b == byte) (take padding slice.now) then Some (drop padding slice.now) else None) }
{
    let (pad, text) = slice.split_at(padding);
    if all_are(pad, byte) { Some(text) } else { None }
}

/// What stands beside padding of this length, where that is how a field pads a text in the bytes.
fn unpadded(flags: Flags, sizes: Sizes, slice: &[u8], padding: usize) -> Option<&[u8]>
    requires { padding ≤ length slice.now }
    ensures { option_copied result ≡ unpadded flags sizes slice.now padding }
{
    let len = slice.len() - padding;
    if missing(sizes.width.value, len) != padding as u64 {
        return None;
    }
    if pads_right(flags, sizes) {
        return before_spaces(slice, len);
    }
    after_fill(slice, padding, fill_byte(flags, sizes.precision.value))
}

/// Whether a text argument that prints these bytes is them, or may go on, or there is none.
fn text_ended(precision: i64, bytes: &[u8]) -> Option<bool>
    ensures { result ≡ text_ended precision bytes.now }
{
    if bytes.contains(&0) {
        return None;
    }
    if precision < 0 || (bytes.len() as u64) < precision as u64 {
        return Some(true);
    }
    if bytes.len() as u64 == precision as u64 {
        return Some(false);
    }
    None
}

/// Puts the way in which a text prints the bytes with so much padding at the end, if there is one.
fn push_text<'a>(
    alloc: Global,
    out: &mut SplitList<'a>,
    flags: Flags,
    sizes: Sizes,
    slice: &'a [u8],
    padding: usize,
    end: usize,
) -> Result<(), AllocError>
    requires held { AreHeld sizes }
    requires padding { padding ≤ length slice.now }
    ensures { OnOk result (Adds (sizes_kinds sizes Form.Text) (sizes_marks sizes) (sized_ends sizes (padded_end flags sizes slice.now end padding)) out.old out.new) }
{
    let Some(text) = unpadded(flags, sizes, slice, padding) else {
        return Ok(());
    };
    let Some(ended) = text_ended(sizes.precision.value, text) else {
        return Ok(());
    };
    let bytes = Stretch::of(text);
    push_way(alloc, out, sizes, end, Constraint::Text { bytes, ended })?;
    Ok(())
}

/// The most bytes that may be padding: none where the field is shorter than the bytes.
fn most_padding(width: i64, slice: &[u8]) -> usize
    ensures filled { unsigned_abs width ≡ length slice.now → result ≡ length slice.now }
    ensures within { result ≤ length slice.now }
{
    if width.unsigned_abs() == slice.len() as u64 {
        slice.len()
    } else {
        0
    }
}

/// Puts the ways in which texts print the bytes at the end.
fn push_texts<'a>(
    alloc: Global,
    out: &mut SplitList<'a>,
    flags: Flags,
    sizes: Sizes,
    slice: &'a [u8],
    end: usize,
) -> Result<(), AllocError>
    requires { AreHeld sizes }
    ensures { OnOk result (Adds (sizes_kinds sizes Form.Text) (sizes_marks sizes) (sized_ends sizes (formed_end flags Form.Text sizes slice.now end)) out.old out.new) }
{
    let most = most_padding(sizes.width.value, slice);
    'paddings: for padding in 0..most + 1 {
        push_text(alloc, out, flags, sizes, slice, padding, end)?;
    }
    Ok(())
}

/// Puts the ways in which an argument prints the bytes at the end, with this width and precision.
pub fn push_formed<'a>(
    alloc: Global,
    out: &mut SplitList<'a>,
    flags: Flags,
    form: Form,
    sizes: Sizes,
    slice: &'a [u8],
    end: usize,
) -> Result<(), AllocError>
    requires { AreHeld sizes }
    ensures { OnOk result (Adds (sizes_kinds sizes form) (sizes_marks sizes) (sized_ends sizes (formed_end flags form sizes slice.now end)) out.old out.new) }
{
    if is_wider(sizes.width.value, slice) {
        return Ok(());
    }
    match form {
        Form::Signed(_) | Form::Unsigned(_, _) | Form::Char => {
            push_integer(alloc, out, flags, form, sizes, slice, end)
        }
        Form::Text => push_texts(alloc, out, flags, sizes, slice, end),
        Form::Pointer => push_pointers(alloc, out, flags, sizes, slice, end),
    }
}
