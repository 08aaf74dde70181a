ghost use Rattle.std.specs.Prelude.{◌≡◌, ◌++◌, ◌∷◌, [], ◌<◌, ◌≤◌, ◌-◌, ◌+◌, length, pos, negsuc, neg_ℤ, ◌^◌, true, false, OnOk, IfOk, IfSome};
ghost use Rattle.printf_text.specs.Texts.{form_kind, conversion_kinds, size_of};
ghost use Rattle.format_match.specs.Splits.{conversion_marks};
ghost use Rattle.format_match.specs.Ways.{Adds, AreHeld, IsHeld, IsInt, is_star, range_kinds, range_marks, ranged, precision_end, precision_at_end, no_precision_end, short_precisions_end, long_precisions_end, written_precision_end, thin_widths_end, exact_width_end, written_width_end, star_precision_end, star_width_end, conversion_end, width_kinds, width_marks, sizes_kinds, sizes_marks, sized_ends, formed_end};

use crate::forms::push_formed;
use crate::split::SplitList;
use crate::way::{Amount, Range, Sizes};
use printf_text::{Conversion, Kind, Size};
use std::alloc::{AllocError, Global};

/// The least value of a `*`.
const LEAST: i64 = -0x8000_0000;

/// The greatest value of a `*`.
const GREATEST: i64 = 0x7fff_ffff;

/// The same, as a number of bytes.
const MOST: usize = 0x7fff_ffff;

/// Puts the ways in which the conversion prints the bytes with this width and precision at the end.
fn push_sizes<'a>(
    alloc: Global,
    out: &mut SplitList<'a>,
    c: &Conversion,
    sizes: Sizes,
    slice: &'a [u8],
    end: usize,
) -> Result<(), AllocError>
    requires { AreHeld sizes }
    ensures { OnOk result (Adds (sizes_kinds sizes c.now.form) (sizes_marks sizes) (sized_ends sizes (formed_end c.now.flags c.now.form sizes slice.now end)) out.old out.new) }
{
    push_formed(alloc, out, c.flags, c.form, sizes, slice, end)
}

/// A number of bytes, and its negative.
fn positive(k: usize) -> i64
    requires { k < 2 ^ 63 }
    ensures { result ≡ pos k }
{
    k as i64
}

fn negative(k: usize) -> i64
    requires { k < 2 ^ 63 }
    ensures { result ≡ neg_ℤ (pos k) }
{
    -(k as i64)
}

/// Puts the ways in which the conversion prints the bytes with this width at the end, where a `*` gives
/// a precision below 0.
fn push_no_precision<'a>(
    alloc: Global,
    out: &mut SplitList<'a>,
    c: &Conversion,
    width: Amount,
    slice: &'a [u8],
    end: usize,
) -> Result<(), AllocError>
    requires { IsHeld width.range }
    ensures { OnOk result (Adds (range_kinds width.range ++ Kind.Integer ∷ form_kind c.now.form ∷ []) (range_marks width.range ++ true ∷ false ∷ []) (ranged width.range (no_precision_end c.now width.value slice.now end)) out.old out.new) }
{
    let precision = Amount {
        value: -1,
        range: Some(Range {
            low: LEAST,
            high: -1,
        }),
    };
    push_sizes(alloc, out, c, Sizes { width, precision }, slice, end)?;
    Ok(())
}

/// The same where a `*` gives this precision.
fn push_precision<'a>(
    alloc: Global,
    out: &mut SplitList<'a>,
    c: &Conversion,
    width: Amount,
    k: usize,
    slice: &'a [u8],
    end: usize,
) -> Result<(), AllocError>
    requires { IsHeld width.range }
    ensures { OnOk result (Adds (range_kinds width.range ++ Kind.Integer ∷ form_kind c.now.form ∷ []) (range_marks width.range ++ true ∷ false ∷ []) (ranged width.range (precision_at_end c.now width.value slice.now end k)) out.old out.new) }
{
    if k > MOST {
        return Ok(());
    }
    let value = positive(k);
    let precision = Amount {
        value,
        range: Some(Range {
            low: value,
            high: value,
        }),
    };
    push_sizes(alloc, out, c, Sizes { width, precision }, slice, end)?;
    Ok(())
}

/// The same where a `*` gives a precision that is at most the number of bytes.
fn push_short_precisions<'a>(
    alloc: Global,
    out: &mut SplitList<'a>,
    c: &Conversion,
    width: Amount,
    slice: &'a [u8],
    end: usize,
) -> Result<(), AllocError>
    requires { IsHeld width.range }
    ensures { OnOk result (Adds (range_kinds width.range ++ Kind.Integer ∷ form_kind c.now.form ∷ []) (range_marks width.range ++ true ∷ false ∷ []) (ranged width.range (short_precisions_end c.now width.value slice.now end (length slice.now + 1))) out.old out.new) }
{
    'precisions: for k in 0..slice.len() + 1 {
        push_precision(alloc, out, c, width, k, slice, end)?;
    }
    Ok(())
}

/// The same where a `*` gives a precision above the number of bytes.
fn push_long_precisions<'a>(
    alloc: Global,
    out: &mut SplitList<'a>,
    c: &Conversion,
    width: Amount,
    slice: &'a [u8],
    end: usize,
) -> Result<(), AllocError>
    requires { IsHeld width.range }
    ensures { OnOk result (Adds (range_kinds width.range ++ Kind.Integer ∷ form_kind c.now.form ∷ []) (range_marks width.range ++ true ∷ false ∷ []) (ranged width.range (long_precisions_end c.now width.value slice.now end)) out.old out.new) }
{
    if slice.len() >= MOST {
        return Ok(());
    }
    let value = positive(slice.len() + 1);
    let precision = Amount {
        value,
        range: Some(Range {
            low: value,
            high: GREATEST,
        }),
    };
    push_sizes(alloc, out, c, Sizes { width, precision }, slice, end)?;
    Ok(())
}

/// Puts the ways in which the conversion prints the bytes with this width at the end, where a `*` gives
/// the precision.
fn push_star_precisions<'a>(
    alloc: Global,
    out: &mut SplitList<'a>,
    c: &Conversion,
    width: Amount,
    slice: &'a [u8],
    end: usize,
) -> Result<(), AllocError>
    requires { IsHeld width.range }
    ensures { OnOk result (Adds (range_kinds width.range ++ Kind.Integer ∷ form_kind c.now.form ∷ []) (range_marks width.range ++ true ∷ false ∷ []) (ranged width.range (star_precision_end c.now width.value slice.now end)) out.old out.new) }
{
    push_no_precision(alloc, out, c, width, slice, end)?;
    push_short_precisions(alloc, out, c, width, slice, end)?;
    push_long_precisions(alloc, out, c, width, slice, end)?;
    Ok(())
}

/// Whether a `*` gives a width or precision.
fn is_star(size: Size) -> bool
    ensures { result ≡ is_star size }
{
    match size {
        Size::Omitted | Size::Written(_) => false,
        Size::Star => true,
    }
}

/// A width or precision that no `*` gives, or `none` where it is omitted.
fn written(none: i64, size: Size) -> i64
    ensures { result ≡ size_of none size [] }
{
    match size {
        Size::Omitted => none,
        Size::Written(n) => i64::from(n),
        Size::Star => 0,
    }
}

/// Puts the ways in which the conversion prints the bytes with this width at the end, where no `*` gives
/// the precision.
fn push_written_precision<'a>(
    alloc: Global,
    out: &mut SplitList<'a>,
    c: &Conversion,
    width: Amount,
    slice: &'a [u8],
    end: usize,
) -> Result<(), AllocError>
    requires { IsHeld width.range }
    ensures { OnOk result (Adds (range_kinds width.range ++ form_kind c.now.form ∷ []) (range_marks width.range ++ false ∷ []) (ranged width.range (written_precision_end c.now width.value slice.now end)) out.old out.new) }
{
    let precision = Amount {
        value: written(-1, c.precision),
        range: None,
    };
    push_sizes(alloc, out, c, Sizes { width, precision }, slice, end)?;
    Ok(())
}

/// Puts the ways in which the conversion prints the bytes with this width at the end.
fn push_width<'a>(
    alloc: Global,
    out: &mut SplitList<'a>,
    c: &Conversion,
    width: Amount,
    slice: &'a [u8],
    end: usize,
) -> Result<(), AllocError>
    requires { IsHeld width.range }
    ensures { OnOk result (Adds (range_kinds width.range ++ width_kinds c.now) (range_marks width.range ++ width_marks c.now) (ranged width.range (precision_end c.now width.value slice.now end)) out.old out.new) }
{
    if is_star(c.precision) {
        push_star_precisions(alloc, out, c, width, slice, end)?;
        return Ok(());
    }
    push_written_precision(alloc, out, c, width, slice, end)?;
    Ok(())
}

/// Puts the ways in which the conversion prints the bytes at the end, where a `*` gives a width whose
/// absolute value is below the number of bytes.
fn push_thin_widths<'a>(
    alloc: Global,
    out: &mut SplitList<'a>,
    c: &Conversion,
    slice: &'a [u8],
    end: usize,
) -> Result<(), AllocError>
    ensures { OnOk result (Adds (Kind.Integer ∷ width_kinds c.now) (true ∷ width_marks c.now) (thin_widths_end c.now slice.now end) out.old out.new) }
{
    if slice.is_empty() {
        return Ok(());
    }
    let most = slice.len() - 1;
    let width = Amount {
        value: 0,
        range: Some(Range {
            low: negative(most),
            high: positive(most),
        }),
    };
    push_width(alloc, out, c, width, slice, end)?;
    Ok(())
}

/// The same where a `*` gives this width.
fn push_exact_width<'a>(
    alloc: Global,
    out: &mut SplitList<'a>,
    c: &Conversion,
    value: i64,
    slice: &'a [u8],
    end: usize,
) -> Result<(), AllocError>
    requires { IsInt value }
    ensures { OnOk result (Adds (Kind.Integer ∷ width_kinds c.now) (true ∷ width_marks c.now) (exact_width_end c.now value slice.now end) out.old out.new) }
{
    let range = Some(Range {
        low: value,
        high: value,
    });
    push_width(alloc, out, c, Amount { value, range }, slice, end)?;
    Ok(())
}

/// The same where a `*` gives the number of bytes as the width.
fn push_right_width<'a>(
    alloc: Global,
    out: &mut SplitList<'a>,
    c: &Conversion,
    slice: &'a [u8],
    end: usize,
) -> Result<(), AllocError>
    ensures { OnOk result (Adds (Kind.Integer ∷ width_kinds c.now) (true ∷ width_marks c.now) (exact_width_end c.now (pos (length slice.now)) slice.now end) out.old out.new) }
{
    if slice.len() > MOST {
        return Ok(());
    }
    push_exact_width(alloc, out, c, positive(slice.len()), slice, end)?;
    Ok(())
}

/// The same where a `*` gives the negative of the number of bytes as the width.
fn push_left_width<'a>(
    alloc: Global,
    out: &mut SplitList<'a>,
    c: &Conversion,
    slice: &'a [u8],
    end: usize,
) -> Result<(), AllocError>
    ensures { OnOk result (Adds (Kind.Integer ∷ width_kinds c.now) (true ∷ width_marks c.now) (exact_width_end c.now (neg_ℤ (pos (length slice.now))) slice.now end) out.old out.new) }
{
    if slice.len() > MOST + 1 {
        return Ok(());
    }
    push_exact_width(alloc, out, c, negative(slice.len()), slice, end)?;
    Ok(())
}

/// The same where a `*` gives any width.
fn push_star_widths<'a>(
    alloc: Global,
    out: &mut SplitList<'a>,
    c: &Conversion,
    slice: &'a [u8],
    end: usize,
) -> Result<(), AllocError>
    ensures { OnOk result (Adds (Kind.Integer ∷ width_kinds c.now) (true ∷ width_marks c.now) (star_width_end c.now slice.now end) out.old out.new) }
{
    push_thin_widths(alloc, out, c, slice, end)?;
    push_right_width(alloc, out, c, slice, end)?;
    if slice.is_empty() {
        return Ok(());
    }
    push_left_width(alloc, out, c, slice, end)?;
    Ok(())
}

/// Puts the ways in which the conversion prints the bytes at the end, where no `*` gives the width.
fn push_written_width<'a>(
    alloc: Global,
    out: &mut SplitList<'a>,
    c: &Conversion,
    slice: &'a [u8],
    end: usize,
) -> Result<(), AllocError>
    ensures { OnOk result (Adds (width_kinds c.now) (width_marks c.now) (written_width_end c.now slice.now end) out.old out.new) }
{
    let width = Amount {
        value: written(0, c.width),
        range: None,
    };
    push_width(alloc, out, c, width, slice, end)?;
    Ok(())
}

/// Puts the ways in which the conversion prints the bytes at the end.
pub fn push_conversion<'a>(
    alloc: Global,
    out: &mut SplitList<'a>,
    c: &Conversion,
    slice: &'a [u8],
    end: usize,
) -> Result<(), AllocError>
    ensures { OnOk result (Adds (conversion_kinds c.now) (conversion_marks c.now) (conversion_end c.now slice.now end) out.old out.new) }
{
    if is_star(c.width) {
        push_star_widths(alloc, out, c, slice, end)?;
        return Ok(());
    }
    push_written_width(alloc, out, c, slice, end)?;
    Ok(())
}
