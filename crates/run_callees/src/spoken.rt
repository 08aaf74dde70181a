//! The arguments that a format takes from the front (C99 7.19.6.1): their integer types, and their values.
ghost use Rattle.std.specs.Prelude.{◌≡◌, map, drop};
ghost use Rattle.c_machine.specs.Worth.{worth};
ghost use Rattle.core_tree.specs.Callees as callees;
ghost use Rattle.core_tree.specs.Callees.{spoken};
ghost use Rattle.printf_text.specs.Texts as texts;
ghost use Rattle.run_callees.specs.Spoken.{listed};

use crate::numbers::{value_of_word, word_of};
use c_machine::Value;
use core_tree::WordType;
use plain_data::{Width, to_signed, wrap};
use printf_text::{Arg, Size};

/// What stands behind the first argument.
pub(crate) fn behind_first<'a>(
    types: &'a [WordType],
    values: &'a [Value],
) -> (&'a [WordType], &'a [Value])
    ensures { spoken result.0.now (map worth result.1.now) ≡ drop 1 (spoken types.now (map worth values.now)) }
{
    match (types.split_first(), values.split_first()) {
        (Some((_, more)), Some((_, rest))) => (more, rest),
        (Some(_), None) => (types, values),
        (None, _) => (types, values),
    }
}

/// What stands behind so many arguments.
#[tactic(auto, using(crate::proofs::Dropping::behind_values, crate::proofs::Dropping::few_types, crate::proofs::Dropping::few_values))]
pub(crate) fn behind<'a>(
    count: u64,
    types: &'a [WordType],
    values: &'a [Value],
) -> (&'a [WordType], &'a [Value])
    ensures { spoken result.0.now (map worth result.1.now) ≡ drop count (spoken types.now (map worth values.now)) }
{
    let count = count as usize;
    if count > types.len() {
        return (types.split_at(0).0, values);
    }
    if count > values.len() {
        return (types.split_at(0).0, values);
    }
    (types.split_at(count).1, values.split_at(count).1)
}

/// An integer in its type.
pub(crate) fn integer_arg(word: WordType, value: &Value) -> Arg
    ensures { result ≡ callees.integer_arg record { word = word; value = worth value.now } }
{
    Arg::Word {
        bits: word_of(word.width, value),
        width: word.width,
        signed: word.is_signed,
    }
}

/// The argument that a `*` takes.
pub(crate) fn star_arg(size: Size, types: &[WordType], values: &[Value]) -> Option<Arg>
    ensures { listed result ≡ callees.star_args size (spoken types.now (map worth values.now)) }
{
    match size {
        Size::Star => match (types.split_first(), values.split_first()) {
            (Some((word, _)), Some((value, _))) => Some(integer_arg(*word, value)),
            (Some(_), None) => None,
            (None, _) => None,
        },
        Size::Written(_) => None,
        Size::Omitted => None,
    }
}

/// What stands behind it.
pub(crate) fn behind_star<'a>(
    size: Size,
    types: &'a [WordType],
    values: &'a [Value],
) -> (&'a [WordType], &'a [Value])
    ensures { spoken result.0.now (map worth result.1.now) ≡ callees.behind_star size (spoken types.now (map worth values.now)) }
{
    match size {
        Size::Star => behind_first(types, values),
        Size::Written(_) => (types, values),
        Size::Omitted => (types, values),
    }
}

/// The number that a `*` gives, or that is written.
pub(crate) fn size_of(none: i64, size: Size, types: &[WordType], values: &[Value]) -> i64
    ensures { result ≡ texts.size_of none size (callees.star_args size (spoken types.now (map worth values.now))) }
{
    match size {
        Size::Star => match (types.split_first(), values.split_first()) {
            (Some((word, _)), Some((value, _))) => int_of(*word, value),
            (Some(_), None) => 0,
            (None, _) => 0,
        },
        Size::Written(n) => i64::from(n),
        Size::Omitted => none,
    }
}

/// An integer, converted to `int`.
fn int_of(word: WordType, value: &Value) -> i64
    ensures { result ≡ texts.int_of (callees.integer_arg record { word = word; value = worth value.now }) }
{
    let value = value_of_word(word, word_of(word.width, value));
    to_signed(wrap(value, Width::W32), Width::W32)
}
