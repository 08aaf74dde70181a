//! Arguments of log calls, by the conversions that they are for (C99 7.19.6.1).
ghost use Rattle.std.specs.Prelude.{◌≡◌, [], ◌++◌, ◌+◌, ◌<◌, ◌≤◌, ◌^◌, map, length, IfOk};
ghost use Rattle.c_machine.specs.States.{state};
ghost use Rattle.c_machine.specs.Worth.{worth};
ghost use Rattle.c_means.specs.Calls as calls;
ghost use Rattle.core_tree.specs.Callees as callees;
ghost use Rattle.core_tree.specs.Callees.{spoken, first_value};
ghost use Rattle.run_callees.specs.Levels.{level_of};
ghost use Rattle.run_callees.specs.Spoken.{listed};

use crate::numbers::int_type;
use crate::spoken::{behind_first, behind_star, integer_arg, size_of, star_arg};
use crate::texts::read_text;
use c_machine::{Machine, Value};
use core_tree::WordType;
use printf_text::{Arg, Args, Conversion, Form, Piece};
use std::alloc::{AllocError, Global};

/// How many places a conversion takes.
fn places(form: Form) -> u64
    ensures value { result ≡ calls.pointer_places form }
    ensures within { result ≤ 1 }
{
    match form {
        Form::Pointer => 1,
        Form::Text => 0,
        Form::Char => 0,
        Form::Signed(_) => 0,
        Form::Unsigned(_, _) => 0,
    }
}

/// How many places the conversions of pieces take.
pub(crate) fn places_in(pieces: &[Piece]) -> u64
    ensures value { result ≡ calls.pointers_in pieces.now }
    ensures within { result ≤ length pieces.now }
{
    match pieces.split_first() {
        Some((piece, rest)) => match piece {
            Piece::Literal(_) => places_in(rest),
            Piece::Converted(c) => places(c.form) + places_in(rest),
        },
        None => 0,
    }
}

/// A pointer: null, or the number that its place gives, and 1 where that is 0.
fn pointer_arg(value: &Value, place: u64, m: &Machine) -> Arg
    ensures { result ≡ callees.pointer_arg (level_of m.now.world) place (worth value.now) }
{
    if value.is_zero() {
        return Arg::Null;
    }
    let word = m.world.word(place);
    Arg::Shown(if word == 0 { 1 } else { word })
}

fn most_of(precision: i64) -> Option<u64>
    ensures { result ≡ calls.most_of precision }
{
    if precision >= 0 {
        Some(precision as u64)
    } else {
        None
    }
}

/// The argument of a conversion: nothing where a text that it prints has a byte that is of no live object. It fails for
/// want of memory alone.
fn argument(
    alloc: Global,
    form: Form,
    precision: i64,
    word: WordType,
    value: &Value,
    place: u64,
    m: &Machine,
) -> Result<Option<Arg>, AllocError>
    ensures { IfOk result (λ arg. arg ≡ callees.formed_arg (level_of m.now.world) form precision record { word = word; value = worth value.now } place (state m.now).store) }
{
    Ok(match form {
        Form::Text => match read_text(alloc, most_of(precision), value.address(), m)? {
            Some(text) => Some(Arg::Text(text)),
            None => None,
        },
        Form::Pointer => Some(pointer_arg(value, place, m)),
        Form::Char => Some(integer_arg(word, value)),
        Form::Signed(_) => Some(integer_arg(word, value)),
        Form::Unsigned(_, _) => Some(integer_arg(word, value)),
    })
}

/// The same of the `int` 0.
fn zero_argument(
    alloc: Global,
    form: Form,
    precision: i64,
    place: u64,
    m: &Machine,
) -> Result<Option<Arg>, AllocError>
    ensures { IfOk result (λ arg. arg ≡ callees.formed_arg (level_of m.now.world) form precision (first_value []) place (state m.now).store) }
{
    let zero = Value::Number(0);
    argument(alloc, form, precision, int_type(), &zero, place, m)
}

/// The same of the first of what is left, or of the `int` 0 where nothing is.
fn first_argument(
    alloc: Global,
    form: Form,
    precision: i64,
    types: &[WordType],
    values: &[Value],
    place: u64,
    m: &Machine,
) -> Result<Option<Arg>, AllocError>
    ensures { IfOk result (λ arg. arg ≡ callees.formed_arg (level_of m.now.world) form precision (first_value (spoken types.now (map worth values.now))) place (state m.now).store) }
{
    match (types.split_first(), values.split_first()) {
        (Some((word, _)), Some((value, _))) => {
            argument(alloc, form, precision, *word, value, place, m)
        }
        (Some(_), None) => zero_argument(alloc, form, precision, place, m),
        (None, _) => zero_argument(alloc, form, precision, place, m),
    }
}

/// The arguments of one conversion in front of those of the pieces behind it.
fn before(
    alloc: Global,
    width: Option<Arg>,
    precision: Option<Arg>,
    formed: Option<Arg>,
    more: Option<Args>,
) -> Result<Option<Args>, AllocError>
    ensures { IfOk result (λ args. args ≡ calls.before_args (listed width ++ listed precision) formed more) }
{
    match (formed, more) {
        (Some(arg), Some(more)) => {
            let mut args = Args::new(alloc);
            push_all(&mut args, width)?;
            push_all(&mut args, precision)?;
            args.push(arg)?;
            args.append(more)?;
            Ok(Some(args))
        }
        (Some(_), None) => Ok(None),
        (None, _) => Ok(None),
    }
}

fn push_all(args: &mut Args, arg: Option<Arg>) -> Result<(), AllocError>
    ensures { IfOk result (λ _. args.new ≡ args.old ++ listed arg) }
{
    match arg {
        Some(arg) => args.push(arg),
        None => Ok(()),
    }
}

/// The arguments of pieces, from the first place that is given to a `%p`: nothing where a text has a byte that is of no
/// live object. It fails for want of memory alone.
#[tactic(auto, using(crate::proofs::Forming::formed_on))]
pub(crate) fn arguments(
    alloc: Global,
    pieces: &[Piece],
    types: &[WordType],
    values: &[Value],
    place: u64,
    m: &Machine,
) -> Result<Option<Args>, AllocError>
    requires { place + calls.pointers_in pieces.now < 2 ^ 64 }
    ensures { IfOk result (λ args. args ≡ callees.arguments_of (level_of m.now.world) pieces.now (spoken types.now (map worth values.now)) place (state m.now).store) }
{
    match pieces.split_first() {
        Some((piece, rest)) => match piece {
            Piece::Literal(_) => {
                let args = arguments(alloc, rest, types, values, place, m)?;
                Ok(args)
            }
            Piece::Converted(c) => {
                let width = star_arg(c.width, types, values);
                let (types, values) = behind_star(c.width, types, values);
                let precision = star_arg(c.precision, types, values);
                let number = size_of(-1, c.precision, types, values);
                let (types, values) = behind_star(c.precision, types, values);
                let formed = first_argument(alloc, c.form, number, types, values, place, m)?;
                let (types, values) = behind_first(types, values);
                let next = place + places(c.form);
                let more = arguments(alloc, rest, types, values, next, m)?;
                let args = before(alloc, width, precision, formed, more)?;
                Ok(args)
            }
        },
        None => Ok(Some(Args::new(alloc))),
    }
}
