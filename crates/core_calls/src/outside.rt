//! Functions outside: what they answer, and what they fill.
ghost use Rattle.std.specs.Prelude.{◌≡◌, IfOk, option_map};
ghost use Rattle.std.specs.Option.{option_copied};
ghost use Rattle.c_means.specs.Values as values;
ghost use Rattle.c_means.specs.Calls as calls;
ghost use Rattle.elaborate.specs.Callees as callees;
ghost use Rattle.core_calls.specs.Calling as spec;

use c_language::{CType, Class, IntegerKind, Tables};
use c_means::{FillAnswer, FillFunction};
use code_forms::bytes_of;
use core_tree::{Fill, OutsideAnswer, Pointee};
use std::alloc::{AllocError, Global};

fn is_character(class: Class) -> bool
    ensures { result ≡ calls.is_character_class class }
{
    match class {
        Class::Integer(kind) => match kind {
            IntegerKind::Char => true,
            IntegerKind::SignedChar => true,
            IntegerKind::UnsignedChar => true,
            _ => false,
        },
        _ => false,
    }
}

/// What a pointer to this type leads to: characters that end with 0, or one object of its size.
fn pointee(tables: &Tables, target: Option<&CType>) -> Pointee
    ensures { result ≡ callees.pointee_of tables.now (option_copied target.entry) }
{
    match target {
        Some(target) => {
            if is_character(target.class()) {
                Pointee::Text
            } else {
                Pointee::Bytes {
                    size: bytes_of(tables, target),
                }
            }
        }
        None => Pointee::Bytes { size: 0 },
    }
}

/// What a function outside answers, by the type of its call; where that is a pointer, null may come or not. It fails
/// for want of memory alone.
pub fn outside_answer(
    alloc: Global,
    tables: &Tables,
    ctype: &Option<CType>,
    never_null: bool,
) -> Result<OutsideAnswer, AllocError>
    ensures { IfOk result (λ a. a ≡ spec.answer_for tables.now ctype.now never_null) }
{
    let Some(ctype) = ctype else {
        return Ok(OutsideAnswer::Nothing);
    };
    match ctype.class() {
        Class::Pointer => {
            let target = ctype.target(alloc)?;
            let pointee = pointee(tables, target.as_ref());
            Ok(OutsideAnswer::Pointer {
                never_null,
                pointee,
            })
        }
        Class::Void => Ok(OutsideAnswer::Nothing),
        Class::Integer(_) => Ok(OutsideAnswer::Number),
        Class::Array => Ok(OutsideAnswer::Number),
        Class::Function => Ok(OutsideAnswer::Number),
        Class::Floating => Ok(OutsideAnswer::Number),
        Class::Aggregate(_) => Ok(OutsideAnswer::Number),
        Class::Opaque => Ok(OutsideAnswer::Number),
    }
}

fn counts(answer: FillAnswer) -> bool
    ensures { result ≡ callees.counts answer }
{
    match answer {
        FillAnswer::Free => false,
        FillAnswer::Count => true,
    }
}

/// What a function outside fills.
pub fn fill(function: Option<&FillFunction>) -> Option<Fill>
    ensures { result ≡ option_map callees.fill_of (option_copied function.entry) }
{
    match function {
        Some(function) => Some(Fill {
            buffer: function.buffer,
            length: function.length,
            counts: counts(function.answer),
        }),
        None => None,
    }
}
