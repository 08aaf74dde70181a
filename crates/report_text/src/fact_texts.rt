//! The texts of facts.
ghost use Rattle.std.specs.Prelude.{◌≡◌, ◌++◌, IfOk};
ghost use Rattle.report_text.specs.FactTexts as spec;

use crate::numbers::{put_count, put_number, put_signed};
use c_language::Places;
use plain_data::{Bytes, Fact, Side, Undefined};
use std::alloc::AllocError;

/// Puts FILE:LINE:COLUMN of the token at a byte offset at the end of a text. It fails for want of memory alone.
pub fn put_place(text: &mut Bytes, places: &Places, at: u32) -> Result<(), AllocError>
    ensures { IfOk result (λ _. text.new ≡ text.old ++ spec.at_text places.now at) }
{
    let place = places.place(at);
    text.extend_from_slice(places.file(place.file))?;
    text.push(b':')?;
    put_number(text, u128::from(place.line))?;
    text.push(b':')?;
    put_number(text, u128::from(place.column))
}

fn put_side(text: &mut Bytes, side: &Side) -> Result<(), AllocError>
    ensures { IfOk result (λ _. text.new ≡ text.old ++ spec.side_text side.now) }
{
    match side {
        Side::Yes => text.extend_from_slice(b" true"),
        Side::No => text.extend_from_slice(b" false"),
        Side::Case(value) => {
            text.extend_from_slice(b" case ")?;
            put_signed(text, *value)
        }
        Side::Otherwise => text.extend_from_slice(b" default"),
    }
}

fn put_branch(text: &mut Bytes, places: &Places, at: u32, side: &Side) -> Result<(), AllocError>
    ensures { IfOk result (λ _. text.new ≡ text.old ++ spec.branch_text places.now at side.now) }
{
    text.extend_from_slice(b"branch ")?;
    put_place(text, places, at)?;
    put_side(text, side)
}

fn put_call(text: &mut Bytes, places: &Places, at: u32) -> Result<(), AllocError>
    ensures { IfOk result (λ _. text.new ≡ text.old ++ spec.call_text places.now at) }
{
    text.extend_from_slice(b"call ")?;
    put_place(text, places, at)
}

fn put_print(text: &mut Bytes, places: &Places, at: u32, line: u32) -> Result<(), AllocError>
    ensures { IfOk result (λ _. text.new ≡ text.old ++ spec.print_text places.now at line) }
{
    text.extend_from_slice(b"print ")?;
    put_place(text, places, at)?;
    put_count(text, b" line ", u64::from(line))
}

/// The word for a kind of undefined behaviour.
pub fn word_of_kind(kind: Undefined) -> &'static str
    ensures { result.now ≡ spec.kind_word kind }
{
    match kind {
        Undefined::Overflow => "overflow",
        Undefined::ZeroDivisor => "divisor",
        Undefined::Shift => "shift",
        Undefined::PointerRange => "range",
        Undefined::Dereference => "dereference",
        Undefined::LiteralWrite => "literal",
        Undefined::Free => "free",
        Undefined::PointerOrder => "order",
        Undefined::MissingValue => "missing",
    }
}

fn put_kind(text: &mut Bytes, kind: Undefined) -> Result<(), AllocError>
    ensures { IfOk result (λ _. text.new ≡ text.old ++ spec.undefined_text kind) }
{
    text.extend_from_slice(b"undefined ")?;
    text.extend_from_slice(word_of_kind(kind).as_bytes())
}

fn put_stop(text: &mut Bytes, places: &Places, kind: Undefined, at: u32) -> Result<(), AllocError>
    ensures { IfOk result (λ _. text.new ≡ text.old ++ spec.stop_text places.now kind at) }
{
    put_kind(text, kind)?;
    text.push(b' ')?;
    put_place(text, places, at)
}

/// Puts the text of a fact at the end of a text. It fails for want of memory alone.
pub(crate) fn put_fact(text: &mut Bytes, places: &Places, fact: &Fact) -> Result<(), AllocError>
    ensures { IfOk result (λ _. text.new ≡ text.old ++ spec.fact_text places.now fact.now) }
{
    match fact {
        Fact::Branch { at, side } => put_branch(text, places, *at, side),
        Fact::BranchIn { at, side, line } => {
            put_branch(text, places, *at, side)?;
            put_count(text, b" in ", u64::from(*line))
        }
        Fact::Call { at } => put_call(text, places, *at),
        Fact::CallIn { at, line } => {
            put_call(text, places, *at)?;
            put_count(text, b" in ", u64::from(*line))
        }
        Fact::Print { at, line } => put_print(text, places, *at, *line),
        Fact::StopAt { kind, at } => put_stop(text, places, *kind, *at),
        Fact::Returned => text.extend_from_slice(b"return"),
        Fact::Exited => text.extend_from_slice(b"exit"),
        Fact::Aborted => text.extend_from_slice(b"abort"),
        Fact::StopOf { kind } => put_kind(text, *kind),
    }
}
