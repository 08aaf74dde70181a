//! The lines that are told.
ghost use Rattle.std.specs.Prelude.{◌≡◌, ◌≤◌, length, IfOk};
ghost use Rattle.sl_io.specs.Writes.{Told};
ghost use Rattle.sherlog.specs.Inputs.{asked_in};
ghost use Rattle.sherlog.specs.Lines as spec;
ghost use Rattle.sherlog.specs.Sources.{fault_name, format_name, layout_name, rule_name, typing_name};

use crate::places::{MAX_SOURCE, put_spot, spot_at};
use crate::refusal::{Refusal, SourceFault};
use crate::request::Request;
use c_language::{LayoutRule, Rule, Spot};
use c_means::BrokenRule;
use config_text::ConfigFault;
use plain_data::{Bytes, Finish, Undefined};
use printf_text::FormatFault;
use sl_io::{Sink, tell};
use std::alloc::{AllocError, Global};

/// Tells of words that are no command line.
pub fn tell_usage<E: Sink>(err: &mut E)
    ensures { Told (E.state err.old) (E.state err.new) spec.usage_line }
{
    tell(err, b"sherlog: 2 usage\n");
}

/// Tells of a want of memory.
pub fn tell_memory<E: Sink>(err: &mut E)
    ensures { Told (E.state err.old) (E.state err.new) spec.memory_line }
{
    tell(err, b"sherlog: 12 memory\n");
}

// ---- names

fn name_of_fault(fault: SourceFault) -> &'static str
    ensures { result.now ≡ fault_name fault }
{
    match fault {
        SourceFault::BadByte => "BadByte",
        SourceFault::OpenText => "OpenText",
        SourceFault::WideNumber => "WideNumber",
        SourceFault::BadConstant => "BadConstant",
        SourceFault::BadDirective => "BadDirective",
        SourceFault::Syntax => "Syntax",
        SourceFault::TooDeep => "TooDeep",
    }
}

fn name_of_layout(rule: LayoutRule) -> &'static str
    ensures { result.now ≡ layout_name rule }
{
    match rule {
        LayoutRule::Incomplete => "Layout Incomplete",
        LayoutRule::ObjectTooLarge => "Layout ObjectTooLarge",
        LayoutRule::NotConstant => "Layout NotConstant",
    }
}

fn name_of_typing(rule: Rule) -> &'static str
    ensures { result.now ≡ typing_name rule }
{
    match rule {
        Rule::Undeclared => "Undeclared",
        Rule::TypeMismatch => "TypeMismatch",
        Rule::NotModifiable => "NotModifiable",
        Rule::FloatUsed => "FloatUsed",
        Rule::IndirectCall => "IndirectCall",
        Rule::StructByValue => "StructByValue",
        Rule::BitField => "BitField",
        Rule::Layout(rule) => name_of_layout(rule),
        Rule::DuplicateDefinition => "DuplicateDefinition",
    }
}

fn name_of_format(fault: &FormatFault) -> &'static str
    ensures { result.now ≡ format_name fault.now }
{
    match fault {
        FormatFault::Unsupported(_) => "FormatFault Unsupported",
        FormatFault::Truncated(_) => "FormatFault Truncated",
        FormatFault::Memory => "FormatFault",
    }
}

fn name_of_rule(rule: &BrokenRule) -> &'static str
    ensures { result.now ≡ rule_name rule.now }
{
    match rule {
        BrokenRule::UnreadBody => "UnreadBody",
        BrokenRule::Typing(rule) => name_of_typing(*rule),
        BrokenRule::BadGoto => "BadGoto",
        BrokenRule::FormatNotLiteral => "FormatNotLiteral",
        BrokenRule::Format(fault) => name_of_format(fault),
        BrokenRule::FormatArgument => "FormatArgument",
    }
}

fn word_of_kind(kind: Undefined) -> &'static str
    ensures { result.now ≡ spec.kind_word kind }
{
    match kind {
        Undefined::Overflow => "overflow",
        Undefined::ZeroDivisor => "divisor",
        Undefined::Shift => "shift",
        Undefined::PointerRange => "range",
        Undefined::Dereference => "dereference",
        Undefined::LiteralWrite => "literal",
        Undefined::Free => "free",
        Undefined::PointerOrder => "order",
        Undefined::MissingValue => "missing",
    }
}

// ---- refusals

/// Text in one piece, as bytes.
fn line_from(alloc: Global, text: &str) -> Result<Bytes, AllocError>
    ensures { IfOk result (λ line. line ≡ text.now) }
{
    let mut line = Bytes::new(alloc);
    line.extend_from_slice(text.as_bytes())?;
    Ok(line)
}

/// The line of a name and a place.
fn placed_line(alloc: Global, name: &str, spot: &Spot) -> Result<Bytes, AllocError>
    ensures { IfOk result (λ line. line ≡ spec.placed_line name.now spot.now) }
{
    let mut line = Bytes::new(alloc);
    line.extend_from_slice(b"sherlog: 3 ")?;
    line.extend_from_slice(name.as_bytes())?;
    line.extend_from_slice(b" ")?;
    put_spot(alloc, &mut line, spot)?;
    line.extend_from_slice(b"\n")?;
    Ok(line)
}

/// The line of a name and a key of the configuration.
fn key_line(alloc: Global, name: &str, key: &[u8]) -> Result<Bytes, AllocError>
    ensures { IfOk result (λ line. line ≡ spec.key_line name.now key.now) }
{
    let mut line = Bytes::new(alloc);
    line.extend_from_slice(b"sherlog: 5 ")?;
    line.extend_from_slice(name.as_bytes())?;
    line.extend_from_slice(b" ")?;
    line.extend_from_slice(key)?;
    line.extend_from_slice(b"\n")?;
    Ok(line)
}

fn config_line(alloc: Global, fault: &ConfigFault) -> Result<Bytes, AllocError>
    ensures { IfOk result (λ line. line ≡ spec.config_line fault.now) }
{
    match fault {
        ConfigFault::NotJson => line_from(alloc, "sherlog: 5 NotJson\n"),
        ConfigFault::UnknownKey(key) => key_line(alloc, "UnknownKey", key.as_slice()),
        ConfigFault::WrongType(key) => key_line(alloc, "WrongType", key.as_slice()),
        ConfigFault::OutOfRange(key) => key_line(alloc, "OutOfRange", key.as_slice()),
        ConfigFault::BadPattern => line_from(alloc, "sherlog: 5 BadPattern\n"),
        ConfigFault::Memory => line_from(alloc, "sherlog: 12 memory\n"),
    }
}

fn world_line(alloc: Global, number: usize) -> Result<Bytes, AllocError>
    ensures { IfOk result (λ line. line ≡ spec.world_line number) }
{
    let text = format!(in alloc; "sherlog: 10 line {number}\n")?;
    line_from(alloc, text.as_str())
}

fn lines_line(alloc: Global, count: u32) -> Result<Bytes, AllocError>
    ensures { IfOk result (λ line. line ≡ spec.lines_line count) }
{
    let text = format!(in alloc; "sherlog: 4 lines {count}\n")?;
    line_from(alloc, text.as_str())
}

fn long_line(alloc: Global, name: &str) -> Result<Bytes, AllocError>
    ensures { IfOk result (λ line. line ≡ spec.long_line name.now) }
{
    let mut line = Bytes::new(alloc);
    line.extend_from_slice(b"sherlog: 7 ")?;
    line.extend_from_slice(name.as_bytes())?;
    line.extend_from_slice(b"\n")?;
    Ok(line)
}

/// The line of a refusal.
fn line_of(alloc: Global, request: &Request<'_>, refusal: &Refusal) -> Result<Bytes, AllocError>
    ensures { IfOk result (λ line. line ≡ spec.line_of (asked_in request.now) refusal.now) }
{
    match refusal {
        Refusal::BadConfig(fault) => config_line(alloc, fault),
        Refusal::BadSource { fault, spot } => placed_line(alloc, name_of_fault(*fault), spot),
        Refusal::NoMain => line_from(alloc, "sherlog: 3 NoMain\n"),
        Refusal::Broken { rule, spot } => placed_line(alloc, name_of_rule(rule), spot),
        Refusal::NotYetRead => line_from(alloc, "sherlog: 3 NotYetRead\n"),
        Refusal::TooManyLines(count) => lines_line(alloc, *count),
        Refusal::TooLarge => line_from(alloc, "sherlog: 8 measure\n"),
        Refusal::BadWorld(line) => world_line(alloc, *line),
        Refusal::Fault => line_from(alloc, "sherlog: 6 fault\n"),
        Refusal::TooLong(file) => long_line(alloc, file.name(request)),
        Refusal::Memory => line_from(alloc, "sherlog: 12 memory\n"),
    }
}

/// Tells of a refusal, and answers its status. Where there is no memory for the line, that is told instead; the line
/// of a fault of the outside takes none, since the output may have been written in part.
pub fn tell_refusal<E: Sink>(
    alloc: Global,
    err: &mut E,
    request: &Request<'_>,
    refusal: &Refusal,
) -> u8
    ensures { spec.TellsOf (asked_in request.now) refusal.now (E.state err.old) (E.state err.new) result }
{
    if let Refusal::Fault = refusal {
        tell(err, b"sherlog: 6 fault\n");
        return 6;
    }
    match line_of(alloc, request, refusal) {
        Ok(line) => {
            tell(err, line.as_slice());
            refusal.status()
        }
        Err(_) => {
            tell_memory(err);
            12
        }
    }
}

// ---- how a run ended

fn undefined_end(
    alloc: Global,
    kind: Undefined,
    name: &str,
    source: &[u8],
    at: u32,
) -> Result<Bytes, AllocError>
    requires { length source.now ≤ MAX_SOURCE }
    ensures { IfOk result (λ line. line ≡ spec.undefined_end kind name.now source.now at) }
{
    let spot = spot_at(alloc, name, source, at)?;
    let mut line = Bytes::new(alloc);
    line.extend_from_slice(b"end undefined ")?;
    line.extend_from_slice(word_of_kind(kind).as_bytes())?;
    line.extend_from_slice(b" ")?;
    put_spot(alloc, &mut line, &spot)?;
    line.extend_from_slice(b"\n")?;
    Ok(line)
}

fn left_end(alloc: Global, name: &str, source: &[u8], at: u32) -> Result<Bytes, AllocError>
    requires { length source.now ≤ MAX_SOURCE }
    ensures { IfOk result (λ line. line ≡ spec.left_end name.now source.now at) }
{
    let spot = spot_at(alloc, name, source, at)?;
    let mut line = Bytes::new(alloc);
    line.extend_from_slice(b"end left ")?;
    put_spot(alloc, &mut line, &spot)?;
    line.extend_from_slice(b"\n")?;
    Ok(line)
}

/// The line of how a run of a source ended.
pub fn end_line(
    alloc: Global,
    name: &str,
    source: &[u8],
    finish: Finish,
) -> Result<Bytes, AllocError>
    requires { length source.now ≤ MAX_SOURCE }
    ensures { IfOk result (λ line. line ≡ spec.end_line name.now source.now finish) }
{
    match finish {
        Finish::Return(value) => {
            let text = format!(in alloc; "end return {value}\n")?;
            line_from(alloc, text.as_str())
        }
        Finish::Exit(value) => {
            let text = format!(in alloc; "end exit {value}\n")?;
            line_from(alloc, text.as_str())
        }
        Finish::Abort => line_from(alloc, "end abort\n"),
        Finish::Stopped { kind, at } => undefined_end(alloc, kind, name, source, at),
        Finish::Left { at } => left_end(alloc, name, source, at),
    }
}
