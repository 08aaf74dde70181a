ghost use Rattle.std.specs.Prelude.{◌≡◌, ◌++◌, IfOk, IfErr, string_bytes};
ghost use Rattle.sl_config.specs.Generated as spec;

use plain_data::{Bytes, Items};
use std::alloc::{AllocError, Global};
use thiserror::Error;

/// Why a source or a log was not made.
#[derive(Clone, Copy, Debug, PartialEq, Eq, Error)]
pub enum MakeFault {
    #[error("out of memory")]
    Memory,
}

#[tactic(auto, unfolding(crate::specs::Generated::function_line))]
fn function_line(alloc: Global, number: u32) -> Result<String, AllocError>
    ensures { IfOk result (λ line. string_bytes line ≡ spec.function_line number) }
{
    format!(in alloc;
        "int f{number}(int x) {{ int r = ext(x); if (r < 0) {{ printf(\"f{number} low %d\\n\", r); return 1; }} printf(\"f{number} ok %d\\n\", r); return 0; }}\n"
    )
}

#[tactic(auto, unfolding(crate::specs::Generated::call_line))]
fn call_line(alloc: Global, number: u32) -> Result<String, AllocError>
    ensures { IfOk result (λ line. string_bytes line ≡ spec.call_line number) }
{
    format!(in alloc; "  s += f{number}({number});\n")
}

#[tactic(auto, unfolding(crate::specs::Generated::low_line))]
fn low_line(alloc: Global, number: u32) -> Result<String, AllocError>
    ensures { IfOk result (λ line. string_bytes line ≡ spec.low_line number) }
{
    format!(in alloc; "f{number} low -{number}\n")
}

#[tactic(auto, unfolding(crate::specs::Generated::ok_line))]
fn ok_line(alloc: Global, number: u32) -> Result<String, AllocError>
    ensures { IfOk result (λ line. string_bytes line ≡ spec.ok_line number) }
{
    format!(in alloc; "f{number} ok {number}\n")
}

fn log_line(alloc: Global, number: u32) -> Result<String, AllocError>
    ensures { IfOk result (λ line. string_bytes line ≡ spec.log_line number) }
{
    if number % 3 == 0 {
        low_line(alloc, number)
    } else {
        ok_line(alloc, number)
    }
}

fn put_functions(alloc: Global, text: &mut Bytes, count: u32) -> Result<(), AllocError>
    ensures { IfOk result (λ _. text.new ≡ text.old ++ spec.numbered spec.function_line 1 count) }
{
    'lines: for index in 0..count {
        text.extend_from_slice(function_line(alloc, index + 1)?.as_bytes())?;
    }
    Ok(())
}

fn put_calls(alloc: Global, text: &mut Bytes, count: u32) -> Result<(), AllocError>
    ensures { IfOk result (λ _. text.new ≡ text.old ++ spec.numbered spec.call_line 1 count) }
{
    'lines: for index in 0..count {
        text.extend_from_slice(call_line(alloc, index + 1)?.as_bytes())?;
    }
    Ok(())
}

fn put_log(alloc: Global, text: &mut Bytes, count: u32) -> Result<(), AllocError>
    ensures { IfOk result (λ _. text.new ≡ text.old ++ spec.numbered spec.log_line 1 count) }
{
    'lines: for index in 0..count {
        text.extend_from_slice(log_line(alloc, index + 1)?.as_bytes())?;
    }
    Ok(())
}

fn put_source(alloc: Global, text: &mut Bytes, count: u32) -> Result<(), AllocError>
    ensures { IfOk result (λ _. text.new ≡ text.old ++ spec.source count) }
{
    text.extend_from_slice(b"int ext(int);\nint printf(const char *, ...);\n")?;
    put_functions(alloc, text, count)?;
    text.extend_from_slice(b"int main(void) {\n  int s = 0;\n")?;
    put_calls(alloc, text, count)?;
    text.extend_from_slice(b"  return s;\n}\n")?;
    Ok(())
}

/// A source with so many functions, numbered from 1, each of which asks an outside function once and
/// prints one of two lines; `main` calls each once and answers how many failed.
pub fn make_source(alloc: Global, count: u32) -> Result<Bytes, MakeFault>
    ensures ok { IfOk result (λ source. source ≡ spec.source count) }
    ensures err { IfErr result (λ fault. fault ≡ MakeFault.Memory) }
{
    let mut text = Items::new(alloc);
    match put_source(alloc, &mut text, count) {
        Ok(()) => Ok(text),
        Err(_) => Err(MakeFault::Memory),
    }
}

/// A log that this source can print: every third call fails.
pub fn make_log(alloc: Global, count: u32) -> Result<Bytes, MakeFault>
    ensures ok { IfOk result (λ log. log ≡ spec.log count) }
    ensures err { IfErr result (λ fault. fault ≡ MakeFault.Memory) }
{
    let mut text = Items::new(alloc);
    match put_log(alloc, &mut text, count) {
        Ok(()) => Ok(text),
        Err(_) => Err(MakeFault::Memory),
    }
}
