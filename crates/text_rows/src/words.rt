//! Rows of operations on words, answered by the word that the operation gives for words of N bits.
ghost use Rattle.std.specs.Prelude.{◌^◌, ◌<◌};
ghost use Rattle.plain_data.specs.Words.{bits};

use crate::reading::width_of;
use anyhow::Result;
use plain_data::{
    Width, add, add_over, ashr, div_over, lshr, mul, mul_over, sdiv, shl, shl_over, slt, srem, sub,
    sub_over, udiv, ult, urem, wrap,
};
use std::alloc::Global;

/// The answer to a row `OP A B N`, `-` where it asks for nothing that there is.
pub fn answer(alloc: Global, row: &str) -> Result<String> {
    let mut words = row.split_whitespace();
    let op = words.next().unwrap_or("");
    let a = words.next().unwrap_or("");
    let b = words.next().unwrap_or("");
    let width = words.next().unwrap_or("");
    match computed(op, a, b, width) {
        Some(word) => Ok(format!(in alloc; "{word}\n")?),
        None => Ok(format!(in alloc; "-\n")?),
    }
}

/// The answer to an operation on two words.
fn computed(op: &str, a: &str, b: &str, width: &str) -> Option<u64> {
    let width = width_of(width)?;
    let a = wrap(i128::from(a.parse::<u64>().ok()?), width);
    let count = b.parse::<u32>().unwrap_or(0);
    let b = wrap(i128::from(b.parse::<u64>().ok()?), width);
    summed(op, a, b, width)
        .or(compared(op, a, b, width))
        .or(shifted(op, a, count, width))
        .or(divided(op, a, b, width))
}

/// The answer to a sum, a difference or a product.
fn summed(op: &str, a: u64, b: u64, width: Width) -> Option<u64>
    requires a_in { a < 2 ^ bits width }
    requires b_in { b < 2 ^ bits width }
{
    match op {
        "add" => Some(add(a, b, width)),
        "sub" => Some(sub(a, b, width)),
        "mul" => Some(mul(a, b, width)),
        _ => None,
    }
}

/// The answer to a comparison, or to the question whether a signed result is out of the type, 1 for yes.
fn compared(op: &str, a: u64, b: u64, width: Width) -> Option<u64>
    requires a_in { a < 2 ^ bits width }
    requires b_in { b < 2 ^ bits width }
{
    match op {
        "ult" => Some(u64::from(ult(a, b, width))),
        "slt" => Some(u64::from(slt(a, b, width))),
        "add_over" => Some(u64::from(add_over(a, b, width))),
        "sub_over" => Some(u64::from(sub_over(a, b, width))),
        "mul_over" => Some(u64::from(mul_over(a, b, width))),
        _ => None,
    }
}

/// The answer to a shift.
fn shifted(op: &str, a: u64, by: u32, width: Width) -> Option<u64>
    requires { a < 2 ^ bits width }
{
    if op == "shl_over" {
        return Some(u64::from(shl_over(a, by, width)));
    }
    if by >= width.bits() {
        return None;
    }
    match op {
        "shl" => Some(shl(a, by, width)),
        "lshr" => Some(lshr(a, by, width)),
        "ashr" => Some(ashr(a, by, width)),
        _ => None,
    }
}

/// The answer to a division.
fn divided(op: &str, a: u64, b: u64, width: Width) -> Option<u64>
    requires a_in { a < 2 ^ bits width }
    requires b_in { b < 2 ^ bits width }
{
    if b == 0 {
        return None;
    }
    match op {
        "udiv" => Some(udiv(a, b, width)),
        "urem" => Some(urem(a, b, width)),
        "sdiv" if !div_over(a, b, width) => Some(sdiv(a, b, width)),
        "srem" if !div_over(a, b, width) => Some(srem(a, b, width)),
        _ => None,
    }
}
