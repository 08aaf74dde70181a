//! What the declarations of a preprocessed source in standard input say of types, for comparison with tables and with a
//! C compiler.
//!
//! - `types`: the names that are declared with their types, and the values of their initializers (`naming`).
//! - `layouts`: the sizes and alignments of objects, the offsets and sizes of members, and values (`sizing`).
//!
//! In both, `fault AT RULE` stands for a broken rule at an offset in bytes.
#![tactic(auto)]

mod declaring;
mod faults;
mod naming;
mod sizing;
mod spelling;
mod text;

use anyhow::{Result, anyhow};
use c_language::Unit;
use c_parser::discard;
use declaring::{Answer, put_unit};
use plain_data::Bytes;
use std::alloc::Global;
use std::io::{self, Read, Write};
use text_rows::unit_of;

/// What a word asks of each declaration.
fn answer_named(word: &str) -> Option<Answer> {
    match word {
        "types" => Some(Answer::Types),
        "layouts" => Some(Answer::Layouts),
        _ => None,
    }
}

/// Prints what is answered of a unit.
fn print_answer(rt: &(impl Print + AllocGlobal), answer: Answer, unit: &Unit) -> Result<()> {
    let mut text = Bytes::new(rt.alloc());
    put_unit(rt.alloc(), answer, unit.externals.as_slice(), &mut text)?;
    io::writer(rt).write_all(text.as_slice())?;
    Ok(())
}

/// Answers the source in standard input as a word asks.
pub fn answer(rt: &(impl Input + Print + AllocGlobal), word: &str) -> Result<()> {
    let answer = answer_named(word).ok_or(anyhow!("no such word"))?;
    let mut source = Vec::new(rt.alloc());
    rt.reader().read_to_end(&mut source)?;
    let unit = unit_of(rt.alloc(), source.as_slice())?;
    let printed = print_answer(rt, answer, &unit);
    discard(unit);
    printed
}
