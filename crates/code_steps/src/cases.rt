//! The case of a `switch` that a value takes (C99 6.8.4.2).
ghost use Rattle.std.specs.Prelude.{◌≡◌, OnOk};
ghost use Rattle.c_machine.specs.Worth.{worth};
ghost use Rattle.core_tree.specs.Codes as form;
ghost use Rattle.core_tree.specs.Numbers.{wrapped};
ghost use Rattle.core_tree.specs.States.{plain};
ghost use Rattle.core_running.specs.Running.{done};

use crate::stores::wrapped_in;
use c_machine::{Machine, Value};
use c_means::Kind;
use core_tree::WordType;
use plain_data::{Happening, Side};
use std::alloc::AllocError;

/// Whether a `switch` has a case of this value.
fn has_case(cases: &[i128], value: i128) -> bool
    ensures { result ≡ form.is_among value cases.now }
{
    match cases.split_first() {
        Some((case, rest)) => value == *case || has_case(rest, value),
        None => false,
    }
}

/// Looks for the case of a value, else for `default`, and notes which (C99 6.8.4.2p4, p5).
fn choose(at: u32, cases: &[i128], value: i128, m: &mut Machine) -> Result<(), AllocError>
    ensures world { m.new.world ≡ m.old.world }
    ensures chooses { OnOk result (done m.new ≡ form.chosen_at plain at cases.now value (done m.old)) }
{
    if has_case(cases, value) {
        m.note(Happening::Branch {
            at,
            side: Side::Case(value),
        })?;
        m.turn_to(Kind::Choosing { value });
    } else {
        m.note(Happening::Branch {
            at,
            side: Side::Otherwise,
        })?;
        m.turn_to(Kind::Defaulting);
    }
    Ok(())
}

/// Compares a value as one of a type, and looks for its case.
pub fn choose_in(
    at: u32,
    word: WordType,
    cases: &[i128],
    value: Value,
    m: &mut Machine,
) -> Result<(), AllocError>
    ensures world { m.new.world ≡ m.old.world }
    ensures chooses { OnOk result (done m.new ≡ form.chosen_at plain at cases.now (wrapped word (worth value)) (done m.old)) }
{
    let value = wrapped_in(word, value);
    choose(at, cases, value, m)
}
