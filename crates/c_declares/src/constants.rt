//! Expressions that must be constant (C99 6.6).

ghost use Rattle.std.specs.Prelude.{◌≡◌, ◌++◌, OnOk};
ghost use Rattle.c_language.specs.Typing.{value_in, not_constant_of};

use crate::types::NOT_CONSTANT;
use c_language::{Fault, Shown, Told};
use plain_data::Items;
use std::alloc::AllocError;

/// The value of an expression, where it is constant.
pub(crate) fn value_of(shown: &Option<Shown>) -> Option<i128>
    ensures { result ≡ value_in shown.now }
{
    match shown {
        Some(shown) => shown.value,
        None => None,
    }
}

fn add_not_constant(
    at: u32,
    shown: &Option<Shown>,
    faults: &mut Items<Fault>,
) -> Result<(), AllocError>
    ensures { OnOk result (faults.new ≡ faults.old ++ not_constant_of at shown.now) }
{
    match shown {
        Some(shown) => match shown.value {
            Some(_) => Ok(()),
            None => faults.push(Fault {
                at,
                rule: NOT_CONSTANT,
            }),
        },
        None => Ok(()),
    }
}

/// The faults of an expression that must be constant, that it isn't among them.
pub(crate) fn add_constant(told: Told, faults: &mut Items<Fault>) -> Result<(), AllocError>
    ensures { OnOk result (faults.new ≡ faults.old ++ told.faults ++ not_constant_of told.at told.shown) }
{
    let Told {
        at,
        shown,
        faults: own,
    } = told;
    faults.append(own)?;
    add_not_constant(at, &shown, faults)
}
