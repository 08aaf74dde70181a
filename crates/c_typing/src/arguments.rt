//! What is said of the arguments of a call together (C99 6.5.2.2).
ghost use Rattle.std.specs.Prelude.{◌≡◌, IfOk};
ghost use Rattle.c_language.specs.Typing as spec;

use c_language::{Argument, Fault, Told};
use c_type_forms::joined;
use plain_data::Items;
use std::alloc::{AllocError, Global};
use std::marker::Model;

/// Arguments so far, from left to right, and the faults of the callee and of them: none where one has no type.
#[derive(Drop)]
pub struct Arguments {
    pub all: Option<Items<Argument>>,
    pub faults: Items<Fault>,
}

impl Model for Arguments {
    ghost use Rattle.c_language.specs.Typing as spec;

    ghost Value = { spec.Arguments };

    ghost view = { λ x. record { all = x.all; faults = x.faults } };
}

/// No arguments, behind the faults of the callee. It takes no memory.
pub fn no_arguments(alloc: Global, faults: Items<Fault>) -> Arguments
    ensures { result ≡ spec.no_arguments faults }
{
    Arguments {
        all: Some(Items::new(alloc)),
        faults,
    }
}

/// One more argument, as a value. It fails for want of memory alone.
pub fn and_argument(before: Arguments, x: Told) -> Result<Arguments, AllocError>
    ensures { IfOk result (λ xs. xs ≡ spec.and_argument before x) }
{
    let Arguments { all, faults } = before;
    let Told {
        at,
        shown,
        faults: more,
    } = x;
    let faults = joined(faults, more)?;
    match (shown, all) {
        (Some(shown), Some(all)) => {
            let mut all = all;
            all.push(Argument {
                at,
                class: shown.ctype.class(),
            })?;
            Ok(Arguments {
                all: Some(all),
                faults,
            })
        }
        _ => Ok(Arguments { all: None, faults }),
    }
}
