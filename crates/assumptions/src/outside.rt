//! The functions outside that are called (C99 6.5.2.2).
ghost use Rattle.std.specs.Prelude.{◌≡◌, ◌++◌, ◌∷◌, [], cond, reverse, IfOk, OnOk};
ghost use Rattle.c_program_notes.specs.Wholes as wholes;
ghost use Rattle.assumptions.specs.Noted as spec;

use c_checks::filling_function;
use c_language::Name;
use c_means::Profile;
use c_notes::CallNote;
use c_program_notes::{OuterNotes, Overview};
use c_reach::{FunctionNotes, named_functions};
use c_type_scope::Named;
use plain_data::{Items, Shared};
use std::alloc::{AllocError, Global};

// ---- functions with a body

fn push_function(
    function: &Option<Shared<FunctionNotes>>,
    functions: &mut Items<Shared<FunctionNotes>>,
) -> Result<(), AllocError>
    ensures { OnOk result (functions.new ≡ functions.old ++ wholes.function_if function.now) }
{
    match function {
        None => Ok(()),
        Some(function) => {
            functions.push(function.clone()?)?;
            Ok(())
        }
    }
}

/// The functions that are defined, in order.
fn functions_in(
    alloc: Global,
    outers: &[OuterNotes],
) -> Result<Items<Shared<FunctionNotes>>, AllocError>
    ensures { IfOk result (λ functions. functions ≡ wholes.functions_in outers.now) }
{
    let mut functions = Items::new(alloc);
    for outer in outers {
        push_function(&outer.function, &mut functions)?;
    }
    Ok(functions)
}

// ---- calls

/// Whether a name is of no function with a meaning of its own, or its call breaks the rule that is asked.
fn is_foreign(asked: &Profile, call: &CallNote) -> bool
    ensures { result ≡ spec.is_foreign asked.now call.now }
{
    filling_function(asked, call.name.get().as_slice()).is_none() || call.breach.is_some()
}

fn is_outside(asked: &Profile, named: &Named<FunctionNotes>, call: &CallNote) -> bool
    ensures { result ≡ spec.is_outside asked.now named.now call.now }
{
    call.arguments.is_some()
        && named.get(call.name.get().as_slice()).is_none()
        && is_foreign(asked, call)
}

fn push_call(
    asked: &Profile,
    named: &Named<FunctionNotes>,
    call: &CallNote,
    names: &mut Items<Name>,
) -> Result<(), AllocError>
    ensures { OnOk result (names.new ≡ names.old ++ spec.name_if_outside asked.now named.now call.now) }
{
    if is_outside(asked, named, call) {
        names.push(call.name.clone()?)?;
    }
    Ok(())
}

fn push_calls(
    asked: &Profile,
    named: &Named<FunctionNotes>,
    calls: &[CallNote],
    names: &mut Items<Name>,
) -> Result<(), AllocError>
    ensures { OnOk result (names.new ≡ names.old ++ spec.outside_calls asked.now named.now calls.now) }
{
    for call in calls {
        push_call(asked, named, call, names)?;
    }
    Ok(())
}

/// Whom functions call outside, once for each call.
fn called_outside(
    alloc: Global,
    asked: &Profile,
    named: &Named<FunctionNotes>,
    functions: &[Shared<FunctionNotes>],
) -> Result<Items<Name>, AllocError>
    ensures { IfOk result (λ names. names ≡ spec.called_outside asked.now named.now functions.now) }
{
    let mut names = Items::new(alloc);
    for function in functions {
        let calls = function.get().body.calls.as_slice();
        push_calls(asked, named, calls, &mut names)?;
    }
    Ok(names)
}

/// Whom the functions that are reached call outside, once for each call. It fails for want of memory alone.
#[tactic(auto, unfolding(crate::specs::Noted::outside_noted))]
pub(crate) fn outside_noted(
    alloc: Global,
    asked: &Profile,
    overview: &Overview,
) -> Result<Items<Name>, AllocError>
    ensures { IfOk result (λ names. names ≡ spec.outside_noted asked.now overview.now) }
{
    let functions = functions_in(alloc, overview.program.outers.as_slice())?;
    let named = named_functions(alloc, functions.as_slice())?;
    called_outside(alloc, asked, &named, overview.reached.as_slice())
}
