//! Which functions are reached: `main`, and what the body of a function that is reached calls.

ghost use Rattle.std.specs.Prelude.{◌≡◌, ◌++◌, length, IfOk, OnOk, reverse};
ghost use Rattle.std.specs.Option.{option_copied};
ghost use Rattle.c_reach.specs.Reaching as spec;

use crate::summaries::FunctionNotes;
use c_checks::runs_body;
use c_language::Name;
use c_means::Profile;
use c_names::Stack;
use c_type_scope::Named;
use plain_data::{Bytes, Shared};
use std::alloc::{AllocError, Global};

/// The names that are left to look at, and the functions that were found.
#[derive(Drop)]
pub struct Reaching {
    pub todo: Stack<Name>,
    pub found: Stack<Shared<FunctionNotes>>,
}

/// Functions by their names: the first of each. It fails for want of memory alone.
pub fn named_functions(
    alloc: Global,
    functions: &[Shared<FunctionNotes>],
) -> Result<Named<FunctionNotes>, AllocError>
    ensures { IfOk result (λ named. named ≡ reverse functions.now) }
{
    let mut named = Named::new(alloc);
    let mut left = functions.len();
    'named: while left > 0 {
        left -= 1;
        named.push(functions[left].clone()?)?;
    }
    Ok(named)
}

/// Whether a function of this offset is one of these.
pub fn is_among(at: u32, functions: &[Shared<FunctionNotes>]) -> bool
    ensures { result ≡ spec.has_at at functions.now }
{
    for function in functions {
        if at == function.get().at {
            return true;
        }
    }
    false
}

#[tactic(auto, using(crate::proofs::SameAsDefined::has_reversed))]
fn is_found(at: u32, found: &Stack<Shared<FunctionNotes>>) -> bool
    ensures { result ≡ spec.has_at at found.now }
{
    is_among(at, found.as_slice())
}

/// Puts these names on, the first of them first.
fn put_on(todo: &mut Stack<Name>, names: &[Name]) -> Result<(), AllocError>
    ensures { OnOk result (todo.new ≡ names.now ++ todo.old) }
{
    let mut left = names.len();
    'put: while left > 0 {
        left -= 1;
        todo.push(names[left].clone()?)?;
    }
    Ok(())
}

fn run_body<'a>(
    profile: &Profile,
    named: &'a Named<FunctionNotes>,
    name: &[u8],
) -> Option<&'a Shared<FunctionNotes>>
    ensures { option_copied result ≡ spec.run_body profile.now named.now name.now }
{
    if runs_body(profile, name) {
        named.get(name)
    } else {
        None
    }
}

fn go_to(function: &Shared<FunctionNotes>, state: &mut Reaching) -> Result<(), AllocError>
    ensures { OnOk result (state.new ≡ spec.gone_to function.now state.old) }
{
    if is_found(function.get().at, &state.found) {
        return Ok(());
    }
    put_on(&mut state.todo, function.get().body.called.as_slice())?;
    state.found.push(function.clone()?)
}

fn step(
    profile: &Profile,
    named: &Named<FunctionNotes>,
    state: &mut Reaching,
) -> Result<(), AllocError>
    ensures { OnOk result (state.new ≡ spec.step profile.now named.now state.old) }
{
    match state.todo.pop() {
        None => Ok(()),
        Some(name) => match run_body(profile, named, name.get().as_slice()) {
            None => Ok(()),
            Some(function) => go_to(function, state),
        },
    }
}

fn step_for_each(
    profile: &Profile,
    named: &Named<FunctionNotes>,
    names: &[Name],
    state: &mut Reaching,
) -> Result<(), AllocError>
    ensures { OnOk result (state.new ≡ spec.steps profile.now named.now (length names.now) state.old) }
{
    for _name in names {
        step(profile, named, state)?;
    }
    Ok(())
}

fn begun(alloc: Global) -> Result<Reaching, AllocError>
    ensures { IfOk result (λ z. z ≡ spec.begun) }
{
    let mut name = Bytes::new(alloc);
    name.push(b'm')?;
    name.push(b'a')?;
    name.push(b'i')?;
    name.push(b'n')?;
    let mut todo = Stack::new(alloc);
    todo.push(Shared::new(alloc, name)?)?;
    Ok(Reaching {
        todo,
        found: Stack::new(alloc),
    })
}

/// The functions that are reached, the last found first: each name is looked at once for each call that names it. It
/// fails for want of memory alone.
pub fn reached(
    alloc: Global,
    profile: &Profile,
    named: &Named<FunctionNotes>,
    functions: &[Shared<FunctionNotes>],
) -> Result<Stack<Shared<FunctionNotes>>, AllocError>
    ensures { IfOk result (λ found. found ≡ spec.reached profile.now named.now functions.now) }
{
    let mut state = begun(alloc)?;
    step(profile, named, &mut state)?;
    step(profile, named, &mut state)?;
    for function in functions {
        step_for_each(
            profile,
            named,
            function.get().body.called.as_slice(),
            &mut state,
        )?;
    }
    Ok(state.found)
}
