//! Which external declarations are needed: those of what a function that is reached uses, and of what the type or
//! initializer of that uses (C99 6.9).

ghost use Rattle.std.specs.Prelude.{◌≡◌, [], ◌++◌, ◌*◌, length, IfOk, OnOk};
ghost use Rattle.c_means.specs.Programs as programs;
ghost use Rattle.c_names.specs.Needs as spec;

use crate::stack::Stack;
use crate::summaries::Names;
use crate::words::{Binding, Word, has_word, same_word};
use plain_data::{Items, Shared};
use std::alloc::{AllocError, Global};

/// The words that are left to look at, and those that are needed.
#[derive(Drop)]
pub struct Needing {
    pub todo: Stack<Word>,
    pub found: Stack<Word>,
}

fn declares_word(word: &Word, bindings: &[Binding]) -> bool
    ensures { result ≡ programs.declares_word word.now bindings.now }
{
    for binding in bindings {
        if same_word(&binding.word, word) {
            return true;
        }
    }
    false
}

#[tactic(auto, using(crate::proofs::SameNeeds::has_reversed))]
fn is_found(word: &Word, found: &Stack<Word>) -> bool
    ensures { result ≡ programs.has_word word.now found.now }
{
    has_word(word, found.as_slice())
}

/// Puts these words on, the first of them first.
fn put_on(todo: &mut Stack<Word>, words: &[Word]) -> Result<(), AllocError>
    ensures { OnOk result (todo.new ≡ words.now ++ todo.old) }
{
    let mut left = words.len();
    'put: while left > 0 {
        left -= 1;
        todo.push(words[left].clone()?)?;
    }
    Ok(())
}

fn put_uses_of(word: &Word, names: &Names, todo: &mut Stack<Word>) -> Result<(), AllocError>
    ensures { OnOk result (todo.new ≡ spec.with_uses word.now names.now todo.old) }
{
    if declares_word(word, names.declares.as_slice()) {
        return put_on(todo, names.uses.as_slice());
    }
    Ok(())
}

/// Puts on what the declarations of a word use.
fn put_uses(outers: &[Shared<Names>], word: &Word, todo: &mut Stack<Word>) -> Result<(), AllocError>
    ensures { OnOk result (todo.new ≡ spec.with_all_uses word.now outers.now todo.old) }
{
    let mut left = outers.len();
    'outers: while left > 0 {
        left -= 1;
        put_uses_of(word, outers[left].get(), todo)?;
    }
    Ok(())
}

fn look_at(outers: &[Shared<Names>], word: Word, state: &mut Needing) -> Result<(), AllocError>
    ensures { OnOk result (state.new ≡ spec.looked_at outers.now word state.old) }
{
    if is_found(&word, &state.found) {
        return Ok(());
    }
    put_uses(outers, &word, &mut state.todo)?;
    state.found.push(word)
}

fn step(outers: &[Shared<Names>], state: &mut Needing) -> Result<(), AllocError>
    ensures { OnOk result (state.new ≡ spec.step outers.now state.old) }
{
    match state.todo.pop() {
        None => Ok(()),
        Some(word) => look_at(outers, word, state),
    }
}

fn step_for_each(
    outers: &[Shared<Names>],
    words: &[Word],
    state: &mut Needing,
) -> Result<(), AllocError>
    ensures { OnOk result (state.new ≡ spec.steps outers.now (length words.now) state.old) }
{
    for _word in words {
        step(outers, state)?;
    }
    Ok(())
}

fn step_for_bindings(
    outers: &[Shared<Names>],
    bindings: &[Binding],
    uses: &[Word],
    state: &mut Needing,
) -> Result<(), AllocError>
    ensures { OnOk result (state.new ≡ spec.steps outers.now (length bindings.now * length uses.now) state.old) }
{
    for _binding in bindings {
        step_for_each(outers, uses, state)?;
    }
    Ok(())
}

fn step_for_names(
    outers: &[Shared<Names>],
    names: &Names,
    state: &mut Needing,
) -> Result<(), AllocError>
    ensures { OnOk result (state.new ≡ spec.steps outers.now (length names.now.declares * length names.now.uses) state.old) }
{
    step_for_bindings(
        outers,
        names.declares.as_slice(),
        names.uses.as_slice(),
        state,
    )
}

fn begun(alloc: Global, words: &[Word]) -> Result<Needing, AllocError>
    ensures { IfOk result (λ z. z ≡ record { todo = words.now; found = [] }) }
{
    let mut todo = Stack::new(alloc);
    put_on(&mut todo, words)?;
    Ok(Needing {
        todo,
        found: Stack::new(alloc),
    })
}

/// The words that are needed where these are used, the last found first; `outers` are the names of all external
/// declarations, of a function definition those of its head. Each word is looked at once for each declaration that uses
/// it. It fails for want of memory alone.
pub fn needed_words(
    alloc: Global,
    outers: &[Shared<Names>],
    words: &[Word],
) -> Result<Items<Word>, AllocError>
    ensures { IfOk result (λ found. found ≡ spec.needed_words outers.now words.now) }
{
    let mut state = begun(alloc, words)?;
    step(outers, &mut state)?;
    step_for_each(outers, words, &mut state)?;
    for names in outers {
        step_for_names(outers, names.get(), &mut state)?;
    }
    state.found.take_items(alloc)
}

/// Whether an external declaration of these names is needed where these words are.
pub fn is_needed(words: &[Word], names: &Names) -> bool
    ensures { result ≡ programs.declares_some names.now.declares words.now }
{
    for binding in names.declares.as_slice() {
        if has_word(&binding.word, words) {
            return true;
        }
    }
    false
}
