//! Which uses are bound by declarations in front of them, and which stay free (C99 6.2.1p4).

ghost use Rattle.std.specs.Prelude.{◌≡◌, [], ◌++◌, None, IfOk, OnOk};
ghost use Rattle.c_means.specs.Names as names;
ghost use Rattle.c_names.specs.Parting as spec;

use crate::found::Found;
use crate::stack::Stack;
use crate::words::{Binding, Word, same_word};
use std::alloc::{AllocError, Global};

/// The words that stay free, and the offsets at which the others are declared, each for each use.
#[derive(Drop)]
pub struct Parted {
    pub free: Stack<Word>,
    pub bound: Stack<u32>,
}

/// Where the first of these that declares a word stands.
fn first_binding(word: &Word, bindings: &[Binding]) -> Option<u32>
    ensures { result ≡ spec.first_binding word.now bindings.now }
{
    for binding in bindings {
        if same_word(&binding.word, word) {
            return Some(binding.at);
        }
    }
    None
}

/// Where the last declaration of a word stands.
#[tactic(auto, using(crate::proofs::Bindings::last_is))]
fn last_binding(word: &Word, bindings: &Stack<Binding>) -> Option<u32>
    ensures { result ≡ names.binding_of word.now bindings.now None }
{
    first_binding(word, bindings.as_slice())
}

fn part_word(bindings: &Stack<Binding>, word: &Word, parted: &mut Parted) -> Result<(), AllocError>
    ensures { OnOk result (parted.new ≡ spec.with_word bindings.now word.now parted.old) }
{
    match last_binding(word, bindings) {
        None => parted.free.push(word.clone()?),
        Some(at) => parted.bound.push(at),
    }
}

/// Goes through words from the last to the first.
fn part_words(
    alloc: Global,
    bindings: &Stack<Binding>,
    words: &[Word],
) -> Result<Parted, AllocError>
    ensures { IfOk result (λ p. p ≡ spec.parted_by bindings.now words.now (record { free = []; bound = [] })) }
{
    let mut parted = Parted {
        free: Stack::new(alloc),
        bound: Stack::new(alloc),
    };
    for word in words {
        part_word(bindings, word, &mut parted)?;
    }
    Ok(parted)
}

/// Parts uses by the declarations in front of them. It fails for want of memory alone.
#[tactic(auto, using(crate::proofs::Bindings::parted_is))]
fn part(alloc: Global, bindings: &Stack<Binding>, uses: &Stack<Word>) -> Result<Parted, AllocError>
    ensures { IfOk result (λ p. p ≡ spec.parted bindings.now uses.now) }
{
    part_words(alloc, bindings, uses.as_slice())
}

fn put_parted(alloc: Global, parted: Parted, found: &mut Found) -> Result<(), AllocError>
    ensures { OnOk result (found.new ≡ record found.old { uses = parted.free; bound = found.old.bound ++ parted.bound }) }
{
    let Parted { free, bound } = parted;
    found.uses = free;
    found.bound.extend(alloc, bound)
}

/// The declarations in front bind uses. It fails for want of memory alone.
#[tactic(auto, using(crate::proofs::Bindings::nothing_bound))]
pub(crate) fn bind(
    alloc: Global,
    bindings: &Stack<Binding>,
    found: &mut Found,
) -> Result<(), AllocError>
    ensures { OnOk result (found.new ≡ spec.bound_by bindings.now found.old) }
{
    if bindings.is_empty() {
        return Ok(());
    }
    let parted = part(alloc, bindings, &found.uses)?;
    put_parted(alloc, parted, found)
}

fn is_among(word: &Word, bindings: &[Binding]) -> bool
    ensures { result ≡ names.is_among word.now bindings.now }
{
    for binding in bindings {
        if same_word(&binding.word, word) {
            return true;
        }
    }
    false
}

#[tactic(auto, using(crate::proofs::Bindings::among_reversed))]
fn is_declared(word: &Word, bindings: &Stack<Binding>) -> bool
    ensures { result ≡ names.is_among word.now bindings.now }
{
    is_among(word, bindings.as_slice())
}

/// Goes through words from the last to the first, without those that are declared.
fn leave_out(
    alloc: Global,
    bindings: &Stack<Binding>,
    words: &[Word],
) -> Result<Stack<Word>, AllocError>
    ensures { IfOk result (λ kept. kept ≡ spec.left_by bindings.now words.now []) }
{
    let mut kept = Stack::new(alloc);
    for word in words {
        if !is_declared(word, bindings) {
            kept.push(word.clone()?)?;
        }
    }
    Ok(kept)
}

/// Uses without the words that are declared. It fails for want of memory alone.
#[tactic(auto, using(crate::proofs::Bindings::left_is))]
fn without(
    alloc: Global,
    bindings: &Stack<Binding>,
    uses: &Stack<Word>,
) -> Result<Stack<Word>, AllocError>
    ensures { IfOk result (λ kept. kept ≡ names.without bindings.now uses.now) }
{
    leave_out(alloc, bindings, uses.as_slice())
}

/// Takes the words that the tags without a list declare out of the uses. It fails for want of memory alone.
#[tactic(auto, using(crate::proofs::Bindings::none_left_out))]
pub(crate) fn leave_out_declared(alloc: Global, found: &mut Found) -> Result<(), AllocError>
    ensures { OnOk result (found.new ≡ record found.old { uses = names.without found.old.refers found.old.uses }) }
{
    if found.refers.is_empty() {
        return Ok(());
    }
    found.uses = without(alloc, &found.refers, &found.uses)?;
    Ok(())
}
