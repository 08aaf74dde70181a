//! What a whole source is, as far as it is known before it runs: which functions are reached, what is needed, and what
//! lives throughout the run.

ghost use Rattle.std.specs.Prelude.{◌≡◌, ◌∷◌, ◌++◌, [], map, IfOk, OnOk};
ghost use Rattle.c_means.specs.Programs as programs;
ghost use Rattle.core_programs.specs.Programs.{met_by, objects_of};
ghost use Rattle.c_item_notes.specs.Levels.{judged};
ghost use Rattle.c_reach.specs.Reaching as reaching;
ghost use Rattle.c_program_notes.specs.Wholes as spec;

use crate::lasting::objects;
use crate::needing::{Needs, needs_of};
use crate::outers::{OuterNotes, ProgramNotes, program_notes};
use crate::places::{met, place_table};
use c_item_notes::Source;
use c_language::Name;
use c_names::{Names, Word, needed_words};
use c_reach::{FunctionNotes, named_functions, reached};
use core_programs::PlaceTable;
use core_tree::LastingObject;
use plain_data::{Items, Shared};
use std::alloc::{AllocError, Global};

/// A source that was read once: what is noted of its external declarations; the functions that are reached and the
/// words that are needed, the last found first; what lives throughout the run, and the places of all that may (C99
/// 6.9).
pub struct Overview {
    pub program: ProgramNotes,
    pub reached: Items<Shared<FunctionNotes>>,
    pub words: Items<Word>,
    pub needs: Needs,
    pub places: PlaceTable,
}

/// By hand, so that a call stands in place of all its parts wherever a value is let go.
impl Drop for Overview {
    fn drop(self) {
        let Overview {
            program,
            reached,
            words,
            needs,
            places,
        } = self;
    }
}

impl Overview {
    /// Lets the overview go. Each crate that lets one go by itself proves anew how all that it holds is let go.
    pub fn discard(self) {
        drop(self);
    }
}

/// What is done before `main` is called: the places that are met, and the objects that are made, each in order.
#[derive(Drop)]
pub struct Preparation {
    pub met: Items<u64>,
    pub objects: Items<LastingObject>,
}

// ---- functions

fn push_function(
    function: &Option<Shared<FunctionNotes>>,
    functions: &mut Items<Shared<FunctionNotes>>,
) -> Result<(), AllocError>
    ensures { OnOk result (functions.new ≡ functions.old ++ spec.function_if function.now) }
{
    match function {
        None => Ok(()),
        Some(function) => {
            functions.push(function.clone()?)?;
            Ok(())
        }
    }
}

/// The functions that are defined, in order.
pub(crate) fn functions_in(
    alloc: Global,
    outers: &[OuterNotes],
) -> Result<Items<Shared<FunctionNotes>>, AllocError>
    ensures { IfOk result (λ functions. functions ≡ spec.functions_in outers.now) }
{
    let mut functions = Items::new(alloc);
    for outer in outers {
        push_function(&outer.function, &mut functions)?;
    }
    Ok(functions)
}

/// The functions that are reached, the last found first.
#[tactic(auto, unfolding(crate::specs::Wholes::reached_in))]
fn reached_in(
    alloc: Global,
    source: &Source<'_>,
    outers: &[OuterNotes],
) -> Result<Items<Shared<FunctionNotes>>, AllocError>
    ensures { IfOk result (λ found. found ≡ spec.reached_in (judged source.now).profile outers.now) }
{
    let functions = functions_in(alloc, outers)?;
    let named = named_functions(alloc, functions.as_slice())?;
    let mut found = reached(alloc, source.profile, &named, functions.as_slice())?;
    found.take_items(alloc)
}

// ---- words

fn push_words(words: &[Word], all: &mut Items<Word>) -> Result<(), AllocError>
    ensures { OnOk result (all.new ≡ all.old ++ words.now) }
{
    for word in words {
        all.push(word.clone()?)?;
    }
    Ok(())
}

fn push_name(name: &Name, all: &mut Items<Word>) -> Result<(), AllocError>
    ensures { OnOk result (all.new ≡ all.old ++ programs.ordinaries (name.now ∷ [])) }
{
    all.push(Word {
        is_tag: false,
        name: name.clone()?,
    })?;
    Ok(())
}

fn push_names(names: &[Name], all: &mut Items<Word>) -> Result<(), AllocError>
    ensures { OnOk result (all.new ≡ all.old ++ programs.ordinaries names.now) }
{
    for name in names {
        push_name(name, all)?;
    }
    Ok(())
}

fn push_used(function: &FunctionNotes, all: &mut Items<Word>) -> Result<(), AllocError>
    ensures { OnOk result (all.new ≡ all.old ++ spec.used_in function.now) }
{
    push_words(function.names.uses.as_slice(), all)?;
    push_name(&function.name, all)?;
    push_names(function.body.links.as_slice(), all)
}

/// The words that functions use, and those of what they declare with linkage.
fn used_by(alloc: Global, functions: &[Shared<FunctionNotes>]) -> Result<Items<Word>, AllocError>
    ensures { IfOk result (λ words. words ≡ spec.used_by functions.now) }
{
    let mut words = Items::new(alloc);
    for function in functions {
        push_used(function.get(), &mut words)?;
    }
    Ok(words)
}

fn names_of(alloc: Global, outers: &[OuterNotes]) -> Result<Items<Shared<Names>>, AllocError>
    ensures { IfOk result (λ all. all ≡ spec.names_of outers.now) }
{
    let mut all = Items::new(alloc);
    for outer in outers {
        all.push(outer.names.clone()?)?;
    }
    Ok(all)
}

/// The words that are needed, where these functions are reached.
#[tactic(auto, unfolding(crate::specs::Wholes::words_in))]
fn words_in(
    alloc: Global,
    found: &[Shared<FunctionNotes>],
    outers: &[OuterNotes],
) -> Result<Items<Word>, AllocError>
    ensures { IfOk result (λ words. words ≡ spec.words_in found.now outers.now) }
{
    let used = used_by(alloc, found)?;
    let names = names_of(alloc, outers)?;
    needed_words(alloc, names.as_slice(), used.as_slice())
}

// ---- all of it

#[tactic(auto, unfolding(crate::specs::Wholes::over))]
fn overview_of(
    alloc: Global,
    source: &Source<'_>,
    program: ProgramNotes,
) -> Result<Overview, AllocError>
    ensures { IfOk result (λ x. x ≡ spec.over (judged source.now).profile program) }
{
    let outers = program.outers.as_slice();
    let reached = reached_in(alloc, source, outers)?;
    let words = words_in(alloc, reached.as_slice(), outers)?;
    let needs = needs_of(alloc, words.as_slice(), reached.as_slice(), outers)?;
    let places = place_table(alloc, &program)?;
    Ok(Overview {
        program,
        reached,
        words,
        needs,
        places,
    })
}

/// Reads a source once, each external declaration in the scope that those before it leave. It fails for want of memory
/// alone.
pub fn read_source(alloc: Global, source: &Source<'_>) -> Result<Overview, AllocError>
    ensures { IfOk result (λ x. x ≡ spec.overview (judged source.now)) }
{
    let program = program_notes(alloc, source)?;
    overview_of(alloc, source, program)
}

#[tactic(auto, unfolding(crate::specs::Wholes::prepared))]
fn prepared(alloc: Global, overview: &Overview) -> Result<Preparation, AllocError>
    ensures { IfOk result (λ x. x ≡ spec.prepared overview.now) }
{
    let scope = &overview.program.scope;
    Ok(Preparation {
        met: met(alloc, &overview.places, scope, &overview.needs)?,
        objects: objects(alloc, &overview.places, scope, &overview.needs)?,
    })
}

/// What is done before `main` of a source is called, apart from initializers. It fails for want of memory alone.
pub fn prepare(
    alloc: Global,
    source: &Source<'_>,
    overview: &Overview,
) -> Result<Preparation, AllocError>
    requires { overview.now ≡ spec.overview (judged source.now) }
    ensures met { IfOk result (λ x. x.met ≡ met_by (spec.machine (judged source.now)) (spec.needs_in (judged source.now))) }
    ensures objects { IfOk result (λ x. x.objects ≡ objects_of (spec.machine (judged source.now)) (spec.needs_in (judged source.now))) }
{
    prepared(alloc, overview)
}
