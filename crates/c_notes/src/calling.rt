//! Calls, and what is noted of them (C99 6.5.2.2).

ghost use Rattle.std.specs.Prelude.{◌≡◌, ◌++◌, ◌∷◌, [], false, IfOk, IsOkAnd, is_some};
ghost use Rattle.c_language.specs.Typing as typing;
ghost use Rattle.c_means.specs.Expressions as means;
ghost use Rattle.c_means.specs.Rules as rules;
ghost use Rattle.c_notes.specs.Tellings as spec;
ghost use Rattle.c_notes.specs.Relations.{IsForm};

use crate::arguments::{ArgumentNotes, NotedCall};
use crate::calls::{CallNote, call_note};
use crate::forms::add_bytes;
use crate::notes::{ExprNotes, NotedExpr, is_constant};
use crate::passed::passed_types;
use c_checks::identity_index;
use c_language::{CType, Entry, Name, Shown, Told};
use c_means::Profile;
use c_type_scope::Scope;
use c_typing as forms;
use plain_data::{Bytes, Items, Shared, both_ok};
use std::alloc::{AllocError, Global};

fn copied(alloc: Global, text: &Option<Bytes>) -> Result<Option<Bytes>, AllocError>
    ensures { IfOk result (λ t. t ≡ text.now) }
{
    match text {
        None => Ok(None),
        Some(text) => {
            let mut bytes = Bytes::new(alloc);
            add_bytes(&mut bytes, text.as_slice())?;
            Ok(Some(bytes))
        }
    }
}

/// What an identity function hands on is a literal where its argument is one.
fn text_handed_on(
    alloc: Global,
    index: Option<u32>,
    texts: &[Option<Bytes>],
) -> Result<Option<Bytes>, AllocError>
    ensures { IfOk result (λ t. t ≡ means.text_at index texts.now) }
{
    match index {
        None => Ok(None),
        Some(index) => match texts.get(index as usize) {
            None => Ok(None),
            Some(text) => copied(alloc, text),
        },
    }
}

/// The call itself, where it breaks no rule of types.
fn call_itself(
    alloc: Global,
    profile: &Profile,
    at: u32,
    scope: &Scope,
    entry: &Entry,
    told: &Told,
    types: &[Option<CType>],
    texts: &[Option<Bytes>],
) -> Result<Items<CallNote>, AllocError>
    ensures { IfOk result (λ cs. cs ≡ spec.call_itself profile.now at scope.now.tables entry.now told.now.shown types.now texts.now) }
{
    let mut calls = Items::new(alloc);
    match &told.shown {
        None => Ok(calls),
        Some(_) => {
            calls.push(call_note(alloc, profile, at, scope.tables(), entry, types, texts)?)?;
            Ok(calls)
        }
    }
}

/// The declaration of the name that is called, where a name is.
fn designated(shown: &Option<Shown>) -> Result<Option<Shared<Entry>>, AllocError>
    ensures { IfOk result (λ e. e ≡ means.designated shown.now) }
{
    match shown {
        None => Ok(None),
        Some(shown) => match &shown.designates {
            None => Ok(None),
            Some(entry) => Ok(Some(entry.clone()?)),
        },
    }
}

/// What a call adds to the notes of its parts.
#[derive(Drop)]
struct Itself {
    text: Option<Bytes>,
    calls: Items<CallNote>,
    called: Items<Name>,
}

fn by_name(
    alloc: Global,
    profile: &Profile,
    at: u32,
    scope: &Scope,
    entry: &Entry,
    told: &Told,
    types: &[Option<CType>],
    texts: &[Option<Bytes>],
) -> Result<Itself, AllocError>
    ensures text { IfOk result (λ i. i.text ≡ means.text_at (rules.identity_index profile.now entry.now.name) texts.now) }
    ensures calls { IfOk result (λ i. i.calls ≡ spec.call_itself profile.now at scope.now.tables entry.now told.now.shown types.now texts.now) }
    ensures called { IfOk result (λ i. i.called ≡ entry.now.name ∷ []) }
{
    let index = identity_index(profile, entry.name.get().as_slice());
    let text = text_handed_on(alloc, index, texts)?;
    let calls = call_itself(alloc, profile, at, scope, entry, told, types, texts)?;
    let mut called = Items::new(alloc);
    called.push(entry.name.clone()?)?;
    Ok(Itself {
        text,
        calls,
        called,
    })
}

/// The notes of what is called, with those of its arguments behind them.
fn with_calls(
    notes: ExprNotes,
    calls: Items<CallNote>,
    called: Items<Name>,
) -> Result<ExprNotes, AllocError>
    ensures { IfOk result (λ n. n ≡ record notes { calls = notes.calls ++ calls; called = notes.called ++ called }) }
{
    let mut notes = notes;
    notes.calls.append(calls)?;
    notes.called.append(called)?;
    Ok(notes)
}

fn with_itself(itself: Itself, told: Told, parts: ExprNotes) -> Result<NotedExpr, AllocError>
    ensures { IfOk result (λ z. z ≡ record { told = told; notes = record { text = itself.text; calls = parts.calls ++ itself.calls; called = parts.called ++ itself.called; is_place = false; is_address = false; is_constant = is_some (typing.value_in told.shown) } }) }
{
    let Itself {
        text,
        calls,
        called,
    } = itself;
    let ExprNotes { calls, called, .. } = with_calls(parts, calls, called)?;
    let notes = ExprNotes {
        text,
        calls,
        called,
        is_place: false,
        is_address: false,
        is_constant: is_constant(&told.shown),
    };
    Ok(NotedExpr { told, notes })
}

/// What a call is judged by: the declaration of the name that is called, where a name is; the types of the arguments as
/// they are converted, and their texts.
#[derive(Drop)]
struct Basis {
    entry: Option<Shared<Entry>>,
    types: Items<Option<CType>>,
    texts: Items<Option<Bytes>>,
}

fn basis_of(
    alloc: Global,
    scope: &Scope,
    shown: &Option<Shown>,
    types: Items<Option<CType>>,
    texts: Items<Option<Bytes>>,
) -> Result<Basis, AllocError>
    ensures { IfOk result (λ b. b ≡ record { entry = means.designated shown.now; types = spec.passed_as types (means.parameters_of scope.now.tables (typing.type_in shown.now)); texts = texts }) }
{
    let types = passed_types(alloc, scope.tables(), shown, types.as_slice())?;
    let entry = designated(shown)?;
    Ok(Basis {
        entry,
        types,
        texts,
    })
}

/// A call of what stands at a token, with the notes of what is called. It fails for want of memory alone.
pub(crate) fn call(
    alloc: Global,
    profile: &Profile,
    scope: &Scope,
    at: u32,
    parts: Result<NotedCall, AllocError>,
) -> Result<NotedExpr, AllocError>
    ensures { IfOk result (λ z. IsOkAnd parts (λ c. IsForm (typing.call at c.at c.shown c.arguments.arguments scope.now) (λ x. spec.call profile.now c.at scope.now.tables c.shown x c.notes c.arguments) z scope.now)) }
{
    let NotedCall {
        at: token,
        shown,
        notes,
        arguments: passed,
    } = parts?;
    let ArgumentNotes {
        arguments,
        types,
        texts,
        calls,
        called,
    } = passed;
    let notes = with_calls(notes, calls, called);
    let basis = basis_of(alloc, scope, &shown, types, texts);
    let told = forms::call(alloc, scope, at, token, shown, arguments);
    let (notes, judged) = both_ok(notes, both_ok(basis, told))?;
    let (basis, told) = judged;
    let itself = itself_of(alloc, profile, token, scope, &basis, &told)?;
    with_itself(itself, told, notes)
}

fn itself_of(
    alloc: Global,
    profile: &Profile,
    at: u32,
    scope: &Scope,
    basis: &Basis,
    told: &Told,
) -> Result<Itself, AllocError>
    ensures { IfOk result (λ i. i ≡ spec.itself profile.now at scope.now.tables basis.now.entry told.now.shown basis.now.types basis.now.texts) }
{
    match &basis.entry {
        None => Ok(Itself {
            text: None,
            calls: Items::new(alloc),
            called: Items::new(alloc),
        }),
        Some(entry) => by_name(
            alloc,
            profile,
            at,
            scope,
            entry.get(),
            told,
            basis.types.as_slice(),
            basis.texts.as_slice(),
        ),
    }
}
