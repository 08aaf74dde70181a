//! What is noted of the arguments of a call (C99 6.5.2.2).

ghost use Rattle.std.specs.Prelude.{◌≡◌, ◌++◌, ◌∷◌, [], IfOk, IsOkAnd, OnOk};
ghost use Rattle.c_language.specs.Typing as typing;
ghost use Rattle.c_means.specs.Expressions as means;
ghost use Rattle.c_notes.specs.Tellings as spec;

use crate::calls::CallNote;
use crate::notes::{ExprNotes, NotedExpr};
use crate::passed::promoted_type;
use c_language::{CType, Fault, Name, Shown, Told};
use c_typing::{Arguments, and_argument, no_arguments};
use plain_data::{Bytes, Items, both_ok};
use std::alloc::{AllocError, Global};
use std::mem::replace;

/// Arguments so far, from left to right: what they say to the types, the promoted types of their values, the texts of
/// those that are string literals, and the calls in them.
#[derive(Drop)]
pub struct ArgumentNotes {
    pub arguments: Arguments,
    pub types: Items<Option<CType>>,
    pub texts: Items<Option<Bytes>>,
    pub calls: Items<CallNote>,
    pub called: Items<Name>,
}

fn nothing_passed(alloc: Global, faults: Items<Fault>) -> ArgumentNotes
    ensures { result ≡ spec.no_arguments_noted faults }
{
    ArgumentNotes {
        arguments: no_arguments(alloc, faults),
        types: Items::new(alloc),
        texts: Items::new(alloc),
        calls: Items::new(alloc),
        called: Items::new(alloc),
    }
}

impl ArgumentNotes {
    /// The promoted type of one more argument. It fails for want of memory alone.
    fn put_type(&mut self, alloc: Global, shown: &Option<Shown>) -> Result<(), AllocError>
        ensures { OnOk result (self.new ≡ record self.old { types = self.old.types ++ means.promoted_type (typing.type_in shown.now) ∷ [] }) }
    {
        self.types.push(promoted_type(alloc, shown)?)?;
        Ok(())
    }

    /// What is noted of one more argument. It fails for want of memory alone.
    fn put_notes(&mut self, notes: ExprNotes) -> Result<(), AllocError>
        ensures { OnOk result (self.new ≡ record self.old { texts = self.old.texts ++ notes.text ∷ []; calls = self.old.calls ++ notes.calls; called = self.old.called ++ notes.called }) }
    {
        let ExprNotes {
            text,
            calls,
            called,
            ..
        } = notes;
        self.texts.push(text)?;
        self.calls.append(calls)?;
        self.called.append(called)?;
        Ok(())
    }

    /// What one more argument says to the types. It fails for want of memory alone.
    fn put_told(&mut self, alloc: Global, told: Told) -> Result<(), AllocError>
        ensures { OnOk result (self.new ≡ record self.old { arguments = typing.and_argument self.old.arguments told }) }
    {
        let before = replace(&mut self.arguments, no_arguments(alloc, Items::new(alloc)));
        self.arguments = and_argument(before, told)?;
        Ok(())
    }

    /// One more argument, as a value. It fails for want of memory alone.
    fn put(&mut self, alloc: Global, x: NotedExpr) -> Result<(), AllocError>
        ensures { OnOk result (self.new ≡ spec.and_noted self.old x) }
    {
        let NotedExpr { told, notes } = x;
        self.put_notes(notes)?;
        self.put_type(alloc, &told.shown)?;
        self.put_told(alloc, told)
    }
}

/// A call as far as it was noted: of what is called its token, what it shows and its notes; and the arguments so far.
#[derive(Drop)]
pub(crate) struct NotedCall {
    pub(crate) at: u32,
    pub(crate) shown: Option<Shown>,
    pub(crate) notes: ExprNotes,
    pub(crate) arguments: ArgumentNotes,
}

/// A call without arguments so far, behind the faults of what is called. It fails where that did.
pub(crate) fn no_arguments_noted(
    alloc: Global,
    callee: Result<NotedExpr, AllocError>,
) -> Result<NotedCall, AllocError>
    ensures { IfOk result (λ c. IsOkAnd callee (λ f. c ≡ spec.call_begun f)) }
{
    let NotedExpr { told, notes } = callee?;
    let Told { at, shown, faults } = told;
    Ok(NotedCall {
        at,
        shown,
        notes,
        arguments: nothing_passed(alloc, faults),
    })
}

/// One more argument, as a value. It fails for want of memory alone.
pub(crate) fn and_noted(
    alloc: Global,
    before: Result<NotedCall, AllocError>,
    argument: Result<NotedExpr, AllocError>,
) -> Result<NotedCall, AllocError>
    ensures { IfOk result (λ c. IsOkAnd before (λ b. IsOkAnd argument (λ x. c ≡ record b { arguments = spec.and_noted b.arguments x }))) }
{
    let (before, x) = both_ok(before, argument)?;
    let mut call = before;
    call.arguments.put(alloc, x).and(Ok(call))
}
