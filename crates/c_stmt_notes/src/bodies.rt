//! The bodies of functions (C99 6.9.1).

ghost use Rattle.std.specs.Prelude.{◌≡◌, IfOk};
ghost use Rattle.c_means.specs.Programs as programs;
ghost use Rattle.c_means.specs.Statements as statements;
ghost use Rattle.c_item_notes.specs.Levels.{judged};
ghost use Rattle.c_item_notes.specs.ItemTellings.{summed, summed_in};
ghost use Rattle.c_stmt_notes.specs.StatementTellings as spec;

use crate::context::{Context, all_labels, own_labels};
use crate::statements::content_notes;
use c_item_notes::{ItemNotes, Source, nothing_noted};
use c_language::{Body, CType, Stmt};
use c_type_scope::Scope;
use plain_data::Shared;
use std::alloc::{AllocError, Global};

/// A body that was read.
fn block_notes(
    alloc: Global,
    source: &Source<'_>,
    returned: &Option<CType>,
    block: &Stmt,
    scope: &mut Scope,
) -> Result<ItemNotes, AllocError>
    ensures { IfOk result (λ n. summed_in n scope.new ≡ summed (judged source.now) ((statements.stmt block.now).content (programs.body_context (spec.body_head returned.now scope.old) (statements.stmt block.now)))) }
{
    let own = own_labels(alloc, block)?;
    let labels = Shared::new(alloc, own)?;
    let every = all_labels(alloc, block)?;
    let inside = Context {
        labels: &labels,
        every: every.as_slice(),
        breaks: false,
        continues: false,
        chooses: None,
        returned,
    };
    content_notes(alloc, source, &inside, block, scope)
}

/// What is noted of the body of a function that returns this type, whose parameters are in force (C99 6.9.1p9); of a
/// body that wasn't read, nothing is. It fails for want of memory alone.
pub fn body_notes(
    alloc: Global,
    source: &Source<'_>,
    returned: &Option<CType>,
    body: &Body,
    scope: &mut Scope,
) -> Result<ItemNotes, AllocError>
    ensures { IfOk result (λ n. summed_in n scope.new ≡ summed (judged source.now) (programs.body_item (spec.body_head returned.now scope.old) (programs.code_in body.now))) }
{
    match body {
        Body::Read { block } => block_notes(alloc, source, returned, block.get(), scope),
        Body::Unread { .. } => Ok(nothing_noted(alloc)),
    }
}
