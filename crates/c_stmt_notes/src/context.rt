//! What a statement stands in.

ghost use Rattle.std.specs.Prelude.{◌≡◌, ◌++◌, IfOk};
ghost use Rattle.c_means.specs.Statements as statements;

use c_checks::{Label, block_labels, every_label};
use c_language::{CType, IntegerKind, Stmt};
use plain_data::{Items, Shared};
use std::alloc::{AllocError, Global};

/// What a statement stands in, besides the names in force: the labels to which a `goto` may lead (C99 6.8.6.1), and
/// all labels of the function; whether `break` and `continue` may stand here (C99 6.8.6.2, 6.8.6.3); the type in
/// which the `switch` compares whose block this is (C99 6.8.4.2p5); and the type that the function returns, none
/// where that breaks a rule.
#[derive(Clone, Copy)]
pub struct Context<'a> {
    pub labels: &'a Shared<Items<Label>>,
    pub every: &'a [Label],
    pub breaks: bool,
    pub continues: bool,
    pub chooses: Option<IntegerKind>,
    pub returned: &'a Option<CType>,
}

/// The labels of the block that a statement is. It fails for want of memory alone.
pub(crate) fn own_labels(alloc: Global, node: &Stmt) -> Result<Items<Label>, AllocError>
    ensures { IfOk result (λ own. own ≡ (statements.stmt node.now).own) }
{
    let mut own = Items::new(alloc);
    block_labels(node, &mut own)?;
    Ok(own)
}

/// All labels in a statement. It fails for want of memory alone.
pub(crate) fn all_labels(alloc: Global, node: &Stmt) -> Result<Items<Label>, AllocError>
    ensures { IfOk result (λ all. all ≡ (statements.stmt node.now).every) }
{
    let mut all = Items::new(alloc);
    every_label(node, &mut all)?;
    Ok(all)
}

fn copied(alloc: Global, labels: &[Label]) -> Result<Items<Label>, AllocError>
    ensures { IfOk result (λ all. all ≡ labels.now) }
{
    let mut all = Items::new(alloc);
    for label in labels {
        all.push(Label {
            at: label.at,
            name: label.name.clone()?,
        })?;
    }
    Ok(all)
}

/// The labels in force in a block that has these of its own; without any they are those around it, which aren't
/// copied.
fn joined(
    alloc: Global,
    outer: &Shared<Items<Label>>,
    own: Items<Label>,
) -> Result<Shared<Items<Label>>, AllocError>
    ensures { IfOk result (λ all. all ≡ outer.now ++ own) }
{
    if own.is_empty() {
        let same = outer.clone()?;
        return Ok(same);
    }
    let mut all = copied(alloc, outer.get().as_slice())?;
    all.append(own)?;
    Shared::new(alloc, all)
}

/// The labels in force in the block that a statement is. It fails for want of memory alone.
pub(crate) fn labels_within(
    alloc: Global,
    outer: &Shared<Items<Label>>,
    node: &Stmt,
) -> Result<Shared<Items<Label>>, AllocError>
    ensures { IfOk result (λ all. all ≡ outer.now ++ (statements.stmt node.now).own) }
{
    let own = own_labels(alloc, node)?;
    joined(alloc, outer, own)
}
