//! Copies of the tables of types. Each call fails for want of memory alone.

ghost use Rattle.std.specs.Prelude.{◌≡◌, IfOk};

use c_language::{Aggregate, CType, Content, Layout, Member, Signature, Tables};
use plain_data::Items;
use std::alloc::{AllocError, Global};

fn copied_member(alloc: Global, member: &Member) -> Result<Member, AllocError>
    ensures { IfOk result (λ copy. copy ≡ member.now) }
{
    Ok(Member {
        name: member.name.clone()?,
        offset: member.offset,
        ctype: member.ctype.duplicate(alloc)?,
    })
}

fn copied_members(alloc: Global, members: &[Member]) -> Result<Items<Member>, AllocError>
    ensures { IfOk result (λ copy. copy ≡ members.now) }
{
    let mut copy = Items::new(alloc);
    for member in members {
        copy.push(copied_member(alloc, member)?)?;
    }
    Ok(copy)
}

fn copied_layout(alloc: Global, layout: &Layout) -> Result<Layout, AllocError>
    ensures { IfOk result (λ copy. copy ≡ layout.now) }
{
    Ok(Layout {
        size: layout.size,
        align: layout.align,
        members: copied_members(alloc, layout.members.as_slice())?,
    })
}

fn copied_content(alloc: Global, content: &Content) -> Result<Content, AllocError>
    ensures { IfOk result (λ copy. copy ≡ content.now) }
{
    match content {
        Content::Incomplete => Ok(Content::Incomplete),
        Content::Opaque(cause) => Ok(Content::Opaque(*cause)),
        Content::Complete(layout) => Ok(Content::Complete(copied_layout(alloc, layout)?)),
    }
}

fn copied_aggregates(
    alloc: Global,
    aggregates: &[Aggregate],
) -> Result<Items<Aggregate>, AllocError>
    ensures { IfOk result (λ copy. copy ≡ aggregates.now) }
{
    let mut copy = Items::new(alloc);
    for aggregate in aggregates {
        let form = aggregate.form;
        let content = copied_content(alloc, &aggregate.content)?;
        copy.push(Aggregate { form, content })?;
    }
    Ok(copy)
}

fn copied_types(alloc: Global, types: &[CType]) -> Result<Items<CType>, AllocError>
    ensures { IfOk result (λ copy. copy ≡ types.now) }
{
    let mut copy = Items::new(alloc);
    for ctype in types {
        copy.push(ctype.duplicate(alloc)?)?;
    }
    Ok(copy)
}

fn copied_signatures(
    alloc: Global,
    signatures: &[Signature],
) -> Result<Items<Signature>, AllocError>
    ensures { IfOk result (λ copy. copy ≡ signatures.now) }
{
    let mut copy = Items::new(alloc);
    for signature in signatures {
        let prototype = signature.prototype;
        let parameters = copied_types(alloc, signature.parameters.as_slice())?;
        copy.push(Signature {
            prototype,
            parameters,
        })?;
    }
    Ok(copy)
}

/// The same tables.
pub(crate) fn copied_tables(alloc: Global, tables: &Tables) -> Result<Tables, AllocError>
    ensures { IfOk result (λ copy. copy ≡ tables.now) }
{
    Ok(Tables {
        aggregates: copied_aggregates(alloc, tables.aggregates.as_slice())?,
        enumerations: Items::from_slice(alloc, tables.enumerations.as_slice())?,
        signatures: copied_signatures(alloc, tables.signatures.as_slice())?,
    })
}
