//! Sizes of objects and where members lie. A line `object NAME SIZE ALIGN` stands for an object, or `object NAME
//! none` where it has no size; `member NAME.MEMBER OFFSET SIZE` for each member of a structure or union, and of those
//! in it, with the size 0 for a flexible array; `constant NAME VALUE` for an enumeration constant; `value NAME VALUE`
//! where an object's initializer is a constant expression.

use crate::text::{put, put_name, put_next, put_value};
use c_language::{Expr, Name};
use c_types::{
    CType, Content, Entry, Layout, Means, Member, Names, Tables, TypeFault, align_of, const_value,
    size_of,
};
use plain_data::Bytes;
use std::alloc::{AllocError, Global};

fn put_sizes(tables: &Tables, ctype: &CType, text: &mut Bytes) -> Result<(), AllocError> {
    match (size_of(tables, ctype), align_of(tables, ctype)) {
        (Some(size), Some(align)) => {
            put_next(text, size)?;
            put_next(text, align)
        }
        _ => put(text, " none"),
    }
}

fn put_member(
    tables: &Tables,
    path: &[u8],
    member: &Member,
    text: &mut Bytes,
) -> Result<(), AllocError> {
    put(text, "member ")?;
    text.extend_from_slice(path)?;
    put(text, ".")?;
    put_name(text, &member.name)?;
    put_next(text, member.offset)?;
    put_next(text, size_of(tables, &member.ctype).unwrap_or(0))?;
    put(text, "\n")
}

/// The layout of a type that is a complete structure or union.
fn layout_of<'a>(tables: &'a Tables, ctype: &CType) -> Option<&'a Layout> {
    let number = ctype.aggregate()?;
    let aggregate = tables.aggregates.get(number as usize)?;
    match &aggregate.content {
        Content::Complete(layout) => Some(layout),
        Content::Incomplete => None,
        Content::Opaque(_) => None,
    }
}

/// Puts the lines of a member and of those in it, at most so many in one another.
#[cycle(members)]
fn put_inner(
    tables: &Tables,
    depth: usize,
    path: &mut Vec<u8>,
    member: &Member,
    text: &mut Bytes,
) -> Result<(), AllocError> {
    put_member(tables, path.as_slice(), member, text)?;
    let length = path.len();
    path.push(b'.')?;
    path.extend_from_slice(member.name.get().as_slice())?;
    put_members(tables, depth, path, &member.ctype, text)?;
    path.truncate(length);
    Ok(())
}

#[cycle(members)]
fn put_members(
    tables: &Tables,
    depth: usize,
    path: &mut Vec<u8>,
    ctype: &CType,
    text: &mut Bytes,
) -> Result<(), AllocError> {
    if depth == 0 {
        return Ok(());
    }
    if let Some(layout) = layout_of(tables, ctype) {
        for member in &layout.members {
            put_inner(tables, depth - 1, path, member, text)?;
        }
    }
    Ok(())
}

/// Puts the line of an object at the end, and those of its members.
fn put_object(
    alloc: Global,
    tables: &Tables,
    name: &Name,
    ctype: &CType,
    text: &mut Bytes,
) -> Result<(), AllocError> {
    put(text, "object ")?;
    put_name(text, name)?;
    put_sizes(tables, ctype, text)?;
    put(text, "\n")?;
    let mut path = Vec::from_slice(alloc, name.get().as_slice())?;
    put_members(tables, tables.aggregates.len(), &mut path, ctype, text)
}

/// Puts the lines of what a name means at the end.
pub fn put_extent(
    alloc: Global,
    tables: &Tables,
    entry: &Entry,
    text: &mut Bytes,
) -> Result<(), AllocError> {
    match &entry.means {
        Means::Object { ctype, .. } => put_object(alloc, tables, &entry.name, ctype.get(), text),
        Means::Constant { value } => {
            put(text, "constant ")?;
            put_name(text, &entry.name)?;
            put(text, " ")?;
            put_value(text, i128::from(*value))?;
            put(text, "\n")
        }
        Means::Function { .. } => Ok(()),
        Means::Typedef { .. } => Ok(()),
        Means::Faulty => Ok(()),
    }
}

/// Puts the line of an initializer's value at the end, where it is a constant expression.
pub fn put_value_line(
    alloc: Global,
    name: &Name,
    value: &Expr,
    names: &mut Names,
    text: &mut Bytes,
) -> Result<(), AllocError> {
    match const_value(alloc, value, names) {
        Ok(value) => {
            put(text, "value ")?;
            put_name(text, name)?;
            put(text, " ")?;
            put_value(text, value)?;
            put(text, "\n")
        }
        Err(TypeFault::Memory) => Err(AllocError),
        Err(_) => Ok(()),
    }
}
