//! Enumerators and members, with their heights.
ghost use Rattle.std.specs.Prelude.{◌≡◌, ◌++◌, ◌∷◌, [], IfOk, Some, None, max};
ghost use Rattle.c_language.specs.declared.expr.Field.TheVariants as field;

use crate::expr::most;
use crate::found::{
    FoundDeclarator, FoundEnumerator, FoundExpr, FoundField, FoundFieldName, FoundFields,
    FoundMember, FoundMembers, FoundOptional, FoundSpecifiers,
};
use c_language::{Enumerator, Field, MemberDeclaration, Name};
use plain_data::{Items, Shared};
use std::alloc::{AllocError, Global};

/// An enumerator.
#[tactic(auto, using(crate::proofs::PieceNodes::height_enumerator))]
pub fn enumerator(at: u32, name: Name, value: FoundOptional) -> FoundEnumerator
    ensures tree { result.tree ≡ record { at = at; name = name; value = value.tree } }
    ensures height { result.height ≡ value.height }
{
    let height = value.height;
    FoundEnumerator {
        tree: Enumerator {
            at,
            name,
            value: value.tree,
        },
        height,
    }
}

/// A bit-field without name.
pub fn unnamed() -> FoundFieldName
    ensures tree { result.tree ≡ None }
    ensures height { result.height ≡ 0 }
{
    FoundFieldName {
        tree: None,
        height: 0,
    }
}

/// The name of a bit-field.
pub fn named(alloc: Global, declarator: FoundDeclarator) -> Result<FoundFieldName, AllocError>
    ensures tree { IfOk result (λ f. f.tree ≡ Some declarator.tree) }
    ensures height { IfOk result (λ f. f.height ≡ declarator.height) }
{
    let height = declarator.height;
    Ok(FoundFieldName {
        tree: Some(Shared::new(alloc, declarator.tree)?),
        height,
    })
}

/// A member that is no bit-field.
#[tactic(auto, using(crate::proofs::PieceNodes::height_plain))]
pub fn plain(alloc: Global, declarator: FoundDeclarator) -> Result<FoundField, AllocError>
    ensures tree { IfOk result (λ f. f.tree ≡ field.Plain declarator.tree) }
    ensures height { IfOk result (λ f. f.height ≡ declarator.height) }
{
    let height = declarator.height;
    let declarator = Shared::new(alloc, declarator.tree)?;
    Ok(FoundField {
        tree: Field::Plain { declarator },
        height,
    })
}

/// A bit-field.
#[tactic(auto, using(crate::proofs::PieceNodes::height_bits))]
pub fn bits(
    alloc: Global,
    at: u32,
    name: FoundFieldName,
    width: FoundExpr,
) -> Result<FoundField, AllocError>
    ensures tree { IfOk result (λ f. f.tree ≡ field.Bits at name.tree width.tree) }
    ensures height { IfOk result (λ f. f.height ≡ max name.height width.height) }
{
    let height = most(name.height, width.height);
    let width = Shared::new(alloc, width.tree)?;
    Ok(FoundField {
        tree: Field::Bits {
            at,
            declarator: name.tree,
            width,
        },
        height,
    })
}

/// No members yet.
pub fn no_fields(alloc: Global) -> FoundFields
    ensures trees { result.trees ≡ [] }
    ensures height { result.height ≡ 0 }
{
    FoundFields {
        trees: Items::new(alloc),
        height: 0,
    }
}

/// Members and one more behind them.
#[tactic(auto, using(crate::proofs::PieceNodes::height_fields))]
pub fn and_field(
    alloc: Global,
    all: FoundFields,
    last: FoundField,
) -> Result<FoundFields, AllocError>
    ensures trees { IfOk result (λ f. f.trees ≡ all.trees ++ last.tree ∷ []) }
    ensures height { IfOk result (λ f. f.height ≡ max all.height last.height) }
{
    let height = most(all.height, last.height);
    let mut trees = all.trees;
    trees.push(Shared::new(alloc, last.tree)?)?;
    Ok(FoundFields { trees, height })
}

/// A declaration of members.
#[tactic(auto, using(crate::proofs::PieceNodes::height_member))]
pub fn member(specifiers: FoundSpecifiers, fields: FoundFields) -> FoundMember
    ensures tree { result.tree ≡ record { specifiers = specifiers.trees; fields = fields.trees } }
    ensures height { result.height ≡ max specifiers.height fields.height }
{
    let height = most(specifiers.height, fields.height);
    FoundMember {
        tree: MemberDeclaration {
            specifiers: specifiers.trees,
            fields: fields.trees,
        },
        height,
    }
}

/// No declarations of members yet.
pub fn no_members(alloc: Global) -> FoundMembers
    ensures trees { result.trees ≡ [] }
    ensures height { result.height ≡ 0 }
{
    FoundMembers {
        trees: Items::new(alloc),
        height: 0,
    }
}

/// Declarations of members and one more behind them.
#[tactic(auto, using(crate::proofs::PieceNodes::height_members))]
pub fn and_member(
    alloc: Global,
    all: FoundMembers,
    last: FoundMember,
) -> Result<FoundMembers, AllocError>
    ensures trees { IfOk result (λ f. f.trees ≡ all.trees ++ last.tree ∷ []) }
    ensures height { IfOk result (λ f. f.height ≡ max all.height last.height) }
{
    let height = most(all.height, last.height);
    let mut trees = all.trees;
    trees.push(Shared::new(alloc, last.tree)?)?;
    Ok(FoundMembers { trees, height })
}
