//! Specifiers and the lists in them, with their heights and what they say of the type.
ghost use Rattle.std.specs.Prelude.{◌≡◌, ◌≤◌, ◌<◌, ◌+◌, ◌++◌, ◌∷◌, [], IfOk, max, map};
ghost use Rattle.c_grammar.specs.Grammar.{highest as highest_piece};
ghost use Rattle.c_grammar.specs.Grammar.{enumerator_of, member_of};
ghost use Rattle.c_language.specs.declared.expr.Specifier.TheVariants as specifier;

use crate::expr::most;
use crate::found::{FoundDeclarator, FoundSpecifier, FoundSpecifiers, FoundType};
use c_grammar::{TypeKind, TypeWords};
use c_language::{
    AggregateKind, Enumerator, MemberDeclaration, Name, Qualifier, Specifier, StorageClass,
    TagName, TypeName, TypeWord,
};
use plain_data::{Items, Shared};
use std::alloc::{AllocError, Global};

/// A typedef name.
#[tactic(auto, using(crate::proofs::SpecifierNodes::height_typedef, crate::proofs::SpecifierNodes::kind_typedef))]
pub fn typedef(at: u32, name: Name) -> FoundSpecifier
    ensures tree { result.tree ≡ specifier.Typedef at name }
    ensures height { result.height ≡ 1 }
{
    FoundSpecifier {
        tree: Specifier::Typedef { at, name },
        height: 1,
        kind: TypeKind::Whole,
    }
}

/// `struct tag` or `union tag`.
#[tactic(auto, using(crate::proofs::SpecifierNodes::height_tag, crate::proofs::SpecifierNodes::kind_tag))]
pub fn tag(at: u32, kind: AggregateKind, tag: TagName) -> FoundSpecifier
    ensures tree { result.tree ≡ specifier.Tag at kind tag }
    ensures height { result.height ≡ 1 }
{
    FoundSpecifier {
        tree: Specifier::Tag { at, kind, tag },
        height: 1,
        kind: TypeKind::Whole,
    }
}

/// `enum tag`.
#[tactic(auto, using(crate::proofs::SpecifierNodes::height_enum_tag, crate::proofs::SpecifierNodes::kind_enum_tag))]
pub fn enum_tag(at: u32, tag: TagName) -> FoundSpecifier
    ensures tree { result.tree ≡ specifier.EnumTag at tag }
    ensures height { result.height ≡ 1 }
{
    FoundSpecifier {
        tree: Specifier::EnumTag { at, tag },
        height: 1,
        kind: TypeKind::Whole,
    }
}

/// A storage-class specifier.
#[tactic(auto, using(crate::proofs::SpecifierNodes::height_storage, crate::proofs::SpecifierNodes::kind_storage))]
pub fn storage(at: u32, class: StorageClass) -> FoundSpecifier
    ensures tree { result.tree ≡ specifier.Storage at class }
    ensures height { result.height ≡ 1 }
{
    FoundSpecifier {
        tree: Specifier::Storage { at, class },
        height: 1,
        kind: TypeKind::NoType,
    }
}

/// A type qualifier.
#[tactic(auto, using(crate::proofs::SpecifierNodes::height_qualifier, crate::proofs::SpecifierNodes::kind_qualifier))]
pub fn qualifier(at: u32, qualifier: Qualifier) -> FoundSpecifier
    ensures tree { result.tree ≡ specifier.Qualifier at qualifier }
    ensures height { result.height ≡ 1 }
{
    FoundSpecifier {
        tree: Specifier::Qualifier { at, qualifier },
        height: 1,
        kind: TypeKind::NoType,
    }
}

/// `inline`.
#[tactic(auto, using(crate::proofs::SpecifierNodes::height_inline, crate::proofs::SpecifierNodes::kind_inline))]
pub fn inline(at: u32) -> FoundSpecifier
    ensures tree { result.tree ≡ specifier.Inline at }
    ensures height { result.height ≡ 1 }
{
    FoundSpecifier {
        tree: Specifier::Inline { at },
        height: 1,
        kind: TypeKind::NoType,
    }
}

/// A type specifier that is one word.
#[tactic(auto, using(crate::proofs::SpecifierNodes::height_word, crate::proofs::SpecifierNodes::kind_word))]
pub fn word(at: u32, word: TypeWord) -> FoundSpecifier
    ensures tree { result.tree ≡ specifier.Word at word }
    ensures height { result.height ≡ 1 }
{
    FoundSpecifier {
        tree: Specifier::Word { at, word },
        height: 1,
        kind: TypeKind::Word(word),
    }
}

/// A structure or union with its members, the highest of which has this height.
#[tactic(auto, using(crate::proofs::SpecifierNodes::height_aggregate, crate::proofs::SpecifierNodes::kind_aggregate))]
pub fn aggregate(
    at: u32,
    kind: AggregateKind,
    tag: Option<TagName>,
    members: Items<Shared<MemberDeclaration>>,
    highest: u32,
) -> FoundSpecifier
    requires highest { highest ≡ highest_piece (map member_of members) }
    requires low { highest < 1000 }
    ensures tree { result.tree ≡ specifier.Aggregate at kind tag members }
    ensures height { result.height ≡ highest + 1 }
{
    FoundSpecifier {
        tree: Specifier::Aggregate {
            at,
            kind,
            tag,
            members,
        },
        height: highest + 1,
        kind: TypeKind::Whole,
    }
}

/// An enumeration with its enumerators, the highest of which has this height.
#[tactic(auto, using(crate::proofs::SpecifierNodes::of_enumeration))]
pub fn enumeration(
    at: u32,
    tag: Option<TagName>,
    enumerators: Items<Shared<Enumerator>>,
    trailing: bool,
    highest: u32,
) -> FoundSpecifier
    requires highest { highest ≡ highest_piece (map enumerator_of enumerators) }
    requires low { highest < 1000 }
    ensures tree { result.tree ≡ specifier.Enumeration at tag enumerators trailing }
    ensures height { result.height ≡ highest + 1 }
{
    FoundSpecifier {
        tree: Specifier::Enumeration {
            at,
            tag,
            enumerators,
            trailing,
        },
        height: highest + 1,
        kind: TypeKind::Whole,
    }
}

/// No specifiers yet.
pub fn no_specifiers(alloc: Global) -> FoundSpecifiers
    ensures trees { result.trees ≡ [] }
    ensures height { result.height ≡ 0 }
{
    FoundSpecifiers {
        trees: Items::new(alloc),
        height: 0,
        words: TypeWords::new(),
    }
}

/// Specifiers and one more behind them.
#[tactic(auto, using(crate::proofs::SpecifierNodes::height_more, crate::proofs::SpecifierNodes::words_more))]
pub fn and_specifier(
    alloc: Global,
    all: FoundSpecifiers,
    last: FoundSpecifier,
) -> Result<FoundSpecifiers, AllocError>
    ensures trees { IfOk result (λ f. f.trees ≡ all.trees ++ last.tree ∷ []) }
    ensures height { IfOk result (λ f. f.height ≡ max all.height last.height) }
{
    let height = most(all.height, last.height);
    let words = all.words.with(last.kind);
    let mut trees = all.trees;
    trees.push(Shared::new(alloc, last.tree)?)?;
    Ok(FoundSpecifiers {
        trees,
        height,
        words,
    })
}

/// A type name.
#[tactic(auto, using(crate::proofs::SpecifierNodes::height_type_name))]
pub fn type_name(
    alloc: Global,
    specifiers: FoundSpecifiers,
    declarator: FoundDeclarator,
) -> Result<FoundType, AllocError>
    ensures tree { IfOk result (λ f. f.tree ≡ record { specifiers = specifiers.trees; declarator = declarator.tree }) }
    ensures height { IfOk result (λ f. f.height ≡ max specifiers.height declarator.height) }
{
    let height = most(specifiers.height, declarator.height);
    let declarator = Shared::new(alloc, declarator.tree)?;
    Ok(FoundType {
        tree: TypeName {
            specifiers: specifiers.trees,
            declarator,
        },
        height,
    })
}
