//! Trees that were read, with what the grammar says of them, found as they are made and never computed again.
ghost use Rattle.std.specs.Prelude.{◌≡◌, map, option_map};
ghost use Rattle.c_grammar.specs.Grammar.{shape, type_name_of, specifier_of, parameter_of, form, form_height};
ghost use Rattle.c_grammar.specs.Grammar.{enumerator_of, field_of, member_of, height_of, highest, highest_specifier};
ghost use Rattle.c_grammar.specs.Reading.{kind_of};
ghost use Rattle.c_grammar.specs.TypeWords.{none, words_from};

use c_grammar::{TypeKind, TypeWords};
use c_language::{
    Declarator, Enumerator, Expr, Field, MemberDeclaration, Name, Parameter, Specifier, TypeName,
};
use plain_data::{Items, Shared};

/// An expression, how loosely it binds, and its height.
#[derive(Drop)]
pub struct FoundExpr {
    pub tree: Expr,
    pub rank: u32,
    pub height: u32,
    pub ghost rank_is: { rank ≡ (shape tree).rank },
    pub ghost height_is: { height ≡ (shape tree).height },
}

/// A type name and its height.
#[derive(Drop)]
pub struct FoundType {
    pub tree: TypeName,
    pub height: u32,
    pub ghost height_is: { height ≡ (type_name_of tree).height },
}

/// A declaration specifier, its height, and what it says of the type.
#[derive(Drop)]
pub struct FoundSpecifier {
    pub tree: Specifier,
    pub height: u32,
    pub kind: TypeKind,
    pub ghost height_is: { height ≡ (specifier_of tree).height },
    pub ghost kind_is: { kind ≡ (specifier_of tree).kind },
}

/// A declarator, its height, the name that it declares, if any, and whether it says more of it.
#[derive(Drop)]
pub struct FoundDeclarator {
    pub tree: Declarator,
    pub height: u32,
    pub name: Option<Name>,
    pub derived: bool,
    pub ghost height_is: { height ≡ (form tree).height },
    pub ghost name_is: { name ≡ (form tree).name },
    pub ghost derived_is: { derived ≡ (form tree).derived },
}

/// An expression, where there is one, and its height.
#[derive(Drop)]
pub struct FoundOptional {
    pub tree: Option<Shared<Expr>>,
    pub height: u32,
    pub ghost height_is: { height ≡ height_of (option_map shape tree) },
}

/// Declaration specifiers, the height of the highest, and the type specifiers among them.
#[derive(Drop)]
pub struct FoundSpecifiers {
    pub trees: Items<Shared<Specifier>>,
    pub height: u32,
    pub words: TypeWords,
    pub ghost height_is: { height ≡ highest_specifier (map specifier_of trees) },
    pub ghost words_are: { words ≡ words_from none (map kind_of trees) },
}

/// A parameter and its height.
#[derive(Drop)]
pub struct FoundParameter {
    pub tree: Parameter,
    pub height: u32,
    pub ghost height_is: { height ≡ (parameter_of tree).height },
}

/// Parameters, whether `...` follows the last, and the height of the highest.
#[derive(Drop)]
pub struct FoundParameters {
    pub trees: Items<Shared<Parameter>>,
    pub variadic: bool,
    pub height: u32,
    pub ghost height_is: { height ≡ highest (map parameter_of trees) },
}

/// An enumerator and its height.
#[derive(Drop)]
pub struct FoundEnumerator {
    pub tree: Enumerator,
    pub height: u32,
    pub ghost height_is: { height ≡ (enumerator_of tree).height },
}

/// The declarator of a bit-field, where it has one, and its height.
#[derive(Drop)]
pub struct FoundFieldName {
    pub tree: Option<Shared<Declarator>>,
    pub height: u32,
    pub ghost height_is: { height ≡ form_height (option_map form tree) },
}

/// One member and its height.
#[derive(Drop)]
pub struct FoundField {
    pub tree: Field,
    pub height: u32,
    pub ghost height_is: { height ≡ (field_of tree).height },
}

/// Members of one declaration, and the height of the highest.
#[derive(Drop)]
pub struct FoundFields {
    pub trees: Items<Shared<Field>>,
    pub height: u32,
    pub ghost height_is: { height ≡ highest (map field_of trees) },
}

/// A declaration of members and its height.
#[derive(Drop)]
pub struct FoundMember {
    pub tree: MemberDeclaration,
    pub height: u32,
    pub ghost height_is: { height ≡ (member_of tree).height },
}

/// Declarations of members, and the height of the highest.
#[derive(Drop)]
pub struct FoundMembers {
    pub trees: Items<Shared<MemberDeclaration>>,
    pub height: u32,
    pub ghost height_is: { height ≡ highest (map member_of trees) },
}
