//! The parts of statements, whose cores are made by what is handed in.
ghost use Rattle.std.specs.Prelude.{IfOk};
ghost use Rattle.c_means.specs.Notes as notes;
ghost use Rattle.c_means.specs.Statements as form;
ghost use Rattle.core_codes.specs.Parts as spec;

use c_language as tree;
use c_language::Told;
use c_type_scope::Scope;
use core_tree::{Code, Expr, LastingSetting};
use plain_data::{Items, Shared};
use std::alloc::{AllocError, Global};

/// An expression whose value is used: what the types say of it as it stands, and the core of its value.
#[derive(Drop)]
pub struct Valued {
    pub told: Told,
    pub value: Shared<Expr>,
}

/// A declaration in the core: the codes of its items in a block, in order, and what the initializers of the objects in
/// it that live throughout the run set before `main` is called (C99 6.2.4p3), in order.
#[derive(Drop)]
pub struct Begun {
    pub codes: Items<Shared<Code>>,
    pub settings: Items<LastingSetting>,
}

/// What makes the cores of the expressions and declarations in a function. Each call takes the names in force in front
/// of its part, and leaves those behind it.
pub trait Parts {
    ghost use Rattle.elaborate.specs.Means.{Numbering};

    ghost numbering: { Self → Numbering };

    /// An expression whose value is used.
    fn value(
        &self,
        alloc: Global,
        expr: &tree::Expr,
        scope: &mut Scope,
    ) -> Result<Valued, AllocError>
        ensures { IfOk result (λ y. spec.IsValued (numbering self.now) y (notes.noted expr.now scope.old) scope.new) };

    /// An expression whose value isn't used.
    fn effect(
        &self,
        alloc: Global,
        expr: &tree::Expr,
        scope: &mut Scope,
    ) -> Result<Shared<Expr>, AllocError>
        ensures { IfOk result (λ y. spec.IsDone (numbering self.now) y (notes.noted expr.now scope.old) scope.new) };

    /// A declaration in a block: several declarators are several items.
    fn declaration(
        &self,
        alloc: Global,
        declaration: &tree::Declaration,
        scope: &mut Scope,
    ) -> Result<Begun, AllocError>
        ensures { IfOk result (λ y. spec.IsBegun (numbering self.now) y (form.declaration declaration.now scope.old) scope.new) };
}
