//! Declarators made of declarators, with their heights and names.
ghost use Rattle.std.specs.Prelude.{◌≡◌, ◌≤◌, ◌<◌, ◌+◌, ◌++◌, ◌∷◌, [], false, true, IfOk, max};
ghost use Rattle.c_language.specs.declared.expr.Declarator.TheVariants as declarator;

use crate::expr::most;
use crate::found::{
    FoundDeclarator, FoundOptional, FoundParameter, FoundParameters, FoundSpecifiers,
};
use c_language::{ArrayWord, Declarator, Name, Parameter, Qualifier};
use plain_data::{Items, Shared};
use std::alloc::{AllocError, Global};

/// The name that is declared.
#[tactic(auto, using(crate::proofs::DeclaratorNodes::of_name))]
pub fn name(at: u32, name: Name) -> Result<FoundDeclarator, AllocError>
    ensures tree { IfOk result (λ f. f.tree ≡ declarator.Name at name) }
    ensures height { IfOk result (λ f. f.height ≡ 1) }
{
    let tree = Declarator::Name {
        at,
        name: name.clone()?,
    };
    Ok(FoundDeclarator {
        tree,
        height: 1,
        name: Some(name),
        derived: false,
    })
}

/// No name.
#[tactic(auto, using(crate::proofs::DeclaratorNodes::of_omitted))]
pub fn omitted() -> FoundDeclarator
    ensures tree { result.tree ≡ declarator.Omitted }
    ensures height { result.height ≡ 1 }
{
    FoundDeclarator {
        tree: Declarator::Omitted,
        height: 1,
        name: None,
        derived: false,
    }
}

/// A declarator in parentheses.
#[tactic(auto, using(crate::proofs::DeclaratorNodes::of_grouped))]
pub fn grouped(
    alloc: Global,
    at: u32,
    inner: FoundDeclarator,
) -> Result<FoundDeclarator, AllocError>
    requires low_inner { inner.height < 1000 }
    ensures tree { IfOk result (λ f. f.tree ≡ declarator.Grouped at inner.tree) }
    ensures height { IfOk result (λ f. f.height ≡ inner.height + 1) }
{
    let height = inner.height + 1;
    let name = inner.name;
    let derived = inner.derived;
    let inner = Shared::new(alloc, inner.tree)?;
    Ok(FoundDeclarator {
        tree: Declarator::Grouped { at, inner },
        height,
        name,
        derived,
    })
}

/// A pointer.
#[tactic(auto, using(crate::proofs::DeclaratorNodes::of_pointer))]
pub fn pointer(
    alloc: Global,
    at: u32,
    qualifiers: Items<Qualifier>,
    inner: FoundDeclarator,
) -> Result<FoundDeclarator, AllocError>
    requires low_inner { inner.height < 1000 }
    ensures tree { IfOk result (λ f. f.tree ≡ declarator.Pointer at qualifiers inner.tree) }
    ensures height { IfOk result (λ f. f.height ≡ inner.height + 1) }
{
    let height = inner.height + 1;
    let name = inner.name;
    let inner = Shared::new(alloc, inner.tree)?;
    Ok(FoundDeclarator {
        tree: Declarator::Pointer {
            at,
            qualifiers,
            inner,
        },
        height,
        name,
        derived: true,
    })
}

/// An array.
#[tactic(auto, using(crate::proofs::DeclaratorNodes::of_array))]
pub fn array(
    alloc: Global,
    at: u32,
    inner: FoundDeclarator,
    words: Items<ArrayWord>,
    length: FoundOptional,
) -> Result<FoundDeclarator, AllocError>
    requires low_inner { inner.height < 1000 }
    requires low_length { length.height < 1000 }
    ensures tree { IfOk result (λ f. f.tree ≡ declarator.Array at inner.tree words length.tree) }
    ensures height { IfOk result (λ f. f.height ≡ (max inner.height length.height) + 1) }
{
    let height = most(inner.height, length.height) + 1;
    let name = inner.name;
    let inner = Shared::new(alloc, inner.tree)?;
    Ok(FoundDeclarator {
        tree: Declarator::Array {
            at,
            inner,
            words,
            length: length.tree,
        },
        height,
        name,
        derived: true,
    })
}

/// A function and its parameters.
#[tactic(auto, using(crate::proofs::DeclaratorNodes::of_function))]
pub fn function(
    alloc: Global,
    at: u32,
    inner: FoundDeclarator,
    parameters: FoundParameters,
) -> Result<FoundDeclarator, AllocError>
    requires low_inner { inner.height < 1000 }
    requires low_parameters { parameters.height < 1000 }
    ensures tree { IfOk result (λ f. f.tree ≡ declarator.Function at inner.tree parameters.trees parameters.variadic) }
    ensures height { IfOk result (λ f. f.height ≡ (max inner.height parameters.height) + 1) }
{
    let height = most(inner.height, parameters.height) + 1;
    let name = inner.name;
    let inner = Shared::new(alloc, inner.tree)?;
    Ok(FoundDeclarator {
        tree: Declarator::Function {
            at,
            inner,
            parameters: parameters.trees,
            variadic: parameters.variadic,
        },
        height,
        name,
        derived: true,
    })
}

/// A parameter.
#[tactic(auto, using(crate::proofs::DeclaratorNodes::height_parameter))]
pub fn parameter(
    alloc: Global,
    specifiers: FoundSpecifiers,
    declarator: FoundDeclarator,
) -> Result<FoundParameter, AllocError>
    ensures tree { IfOk result (λ f. f.tree ≡ record { specifiers = specifiers.trees; declarator = declarator.tree }) }
    ensures height { IfOk result (λ f. f.height ≡ max specifiers.height declarator.height) }
{
    let height = most(specifiers.height, declarator.height);
    let declarator = Shared::new(alloc, declarator.tree)?;
    Ok(FoundParameter {
        tree: Parameter {
            specifiers: specifiers.trees,
            declarator,
        },
        height,
    })
}

/// No parameters yet.
pub fn no_parameters(alloc: Global) -> FoundParameters
    ensures trees { result.trees ≡ [] }
    ensures height { result.height ≡ 0 }
    ensures variadic { result.variadic ≡ false }
{
    FoundParameters {
        trees: Items::new(alloc),
        variadic: false,
        height: 0,
    }
}

/// Parameters and one more behind them.
#[tactic(auto, using(crate::proofs::DeclaratorNodes::height_parameters))]
pub fn and_parameter(
    alloc: Global,
    all: FoundParameters,
    last: FoundParameter,
) -> Result<FoundParameters, AllocError>
    ensures trees { IfOk result (λ f. f.trees ≡ all.trees ++ last.tree ∷ []) }
    ensures height { IfOk result (λ f. f.height ≡ max all.height last.height) }
    ensures variadic { IfOk result (λ f. f.variadic ≡ all.variadic) }
{
    let height = most(all.height, last.height);
    let variadic = all.variadic;
    let mut trees = all.trees;
    trees.push(Shared::new(alloc, last.tree)?)?;
    Ok(FoundParameters {
        trees,
        variadic,
        height,
    })
}

/// Parameters with `...` behind them.
pub fn variadic(all: FoundParameters) -> FoundParameters
    ensures trees { result.trees ≡ all.trees }
    ensures height { result.height ≡ all.height }
    ensures variadic { result.variadic ≡ true }
{
    FoundParameters {
        trees: all.trees,
        variadic: true,
        height: all.height,
    }
}
