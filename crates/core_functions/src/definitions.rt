//! Function definitions (C99 6.9.1).
ghost use Rattle.std.specs.Prelude.{◌≡◌, ◌↔◌, true, [], IsTrue, IfOk};
ghost use Rattle.c_language.specs.declared.unit.External.TheVariants as external;
ghost use Rattle.c_language.specs.Declarations.{FunctionSaid};
ghost use Rattle.c_means.specs.Programs.{code_in, outer};
ghost use Rattle.core_functions.specs.Definitions as spec;

use crate::heads::{Head, Named, entered};
use c_declarations::function_says;
use c_language as tree;
use c_language::{Declarator, Name, Specifier};
use c_type_scope::Scope;
use code_forms::Content;
use core_codes::{Body, Parts, content};
use core_tree::{Code, Function, LastingSetting};
use plain_data::{Items, Shared};
use std::alloc::{AllocError, Global};

/// A function in the core, and what the initializers of the objects in it that live throughout the run set before
/// `main` is called (C99 6.2.4p3), in order.
#[derive(Drop)]
pub struct Definition {
    pub function: Function,
    pub settings: Items<LastingSetting>,
}

/// The name of the function whose body this is in, where it is in one. It fails for want of memory alone.
fn function_around(scope: &Scope) -> Result<Option<Name>, AllocError>
    ensures { IfOk result (λ name. name ≡ scope.now.function) }
{
    match scope.function() {
        Some(name) => Ok(Some(name.clone()?)),
        None => Ok(None),
    }
}

fn is_return(code: &Code) -> bool
    ensures { IsTrue result ↔ spec.IsReturn code.now }
{
    match code {
        Code::Return { .. } => true,
        _ => false,
    }
}

/// Whether the last of these items is a `return`.
fn ends_in_return(items: &[Shared<Code>]) -> bool
    ensures { IsTrue result ↔ spec.EndsInReturn items.now }
{
    match items.split_last() {
        Some((last, _)) => is_return(last.get()),
        None => false,
    }
}

/// Whether a value can be missing where a function is used whose block has these items, and which gives a value or not.
fn may_miss(has_value: bool, items: &[Shared<Code>]) -> bool
    ensures { IsTrue result ↔ spec.MayMiss has_value items.now }
{
    if has_value {
        !ends_in_return(items)
    } else {
        false
    }
}

/// What stands in a body that couldn't be read. It takes no memory.
fn nothing(alloc: Global) -> Body
    ensures { result ≡ record { content = record { is_compound = true; items = []; cases = [] }; settings = [] } }
{
    let content = Content {
        is_compound: true,
        items: Items::new(alloc),
        cases: Items::new(alloc),
    };
    Body {
        content,
        settings: Items::new(alloc),
    }
}

/// What stands in the body of this head, in which its parameters are in force. It fails for want of memory alone.
fn inside<P: Parts>(
    alloc: Global,
    parts: &P,
    head: &Head,
    body: &tree::Body,
    scope: &mut Scope,
) -> Result<Body, AllocError>
    ensures { IfOk result (λ y. (f : FunctionSaid) → spec.IsHeadOf head.now f → f.inside ≡ scope.old →
        spec.IsInside (P.numbering parts.now) f (code_in body.now) y scope.new) }
{
    match body {
        tree::Body::Read { block } => content(alloc, parts, head.context(), block.get(), scope),
        tree::Body::Unread { .. } => Ok(nothing(alloc)),
    }
}

/// The function of a head and of what stands in its body, where it has a name.
fn with_body(head: Head, is_prelude: bool, body: Body) -> Option<Definition>
    ensures { spec.MaybeMadeOf head is_prelude body result }
{
    let Body { content, settings } = body;
    let Content { items, .. } = content;
    let may_miss = may_miss(head.has_value, items.as_slice());
    let Head {
        named,
        parameters,
        ..
    } = head;
    let Named { at, name } = named?;
    let function = Function {
        at,
        name,
        is_prelude,
        may_miss,
        parameters,
        items,
    };
    Some(Definition { function, settings })
}

/// The core of a function definition (C99 6.9.1), in front of which these names are in force; behind it are those that
/// it leaves. There is none exactly where it names no function. A body that couldn't be read does nothing. It fails for
/// want of memory alone.
pub fn define<P: Parts>(
    alloc: Global,
    parts: &P,
    specifiers: &[Shared<Specifier>],
    declarator: &Declarator,
    body: &tree::Body,
    is_prelude: bool,
    scope: &mut Scope,
) -> Result<Option<Definition>, AllocError>
    ensures made { IfOk result (λ x. spec.MaybeDefinitionOf (P.numbering parts.now) x is_prelude
        (outer (external.Function specifiers.now declarator.now body.now) scope.old)) }
    ensures after { IfOk result (λ x. scope.new ≡
        (outer (external.Function specifiers.now declarator.now body.now) scope.old).after) }
{
    let around = function_around(scope)?;
    let said = function_says(alloc, specifiers, declarator, scope)?;
    let head = entered(alloc, said, scope)?;
    let inside = inside(alloc, parts, &head, body, scope)?;
    scope.leave();
    scope.set_function(around);
    Ok(with_body(head, is_prelude, inside))
}
