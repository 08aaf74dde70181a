//! Heads of function definitions (C99 6.9.1): their names, what they return, and their parameters.
ghost use Rattle.std.specs.Prelude.{◌≡◌, not, IfOk};
ghost use Rattle.c_language.specs.Declarations.{object_type};
ghost use Rattle.c_declarations.specs.Views.{function_in};
ghost use Rattle.c_means.specs.Statements.{returns_void};
ghost use Rattle.core_forms.specs.Nodes as nodes;
ghost use Rattle.elaborate.specs.Means.{IsParameter, AreParameters};
ghost use Rattle.core_functions.specs.Definitions as spec;

use c_declarations::FunctionSaid;
use c_language::{CType, Entry, Means, Name, Tables};
use c_type_forms::is_void;
use c_type_scope::Scope;
use code_forms::stored_type;
use core_codes::Context;
use core_forms::type_as;
use core_tree::{Parameter, ValueType};
use plain_data::{Items, Shared};
use std::alloc::{AllocError, Global};

/// The name of a function, with its offset.
#[derive(Drop)]
pub(crate) struct Named {
    pub at: u32,
    pub name: Name,
}

/// What is kept of the head of a definition: the name that it declares, where it has one; whether it returns a value
/// and in which type; and its parameters, in order.
#[derive(Drop)]
pub(crate) struct Head {
    pub named: Option<Named>,
    pub has_value: bool,
    pub returned: ValueType,
    pub parameters: Items<Parameter>,
}

impl Head {
    ghost use Rattle.std.specs.Prelude.{◌≡◌, None};

    /// What the statements of the body stand in.
    pub(crate) fn context(&self) -> Context
        ensures { result ≡ record { compared = None; returned = self.now.returned } }
    {
        Context {
            compared: None,
            returned: self.returned,
        }
    }
}

/// Whether a function that returns this type gives a value (C99 6.8.6.4p1).
fn gives_value(returned: &Option<CType>) -> bool
    ensures { result ≡ not (returns_void returned.now) }
{
    match returned {
        Some(ctype) => !is_void(ctype),
        None => false,
    }
}

/// The type in which the object of a name with this meaning is stored. What is no object takes no bytes.
fn stored_as(tables: &Tables, means: &Means) -> ValueType
    ensures { result ≡ nodes.type_as tables.now (object_type means.now) }
{
    match means {
        Means::Object { ctype, .. } => stored_type(tables, ctype.get()),
        Means::Function { .. } => ValueType::Void,
        Means::Typedef { .. } => ValueType::Void,
        Means::Constant { .. } => ValueType::Void,
        Means::Faulty => ValueType::Void,
    }
}

/// A parameter, as an object of its type (C99 6.9.1p9).
fn parameter(scope: &Scope, entry: &Entry) -> Parameter
    ensures { IsParameter scope.now result entry.now }
{
    let at = entry.at;
    let stored = stored_as(scope.tables(), &entry.means);
    Parameter { at, stored }
}

/// The parameters of a definition, in order. It fails for want of memory alone.
fn parameters_of(
    alloc: Global,
    scope: &Scope,
    entries: &[Shared<Entry>],
) -> Result<Items<Parameter>, AllocError>
    ensures { IfOk result (λ ps. AreParameters scope.now ps entries.now) }
{
    let mut all = Items::new(alloc);
    for entry in entries {
        let found = parameter(scope, entry.get());
        all.push(found)?;
    }
    Ok(all)
}

/// The name that a head declares, where it has one. It fails for want of memory alone.
fn name_of(entry: &Option<Shared<Entry>>) -> Result<Option<Named>, AllocError>
    ensures { IfOk result (λ x. x ≡ spec.name_of entry.now) }
{
    match entry {
        Some(entry) => {
            let entry = entry.get();
            let name = entry.name.clone()?;
            Ok(Some(Named { at: entry.at, name }))
        }
        None => Ok(None),
    }
}

/// What is kept of a head, in front of its body. It fails for want of memory alone.
fn head_of(alloc: Global, said: &FunctionSaid, scope: &Scope) -> Result<Head, AllocError>
    ensures { IfOk result (λ h. spec.IsHeadOf h (function_in said.now scope.now)) }
{
    let parameters = parameters_of(alloc, scope, said.parameters.as_slice())?;
    let named = name_of(&said.entry)?;
    let has_value = gives_value(&said.returned);
    let returned = type_as(scope.tables(), &said.returned);
    Ok(Head {
        named,
        has_value,
        returned,
        parameters,
    })
}

/// Goes into the body of a definition: its parameters are in force there (C99 6.9.1p9). It fails for want of memory
/// alone.
pub(crate) fn entered(
    alloc: Global,
    said: FunctionSaid,
    scope: &mut Scope,
) -> Result<Head, AllocError>
    ensures head { IfOk result (λ h. spec.IsHeadOf h (function_in said scope.old)) }
    ensures after { IfOk result (λ h. scope.new ≡ (function_in said scope.old).inside) }
{
    let head = head_of(alloc, &said, scope)?;
    said.enter(scope)?;
    Ok(head)
}
