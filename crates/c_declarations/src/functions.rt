//! The heads of function definitions (C99 6.9.1).

ghost use Rattle.std.specs.Prelude.{◌≡◌, ◌++◌, Some, slice_get, IfOk, OnOk};
ghost use Rattle.c_language.specs.declared.scope.Means.TheVariants as means_;
ghost use Rattle.c_language.specs.Scopes as scopes;
ghost use Rattle.c_language.specs.Declarations as spec;
ghost use Rattle.c_language.specs.Units as units;
ghost use Rattle.c_declares.specs.Views.{said_in, formed_in, inside_of};
ghost use Rattle.c_declarations.specs.Views.{declared_in, function_in, formed_with, signed};
ghost use Rattle.c_declarations.specs.Views as views;

use crate::again::declared_again;
use crate::completeness::INCOMPLETE;
use crate::declarations::specified_by;
use crate::declarators::{Declared, declared_lastly, with_definition, with_rule};
use crate::linkage::{declare, declares_name, means_of, twice_defined};
use c_declares::{Formed, Parameters, Said, derived_from, formed_type};
use c_language::{
    CType, Declarator, Derivation, Entry, Fault, Means, Name, Prototype, Rule, Specifier,
    StorageClass, Tables,
};
use c_type_forms::{has_size, is_void, one_fault};
use c_type_scope::{Block, Scope};
use c_typing::{declarator, specifiers};
use plain_data::{Bytes, Items, Shared};
use std::alloc::{AllocError, Global};

/// What the head of a function definition says, apart from the scope behind it: the entry of the function, the type
/// that it returns and its parameters in order, the rules that are broken, and what the scope of its body begins with:
/// the block of the parameters and the function's name.
#[derive(Drop)]
pub struct FunctionSaid {
    pub entry: Option<Shared<Entry>>,
    pub returned: Option<CType>,
    pub parameters: Items<Shared<Entry>>,
    pub faults: Items<Fault>,
    pub block: Block,
    pub name: Name,
}

impl FunctionSaid {
    /// Goes into the body: its parameters are in force in one block (C99 6.2.1p4). It fails for want of memory alone.
    pub fn enter(self, scope: &mut Scope) -> Result<(), AllocError>
        ensures { OnOk result (scope.new ≡ (function_in self scope.old).inside) }
    {
        let FunctionSaid { block, name, .. } = self;
        scope.enter_with(block)?;
        scope.set_function(Some(name));
        Ok(())
    }
}

fn is_unspecified(tables: &Tables, number: u32) -> bool
    ensures { result ≡ views.is_unspecified (slice_get tables.now.signatures number) }
{
    match tables.signatures.get(number as usize) {
        Some(signature) => match signature.prototype {
            Prototype::Unspecified => true,
            Prototype::Fixed => false,
            Prototype::Variadic => false,
            Prototype::EmptyDefinition => false,
        },
        None => false,
    }
}

/// An empty list in a definition says that there are no parameters (C99 6.7.5.3p14).
#[tactic(auto, using(crate::proofs::Signed::signed_found, crate::proofs::Signed::signed_other))]
fn defined_signature(alloc: Global, ctype: CType, scope: &mut Scope) -> Result<CType, AllocError>
    ensures { IfOk result (λ t. signed scope.old ctype t scope.new) }
{
    let mut ctype = ctype;
    let number = match ctype.derivations.as_slice().split_first() {
        Some((Derivation::Function(number), _)) => *number,
        Some((Derivation::Pointer(_), _)) => return Ok(ctype),
        Some((Derivation::Array(_), _)) => return Ok(ctype),
        None => return Ok(ctype),
    };
    if is_unspecified(scope.tables(), number) {
        let number = scope.add_signature(Prototype::EmptyDefinition, Items::new(alloc))?;
        ctype.derivations.set(0, Derivation::Function(number));
    }
    Ok(ctype)
}

fn is_parameter(means: &Means) -> bool
    ensures { result ≡ spec.is_parameter means.now }
{
    match means {
        Means::Object { .. } => true,
        Means::Function { .. } => false,
        Means::Typedef { .. } => false,
        Means::Constant { .. } => false,
        Means::Faulty => false,
    }
}

/// The parameters, in order, among what their list declares.
fn parameters_among(
    alloc: Global,
    entries: &[Shared<Entry>],
) -> Result<Items<Shared<Entry>>, AllocError>
    ensures { IfOk result (λ all. all ≡ spec.parameters_among entries.now) }
{
    let mut all = Items::new(alloc);
    for entry in entries {
        if is_parameter(&entry.get().means) {
            all.push(entry.clone()?)?;
        }
    }
    Ok(all)
}

fn entries_in(
    alloc: Global,
    inside: &Option<Parameters>,
) -> Result<Items<Shared<Entry>>, AllocError>
    ensures { IfOk result (λ all. all ≡ spec.entries_in (inside_of inside.now)) }
{
    match inside {
        None => Ok(Items::new(alloc)),
        Some(parameters) => parameters_among(alloc, parameters.block.entries()),
    }
}

fn block_in(alloc: Global, inside: Option<Parameters>) -> Block
    ensures { result ≡ views.block_in (inside_of inside) }
{
    match inside {
        None => Block::new(alloc),
        Some(parameters) => parameters.block,
    }
}

/// A parameter of a definition has a complete type (C99 6.7.5.3p4).
fn parameter_fault(
    alloc: Global,
    tables: &Tables,
    entry: &Entry,
) -> Result<Items<Fault>, AllocError>
    ensures { IfOk result (λ faults. faults ≡ spec.parameter_fault tables.now entry.now entry.now.means) }
{
    match &entry.means {
        Means::Object { ctype, .. } => {
            if has_size(tables, ctype.get()) {
                Ok(Items::new(alloc))
            } else {
                one_fault(alloc, entry.at, INCOMPLETE)
            }
        }
        Means::Function { .. } => Ok(Items::new(alloc)),
        Means::Typedef { .. } => Ok(Items::new(alloc)),
        Means::Constant { .. } => Ok(Items::new(alloc)),
        Means::Faulty => Ok(Items::new(alloc)),
    }
}

fn parameters_faults(
    alloc: Global,
    tables: &Tables,
    entries: &[Shared<Entry>],
) -> Result<Items<Fault>, AllocError>
    ensures { IfOk result (λ faults. faults ≡ spec.parameters_faults tables.now entries.now) }
{
    let mut faults = Items::new(alloc);
    for entry in entries {
        faults.append(parameter_fault(alloc, tables, entry.get())?)?;
    }
    Ok(faults)
}

/// Each parameter of a definition has a name (C99 6.9.1p5).
fn unnamed_fault(
    alloc: Global,
    at: u32,
    inside: &Option<Parameters>,
) -> Result<Items<Fault>, AllocError>
    ensures { IfOk result (λ faults. faults ≡ spec.unnamed_fault at (inside_of inside.now)) }
{
    match inside {
        None => Ok(Items::new(alloc)),
        Some(parameters) => {
            if parameters.are_named {
                Ok(Items::new(alloc))
            } else {
                one_fault(alloc, at, Rule::TypeMismatch)
            }
        }
    }
}

/// A definition returns nothing, or an object of complete type (C99 6.9.1p3).
fn returned_fault(
    alloc: Global,
    tables: &Tables,
    at: u32,
    returned: &Option<CType>,
) -> Result<Items<Fault>, AllocError>
    ensures { IfOk result (λ faults. faults ≡ spec.returned_fault tables.now at returned.now) }
{
    match returned {
        None => one_fault(alloc, at, Rule::TypeMismatch),
        Some(ctype) => {
            if is_void(ctype) || has_size(tables, ctype) {
                Ok(Items::new(alloc))
            } else {
                one_fault(alloc, at, INCOMPLETE)
            }
        }
    }
}

/// The rules that the type and the parameters of a definition break.
fn body_faults(
    alloc: Global,
    tables: &Tables,
    at: u32,
    returned: &Option<CType>,
    inside: &Option<Parameters>,
    parameters: &[Shared<Entry>],
    faults: Items<Fault>,
) -> Result<Items<Fault>, AllocError>
    ensures { IfOk result (λ all. all ≡ faults ++ spec.returned_fault tables.now at returned.now ++ spec.unnamed_fault at (inside_of inside.now) ++ spec.parameters_faults tables.now parameters.now) }
{
    let mut faults = faults;
    faults.append(returned_fault(alloc, tables, at, returned)?)?;
    faults.append(unnamed_fault(alloc, at, inside)?)?;
    faults.append(parameters_faults(alloc, tables, parameters)?)?;
    Ok(faults)
}

fn with_body(
    alloc: Global,
    at: u32,
    name: Name,
    ctype: &CType,
    inside: Option<Parameters>,
    first: Declared,
    scope: &Scope,
) -> Result<FunctionSaid, AllocError>
    ensures { IfOk result (λ x. function_in x scope.now ≡ spec.with_body at name ctype.now (formed_with (inside_of inside)) (declared_in first scope.now)) }
{
    let returned = ctype.returned(alloc)?;
    let parameters = entries_in(alloc, &inside)?;
    let Declared { entry, faults } = first;
    let tables = scope.tables();
    let faults = body_faults(
        alloc,
        tables,
        at,
        &returned,
        &inside,
        parameters.as_slice(),
        faults,
    )?;
    Ok(FunctionSaid {
        entry,
        returned,
        parameters,
        faults,
        block: block_in(alloc, inside),
        name,
    })
}

fn defined_as(
    alloc: Global,
    at: u32,
    name: &Name,
    again: Option<Means>,
    faults: Items<Fault>,
    scope: &mut Scope,
) -> Result<Declared, AllocError>
    ensures { IfOk result (λ x. declared_in x scope.new ≡ spec.defined_as at name.now again faults scope.old) }
{
    match again {
        None => {
            let faults = with_rule(alloc, at, Some(Rule::DuplicateDefinition), faults)?;
            declare(alloc, at, name, Means::Faulty, scope)?;
            declared_lastly(name, faults, scope)
        }
        Some(means) => {
            let linked = scope.linked_as(name.get().as_slice());
            let is_second = twice_defined(&means, true, linked);
            let faults = with_definition(alloc, at, is_second, faults)?;
            declares_name(alloc, at, name, means, true, scope)?;
            declared_lastly(name, faults, scope)
        }
    }
}

fn defined_function(
    alloc: Global,
    storage: Option<StorageClass>,
    at: u32,
    name: Name,
    ctype: CType,
    inside: Option<Parameters>,
    faults: Items<Fault>,
    scope: &mut Scope,
) -> Result<FunctionSaid, AllocError>
    ensures { IfOk result (λ x. function_in x scope.new ≡ spec.defined_function storage at name (formed_with (inside_of inside)) faults (ctype, scope.old)) }
{
    let ctype = Shared::new(alloc, ctype)?;
    let means = means_of(storage, ctype.clone()?, scope, &name);
    let again = declared_again(alloc, scope, &name, means)?;
    let first = defined_as(alloc, at, &name, again, faults, scope)?;
    with_body(alloc, at, name, ctype.get(), inside, first, scope)
}

/// A definition whose type breaks a rule.
fn faulty_function(
    alloc: Global,
    at: u32,
    name: Name,
    inside: Option<Parameters>,
    faults: Items<Fault>,
    scope: &mut Scope,
) -> Result<FunctionSaid, AllocError>
    ensures { IfOk result (λ x. function_in x scope.new ≡ spec.faulty_function name (formed_with (inside_of inside)) (spec.declared_lastly name faults (scopes.declared at name means_.Faulty scope.old))) }
{
    declare(alloc, at, &name, Means::Faulty, scope)?;
    let Declared { entry, faults } = declared_lastly(&name, faults, scope)?;
    let parameters = entries_in(alloc, &inside)?;
    Ok(FunctionSaid {
        entry,
        returned: None,
        parameters,
        faults,
        block: block_in(alloc, inside),
        name,
    })
}

/// A definition without a name declares nothing; no tree of the grammar is one.
fn nameless(
    alloc: Global,
    inside: Option<Parameters>,
    faults: Items<Fault>,
    scope: &Scope,
) -> Result<FunctionSaid, AllocError>
    ensures { IfOk result (λ x. function_in x scope.now ≡ spec.nameless (record (formed_with (inside_of inside)) { after = scope.now }) faults) }
{
    let parameters = entries_in(alloc, &inside)?;
    Ok(FunctionSaid {
        entry: None,
        returned: None,
        parameters,
        faults,
        block: block_in(alloc, inside),
        name: Shared::new(alloc, Bytes::new(alloc))?,
    })
}

fn function_typed(
    alloc: Global,
    storage: Option<StorageClass>,
    at: u32,
    name: Name,
    ctype: CType,
    inside: Option<Parameters>,
    faults: Items<Fault>,
    scope: &mut Scope,
) -> Result<FunctionSaid, AllocError>
    ensures { IfOk result (λ x. function_in x scope.new ≡ spec.function_type storage at name (Some ctype) (record (formed_with (inside_of inside)) { after = scope.old }) faults) }
{
    let ctype = defined_signature(alloc, ctype, scope)?;
    defined_function(alloc, storage, at, name, ctype, inside, faults, scope)
}

fn function_named(
    alloc: Global,
    storage: Option<StorageClass>,
    at: u32,
    name: Name,
    ctype: Option<Result<CType, Rule>>,
    inside: Option<Parameters>,
    faults: Items<Fault>,
    scope: &mut Scope,
) -> Result<FunctionSaid, AllocError>
    ensures { IfOk result (λ x. function_in x scope.new ≡ spec.function_named storage (Some (at, name)) ctype (record (formed_with (inside_of inside)) { after = scope.old }) faults) }
{
    match ctype {
        Some(Ok(ctype)) => function_typed(alloc, storage, at, name, ctype, inside, faults, scope),
        Some(Err(rule)) => {
            let faults = with_rule(alloc, at, Some(rule), faults)?;
            faulty_function(alloc, at, name, inside, faults, scope)
        }
        None => faulty_function(alloc, at, name, inside, faults, scope),
    }
}

fn function_from(
    alloc: Global,
    said: Said,
    formed: Formed,
    scope: &mut Scope,
) -> Result<FunctionSaid, AllocError>
    ensures { IfOk result (λ x. function_in x scope.new ≡ spec.function_from (said_in said scopes.empty) (formed_in formed scope.old)) }
{
    let specified = specified_by(alloc, &said)?;
    let Formed {
        name,
        derivations,
        inside,
        faults: more,
        ..
    } = formed;
    let mut faults = said.faults;
    faults.append(more)?;
    let derived = derived_from(derivations, &specified)?;
    let ctype = formed_type(alloc, scope.tables(), derived)?;
    match name {
        None => nameless(alloc, inside, faults, scope),
        Some((at, name)) => function_named(
            alloc,
            said.storage,
            at,
            name,
            ctype,
            inside,
            faults,
            scope,
        ),
    }
}

/// What the head of a function definition declares in a scope, and the scope of its body. It fails for want of memory
/// alone.
pub fn function_says(
    alloc: Global,
    specified: &[Shared<Specifier>],
    named: &Declarator,
    scope: &mut Scope,
) -> Result<FunctionSaid, AllocError>
    ensures { IfOk result (λ x. function_in x scope.new ≡ units.function_says specified.now named.now scope.old) }
{
    let said = specifiers(alloc, specified, false, scope)?;
    let formed = declarator(alloc, named, scope)?;
    function_from(alloc, said, formed, scope)
}
