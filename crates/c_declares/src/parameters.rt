//! Parameters (C99 6.7.5.3): of array or function type they are pointers, and their names have a scope of their own.

ghost use Rattle.std.specs.Prelude.{◌≡◌, ◌++◌, [], true, cond, map, IfOk, OnOk};
ghost use Rattle.c_language.specs.Scopes as scopes;
ghost use Rattle.c_language.specs.Declares as spec;
ghost use Rattle.c_language.specs.declared.expr.Parameter.{Parameter as Tree};
ghost use Rattle.c_declares.specs.Views.{said_in, formed_in, named_in, listed_in};

use crate::declarators::Formed;
use crate::names::{add_duplicate, declare};
use crate::said::Said;
use crate::types::{adjusted_type, derived_from};
use c_language::{
    CType, Class, Derivation, Duration, Fault, Linkage, Means, Name, Parameter, Prototype, Rule,
};
use c_type_scope::Scope;
use plain_data::{Items, Shared};
use std::alloc::{AllocError, Global};

/// A parameter, apart from the scope behind it: its name with its byte offset, and its type where no part breaks a rule.
#[derive(Drop)]
pub struct Named {
    pub name: Option<(u32, Name)>,
    pub ctype: Option<CType>,
    pub faults: Items<Fault>,
}

/// The parameters so far, apart from the scope behind them: their types where none breaks a rule, and whether each has a
/// name.
#[derive(Drop)]
pub struct Listed {
    pub types: Option<Items<CType>>,
    pub are_named: bool,
    pub faults: Items<Fault>,
}

impl Named {
    /// A parameter of these specifiers and this declarator. It fails for want of memory alone.
    pub fn new(
        alloc: Global,
        said: Said,
        formed: Formed,
        scope: &Scope,
    ) -> Result<Named, AllocError>
        ensures { (before : scopes.Scope) → IfOk result (λ p. named_in p scope.now ≡ spec.parameter_formed (said_in said before) (formed_in formed scope.now)) }
    {
        let ctype = said.specified(alloc)?;
        let Said { start, faults, .. } = said;
        let Formed {
            name,
            derivations,
            brackets,
            faults: more,
            ..
        } = formed;
        let mut faults = faults;
        faults.append(more)?;
        let derived = derived_from(derivations, &ctype)?;
        let named = adjusted_type(alloc, scope.tables(), brackets, derived)?;
        add_broken(place_of(&name, start), &named, &mut faults)?;
        Ok(Named {
            name,
            ctype: known(named),
            faults,
        })
    }
}

/// The name's offset, or that of the first specifier.
fn place_of(name: &Option<(u32, Name)>, start: Option<u32>) -> u32
    ensures { result ≡ spec.place_of name.now start }
{
    match name {
        Some((at, _)) => *at,
        None => match start {
            Some(at) => at,
            None => 0,
        },
    }
}

fn add_broken(
    at: u32,
    named: &Option<Result<CType, Rule>>,
    faults: &mut Items<Fault>,
) -> Result<(), AllocError>
    ensures { OnOk result (faults.new ≡ faults.old ++ spec.faults_in at named.now) }
{
    match named {
        Some(Err(rule)) => faults.push(Fault { at, rule: *rule }),
        Some(Ok(_)) => Ok(()),
        None => Ok(()),
    }
}

fn known(named: Option<Result<CType, Rule>>) -> Option<CType>
    ensures { result ≡ spec.type_in named }
{
    match named {
        Some(Ok(ctype)) => Some(ctype),
        Some(Err(_)) => None,
        None => None,
    }
}

impl Listed {
    /// No parameters so far. It takes no memory.
    pub fn new(alloc: Global) -> Listed
        ensures { result ≡ record { types = Some []; are_named = true; faults = [] } }
    {
        Listed {
            types: Some(Items::new(alloc)),
            are_named: true,
            faults: Items::new(alloc),
        }
    }

    /// The next parameter, whose name is in force from here. It fails for want of memory alone.
    pub fn add(
        &mut self,
        alloc: Global,
        parameter: Named,
        scope: &mut Scope,
    ) -> Result<(), AllocError>
        ensures { (before : scopes.Scope) → OnOk result (listed_in self.new scope.new ≡ spec.and_parameter (listed_in self.old before) (named_in parameter scope.old)) }
    {
        let Named {
            name,
            ctype,
            faults,
        } = parameter;
        self.faults.append(faults)?;
        add_duplicate_name(&name, scope, &mut self.faults)?;
        self.are_named = self.are_named && is_named(&name);
        declare_parameter(alloc, &name, &ctype, scope)?;
        let types = self.types.take();
        self.types = listed_types(types, ctype)?;
        Ok(())
    }
}

fn is_named(name: &Option<(u32, Name)>) -> bool
    ensures { result ≡ spec.is_named name.now }
{
    match name {
        Some(_) => true,
        None => false,
    }
}

fn add_duplicate_name(
    name: &Option<(u32, Name)>,
    scope: &Scope,
    faults: &mut Items<Fault>,
) -> Result<(), AllocError>
    ensures { OnOk result (faults.new ≡ faults.old ++ spec.duplicate_name name.now scope.now) }
{
    match name {
        Some((at, name)) => add_duplicate(*at, scope.own_entry(name.get().as_slice()), faults),
        None => Ok(()),
    }
}

fn parameter_means(alloc: Global, ctype: &Option<CType>) -> Result<Means, AllocError>
    ensures { IfOk result (λ means. means ≡ spec.parameter_means ctype.now) }
{
    match ctype {
        Some(ctype) => Ok(Means::Object {
            ctype: Shared::new(alloc, ctype.duplicate(alloc)?)?,
            duration: Duration::Automatic,
            linkage: Linkage::None,
        }),
        None => Ok(Means::Faulty),
    }
}

/// A parameter's name is in force behind its declarator (C99 6.2.1p7).
fn declare_parameter(
    alloc: Global,
    name: &Option<(u32, Name)>,
    ctype: &Option<CType>,
    scope: &mut Scope,
) -> Result<(), AllocError>
    ensures { OnOk result (scope.new ≡ spec.with_parameter name.now ctype.now scope.old) }
{
    match name {
        Some((at, name)) => declare(alloc, *at, name, parameter_means(alloc, ctype)?, scope),
        None => Ok(()),
    }
}

fn listed_types(
    types: Option<Items<CType>>,
    ctype: Option<CType>,
) -> Result<Option<Items<CType>>, AllocError>
    ensures { IfOk result (λ all. all ≡ spec.listed_types types ctype) }
{
    match (types, ctype) {
        (Some(types), Some(ctype)) => {
            let mut types = types;
            types.push(ctype)?;
            Ok(Some(types))
        }
        _ => Ok(None),
    }
}

fn is_plain_void(ctype: &CType) -> bool
    ensures { result ≡ spec.is_plain_void ctype.now }
{
    matches!(ctype.class(), Class::Void)
        && !ctype.qualifiers.is_const
        && !ctype.qualifiers.is_volatile
        && !ctype.qualifiers.is_restrict
}

/// Whether the parameters are `void` alone, which is none (C99 6.7.5.3p10).
fn is_void_alone(types: &[CType]) -> bool
    ensures { cond result [] types.now ≡ spec.without_void types.now }
{
    match types.split_first() {
        Some((only, rest)) => match rest.first() {
            Some(_) => false,
            None => is_plain_void(only),
        },
        None => false,
    }
}

fn without_void(alloc: Global, types: Items<CType>) -> Items<CType>
    ensures { result ≡ spec.without_void types }
{
    if is_void_alone(types.as_slice()) {
        Items::new(alloc)
    } else {
        types
    }
}

/// Whether a function has no parameter.
pub(crate) fn has_no_parameter(types: &Option<Items<CType>>) -> bool
    ensures { result ≡ spec.has_no_parameter types.now }
{
    match types {
        Some(types) => is_void_alone(types.as_slice()) || types.is_empty(),
        None => false,
    }
}

/// The signature of parameters, and the derivation that it makes, where their types are known.
pub(crate) fn add_signature(
    alloc: Global,
    prototype: Prototype,
    types: Option<Items<CType>>,
    scope: &mut Scope,
) -> Result<Option<Derivation>, AllocError>
    ensures step { IfOk result (λ step. step ≡ spec.function_step types (scopes.next_signature scope.old)) }
    ensures scope { OnOk result (scope.new ≡ spec.with_parameters prototype types scope.old) }
{
    match types {
        Some(types) => {
            let number = scope.add_signature(prototype, without_void(alloc, types))?;
            Ok(Some(Derivation::Function(number)))
        }
        None => Ok(None),
    }
}

/// What a function declarator says of parameters (C99 6.7.5.3p9, p14): nothing where the list is empty.
pub fn prototype(parameters: &[Shared<Parameter>], variadic: bool) -> Prototype
    ensures { (says : Tree → spec.NamedSays) → result ≡ spec.prototype_of (map says parameters.now) variadic }
{
    if parameters.is_empty() {
        Prototype::Unspecified
    } else if variadic {
        Prototype::Variadic
    } else {
        Prototype::Fixed
    }
}
