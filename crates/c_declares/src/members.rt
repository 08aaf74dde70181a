//! Structures and unions, member by member (C99 6.7.2.1).

ghost use Rattle.std.specs.Prelude.{◌≡◌, ◌++◌, ◌||◌, ◌&&◌, not, [], true, IfOk, OnOk};
ghost use Rattle.c_language.specs.Layouts.{is_sized, is_opaque};
ghost use Rattle.c_language.specs.Scopes as scopes;
ghost use Rattle.c_language.specs.Typing.{typed_in, fault_at};
ghost use Rattle.c_language.specs.Declares as spec;
ghost use Rattle.c_declares.specs.Views.{said_in, laid_in, formed_in};

use crate::constants::add_constant;
use crate::declarators::Formed;
use crate::said::Said;
use crate::types::{INCOMPLETE, derived_from, formed_type, has_size, is_function_type};
use c_language::{
    AggregateForm, AggregateKind, CType, Derivation, Extent, Fault, Layout, Name, Rule, Tables,
    Told,
};
use c_type_scope::Scope;
use plain_data::Items;
use std::alloc::{AllocError, Global};
use std::mem;

/// The members so far, apart from the scope behind them: where they lie, their names, whether one is a bit-field or has
/// no known layout, and the byte offset of the name of the last one where it is a flexible array.
#[derive(Drop)]
pub struct Laid {
    pub form: AggregateForm,
    pub layout: Layout,
    pub names: Items<Name>,
    pub has_bits: bool,
    pub is_opaque: bool,
    pub flexible: Option<u32>,
    pub faults: Items<Fault>,
}

impl Laid {
    /// No members so far, behind some faults. It takes no memory.
    pub fn new(alloc: Global, kind: AggregateKind, faults: Items<Fault>) -> Laid
        ensures { (scope : scopes.Scope) → laid_in result scope ≡ spec.none_laid (spec.form_of kind) faults scope }
    {
        Laid {
            form: form_of(kind),
            layout: Layout::new(alloc),
            names: Items::new(alloc),
            has_bits: false,
            is_opaque: false,
            flexible: None,
            faults,
        }
    }

    /// Takes the faults so far out, for the specifiers of the next declaration of members. It takes no memory.
    pub fn take_faults(&mut self, alloc: Global) -> Items<Fault>
        ensures faults { result ≡ self.old.faults }
        ensures laid { self.new ≡ record self.old { faults = [] } }
    {
        mem::replace(&mut self.faults, Items::new(alloc))
    }

    /// Puts back the faults that specifiers have found, and answers the type that they specify: none where a part breaks a
    /// rule. It fails for want of memory alone.
    pub fn take_specifiers(
        &mut self,
        alloc: Global,
        said: Said,
    ) -> Result<Option<CType>, AllocError>
        ensures specified { (scope : scopes.Scope) → IfOk result (λ t. t ≡ spec.specified (said_in said scope)) }
        ensures laid { OnOk result (self.new ≡ record self.old { faults = said.faults }) }
    {
        let ctype = said.specified(alloc)?;
        let Said { faults, .. } = said;
        self.faults = faults;
        Ok(ctype)
    }

    /// A declaration of members without one (C99 6.7.2.1p2). It fails for want of memory alone.
    pub fn add_no_field(&mut self) -> Result<(), AllocError>
        ensures { (scope : scopes.Scope) → OnOk result (laid_in self.new scope ≡ spec.no_field (laid_in self.old scope)) }
    {
        self.next_member()?;
        self.is_opaque = true;
        Ok(())
    }

    /// A member of the specified type, by its declarator. It fails for want of memory alone.
    pub fn add_member(
        &mut self,
        alloc: Global,
        formed: Formed,
        ctype: &Option<CType>,
        scope: &Scope,
    ) -> Result<(), AllocError>
        ensures { (before : scopes.Scope) → OnOk result (laid_in self.new scope.now ≡ spec.lays_formed (formed_in formed scope.now) ctype.now (laid_in self.old before)) }
    {
        let Formed {
            name,
            derivations,
            faults,
            ..
        } = formed;
        self.faults.append(faults)?;
        let named = formed_type(alloc, scope.tables(), derived_from(derivations, ctype)?)?;
        self.lay_named(&name, named, scope)
    }

    /// A bit-field's declarator (C99 6.7.2.1p4), in front of its width. It fails for want of memory alone.
    pub fn add_bits(&mut self, formed: Formed) -> Result<(), AllocError>
        ensures { (before : scopes.Scope) (scope : scopes.Scope) → OnOk result (laid_in self.new scope ≡ spec.bits_formed (formed_in formed scope) (laid_in self.old before)) }
    {
        let Formed { name, faults, .. } = formed;
        self.faults.append(faults)?;
        self.next_member()?;
        match name {
            Some((at, name)) => self.add_name(at, name),
            None => Ok(()),
        }
    }

    /// A bit-field without declarator, in front of its width. It fails for want of memory alone.
    pub fn add_unnamed_bits(&mut self) -> Result<(), AllocError>
        ensures { (scope : scopes.Scope) → OnOk result (laid_in self.new scope ≡ spec.next_member (laid_in self.old scope)) }
    {
        self.next_member()
    }

    /// A bit-field's width, which is constant (C99 6.7.2.1p3). It fails for want of memory alone.
    pub fn add_width(&mut self, width: Told) -> Result<(), AllocError>
        ensures { (before : scopes.Scope) (scope : scopes.Scope) → OnOk result (laid_in self.new scope ≡ spec.bits_wide (typed_in width scope) (laid_in self.old before)) }
    {
        add_constant(width, &mut self.faults)?;
        self.has_bits = true;
        Ok(())
    }

    /// Another member begins: a flexible array must be the last (C99 6.7.2.1p2).
    fn next_member(&mut self) -> Result<(), AllocError>
        ensures { OnOk result (self.new ≡ record self.old { flexible = None; faults = self.old.faults ++ spec.flexible_fault self.old.flexible }) }
    {
        match self.flexible {
            Some(at) => {
                self.faults.push(Fault {
                    at,
                    rule: INCOMPLETE,
                })?;
                self.flexible = None;
                Ok(())
            }
            None => Ok(()),
        }
    }

    /// One more name among the members' (C99 6.2.3).
    fn add_name(&mut self, at: u32, name: Name) -> Result<(), AllocError>
        ensures { (scope : scopes.Scope) → OnOk result (laid_in self.new scope ≡ spec.with_member_name at name (laid_in self.old scope)) }
    {
        if is_listed_name(&name, self.names.as_slice()) {
            self.faults.push(Fault {
                at,
                rule: Rule::DuplicateDefinition,
            })?;
            self.names.push(name)
        } else {
            self.names.push(name)
        }
    }

    /// A member that breaks a rule: its name is known, and its place isn't.
    fn lay_faulty(&mut self, at: u32, rule: Rule) -> Result<(), AllocError>
        ensures { OnOk result (self.new ≡ record self.old { is_opaque = true; faults = self.old.faults ++ fault_at at rule }) }
    {
        self.faults.push(Fault { at, rule })?;
        self.is_opaque = true;
        Ok(())
    }

    /// A member of a type, which takes so much room where that is known.
    fn lay(&mut self, name: &Name, ctype: CType, extent: Option<Extent>) -> Result<(), AllocError>
        ensures { (scope : scopes.Scope) → OnOk result (laid_in self.new scope ≡ spec.lays name.now ctype extent (laid_in self.old scope)) }
    {
        match extent {
            Some(extent) => self.layout.place(self.form, extent, name.clone()?, ctype),
            None => {
                self.is_opaque = true;
                Ok(())
            }
        }
    }

    /// Whether the type is an array of unknown length in a structure that has another named member (C99 6.7.2.1p16).
    fn may_be_flexible(&self, ctype: &CType) -> bool
        ensures { result ≡ (spec.same_form self.now.form AggregateForm.Structure && spec.is_unknown_array ctype.now.derivations && not (spec.no_names self.now.names)) }
    {
        matches!(self.form, AggregateForm::Structure)
            && is_unknown_array(ctype.derivations.as_slice())
            && !self.names.is_empty()
    }

    /// A member has an object type whose size is known, is opaque, or is the flexible array (C99 6.7.2.1p2).
    fn lay_type(
        &mut self,
        at: u32,
        name: &Name,
        ctype: CType,
        scope: &Scope,
    ) -> Result<(), AllocError>
        ensures { OnOk result (laid_in self.new scope.now ≡ spec.lays_type at name.now ctype (laid_in self.old scope.now)) }
    {
        let tables = scope.tables();
        if is_function_type(&ctype) {
            return self.lay_faulty(at, Rule::TypeMismatch);
        }
        let extent = tables.member_extent(&ctype);
        if is_member_type(tables, &ctype) {
            self.lay(name, ctype, extent)
        } else if self.may_be_flexible(&ctype) {
            self.lay(name, ctype, extent)?;
            self.flexible = Some(at);
            Ok(())
        } else {
            self.lay_faulty(at, INCOMPLETE)
        }
    }

    fn lay_member(
        &mut self,
        at: u32,
        name: &Name,
        named: Option<Result<CType, Rule>>,
        scope: &Scope,
    ) -> Result<(), AllocError>
        ensures { OnOk result (laid_in self.new scope.now ≡ spec.lays_member at name.now named (laid_in self.old scope.now)) }
    {
        match named {
            Some(Ok(ctype)) => self.lay_type(at, name, ctype, scope),
            Some(Err(rule)) => self.lay_faulty(at, rule),
            None => {
                self.is_opaque = true;
                Ok(())
            }
        }
    }

    /// A member of a declarator's name, which comes last, so that a flexible array asks for one before it.
    fn lay_named(
        &mut self,
        name: &Option<(u32, Name)>,
        named: Option<Result<CType, Rule>>,
        scope: &Scope,
    ) -> Result<(), AllocError>
        ensures { OnOk result (laid_in self.new scope.now ≡ spec.lays_named name.now named (laid_in self.old scope.now)) }
    {
        match name {
            Some((at, name)) => {
                self.next_member()?;
                self.lay_member(*at, name, named, scope)?;
                self.add_name(*at, name.clone()?)
            }
            None => {
                self.is_opaque = true;
                Ok(())
            }
        }
    }
}

fn is_listed_name(name: &Name, names: &[Name]) -> bool
    ensures { result ≡ spec.is_listed_name name.now names.now }
{
    for listed in names {
        if listed.get().as_slice() == name.get().as_slice() {
            return true;
        }
    }
    false
}

/// Whether the size of the type is known, or it is opaque.
fn is_member_type(tables: &Tables, ctype: &CType) -> bool
    ensures { result ≡ (is_sized tables.now ctype.now || is_opaque tables.now ctype.now) }
{
    has_size(tables, ctype) || tables.is_opaque(ctype)
}

fn is_unknown_array(derivations: &[Derivation]) -> bool
    ensures { result ≡ spec.is_unknown_array derivations.now }
{
    match derivations.first() {
        Some(Derivation::Array(None)) => true,
        Some(Derivation::Array(Some(_))) => false,
        Some(Derivation::Pointer(_)) => false,
        Some(Derivation::Function(_)) => false,
        None => false,
    }
}

/// How the members of a structure or union lie.
pub(crate) fn form_of(kind: AggregateKind) -> AggregateForm
    ensures { result ≡ spec.form_of kind }
{
    match kind {
        AggregateKind::Struct => AggregateForm::Structure,
        AggregateKind::Union => AggregateForm::Union,
    }
}
