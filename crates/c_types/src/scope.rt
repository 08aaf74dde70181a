//! The names in force, where what fails changes nothing.

ghost use Rattle.std.specs.Prelude.{◌≡◌, IfOk, IfSome, OnOk, OnErr};
ghost use Rattle.c_language.specs.Scopes as spec;
ghost use Rattle.c_language.specs.Units as units;
ghost use Rattle.c_declarations.specs.Views.{declares_in, function_in};

use c_declarations::{DeclarationSaid, FunctionSaid, declaration_says, function_says};
use c_language::{Declaration, Declarator, Specifier};
use c_type_scope::Scope as Names;
use plain_data::Shared;
use std::alloc::{AllocError, Global};
use std::marker::Model;
use std::mem;

/// The names in force and the tables of types. What fails for want of memory leaves them as they were: it is done to a
/// second copy first, which takes the place of the first where that succeeds, and then to the other. So a declaration
/// takes twice its time and memory, and one behind a failure copies what is in force first.
pub struct Scope {
    alloc: Global,
    names: Names,
    spare: Option<Names>,
}

/// By hand, so that a call stands in place of all its parts wherever a value is let go.
impl Drop for Scope {
    fn drop(self) {
        let Scope {
            alloc,
            names,
            spare,
        } = self;
    }
}

impl Model for Scope {
    ghost use Rattle.std.specs.Prelude.{◌≡◌, IfSome};
    ghost use Rattle.c_language.specs.Scopes as spec;

    ghost Value = { spec.Scope };

    ghost view = { λ s. s.names };

    ghost invariant = { λ s. IfSome s.spare (λ spare. spare ≡ s.names) };
}

/// The names behind a new block, where there is memory.
fn entered(names: Names) -> Option<Names>
    ensures { IfSome result (λ after. after ≡ spec.enter names) }
{
    let mut names = names;
    match names.enter() {
        Ok(()) => Some(names),
        Err(_) => None,
    }
}

/// The names without those that the innermost block declares.
fn left(names: Names) -> Names
    ensures { result ≡ spec.leave names }
{
    let mut names = names;
    names.leave();
    names
}

/// The names behind a declaration, where there is memory.
fn declared(alloc: Global, declaration: &Declaration, names: Names) -> Option<Names>
    ensures { IfSome result (λ after. after ≡ (units.declaration_says declaration.now names).after) }
{
    let mut names = names;
    match declaration_says(alloc, declaration, &mut names) {
        Ok(_) => Some(names),
        Err(_) => None,
    }
}

/// What a function's head declares, with the names behind it.
fn head_said(
    alloc: Global,
    specified: &[Shared<Specifier>],
    named: &Declarator,
    names: &mut Names,
) -> Result<FunctionSaid, AllocError>
    ensures said { IfOk result (λ x. function_in x names.new ≡ units.function_says specified.now named.now names.old) }
    ensures after { OnOk result (names.new ≡ (units.function_says specified.now named.now names.old).after) }
{
    function_says(alloc, specified, named, names)
}

/// The names behind a function's head, where there is memory.
fn headed(
    alloc: Global,
    specified: &[Shared<Specifier>],
    named: &Declarator,
    names: Names,
) -> Option<Names>
    ensures { IfSome result (λ after. after ≡ (units.function_says specified.now named.now names).after) }
{
    let mut names = names;
    match head_said(alloc, specified, named, &mut names) {
        Ok(_) => Some(names),
        Err(_) => None,
    }
}

impl Scope {
    /// The file scope, with nothing declared. It takes no memory.
    pub fn new(alloc: Global) -> Scope
        ensures { result ≡ spec.empty }
    {
        Scope {
            alloc,
            names: Names::new(alloc),
            spare: Some(Names::new(alloc)),
        }
    }

    /// The names in force, to be read.
    pub fn names(&self) -> &Names
        ensures { result.now ≡ self.now }
    {
        &self.names
    }

    /// A copy of the names in force, which is the spare one where there is one.
    fn draft(&mut self) -> Result<Names, AllocError>
        ensures draft { IfOk result (λ draft. draft ≡ self.old) }
        ensures kept { self.new ≡ self.old }
    {
        match self.spare.take() {
            Some(spare) => Ok(spare),
            None => self.names.duplicate(),
        }
    }

    /// Opens a block. It fails for want of memory alone, and then changes nothing.
    pub fn enter(&mut self) -> Result<(), AllocError>
        ensures entered { OnOk result (self.new ≡ spec.enter self.old) }
        ensures unchanged { OnErr result (self.new ≡ self.old) }
    {
        let mut draft = self.draft()?;
        draft.enter()?;
        self.spare = entered(mem::replace(&mut self.names, draft));
        Ok(())
    }

    /// Leaves the innermost block, where one is open. It takes no memory.
    pub fn leave(&mut self)
        ensures { self.new ≡ spec.leave self.old }
    {
        self.names.leave();
        if let Some(spare) = self.spare.take() {
            self.spare = Some(left(spare));
        }
    }

    /// Declares what a declaration declares in the innermost block (C99 6.7). It fails for want of memory alone, and then
    /// changes nothing.
    pub fn declare(&mut self, declaration: &Declaration) -> Result<DeclarationSaid, AllocError>
        ensures said { IfOk result (λ x. declares_in x self.new ≡ units.declaration_says declaration.now self.old) }
        ensures unchanged { OnErr result (self.new ≡ self.old) }
    {
        let mut draft = self.draft()?;
        let said = declaration_says(self.alloc, declaration, &mut draft)?;
        let before = mem::replace(&mut self.names, draft);
        self.spare = declared(self.alloc, declaration, before);
        Ok(said)
    }

    /// Declares what the head of a function definition declares (C99 6.9.1). It fails for want of memory alone, and then
    /// changes nothing.
    pub fn declare_function(
        &mut self,
        specified: &[Shared<Specifier>],
        named: &Declarator,
    ) -> Result<FunctionSaid, AllocError>
        ensures said { IfOk result (λ x. function_in x self.new ≡ units.function_says specified.now named.now self.old) }
        ensures unchanged { OnErr result (self.new ≡ self.old) }
    {
        let mut draft = self.draft()?;
        let said = head_said(self.alloc, specified, named, &mut draft)?;
        let before = mem::replace(&mut self.names, draft);
        self.spare = headed(self.alloc, specified, named, before);
        Ok(said)
    }
}
