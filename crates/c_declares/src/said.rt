//! What declaration specifiers say (C99 6.7), each behind what was said before it.

ghost use Rattle.std.specs.Prelude.{◌≡◌, ◌++◌, [], ◌∷◌, true, false, IfOk, OnOk};
ghost use Rattle.c_language.specs.Types.{unqualified, with_both};
ghost use Rattle.c_language.specs.Scopes as scopes;
ghost use Rattle.c_language.specs.Typing.{fault_at};
ghost use Rattle.c_language.specs.Declares as spec;
ghost use Rattle.c_declares.specs.Views.{said_in};

use crate::words::type_of_words;
use c_language::{CType, Fault, Means, Name, Qualifier, Qualifiers, Rule, StorageClass, TypeWord};
use c_type_scope::Scope;
use plain_data::Items;
use std::alloc::{AllocError, Global};

/// What specifiers say, apart from the scope behind them. `alone` tells that no declarator follows, `start` is the byte
/// offset of the first one. `whole` is the type that a tag or a typedef name says: `Some(None)` where a part breaks a
/// rule.
#[derive(Drop)]
pub struct Said {
    pub alone: bool,
    pub start: Option<u32>,
    pub storage: Option<StorageClass>,
    pub is_inline: bool,
    pub qualifiers: Qualifiers,
    pub words: Items<TypeWord>,
    pub whole: Option<Option<CType>>,
    pub faults: Items<Fault>,
}

impl Said {
    /// Nothing said yet, behind some faults. It takes no memory.
    pub fn new(alloc: Global, alone: bool, faults: Items<Fault>) -> Said
        ensures { result ≡ record { alone = alone; start = None; storage = None; is_inline = false; qualifiers = unqualified; words = []; whole = None; faults = faults } }
    {
        Said {
            alone,
            start: None,
            storage: None,
            is_inline: false,
            qualifiers: Qualifiers::NONE,
            words: Items::new(alloc),
            whole: None,
            faults,
        }
    }

    /// A storage-class specifier (C99 6.7.1).
    pub fn add_storage(&mut self, at: u32, class: StorageClass)
        ensures { self.new ≡ record self.old { start = spec.started_at self.old.start at; storage = Some class } }
    {
        self.start_at(at);
        self.storage = Some(class);
    }

    /// A type qualifier (C99 6.7.3).
    pub fn add_qualifier(&mut self, at: u32, qualifier: Qualifier)
        ensures { self.new ≡ record self.old { start = spec.started_at self.old.start at; qualifiers = with_both self.old.qualifiers (spec.of_qualifier qualifier) } }
    {
        self.start_at(at);
        self.qualifiers = self.qualifiers.with(of_qualifier(qualifier));
    }

    /// The function specifier `inline` (C99 6.7.4).
    pub fn add_inline(&mut self, at: u32)
        ensures { self.new ≡ record self.old { start = spec.started_at self.old.start at; is_inline = true } }
    {
        self.start_at(at);
        self.is_inline = true;
    }

    /// A type specifier that is a word (C99 6.7.2). It fails for want of memory alone.
    pub fn add_word(&mut self, at: u32, word: TypeWord) -> Result<(), AllocError>
        ensures { OnOk result (self.new ≡ record self.old { start = spec.started_at self.old.start at; words = self.old.words ++ word ∷ [] }) }
    {
        self.words.push(word)?;
        self.start_at(at);
        Ok(())
    }

    /// A typedef name (C99 6.7.7), by its declaration in force. It fails for want of memory alone.
    pub fn add_typedef_name(
        &mut self,
        alloc: Global,
        at: u32,
        name: &Name,
        scope: &Scope,
    ) -> Result<(), AllocError>
        ensures { OnOk result (said_in self.new scope.now ≡ spec.typedef_in at (scopes.look_up scope.now name.now) (spec.started at (said_in self.old scope.now))) }
    {
        self.start_at(at);
        match scope.look_up(name.get().as_slice()) {
            Some(entry) => self.add_typedef(alloc, at, &entry.get().means),
            None => self.refuse(at, Rule::Undeclared),
        }
    }

    fn add_typedef(&mut self, alloc: Global, at: u32, means: &Means) -> Result<(), AllocError>
        ensures { (scope : scopes.Scope) → OnOk result (said_in self.new scope ≡ spec.typedef_of at means.now (said_in self.old scope)) }
    {
        match means {
            Means::Typedef { ctype } => {
                self.whole = Some(Some(ctype.get().duplicate(alloc)?));
                Ok(())
            }
            Means::Faulty => {
                self.whole = Some(None);
                Ok(())
            }
            Means::Object { .. } => self.refuse(at, Rule::Undeclared),
            Means::Function { .. } => self.refuse(at, Rule::Undeclared),
            Means::Constant { .. } => self.refuse(at, Rule::Undeclared),
        }
    }

    /// The type that all specifiers specify, with its qualifiers (C99 6.7.3p3): none where a part breaks a rule. It fails
    /// for want of memory alone.
    pub fn specified(&self, alloc: Global) -> Result<Option<CType>, AllocError>
        ensures { (scope : scopes.Scope) → IfOk result (λ t. t ≡ spec.specified (said_in self.now scope)) }
    {
        match &self.whole {
            None => {
                let ctype = type_of_words(alloc, self.words.as_slice());
                Ok(Some(ctype.qualified(self.qualifiers)))
            }
            Some(None) => Ok(None),
            Some(Some(ctype)) => Ok(Some(ctype.duplicate(alloc)?.qualified(self.qualifiers))),
        }
    }

    /// A specifier that breaks a rule.
    pub(crate) fn refuse(&mut self, at: u32, rule: Rule) -> Result<(), AllocError>
        ensures { OnOk result (self.new ≡ record self.old { whole = Some None; faults = self.old.faults ++ fault_at at rule }) }
    {
        self.faults.push(Fault { at, rule })?;
        self.whole = Some(None);
        Ok(())
    }

    pub(crate) fn start_at(&mut self, at: u32)
        ensures { self.new ≡ record self.old { start = spec.started_at self.old.start at } }
    {
        self.start = match self.start {
            Some(start) => Some(start),
            None => Some(at),
        };
    }
}

/// The qualifiers that one word says.
pub(crate) fn of_qualifier(qualifier: Qualifier) -> Qualifiers
    ensures { result ≡ spec.of_qualifier qualifier }
{
    match qualifier {
        Qualifier::Const => Qualifiers {
            is_const: true,
            is_volatile: false,
            is_restrict: false,
        },
        Qualifier::Restrict => Qualifiers {
            is_const: false,
            is_volatile: false,
            is_restrict: true,
        },
        Qualifier::Volatile => Qualifiers {
            is_const: false,
            is_volatile: true,
            is_restrict: false,
        },
    }
}
