//! What declarators say (C99 6.7.5), derivation by derivation from the name outward.

ghost use Rattle.std.specs.Prelude.{◌≡◌, ◌++◌, [], ◌∷◌, IfOk, OnOk};
ghost use Rattle.c_language.specs.Types.{with_both};
ghost use Rattle.c_language.specs.Scopes as scopes;
ghost use Rattle.c_language.specs.Typing.{typed_in};
ghost use Rattle.c_language.specs.Declares as spec;
ghost use Rattle.c_declares.specs.Views.{formed_in, counted_in, listed_in};

use crate::constants::value_of;
use crate::parameters::{Listed, add_signature, has_no_parameter};
use crate::said::of_qualifier;
use crate::types::NOT_CONSTANT;
use c_language::{
    ArrayWord, Derivation, Fault, Name, Prototype, Qualifier, Qualifiers, Shown, Told,
};
use c_type_scope::{Block, Scope};
use plain_data::Items;
use std::alloc::{AllocError, Global};

/// What the parameters of a function declarator declare in a scope of their own, and whether each has a name.
#[derive(Drop)]
pub struct Parameters {
    pub block: Block,
    pub are_named: bool,
}

/// What a declarator says, apart from the scope behind it: the name with its byte offset, and the derivations, the
/// outermost first, where no part breaks a rule. `brackets` are the qualifiers between the brackets of an outermost array;
/// `inside` is of the outermost function.
#[derive(Drop)]
pub struct Formed {
    pub name: Option<(u32, Name)>,
    pub derivations: Option<Items<Derivation>>,
    pub brackets: Qualifiers,
    pub inside: Option<Parameters>,
    pub faults: Items<Fault>,
}

/// The length of an array: none given, a constant from 0, or no derivation where it breaks a rule.
#[derive(Drop)]
pub struct Counted {
    pub step: Option<Derivation>,
    pub faults: Items<Fault>,
}

impl Counted {
    /// No length is given. It takes no memory.
    pub fn new(alloc: Global) -> Counted
        ensures { result ≡ record { step = Some (Derivation.Array None); faults = [] } }
    {
        Counted {
            step: Some(Derivation::Array(None)),
            faults: Items::new(alloc),
        }
    }

    /// The length that an expression gives (C99 6.7.5.2p1). It fails for want of memory alone: a length from 2^64, which
    /// no constant of C has, is one.
    pub fn by(length: Told) -> Result<Counted, AllocError>
        ensures { (scope : scopes.Scope) → IfOk result (λ n. counted_in n scope ≡ spec.counted_by (typed_in length scope)) }
    {
        let Told { at, shown, faults } = length;
        let mut faults = faults;
        let step = length_of(value_of(&shown))?;
        add_length_fault(at, &shown, step, &mut faults)?;
        Ok(Counted { step, faults })
    }
}

fn length_of(value: Option<i128>) -> Result<Option<Derivation>, AllocError>
    ensures { IfOk result (λ step. step ≡ spec.length_of value) }
{
    match value {
        Some(z) => {
            if z < 0 {
                Ok(None)
            } else if z <= 0xffff_ffff_ffff_ffff {
                Ok(Some(Derivation::Array(Some(z as u64))))
            } else {
                Err(AllocError)
            }
        }
        None => Ok(None),
    }
}

fn add_length_fault(
    at: u32,
    shown: &Option<Shown>,
    step: Option<Derivation>,
    faults: &mut Items<Fault>,
) -> Result<(), AllocError>
    ensures { OnOk result (faults.new ≡ faults.old ++ spec.length_faults_of at shown.now step) }
{
    match (shown, step) {
        (Some(_), None) => faults.push(Fault {
            at,
            rule: NOT_CONSTANT,
        }),
        _ => Ok(()),
    }
}

impl Formed {
    /// A name, or none where the declarator is abstract. It takes no memory.
    pub fn new(alloc: Global, name: Option<(u32, Name)>) -> Formed
        ensures { (scope : scopes.Scope) → formed_in result scope ≡ spec.named name scope }
    {
        Formed {
            name,
            derivations: Some(Items::new(alloc)),
            brackets: Qualifiers::NONE,
            inside: None,
            faults: Items::new(alloc),
        }
    }

    /// A pointer (C99 6.7.5.1p1). It fails for want of memory alone.
    pub fn add_pointer(&mut self, qualifiers: &[Qualifier]) -> Result<(), AllocError>
        ensures { (scope : scopes.Scope) → OnOk result (formed_in self.new scope ≡ spec.to_pointer qualifiers.now (formed_in self.old scope)) }
    {
        self.derive(Some(Derivation::Pointer(all_qualifiers(qualifiers))))
    }

    /// An array (C99 6.7.5.2). It fails for want of memory alone.
    pub fn add_array(&mut self, words: &[ArrayWord], length: Counted) -> Result<(), AllocError>
        ensures { (before : scopes.Scope) (scope : scopes.Scope) → OnOk result (formed_in self.new scope ≡ spec.to_array (spec.qualifiers_among words.now) (formed_in self.old before) (counted_in length scope)) }
    {
        let Counted { step, faults } = length;
        self.faults.append(faults)?;
        self.brackets = bracket_qualifiers(
            &self.derivations,
            self.brackets,
            qualifiers_among(words),
        );
        self.derive(step)
    }

    /// A function (C99 6.7.5.3), behind its parameters in the block that is open: it is left. It fails for want of memory
    /// alone.
    pub fn add_function(
        &mut self,
        alloc: Global,
        prototype: Prototype,
        listed: Listed,
        scope: &mut Scope,
    ) -> Result<(), AllocError>
        ensures { (before : scopes.Scope) → OnOk result (formed_in self.new scope.new ≡ spec.to_function prototype (formed_in self.old before) (listed_in listed scope.old)) }
    {
        let Listed {
            types,
            are_named,
            faults,
        } = listed;
        self.faults.append(faults)?;
        let block = scope.leave_with()?;
        let are_named = are_named || has_no_parameter(&types);
        self.add_inside(Parameters { block, are_named });
        let step = add_signature(alloc, prototype, types, scope)?;
        self.derive(step)
    }

    /// One more derivation, where the declarator breaks no rule.
    fn derive(&mut self, step: Option<Derivation>) -> Result<(), AllocError>
        ensures { OnOk result (self.new ≡ record self.old { derivations = spec.then_derivation self.old.derivations step }) }
    {
        let derivations = self.derivations.take();
        self.derivations = then_derivation(derivations, step)?;
        Ok(())
    }

    /// Notes the parameters of a function, where none is nearer to the name.
    fn add_inside(&mut self, parameters: Parameters)
        ensures { self.new ≡ record self.old { inside = scopes.or_else self.old.inside (Some parameters) } }
    {
        match self.inside.take() {
            Some(nearer) => self.inside = Some(nearer),
            None => self.inside = Some(parameters),
        }
    }
}

fn then_derivation(
    derivations: Option<Items<Derivation>>,
    step: Option<Derivation>,
) -> Result<Option<Items<Derivation>>, AllocError>
    ensures { IfOk result (λ all. all ≡ spec.then_derivation derivations step) }
{
    match (derivations, step) {
        (Some(derivations), Some(step)) => {
            let mut derivations = derivations;
            derivations.push(step)?;
            Ok(Some(derivations))
        }
        _ => Ok(None),
    }
}

/// The qualifiers that words say together.
#[tactic(auto, using(crate::proofs::Together::both_assoc, crate::proofs::Together::both_none))]
fn all_qualifiers(qualifiers: &[Qualifier]) -> Qualifiers
    ensures { result ≡ spec.all_qualifiers qualifiers.now }
{
    let mut all = Qualifiers::NONE;
    for qualifier in qualifiers {
        all = all.with(of_qualifier(*qualifier));
    }
    all
}

#[tactic(auto, using(crate::proofs::Together::both_assoc, crate::proofs::Together::both_none))]
fn qualifiers_among(words: &[ArrayWord]) -> Qualifiers
    ensures { result ≡ spec.qualifiers_among words.now }
{
    let mut all = Qualifiers::NONE;
    for word in words {
        all = with_word(all, *word);
    }
    all
}

fn with_word(qualifiers: Qualifiers, word: ArrayWord) -> Qualifiers
    ensures { result ≡ with_both qualifiers (spec.qualifiers_among (word ∷ [])) }
{
    match word {
        ArrayWord::Qualifier(qualifier) => qualifiers.with(of_qualifier(qualifier)),
        ArrayWord::Static => qualifiers,
    }
}

/// The qualifiers between the brackets of the outermost derivation, where it is an array.
fn bracket_qualifiers(
    derivations: &Option<Items<Derivation>>,
    old: Qualifiers,
    new: Qualifiers,
) -> Qualifiers
    ensures { result ≡ spec.bracket_qualifiers derivations.now old new }
{
    match derivations {
        Some(derivations) => match derivations.as_slice().first() {
            Some(_) => old,
            None => new,
        },
        None => old,
    }
}
