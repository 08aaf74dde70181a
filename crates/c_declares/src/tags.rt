//! Tags (C99 6.7.2.3), and where a list of members or enumerators begins and ends.

ghost use Rattle.std.specs.Prelude.{◌≡◌, ◌++◌, [], cond, IfOk, OnOk};
ghost use Rattle.c_language.specs.Layouts.{finished};
ghost use Rattle.c_language.specs.Scopes as scopes;
ghost use Rattle.c_language.specs.Typing.{fault_at};
ghost use Rattle.c_language.specs.Declares as spec;
ghost use Rattle.c_declares.specs.Views.{said_in, begun_in, laid_in, counting_in};

use crate::enumerations::Counting;
use crate::members::{Laid, form_of};
use crate::said::Said;
use c_language::{
    Aggregate, AggregateForm, AggregateKind, Base, CType, Content, Fault, Layout, Name,
    OpaqueCause, Rule, Tag, TagMeans, TagName,
};
use c_type_scope::Scope;
use plain_data::{Items, Shared};
use std::alloc::{AllocError, Global};
use std::mem;

/// The number of the type that a list of members or enumerators completes, and the faults in front of its first one.
#[derive(Drop)]
pub struct Begun {
    pub number: u32,
    pub faults: Items<Fault>,
}

impl Said {
    /// `struct tag` or `union tag` without members: the type of that tag in force, or a new one (C99 6.7.2.3p7, p8). It
    /// fails for want of memory alone.
    pub fn add_tag(
        &mut self,
        alloc: Global,
        at: u32,
        kind: AggregateKind,
        tag: &TagName,
        scope: &mut Scope,
    ) -> Result<(), AllocError>
        ensures { OnOk result (said_in self.new scope.new ≡ spec.refers (spec.form_of kind) tag.now (spec.referred_tag self.old.alone scope.old tag.now.name) (spec.started at (said_in self.old scope.old))) }
    {
        self.start_at(at);
        match referred_tag(self.alone, scope, tag.name.get().as_slice())? {
            Some(known) => { self.refer_to(alloc, form_of(kind), tag.at, known.get().means, scope) }
            None => self.declare_tag(alloc, form_of(kind), &tag.name, scope),
        }
    }

    /// A new structure or union, incomplete, with this tag.
    fn declare_tag(
        &mut self,
        alloc: Global,
        form: AggregateForm,
        name: &Name,
        scope: &mut Scope,
    ) -> Result<(), AllocError>
        ensures { OnOk result (said_in self.new scope.new ≡ spec.declares_tag form name.now (said_in self.old scope.old)) }
    {
        let number = scope.add_aggregate(form)?;
        declare_tag(alloc, name, TagMeans::Aggregate(number), false, scope)?;
        self.whole = Some(Some(CType::basic(alloc, Base::Aggregate(number))));
        Ok(())
    }

    /// A tag stands for one kind of type (C99 6.7.2.3p2).
    fn refer_to(
        &mut self,
        alloc: Global,
        form: AggregateForm,
        at: u32,
        means: TagMeans,
        scope: &Scope,
    ) -> Result<(), AllocError>
        ensures { OnOk result (said_in self.new scope.now ≡ spec.refers_to form at means (said_in self.old scope.now)) }
    {
        match means {
            TagMeans::Aggregate(number) => {
                let aggregates = scope.tables().aggregates.as_slice();
                if same_form(form, form_at(aggregates, number)) {
                    self.whole = Some(Some(CType::basic(alloc, Base::Aggregate(number))));
                    Ok(())
                } else {
                    self.refuse(at, Rule::DuplicateDefinition)
                }
            }
            TagMeans::Enumerated(_) => self.refuse(at, Rule::DuplicateDefinition),
        }
    }

    /// `enum tag` without enumerators (C99 6.7.2.3p2). It fails for want of memory alone.
    pub fn add_enumeration_tag(
        &mut self,
        alloc: Global,
        at: u32,
        tag: &TagName,
        scope: &Scope,
    ) -> Result<(), AllocError>
        ensures { OnOk result (said_in self.new scope.now ≡ spec.enumeration_tag tag.now.at (scopes.tag_of scope.now tag.now.name) (spec.started at (said_in self.old scope.now))) }
    {
        self.start_at(at);
        match scope.tag_of(tag.name.get().as_slice()) {
            Some(known) => self.refer_to_enumeration(alloc, tag.at, known.get().means),
            None => self.refuse(tag.at, Rule::Undeclared),
        }
    }

    fn refer_to_enumeration(
        &mut self,
        alloc: Global,
        at: u32,
        means: TagMeans,
    ) -> Result<(), AllocError>
        ensures { (scope : scopes.Scope) → OnOk result (said_in self.new scope ≡ spec.refers_to_enumeration at means (said_in self.old scope)) }
    {
        match means {
            TagMeans::Enumerated(number) => {
                self.whole = Some(Some(CType::basic(alloc, Base::Enumerated(number))));
                Ok(())
            }
            TagMeans::Aggregate(_) => self.refuse(at, Rule::DuplicateDefinition),
        }
    }

    /// Begins the list of members of a structure or union, which takes the faults so far. It fails for want of memory
    /// alone.
    pub fn begin_members(
        &mut self,
        alloc: Global,
        at: u32,
        kind: AggregateKind,
        tag: &Option<TagName>,
        scope: &mut Scope,
    ) -> Result<Begun, AllocError>
        ensures begun { IfOk result (λ b. begun_in b scope.new ≡ spec.begins (spec.form_of kind) tag.now self.old.faults scope.old) }
        ensures said { OnOk result (self.new ≡ record self.old { start = spec.started_at self.old.start at; faults = [] }) }
    {
        self.start_at(at);
        let faults = mem::replace(&mut self.faults, Items::new(alloc));
        begins(alloc, form_of(kind), tag, faults, scope)
    }

    /// Ends the list of members of the structure or union of a number: the type is complete, or opaque. It takes no memory.
    pub fn end_members(
        &mut self,
        alloc: Global,
        kind: AggregateKind,
        number: u32,
        laid: Laid,
        scope: &mut Scope,
    )
        ensures { said_in self.new scope.new ≡ spec.ends_members (spec.form_of kind) number (laid_in laid scope.old) (said_in self.old scope.old) }
    {
        let Laid {
            layout,
            has_bits,
            is_opaque,
            faults,
            ..
        } = laid;
        let content = content_laid(layout, has_bits, is_opaque);
        scope.set_content(number, form_of(kind), content);
        self.whole = Some(Some(CType::basic(alloc, Base::Aggregate(number))));
        self.faults = faults;
    }

    /// Begins a list of enumerators, which takes the faults so far. It fails for want of memory alone.
    pub fn begin_enumerators(
        &mut self,
        alloc: Global,
        at: u32,
        tag: &Option<TagName>,
        scope: &mut Scope,
    ) -> Result<Begun, AllocError>
        ensures begun { IfOk result (λ b. begun_in b scope.new ≡ spec.begins_enumeration tag.now self.old.faults scope.old) }
        ensures said { OnOk result (self.new ≡ record self.old { start = spec.started_at self.old.start at; faults = [] }) }
    {
        self.start_at(at);
        let faults = mem::replace(&mut self.faults, Items::new(alloc));
        begins_enumeration(alloc, tag, faults, scope)
    }

    /// Ends the list of enumerators of the enumerated type of a number. It takes no memory.
    pub fn end_enumerators(
        &mut self,
        alloc: Global,
        number: u32,
        counting: Counting,
        scope: &mut Scope,
    )
        ensures { said_in self.new scope.new ≡ spec.ends_enumerators number (counting_in counting scope.old) (said_in self.old scope.old) }
    {
        let Counting { faults, .. } = counting;
        scope.set_enumerators(number);
        self.whole = Some(Some(CType::basic(alloc, Base::Enumerated(number))));
        self.faults = faults;
    }
}

/// Declares a tag in the innermost block.
fn declare_tag(
    alloc: Global,
    name: &Name,
    means: TagMeans,
    is_listed: bool,
    scope: &mut Scope,
) -> Result<(), AllocError>
    ensures { OnOk result (scope.new ≡ scopes.with_tag name.now means is_listed scope.old) }
{
    let tag = Tag {
        name: name.clone()?,
        means,
        is_listed,
    };
    scope.declare_tag(Shared::new(alloc, tag)?)
}

/// A tag of the innermost block, which shares it.
fn own_tag(scope: &Scope, name: &[u8]) -> Result<Option<Shared<Tag>>, AllocError>
    ensures { IfOk result (λ tag. tag ≡ scopes.own_tag scope.now name.now) }
{
    match scope.own_tag(name) {
        Some(tag) => Ok(Some(tag.clone()?)),
        None => Ok(None),
    }
}

/// A tag of the innermost block, or of any where declarators follow (C99 6.7.2.3p7, p8).
fn referred_tag(alone: bool, scope: &Scope, name: &[u8]) -> Result<Option<Shared<Tag>>, AllocError>
    ensures { IfOk result (λ tag. tag ≡ spec.referred_tag alone scope.now name.now) }
{
    if alone {
        return own_tag(scope, name);
    }
    match scope.tag_of(name) {
        Some(tag) => Ok(Some(tag.clone()?)),
        None => Ok(None),
    }
}

fn same_form(form: AggregateForm, other: AggregateForm) -> bool
    ensures { result ≡ spec.same_form form other }
{
    match form {
        AggregateForm::Structure => matches!(other, AggregateForm::Structure),
        AggregateForm::Union => matches!(other, AggregateForm::Union),
    }
}

#[tactic(auto, using(crate::proofs::TagForms::form_at_in, crate::proofs::TagForms::form_at_past))]
fn form_at(aggregates: &[Aggregate], number: u32) -> AggregateForm
    ensures { result ≡ spec.form_at aggregates.now number }
{
    match aggregates.get(number as usize) {
        Some(aggregate) => aggregate.form,
        None => AggregateForm::Structure,
    }
}

/// The number that a list of members completes (C99 6.7.2.3p4 to p6).
fn begins(
    alloc: Global,
    form: AggregateForm,
    tag: &Option<TagName>,
    faults: Items<Fault>,
    scope: &mut Scope,
) -> Result<Begun, AllocError>
    ensures { IfOk result (λ b. begun_in b scope.new ≡ spec.begins form tag.now faults scope.old) }
{
    match tag {
        Some(tag) => begun_as(alloc, form, tag, faults, scope),
        None => {
            let number = scope.add_aggregate(form)?;
            Ok(Begun { number, faults })
        }
    }
}

fn begun_as(
    alloc: Global,
    form: AggregateForm,
    tag: &TagName,
    faults: Items<Fault>,
    scope: &mut Scope,
) -> Result<Begun, AllocError>
    ensures { IfOk result (λ b. begun_in b scope.new ≡ spec.begun_as form tag.now (scopes.own_tag scope.old tag.now.name) faults scope.old) }
{
    match own_tag(scope, tag.name.get().as_slice())? {
        Some(known) => begun_again(
            alloc,
            form,
            tag,
            known.get().is_listed,
            known.get().means,
            faults,
            scope,
        ),
        None => newly_tagged(alloc, form, &tag.name, faults, scope),
    }
}

/// A list behind a tag that this block has declared.
fn begun_again(
    alloc: Global,
    form: AggregateForm,
    tag: &TagName,
    is_listed: bool,
    means: TagMeans,
    faults: Items<Fault>,
    scope: &mut Scope,
) -> Result<Begun, AllocError>
    ensures { IfOk result (λ b. begun_in b scope.new ≡ spec.begun_again form tag.now is_listed means faults scope.old) }
{
    if is_listed {
        return tagged_twice(alloc, form, tag, faults, scope);
    }
    match means {
        TagMeans::Aggregate(number) => {
            if same_form(form, form_at(scope.tables().aggregates.as_slice(), number)) {
                listed_now(alloc, &tag.name, number, faults, scope)
            } else {
                tagged_twice(alloc, form, tag, faults, scope)
            }
        }
        TagMeans::Enumerated(_) => tagged_twice(alloc, form, tag, faults, scope),
    }
}

/// A new type, whose tag hides that of an outer block.
fn newly_tagged(
    alloc: Global,
    form: AggregateForm,
    name: &Name,
    faults: Items<Fault>,
    scope: &mut Scope,
) -> Result<Begun, AllocError>
    ensures { IfOk result (λ b. begun_in b scope.new ≡ spec.newly_tagged form name.now faults scope.old) }
{
    let number = scope.add_aggregate(form)?;
    declare_tag(alloc, name, TagMeans::Aggregate(number), true, scope)?;
    Ok(Begun { number, faults })
}

/// A new type, whose tag stands for another already.
fn tagged_twice(
    alloc: Global,
    form: AggregateForm,
    tag: &TagName,
    faults: Items<Fault>,
    scope: &mut Scope,
) -> Result<Begun, AllocError>
    ensures { IfOk result (λ b. begun_in b scope.new ≡ spec.newly_tagged form tag.now.name (faults ++ fault_at tag.now.at Rule.DuplicateDefinition) scope.old) }
{
    let mut faults = faults;
    faults.push(Fault {
        at: tag.at,
        rule: Rule::DuplicateDefinition,
    })?;
    newly_tagged(alloc, form, &tag.name, faults, scope)
}

/// The type that this tag already stands for in this block.
fn listed_now(
    alloc: Global,
    name: &Name,
    number: u32,
    faults: Items<Fault>,
    scope: &mut Scope,
) -> Result<Begun, AllocError>
    ensures { IfOk result (λ b. begun_in b scope.new ≡ spec.listed_now name.now number faults scope.old) }
{
    declare_tag(alloc, name, TagMeans::Aggregate(number), true, scope)?;
    Ok(Begun { number, faults })
}

/// A bit-field, a member without a field and an opaque member leave the layout unknown.
fn content_laid(layout: Layout, has_bits: bool, is_opaque: bool) -> Content
    ensures { result ≡ cond has_bits (Content.Opaque OpaqueCause.BitField) (spec.opaque_where is_opaque (Content.Complete (finished layout))) }
{
    if has_bits {
        Content::Opaque(OpaqueCause::BitField)
    } else if is_opaque {
        Content::Opaque(OpaqueCause::Other)
    } else {
        let mut layout = layout;
        layout.finish();
        Content::Complete(layout)
    }
}

/// The number that a list of enumerators completes (C99 6.7.2.2).
fn begins_enumeration(
    alloc: Global,
    tag: &Option<TagName>,
    faults: Items<Fault>,
    scope: &mut Scope,
) -> Result<Begun, AllocError>
    ensures { IfOk result (λ b. begun_in b scope.new ≡ spec.begins_enumeration tag.now faults scope.old) }
{
    match tag {
        Some(tag) => tagged_enumeration(alloc, tag, faults, scope),
        None => {
            let number = scope.add_enumeration()?;
            Ok(Begun { number, faults })
        }
    }
}

/// A tag may be declared once in a block (C99 6.7.2.3p1).
fn enumeration_faults(
    scope: &Scope,
    tag: &TagName,
    faults: Items<Fault>,
) -> Result<Items<Fault>, AllocError>
    ensures { IfOk result (λ all. all ≡ faults ++ spec.enumeration_faults tag.now.at (scopes.own_tag scope.now tag.now.name)) }
{
    match scope.own_tag(tag.name.get().as_slice()) {
        Some(_) => {
            let mut faults = faults;
            faults.push(Fault {
                at: tag.at,
                rule: Rule::DuplicateDefinition,
            })?;
            Ok(faults)
        }
        None => Ok(faults),
    }
}

fn tagged_enumeration(
    alloc: Global,
    tag: &TagName,
    faults: Items<Fault>,
    scope: &mut Scope,
) -> Result<Begun, AllocError>
    ensures { IfOk result (λ b. begun_in b scope.new ≡ spec.begins_enumeration (Some tag.now) faults scope.old) }
{
    let faults = enumeration_faults(scope, tag, faults)?;
    let number = scope.add_enumeration()?;
    declare_tag(alloc, &tag.name, TagMeans::Enumerated(number), true, scope)?;
    Ok(Begun { number, faults })
}
