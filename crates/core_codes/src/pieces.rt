//! Statements without substatements, and the parts of those with some.
ghost use Rattle.std.specs.Prelude.{◌≡◌, true, false, [], ◌∷◌, ◌++◌, Some, None, IfOk, option_map};
ghost use Rattle.c_means.specs.Notes.{noted};
ghost use Rattle.c_means.specs.Statements as form;
ghost use Rattle.c_language.specs.Typing.{type_in, value_in, used_told};
ghost use Rattle.c_means.specs.Operators.{kind_in};
ghost use Rattle.core_tree.specs.declared.code.Code.TheVariants as code;
ghost use Rattle.elaborate.specs.Types.{word_type};
ghost use Rattle.code_forms.specs.Nodes.{negative_node};
ghost use Rattle.core_codes.specs.Parts as spec;
ghost use Rattle.core_codes.specs.Parts.{alone, bare};

use crate::context::Context;
use crate::made::{Body, Made, SubBlock, in_front, led, parted};
use crate::parts::{Begun, Parts, Valued};
use c_language as tree;
use c_language::{ForStart, IntegerKind, Name, Tables, Told};
use c_type_forms as forms;
use c_type_scope::Scope;
use core_tree::{Code, Expr, LastingSetting};
use plain_data::{Items, Shared};
use std::alloc::{AllocError, Global};

/// An expression whose value is used, where there is one.
pub(crate) fn maybe_value<P: Parts>(
    alloc: Global,
    parts: &P,
    value: &Option<Shared<tree::Expr>>,
    scope: &mut Scope,
) -> Result<Option<Shared<Expr>>, AllocError>
    ensures { IfOk result (λ y. spec.MaybeWorth (P.numbering parts.now) y (option_map noted value.now) scope.old scope.new) }
{
    match value {
        Some(value) => {
            let Valued { value, .. } = parts.value(alloc, value.get(), scope)?;
            Ok(Some(value))
        }
        None => Ok(None),
    }
}

/// An expression whose value isn't used, where there is one.
pub(crate) fn maybe_effect<P: Parts>(
    alloc: Global,
    parts: &P,
    value: &Option<Shared<tree::Expr>>,
    scope: &mut Scope,
) -> Result<Option<Shared<Expr>>, AllocError>
    ensures { IfOk result (λ y. spec.MaybeDone (P.numbering parts.now) y (option_map noted value.now) scope.old scope.new) }
{
    match value {
        Some(value) => Ok(Some(parts.effect(alloc, value.get(), scope)?)),
        None => Ok(None),
    }
}

/// The first part of a `for` that is an expression.
fn first_value(alloc: Global, value: Option<Shared<Expr>>) -> Result<Begun, AllocError>
    ensures { IfOk result (λ y. y ≡ spec.first_begun value) }
{
    let mut codes = Items::new(alloc);
    if let Some(value) = value {
        codes.push(code_forms::first_part(alloc, value)?)?;
    }
    let settings = Items::new(alloc);
    Ok(Begun { codes, settings })
}

/// What a `for` begins with (C99 6.8.5.3).
fn begun_by<P: Parts>(
    alloc: Global,
    parts: &P,
    start: &ForStart,
    scope: &mut Scope,
) -> Result<Begun, AllocError>
    ensures { IfOk result (λ y. spec.IsBegun (P.numbering parts.now) y (form.begun_by start.now scope.old) scope.new) }
{
    match start {
        ForStart::Value { value } => {
            let value = maybe_effect(alloc, parts, value, scope)?;
            first_value(alloc, value)
        }
        ForStart::Declared { declaration } => parts.declaration(alloc, declaration, scope),
    }
}

/// The parts of a `for` that stand in front of its body.
#[derive(Drop)]
pub(crate) struct ForBegun {
    first: Begun,
    condition: Option<Shared<Expr>>,
    step: Option<Shared<Expr>>,
}

/// What stands in front of the body of a `for`, in order (C99 6.8.5.3).
pub(crate) fn for_begun<P: Parts>(
    alloc: Global,
    parts: &P,
    start: &ForStart,
    condition: &Option<Shared<tree::Expr>>,
    step: &Option<Shared<tree::Expr>>,
    scope: &mut Scope,
) -> Result<ForBegun, AllocError>
    ensures { IfOk result (λ y. spec.IsForBegun (P.numbering parts.now) scope.old (form.begun_by start.now) (option_map noted condition.now) (option_map noted step.now) y scope.new) }
{
    let first = begun_by(alloc, parts, start, scope)?;
    let condition = maybe_value(alloc, parts, condition, scope)?;
    let step = maybe_effect(alloc, parts, step, scope)?;
    Ok(ForBegun {
        first,
        condition,
        step,
    })
}

/// The condition of an `if`, and what is done where it isn't 0.
#[derive(Drop)]
pub(crate) struct IfBegun {
    pub condition: Shared<Expr>,
    pub positive: SubBlock,
}

/// A declaration, of these items. It takes no memory.
pub(crate) fn declared_made(alloc: Global, begun: Begun) -> Result<Made, AllocError>
    ensures { IfOk result (λ y. y ≡ record { codes = begun.codes; cases = []; settings = begun.settings }) }
{
    let Begun { codes, settings } = begun;
    Ok(Made {
        codes,
        cases: Items::new(alloc),
        settings,
    })
}

/// `value;`, and `;` alone.
pub(crate) fn effect_made(alloc: Global, value: Option<Shared<Expr>>) -> Result<Made, AllocError>
    ensures { IfOk result (λ y. y ≡ bare (spec.effect_node value)) }
{
    let code = match value {
        Some(value) => code_forms::effect(alloc, value)?,
        None => code_forms::empty(alloc)?,
    };
    Ok(Made::one(alloc, code)?)
}

/// `return`, with or without a value.
pub(crate) fn return_made(
    alloc: Global,
    x: Context,
    value: Option<Shared<Expr>>,
) -> Result<Made, AllocError>
    ensures { IfOk result (λ y. y ≡ bare (spec.return_node x.returned value)) }
{
    let code = match value {
        Some(value) => code_forms::value_return(alloc, x.returned, value)?,
        None => code_forms::bare_return(alloc)?,
    };
    Ok(Made::one(alloc, code)?)
}

pub(crate) fn goto_made(alloc: Global, name: &Name) -> Result<Made, AllocError>
    ensures { IfOk result (λ y. y ≡ bare (code.Goto name.now)) }
{
    let code = code_forms::goto_label(alloc, name.clone()?)?;
    Ok(Made::one(alloc, code)?)
}

pub(crate) fn continue_made(alloc: Global) -> Result<Made, AllocError>
    ensures { IfOk result (λ y. y ≡ bare code.Continue) }
{
    let code = code_forms::continue_loop(alloc)?;
    Ok(Made::one(alloc, code)?)
}

pub(crate) fn break_made(alloc: Global) -> Result<Made, AllocError>
    ensures { IfOk result (λ y. y ≡ bare code.Break) }
{
    let code = code_forms::break_out(alloc)?;
    Ok(Made::one(alloc, code)?)
}

/// A compound statement of these items.
pub(crate) fn compound_made(alloc: Global, items: Made) -> Result<Made, AllocError>
    ensures { IfOk result (λ y. y ≡ alone (code.Block true items.codes) [] items.settings) }
{
    let code = code_forms::compound(alloc, items.codes)?;
    Ok(Made::with_settings(alloc, code, items.settings)?)
}

/// A label, in front of a statement: it stands at the first of its items. It fails for want of memory alone.
pub(crate) fn label_made(alloc: Global, name: &Name, body: Made) -> Result<Made, AllocError>
    ensures { IfOk result (λ y. y ≡ spec.labeled_made (code.Label name.now) body.cases body) }
{
    let Made {
        codes,
        cases,
        settings,
    } = body;
    let (first, codes) = parted(alloc, codes)?;
    let code = code_forms::label(alloc, name.clone()?, first)?;
    let codes = led(alloc, code, codes)?;
    Ok(Made {
        codes,
        cases,
        settings,
    })
}

/// `default`, in front of a statement. It fails for want of memory alone.
pub(crate) fn default_made(alloc: Global, body: Made) -> Result<Made, AllocError>
    ensures { IfOk result (λ y. y ≡ spec.labeled_made code.Default body.cases body) }
{
    let Made {
        codes,
        cases,
        settings,
    } = body;
    let (first, codes) = parted(alloc, codes)?;
    let code = code_forms::default_label(alloc, first)?;
    let codes = led(alloc, code, codes)?;
    Ok(Made {
        codes,
        cases,
        settings,
    })
}

/// The value of a `case` as its `switch` compares it, where its expression is constant (C99 6.8.4.2p3); outside of one
/// its own (C99 6.8.1p2).
pub(crate) fn case_constant(x: Context, told: &Told) -> Option<i128>
    ensures { result ≡ form.case_value x.compared (value_in told.now.shown) }
{
    let constant = match &told.shown {
        Some(shown) => shown.value?,
        None => return None,
    };
    match x.compared {
        Some(compared) => Some(code_forms::case_value(compared, constant)),
        None => Some(constant),
    }
}

/// A `case` of this value, in front of a statement. It fails for want of memory alone.
fn valued_case(
    alloc: Global,
    value: i128,
    label: Shared<Expr>,
    body: Made,
) -> Result<Made, AllocError>
    ensures { IfOk result (λ y. y ≡ spec.labeled_made (code.Case value label) (value ∷ body.cases) body) }
{
    let Made {
        codes,
        cases,
        settings,
    } = body;
    let (first, codes) = parted(alloc, codes)?;
    let code = code_forms::case_label(alloc, value, label, first)?;
    let codes = led(alloc, code, codes)?;
    let cases = in_front(alloc, value, cases)?;
    Ok(Made {
        codes,
        cases,
        settings,
    })
}

/// `case`, in front of a statement; without a value it is the statement. It fails for want of memory alone.
pub(crate) fn case_made(
    alloc: Global,
    value: Option<i128>,
    label: Shared<Expr>,
    body: Made,
) -> Result<Made, AllocError>
    ensures { IfOk result (λ y. y ≡ spec.case_made value label body) }
{
    match value {
        Some(value) => valued_case(alloc, value, label, body),
        None => Ok(body),
    }
}

/// The block of an `else`, where there is one, and what is set in it. It takes no memory.
fn else_parts(
    alloc: Global,
    negative: Option<SubBlock>,
) -> (Option<Shared<Code>>, Items<LastingSetting>)
    ensures { result ≡ (spec.code_if negative, spec.settings_if negative) }
{
    match negative {
        Some(SubBlock { code, settings }) => (Some(code), settings),
        None => (None, Items::new(alloc)),
    }
}

pub(crate) fn if_made(
    alloc: Global,
    at: u32,
    begun: IfBegun,
    negative: Option<SubBlock>,
) -> Result<Made, AllocError>
    ensures { IfOk result (λ y. y ≡ alone (code.If at begun.condition begun.positive.code (negative_node (spec.code_if negative))) [] (begun.positive.settings ++ spec.settings_if negative)) }
{
    let IfBegun {
        condition,
        positive,
    } = begun;
    let SubBlock { code, mut settings } = positive;
    let (negative, more) = else_parts(alloc, negative);
    settings.append(more)?;
    let code = code_forms::if_else(alloc, at, condition, code, negative)?;
    Ok(Made::with_settings(alloc, code, settings)?)
}

/// The type in which a `switch` compares (C99 6.8.4.2p5).
pub(crate) fn compared_in(
    alloc: Global,
    tables: &Tables,
    told: Told,
) -> Result<IntegerKind, AllocError>
    ensures { IfOk result (λ kind. kind ≡ form.compared_in (kind_in (type_in (used_told tables.now told).shown))) }
{
    let used = forms::used(alloc, tables, told)?;
    Ok(code_forms::compared_kind(&used))
}

pub(crate) fn switch_made(
    alloc: Global,
    at: u32,
    compared: IntegerKind,
    value: Shared<Expr>,
    body: Body,
) -> Result<Made, AllocError>
    ensures { IfOk result (λ y. y ≡ alone (code.Switch at (word_type compared) body.content.cases value body.content.is_compound body.content.items) [] body.settings) }
{
    let Body { content, settings } = body;
    let code = code_forms::switch(alloc, at, compared, value, content)?;
    Ok(Made::with_settings(alloc, code, settings)?)
}

pub(crate) fn while_made(
    alloc: Global,
    at: u32,
    condition: Shared<Expr>,
    body: SubBlock,
) -> Result<Made, AllocError>
    ensures { IfOk result (λ y. y ≡ alone (code.Loop at (Some condition) None body.code) [] body.settings) }
{
    let SubBlock { code, settings } = body;
    let code = code_forms::while_loop(alloc, at, condition, code)?;
    Ok(Made::with_settings(alloc, code, settings)?)
}

pub(crate) fn do_made(
    alloc: Global,
    at: u32,
    body: SubBlock,
    condition: Shared<Expr>,
) -> Result<Made, AllocError>
    ensures { IfOk result (λ y. y ≡ alone (code.Repeat at condition body.code) [] body.settings) }
{
    let SubBlock { code, settings } = body;
    let code = code_forms::do_loop(alloc, at, code, condition)?;
    Ok(Made::with_settings(alloc, code, settings)?)
}

pub(crate) fn for_made(
    alloc: Global,
    at: u32,
    begun: ForBegun,
    body: SubBlock,
) -> Result<Made, AllocError>
    ensures { IfOk result (λ y. y ≡ alone (code.Block false (begun.first.codes ++ code.Loop at begun.condition begun.step body.code ∷ [])) [] (begun.first.settings ++ body.settings)) }
{
    let ForBegun {
        first,
        condition,
        step,
    } = begun;
    let Begun {
        codes,
        mut settings,
    } = first;
    settings.append(body.settings)?;
    let turns = code_forms::for_turns(alloc, at, condition, step, body.code)?;
    let code = code_forms::for_block(alloc, codes, turns)?;
    Ok(Made::with_settings(alloc, code, settings)?)
}
