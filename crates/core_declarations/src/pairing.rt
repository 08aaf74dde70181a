//! What the expressions of an initializer set (C99 6.7.8): the first sets the first of the parts that are filled, and
//! so on. Where an expression fills none, it breaks a rule (C99 6.7.8p2), and waits for a part with those behind it.
ghost use Rattle.std.specs.Prelude.{◌≡◌, ◌++◌, ◌∷◌, [], ◌&&◌, List, IfOk};
ghost use Rattle.c_language.specs.Initials as braces;
ghost use Rattle.c_language.specs.Types.{element_of};
ghost use Rattle.c_means.specs.Notes.{Noted};
ghost use Rattle.elaborate.specs.Means.{Numbering};
ghost use Rattle.core_declarations.specs.Pairing as spec;

use c_initials::Part;
use c_language::{CType, Tables, Told};
use c_type_scope::Scope;
use code_forms::{text_setting, value_setting};
use core_tree::{Expr, Setting};
use plain_data::{Bytes, Items, Shared};
use std::alloc::{AllocError, Global};

// ---- one expression

/// An expression of an initializer: whether it is a string literal, the core of its value, and its bytes where it is a
/// literal.
#[derive(Drop)]
pub(crate) struct Source {
    pub(crate) is_literal: bool,
    pub(crate) value: Shared<Expr>,
    pub(crate) text: Option<Bytes>,
}

pub(crate) fn is_literal(told: &Told) -> bool
    ensures { result ≡ braces.is_literal_in told.now.shown }
{
    match &told.shown {
        None => false,
        Some(shown) => shown.is_literal,
    }
}

fn is_byte_type(ctype: &Option<CType>) -> bool
    ensures { result ≡ braces.is_byte_type ctype.now }
{
    match ctype {
        None => false,
        Some(ctype) => match ctype.kind() {
            None => false,
            Some(kind) => kind.bytes() == 1,
        },
    }
}

/// Whether a string literal initialises a whole array of characters of this type (C99 6.7.8p14).
fn is_text(alloc: Global, literal: bool, ctype: &CType) -> Result<bool, AllocError>
    ensures { IfOk result (λ b. b ≡ (literal && braces.is_byte_type (element_of ctype.now))) }
{
    if literal {
        let element = ctype.element(alloc)?;
        Ok(is_byte_type(&element))
    } else {
        Ok(false)
    }
}

// ---- an expression with its part

/// What an expression sets in its part, and what counts as many nodes as it does.
#[derive(Drop)]
pub(crate) struct Pair {
    pub(crate) setting: Setting,
    pub(crate) counted: Shared<Expr>,
}

/// A literal in an array of characters is one node.
fn text_pair(
    alloc: Global,
    tables: &Tables,
    part: &Part,
    text: Option<Bytes>,
) -> Result<Pair, AllocError>
    ensures { IfOk result (λ y. y ≡ spec.text_pair tables.now part.now text) }
{
    let bytes = match text {
        Some(bytes) => bytes,
        None => Bytes::new(alloc),
    };
    let setting = text_setting(tables, part.ctype.get(), part.offset, bytes)?;
    let counted = Shared::new(alloc, Expr::Constant { value: 0 })?;
    Ok(Pair { setting, counted })
}

fn value_pair(tables: &Tables, part: &Part, value: Shared<Expr>) -> Result<Pair, AllocError>
    ensures { IfOk result (λ y. y ≡ spec.value_pair tables.now part.now value) }
{
    let counted = value.clone()?;
    let setting = value_setting(tables, part.ctype.get(), part.offset, value);
    Ok(Pair { setting, counted })
}

fn pair_of(alloc: Global, tables: &Tables, part: &Part, source: Source) -> Result<Pair, AllocError>
    ensures { (numbering : Numbering) (n : Noted) → spec.IsSource numbering source n → tables.now ≡ n.part.typed.after.tables → IfOk result (λ y. spec.IsPair numbering y part.now n) }
{
    let Source {
        is_literal,
        value,
        text,
    } = source;
    let whole_text = is_text(alloc, is_literal, part.ctype.get())?;
    if whole_text {
        text_pair(alloc, tables, part, text)
    } else {
        value_pair(tables, part, value)
    }
}

// ---- all of them

/// An expression that no part was there for, with the names in force behind it.
#[derive(Drop)]
pub(crate) struct Waiting {
    pub(crate) scope: Scope,
    pub(crate) source: Source,
}

/// What the expressions set that have their parts, and what counts as many nodes; and the expressions that wait.
#[derive(Drop)]
pub(crate) struct Paired {
    pub(crate) settings: Items<Setting>,
    pub(crate) counted: Items<Shared<Expr>>,
    pub(crate) waiting: Items<Waiting>,
}

/// No expression so far. It takes no memory.
pub(crate) fn none_paired(alloc: Global) -> Paired
    ensures { result ≡ spec.none_paired }
{
    Paired {
        settings: Items::new(alloc),
        counted: Items::new(alloc),
        waiting: Items::new(alloc),
    }
}

fn and_pair(pair: Pair, paired: Paired) -> Result<Paired, AllocError>
    ensures { IfOk result (λ y. y ≡ spec.and_pair pair paired) }
{
    let Pair { setting, counted } = pair;
    let mut paired = paired;
    paired.settings.push(setting)?;
    paired.counted.push(counted)?;
    Ok(paired)
}

/// An expression with the part that it sets.
fn with_part(
    alloc: Global,
    tables: &Tables,
    part: &Part,
    source: Source,
    paired: Paired,
) -> Result<Paired, AllocError>
    ensures { IfOk result (λ y. (numbering : Numbering) (n : Noted) → spec.IsSource numbering source n → tables.now ≡ n.part.typed.after.tables → spec.HasPair numbering paired part.now n y) }
{
    let pair = pair_of(alloc, tables, part, source)?;
    and_pair(pair, paired)
}

/// An expression that waits behind the others.
fn waits(scope: &Scope, source: Source, paired: Paired) -> Result<Paired, AllocError>
    ensures { IfOk result (λ y. y ≡ spec.waits scope.now source paired) }
{
    let mut paired = paired;
    let scope = scope.duplicate()?;
    paired.waiting.push(Waiting { scope, source })?;
    Ok(paired)
}

/// The first expression that waits, with its part, where one more waits behind it.
fn first_with_part(
    alloc: Global,
    scope: &Scope,
    part: &Part,
    source: Source,
    paired: Paired,
) -> Result<Paired, AllocError>
    ensures { (numbering : Numbering) (ns : List Noted) (ps : List braces.Part) (n : Noted) → spec.IsSource numbering source n → scope.now ≡ n.part.typed.after → spec.Holds numbering ns ps paired → IfOk result (λ y. spec.Holds numbering (ns ++ n ∷ []) (ps ++ part.now ∷ []) y) }
{
    let mut paired = waits(scope, source, paired)?;
    let first = paired.waiting.remove(0);
    let Waiting { scope, source } = first;
    with_part(alloc, scope.tables(), part, source, paired)
}

/// One more expression, where these parts are filled.
pub(crate) fn and_source(
    alloc: Global,
    scope: &Scope,
    parts: &Items<Shared<Part>>,
    source: Source,
    paired: Paired,
) -> Result<Paired, AllocError>
    ensures { (numbering : Numbering) (ns : List Noted) (ps : List braces.Part) (n : Noted) → spec.IsSource numbering source n → scope.now ≡ n.part.typed.after → spec.Holds numbering ns ps paired → spec.AreGrown ps parts.now → IfOk result (λ y. spec.Holds numbering (ns ++ n ∷ []) parts.now y) }
{
    match parts.get(paired.settings.len()) {
        None => waits(scope, source, paired),
        Some(part) => {
            if paired.waiting.is_empty() {
                with_part(alloc, scope.tables(), part.get(), source, paired)
            } else {
                first_with_part(alloc, scope, part.get(), source, paired)
            }
        }
    }
}
