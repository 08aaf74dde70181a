//! Selection statements (C99 6.8.4).
ghost use Rattle.std.specs.Prelude.{◌≡◌, IfOk};
ghost use Rattle.c_language.specs.Typing.{type_in};
ghost use Rattle.c_means.specs.Operators.{kind_in};
ghost use Rattle.c_means.specs.Statements as form;
ghost use Rattle.core_tree.specs.declared.code.Code.TheVariants as code;
ghost use Rattle.elaborate.specs.Types as types;
ghost use Rattle.code_forms.specs.Nodes.{negative_node};

use crate::blocks::Content;
use crate::steps::declaration;
use c_language::{IntegerKind, Told};
use core_tree::{Code, Expr};
use elaborate::word_type;
use plain_data::Shared;
use std::alloc::{AllocError, Global};

/// What is done where a condition is 0: nothing, where there is no `else`.
fn negative_part(alloc: Global, negative: Option<Shared<Code>>) -> Result<Shared<Code>, AllocError>
    ensures { IfOk result (λ y. y ≡ negative_node negative) }
{
    match negative {
        Some(negative) => Ok(negative),
        None => declaration(alloc),
    }
}

/// `if`, with or without `else` (C99 6.8.4.1), by the keyword's offset. It fails for want of memory alone.
pub fn if_else(
    alloc: Global,
    at: u32,
    condition: Shared<Expr>,
    positive: Shared<Code>,
    negative: Option<Shared<Code>>,
) -> Result<Shared<Code>, AllocError>
    ensures { IfOk result (λ y. y ≡ code.If at condition positive (negative_node negative)) }
{
    let negative = negative_part(alloc, negative)?;
    Shared::new(
        alloc,
        Code::If {
            at,
            condition,
            positive,
            negative,
        },
    )
}

/// The type in which a `switch` compares, by what is told of its expression as a value: the promoted type (C99
/// 6.8.4.2p5), and `int` where that is no integer type.
pub fn compared_kind(value: &Told) -> IntegerKind
    ensures { result ≡ form.compared_in (kind_in (type_in value.now.shown)) }
{
    match &value.shown {
        Some(shown) => match shown.ctype.kind() {
            Some(kind) => kind.promoted(),
            None => IntegerKind::Int,
        },
        None => IntegerKind::Int,
    }
}

/// `switch`, by the keyword's offset, which compares its value and the cases of its block in this type (C99 6.8.4.2).
/// It fails for want of memory alone.
pub fn switch(
    alloc: Global,
    at: u32,
    compared: IntegerKind,
    value: Shared<Expr>,
    content: Content,
) -> Result<Shared<Code>, AllocError>
    ensures { IfOk result (λ y. y ≡ code.Switch at (types.word_type compared) content.cases value content.is_compound content.items) }
{
    let Content {
        is_compound,
        items,
        cases,
    } = content;
    Shared::new(
        alloc,
        Code::Switch {
            at,
            word: word_type(compared),
            cases,
            value,
            is_node: is_compound,
            items,
        },
    )
}
