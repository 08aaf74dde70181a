//! Expressions, and the types that stand in them. Each function goes down the tree by one node.
use crate::spelling;
use crate::text::Text;
use c_language::{
    ArrayWord, Declarator, Enumerator, Expr, Field, IntegerConstant, MemberDeclaration, Parameter,
    Qualifier, Specifier, TypeName,
};
use plain_data::Shared;
use std::alloc::AllocError;

fn integer(text: &mut Text, at: u32, constant: IntegerConstant) -> Result<(), AllocError> {
    text.open_at("integer", at)?;
    text.number(constant.value)?;
    match spelling::integer_type(constant.integer_type) {
        None => Ok(()),
        Some(word) => text.word(word),
    }
}

/// A node's first word, and the operator that follows it.
fn operation(text: &mut Text, word: &str, at: u32, operator: &str) -> Result<(), AllocError> {
    text.open_at(word, at)?;
    text.word(operator)
}

/// The start of an operand's node: its word, and what isn't an expression of it.
fn primary(text: &mut Text, e: &Expr) -> Result<(), AllocError> {
    match e {
        Expr::Integer { at, constant } => integer(text, *at, *constant),
        Expr::Floating { at } => text.open_at("floating", *at),
        Expr::Character { at, value } => {
            text.open_at("character", *at)?;
            text.signed(*value)
        }
        Expr::StringLiteral { at, pieces } => {
            text.open_at("string", *at)?;
            text.pieces(pieces.as_slice())
        }
        Expr::FunctionName { at } => text.open_at("function-name", *at),
        Expr::Identifier { at, name } => {
            text.open_at("identifier", *at)?;
            text.name(name)
        }
        Expr::Parenthesized { at, .. } => text.open_at("parenthesized", *at),
        _ => Ok(()),
    }
}

/// The start of an expression's node: its word, and what stands before its operands.
fn head(text: &mut Text, e: &Expr) -> Result<(), AllocError> {
    match e {
        Expr::Subscript { at, .. } => text.open_at("subscript", *at),
        Expr::Call { at, .. } => text.open_at("call", *at),
        Expr::Member { at, .. } => text.open_at("member", *at),
        Expr::Arrow { at, .. } => text.open_at("arrow", *at),
        Expr::Postfix { at, operator, .. } => {
            operation(text, "postfix", *at, spelling::postfix(*operator))
        }
        Expr::Unary { at, operator, .. } => {
            operation(text, "unary", *at, spelling::unary(*operator))
        }
        Expr::SizeofExpr { at, .. } => text.open_at("sizeof", *at),
        Expr::SizeofType { at, .. } => text.open_at("sizeof-type", *at),
        Expr::Cast { at, .. } => text.open_at("cast", *at),
        Expr::Binary { at, operator, .. } => {
            operation(text, "binary", *at, spelling::binary(*operator))
        }
        Expr::Conditional { at, .. } => text.open_at("conditional", *at),
        Expr::Assign { at, operator, .. } => {
            text.open_at("assign", *at)?;
            match operator {
                None => Ok(()),
                Some(operator) => text.word(spelling::binary(*operator)),
            }
        }
        Expr::Comma { at, .. } => text.open_at("comma", *at),
        _ => primary(text, e),
    }
}

/// The end of an expression's node: what stands behind its operands.
fn tail(text: &mut Text, e: &Expr) -> Result<(), AllocError> {
    match e {
        Expr::Member { member, .. } | Expr::Arrow { member, .. } => text.name(member)?,
        _ => (),
    }
    text.close()
}

/// An expression.
#[cycle(syntax)]
pub fn expr(text: &mut Text, e: &Expr) -> Result<(), AllocError> {
    head(text, e)?;
    match e {
        Expr::Parenthesized { inner: one, .. }
        | Expr::Postfix { operand: one, .. }
        | Expr::Unary { operand: one, .. }
        | Expr::SizeofExpr { operand: one, .. }
        | Expr::Member { object: one, .. }
        | Expr::Arrow { pointer: one, .. } => expr(text, one.get())?,
        Expr::Subscript {
            array: left,
            index: right,
            ..
        }
        | Expr::Binary { left, right, .. }
        | Expr::Assign {
            target: left,
            value: right,
            ..
        }
        | Expr::Comma { left, right, .. } => {
            expr(text, left.get())?;
            expr(text, right.get())?;
        }
        Expr::Conditional {
            condition,
            positive,
            negative,
            ..
        } => {
            expr(text, condition.get())?;
            expr(text, positive.get())?;
            expr(text, negative.get())?;
        }
        Expr::Call {
            callee,
            arguments,
            ..
        } => {
            expr(text, callee.get())?;
            exprs(text, arguments.as_slice())?;
        }
        Expr::SizeofType { type_name: of, .. } => type_name(text, of.get())?,
        Expr::Cast {
            type_name: to,
            operand,
            ..
        } => {
            type_name(text, to.get())?;
            expr(text, operand.get())?;
        }
        _ => (),
    }
    tail(text, e)
}

#[cycle(syntax)]
fn exprs(text: &mut Text, items: &[Shared<Expr>]) -> Result<(), AllocError> {
    for item in items {
        expr(text, item.get())?;
    }
    Ok(())
}

#[cycle(syntax)]
fn type_name(text: &mut Text, name: &TypeName) -> Result<(), AllocError> {
    text.open("type")?;
    specifiers(text, name.specifiers.as_slice())?;
    declarator(text, name.declarator.get())?;
    text.close()
}

/// The specifiers of a declaration.
#[cycle(syntax)]
pub fn specifiers(text: &mut Text, items: &[Shared<Specifier>]) -> Result<(), AllocError> {
    text.open("specifiers")?;
    for item in items {
        specifier(text, item.get())?;
    }
    text.close()
}

/// A specifier without specifiers or expressions of its own.
fn simple_specifier(text: &mut Text, s: &Specifier) -> Result<(), AllocError> {
    match s {
        Specifier::Storage { at, class } => text.word_at(spelling::storage(*class), *at),
        Specifier::Qualifier { at, qualifier } => {
            text.word_at(spelling::qualifier(*qualifier), *at)
        }
        Specifier::Inline { at } => text.word_at("inline", *at),
        Specifier::Word { at, word } => text.word_at(spelling::type_word(*word), *at),
        Specifier::Typedef { at, name } => {
            text.open_at("typedef-name", *at)?;
            text.name(name)?;
            text.close()
        }
        Specifier::Tag { at, kind, tag } => {
            text.open_at(spelling::aggregate(*kind), *at)?;
            text.tag(tag)?;
            text.close()
        }
        Specifier::EnumTag { at, tag } => {
            text.open_at("enum", *at)?;
            text.tag(tag)?;
            text.close()
        }
        _ => Ok(()),
    }
}

#[cycle(syntax)]
fn specifier(text: &mut Text, s: &Specifier) -> Result<(), AllocError> {
    match s {
        Specifier::Aggregate {
            at,
            kind,
            tag,
            members: listed,
        } => {
            text.open_at(spelling::aggregate(*kind), *at)?;
            text.optional_tag(tag)?;
            members(text, listed.as_slice())?;
            text.close()
        }
        Specifier::Enumeration {
            at,
            tag,
            enumerators: listed,
            trailing,
        } => {
            text.open_at("enum", *at)?;
            text.optional_tag(tag)?;
            enumerators(text, listed.as_slice())?;
            if *trailing {
                text.word("trailing")?;
            }
            text.close()
        }
        _ => simple_specifier(text, s),
    }
}

#[cycle(syntax)]
fn members(text: &mut Text, items: &[Shared<MemberDeclaration>]) -> Result<(), AllocError> {
    text.open("members")?;
    for item in items {
        let item = item.get();
        text.open("fields")?;
        specifiers(text, item.specifiers.as_slice())?;
        fields(text, item.fields.as_slice())?;
        text.close()?;
    }
    text.close()
}

#[cycle(syntax)]
fn fields(text: &mut Text, items: &[Shared<Field>]) -> Result<(), AllocError> {
    for item in items {
        match item.get() {
            Field::Plain { declarator: plain } => declarator(text, plain.get())?,
            Field::Bits {
                at,
                declarator: named,
                width,
            } => {
                text.open_at("bits", *at)?;
                if let Some(named) = named {
                    declarator(text, named.get())?;
                }
                expr(text, width.get())?;
                text.close()?;
            }
        }
    }
    Ok(())
}

#[cycle(syntax)]
fn enumerators(text: &mut Text, items: &[Shared<Enumerator>]) -> Result<(), AllocError> {
    text.open("enumerators")?;
    for item in items {
        let item = item.get();
        text.open_at("enumerator", item.at)?;
        text.name(&item.name)?;
        if let Some(value) = &item.value {
            expr(text, value.get())?;
        }
        text.close()?;
    }
    text.close()
}

fn qualifiers(text: &mut Text, items: &[Qualifier]) -> Result<(), AllocError> {
    for item in items {
        text.word(spelling::qualifier(*item))?;
    }
    Ok(())
}

fn array_words(text: &mut Text, items: &[ArrayWord]) -> Result<(), AllocError> {
    for item in items {
        text.word(spelling::array_word(*item))?;
    }
    Ok(())
}

/// A declarator.
#[cycle(syntax)]
pub fn declarator(text: &mut Text, d: &Declarator) -> Result<(), AllocError> {
    match d {
        Declarator::Omitted => return text.word("omitted"),
        Declarator::Name { at, name } => {
            text.open_at("name", *at)?;
            text.name(name)?;
        }
        Declarator::Grouped { at, inner } => {
            text.open_at("grouped", *at)?;
            declarator(text, inner.get())?;
        }
        Declarator::Pointer {
            at,
            qualifiers: words,
            inner,
        } => {
            text.open_at("pointer", *at)?;
            qualifiers(text, words.as_slice())?;
            declarator(text, inner.get())?;
        }
        Declarator::Array {
            at,
            inner,
            words,
            length,
        } => {
            text.open_at("array", *at)?;
            declarator(text, inner.get())?;
            array_words(text, words.as_slice())?;
            if let Some(length) = length {
                expr(text, length.get())?;
            }
        }
        Declarator::Function {
            at,
            inner,
            parameters: listed,
            variadic,
        } => {
            text.open_at("function", *at)?;
            declarator(text, inner.get())?;
            text.open("parameters")?;
            parameters(text, listed.as_slice())?;
            if *variadic {
                text.word("...")?;
            }
            text.close()?;
        }
    }
    text.close()
}

#[cycle(syntax)]
fn parameters(text: &mut Text, items: &[Shared<Parameter>]) -> Result<(), AllocError> {
    for item in items {
        let item = item.get();
        text.open("parameter")?;
        specifiers(text, item.specifiers.as_slice())?;
        declarator(text, item.declarator.get())?;
        text.close()?;
    }
    Ok(())
}
